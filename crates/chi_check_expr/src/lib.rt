//! Typing of expressions and types: what each comes to with the names that are visible, or its first broken rule.
#![tactic(auto)]

mod answers;
mod calls;
mod entering;
mod fields;
mod laws;
mod typing;

pub use answers::{type_expr, type_tree};
pub use chi_check_types::{Known, Scope, Site, TypeFault};
pub use entering::{MOST_HEIGHT, mean_in, type_in};
pub use laws::typing_is_exact;
