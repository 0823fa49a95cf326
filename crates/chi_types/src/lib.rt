//! The types of Chi 3: when a value of one type serves where another is wanted, which type two
//! types have in common, and how deep a type is.
#![tactic(auto)]

mod copying;
mod fitting;
mod joining;
mod laws;
mod sameness;
mod shape;
mod ty;

pub use fitting::fits;
pub use joining::joined;
pub use laws::{fitting_is_an_order, joined_is_common, same_is_an_equivalence};
pub use sameness::same;
pub use shape::{depth, is_plain};
pub use ty::{Ty, Way};
