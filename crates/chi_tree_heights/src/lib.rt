//! The height of the core that an expression is made into, told from its tree.
#![tactic(auto)]

mod expressions;
mod types;

pub use expressions::height_of;
pub use types::type_height_of;
