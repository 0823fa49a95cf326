//! What the code of expressions and functions does, and that it is what these mean. Definitions and laws alone: no function
//! computes anything.
#![tactic(auto)]

mod laws;

pub use laws::{bodies_law, calls_law, constants_law, ends_law, expressions_law, items_law};
