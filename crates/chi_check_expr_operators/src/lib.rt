//! One function a rule of operators, casts and calls of predefined names (insertion by a function among them):
//! what is made of typed operands, or that the rule is broken.
#![tactic(auto)]

mod arguments;
mod casts;
mod comparisons;
mod insertions;
mod operator_nodes;
mod operators;
mod outcomes;
mod predefined;
mod predefined_nodes;

pub use casts::cast_of;
pub use operator_nodes::{chain_of, power_of, prefix_of, relation_of};
pub use predefined_nodes::predefined_call;
