//! Explanations of broken rules of typing, whole: makes of a tree, the number of a rule and its place the text that says how many
//! there are and how many there should be, where the rule is broken by a number, or what the rule is.
#![tactic(auto)]

mod counted;
mod definitions;
mod expressions;
mod numbers;
mod statements;
mod told;
mod types;

pub use counted::Counted;
pub use told::explain_rule;
