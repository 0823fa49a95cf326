//! Explanations of arguments: makes of what doesn't fit the parameters of a model the text that says which parameter it is,
//! and what is wanted there.
#![tactic(auto)]

mod arguments;
mod types;

pub use arguments::{explain_argument, explain_count, explain_kind};
