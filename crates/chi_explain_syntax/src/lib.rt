//! Explanations of syntax: makes of the token at which a source is no program the text that says what stands there and what
//! could.
#![tactic(auto)]

mod fault;
mod listing;
mod standing;
mod syntax;

pub use fault::MOST_TOKENS;
pub use syntax::{explain_syntax, syntax_explanation_law};
