//! Explanations of broken rules of typing: makes of the number of a rule and its place the words that say what the rule is, and
//! of which name.
#![tactic(auto)]

mod named;
mod names;
mod predefined;
mod rows;
mod rules;
mod typing;

pub use named::{NAMED, PREDEFINED_NAME};
pub use names::name_at;
pub use rules::RULES;
pub use typing::broken_words;
