//! Explanations of endings: makes of how a run ended the text that says it in words, with the line of the source where a
//! fault came.
#![tactic(auto)]

mod endings;
mod faults;

pub use endings::explain_ending;
pub use faults::fault_words;
