//! What the checker makes of a program doesn't depend on places, but for the lines in its core. Laws alone: no function
//! computes anything.
#![tactic(auto)]

mod laws;

pub use laws::{programs_without_places, statements_without_places, streams_without_lines};
