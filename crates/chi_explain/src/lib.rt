//! Explanations: makes of a refusal of a source the text that says what is wrong at its place and what could stand there.
#![tactic(auto)]

mod excerpts;
mod explanations;
mod lexical;

pub use excerpts::{
    MOST_BEFORE, MOST_SHOWN, excerpt, from_place, line_alone, numbered_line, place_law,
    put_as_shown, put_front,
};
pub use explanations::{explained, put_number};
pub use lexical::{explain_lexical, lexical_explanation_law};
