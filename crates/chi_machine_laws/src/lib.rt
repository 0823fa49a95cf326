//! What the machine of processes does, which is given code alone, and that it takes exactly the steps of the language.
//! Definitions and laws alone: no function computes anything.
#![tactic(auto)]

mod laws;

pub use laws::{
    lists_law, openings_law, options_law, safe_law, start_law, startings_law, step_law, turns_law,
};
