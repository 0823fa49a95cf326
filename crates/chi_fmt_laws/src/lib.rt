//! A program and its canonical layout come to the same, but for places and lines. Laws alone: no function computes anything.
#![tactic(auto)]

mod laws;

pub use laws::{laid_out_core_law, laid_out_law};
