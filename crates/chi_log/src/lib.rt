//! The logs of runs, and which texts are logs that a program can give. Laws alone: the functions compute nothing, and
//! their contracts are the laws.
#![tactic(auto)]

pub use laws::{judging_law, one_log_law, reading_law};

mod laws;
