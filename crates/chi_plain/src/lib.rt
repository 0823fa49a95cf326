//! Runs a core by scanning: the options of an instance are found by going over its offers (`chi_plain_options`). Which instances
//! have one is kept, and mended after each step for those that the step may have given or taken one.
//! It is slow and plain, and keeps to the semantics step by step.
#![tactic(auto)]

mod actors;
mod ending;
mod plain;
mod progress;
mod stepped;
mod taking;
mod watching;

pub use plain::Plain;
pub use stepped::Stepped;
