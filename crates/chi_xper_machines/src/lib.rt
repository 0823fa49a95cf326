//! The experiment of a program, whose models are run by machines: what comes of it, and how its end is told.
#![tactic(auto)]

mod constants;
mod gathered;
mod laws;
mod lines;
mod runner;
mod tale;
mod terms;
mod whole;

pub use laws::trial_law;
pub use tale::{Ended, Tale};
pub use terms::ExperimentTerms;
pub use whole::tell_experiment;
