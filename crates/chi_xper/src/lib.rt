//! Experiments: what they are in terms of the runs of models, and the call that makes them over any
//! runner of models.
#![tactic(auto)]

mod blocks;
mod course;
mod deed;
mod ending;
mod items;
mod laws;
mod lines;
mod runner;
mod runs;
mod setting;
mod term;
mod whole;

pub use ending::XEnd;
pub use laws::experiment_law;
pub use runner::{RunEnd, Runner};
pub use setting::Setting;
pub use whole::experiment;
