//! Judges whether a text is a log that a program can give, whatever policy makes it.
#![tactic(auto)]

mod asking;
mod ending;
mod judged;
mod judging;
mod lines;
mod places;
mod reader;
mod reading;

pub use judged::Judged;
pub use judging::judge;
