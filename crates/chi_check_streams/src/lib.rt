//! The streams of distributions: a pass over a core that numbers the calls that make one.
#![tactic(auto)]

mod experiments;
mod expressions;
mod parts;
mod programs;
mod statements;

pub use programs::with_streams;
