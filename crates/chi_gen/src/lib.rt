//! The generator: from a sound Chi 3 program to its code.
#![tactic(auto)]

mod here;
mod programs;
mod selects;
mod simple;
mod statements;

pub use programs::generate;
