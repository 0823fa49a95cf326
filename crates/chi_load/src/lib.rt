//! The source of a factory: a generator, so many machines in a row, and an exit, by which the
//! program shows what load it bears.
#![tactic(auto)]

mod source;

pub use source::{MOST_LENGTH, MOST_MACHINES, factory};
