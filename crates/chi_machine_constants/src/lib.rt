//! The constants of a program, set by their code before its run begins.
#![tactic(auto)]

mod lines;
mod setting;

pub use setting::{Constants, fresh_machine, set_constants};
