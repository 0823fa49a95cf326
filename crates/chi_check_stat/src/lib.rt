//! The walk over statements: what they come to, with their blocks, and what is run and started.
#![tactic(auto)]

mod alternatives;
mod elements;
mod statements;

pub use statements::check_all;
