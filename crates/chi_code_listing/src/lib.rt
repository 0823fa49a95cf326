//! The listing of code, as the command `code` writes it.
#![tactic(auto)]

mod instructions;
mod parts;
mod programs;
mod words;

pub use programs::listing;
