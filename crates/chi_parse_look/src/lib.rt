//! What stands next among the tokens: the functions by which both parsers look at single tokens and join what they read, and the
//! one table of the classes with which the parts that they read begin.
#![tactic(auto)]

pub mod classes;
mod join;
mod look;

pub use join::{boxed, followed, joined};
pub use look::{bytes_of, enter, is_next, refuse, take, take_name, take_one_of};
