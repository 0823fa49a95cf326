//! Typing of programs: the core of a tree in which no rule is broken, or the first rule that is.
#![tactic(auto)]

mod bodies;
mod definitions;
mod experiments;
mod late;
mod programs;

pub use chi_check_types::TypeFault;
pub use programs::check;
