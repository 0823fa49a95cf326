//! Grammars as data, and the theory of reading them with one token ahead: a tree of a grammar, the
//! fronts of its trees, and what a parser that is exact answers.
#![tactic(auto)]

mod fault;
mod laws;
mod room;

pub use fault::ParseFault;
pub use laws::{front_law, one_answer_law, one_tree_law, room_law, whole_answer_law};
pub use room::{Nesting, Room};

#[cfg(test)]
mod sums;
#[cfg(test)]
mod tests;
