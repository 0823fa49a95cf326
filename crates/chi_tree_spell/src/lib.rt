//! The spelling of a tree: its tokens, one after the other. What the grammar's rules build of tokens is shown as a tree that
//! spells them, and that keeps no place but those of its tokens.
#![tactic(auto)]

mod definitions;
mod elements;
mod exprs;
mod laws;
mod parts;
mod speller;
mod spelling;
mod statements;
mod types;
pub mod words;

pub use laws::{places_law, spelling_law};
pub use spelling::spell;
