//! The generator's parts: expressions, targets, guards, communications and what is started, to their code.
#![tactic(auto)]

mod copies;
mod expressing;
mod offered;
mod parts;
mod targets;
mod writer;

pub use copies::{names_copy, pieces_copy, slots_copy};
pub use expressing::{expression, expressions};
pub use offered::Offered;
pub use parts::{all_elements, communication, guard, spread};
pub use targets::{aims, indexes};
pub use writer::{behind, number_of, place, plus_one, put};
