//! Explanations of waiting: makes of a configuration in which instances haven't finished the text that says who waits for
//! what, and where.
#![tactic(auto)]

mod joins;
mod offers;
mod partners;
mod pieces;
mod waiting;
mod whereabouts;

pub use pieces::MOST_TOLD;
pub use waiting::{explain_waiting, name_of};
pub use whereabouts::next_line;
