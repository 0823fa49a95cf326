//! Waiting lists: the offers of the instances that wait, for each channel those that send on it and those that receive
//! from it, and which options an instance has.
#![tactic(auto)]

mod line;
mod lines;
mod listing;
mod offers;
mod options;
mod seats;
mod waiting;

pub use offers::{Choice, Offer, Party};
pub use waiting::Waiting;
