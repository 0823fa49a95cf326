//! The event of each label that the machine of processes takes, made where a probe shows it.
#![tactic(auto)]

mod event;
mod places;
mod sending;
mod showing;

pub use chi_machine::{Course, Machine};
pub use event::event_of;
