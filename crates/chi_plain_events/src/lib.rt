//! The event of each label that the runner takes, made where a probe shows it.
#![tactic(auto)]

mod event;
mod showing;

pub use event::event_of;
