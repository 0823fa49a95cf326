//! Instances of processes as a runner keeps them: how they open selects, start others, do the items
//! that functions have too, and go on by their offers.
#![tactic(auto)]

mod alternatives;
mod draft;
mod elements;
mod instance;
mod offer;
mod opening;
mod starting;
mod targets;

pub use alternatives::open_select;
pub use draft::Draft;
pub use elements::{start_all, started_by};
pub use instance::{Instance, State};
pub use offer::{Offer, least_due, receiver_at, receiver_count, sooner};
pub use opening::Opening;
pub use starting::Starting;
