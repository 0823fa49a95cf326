//! The rules of targets, of what is assigned to them and of walks; and of what instances do with one another:
//! sends, receives, delays and starts.
#![tactic(auto)]

mod assignments;
mod channels;
mod elements;
mod taking;
mod targets;
mod walks;

pub use assignments::assigned;
pub use channels::{delay_of, named_receiver, receive_of, send_of};
pub use elements::{element_made, instance_target, start_of};
pub use targets::{field_step, index_step, named_target};
pub use walks::walk_of;
