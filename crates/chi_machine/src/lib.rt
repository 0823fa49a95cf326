//! The machine of processes: a program's code to its run, label by label.
#![tactic(auto)]

mod beginning;
mod course;
mod crowd;
mod instance;
mod labels;
mod local;
mod machine;
mod meeting;
mod placing;
mod running;
mod starting;
mod taken;
mod world;

pub use beginning::Begun;
pub use chi_machine_runs::Opened;
pub use course::Course;
pub use crowd::Crowd;
pub use instance::Instance;
pub use machine::{After, Machine};
pub use taken::Taken;
pub use world::World;
