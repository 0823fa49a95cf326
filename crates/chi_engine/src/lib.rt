//! Engines, which run the code of a program: what comes of a run, as an engine has it; and the engine that runs the machine.
#![tactic(auto)]

mod engine;
mod guided;
mod laws;
mod machines;

pub use chi_machine_traces::PassFault;
pub use engine::{Engine, Job};
pub use guided::run_guided;
pub use laws::course_law;
pub use machines::Machines;
