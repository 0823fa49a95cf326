//! A run of a program's code to its end, told with what a probe shows of its trace. Its output is passed on as it goes.
#![tactic(auto)]

mod lines;
mod passing;
mod run;
mod turn;

pub use passing::{PASSED_FROM, PassFault};
pub use run::{Ran, Telling, run_told};
pub use turn::turn_told;
