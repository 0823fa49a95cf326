//! The machine for expressions and functions, which is given the code alone: its runs.
#![tactic(auto)]

mod ahead;
mod evaluating;
mod extent;
mod frequent;
mod fused;
mod hinting;
mod ints;
mod operands;
mod popping;
mod running;
mod soon;
mod taking;

pub use chi_exec_steps::{
    Caller, Frame, Machine, Turning, fresh_frame, path_of, pop, pop_many, put, step_count,
};
pub use evaluating::{Exec, Outlook, Ran};
pub use extent::Extent;
pub use hinting::{hints_of, stops};
pub use operands::operand_at;
pub use running::run_on;
