//! How many instructions each construct of a program has.
#![tactic(auto)]

mod adding;
mod measure;
mod measure_parts;
mod measure_statements;
mod measured;

pub use adding::plus;
pub use measure_parts::is_spread;
pub use measure_statements::block;
pub use measured::{Measured, total_of};
