//! What an instance of a process, or a function's call, keeps: its variables by their slots, and what
//! is left for it to do; stores into parts of variables; and what is made of values, or why there is none.
#![tactic(auto)]

mod assigning;
mod elements;
mod given;
mod operators;
mod reusing;
mod scalars;
mod spots;
mod stop;
mod term;
mod variables;

pub use assigning::{spread, store_each};
pub use elements::Elements;
pub use given::{copy_of, fresh_of, insertion_of, list_of, literal_of, part_of};
pub use operators::{Operands, operator_of};
pub use scalars::copied;
pub use spots::{Spot, store};
pub use stop::Stop;
pub use term::{Head, Task, Term};
pub use variables::Variables;
