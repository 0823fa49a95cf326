//! The machine for expressions and functions: what it has, and what each instruction does.
#![tactic(auto)]

mod acting;
mod assigning;
mod calling;
mod inserting;
mod machinery;
mod making;
mod operating;
mod repeating;
mod simple;
mod stacking;
mod walking;

pub use acting::act;
pub use assigning::{assign, path_of, step_count};
pub use calling::{call, ret};
pub use machinery::{Caller, Frame, Machine, Turning, fresh_frame};
pub use operating::{is_keyed, operate};
pub use simple::{if_false, jump, load, push, tick};
pub use stacking::{pop, pop_many, put};
pub use walking::next;
