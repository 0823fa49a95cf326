//! What operators, predefined names, casts and literals make of the values of their operands.
#![tactic(auto)]

mod arithmetic;
mod casts;
mod comparing;
mod containers;
mod distributions;
mod exact;
mod failure;
mod least;
mod making;
mod operands;
mod operating;
mod reading;
mod scenery;
mod slicing;
mod summing;

pub use containers::{element_at, looked_up};
pub use failure::Failure;
pub use making::{fresh, made_of, times_in};
pub use operating::{apply, of_one, of_one_used, of_two, of_two_used};
pub use reading::{
    channel_in, due_in, elements_in, instance_in, int_in, part_in, parts_from, parts_in, real_in,
    truth_in,
};
pub use scenery::Scenery;
