//! Evaluates the expressions of a checked program, runs the bodies of its functions, and does the
//! items of terms that functions and processes share.
#![tactic(auto)]

mod bodies;
mod calls;
mod evaluating;
mod expressions;
mod here;
mod inserting;
mod items;
mod literals;
mod operators;
mod places;
mod reading;
mod setting;
mod surroundings;

pub use chi_core_apply::{
    channel_in, due_in, elements_in, instance_in, int_in, part_in, parts_in, real_in, truth_in,
};
pub use evaluating::{act, constant_value, spot_of, value_of, values_of};
pub use surroundings::Surroundings;
