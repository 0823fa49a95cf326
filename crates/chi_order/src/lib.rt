//! A set of numbers that finds its n-th member, and due times of numbers, of which the least is at hand. Each takes few
//! steps, which are counted.
#![tactic(auto)]

mod bits;
mod dues;
mod heap;
mod ranks;
mod steps;
mod tree;

pub use dues::Dues;
pub use ranks::Ranks;
pub use steps::Steps;
