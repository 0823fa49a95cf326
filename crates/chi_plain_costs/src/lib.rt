//! Whether a label costs more than is left of the bound, told without taking it.
#![tactic(auto)]

mod spending;
mod trying;

pub use spending::spends;
