//! Laws of derivations and of what policies pick. The functions compute nothing: their contracts
//! are the laws.
#![tactic(auto)]

pub use laws::{
    choice_law, endings_law, options_law, own_numbers_law, picked_law, run_law, telling_law,
    time_law, turn_law,
};

mod laws;
