//! That a run of the code of expressions of a sound program is never stuck, where what it reads is of its kind. Laws alone:
//! no function computes anything.
#![tactic(auto)]

mod laws;

pub use laws::{constants_law, evaluations_law};
