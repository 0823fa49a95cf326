//! What the checker makes of an expression or a type doesn't depend on places. Laws alone: no function computes anything.
#![tactic(auto)]

mod laws;

pub use laws::expressions_without_places;
