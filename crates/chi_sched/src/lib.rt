//! Policies: which choice is picked at each question of a run.
#![tactic(auto)]

mod chooser;
mod formulas;
mod laws;
mod policy;

pub use chooser::Chooser;
pub use formulas::{First, Last, Listed, Spread, first_of, last_of, listed_of, spread_of};
pub use laws::chooser_law;
pub use policy::{Closure, Policy};
