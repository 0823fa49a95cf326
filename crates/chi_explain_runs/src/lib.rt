//! Explanations of what waits where a run comes to rest: the plain runner makes the run that a policy picks.
#![tactic(auto)]

mod laws;
mod notes;
mod run;

pub use laws::waiting_law;
pub use run::explain_rest;
