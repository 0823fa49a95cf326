//! Statements of experiments to what they come to, or to their first broken rule.
#![tactic(auto)]

mod assigning;
mod blocks;
mod calls;
mod declaring;
mod statements;

pub use statements::check_trials;
