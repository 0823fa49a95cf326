//! A law of waiting lists: their options are those of the semantics. The function computes nothing: its contract is the law.
#![tactic(auto)]

mod laws;

pub use laws::options_law;
