//! Draws from sixty-four streams of random words, and what distributions make of them.
#![tactic(auto)]

mod counted;
mod drawn;
mod exponential;
mod fault;
mod generator;
mod laws;
mod parameters;
mod shares;
mod stream;

pub use counted::sample_after;
pub use drawn::Drawn;
pub use exponential::exponential_units;
pub use fault::DistFault;
pub use generator::Generator;
pub use laws::{draws_law, exponential_law};
