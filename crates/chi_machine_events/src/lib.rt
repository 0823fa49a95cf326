//! What a trace tells of the labels of the machine of processes. Laws alone: the functions compute nothing, and their
//! contracts are the laws.
#![tactic(auto)]

mod laws;

pub use laws::events_alike_law;
