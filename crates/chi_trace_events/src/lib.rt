//! The events of a run: what a trace tells of each label, and the traces of whole runs.
#![tactic(auto)]

mod laws;
mod plain;
mod value;

pub use laws::{events_law, trace_law, tracing_law};
pub use value::{MOST_SHOWN, sent_text};
