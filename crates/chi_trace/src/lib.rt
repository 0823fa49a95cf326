//! The lines of a trace: an event of a run to its line, and back.
#![tactic(auto)]

mod detail;
mod event;
mod fault;
mod filter;
mod laws;
mod line;
mod log;
mod name;
mod numeral;
mod parts;
mod probe;
mod read;
mod time;

pub use event::{Detail, Event};
pub use fault::{LogFault, TraceFault};
pub use filter::{EventKind, Filter, admits, matches};
pub use laws::{first_lines_law, lines_1_law, lines_law, logs_law};
pub use line::{line_of, line_up};
pub use log::{MOST_LOG_BYTES, log_up, next_line};
pub use probe::{Probe, Sieve, Test};
pub use read::{read_line, read_line_1};

/// The first line of a trace of version 2, without its line feed.
pub const FIRST_LINE: &str = "trace 2";

/// The first line of a trace of version 1, without its line feed.
pub const FIRST_LINE_1: &str = "trace 1";
