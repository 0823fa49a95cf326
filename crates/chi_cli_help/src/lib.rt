//! Help: makes of a command the text that says what it does, its options, its statuses and one example.
#![tactic(auto)]

mod help;
mod parts;
mod texts;
mod topic;

pub use help::help_text;
pub use topic::Topic;
