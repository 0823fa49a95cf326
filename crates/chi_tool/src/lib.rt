//! The top call: from words and files to a status and every byte that is written; and the library calls, from a source.
#![tactic(auto)]

mod arguments;
mod by_engine;
mod by_picks;
mod code;
mod deliver;
mod explain;
mod fetching;
mod help;
mod laws;
mod layout;
mod library;
mod logs;
mod on_log;
mod pairs;
mod program;
mod reading;
mod refusal;
mod report;
mod rest;
mod run;
mod serve;
mod settings;
mod source;
mod status;
mod syntax;
mod task;
mod top;
mod trials;
mod words;

pub use laws::{
    layout_law, limits_law, meets_law, one_code_law, one_run_law, one_trial_law, own_picks_law,
    report_law, rules_law, source_law, tokens_law,
};
pub use library::{replay, simulate, simulate_probed};
pub use top::chi;
