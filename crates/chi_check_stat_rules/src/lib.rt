//! The rules of statements' values, endings and writes, and what the rules of statements speak of.
#![tactic(auto)]

mod endings;
mod home;
mod homes;
mod model_runs;
mod parts;
mod places;
mod values;
mod writes;

pub use endings::{exit_of, note_loop_word, return_of};
pub use home::{ExitType, Home};
pub use homes::{note_local, note_running, note_writing, site_of};
pub use model_runs::{assigned_run, initial_run, model_known, run_of};
pub use parts::{Aim, ModelRun, Modelled, Receiver, Started, Walked};
pub use places::{expr_place, type_place};
pub use values::{condition, constant_value, finished_one, fitted, initial_value, is_inst};
pub use writes::{format_pieces, write_of};
