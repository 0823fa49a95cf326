//! Texts of picks: a line for each number by which a run is picked.
#![tactic(auto)]

mod fault;
mod laws;
mod read;
mod write;

pub use fault::PicksFault;
pub use laws::picks_law;
pub use read::read_picks;
pub use write::picks_text;
