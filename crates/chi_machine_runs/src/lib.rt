//! A run of an instance within a step, by the code; and how one that waited goes on.
#![tactic(auto)]

mod acting;
mod alone;
mod brought;
mod doing;
mod joining;
mod made;
mod making;
mod offering;
mod opened;
mod running;
mod settling;
mod speaking;
mod taken;
mod within;

pub use brought::Brought;
pub use doing::Doing;
pub use made::{Made, Room};
pub use opened::{Binding, Carried, Kept, Opened};
pub use running::run;
pub use settling::settle;
pub use within::Within;
