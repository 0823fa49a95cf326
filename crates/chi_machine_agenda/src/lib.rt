//! What each instance waits for, and so which of them may act: waiting lists, those that are ready, due times and joiners
//! as one structure, which knows no code and no values.
#![tactic(auto)]

mod adding;
mod agenda;
mod choosing;
mod ending;
mod joining;
mod laws;
mod marking;
mod meeting;
mod rows;
mod standing;
mod timing;

pub use agenda::Agenda;
pub use ending::Ending;
pub use laws::agenda_law;
