//! What the checker makes of a parsed program is sound.
#![tactic(auto)]

mod laws;

pub use laws::parsed_programs_are_sound;
