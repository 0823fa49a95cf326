//! What the checker makes of a program is sound: its expressions and types, the parts of its statements, its
//! bodies and the whole. Laws alone: no function computes anything.
#![tactic(auto)]

mod part_laws;
mod program_laws;
mod statement_laws;
mod type_laws;

pub use part_laws::{communications_are_sound, targets_are_sound, values_are_sound};
pub use program_laws::{programs_are_sound, unbroken_programs_come_to_cores};
pub use statement_laws::{bodies_are_sound, slots_are_new, statements_are_sound, trials_are_sound};
pub use type_laws::{conversions_are_sound, expressions_are_sound, types_are_sound};
