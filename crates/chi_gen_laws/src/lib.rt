//! Each sound program has exactly one code. A law alone: no function computes anything.
#![tactic(auto)]

mod laws;

pub use laws::sound_programs_have_one_code;
