//! The code of a checked Chi 3 program: its instructions, and where each construct of the program stands among them.
#![tactic(auto)]

mod code;
mod instr;
mod laws;

pub use code::{Around, Code, Entry};
pub use instr::{Aim, AimStep, Instr};
pub use laws::{
    code_is_unique, literals_can_be_listed, what_a_function_names, what_a_process_names,
    what_code_names,
};
