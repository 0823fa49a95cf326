use crate::crowd::Crowd;
use chi_exec::Machine;
use chi_machine_runs::Brought;
use chi_value::Value;
use std::alloc::Global;

/// What the machine has between two labels: its instances, the time and what was used up, and the machine that runs one of them.
#[derive(Drop)]
pub struct World {
    pub alloc: Global,
    /// A hint at each instruction of the code.
    pub hints: Vec<u8>,
    /// Its view has the draws and the number of channels.
    pub exec: Machine,
    /// What the last run of an instance brought.
    pub brought: Brought,
    pub crowd: Crowd,
    pub constants: Vec<Value>,
    /// For draws.
    pub seed: u64,
}
