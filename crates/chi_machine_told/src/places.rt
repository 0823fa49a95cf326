//! Where an instance is in its process.

ghost use Rattle.std.specs.Prelude.{◌≡◌, ◌≢◌, None, Some, IfOk, slice_get};
ghost use Rattle.chi_machine_events.specs.Events.{line_held, name_held, turn_line};
ghost use Rattle.chi_machine_laws.specs.Labels.{name_at};
ghost use Rattle.chi_machine.specs.Views.{whole_of};

use chi_base::NoMemory;
use chi_code::{Code, Instr};
use chi_machine::World;
use chi_token::Bytes;
use std::alloc::Global;

// The name of the process of this number.
#[tactic(auto, using(crate::proofs::Placed::naming))]
fn name_at(alloc: Global, code: &Code, process: u32) -> Result<Bytes, NoMemory>
    requires { name_at code.now process ≢ None }
    ensures { IfOk result (λ name. name_at code.now process ≡ Some name) }
{
    match code.procs.as_slice().get(process as usize) {
        Some(entry) => Ok(Bytes::copy_of(alloc, entry.name.as_slice())?),
        None => unreachable!(),
    }
}

/// The name of the process of instance `pid`.
pub fn name_of(alloc: Global, code: &Code, world: &World, pid: u32) -> Result<Bytes, NoMemory>
    requires { name_held code.now (slice_get (whole_of world.now).instances pid) ≢ None }
    ensures { IfOk result (λ name. name_held code.now (slice_get (whole_of world.now).instances pid) ≡ Some name) }
{
    let process = world.crowd.instances[pid as usize].process;
    name_at(alloc, code, process)
}

// The line of the turn that begins with an instruction.
fn turn_line(instr: &Instr) -> u32
    requires { turn_line (Some instr.now) ≢ None }
    ensures { turn_line (Some instr.now) ≡ Some result }
{
    match instr {
        Instr::Mark(line) => *line,
        _ => unreachable!(),
    }
}

// The line of the turn that begins at a place.
#[tactic(auto, using(crate::proofs::Placed::turning))]
fn line_at(code: &Code, at: usize) -> u32
    requires { turn_line (slice_get code.now.instrs at) ≢ None }
    ensures { turn_line (slice_get code.now.instrs at) ≡ Some result }
{
    match code.instrs.as_slice().get(at) {
        Some(instr) => turn_line(instr),
        None => unreachable!(),
    }
}

/// The line of what instance `pid` does next.
pub fn line_of(code: &Code, world: &World, pid: u32) -> u32
    requires { line_held code.now (slice_get (whole_of world.now).instances pid) ≢ None }
    ensures { line_held code.now (slice_get (whole_of world.now).instances pid) ≡ Some result }
{
    line_at(code, world.crowd.instances[pid as usize].at)
}
