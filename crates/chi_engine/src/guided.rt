//! A run of a program's code by the machine, with its whole output passed on and what is logged of it.

ghost use Rattle.std.specs.Prelude.{◌≡◌, ◌≤◌, ◌++◌, false, OnOk, option_map};
ghost use Rattle.chi_core.specs.declared.program.Core.{Core};
ghost use Rattle.chi_core.specs.Picks.{Pick};
ghost use Rattle.chi_engine.specs.Courses.{IsRunOf};
ghost use Rattle.chi_engine.specs.Running.{PassesRest, RunsTo};
ghost use Rattle.chi_engine.specs.Settings.{settings_by};
ghost use Rattle.chi_io.specs.Counts.{Rose};
ghost use Rattle.chi_io.specs.Sink.{Grew};
ghost use Rattle.chi_machine_traces.specs.Below.chi_machine.specs.Calls.{MayBegin};
ghost use Rattle.chi_machine_traces.specs.Told.{RunsCode};
ghost use Rattle.chi_sched.specs.Policies.{Answers};

use crate::laws::course_law;
use chi_base::NoMemory;
use chi_code::Code;
use chi_core_runs::{endings_law, picked_law};
use chi_io::{Sink, put_all};
use chi_machine_agenda::Ending;
use chi_machine_traces::{PassFault, Ran, Telling, run_told};
use chi_sched::Chooser;
use chi_terms::Terms;
use chi_trace::Sieve;
use chi_value::Value;
use std::alloc::Global;

// Lines come to the end of a log; where that is empty they are it, and nothing is copied.
fn add_lines(log: &mut Vec<u8>, lines: Vec<u8>) -> Result<(), NoMemory>
    ensures { OnOk result (log.new.items ≡ log.old.items ++ lines.items) }
{
    if log.is_empty() {
        *log = lines;
        return Ok(());
    }
    log.extend_from_slice(&lines)?;
    Ok(())
}

// What is kept of a run at its end: its lines come to the log, and the rest of its output is passed on.
fn pass_end<O: Sink>(told: Telling, log: &mut Vec<u8>, out: &mut O) -> Result<(), PassFault>
    requires { O.stopped out.old ≡ false }
    ensures passes { PassesRest told.out.items (Grew (O.taken out.old) (O.taken out.new)) (Rose (O.faults out.old) (O.faults out.new)) (O.stopped out.new) result }
    ensures logged { OnOk result (log.new.items ≡ log.old.items ++ told.log.items) }
    ensures count { O.faults out.old ≤ O.faults out.new }
{
    let Telling {
        out: rest,
        log: lines,
    } = told;
    add_lines(log, lines)?;
    match put_all(out, &rest) {
        Ok(()) => Ok(()),
        Err(_) => Err(PassFault::Stopped),
    }
}

/// Runs the code of whichever program it is by the machine, and tells how its run ended. Its output is passed on as it goes,
/// and to the log comes what is logged before the verdict.
pub fn run_guided<C: Chooser, S: Sieve, O: Sink>(
    alloc: Global,
    code: &Code,
    arguments: Vec<Value>,
    terms: &Terms<C, S>,
    log: &mut Vec<u8>,
    out: &mut O,
) -> Result<Ending, PassFault>
    requires begins { MayBegin code.now arguments.items terms.now.bound }
    requires out_goes { O.stopped out.old ≡ false }
    ensures comes { (core : Core) → RunsCode core code.now arguments.items → (pick : Pick) → Answers (C.gives terms.now.policy) pick
        → RunsTo (IsRunOf core (settings_by pick (option_map S.keeps_to terms.now.trace) arguments.items terms.now)) core
        (Grew (O.taken out.old) (O.taken out.new)) (λ lines. log.new.items ≡ log.old.items ++ lines)
        (Rose (O.faults out.old) (O.faults out.new)) (O.stopped out.new) result }
    ensures count { O.faults out.old ≤ O.faults out.new }
{
    endings_law();
    picked_law();
    course_law();
    let ran = run_told(alloc, code, arguments, terms, out)?;
    let Ran { ending, told } = ran;
    match pass_end(told, log, out) {
        Ok(()) => Ok(ending),
        Err(fault) => {
            drop(ending);
            Err(fault)
        }
    }
}
