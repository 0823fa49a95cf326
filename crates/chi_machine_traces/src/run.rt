//! A run of a program's code to its end.

ghost use Rattle.std.specs.Prelude.{◌≡◌, ◌≤◌, [], false, IfOk, option_map};
ghost use Rattle.chi_io.specs.Counts.{Rose};
ghost use Rattle.chi_io.specs.Sink.{Grew};
ghost use Rattle.chi_machine_told.specs.Below.chi_machine.specs.Calls.{MayBegin, StartsSo};
ghost use Rattle.chi_machine_told.specs.Below.chi_machine.specs.Courses.{IsCourse};
ghost use Rattle.chi_machine_traces.specs.Passing.{OfEach, Passes};
ghost use Rattle.chi_machine_traces.specs.Told.{IsTold};
ghost use Rattle.chi_machine_traces.specs.Turns.{OfWay, first_log};

use crate::lines::first_log;
use crate::passing::{PassFault, pass_enough};
use crate::turn::turn_told;
use chi_base::NoMemory;
use chi_code::Code;
use chi_core_kinds::kinded_law;
use chi_core_runs::{picked_law, run_law, time_law, turn_law};
use chi_io::Sink;
use chi_machine_agenda::Ending;
use chi_machine_laws::{safe_law, start_law};
use chi_machine_told::{Course, Machine};
use chi_sched::Chooser;
use chi_terms::Terms;
use chi_trace::Sieve;
use chi_trace_events::tracing_law;
use chi_value::Value;
use std::alloc::Global;

/// What is told of a run.
#[derive(Debug, Drop)]
pub struct Telling {
    /// What it has written and is kept, after what was passed on of it before.
    pub out: Vec<u8>,
    /// What is logged of it before its verdict.
    pub log: Vec<u8>,
}

/// A run that has ended.
#[derive(Debug, Drop)]
pub struct Ran {
    pub ending: Ending,
    pub told: Telling,
}

// What is told before anything happens.
fn first_told<S: Sieve>(alloc: Global, trace: &Option<S>) -> Result<Telling, NoMemory>
    ensures out { IfOk result (λ told. told.out.items ≡ []) }
    ensures log { IfOk result (λ told. told.log.items ≡ first_log (option_map S.keeps_to trace.now)) }
{
    let out = Vec::new(alloc);
    let log = first_log(alloc, trace)?;
    Ok(Telling { out, log })
}

// Turns, one after another, until the run has ended. Output is passed on where enough is kept of it.
fn run_on<C: Chooser, S: Sieve, O: Sink>(
    alloc: Global,
    code: &Code,
    course: &mut Course,
    terms: &Terms<C, S>,
    told: &mut Telling,
    out: &mut O,
) -> Result<Ending, PassFault>
    requires course { IsCourse code.now course.old }
    requires out_goes { O.stopped out.old ≡ false }
    ensures passes { Passes (OfWay (C.gives terms.now.policy) (option_map S.keeps_to terms.now.trace) code.now course.old told.old)
        (λ passed end core beginning pick bound. IsTold (option_map S.keeps_to terms.now.trace) core beginning pick bound passed (record { ending = end; told = told.new }))
        (Grew (O.taken out.old) (O.taken out.new)) (Rose (O.faults out.old) (O.faults out.new)) (O.stopped out.new) result }
    ensures count { O.faults out.old ≤ O.faults out.new }
{
    safe_law();
    time_law();
    run_law();
    picked_law();
    'turn: loop {
        match turn_told(alloc, code, course, &terms.policy, &terms.trace, told) {
            Ok(None) => {}
            Ok(Some(ending)) => return Ok(ending),
            Err(_) => return Err(PassFault::NoMemory),
        }
        pass_enough(out, &mut told.out)?;
    }
}

// The run from its beginning on.
fn run_from<C: Chooser, S: Sieve, O: Sink>(
    alloc: Global,
    code: &Code,
    course: Course,
    terms: &Terms<C, S>,
    told: Telling,
    out: &mut O,
) -> Result<Ran, PassFault>
    requires course { IsCourse code.now course }
    requires out_goes { O.stopped out.old ≡ false }
    ensures passes { Passes (OfWay (C.gives terms.now.policy) (option_map S.keeps_to terms.now.trace) code.now course told)
        (λ passed ran core beginning pick bound. IsTold (option_map S.keeps_to terms.now.trace) core beginning pick bound passed ran)
        (Grew (O.taken out.old) (O.taken out.new)) (Rose (O.faults out.old) (O.faults out.new)) (O.stopped out.new) result }
    ensures count { O.faults out.old ≤ O.faults out.new }
{
    let mut course = course;
    let mut told = told;
    let ended = run_on(alloc, code, &mut course, terms, &mut told, out);
    drop(course);
    let ending = ended?;
    Ok(Ran { ending, told })
}

// The machine before anything happens, or what a fault in a constant leaves.
fn begun<C, S>(
    alloc: Global,
    code: &Code,
    arguments: Vec<Value>,
    terms: &Terms<C, S>,
) -> Result<Machine, NoMemory>
    requires { MayBegin code.now arguments.items terms.now.bound }
    ensures { IfOk result (λ machine. StartsSo code.now arguments.items terms.now.seed terms.now.until terms.now.bound machine) }
{
    let until = terms.units_of_until();
    Machine::begin(alloc, code, arguments, terms.seed, until, terms.bound)
}

/// The run of a program's code to its end, by a policy, with what a trace shows of it. Its output is passed on as it goes,
/// but for what is kept at the end.
pub fn run_told<C: Chooser, S: Sieve, O: Sink>(
    alloc: Global,
    code: &Code,
    arguments: Vec<Value>,
    terms: &Terms<C, S>,
    out: &mut O,
) -> Result<Ran, PassFault>
    requires begins { MayBegin code.now arguments.items terms.now.bound }
    requires out_goes { O.stopped out.old ≡ false }
    ensures passes { Passes (OfEach (C.gives terms.now.policy) code.now arguments.items terms.now)
        (λ passed ran core beginning pick bound. IsTold (option_map S.keeps_to terms.now.trace) core beginning pick bound passed ran)
        (Grew (O.taken out.old) (O.taken out.new)) (Rose (O.faults out.old) (O.faults out.new)) (O.stopped out.new) result }
    ensures count { O.faults out.old ≤ O.faults out.new }
{
    start_law();
    kinded_law();
    turn_law();
    tracing_law();
    let Ok(told) = first_told(alloc, &terms.trace) else {
        drop(arguments);
        return Err(PassFault::NoMemory);
    };
    match begun(alloc, code, arguments, terms)? {
        Machine::Going(course) => run_from(alloc, code, course, terms, told, out),
        Machine::Ended(ending) => Ok(Ran { ending, told }),
        Machine::Lost => unreachable!(),
    }
}
