ghost use Rattle.std.specs.Prelude.{◌≡◌, ◌≤◌, ◌++◌, false};
ghost use Rattle.chi_core.specs.declared.program.Core.{Core};
ghost use Rattle.chi_core.specs.Picks as picks;
ghost use Rattle.chi_engine.specs.Courses.{IsRunOf};
ghost use Rattle.chi_engine.specs.Running.{RunsTo};
ghost use Rattle.chi_engine.specs.Settings.{settings_by, settings_of};
ghost use Rattle.chi_io.specs.Counts.{Rose};
ghost use Rattle.chi_io.specs.Sink.{Grew};
ghost use Rattle.chi_machine_traces.specs.Below.chi_machine.specs.Calls.{MayBegin};
ghost use Rattle.chi_machine_traces.specs.Told.{RunsCode};
ghost use Rattle.chi_sched.specs.Policies.{Answers};

use crate::engine::{Engine, Job};
use crate::guided::run_guided;
use crate::laws::course_law;
use chi_cli::Pick;
use chi_code::Code;
use chi_io::Sink;
use chi_machine_agenda::Ending;
use chi_machine_traces::PassFault;
use chi_sched::{Chooser, First, Last, Spread};
use std::alloc::Global;

/// The engine that runs the machine.
#[derive(Clone, Copy, Debug)]
pub struct Machines;

// Runs the code by the machine, by this policy in place of what names one.
fn run_by_policy<C: Chooser + Drop, O: Sink>(
    alloc: Global,
    code: &Code,
    job: Job,
    policy: C,
    log: &mut Vec<u8>,
    out: &mut O,
) -> Result<Ending, PassFault>
    requires begins { MayBegin code.now job.arguments.items job.terms.bound }
    requires out_goes { O.stopped out.old ≡ false }
    ensures comes { (core : Core) → RunsCode core code.now job.arguments.items → (pick : picks.Pick) → Answers (C.gives policy) pick
        → RunsTo (IsRunOf core (settings_by pick job.terms.trace job.arguments.items job.terms)) core
        (Grew (O.taken out.old) (O.taken out.new)) (λ lines. log.new.items ≡ log.old.items ++ lines)
        (Rose (O.faults out.old) (O.faults out.new)) (O.stopped out.new) result }
    ensures count { O.faults out.old ≤ O.faults out.new }
{
    let Job { arguments, terms } = job;
    let terms = terms.with(policy);
    run_guided(alloc, code, arguments, &terms, log, out)
}

// The same, with the policy that words name.
fn run_named<O: Sink>(
    alloc: Global,
    code: &Code,
    job: Job,
    log: &mut Vec<u8>,
    out: &mut O,
) -> Result<Ending, PassFault>
    requires begins { MayBegin code.now job.arguments.items job.terms.bound }
    requires out_goes { O.stopped out.old ≡ false }
    ensures comes { (core : Core) → RunsCode core code.now job.arguments.items → RunsTo (IsRunOf core (settings_of job)) core
        (Grew (O.taken out.old) (O.taken out.new)) (λ lines. log.new.items ≡ log.old.items ++ lines)
        (Rose (O.faults out.old) (O.faults out.new)) (O.stopped out.new) result }
    ensures count { O.faults out.old ≤ O.faults out.new }
{
    match job.terms.policy {
        Pick::First => run_by_policy(alloc, code, job, First, log, out),
        Pick::Last => run_by_policy(alloc, code, job, Last, log, out),
        Pick::Spread(salt) => run_by_policy(alloc, code, job, Spread { salt }, log, out),
    }
}

impl Engine for Machines {
    ghost outcome = { λ _. IsRunOf };

    fn run<O: Sink>(
        &mut self,
        alloc: Global,
        code: &Code,
        job: Job,
        log: &mut Vec<u8>,
        out: &mut O,
    ) -> Result<Ending, PassFault> {
        run_named(alloc, code, job, log, out)
    }

    fn law(&self) {
        course_law();
    }
}
