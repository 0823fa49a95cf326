//! Runs of a program's models by machines.

ghost use Rattle.std.specs.Prelude.{◌≡◌, ◌<◌, ◌^◌, [], None, IfOk};
ghost use Rattle.chi_core.specs.declared.program.Core.{Core};
ghost use Rattle.chi_engine.specs.Courses.{IsRunOf};
ghost use Rattle.chi_engine.specs.Settings.{policy_of, settings_of};
ghost use Rattle.chi_engine.specs.Below.chi_machine_traces.specs.Below.chi_machine.specs.Calls.{MayBegin};
ghost use Rattle.chi_engine.specs.Below.chi_machine_traces.specs.Told.{RunsCode};
ghost use Rattle.chi_xper.specs.Ends.{ComesTo};
ghost use Rattle.chi_xper.specs.Experiments.{Outcome};
ghost use Rattle.chi_xper_runs.specs.Models.{IsOutcome, with_model};
ghost use Rattle.chi_xper_machines.specs.Runs.{MayBeMade, Wrote, outcome_with, outcomes_by};

use crate::gathered::Gathered;
use chi_base::NoMemory;
use chi_cli::Pick;
use chi_code::Code;
use chi_core::{Core, Verdict};
use chi_core_runs::picked_law;
use chi_engine::{Engine, Job, Machines};
use chi_machine_agenda::Ending;
use chi_terms::Terms;
use chi_value::Value;
use chi_xper::{RunEnd, Runner};
use std::alloc::Global;

/// The same verdict once more.
fn copy_of(alloc: Global, verdict: &Verdict) -> Result<Verdict, NoMemory>
    ensures { IfOk result (λ copy. copy ≡ verdict.now) }
{
    match verdict {
        Verdict::Completed => Ok(Verdict::Completed),
        Verdict::Exit(None) => Ok(Verdict::Exit(None)),
        Verdict::Exit(Some(value)) => {
            let value = value.copy(alloc)?;
            Ok(Verdict::Exit(Some(value)))
        }
        Verdict::Deadlock => Ok(Verdict::Deadlock),
        Verdict::Fault(kind, name, line) => {
            let name = name.copy()?;
            Ok(Verdict::Fault(*kind, name, *line))
        }
        Verdict::OutOfSteps => Ok(Verdict::OutOfSteps),
        Verdict::Stopped => Ok(Verdict::Stopped),
    }
}

/// What a run comes to that wrote this and ended so.
fn append(alloc: Global, text: &[u8], ending: &Ending, out: &mut Vec<u8>) -> RunEnd
    ensures { ComesTo (outcome_with text.now ending.now) out.old.items out.new.items result }
{
    let Ok(verdict) = copy_of(alloc, ending.verdict()) else {
        return RunEnd::NoMemory;
    };
    if out.extend_from_slice(text).is_err() {
        drop(verdict);
        return RunEnd::NoMemory;
    }
    RunEnd::Ended(verdict, ending.clock())
}

/// Runs the code of whichever program it is, and gathers what the run writes.
fn gather(alloc: Global, code: &Code, job: Job, sink: &mut Gathered) -> Result<Ending, NoMemory>
    requires begins { MayBegin code.now job.arguments.items job.terms.bound }
    requires empty { sink.old.bytes.items ≡ [] }
    requires going { sink.old.faults ≡ 0 }
    ensures { IfOk result (λ ending. (core : Core) → RunsCode core code.now job.arguments.items → Wrote (IsRunOf core (settings_of job)) sink.new.bytes.items ending) }
{
    let mut log = Vec::new(alloc);
    let mut engine = Machines;
    let ran = engine.run(alloc, code, job, &mut log, sink);
    drop(log);
    match ran {
        Ok(ending) => Ok(ending),
        Err(_) => Err(NoMemory),
    }
}

/// The run of a program, which differs from this one in its model alone, by its code.
fn run_code(alloc: Global, core: &Core, code: &Code, job: Job, out: &mut Vec<u8>) -> RunEnd
    requires runs { RunsCode (with_model core.now code.now.model) code.now job.arguments.items }
    requires bound { job.terms.bound < 2 ^ 63 }
    requires until { job.terms.until ≡ None }
    ensures { (outcome : Outcome) → IsOutcome core.now (policy_of job.terms.policy) job.terms.bound code.now.model job.arguments.items job.terms.seed outcome → ComesTo outcome out.old.items out.new.items result }
{
    picked_law();
    let _core = core;
    let mut sink = Gathered::new(alloc);
    let Ok(ending) = gather(alloc, code, job, &mut sink) else {
        return RunEnd::NoMemory;
    };
    let end = append(alloc, sink.bytes.as_slice(), &ending, out);
    drop(ending);
    end
}

/// Machines that run the models of a program, each run with the whole bound for itself.
#[derive(Drop)]
pub struct Machinery<'a> {
    pub alloc: Global,
    pub core: &'a Core,
    /// Its code, which names the model that was run last.
    pub code: Code,
    pub pick: Pick,
    pub bound: u64,
}

impl Runner for Machinery<'_> {
    ghost allows = { λ machinery. MayBeMade machinery.core.now machinery.code machinery.bound };

    ghost outcome = { λ machinery. outcomes_by machinery.core.now (policy_of machinery.pick) machinery.bound };

    fn run(&mut self, model: u32, arguments: Vec<Value>, seed: u64, out: &mut Vec<u8>) -> RunEnd {
        picked_law();
        self.code.model = model;
        let terms = Terms {
            seed,
            bound: self.bound,
            policy: self.pick,
            until: None,
            trace: None,
        };
        let job = Job { arguments, terms };
        run_code(self.alloc, self.core, &self.code, job, out)
    }
}
