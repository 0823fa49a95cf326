//! The run of a program that words ask to be simulated: an engine runs its code, and the report is made of what that tells.

ghost use Rattle.std.specs.Prelude.{◌≡◌, ◌<◌, ◌^◌, false, Some, slice_get};
ghost use Rattle.chi_code.specs.Codes.{Codes};
ghost use Rattle.chi_core.specs.declared.program.ProcDef.{ProcDef};
ghost use Rattle.chi_core.specs.Kinds.{kinds_of};
ghost use Rattle.chi_core.specs.Of.{at_start, AreOf};
ghost use Rattle.chi_core.specs.Sound.{Sound};
ghost use Rattle.chi_engine.specs.Settings.{settings_of};
ghost use Rattle.chi_tool.specs.Call.{sink_use};
ghost use Rattle.chi_tool.specs.Report.{IsReportOfRun};
ghost use Rattle.chi_tool.specs.Running.{IsRunReport};
ghost use Rattle.chi_tool.specs.Serving.{Makes, RunsAs};
ghost use Rattle.chi_tool.specs.Settings.{settings_with, wanted_of};

use crate::arguments::{Arguments, arguments_of};
use crate::report::{Reported, unpassed};
use crate::run::reported;
use crate::task::Asked;
use chi_cli::Pick;
use chi_code::Code;
use chi_core::Core;
use chi_engine::{Engine, Job, PassFault};
use chi_gen::generate;
use chi_io::Sink;
use chi_machine_agenda::Ending;
use chi_value::Value;
use std::alloc::Global;

/// How a run has ended, and what was logged of it.
#[derive(Drop)]
pub struct Ran {
    pub ending: Ending,
    pub log: Vec<u8>,
}

/// Runs a program's code by an engine.
fn run_job<E: Engine, O: Sink>(
    alloc: Global,
    core: &Core,
    code: &Code,
    job: Job,
    out: &mut O,
    engine: &mut E,
) -> Result<Ran, PassFault>
    requires sound { Sound core.now }
    requires codes { Codes core.now code.now }
    requires arguments { (d : ProcDef) → slice_get core.now.procs core.now.model ≡ Some d
        → AreOf (at_start core.now.names.kinds) job.arguments.items (kinds_of d.params) }
    requires bound { job.terms.bound < 2 ^ 63 }
    requires out_goes { O.stopped out.old ≡ false }
    ensures { RunsAs (E.outcome engine.old) core.now (settings_of job) (sink_use O.taken O.faults O.stopped out.old out.new) result }
{
    let _core = core;
    let mut log = Vec::new(alloc);
    let ending = engine.run(alloc, code, job, &mut log, out)?;
    Ok(Ran { ending, log })
}

/// Runs a program by an engine as words ask, with these arguments.
pub fn run_by_engine<E: Engine, O: Sink>(
    alloc: Global,
    core: &Core,
    arguments: Vec<Value>,
    asked: &Asked<Pick>,
    out: &mut O,
    engine: &mut E,
) -> Result<Ran, PassFault>
    requires sound { Sound core.now }
    requires arguments { (d : ProcDef) → slice_get core.now.procs core.now.model ≡ Some d
        → AreOf (at_start core.now.names.kinds) arguments.items (kinds_of d.params) }
    requires bound { asked.now.terms.bound < 2 ^ 63 }
    requires out_goes { O.stopped out.old ≡ false }
    ensures { RunsAs (E.outcome engine.old) core.now (settings_with (wanted_of asked.now) arguments.items)
        (sink_use O.taken O.faults O.stopped out.old out.new) result }
{
    let code = generate(alloc, core)?;
    let terms = asked.terms.with(asked.terms.policy);
    let job = Job { arguments, terms };
    let ran = run_job(alloc, core, &code, job, out, engine);
    drop(code);
    ran
}

/// The report of a program that is run by an engine as words ask, with these arguments.
fn report_with<E: Engine, O: Sink>(
    alloc: Global,
    core: &Core,
    arguments: Vec<Value>,
    asked: &Asked<Pick>,
    out: &mut O,
    engine: &mut E,
) -> Result<Reported, PassFault>
    requires sound { Sound core.now }
    requires arguments { (d : ProcDef) → slice_get core.now.procs core.now.model ≡ Some d
        → AreOf (at_start core.now.names.kinds) arguments.items (kinds_of d.params) }
    requires bound { asked.now.terms.bound < 2 ^ 63 }
    requires out_goes { O.stopped out.old ≡ false }
    ensures { Makes (IsRunReport (E.outcome engine.old) core.now (settings_with (wanted_of asked.now) arguments.items))
        (sink_use O.taken O.faults O.stopped out.old out.new) result }
{
    let ran = run_by_engine(alloc, core, arguments, asked, out, engine)?;
    unpassed(reported(alloc, core, ran.ending, ran.log))
}

/// The report of a program that words ask to be run.
pub fn report_by_engine<E: Engine, O: Sink>(
    alloc: Global,
    core: &Core,
    asked: &Asked<Pick>,
    out: &mut O,
    engine: &mut E,
) -> Result<Reported, PassFault>
    requires sound { Sound core.now }
    requires bound { asked.now.terms.bound < 2 ^ 63 }
    requires out_goes { O.stopped out.old ≡ false }
    ensures { Makes (IsReportOfRun (E.outcome engine.old) core.now (wanted_of asked.now)) (sink_use O.taken O.faults O.stopped out.old out.new) result }
{
    match arguments_of(alloc, core, asked.texts.as_slice())? {
        Arguments::Unfit(refusal) => Ok(refusal),
        Arguments::Fit(arguments) => report_with(alloc, core, arguments, asked, out, engine),
    }
}
