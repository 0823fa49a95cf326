//! The run of a program, by its code, and the report of it. Its output is passed on as the run goes.

ghost use Rattle.std.specs.Prelude.{◌≡◌, ◌<◌, ◌^◌, [], false, Some, IfOk, option_map, slice_get};
ghost use Rattle.chi_code.specs.Codes.{Codes};
ghost use Rattle.chi_core.specs.declared.program.ProcDef.{ProcDef};
ghost use Rattle.chi_core.specs.Kinds.{kinds_of};
ghost use Rattle.chi_core.specs.Of.{at_start, AreOf};
ghost use Rattle.chi_core.specs.Picks.{Pick};
ghost use Rattle.chi_core.specs.Sound.{Sound};
ghost use Rattle.chi_core.specs.VerdictLine.{MayTell};
ghost use Rattle.chi_engine.specs.Courses.{IsRunOf};
ghost use Rattle.chi_sched.specs.Policies.{Answers};
ghost use Rattle.chi_tool.specs.Call.{sink_use};
ghost use Rattle.chi_tool.specs.Reported.{report_in};
ghost use Rattle.chi_tool.specs.Running.{IsRunReport, run_report};
ghost use Rattle.chi_tool.specs.Serving.{Makes};

use crate::report::{Reported, unpassed};
use crate::status::status_of;
use chi_base::NoMemory;
use chi_code::Code;
use chi_core::{Core, verdict_line};
use chi_engine::{PassFault, run_guided};
use chi_gen::generate;
use chi_io::Sink;
use chi_machine_agenda::Ending;
use chi_sched::{Chooser, chooser_law};
use chi_terms::Terms;
use chi_trace::Sieve;
use chi_value::{TextFault, Value};
use std::alloc::Global;

/// The report of a run that has ended, but for its output, which was passed on, with what is logged of it.
pub fn reported(
    alloc: Global,
    core: &Core,
    ending: Ending,
    lines: Vec<u8>,
) -> Result<Reported, NoMemory>
    requires { MayTell core.now ending.verdict }
    ensures { IfOk result (λ r. report_in r ≡ run_report core.now (record { output = []; log = lines.items; ending = ending })) }
{
    let mut log = lines;
    let status = status_of(ending.verdict());
    let written = verdict_line(
        alloc,
        ending.verdict(),
        ending.clock(),
        &core.names,
        &mut log,
    );
    drop(ending);
    match written {
        Ok(()) => Ok(Reported {
            status,
            out: Vec::new(alloc),
            log,
        }),
        Err(TextFault::Limit) => unreachable!(),
        Err(TextFault::NoMemory) => Err(NoMemory),
    }
}

/// The report of a run of a program's code on these terms, with these arguments.
fn run_code<P: Chooser + Drop, S: Sieve + Drop, O: Sink>(
    alloc: Global,
    core: &Core,
    code: &Code,
    arguments: Vec<Value>,
    terms: Terms<P, S>,
    out: &mut O,
) -> Result<Reported, PassFault>
    requires sound { Sound core.now }
    requires codes { Codes core.now code.now }
    requires arguments { (d : ProcDef) → slice_get core.now.procs core.now.model ≡ Some d
        → AreOf (at_start core.now.names.kinds) arguments.items (kinds_of d.params) }
    requires bound { terms.bound < 2 ^ 63 }
    requires out_goes { O.stopped out.old ≡ false }
    ensures { (pick : Pick) → Answers (P.gives terms.policy) pick
        → Makes (IsRunReport IsRunOf core.now (record { seed = terms.seed; bound = terms.bound; pick = pick; arguments = arguments.items; until = terms.until; trace = option_map S.keeps_to terms.trace }))
        (sink_use O.taken O.faults O.stopped out.old out.new) result }
{
    chooser_law(&terms.policy);
    let mut log = Vec::new(alloc);
    let ending = run_guided(alloc, code, arguments, &terms, &mut log, out)?;
    unpassed(reported(alloc, core, ending, log))
}

/// The report of a program's run on these terms, with these arguments.
pub fn run<P: Chooser + Drop, S: Sieve + Drop, O: Sink>(
    alloc: Global,
    core: &Core,
    arguments: Vec<Value>,
    terms: Terms<P, S>,
    out: &mut O,
) -> Result<Reported, PassFault>
    requires sound { Sound core.now }
    requires arguments { (d : ProcDef) → slice_get core.now.procs core.now.model ≡ Some d
        → AreOf (at_start core.now.names.kinds) arguments.items (kinds_of d.params) }
    requires bound { terms.bound < 2 ^ 63 }
    requires out_goes { O.stopped out.old ≡ false }
    ensures { (pick : Pick) → Answers (P.gives terms.policy) pick
        → Makes (IsRunReport IsRunOf core.now (record { seed = terms.seed; bound = terms.bound; pick = pick; arguments = arguments.items; until = terms.until; trace = option_map S.keeps_to terms.trace }))
        (sink_use O.taken O.faults O.stopped out.old out.new) result }
{
    let code = generate(alloc, core)?;
    let report = run_code(alloc, core, &code, arguments, terms, out);
    drop(code);
    report
}
