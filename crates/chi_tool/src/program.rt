//! What is done with the program that a source comes to.

ghost use Rattle.std.specs.Prelude.{◌≡◌, ◌<◌, ◌^◌, false, option_map};
ghost use Rattle.chi_core.specs.Picks as picks;
ghost use Rattle.chi_core.specs.Sound.{Sound};
ghost use Rattle.chi_engine.specs.Courses.{IsRunOf};
ghost use Rattle.chi_sched.specs.Policies.{Answers};
ghost use Rattle.chi_tool.specs.Call.{sink_use};
ghost use Rattle.chi_tool.specs.Report.{IsReportOfRun, IsReportOfProgram};
ghost use Rattle.chi_tool.specs.Serving.{Makes};
ghost use Rattle.chi_tool.specs.Settings.{IsBoundedFor, program_aim};

use crate::arguments::{Arguments, arguments_of};
use crate::by_engine::report_by_engine;
use crate::code::report_of_code;
use crate::refusal::one_line;
use crate::report::{Reported, unpassed};
use crate::run::run;
use crate::status::ACCEPTED;
use crate::task::ProgramPurpose;
use crate::trials::report_of_trial;
use chi_core::Core;
use chi_engine::{Engine, PassFault};
use chi_io::Sink;
use chi_sched::Chooser;
use chi_terms::Terms;
use chi_token::Bytes;
use chi_trace::Sieve;
use std::alloc::Global;

/// The report of a program that is to be run on these terms.
pub fn report_of_run<P: Chooser + Drop, S: Sieve + Drop, O: Sink>(
    alloc: Global,
    core: &Core,
    texts: &[Bytes],
    terms: Terms<P, S>,
    out: &mut O,
) -> Result<Reported, PassFault>
    requires sound { Sound core.now }
    requires bound { terms.bound < 2 ^ 63 }
    requires out_goes { O.stopped out.old ≡ false }
    ensures { (pick : picks.Pick) → Answers (P.gives terms.policy) pick
        → Makes (IsReportOfRun IsRunOf core.now (record { seed = terms.seed; bound = terms.bound; pick = pick; texts = texts.now; until = terms.until; trace = option_map S.keeps_to terms.trace }))
        (sink_use O.taken O.faults O.stopped out.old out.new) result }
{
    match arguments_of(alloc, core, texts)? {
        Arguments::Unfit(refusal) => Ok(refusal),
        Arguments::Fit(arguments) => run(alloc, core, arguments, terms, out),
    }
}

/// The report of a program: of its run by an engine, that it is accepted, the listing of its code, or what comes of its experiment.
pub fn report_of_program<E: Engine, O: Sink>(
    alloc: Global,
    core: &Core,
    purpose: &ProgramPurpose,
    out: &mut O,
    engine: &mut E,
) -> Result<Reported, PassFault>
    requires sound { Sound core.now }
    requires bounded { IsBoundedFor purpose.now }
    requires out_goes { O.stopped out.old ≡ false }
    ensures { Makes (IsReportOfProgram (E.outcome engine.old) core.now (program_aim purpose.now)) (sink_use O.taken O.faults O.stopped out.old out.new) result }
{
    match purpose {
        ProgramPurpose::Check => unpassed(one_line(alloc, ACCEPTED, b"accepted")),
        ProgramPurpose::Simulate(asked) => report_by_engine(alloc, core, asked, out, engine),
        ProgramPurpose::ListCode => unpassed(report_of_code(alloc, core)),
        ProgramPurpose::Experiment(terms) => unpassed(report_of_trial(alloc, core, *terms)),
    }
}
