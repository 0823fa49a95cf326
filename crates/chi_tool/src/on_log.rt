//! What is told of a text as a log of a program.

ghost use Rattle.std.specs.Prelude.{◌≡◌, ◌≤◌, Some, IfOk, length, slice_get};
ghost use Rattle.chi_core.specs.declared.program.ProcDef.{ProcDef};
ghost use Rattle.chi_core.specs.Kinds.{kinds_of};
ghost use Rattle.chi_core.specs.Of.{at_start, AreOf};
ghost use Rattle.chi_core.specs.Sound.{Sound};
ghost use Rattle.chi_tool.specs.Refusals.{is_log, no_log};
ghost use Rattle.chi_tool.specs.Report.{IsReportOfJudging, IsReportOnLog};
ghost use Rattle.chi_tool.specs.Reported.{report_in};
ghost use Rattle.chi_tool.specs.Settings.{unpicked_of};

use crate::arguments::{Arguments, arguments_of};
use crate::refusal::{numbered, one_line};
use crate::report::Reported;
use crate::settings::ByPicks;
use crate::status::{JUDGED, NO_LOG, PICKS_TOLD};
use crate::task::{Asked, LogPurpose, MOST_BESIDE};
use chi_base::NoMemory;
use chi_core::Core;
use chi_judge::{Judged, judge};
use chi_picks::picks_text;
use chi_value::Value;
use std::alloc::Global;

/// The refusal of a text by its first wrong line.
fn no_log(alloc: Global, line: u32) -> Result<Reported, NoMemory>
    ensures { IfOk result (λ r. report_in r ≡ no_log line) }
{
    let text = numbered(alloc, b"no at line ", u64::from(line))?;
    one_line(alloc, NO_LOG, &text)
}

/// What is told of a log whose run wrote this output and is made by these picks.
fn told(
    alloc: Global,
    purpose: LogPurpose,
    output: Vec<u8>,
    picks: &[u64],
) -> Result<Reported, NoMemory>
    ensures { IfOk result (λ r. report_in r ≡ is_log purpose output.items picks.now) }
{
    match purpose {
        LogPurpose::Judge => Ok(Reported {
            status: JUDGED,
            out: output,
            log: Vec::from_slice(alloc, b"yes\n")?,
        }),
        LogPurpose::Picks => Ok(Reported {
            status: PICKS_TOLD,
            out: picks_text(alloc, picks)?,
            log: Vec::new(alloc),
        }),
    }
}

/// The report of a text that may be a log of a program with these arguments.
fn judged(
    alloc: Global,
    core: &Core,
    arguments: Vec<Value>,
    purpose: LogPurpose,
    asked: &Asked<ByPicks>,
    text: &[u8],
) -> Result<Reported, NoMemory>
    requires sound { Sound core.now }
    requires arguments { (d : ProcDef) → slice_get core.now.procs core.now.model ≡ Some d
        → AreOf (at_start core.now.names.kinds) arguments.items (kinds_of d.params) }
    requires short { length text.now ≤ MOST_BESIDE }
    ensures { IfOk result (λ r. IsReportOnLog core.now purpose (unpicked_of asked.now) text.now arguments.items (report_in r)) }
{
    let terms = &asked.terms;
    let until = terms.units_of_until();
    let mut output = Vec::new(alloc);
    match judge(
        alloc,
        core,
        arguments,
        terms.seed,
        terms.bound,
        until,
        text,
        &mut output,
    ) {
        Judged::Yes(picks) => told(alloc, purpose, output, picks.as_slice()),
        Judged::No(line) => no_log(alloc, line),
        Judged::NoMemory => Err(NoMemory),
    }
}

/// The report of a program that is asked of a text as its log.
pub fn report_on_log(
    alloc: Global,
    core: &Core,
    purpose: LogPurpose,
    asked: &Asked<ByPicks>,
    text: &[u8],
) -> Result<Reported, NoMemory>
    requires sound { Sound core.now }
    requires short { length text.now ≤ MOST_BESIDE }
    ensures { IfOk result (λ r. IsReportOfJudging core.now purpose (unpicked_of asked.now) text.now (report_in r)) }
{
    match arguments_of(alloc, core, asked.texts.as_slice())? {
        Arguments::Unfit(refusal) => Ok(refusal),
        Arguments::Fit(arguments) => judged(alloc, core, arguments, purpose, asked, text),
    }
}
