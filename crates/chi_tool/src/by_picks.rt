//! The run of a program by the picks of a text.

ghost use Rattle.std.specs.Prelude.{◌≡◌, ◌<◌, ◌^◌, false, Some, IfOk, slice_get};
ghost use Rattle.chi_core.specs.declared.program.ProcDef.{ProcDef};
ghost use Rattle.chi_core.specs.Kinds.{kinds_of};
ghost use Rattle.chi_core.specs.Of.{at_start, AreOf};
ghost use Rattle.chi_core.specs.Sound.{Sound};
ghost use Rattle.chi_tool.specs.Call.{sink_use};
ghost use Rattle.chi_tool.specs.Refusals.{mispicked};
ghost use Rattle.chi_tool.specs.Report.{IsReportByPicks, IsReportOfReplay};
ghost use Rattle.chi_tool.specs.Reported.{report_in};
ghost use Rattle.chi_tool.specs.Serving.{Makes};
ghost use Rattle.chi_tool.specs.Settings.{unpicked_of};

use crate::arguments::{Arguments, arguments_of};
use crate::refusal::{numbered, one_line};
use crate::report::{Reported, unpassed};
use crate::run::run;
use crate::settings::ByPicks;
use crate::status::MISPICKED;
use crate::task::Asked;
use chi_base::NoMemory;
use chi_core::Core;
use chi_engine::PassFault;
use chi_io::Sink;
use chi_picks::{PicksFault, read_picks};
use chi_sched::Listed;
use chi_value::Value;
use std::alloc::Global;

/// The refusal of picks by their first line that doesn't fit.
fn mispicked(alloc: Global, number: u64) -> Result<Reported, NoMemory>
    ensures { IfOk result (λ r. report_in r ≡ mispicked number) }
{
    let text = numbered(alloc, b"picks line ", number)?;
    one_line(alloc, MISPICKED, &text)
}

/// The report of a program that is to be run with these arguments by the picks of a text.
fn report_by_picks<O: Sink>(
    alloc: Global,
    core: &Core,
    arguments: Vec<Value>,
    asked: &Asked<ByPicks>,
    text: &[u8],
    out: &mut O,
) -> Result<Reported, PassFault>
    requires sound { Sound core.now }
    requires arguments { (d : ProcDef) → slice_get core.now.procs core.now.model ≡ Some d
        → AreOf (at_start core.now.names.kinds) arguments.items (kinds_of d.params) }
    requires bound { asked.now.terms.bound < 2 ^ 63 }
    requires out_goes { O.stopped out.old ≡ false }
    ensures { Makes (IsReportByPicks core.now (unpicked_of asked.now) text.now arguments.items) (sink_use O.taken O.faults O.stopped out.old out.new) result }
{
    match read_picks(alloc, text) {
        Ok(picks) => {
            let terms = asked.terms.with(Listed { picks });
            run(alloc, core, arguments, terms, out)
        }
        Err(PicksFault::Line(number)) => unpassed(mispicked(alloc, number)),
        Err(PicksFault::NoMemory) => Err(PassFault::NoMemory),
    }
}

/// The report of a program that is to be run by the picks of a text.
pub fn report_of_replay<O: Sink>(
    alloc: Global,
    core: &Core,
    asked: &Asked<ByPicks>,
    text: &[u8],
    out: &mut O,
) -> Result<Reported, PassFault>
    requires sound { Sound core.now }
    requires bound { asked.now.terms.bound < 2 ^ 63 }
    requires out_goes { O.stopped out.old ≡ false }
    ensures { Makes (IsReportOfReplay core.now (unpicked_of asked.now) text.now) (sink_use O.taken O.faults O.stopped out.old out.new) result }
{
    match arguments_of(alloc, core, asked.texts.as_slice())? {
        Arguments::Unfit(refusal) => Ok(refusal),
        Arguments::Fit(arguments) => report_by_picks(alloc, core, arguments, asked, text, out),
    }
}
