//! What is done with a source and the text of a second file.

ghost use Rattle.std.specs.Prelude.{◌≡◌, ◌≤◌, false, length};
ghost use Rattle.chi_tool.specs.Call.{sink_use, shelf_use};
ghost use Rattle.chi_core.specs.Sound.{Sound};
ghost use Rattle.chi_engine.specs.Courses.{IsRunOf};
ghost use Rattle.chi_tool.specs.Report.{IsReportOfProgram, IsReportOfSource};
ghost use Rattle.chi_tool.specs.Serving.{Makes, ServesBeside, ServesPair, Tells};
ghost use Rattle.chi_tool.specs.Settings.{IsBoundedPair, pair_aim};

use crate::by_picks::report_of_replay;
use crate::deliver::deliver;
use crate::fetching::fetched;
use crate::on_log::report_on_log;
use crate::report::{Reported, unpassed};
use crate::source::{Source, read};
use crate::status::status_without;
use crate::task::{MOST_BESIDE, Pair, PairPurpose};
use chi_core::Core;
use chi_engine::PassFault;
use chi_io::{Shelf, Sink};
use chi_lex::MOST_BYTES;
use std::alloc::Global;

/// The report of a program and a text.
fn report_by<O: Sink>(
    alloc: Global,
    core: &Core,
    text: &[u8],
    purpose: &PairPurpose,
    out: &mut O,
) -> Result<Reported, PassFault>
    requires sound { Sound core.now }
    requires short { length text.now ≤ MOST_BESIDE }
    requires bounded { IsBoundedPair purpose.now }
    requires out_goes { O.stopped out.old ≡ false }
    ensures { Makes (IsReportOfProgram IsRunOf core.now (pair_aim purpose.now text.now)) (sink_use O.taken O.faults O.stopped out.old out.new) result }
{
    match purpose {
        PairPurpose::Replay(asked) => report_of_replay(alloc, core, asked, text, out),
        PairPurpose::OnLog(wanted, asked) => {
            unpassed(report_on_log(alloc, core, *wanted, asked, text))
        }
    }
}

/// The report of a source and a text.
fn report_of_pair<O: Sink>(
    alloc: Global,
    source: &[u8],
    text: &[u8],
    purpose: &PairPurpose,
    out: &mut O,
) -> Result<Reported, PassFault>
    requires within { length source.now ≤ MOST_BYTES }
    requires short { length text.now ≤ MOST_BESIDE }
    requires bounded { IsBoundedPair purpose.now }
    requires out_goes { O.stopped out.old ≡ false }
    ensures { Makes (IsReportOfSource IsRunOf source.now (pair_aim purpose.now text.now)) (sink_use O.taken O.faults O.stopped out.old out.new) result }
{
    match read(alloc, source)? {
        Source::Refused(refusal) => Ok(refusal),
        Source::Program(core) => report_by(alloc, &core, text, purpose, out),
    }
}

/// Delivers that report.
fn tell_pair<O: Sink, L: Sink>(
    alloc: Global,
    source: &[u8],
    text: &[u8],
    purpose: &PairPurpose,
    out: &mut O,
    log: &mut L,
) -> u8
    requires out_goes { O.stopped out.old ≡ false }
    requires log_goes { L.stopped log.old ≡ false }
    requires within { length source.now ≤ MOST_BYTES }
    requires short { length text.now ≤ MOST_BESIDE }
    requires bounded { IsBoundedPair purpose.now }
    ensures { Tells (IsReportOfSource IsRunOf source.now (pair_aim purpose.now text.now)) result
        (sink_use O.taken O.faults O.stopped out.old out.new) (sink_use L.taken L.faults L.stopped log.old log.new) }
{
    match report_of_pair(alloc, source, text, purpose, out) {
        Ok(report) => deliver(report.status, out, &report.out, log, &report.log),
        Err(fault) => status_without(fault),
    }
}

/// Fetches the second file, where it has another name, and delivers the report of both or the refusal of the second.
fn serve_beside<H: Shelf, O: Sink, L: Sink>(
    alloc: Global,
    source: &[u8],
    pair: &Pair,
    shelf: &mut H,
    out: &mut O,
    log: &mut L,
) -> u8
    requires out_goes { O.stopped out.old ≡ false }
    requires log_goes { L.stopped log.old ≡ false }
    requires within { length source.now ≤ MOST_BYTES }
    requires bounded { IsBoundedPair pair.now.purpose }
    ensures { ServesBeside pair.now source.now (shelf_use H.files H.faults shelf.old shelf.new) result
        (sink_use O.taken O.faults O.stopped out.old out.new) (sink_use L.taken L.faults L.stopped log.old log.new) }
{
    if pair.beside.as_slice() == pair.file.as_slice() {
        return tell_pair(alloc, source, source, &pair.purpose, out, log);
    }
    let name = pair.beside.as_slice();
    match fetched(alloc, name, MOST_BESIDE as u64, shelf, out, log) {
        Ok(text) => tell_pair(alloc, source, &text, &pair.purpose, out, log),
        Err(status) => status,
    }
}

/// Fetches both files, the second directly after the first, and delivers their report or the refusal of one. Files of one
/// name are one file, which is fetched once.
pub fn serve_pair<H: Shelf, O: Sink, L: Sink>(
    alloc: Global,
    pair: &Pair,
    shelf: &mut H,
    out: &mut O,
    log: &mut L,
) -> u8
    requires out_goes { O.stopped out.old ≡ false }
    requires log_goes { L.stopped log.old ≡ false }
    requires bounded { IsBoundedPair pair.now.purpose }
    ensures { ServesPair pair.now (shelf_use H.files H.faults shelf.old shelf.new) result
        (sink_use O.taken O.faults O.stopped out.old out.new) (sink_use L.taken L.faults L.stopped log.old log.new) }
{
    let name = pair.file.as_slice();
    match fetched(alloc, name, MOST_BYTES as u64, shelf, out, log) {
        Ok(source) => serve_beside(alloc, &source, pair, shelf, out, log),
        Err(status) => status,
    }
}
