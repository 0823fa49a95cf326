ghost use Rattle.std.specs.Prelude.{◌≡◌, ◌≤◌, false, length};
ghost use Rattle.chi_tool.specs.Call.{sink_use, shelf_use};
ghost use Rattle.chi_load.specs.Factory.{factory_source};
ghost use Rattle.chi_tool.specs.Serving.{Makes, Serves, Tells};
ghost use Rattle.chi_tool.specs.Report.{IsReportOfSource, IsReportTo};
ghost use Rattle.chi_tool.specs.Settings.{IsBounded, IsBoundedFor, plain, program_aim, simulates, wanted_of};

use crate::deliver::deliver;
use crate::explain::report_at_length;
use crate::fetching::fetched;
use crate::layout::report_of_layout;
use crate::program::report_of_program;
use crate::report::{Reported, unpassed};
use crate::source::{Source, read};
use crate::status::{NO_MEMORY, status_without};
use crate::task::{FileTask, ProgramPurpose, Purpose, unasked};
use chi_engine::{Engine, PassFault};
use chi_io::{Shelf, Sink};
use chi_lex::MOST_BYTES;
use chi_load::{MOST_MACHINES, factory};
use std::alloc::Global;

/// The report of a source with whose program something is done: its refusal, or that of its program.
fn report_of_source<E: Engine, O: Sink>(
    alloc: Global,
    source: &[u8],
    purpose: &ProgramPurpose,
    out: &mut O,
    engine: &mut E,
) -> Result<Reported, PassFault>
    requires within { length source.now ≤ MOST_BYTES }
    requires bounded { IsBoundedFor purpose.now }
    requires out_goes { O.stopped out.old ≡ false }
    ensures { Makes (IsReportOfSource (E.outcome engine.old) source.now (program_aim purpose.now)) (sink_use O.taken O.faults O.stopped out.old out.new) result }
{
    match read(alloc, source)? {
        Source::Refused(refusal) => Ok(refusal),
        Source::Program(core) => report_of_program(alloc, &core, purpose, out, engine),
    }
}

/// The report of a source, that of a file of this name.
fn report_of<E: Engine, O: Sink>(
    alloc: Global,
    file: &[u8],
    source: &[u8],
    purpose: &Purpose,
    out: &mut O,
    engine: &mut E,
) -> Result<Reported, PassFault>
    requires within { length source.now ≤ MOST_BYTES }
    requires bounded { IsBounded purpose.now }
    requires out_goes { O.stopped out.old ≡ false }
    ensures { Makes (IsReportTo (E.outcome engine.old) file.now purpose.now source.now) (sink_use O.taken O.faults O.stopped out.old out.new) result }
{
    match purpose {
        Purpose::OfProgram(purpose) => report_of_source(alloc, source, purpose, out, engine),
        Purpose::Explain(asked) => report_at_length(alloc, file, source, asked, out, engine),
        Purpose::LayOut => unpassed(report_of_layout(alloc, source)),
    }
}

/// Delivers the report of a source, of whose output a part is passed on while it is made.
fn tell<E: Engine, O: Sink, L: Sink>(
    alloc: Global,
    source: &[u8],
    asked: &FileTask,
    out: &mut O,
    log: &mut L,
    engine: &mut E,
) -> u8
    requires out_goes { O.stopped out.old ≡ false }
    requires log_goes { L.stopped log.old ≡ false }
    requires within { length source.now ≤ MOST_BYTES }
    requires bounded { IsBounded asked.now.purpose }
    ensures { Tells (IsReportTo (E.outcome engine.old) asked.now.file asked.now.purpose source.now) result
        (sink_use O.taken O.faults O.stopped out.old out.new) (sink_use L.taken L.faults L.stopped log.old log.new) }
{
    let file = asked.file.as_slice();
    match report_of(alloc, file, source, &asked.purpose, out, engine) {
        Ok(report) => deliver(report.status, out, &report.out, log, &report.log),
        Err(fault) => status_without(fault),
    }
}

/// The same of a source with whose program something is done.
fn tell_source<E: Engine, O: Sink, L: Sink>(
    alloc: Global,
    source: &[u8],
    purpose: &ProgramPurpose,
    out: &mut O,
    log: &mut L,
    engine: &mut E,
) -> u8
    requires out_goes { O.stopped out.old ≡ false }
    requires log_goes { L.stopped log.old ≡ false }
    requires within { length source.now ≤ MOST_BYTES }
    requires bounded { IsBoundedFor purpose.now }
    ensures { Tells (IsReportOfSource (E.outcome engine.old) source.now (program_aim purpose.now)) result
        (sink_use O.taken O.faults O.stopped out.old out.new) (sink_use L.taken L.faults L.stopped log.old log.new) }
{
    match report_of_source(alloc, source, purpose, out, engine) {
        Ok(report) => deliver(report.status, out, &report.out, log, &report.log),
        Err(fault) => status_without(fault),
    }
}

/// Delivers the report of a factory of this size.
pub fn serve_factory<E: Engine, O: Sink, L: Sink>(
    alloc: Global,
    size: u32,
    out: &mut O,
    log: &mut L,
    engine: &mut E,
) -> u8
    requires out_goes { O.stopped out.old ≡ false }
    requires log_goes { L.stopped log.old ≡ false }
    requires some { 1 ≤ size }
    requires most { size ≤ MOST_MACHINES }
    ensures { Tells (IsReportOfSource (E.outcome engine.old) (factory_source size) (simulates (wanted_of plain))) result
        (sink_use O.taken O.faults O.stopped out.old out.new) (sink_use L.taken L.faults L.stopped log.old log.new) }
{
    let Ok(source) = factory(alloc, size) else {
        return NO_MEMORY;
    };
    let Ok(asked) = unasked(alloc) else {
        return NO_MEMORY;
    };
    let purpose = ProgramPurpose::Simulate(asked);
    tell_source(alloc, &source, &purpose, out, log, engine)
}

/// Fetches a file, and delivers its report or its refusal.
pub fn serve<E: Engine, H: Shelf, O: Sink, L: Sink>(
    alloc: Global,
    asked: &FileTask,
    shelf: &mut H,
    out: &mut O,
    log: &mut L,
    engine: &mut E,
) -> u8
    requires out_goes { O.stopped out.old ≡ false }
    requires log_goes { L.stopped log.old ≡ false }
    requires bounded { IsBounded asked.now.purpose }
    ensures { Serves MOST_BYTES (IsReportTo (E.outcome engine.old) asked.now.file asked.now.purpose) asked.now.file (shelf_use H.files H.faults shelf.old shelf.new) result
        (sink_use O.taken O.faults O.stopped out.old out.new) (sink_use L.taken L.faults L.stopped log.old log.new) }
{
    let name = asked.file.as_slice();
    match fetched(alloc, name, MOST_BYTES as u64, shelf, out, log) {
        Ok(source) => tell(alloc, &source, asked, out, log, engine),
        Err(status) => status,
    }
}
