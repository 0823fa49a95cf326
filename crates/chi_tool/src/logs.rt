//! What is done with a log of old.

ghost use Rattle.std.specs.Prelude.{◌≡◌, ◌≤◌, false, IfOk, length};
ghost use Rattle.chi_tool.specs.Call.{sink_use, shelf_use};
ghost use Rattle.chi_tool.specs.Serving.{Serves, Tells};
ghost use Rattle.chi_tool.specs.Refusals.{misfit};
ghost use Rattle.chi_tool.specs.Report.{IsReportOfLog};
ghost use Rattle.chi_tool.specs.Reported.{report_in};

use crate::deliver::deliver;
use crate::fetching::fetched;
use crate::refusal::{numbered, one_line};
use crate::report::Reported;
use crate::status::{BROUGHT_UP, MISFIT, NO_MEMORY};
use chi_base::NoMemory;
use chi_io::{Shelf, Sink};
use chi_trace::{LogFault, MOST_LOG_BYTES, log_up};
use std::alloc::Global;

/// The refusal of a log by its first line that doesn't fit.
fn misfit(alloc: Global, number: u64) -> Result<Reported, NoMemory>
    ensures { IfOk result (λ r. report_in r ≡ misfit number) }
{
    let mut text = numbered(alloc, b"line ", number)?;
    text.extend_from_slice(b": trace form")?;
    one_line(alloc, MISFIT, &text)
}

/// The report of a log: what it is brought up to, or its refusal.
fn report_of_log(alloc: Global, text: &[u8]) -> Result<Reported, NoMemory>
    requires { length text.now ≤ MOST_LOG_BYTES }
    ensures { IfOk result (λ r. IsReportOfLog text.now (report_in r)) }
{
    match log_up(alloc, text) {
        Ok(up) => Ok(Reported {
            status: BROUGHT_UP,
            out: up,
            log: Vec::new(alloc),
        }),
        Err(LogFault::Form(number)) => misfit(alloc, number),
        Err(LogFault::NoMemory) => Err(NoMemory),
    }
}

/// Delivers the report of a log.
fn tell_log<O: Sink, L: Sink>(alloc: Global, text: &[u8], out: &mut O, log: &mut L) -> u8
    requires out_goes { O.stopped out.old ≡ false }
    requires log_goes { L.stopped log.old ≡ false }
    requires within { length text.now ≤ MOST_LOG_BYTES }
    ensures { Tells (IsReportOfLog text.now) result
        (sink_use O.taken O.faults O.stopped out.old out.new) (sink_use L.taken L.faults L.stopped log.old log.new) }
{
    match report_of_log(alloc, text) {
        Ok(report) => deliver(report.status, out, &report.out, log, &report.log),
        Err(_) => NO_MEMORY,
    }
}

/// Fetches the log of this name, and delivers its report or its refusal.
pub fn serve_log<H: Shelf, O: Sink, L: Sink>(
    alloc: Global,
    name: &[u8],
    shelf: &mut H,
    out: &mut O,
    log: &mut L,
) -> u8
    requires out_goes { O.stopped out.old ≡ false }
    requires log_goes { L.stopped log.old ≡ false }
    ensures { Serves MOST_LOG_BYTES IsReportOfLog name.now (shelf_use H.files H.faults shelf.old shelf.new) result
        (sink_use O.taken O.faults O.stopped out.old out.new) (sink_use L.taken L.faults L.stopped log.old log.new) }
{
    match fetched(alloc, name, MOST_LOG_BYTES as u64, shelf, out, log) {
        Ok(text) => tell_log(alloc, &text, out, log),
        Err(status) => status,
    }
}
