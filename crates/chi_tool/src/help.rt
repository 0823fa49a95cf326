//! Help on a command, or on all.

ghost use Rattle.std.specs.Prelude.{◌≡◌, false, IfOk};
ghost use Rattle.chi_tool.specs.Call.{sink_use};
ghost use Rattle.chi_tool.specs.Serving.{Tells};
ghost use Rattle.chi_tool.specs.Refusals.{helped};
ghost use Rattle.chi_tool.specs.Reported.{report_in};

use crate::deliver::deliver;
use crate::report::Reported;
use crate::status::{HELPED, NO_MEMORY};
use chi_base::NoMemory;
use chi_cli_help::{Topic, help_text};
use chi_io::Sink;
use std::alloc::Global;

/// The report of help on a topic.
fn report_of_help(alloc: Global, topic: Topic) -> Result<Reported, NoMemory>
    ensures { IfOk result (λ r. report_in r ≡ helped topic) }
{
    Ok(Reported {
        status: HELPED,
        out: help_text(alloc, topic)?,
        log: Vec::new(alloc),
    })
}

/// Delivers the report of help on a topic.
pub fn serve_help<O: Sink, L: Sink>(alloc: Global, topic: Topic, out: &mut O, log: &mut L) -> u8
    requires out_goes { O.stopped out.old ≡ false }
    requires log_goes { L.stopped log.old ≡ false }
    ensures { Tells (λ r. r ≡ helped topic) result
        (sink_use O.taken O.faults O.stopped out.old out.new) (sink_use L.taken L.faults L.stopped log.old log.new) }
{
    match report_of_help(alloc, topic) {
        Ok(report) => deliver(report.status, out, &report.out, log, &report.log),
        Err(_) => NO_MEMORY,
    }
}
