ghost use Rattle.std.specs.Prelude.{◌≡◌, false};
ghost use Rattle.chi_tool.specs.Call.{sink_use};
ghost use Rattle.chi_tool.specs.Delivery.{Delivers};

use crate::status::NOT_WRITTEN;
use chi_io::{Sink, put_all};

/// Puts the output and then the log. The first failure ends it.
pub fn deliver<O: Sink, L: Sink>(
    status: u8,
    out: &mut O,
    output: &[u8],
    log: &mut L,
    lines: &[u8],
) -> u8
    requires out_goes { O.stopped out.old ≡ false }
    requires log_goes { L.stopped log.old ≡ false }
    ensures { Delivers status output.now lines.now result
        (sink_use O.taken O.faults O.stopped out.old out.new) (sink_use L.taken L.faults L.stopped log.old log.new) }
{
    if put_all(out, output).is_err() {
        return NOT_WRITTEN;
    }
    if put_all(log, lines).is_err() {
        return NOT_WRITTEN;
    }
    status
}
