//! Files, or the delivery of their refusals.

ghost use Rattle.std.specs.Prelude.{◌≡◌, ◌≤◌, false, IfErr, IfOk};
ghost use Rattle.chi_tool.specs.Call.{sink_use, shelf_use};
ghost use Rattle.chi_tool.specs.Serving.{IsContent, Refuses};

use crate::deliver::deliver;
use crate::status::{NO_MEMORY, NOT_READ};
use chi_io::{Fetch, Shelf, Sink};
use std::alloc::Global;

/// Fetches the file of this name within a limit; or delivers its refusal, and answers the status.
pub fn fetched<H: Shelf, O: Sink, L: Sink>(
    alloc: Global,
    name: &[u8],
    limit: u64,
    shelf: &mut H,
    out: &mut O,
    log: &mut L,
) -> Result<Vec<u8>, u8>
    requires out_goes { O.stopped out.old ≡ false }
    requires log_goes { L.stopped log.old ≡ false }
    ensures content { IfOk result (λ content. IsContent limit name.now (H.files shelf.old) content.items) }
    ensures out_stays { IfOk result (λ content. out.new ≡ out.old) }
    ensures log_stays { IfOk result (λ content. log.new ≡ log.old) }
    ensures refusal { IfErr result (λ status. Refuses limit name.now (shelf_use H.files H.faults shelf.old shelf.new) status
        (sink_use O.taken O.faults O.stopped out.old out.new) (sink_use L.taken L.faults L.stopped log.old log.new)) }
    ensures same { H.files shelf.new ≡ H.files shelf.old }
    ensures count { H.faults shelf.old ≤ H.faults shelf.new }
{
    match shelf.fetch(alloc, name, limit) {
        Fetch::Bytes(content) => Ok(content),
        Fetch::NoSuch => Err(deliver(NOT_READ, out, b"", log, b"no such file\n")),
        Fetch::TooLong => Err(deliver(NOT_READ, out, b"", log, b"file too long\n")),
        Fetch::Failed => Err(NOT_READ),
        Fetch::NoMemory => Err(NO_MEMORY),
    }
}
