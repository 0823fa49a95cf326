//! A source is simulated with a probe of its trace.

use crate::tests::library::STARTED;
use chi_io::MemSink;
use chi_sched::First;
use chi_tool::simulate_probed;
use chi_trace::{EventKind, Filter};
use std::alloc::Global;
use std::process::Abort;
use std::test::Fail;

/// Filters, each with the lines of the trace that it shows.
const SHOWN: [(Filter, &str); 5] = [
    (Filter::Instance(1), "2 local 1 S 1\n6 pair 1 0 3 0 0 1\n"),
    (
        Filter::Channel(0),
        "6 pair 1 0 3 0 0 1\n9 pair 2 0 3 0 0 2\n",
    ),
    (Filter::Channel(1), ""),
    (
        Filter::Kind(EventKind::Pair),
        "6 pair 1 0 3 0 0 1\n9 pair 2 0 3 0 0 2\n",
    ),
    (Filter::Kind(EventKind::Wake), ""),
];

/// Simulates the source with a filter as its probe, and compares what is logged.
fn expect_by(
    rt: &impl Abort,
    alloc: Global,
    probe: Filter,
    trace: bool,
    before: &str,
    lines: &str,
) -> Result<(), Fail> {
    let mut out = MemSink::new(alloc, 65_536, 65_536, Vec::new(alloc))?;
    let mut log = MemSink::new(alloc, 65_536, 65_536, Vec::new(alloc))?;
    let source = STARTED.as_bytes();
    let status = simulate_probed(
        alloc,
        source,
        &[],
        0,
        1_000,
        None,
        First,
        probe,
        trace,
        &mut out,
        &mut log,
    );
    let mut wanted = Vec::new(alloc);
    wanted.extend_from_slice(before.as_bytes())?;
    wanted.extend_from_slice(lines.as_bytes())?;
    wanted.extend_from_slice(b"completed at time 0.0\n")?;
    assert_eq!(rt; log.bytes(), wanted.as_slice());
    assert_eq!(rt; out.bytes(), b"1\n2\n".as_slice());
    assert_eq!(rt; status, 0);
    Ok(())
}

#[test]
fn a_probe_shows_a_part_of_a_trace(rt: HostRuntime) -> Result<(), Fail> {
    for (filter, lines) in SHOWN {
        expect_by(&rt, rt.alloc(), filter, true, "trace 2\n", lines)?;
        expect_by(&rt, rt.alloc(), filter, false, "", "")?;
    }
    Ok(())
}
