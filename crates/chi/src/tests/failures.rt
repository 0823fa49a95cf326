//! The top call over objects that fail.

use crate::tests::calls::{TWO_SENDERS, WORKS};
use crate::tests::shelves::shelf_failing;
use chi_engine::Machines;
use chi_io::MemSink;
use chi_tool::chi;
use std::test::Fail;

/// A command with a source, over objects that fail: the numbers of the calls at which the shelf does, how many bytes a sink
/// takes at once, the numbers of the puts at which the output and the log fail; and the output, the log and the status.
type Failing = (
    &'static str,
    &'static str,
    &'static [u64],
    usize,
    &'static [u64],
    &'static [u64],
    &'static str,
    &'static str,
    u8,
);

const FAILING: [Failing; 8] = [
    ("sim", WORKS, &[0], 100, &[], &[], "", "", 4),
    ("sim", WORKS, &[], 5, &[1], &[], "It wo", "", 5),
    ("sim", WORKS, &[], 6, &[], &[1], "It works!\n", "comple", 5),
    ("sim", TWO_SENDERS, &[], 1, &[2], &[], "1\n", "", 5),
    ("sim", TWO_SENDERS, &[], 100, &[], &[0], "1\n2\n", "", 5),
    ("sim", TWO_SENDERS, &[], 5, &[], &[1], "1\n2\n", "compl", 5),
    ("code", WORKS, &[0], 100, &[], &[], "", "", 4),
    ("code", WORKS, &[], 5, &[2], &[0], "proc M 0 0", "", 5),
];

#[test]
fn failures_end_the_writing(rt: HostRuntime) -> Result<(), Fail> {
    let alloc = rt.alloc();
    for (
        command,
        source,
        fetch,
        most,
        out_put,
        log_put,
        wanted_out,
        wanted_log,
        wanted,
    ) in FAILING {
        let most = most.max(1);
        let mut shelf = shelf_failing(alloc, source.as_bytes(), Vec::from_slice(alloc, fetch)?)?;
        let mut out = MemSink::new(alloc, 65_536, most, Vec::from_slice(alloc, out_put)?)?;
        let mut log = MemSink::new(alloc, 65_536, most, Vec::from_slice(alloc, log_put)?)?;
        let status = chi(
            alloc,
            &[command, "m.chi"],
            &mut shelf,
            &mut out,
            &mut log,
            &mut Machines,
        );
        assert_eq!(rt; out.bytes(), wanted_out.as_bytes());
        assert_eq!(rt; log.bytes(), wanted_log.as_bytes());
        assert_eq!(rt; status, wanted);
    }
    Ok(())
}
