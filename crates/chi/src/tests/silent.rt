//! The program over objects that fail and that tell nothing, and over a log that fails at each of its puts in turn.

use crate::tests::calls::TWO_SENDERS;
use crate::tests::shelves::shelf_of;
use chi_engine::Machines;
use chi_io::{MemShelf, MemSink, MuteShelf, MuteSink};
use chi_tool::chi;
use std::alloc::{AllocError, Global};
use std::test::Fail;

const STARTED: &str =
    "proc S(chan! int a): a!7 end model M(): chan int a; int x; start S(a); a?x; exit end";

/// The status with which its run ends.
const EXITED: u8 = 10;

/// The log of its traced run.
const LOGGED: &str =
    "trace 2\n0 local 0 M 1\n1 local 0 M 1\n2 local 0 M 1\n3 local 0 M 1\n4 local 1 S 1\n5 pair 1 0 0 0 0 7\n\
     6 local 0 M 1\nexit at time 0.0\n";

/// Whether the shelf has the file; how many bytes a sink takes at once; the numbers of the puts at which the output and the log
/// fail; and the output, the log and the status.
type Row = (
    bool,
    usize,
    &'static [u64],
    &'static [u64],
    &'static str,
    &'static str,
    u8,
);

const ROWS: [Row; 5] = [
    (true, 1, &[2], &[], "1\n", "", 5),
    (true, 100, &[], &[0], "1\n2\n", "", 5),
    (true, 5, &[], &[1], "1\n2\n", "compl", 5),
    (false, 100, &[], &[], "", "no such file\n", 4),
    (true, 100, &[], &[], "1\n2\n", "completed at time 0.0\n", 0),
];

/// A shelf with two senders, or without a file.
fn shelf_with(alloc: Global, is_there: bool) -> Result<MemShelf, AllocError> {
    if is_there {
        return shelf_of(alloc, TWO_SENDERS.as_bytes());
    }
    Ok(MemShelf::new(Vec::new(alloc), Vec::new(alloc)))
}

#[test]
fn a_mute_shelf_is_served(rt: HostRuntime) -> Result<(), Fail> {
    let alloc = rt.alloc();
    for (is_there, most, out_put, log_put, wanted_out, wanted_log, wanted) in ROWS {
        let most = most.max(1);
        let mut shelf = MuteShelf::new(shelf_with(alloc, is_there)?);
        let mut out = MemSink::new(alloc, 65_536, most, Vec::from_slice(alloc, out_put)?)?;
        let mut log = MemSink::new(alloc, 65_536, most, Vec::from_slice(alloc, log_put)?)?;
        let words = ["sim", "m.chi"];
        let status = chi(alloc, &words, &mut shelf, &mut out, &mut log, &mut Machines);
        assert_eq!(rt; out.bytes(), wanted_out.as_bytes());
        assert_eq!(rt; log.bytes(), wanted_log.as_bytes());
        assert_eq!(rt; status, wanted);
    }
    Ok(())
}

#[test]
fn mute_sinks_are_served(rt: HostRuntime) -> Result<(), Fail> {
    let alloc = rt.alloc();
    for (is_there, most, out_put, log_put, _out, _log, wanted) in ROWS {
        let most = most.max(1);
        let mut shelf = MuteShelf::new(shelf_with(alloc, is_there)?);
        let out = MemSink::new(alloc, 65_536, most, Vec::from_slice(alloc, out_put)?)?;
        let log = MemSink::new(alloc, 65_536, most, Vec::from_slice(alloc, log_put)?)?;
        let mut out = MuteSink::new(out);
        let mut log = MuteSink::new(log);
        let words = ["sim", "m.chi"];
        let status = chi(alloc, &words, &mut shelf, &mut out, &mut log, &mut Machines);
        assert_eq!(rt; status, wanted);
    }
    Ok(())
}

#[test]
fn each_put_of_a_log_may_fail(rt: HostRuntime) -> Result<(), Fail> {
    let alloc = rt.alloc();
    for failing in 0..100_u64 {
        let mut shelf = shelf_of(alloc, STARTED.as_bytes())?;
        let mut out = MemSink::new(alloc, 65_536, 65_536, Vec::new(alloc))?;
        let mut log = MemSink::new(alloc, 65_536, 3, Vec::from_slice(alloc, &[failing])?)?;
        let words = ["sim", "--trace", "m.chi"];
        let status = chi(alloc, &words, &mut shelf, &mut out, &mut log, &mut Machines);
        assert!(rt;
            LOGGED.as_bytes().starts_with(log.bytes()),
            "put {failing} fails"
        );
        if status == EXITED {
            assert_eq!(rt; log.bytes(), LOGGED.as_bytes());
            return Ok(());
        }
        assert_eq!(rt; status, 5, "put {failing} fails");
    }
    assert!(rt; false, "no run ends");
    Ok(())
}
