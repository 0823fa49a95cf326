//! The output of a run is passed on as it goes: what a sink has taken where each of its puts fails.

use crate::tests::shelves::shelf_of;
use chi_engine::Machines;
use chi_io::MemSink;
use chi_tool::chi;
use std::test::Fail;

/// It writes 30,000 lines of 10 bytes.
const LINES: &str = "model M(): int i; while i < 30000: writeln(\"123456789\"); i = i + 1 end end";

/// What is taken where the put of this number is the first to fail: each pass is after a label with 65,536 bytes or more
/// kept, and the last one at the end.
const TAKEN: [(u64, usize, u8); 6] = [
    (0, 0, 5),
    (1, 65_540, 5),
    (2, 131_080, 5),
    (3, 196_620, 5),
    (4, 262_160, 5),
    (5, 300_000, 0),
];

#[test]
fn output_is_passed_on_as_the_run_goes(rt: HostRuntime) -> Result<(), Fail> {
    let alloc = rt.alloc();
    for (failing, taken, wanted) in TAKEN {
        let mut shelf = shelf_of(alloc, LINES.as_bytes())?;
        let mut out = MemSink::new(alloc, 400_000, 400_000, Vec::from_slice(alloc, &[failing])?)?;
        let mut log = MemSink::new(alloc, 65_536, 65_536, Vec::new(alloc))?;
        let words = ["sim", "m.chi"];
        let status = chi(alloc, &words, &mut shelf, &mut out, &mut log, &mut Machines);
        let logged = if wanted == 0 {
            "completed at time 0.0\n"
        } else {
            ""
        };
        assert_eq!(rt; out.bytes().len(), taken);
        assert_eq!(rt; log.bytes(), logged.as_bytes());
        assert_eq!(rt; status, wanted);
    }
    Ok(())
}
