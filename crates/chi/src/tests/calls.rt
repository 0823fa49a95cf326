//! The top call over a file and sinks in memory: what is written, and the status. Most whole programs are in rows/, which the
//! program is asked.

use crate::tests::shelves::shelf_of;
use chi_engine::Machines;
use chi_io::MemSink;
use chi_tool::chi;
use std::alloc::{AllocError, Global};
use std::process::Abort;
use std::test::Fail;

/// What a call writes and answers.
#[derive(Clone, Copy)]
pub struct Wanted<'a> {
    pub out: &'a str,
    pub log: &'a str,
    pub status: u8,
}

pub const DONE: &str = "completed at time 0.0\n";

pub const WORKS: &str = "model M(): write(\"It works!\\n\") end";

pub const TWO_SENDERS: &str = "proc S(chan! int a; int n): a!n end \
     proc R(chan? int a): int x; a?x; writeln(\"%d\", x); a?x; writeln(\"%d\", x) end \
     model M(): chan int a; run S(a, 1), S(a, 2), R(a) end";

/// A source: texts one after another, each so many times.
pub fn written(alloc: Global, texts: &[(&str, usize)]) -> Result<Vec<u8>, AllocError> {
    let mut source = Vec::new(alloc);
    for (text, times) in texts {
        for _ in 0..*times {
            source.extend_from_slice(text.as_bytes())?;
        }
    }
    Ok(source)
}

/// Runs the words over the file `m.chi`, and compares what is written and the status.
pub fn expect(
    rt: &impl Abort,
    alloc: Global,
    words: &[&str],
    source: &[u8],
    about: &str,
    wanted: Wanted,
) -> Result<(), Fail> {
    let mut shelf = shelf_of(alloc, source)?;
    let mut out = MemSink::new(alloc, 65_536, 65_536, Vec::new(alloc))?;
    let mut log = MemSink::new(alloc, 65_536, 65_536, Vec::new(alloc))?;
    let status = chi(alloc, words, &mut shelf, &mut out, &mut log, &mut Machines);
    assert_eq!(rt; log.bytes(), wanted.log.as_bytes(), "the log of {about:?}");
    assert_eq!(rt;
        out.bytes(),
        wanted.out.as_bytes(),
        "the output of {about:?}"
    );
    assert_eq!(rt; status, wanted.status, "the status of {about:?}");
    Ok(())
}
