//! The program `chi`: the real files and streams, the words of the command line, and the top call.
#![tactic(auto)]

use chi_engine::Machines;
use chi_io::{DiskShelf, StdSink};
use chi_tool::chi;
use std::alloc::AllocError;
use std::env;
use std::io::ErrorKind;
use std::process::ExitCode;

#[cfg(test)]
mod tests;

/// The status where memory is wanting.
const NO_MEMORY: u8 = 6;

/// The status where the words can't be had. Nothing is written then.
const NO_WORDS: u8 = 7;

fn run(rt: &HostRuntime) -> Result<u8, AllocError> {
    let alloc = rt.alloc();
    let args = match env::args(rt) {
        Ok(args) => args,
        Err(error) => {
            return Ok(match error.kind() {
                ErrorKind::OutOfMemory => NO_MEMORY,
                _ => NO_WORDS,
            });
        }
    };
    let mut texts: Vec<String> = Vec::new(alloc);
    for text in args.skip(1) {
        texts.push(text)?;
    }
    let mut words = Vec::new(alloc);
    for text in texts.iter() {
        words.push(text.as_str())?;
    }
    let mut shelf = DiskShelf::new(rt);
    let mut out = StdSink::new(rt.stdout());
    let mut log = StdSink::new(rt.stderr());
    Ok(chi(alloc, &words, &mut shelf, &mut out, &mut log, &mut Machines))
}

fn main(rt: HostRuntime) -> ExitCode {
    ExitCode::from(run(&rt).unwrap_or(NO_MEMORY))
}
