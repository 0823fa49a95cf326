//! Logs of runs with their traces, from version 1 to version 2.

ghost use Rattle.std.specs.Prelude.{◌≡◌, ◌<◌, ◌≤◌, ◌^◌, length, ◌++◌, MatchResult, MatchOption, IfOk, OnOk};
ghost use Rattle.std.specs.List.{prefix_len};
ghost use Rattle.chi_trace.specs.Ends.{is_line_byte, OneLine, IsCut, IsLastOf, IsRefusedAt};
ghost use Rattle.chi_trace.specs.Lines.{first_line};
ghost use Rattle.chi_trace.specs.Logs.{ended, begins_small, IsUp, IsRefused};

use crate::line::line_up;
use crate::time::after;
use crate::{LogFault, TraceFault};
use chi_base::NoMemory;
use std::alloc::Global;

/// The most bytes that a log may have.
pub const MOST_LOG_BYTES: usize = 67_108_864;

/// What a log of version 1 is brought up to, or its first line that doesn't fit.
pub fn log_up(alloc: Global, text: &[u8]) -> Result<Vec<u8>, LogFault>
    requires within { length text.now ≤ MOST_LOG_BYTES }
    ensures { MatchResult result (λ up. IsUp text.now up.items) (IsRefused text.now) }
{
    let Some(lines) = after(b"trace 1\n", text) else {
        return Err(LogFault::Form(1));
    };
    let mut up = begun(alloc)?;
    let mut rest = lines;
    let mut number = 2;
    'line: while let Some((line, more)) = next_line(rest) {
        match line_up(alloc, line, &mut up) {
            Ok(()) => {
                rest = more;
                number += 1;
            }
            Err(TraceFault::Form) => return last_up(line, more, number, up),
            Err(TraceFault::NoMemory) => return Err(LogFault::NoMemory),
        }
    }
    if rest.is_empty() {
        Ok(up)
    } else {
        Err(LogFault::Form(number))
    }
}

/// A log so far, and a line that is none of an event: it ends the log, or it or what follows doesn't fit.
fn last_up(line: &[u8], more: &[u8], number: u64, up: Vec<u8>) -> Result<Vec<u8>, LogFault>
    requires { number < 2 ^ 63 }
    ensures { MatchResult result (λ log. IsLastOf line.now more.now up.items log.items) (IsRefusedAt line.now more.now number) }
{
    if !begins_small(line) {
        return Err(LogFault::Form(number));
    }
    if !more.is_empty() {
        return Err(LogFault::Form(number + 1));
    }
    let mut log = up;
    push_line(line, &mut log)?;
    Ok(log)
}

/// The first line of a log in version 2.
fn begun(alloc: Global) -> Result<Vec<u8>, NoMemory>
    ensures { IfOk result (λ log. log.items ≡ ended first_line) }
{
    Ok(Vec::from_slice(alloc, b"trace 2\n")?)
}

fn push_line(line: &[u8], log: &mut Vec<u8>) -> Result<(), NoMemory>
    ensures { OnOk result (log.new.items ≡ log.old.items ++ ended line.now) }
{
    log.extend_from_slice(line)?;
    log.push(b'\n')?;
    Ok(())
}

fn begins_small(line: &[u8]) -> bool
    ensures { result ≡ begins_small line.now }
{
    match line.first() {
        Some(first) => first.is_ascii_lowercase(),
        None => false,
    }
}

/// The first line that a line feed ends, and what stands after it.
pub fn next_line(text: &[u8]) -> Option<(&[u8], &[u8])>
    ensures { MatchOption result (OneLine text.now) (λ cut. IsCut text.now cut.0.now cut.1.now) }
{
    let (line, rest) = text.split_at(line_length(text));
    match rest.split_first() {
        Some((_, more)) => Some((line, more)),
        None => None,
    }
}

fn line_length(text: &[u8]) -> usize
    ensures { result ≡ prefix_len is_line_byte text.now }
{
    text.iter().take_while(|byte| **byte != b'\n').count()
}
