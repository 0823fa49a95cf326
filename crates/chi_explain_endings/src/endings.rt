ghost use Rattle.std.specs.Prelude.{◌≡◌, ◌≤◌, ◌++◌, OnOk, IfOk, IsTrue};
ghost use Rattle.chi_core.specs.VerdictLine.{may_tell, told_length, verdict_line_of};
ghost use Rattle.chi_explain.specs.Excerpts.{ended, line_alone};
ghost use Rattle.chi_explain_endings.specs.Endings.{ending_text, told_of};
ghost use Rattle.chi_explain_endings.specs.Faults.{fault_words};

use crate::faults::fault_words;
use chi_base::NoMemory;
use chi_core::{FaultKind, Verdict, verdict_line};
use chi_explain::line_alone;
use chi_value::{MOST_TEXT, Names, TextFault};
use std::alloc::Global;

/// Appends the line of a fault, as it is shown, and what the fault means.
fn put_fault(source: &[u8], kind: FaultKind, line: u32, text: &mut Vec<u8>) -> Result<(), NoMemory>
    ensures { OnOk result (text.new.items ≡ text.old.items ++ (line_alone source.now line ++ ended (fault_words kind))) }
{
    line_alone(source, line, text)?;
    text.extend_from_slice(fault_words(kind).as_bytes())?;
    text.push(b'\n')?;
    Ok(())
}

/// Appends what is told of a verdict after its line.
fn put_told(source: &[u8], verdict: &Verdict, text: &mut Vec<u8>) -> Result<(), NoMemory>
    ensures { OnOk result (text.new.items ≡ text.old.items ++ told_of source.now verdict.now) }
{
    match verdict {
        Verdict::Fault(kind, _, line) => put_fault(source, *kind, *line, text),
        Verdict::Completed
        | Verdict::Exit(_)
        | Verdict::Deadlock
        | Verdict::OutOfSteps
        | Verdict::Stopped => Ok(()),
    }
}

/// The line of a verdict, which is short enough to be told.
fn line_of(alloc: Global, verdict: &Verdict, clock: i64, names: &Names) -> Result<Vec<u8>, NoMemory>
    requires may { IsTrue (may_tell names.now.kinds verdict.now) }
    requires short { told_length names.now.kinds verdict.now ≤ MOST_TEXT }
    ensures { IfOk result (λ line. line.items ≡ verdict_line_of names.now.kinds verdict.now clock) }
{
    let mut line = Vec::new(alloc);
    match verdict_line(alloc, verdict, clock, names, &mut line) {
        Ok(()) => Ok(line),
        Err(TextFault::Limit) => unreachable!(),
        Err(TextFault::NoMemory) => Err(NoMemory),
    }
}

/// The text that explains how a run of a source ended: by which verdict, at which time in units of a real. The names are those
/// of the program's enumerations.
pub fn explain_ending(
    alloc: Global,
    source: &[u8],
    verdict: &Verdict,
    clock: i64,
    names: &Names,
) -> Result<Vec<u8>, NoMemory>
    requires may { IsTrue (may_tell names.now.kinds verdict.now) }
    requires short { told_length names.now.kinds verdict.now ≤ MOST_TEXT }
    ensures { IfOk result (λ text. text.items ≡ ending_text source.now names.now.kinds verdict.now clock) }
{
    let mut text = line_of(alloc, verdict, clock, names)?;
    put_told(source, verdict, &mut text)?;
    Ok(text)
}
