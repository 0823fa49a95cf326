//! The line that tells how an experiment ended, and the word for it.

ghost use Rattle.std.specs.Prelude.{◌≡◌, ◌≢◌, ◌++◌, None, Some, codes, slice_get, IfOk, OnOk};
ghost use Rattle.std.specs.Fmt.{decimal};
ghost use Rattle.chi_core.specs.VerdictLine.{MayTell, verdict_line_of};
ghost use Rattle.chi_xper.specs.declared.ending.XEnd.TheVariants as xend;
ghost use Rattle.chi_xper_machines.specs.Closings.{MayClose, called, fault_line, line_for, run_line, word_by, word_for};
ghost use Rattle.chi_xper_machines.specs.Trials.{after_runs};

use crate::tale::Ended;
use chi_base::NoMemory;
use chi_core::{Core, FaultKind, ProcDef, Verdict, verdict_line};
use chi_value::TextFault;
use chi_xper::XEnd;
use std::alloc::Global;

/// Appends after how many runs it was.
fn add_runs(alloc: Global, count: u64, line: &mut Vec<u8>) -> Result<(), NoMemory>
    ensures { OnOk result (line.new.items ≡ line.old.items ++ after_runs count) }
{
    line.extend_from_slice(b" after ")?;
    let digits = format!(in alloc; "{count}")?;
    line.extend_from_slice(digits.as_bytes())?;
    line.extend_from_slice(b" runs\n")?;
    Ok(())
}

/// Some words, after so many runs.
fn worded(alloc: Global, words: &[u8], count: u64) -> Result<Vec<u8>, NoMemory>
    ensures { IfOk result (λ line. line.items ≡ words.now ++ after_runs count) }
{
    let mut line = Vec::from_slice(alloc, words)?;
    add_runs(alloc, count, &mut line)?;
    Ok(line)
}

/// The line of a verdict.
pub fn verdict_told(
    alloc: Global,
    core: &Core,
    verdict: &Verdict,
    clock: i64,
    line: &mut Vec<u8>,
) -> Result<(), NoMemory>
    requires { MayTell core.now verdict.now }
    ensures { OnOk result (line.new.items ≡ line.old.items ++ verdict_line_of core.now.names.kinds verdict.now clock) }
{
    match verdict_line(alloc, verdict, clock, &core.names, line) {
        Ok(()) => Ok(()),
        Err(TextFault::Limit) => unreachable!(),
        Err(TextFault::NoMemory) => Err(NoMemory),
    }
}

/// The model of a number.
#[tactic(auto, using(crate::proofs::Places::at_place))]
fn model_of(core: &Core, number: u32) -> &ProcDef
    requires { slice_get core.now.procs number ≢ None }
    ensures { slice_get core.now.procs number ≡ Some result.now }
{
    &core.procs.as_slice()[number as usize]
}

/// The line of a run that ended an experiment.
fn run_told(
    alloc: Global,
    core: &Core,
    number: u64,
    model: u32,
    verdict: &Verdict,
    clock: i64,
) -> Result<Vec<u8>, NoMemory>
    requires there { slice_get core.now.procs model ≢ None }
    requires may { MayTell core.now verdict.now }
    ensures { IfOk result (λ line. line.items ≡ run_line core.now number model verdict.now clock) }
{
    let process = model_of(core, model);
    let mut line = named(alloc, number, process.name.as_slice())?;
    verdict_told(alloc, core, verdict, clock, &mut line)?;
    Ok(line)
}

/// Of which number the run was, and of what model.
fn named(alloc: Global, number: u64, name: &[u8]) -> Result<Vec<u8>, NoMemory>
    ensures { IfOk result (λ line. line.items ≡ codes "run " ++ decimal number ++ codes " of " ++ name.now ++ codes ": ") }
{
    let mut line = Vec::from_slice(alloc, b"run ")?;
    let digits = format!(in alloc; "{number}")?;
    line.extend_from_slice(digits.as_bytes())?;
    line.extend_from_slice(b" of ")?;
    line.extend_from_slice(name)?;
    line.extend_from_slice(b": ")?;
    Ok(line)
}

/// The line of a fault in an experiment of this name.
fn fault_told(
    alloc: Global,
    kind: FaultKind,
    name: &[u8],
    line: u32,
    count: u64,
) -> Result<Vec<u8>, NoMemory>
    ensures { IfOk result (λ text. text.items ≡ fault_line name.now kind line count) }
{
    let mut text = Vec::from_slice(alloc, b"fault ")?;
    text.extend_from_slice(kind.name().as_bytes())?;
    text.extend_from_slice(b" in ")?;
    text.extend_from_slice(name)?;
    text.extend_from_slice(b" line ")?;
    let digits = format!(in alloc; "{line}")?;
    text.extend_from_slice(digits.as_bytes())?;
    add_runs(alloc, count, &mut text)?;
    Ok(text)
}

/// The name of the first experiment.
fn name_of(core: &Core) -> &[u8]
    ensures { result.now ≡ called (slice_get core.now.xpers 0) }
{
    match core.xpers.as_slice() {
        [x, ..] => x.name.as_slice(),
        [] => &[],
    }
}

/// The word for an experiment that a run with this verdict has ended. None that ends one has a value, and none is stopped.
fn word_by(verdict: &Verdict) -> Ended
    ensures { result ≡ word_by verdict.now }
{
    match verdict {
        Verdict::Completed | Verdict::Exit(_) | Verdict::Stopped => Ended::WithoutValue,
        Verdict::Deadlock => Ended::Deadlocked,
        Verdict::Fault(_, _, _) => Ended::Faulted,
        Verdict::OutOfSteps => Ended::OutOfSteps,
    }
}

/// The word for how an experiment has ended.
pub fn word_for(end: &XEnd) -> Ended
    ensures { result ≡ word_for end.now }
{
    match end {
        XEnd::Done(_) => Ended::Completed,
        XEnd::Run(_, _, verdict, _) => word_by(verdict),
        XEnd::Fault(_, _, _) => Ended::Faulted,
        XEnd::Spent(_) => Ended::OutOfSteps,
        XEnd::NoMemory => Ended::Missing,
    }
}

/// The line for how an experiment has ended.
pub fn line_for(alloc: Global, core: &Core, end: &XEnd) -> Result<Vec<u8>, NoMemory>
    requires { MayClose core.now end.now }
    ensures line { IfOk result (λ line. line.items ≡ line_for core.now end.now) }
    ensures ended { IfOk result (λ line. end.now ≢ xend.NoMemory) }
{
    match end {
        XEnd::Done(count) => worded(alloc, b"experiment completed", *count),
        XEnd::Run(number, model, verdict, clock) => {
            run_told(alloc, core, *number, *model, verdict, *clock)
        }
        XEnd::Fault(kind, line, count) => fault_told(alloc, *kind, name_of(core), *line, *count),
        XEnd::Spent(count) => worded(alloc, b"out of steps", *count),
        XEnd::NoMemory => Err(NoMemory),
    }
}
