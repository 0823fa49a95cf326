//! The judging of a text.

ghost use Rattle.std.specs.Prelude.{◌≡◌, ◌≢◌, ◌≤◌, ◌<◌, ◌^◌, ◌+◌, ◌++◌, [], Some, MatchOption, ℕ, List, length, slice_get};
ghost use Rattle.chi_core.specs.declared.program.ProcDef.{ProcDef};
ghost use Rattle.chi_core.specs.Beginning.{Beginning, start};
ghost use Rattle.chi_core.specs.Kinds.{kinds_of};
ghost use Rattle.chi_core.specs.Of.{at_start, AreOf};
ghost use Rattle.chi_core.specs.Sound.{Sound};
ghost use Rattle.chi_core_runs.specs.Picked.{IsBeginning};
ghost use Rattle.chi_plain.specs.Stage.{Begun};
ghost use Rattle.chi_trace.specs.Lines.{first_line as trace_line};
ghost use Rattle.chi_trace.specs.Logs.{ended};
ghost use Rattle.chi_judge.specs.declared.judged.Judged.TheVariants as judged;
ghost use Rattle.chi_judge.specs.Judging.{IsJudged};
ghost use Rattle.chi_judge.specs.Reading.{IsJudgedSoFar};

use crate::judged::Judged;
use crate::lines::first_line;
use crate::reader::{Reader, Told};
use crate::reading::read_line;
use chi_core::Core;
use chi_log::reading_law;
use chi_plain::Plain;
use chi_trace::MOST_LOG_BYTES;
use chi_value::Value;
use std::alloc::Global;

/// The judgement on a text where a line tells how the run ends: nothing may stand after it.
fn at_last(picks: Vec<u64>, more: &[u8], count: u32) -> Judged
    requires { count + 2 < 2 ^ 32 }
    ensures yes { more.now ≡ [] → result ≡ judged.Yes picks }
    ensures no { more.now ≢ [] → result ≡ judged.No (count + 2) }
{
    if more.is_empty() {
        Judged::Yes(picks)
    } else {
        Judged::No(count + 2)
    }
}

/// Judges a text of which the first line was read.
fn judge_lines(
    alloc: Global,
    core: &Core,
    mut reader: Reader<'_>,
    lines: &[u8],
    out: &mut Vec<u8>,
) -> Judged
    requires sound { Sound core.now }
    requires same_core { reader.runner.core ≡ core.now }
    requires first { reader.turn ≡ 0 }
    requires none { reader.picks.items ≡ [] }
    requires short { length lines.now < 2 ^ 31 }
    ensures { (beginning : Beginning) → IsBeginning core.now beginning → Begun beginning reader.entry.runner.stage
        → IsJudgedSoFar core.now beginning reader.entry.left (ended trace_line ++ lines.now) out.old.items out.new.items result }
{
    reading_law();
    let mut rest = lines;
    let mut count = 1;
    'line: while let Some((line, more)) = first_line(rest) {
        match read_line(alloc, core, &mut reader, line, out) {
            Ok(Told::Label) => {
                rest = more;
                count += 1;
            }
            Ok(Told::Ending) => return at_last(reader.picks, more, count),
            Ok(Told::Nothing) => return Judged::No(count + 1),
            Err(_) => return Judged::NoMemory,
        }
    }
    Judged::No(count + 1)
}

/// What stands after the first line of a trace.
fn after_first(text: &[u8]) -> Option<&[u8]>
    ensures { MatchOption result ((lines : List ℕ) → text.now ≢ ended trace_line ++ lines) (λ lines. text.now ≡ ended trace_line ++ lines.now) }
{
    text.strip_prefix(b"trace 2\n")
}

/// Judges a text by the run that begins so.
fn judge_text(
    alloc: Global,
    core: &Core,
    runner: Plain<'_>,
    bound: u64,
    text: &[u8],
    out: &mut Vec<u8>,
) -> Judged
    requires sound { Sound core.now }
    requires same_core { runner.core ≡ core.now }
    requires within { length text.now ≤ MOST_LOG_BYTES }
    ensures { (beginning : Beginning) → IsBeginning core.now beginning → Begun beginning runner.entry.stage
        → IsJudgedSoFar core.now beginning bound text.now out.old.items out.new.items result }
{
    reading_law();
    match after_first(text) {
        Some(lines) => {
            let reader = Reader {
                runner,
                turn: 0,
                left: bound,
                picks: Vec::new(alloc),
            };
            judge_lines(alloc, core, reader, lines, out)
        }
        None => Judged::No(1),
    }
}

/// Says of a text whether it is a log that the program can give with these arguments, a seed for its draws, within a
/// bound, and stopped at a time where there is one; whatever policy makes it.
pub fn judge(
    alloc: Global,
    core: &Core,
    arguments: Vec<Value>,
    seed: u64,
    bound: u64,
    until: Option<i64>,
    text: &[u8],
    out: &mut Vec<u8>,
) -> Judged
    requires sound { Sound core.now }
    requires arguments { (d : ProcDef) → slice_get core.now.procs core.now.model ≡ Some d → AreOf (at_start core.now.names.kinds) arguments.items (kinds_of d.params) }
    requires within { length text.now ≤ MOST_LOG_BYTES }
    ensures { IsJudged core.now (start core.now arguments.items seed until) bound text.now out.old.items out.new.items result }
{
    let written = out.len();
    let Ok(runner) = Plain::new(alloc, core, arguments, seed, until) else {
        return Judged::NoMemory;
    };
    match judge_text(alloc, core, runner, bound, text, out) {
        Judged::Yes(picks) => Judged::Yes(picks),
        Judged::No(line) => {
            out.truncate(written);
            Judged::No(line)
        }
        Judged::NoMemory => {
            out.truncate(written);
            Judged::NoMemory
        }
    }
}
