//! Lines that tell how a run ends.

ghost use Rattle.std.specs.Prelude.{◌≡◌, ◌↔◌, IfOk, IsTrue};
ghost use Rattle.chi_core.specs.VerdictLine.{verdict_line_of};
ghost use Rattle.chi_core.specs.VerdictLine.{MayTell};
ghost use Rattle.chi_judge.specs.Asking.{IsCutBy, RestsBy};

use crate::asking::{Question, first_label};
use crate::places::Found;
use chi_base::NoMemory;
use chi_core::{Core, Verdict, verdict_line};
use chi_plain::Plain;
use chi_value::TextFault;
use std::alloc::Global;

/// Whether a line is that of an ending.
fn is_ending_line(
    alloc: Global,
    core: &Core,
    verdict: &Verdict,
    clock: i64,
    line: &[u8],
) -> Result<bool, NoMemory>
    requires { MayTell core.now verdict.now }
    ensures { IfOk result (λ is. IsTrue is ↔ (line.now ≡ verdict_line_of core.now.names.kinds verdict.now clock)) }
{
    let mut text = Vec::new(alloc);
    match verdict_line(alloc, verdict, clock, &core.names, &mut text) {
        Ok(()) => Ok(line == text.as_slice()),
        Err(TextFault::Limit) => unreachable!(),
        Err(TextFault::NoMemory) => Err(NoMemory),
    }
}

/// Whether the run is over, or nothing can happen, and the line tells that.
#[tactic(auto, using(crate::proofs::Endings::endings))]
pub fn rests_by(
    alloc: Global,
    core: &Core,
    runner: &Plain<'_>,
    line: &[u8],
) -> Result<bool, NoMemory>
    requires { runner.now.core ≡ core.now }
    ensures { IfOk result (RestsBy core.now runner.now.stage line.now) }
{
    match runner.ending() {
        Some(verdict) => is_ending_line(alloc, core, verdict, runner.clock(), line),
        None => Ok(false),
    }
}

/// The first label that costs too much, where the line tells that the run is cut off.
#[tactic(auto, using(crate::proofs::Endings::endings))]
pub fn cut_by(
    alloc: Global,
    core: &Core,
    runner: &Plain<'_>,
    left: u64,
    line: &[u8],
) -> Result<Option<Found>, NoMemory>
    requires { runner.now.core ≡ core.now }
    ensures { IfOk result (IsCutBy core.now runner.now.stage left line.now) }
{
    match runner.ending() {
        Some(_) => Ok(None),
        None => {
            if is_ending_line(alloc, core, &Verdict::OutOfSteps, runner.clock(), line)? {
                first_label(alloc, runner, &Question::Spent(left))
            } else {
                Ok(None)
            }
        }
    }
}
