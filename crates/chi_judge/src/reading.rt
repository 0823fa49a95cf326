//! What a line of a log tells, where some lines were read.

ghost use Rattle.std.specs.Prelude.{◌≡◌, ◌<◌, ◌≤◌, ◌^◌, ◌+◌, ◌++◌, ◌∷◌, [], IfOk, OnErr, OnOk};
ghost use Rattle.chi_judge.specs.Asking.{IsPlaced};
ghost use Rattle.chi_judge.specs.Reading.{EndsBy, IsRead, IsTaken};

use crate::asking::label_of;
use crate::ending::{cut_by, rests_by};
use crate::places::Found;
use crate::reader::{Reader, Told};
use chi_base::NoMemory;
use chi_core::Core;
use chi_plain::Stepped;
use std::alloc::Global;

/// Adds the numbers by which a label is picked.
fn add_picks(picks: &mut Vec<u64>, found: &Found) -> Result<(), NoMemory>
    ensures { OnOk result (picks.new.items ≡ picks.old.items ++ found.now.actor ∷ found.now.option ∷ []) }
{
    picks.push(found.actor as u64)?;
    picks.push(found.option)?;
    Ok(())
}

/// Takes the label that a line tells, if it doesn't cost too much.
#[tactic(auto, using(crate::proofs::Readings::taking))]
fn take(reader: &mut Reader<'_>, found: &Found, out: &mut Vec<u8>) -> Result<Told, NoMemory>
    requires placed { IsPlaced reader.old.runner.stage found.now }
    requires early { reader.old.turn < 2 ^ 32 }
    ensures same_core { reader.new.runner.core ≡ reader.old.runner.core }
    ensures early { reader.new.turn ≤ reader.old.turn + 1 }
    ensures taken { IfOk result (IsTaken found.now reader.old reader.new out.old.items out.new.items) }
    ensures kept { OnErr result (out.new.items ≡ out.old.items) }
{
    add_picks(&mut reader.picks, found)?;
    match reader.runner.plain_step(&found.label, reader.left, out) {
        Stepped::Next(cost) => {
            reader.left -= cost;
            reader.turn += 1;
            Ok(Told::Label)
        }
        Stepped::Over => Ok(Told::Label),
        Stepped::Spent => Ok(Told::Nothing),
        Stepped::NoMemory => Err(NoMemory),
    }
}

/// Reads a line that tells no label.
#[tactic(auto, using(crate::proofs::Readings::ending_so))]
fn end_by(
    alloc: Global,
    core: &Core,
    reader: &mut Reader<'_>,
    line: &[u8],
) -> Result<Told, NoMemory>
    requires same_core { reader.old.runner.core ≡ core.now }
    ensures same_core { reader.new.runner.core ≡ reader.old.runner.core }
    ensures early { reader.new.turn ≤ reader.old.turn + 1 }
    ensures ended { IfOk result (EndsBy core.now line.now reader.old reader.new) }
{
    if rests_by(alloc, core, &reader.runner, line)? {
        return Ok(Told::Ending);
    }
    match cut_by(alloc, core, &reader.runner, reader.left, line)? {
        Some(found) => {
            add_picks(&mut reader.picks, &found)?;
            Ok(Told::Ending)
        }
        None => Ok(Told::Nothing),
    }
}

/// Reads a line.
#[tactic(auto, using(crate::proofs::Readings::reading_line))]
pub fn read_line(
    alloc: Global,
    core: &Core,
    reader: &mut Reader<'_>,
    line: &[u8],
    out: &mut Vec<u8>,
) -> Result<Told, NoMemory>
    requires same_core { reader.old.runner.core ≡ core.now }
    requires early { reader.old.turn < 2 ^ 32 }
    ensures same_core { reader.new.runner.core ≡ reader.old.runner.core }
    ensures early { reader.new.turn ≤ reader.old.turn + 1 }
    ensures read { IfOk result (IsRead core.now line.now reader.old reader.new out.old.items out.new.items) }
    ensures kept { OnErr result (out.new.items ≡ out.old.items) }
{
    match label_of(alloc, &reader.runner, reader.turn, line)? {
        Some(found) => take(reader, &found, out),
        None => end_by(alloc, core, reader, line),
    }
}
