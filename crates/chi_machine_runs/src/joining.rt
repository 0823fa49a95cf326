//! For which instances an instance waits.

ghost use Rattle.std.specs.Prelude.{◌≡◌, ◌≢◌, ◌+◌, ◌<◌, ◌^◌, [], length, IfErr, OnOk};
ghost use Rattle.std.specs.List.{range_with_len};
ghost use Rattle.chi_core.specs.Answer.{Amiss, Gives};
ghost use Rattle.chi_core.specs.Performing.{all_named};
ghost use Rattle.chi_exec_steps.specs.Views.{state_of};
ghost use Rattle.chi_exec_law.specs.Runs.{Ends, Rests, Stuck};
ghost use Rattle.chi_machine_laws.specs.Deeds.{Joins, finish_on, join_on};
ghost use Rattle.chi_machine_runs.specs.Views.{brought_of, done_by};

use crate::brought::Brought;
use crate::opened::Opened;
use crate::within::Within;
use chi_base::NoMemory;
use chi_core::View;
use chi_core_apply::instance_in;
use chi_core_frame::Stop;
use chi_exec::{Machine, pop_many};
use chi_value::Value;

// So many numbers, from one on, are all that is waited for. More than 2 ^ 32 are refused as want of memory.
#[tactic(auto, using(crate::proofs::Joined::numbering))]
fn number(joins: &mut Vec<u32>, from: usize, count: usize) -> Result<(), NoMemory>
    requires from { from < 2 ^ 63 }
    requires count { count < 2 ^ 63 }
    requires none { joins.old.items ≡ [] }
    ensures { OnOk result (joins.new.items ≡ range_with_len from count) }
{
    if from + count > u32::MAX as usize {
        return Err(NoMemory);
    }
    for k in 0..count {
        joins.push((from + k) as u32)?;
    }
    Ok(())
}

/// It waits for all that it has made.
#[inline(never)]
pub fn join(
    m: &mut Machine,
    opened: &Opened,
    brought: &mut Brought,
    w: &Within<'_>,
) -> Result<(), Stop>
    requires place { m.old.at + 1 < 2 ^ 64 }
    ensures joins { OnOk result (done_by (join_on (length w.now.scenery.finished.now)) w.now.code.now m.old opened.now brought.old
        ≡ Ends (Rests (Joins brought.new.joins.items (state_of m.new) (brought_of w.now.code.now opened.now brought.new)))) }
    ensures ends { IfErr result (λ stop. stop ≡ Stop.NoMemory) }
{
    let count = w.scenery.finished.len();
    let made = brought.made.len();
    brought.joins.clear();
    number(&mut brought.joins, count, made)?;
    m.at += 1;
    Ok(())
}

// The instances that values name are all that is waited for.
#[tactic(auto, using(crate::proofs::Joined::naming))]
fn name(joins: &mut Vec<u32>, values: &[Value], view: &View) -> Result<(), NoMemory>
    requires well { all_named [] values.now view.now ≢ Amiss }
    requires none { joins.old.items ≡ [] }
    ensures { OnOk result (all_named [] values.now view.now ≡ Gives joins.new.items view.now) }
{
    for value in values {
        if let Some(number) = instance_in(value) {
            joins.push(number)?;
        }
    }
    Ok(())
}

/// It waits for those that the topmost values name, so many.
#[inline(never)]
#[tactic(auto, using(crate::proofs::Many::many))]
pub fn finish(
    m: &mut Machine,
    opened: &Opened,
    brought: &mut Brought,
    w: &Within<'_>,
    count: u32,
) -> Result<(), Stop>
    requires place { m.old.at + 1 < 2 ^ 64 }
    requires sound { done_by (finish_on count) w.now.code.now m.old opened.now brought.old ≢ Stuck }
    ensures joins { OnOk result (done_by (finish_on count) w.now.code.now m.old opened.now brought.old
        ≡ Ends (Rests (Joins brought.new.joins.items (state_of m.new) (brought_of w.now.code.now opened.now brought.new)))) }
    ensures ends { IfErr result (λ stop. stop ≡ Stop.NoMemory) }
{
    let values = pop_many(&mut m.stack, count as usize)?;
    brought.joins.clear();
    name(&mut brought.joins, values.as_slice(), &m.view)?;
    m.at += 1;
    Ok(())
}
