//! Walks.

ghost use Rattle.std.specs.Prelude.{◌≡◌, ◌≢◌, ◌+◌, ◌<◌, ◌^◌, IfOk, IfSome, IfNone, IfErr, OnOk};
ghost use Rattle.chi_core_frame.specs.declared.stop.Stop.TheVariants.{NoMemory};
ghost use Rattle.chi_exec_law.specs.Runs.{Goes, Stuck};
ghost use Rattle.chi_exec_law.specs.Instructions.{walk_on, next_on, drop_on};
ghost use Rattle.chi_exec_steps.specs.Views.{state_of, under_of, Ended};
ghost use Rattle.chi_exec_steps.specs.Walks.{Walks, Walked, WalkedOut};

use crate::machinery::{Machine, Turning};
use crate::stacking::pop;
use chi_core_frame::{Elements, Stop};
use chi_value::Value;
use std::alloc::Global;

pub fn walk(m: &mut Machine) -> Result<(), Stop>
    requires place { m.old.at + 1 < 2 ^ 64 }
    requires sound { walk_on (state_of m.old) ≢ Stuck }
    ensures goes { OnOk result (walk_on (state_of m.old) ≡ Goes (state_of m.new)) }
    ensures ends { IfErr result (λ stop. Ended stop (walk_on (state_of m.old))) }
{
    let elements = Elements::of(pop(&mut m.stack));
    m.frame.under.push(Turning::Walking(elements))?;
    m.at += 1;
    Ok(())
}

// The next element of the innermost walk, if it has one left.
#[inline(always)]
#[tactic(auto, using(crate::proofs::Walks::elements))]
fn next_element(under: &mut Vec<Turning>, alloc: Global) -> Result<Option<Value>, Stop>
    requires { Walks (under_of under.old.items) }
    ensures some { IfOk result (λ next. IfSome next (λ x. Walked x (under_of under.old.items) (under_of under.new.items))) }
    ensures none { IfOk result (λ next. IfNone next (WalkedOut (under_of under.old.items) (under_of under.new.items))) }
    ensures stops { IfErr result (λ stop. stop ≡ NoMemory) }
{
    let last = under.len() - 1;
    match &mut under[last] {
        Turning::Walking(elements) => match elements.next(alloc)? {
            Some(element) => Ok(Some(element)),
            None => Ok(None),
        },
        Turning::Scanning(_, _, _) => unreachable!(),
        Turning::Repeating(_, _) => unreachable!(),
    }
}

/// Binds the names to the next element, or ends the walk.
#[inline(always)]
#[tactic(auto, using(crate::proofs::Walks::turns))]
pub fn next(m: &mut Machine, alloc: Global, end: u64, slots: &[u32]) -> Result<(), Stop>
    requires place { m.old.at + 1 < 2 ^ 64 }
    requires sound { next_on end slots.now (state_of m.old) ≢ Stuck }
    ensures goes { OnOk result (next_on end slots.now (state_of m.old) ≡ Goes (state_of m.new)) }
    ensures ends { IfErr result (λ stop. Ended stop (next_on end slots.now (state_of m.old))) }
{
    match next_element(&mut m.frame.under, alloc)? {
        Some(element) => {
            m.frame.variables.bind(alloc, slots, element)?;
            m.at += 1;
            Ok(())
        }
        None => {
            let _over = m.frame.under.pop();
            m.at = end as usize;
            Ok(())
        }
    }
}

pub fn leave(m: &mut Machine)
    requires place { m.old.at + 1 < 2 ^ 64 }
    requires sound { drop_on (state_of m.old) ≢ Stuck }
    ensures { drop_on (state_of m.old) ≡ Goes (state_of m.new) }
{
    match m.frame.under.pop() {
        Some(Turning::Walking(_)) => m.at += 1,
        Some(Turning::Scanning(_, _, _)) => unreachable!(),
        Some(Turning::Repeating(_, _)) => unreachable!(),
        None => unreachable!(),
    }
}
