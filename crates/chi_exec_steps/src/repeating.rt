//! Lists of a size, whose elements are made one by one.

ghost use Rattle.std.specs.Prelude.{◌≡◌, ◌≢◌, ◌+◌, ◌<◌, ◌^◌, IfOk, IfErr, OnOk};
ghost use Rattle.chi_value.specs.declared.value.Value.{out-Value};
ghost use Rattle.chi_core.specs.Answer.{Gives, Amiss};
ghost use Rattle.chi_core_frame.specs.Stops.{Stops};
ghost use Rattle.chi_exec_law.specs.Runs.{Goes, Stuck};
ghost use Rattle.chi_exec_law.specs.Instructions.{repeat_on, more_on, add_on, count_in};
ghost use Rattle.chi_exec_steps.specs.Views.{state_of, Ended};

use crate::machinery::{Machine, Turning};
use crate::stacking::pop;
use chi_core::{FaultKind, View};
use chi_core_apply::times_in;
use chi_core_frame::{Stop, list_of};
use chi_value::Value;
use std::alloc::Global;

/// How many values a list of so many has.
#[tactic(auto, using(crate::proofs::Counts::counting))]
fn counted(count: &Value, view: &View) -> Result<u32, Stop>
    requires { count_in (out-Value count.now) view.now ≢ Amiss }
    ensures value { IfOk result (λ n. count_in (out-Value count.now) view.now ≡ Gives n view.now) }
    ensures fails { IfErr result (λ stop. Stops stop (count_in (out-Value count.now) view.now)) }
{
    match times_in(count) {
        Some(n) => Ok(n),
        None => Err(Stop::Fault(FaultKind::TooLarge)),
    }
}

#[tactic(auto, using(crate::proofs::Turns::ended, crate::proofs::Turns::not_amiss))]
pub fn repeat(m: &mut Machine, alloc: Global) -> Result<(), Stop>
    requires place { m.old.at + 1 < 2 ^ 64 }
    requires sound { repeat_on (state_of m.old) ≢ Stuck }
    ensures goes { OnOk result (repeat_on (state_of m.old) ≡ Goes (state_of m.new)) }
    ensures ends { IfErr result (λ stop. Ended stop (repeat_on (state_of m.old))) }
{
    let count = pop(&mut m.stack);
    let n = counted(&count, &m.view)?;
    m.frame.under.push(Turning::Repeating(n, Vec::new(alloc)))?;
    m.at += 1;
    Ok(())
}

pub fn more(m: &mut Machine, alloc: Global, to: u64) -> Result<(), Stop>
    requires place { m.old.at + 1 < 2 ^ 64 }
    requires sound { more_on to (state_of m.old) ≢ Stuck }
    ensures goes { OnOk result (more_on to (state_of m.old) ≡ Goes (state_of m.new)) }
    ensures ends { IfErr result (λ stop. Ended stop (more_on to (state_of m.old))) }
{
    match m.frame.under.pop() {
        Some(Turning::Repeating(left, made)) => {
            if left == 0 {
                let list = list_of(alloc, made)?;
                m.stack.push(list)?;
                m.at = to as usize;
                Ok(())
            } else {
                m.frame.under.push(Turning::Repeating(left - 1, made))?;
                m.at += 1;
                Ok(())
            }
        }
        Some(Turning::Walking(_)) => unreachable!(),
        Some(Turning::Scanning(_, _, _)) => unreachable!(),
        None => unreachable!(),
    }
}

pub fn add(m: &mut Machine) -> Result<(), Stop>
    requires place { m.old.at + 1 < 2 ^ 64 }
    requires sound { add_on (state_of m.old) ≢ Stuck }
    ensures goes { OnOk result (add_on (state_of m.old) ≡ Goes (state_of m.new)) }
    ensures ends { IfErr result (λ stop. Ended stop (add_on (state_of m.old))) }
{
    let x = pop(&mut m.stack);
    match m.frame.under.pop() {
        Some(Turning::Repeating(left, made)) => {
            let mut more = made;
            more.push(x)?;
            m.frame.under.push(Turning::Repeating(left, more))?;
            m.at += 1;
            Ok(())
        }
        Some(Turning::Walking(_)) => unreachable!(),
        Some(Turning::Scanning(_, _, _)) => unreachable!(),
        None => unreachable!(),
    }
}
