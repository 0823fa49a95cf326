//! Insertions: a list is gone through for the place of an element.

ghost use Rattle.std.specs.Prelude.{◌≡◌, ◌≢◌, ◌+◌, ◌<◌, ◌^◌, None, Some, IfSome, IfNone, IfErr, OnOk, option_copied, slice_get};
ghost use Rattle.chi_core.specs.Reading.{elements_of};
ghost use Rattle.chi_exec_law.specs.Runs.{Goes, Stuck};
ghost use Rattle.chi_exec_law.specs.Instructions.{scan_on, probe_on, found_on, place_on, item_in};
ghost use Rattle.chi_exec_steps.specs.Views.{state_of, Ended};

use crate::machinery::{Machine, Turning};
use crate::simple::push;
use crate::stacking::pop;
use chi_core_apply::truth_in;
use chi_core_frame::{Stop, copied, insertion_of};
use chi_value::Value;
use std::alloc::Global;

pub fn scan(m: &mut Machine) -> Result<(), Stop>
    requires place { m.old.at + 1 < 2 ^ 64 }
    requires sound { scan_on (state_of m.old) ≢ Stuck }
    ensures goes { OnOk result (scan_on (state_of m.old) ≡ Goes (state_of m.new)) }
    ensures ends { IfErr result (λ stop. Ended stop (scan_on (state_of m.old))) }
{
    let x = pop(&mut m.stack);
    let xs = pop(&mut m.stack);
    m.frame.under.push(Turning::Scanning(xs, x, 0))?;
    m.at += 1;
    Ok(())
}

// The value at a place, if there is one.
fn value_at(values: &[Value], place: usize) -> Option<&Value>
    ensures same { option_copied result ≡ slice_get values.now place }
{
    values.get(place)
}

/// The element at a place of a container, if it has one there.
#[tactic(auto, using(crate::proofs::Turns::items))]
fn item_at(xs: &Value, place: usize) -> Option<&Value>
    requires { elements_of xs.now ≢ None }
    ensures some { IfSome result (λ y. item_in (elements_of xs.now) place ≡ Some (Some y.now)) }
    ensures none { IfNone result (item_in (elements_of xs.now) place ≡ Some None) }
{
    match xs {
        Value::ListOf(row) => row.get(place),
        Value::SetOf(items) => value_at(items.as_slice(), place),
        Value::DictOf(items) => value_at(items.as_slice(), place),
        _ => unreachable!(),
    }
}

pub fn probe(m: &mut Machine, alloc: Global, to: u64) -> Result<(), Stop>
    requires place { m.old.at + 1 < 2 ^ 64 }
    requires sound { probe_on to (state_of m.old) ≢ Stuck }
    ensures goes { OnOk result (probe_on to (state_of m.old) ≡ Goes (state_of m.new)) }
    ensures ends { IfErr result (λ stop. Ended stop (probe_on to (state_of m.old))) }
{
    match m.frame.under.pop() {
        Some(Turning::Scanning(xs, x, place)) => match item_at(&xs, place) {
            Some(y) => {
                let y = copied(alloc, y)?;
                let first = copied(alloc, &x)?;
                m.frame.under.push(Turning::Scanning(xs, x, place))?;
                m.stack.push(first)?;
                m.stack.push(y)?;
                m.at += 1;
                Ok(())
            }
            None => {
                m.frame.under.push(Turning::Scanning(xs, x, place))?;
                m.at = to as usize;
                Ok(())
            }
        },
        Some(Turning::Walking(_)) => unreachable!(),
        Some(Turning::Repeating(_, _)) => unreachable!(),
        None => unreachable!(),
    }
}

pub fn found(m: &mut Machine, to: u64) -> Result<(), Stop>
    requires place { m.old.at + 1 < 2 ^ 64 }
    requires sound { found_on to (state_of m.old) ≢ Stuck }
    ensures goes { OnOk result (found_on to (state_of m.old) ≡ Goes (state_of m.new)) }
    ensures ends { IfErr result (λ stop. Ended stop (found_on to (state_of m.old))) }
{
    let v = pop(&mut m.stack);
    match m.frame.under.pop() {
        Some(Turning::Scanning(xs, x, place)) => {
            if truth_in(&v) {
                m.frame.under.push(Turning::Scanning(xs, x, place))?;
                m.at += 1;
                Ok(())
            } else {
                let Some(place) = place.checked_add(1) else {
                    return Err(Stop::NoMemory);
                };
                m.frame.under.push(Turning::Scanning(xs, x, place))?;
                m.at = to as usize;
                Ok(())
            }
        }
        Some(Turning::Walking(_)) => unreachable!(),
        Some(Turning::Repeating(_, _)) => unreachable!(),
        None => unreachable!(),
    }
}

pub fn place(m: &mut Machine, alloc: Global) -> Result<(), Stop>
    requires place { m.old.at + 1 < 2 ^ 64 }
    requires sound { place_on (state_of m.old) ≢ Stuck }
    ensures goes { OnOk result (place_on (state_of m.old) ≡ Goes (state_of m.new)) }
    ensures ends { IfErr result (λ stop. Ended stop (place_on (state_of m.old))) }
{
    match m.frame.under.pop() {
        Some(Turning::Scanning(xs, x, place)) => {
            let v = insertion_of(alloc, xs, place, x, &m.view)?;
            push(m, alloc, v)
        }
        Some(Turning::Walking(_)) => unreachable!(),
        Some(Turning::Repeating(_, _)) => unreachable!(),
        None => unreachable!(),
    }
}
