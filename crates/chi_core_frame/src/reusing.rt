//! Variables of calls that are over, for calls to come: their room is used again.

ghost use Rattle.std.specs.Prelude.{◌≡◌, ◌≤◌, ◌-◌, ◌++◌, [], None, Some, length, map, replicate, take, drop, OnOk};
ghost use Rattle.chi_core.specs.Variables.{variables_of};

use crate::variables::{Variables, let_go};
use chi_base::NoMemory;
use chi_value::Value;
use std::mem;

// Lets all values go.
#[inline(always)]
fn empty(slots: &mut Vec<Option<Value>>)
    ensures { slots.new.items ≡ [] }
{
    while let Some(old) = slots.pop() {
        let_go(old);
    }
}

// More slots, which aren't set, until there are so many.
#[inline(always)]
#[tactic(auto, using(crate::proofs::Slots::slots))]
pub(crate) fn widen(slots: &mut Vec<Option<Value>>, count: usize) -> Result<(), NoMemory>
    ensures { OnOk result (slots.new.items ≡ slots.old.items ++ replicate (count - length slots.old.items) None) }
{
    while slots.len() < count {
        slots.push(None)?;
    }
    Ok(())
}

// All slots, none of which is set, get the values at the end of a list.
#[inline(always)]
#[tactic(auto, using(crate::proofs::Begun::filling))]
fn fill(slots: &mut Vec<Option<Value>>, arity: usize, values: &mut Vec<Value>)
    requires enough { arity ≤ length values.old.items }
    requires unset { slots.old.items ≡ replicate arity None }
    ensures filled { slots.new.items ≡ map Some (drop (length values.old.items - arity) values.old.items) }
    ensures rest { values.new.items ≡ take (length values.old.items - arity) values.old.items }
{
    let mut left = arity;
    while left > 0 {
        left -= 1;
        match values.pop() {
            Some(value) => let_go(mem::replace(&mut slots[left], Some(value))),
            None => unreachable!(),
        }
    }
}

impl Variables {
    /// Lets all values go. No slot is there, but there is room for those that were.
    #[inline(always)]
    pub fn clear(&mut self)
        ensures { self.new ≡ [] }
    {
        empty(&mut self.slots);
    }

    /// The variables of a body that begins: so many arguments, taken from the end of a list, in the first slots, and no
    /// other set.
    #[inline(always)]
    #[tactic(auto, using(crate::proofs::Begun::beginning))]
    pub fn begin(
        &mut self,
        slots: usize,
        arity: usize,
        values: &mut Vec<Value>,
    ) -> Result<(), NoMemory>
        requires enough { arity ≤ length values.old.items }
        ensures begun { OnOk result (self.new ≡ variables_of slots (drop (length values.old.items - arity) values.old.items)) }
        ensures rest { OnOk result (values.new.items ≡ take (length values.old.items - arity) values.old.items) }
    {
        empty(&mut self.slots);
        widen(&mut self.slots, arity)?;
        fill(&mut self.slots, arity, values);
        widen(&mut self.slots, slots)?;
        Ok(())
    }
}
