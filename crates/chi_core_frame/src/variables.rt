ghost use Rattle.std.specs.Prelude.{◌≡◌, ◌≢◌, ◌<◌, ◌↔◌, None, Some, IfOk, IsTrue, OnOk, length, slice_set};
ghost use Rattle.std.specs.Option.{option_copied};
ghost use Rattle.chi_value.specs.declared.value.Value.{Value};
ghost use Rattle.chi_core_frame.specs.Alike.{AreAlikeBut};
ghost use Rattle.chi_core_frame.specs.Bindings.{bound_parts};
ghost use Rattle.chi_core.specs.Variables.{variables_of, value_at, with_slot, bound};

use crate::reusing::widen;
use chi_base::NoMemory;
use chi_core_apply::parts_from;
use chi_value::Value;
use std::alloc::Global;
use std::marker::Model;

/// The variables of an instance or of a function's call, by their slots, each with its value once it
/// is set.
#[derive(Debug, Drop)]
pub struct Variables {
    pub(crate) slots: Vec<Option<Value>>,
}

impl Model for Variables {
    ghost use Rattle.std.specs.Coded.{codes};
    ghost use Rattle.chi_value.specs.contracts.value.Value as values;
    ghost use Rattle.chi_core.specs.Variables as variables;

    ghost Value = { variables.Variables };

    ghost coded = { Prim.hlevel (codes, values.the_row.coded) };

    ghost view = { λ v. v.slots.items };
}

fn copy_of(alloc: Global, variable: &Option<Value>) -> Result<Option<Value>, NoMemory>
    ensures { IfOk result (λ copy. copy ≡ variable.now) }
{
    match variable {
        Some(value) => Ok(Some(value.copy(alloc)?)),
        None => Ok(None),
    }
}

fn copy_all(alloc: Global, variables: &[Option<Value>]) -> Result<Vec<Option<Value>>, NoMemory>
    ensures { IfOk result (λ copies. copies.items ≡ variables.now) }
{
    let mut copies = Vec::new(alloc);
    for variable in variables {
        let copy = copy_of(alloc, variable)?;
        copies.push(copy)?;
    }
    Ok(copies)
}

#[inline(never)]
fn let_all_go(value: Value) {
    drop(value);
}

// Lets a value go, at once where it owns no memory.
#[inline(always)]
pub(crate) fn let_go(old: Option<Value>) {
    match old {
        None => {}
        Some(Value::Int(_)) => {}
        Some(Value::Real(_)) => {}
        Some(Value::Bool(_)) => {}
        Some(value) => let_all_go(value),
    }
}

impl Variables {
    /// The variables at the start: the arguments in the first slots, and no other set.
    #[tactic(auto, using(crate::proofs::Slots::slots))]
    pub fn new(alloc: Global, slots: usize, arguments: Vec<Value>) -> Result<Variables, NoMemory>
        ensures { IfOk result (λ variables. variables ≡ variables_of slots arguments.items) }
    {
        let mut variables = Vec::new(alloc);
        for argument in arguments {
            variables.push(Some(argument))?;
        }
        widen(&mut variables, slots)?;
        Ok(Variables { slots: variables })
    }

    /// A copy, whose values share what they hold with these.
    pub fn copy(&self, alloc: Global) -> Result<Variables, NoMemory>
        ensures { IfOk result (λ variables. variables ≡ self.now) }
    {
        let slots = copy_all(alloc, self.slots.as_slice())?;
        Ok(Variables { slots })
    }

    /// The value of a slot, which is there and set.
    #[inline(always)]
    pub fn get(&self, slot: u32) -> &Value
        requires { value_at self.now slot ≢ None }
        ensures { value_at self.now slot ≡ Some result.now }
    {
        match &self.slots[slot as usize] {
            Some(value) => value,
            None => unreachable!(),
        }
    }

    /// Whether a slot is there and set.
    #[inline(always)]
    #[tactic(auto, using(crate::proofs::Slots::set))]
    pub fn is_set(&self, slot: u32) -> bool
        ensures { IsTrue result ↔ (value_at self.now slot ≢ None) }
    {
        match self.slots.get(slot as usize) {
            Some(Some(_)) => true,
            Some(None) => false,
            None => false,
        }
    }

    /// The value of a slot, which is there and set. Afterwards the slot is there and not set.
    #[tactic(auto, using(crate::proofs::Slots::taking))]
    pub(crate) fn take(&mut self, slot: u32) -> Value
        requires { value_at self.old slot ≢ None }
        ensures value { value_at self.old slot ≡ Some result }
        ensures size { length self.new ≡ length self.old }
        ensures set_again { (x : Value) → with_slot slot x self.new ≡ with_slot slot x self.old }
    {
        match self.slots[slot as usize].take() {
            Some(value) => value,
            None => unreachable!(),
        }
    }

    /// Lets go of the value of a slot, if it has one, so that it isn't set. Who has a copy of the value, and else shares it
    /// with nobody, changes it where it is then.
    pub fn unset(&mut self, slot: u32)
        ensures { AreAlikeBut slot self.old self.new }
    {
        if self.is_set(slot) {
            let_go(Some(self.take(slot)));
        }
    }

    /// Gives a slot a value; what it had is let go.
    #[inline(always)]
    pub fn set(&mut self, slot: u32, value: Value)
        requires { slot < length self.old }
        ensures { with_slot slot value self.old ≡ Some self.new }
    {
        let old = std::mem::replace(&mut self.slots[slot as usize], Some(value));
        let_go(old);
    }

    /// Binds the names of these slots to an element: one name to itself, several to its parts.
    #[tactic(auto, using(crate::proofs::Binding::one_name))]
    pub fn bind(&mut self, alloc: Global, slots: &[u32], element: Value) -> Result<(), NoMemory>
        requires { bound slots.now element self.old ≢ None }
        ensures { OnOk result (bound slots.now element self.old ≡ Some self.new) }
    {
        match slots {
            [slot] => {
                self.set(*slot, element);
                Ok(())
            }
            _ => {
                let parts = parts_from(alloc, element)?;
                self.bind_parts(slots, parts);
                Ok(())
            }
        }
    }

    #[tactic(auto, using(crate::proofs::Binding::turns))]
    fn bind_parts(&mut self, slots: &[u32], parts: Vec<Value>)
        requires { bound_parts slots.now parts.items self.old ≢ None }
        ensures { bound_parts slots.now parts.items self.old ≡ Some self.new }
    {
        let mut left = parts;
        left.reverse();
        for slot in slots {
            match left.pop() {
                Some(part) => self.set(*slot, part),
                None => unreachable!(),
            }
        }
    }
}
