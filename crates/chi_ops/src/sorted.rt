ghost use Rattle.std.specs.Prelude.{◌≡◌, Some, IfOk, IfErr, IsTrue};
ghost use Rattle.chi_sets.specs.Dictionaries.{keys, values};
ghost use Rattle.chi_ops.specs.Conditions.{may_union, may_meet, may_minus, may_minus_keys, may_sub, may_keys, may_values};
ghost use Rattle.chi_ops.specs.Operations.{union, meet, minus, minus_keys, sub, keys_of, values_of};
ghost use Rattle.chi_ops.specs.Outcome.{gives};
ghost use Rattle.chi_ops.specs.Refusal.{Refuses};

use crate::OpFault;
use crate::room::test_room;
use chi_base::NoMemory;
use chi_sets::{dictionary_union, is_subset, key_of, set_meet, set_minus, set_union, value_of};
use chi_value::{Row, Value};
use std::alloc::Global;

/// What is in either of two sets or dictionaries. Of two dictionaries the right one wins.
pub fn union(alloc: Global, a: &Value, b: &Value) -> Result<Value, OpFault>
    requires fits { IsTrue (may_union a.now b.now) }
    ensures value { IfOk result (λ value. union a.now b.now ≡ gives value) }
    ensures refused { IfErr result (λ fault. Refuses fault (union a.now b.now)) }
{
    match (a, b) {
        (Value::SetOf(a), Value::SetOf(b)) => {
            let both = set_union(alloc, a.as_slice(), b.as_slice())?;
            test_room(both.as_slice().len(), 0)?;
            Ok(Value::SetOf(both))
        }
        (Value::DictOf(a), Value::DictOf(b)) => {
            let both = dictionary_union(alloc, a.as_slice(), b.as_slice())?;
            test_room(both.as_slice().len(), 0)?;
            Ok(Value::DictOf(both))
        }
        (_, _) => unreachable!(),
    }
}

/// What is in both sets.
pub fn meet(alloc: Global, a: &Value, b: &Value) -> Result<Value, OpFault>
    requires fits { IsTrue (may_meet a.now b.now) }
    ensures value { IfOk result (λ value. meet a.now b.now ≡ gives value) }
    ensures refused { IfErr result (λ fault. Refuses fault (meet a.now b.now)) }
{
    match (a, b) {
        (Value::SetOf(a), Value::SetOf(b)) => {
            Ok(Value::SetOf(set_meet(alloc, a.as_slice(), b.as_slice())?))
        }
        (_, _) => unreachable!(),
    }
}

/// What is in the first set and not in the second.
pub fn minus(alloc: Global, a: &Value, b: &Value) -> Result<Value, OpFault>
    requires fits { IsTrue (may_minus a.now b.now) }
    ensures value { IfOk result (λ value. minus a.now b.now ≡ gives value) }
    ensures refused { IfErr result (λ fault. Refuses fault (minus a.now b.now)) }
{
    match (a, b) {
        (Value::SetOf(a), Value::SetOf(b)) => {
            Ok(Value::SetOf(set_minus(alloc, a.as_slice(), b.as_slice())?))
        }
        (_, _) => unreachable!(),
    }
}

/// A dictionary without the keys in a set.
pub fn minus_keys(alloc: Global, d: &Value, keys: &Value) -> Result<Value, OpFault>
    requires fits { IsTrue (may_minus_keys d.now keys.now) }
    ensures value { IfOk result (λ value. minus_keys d.now keys.now ≡ gives value) }
    ensures refused { IfErr result (λ fault. Refuses fault (minus_keys d.now keys.now)) }
{
    match (d, keys) {
        (Value::DictOf(entries), Value::SetOf(removed)) => Ok(Value::DictOf(chi_sets::minus_keys(
            alloc,
            entries.as_slice(),
            removed.as_slice(),
        )?)),
        (_, _) => unreachable!(),
    }
}

/// Whether a set is a subset of another.
pub fn sub(a: &Value, b: &Value) -> bool
    requires fits { IsTrue (may_sub a.now b.now) }
    ensures value { sub a.now b.now ≡ Some result }
{
    match (a, b) {
        (Value::SetOf(a), Value::SetOf(b)) => is_subset(a.as_slice(), b.as_slice()),
        (_, _) => unreachable!(),
    }
}

/// The list of a dictionary's keys, ascending.
pub fn keys(alloc: Global, d: &Value) -> Result<Value, OpFault>
    requires fits { IsTrue (may_keys d.now) }
    ensures value { IfOk result (λ value. keys_of d.now ≡ gives value) }
    ensures refused { IfErr result (λ fault. Refuses fault (keys_of d.now)) }
{
    match d {
        Value::DictOf(entries) => Ok(Value::ListOf(all_keys(alloc, entries.as_slice())?)),
        _ => unreachable!(),
    }
}

/// The list of what the keys of a dictionary have, in the order of the keys.
pub fn values(alloc: Global, d: &Value) -> Result<Value, OpFault>
    requires fits { IsTrue (may_values d.now) }
    ensures value { IfOk result (λ value. values_of d.now ≡ gives value) }
    ensures refused { IfErr result (λ fault. Refuses fault (values_of d.now)) }
{
    match d {
        Value::DictOf(entries) => Ok(Value::ListOf(all_values(alloc, entries.as_slice())?)),
        _ => unreachable!(),
    }
}

fn all_keys(alloc: Global, entries: &[Value]) -> Result<Row, NoMemory>
    ensures value { IfOk result (λ items. items ≡ keys entries.now) }
{
    let mut copies = Vec::new(alloc);
    for entry in entries {
        if let Some(key) = key_of(entry) {
            copies.push(key.copy(alloc)?)?;
        }
    }
    Ok(Row::of(alloc, copies)?)
}

fn all_values(alloc: Global, entries: &[Value]) -> Result<Row, NoMemory>
    ensures value { IfOk result (λ items. items ≡ values entries.now) }
{
    let mut copies = Vec::new(alloc);
    for entry in entries {
        if let Some(has) = value_of(entry) {
            copies.push(has.copy(alloc)?)?;
        }
    }
    Ok(Row::of(alloc, copies)?)
}
