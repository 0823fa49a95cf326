ghost use Rattle.std.specs.Prelude.{◌≡◌, Some, IfOk, IfErr, IsTrue};
ghost use Rattle.chi_sets.specs.Sets.{among};
ghost use Rattle.chi_ops.specs.Conditions.{may_index, may_lookup, may_has, may_size};
ghost use Rattle.chi_ops.specs.Operations.{lookup, has, size};
ghost use Rattle.chi_ops.specs.Outcome.{gives};
ghost use Rattle.chi_ops.specs.Refusal.{Refuses};
ghost use Rattle.chi_ops.specs.Sequences.{index};

use crate::OpFault;
use crate::place::{at_place, in_row};
use chi_sets::{has_key, value_at};
use chi_token::Bytes;
use chi_value::{Value, compare_any};
use std::alloc::Global;
use std::cmp::Ordering;

/// The element at an index, or the byte as a string. An index below 0 counts from the end.
pub fn index(alloc: Global, v: &Value, i: i64) -> Result<Value, OpFault>
    requires fits { IsTrue (may_index v.now i) }
    ensures value { IfOk result (λ value. index v.now i ≡ gives value) }
    ensures refused { IfErr result (λ fault. Refuses fault (index v.now i)) }
{
    match v {
        Value::ListOf(items) => match in_row(items, i) {
            Some(item) => Ok(item.copy(alloc)?),
            None => Err(OpFault::Index),
        },
        Value::Text(bytes) => match at_place(bytes.as_slice(), i) {
            Some(byte) => Ok(Value::Text(Bytes::copy_of(alloc, &[*byte])?)),
            None => Err(OpFault::Index),
        },
        _ => unreachable!(),
    }
}

/// What a key of a dictionary has.
pub fn lookup(alloc: Global, d: &Value, key: &Value) -> Result<Value, OpFault>
    requires fits { IsTrue (may_lookup d.now key.now) }
    ensures value { IfOk result (λ value. lookup d.now key.now ≡ gives value) }
    ensures refused { IfErr result (λ fault. Refuses fault (lookup d.now key.now)) }
{
    match d {
        Value::DictOf(entries) => match value_at(entries.as_slice(), key) {
            Some(has) => Ok(has.copy(alloc)?),
            None => Err(OpFault::Key),
        },
        _ => unreachable!(),
    }
}

/// Whether an element is in a list or a set, or a key in a dictionary.
pub fn has(v: &Value, x: &Value) -> bool
    requires fits { IsTrue (may_has v.now x.now) }
    ensures value { has v.now x.now ≡ Some result }
{
    match v {
        Value::ListOf(items) => {
            let (first, second) = items.as_slices();
            is_among(first, x) || is_among(second, x)
        }
        Value::SetOf(items) => chi_sets::has(items.as_slice(), x),
        Value::DictOf(entries) => has_key(entries.as_slice(), x),
        _ => unreachable!(),
    }
}

fn is_among(items: &[Value], x: &Value) -> bool
    ensures value { result ≡ among items.now x.now }
{
    items
        .iter()
        .any(|item| compare_any(x, item) == Ordering::Equal)
}

/// How many elements, entries or bytes there are.
pub fn size(v: &Value) -> u32
    requires fits { IsTrue (may_size v.now) }
    ensures value { size v.now ≡ Some result }
{
    match v {
        Value::Text(bytes) => bytes.as_slice().len() as u32,
        Value::ListOf(items) => items.len() as u32,
        Value::SetOf(items) => items.as_slice().len() as u32,
        Value::DictOf(entries) => entries.as_slice().len() as u32,
        _ => unreachable!(),
    }
}
