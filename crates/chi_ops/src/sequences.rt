ghost use Rattle.std.specs.Prelude.{◌≡◌, IfOk, IfErr, IsTrue, map};
ghost use Rattle.std.specs.List.{enumerate_from};
ghost use Rattle.chi_ops.specs.Conditions.{may_join, may_insert_at, may_del, may_enumerate};
ghost use Rattle.chi_ops.specs.Outcome.{gives};
ghost use Rattle.chi_ops.specs.Refusal.{Refuses};
ghost use Rattle.chi_ops.specs.Sequences.{join, insert_at, del, enumerate, numbered};

use crate::OpFault;
use crate::made::pair;
use crate::place::place_of;
use crate::room::test_room;
use chi_base::NoMemory;
use chi_token::Bytes;
use chi_value::{Row, Value};
use std::alloc::Global;

/// One list or string after another.
pub fn join(alloc: Global, a: &Value, b: &Value) -> Result<Value, OpFault>
    requires fits { IsTrue (may_join a.now b.now) }
    ensures value { IfOk result (λ value. join a.now b.now ≡ gives value) }
    ensures refused { IfErr result (λ fault. Refuses fault (join a.now b.now)) }
{
    Ok(joined(alloc, a.copy(alloc)?, b)?)
}

/// As join, of a first that is used up: a list that isn't shared grows where it is. Bytes are copied.
pub fn joined(alloc: Global, a: Value, b: &Value) -> Result<Value, OpFault>
    requires fits { IsTrue (may_join a b.now) }
    ensures value { IfOk result (λ value. join a b.now ≡ gives value) }
    ensures refused { IfErr result (λ fault. Refuses fault (join a b.now)) }
{
    match (a, b) {
        (Value::ListOf(mut a), Value::ListOf(b)) => {
            test_room(a.len(), b.len())?;
            a.extend(alloc, b)?;
            Ok(Value::ListOf(a))
        }
        (Value::Text(a), Value::Text(b)) => {
            test_room(a.as_slice().len(), b.as_slice().len())?;
            let mut joined = Vec::from_slice(alloc, a.as_slice())?;
            joined.extend_from_slice(b.as_slice())?;
            Ok(Value::Text(Bytes::of(alloc, joined)?))
        }
        (_, _) => unreachable!(),
    }
}

/// A list with one more element, at a place that is at most the size.
pub fn insert_at(alloc: Global, v: &Value, i: u32, x: &Value) -> Result<Value, OpFault>
    requires fits { IsTrue (may_insert_at v.now i x.now) }
    ensures value { IfOk result (λ value. insert_at v.now i x.now ≡ gives value) }
    ensures refused { IfErr result (λ fault. Refuses fault (insert_at v.now i x.now)) }
{
    Ok(inserted(alloc, v.copy(alloc)?, i, x.copy(alloc)?)?)
}

/// As insert_at, of values that are used up: a list that isn't shared grows where it is.
pub fn inserted(alloc: Global, v: Value, i: u32, x: Value) -> Result<Value, OpFault>
    requires fits { IsTrue (may_insert_at v i x) }
    ensures value { IfOk result (λ value. insert_at v i x ≡ gives value) }
    ensures refused { IfErr result (λ fault. Refuses fault (insert_at v i x)) }
{
    match v {
        Value::ListOf(mut items) => {
            test_room(items.len(), 1)?;
            items.insert(alloc, i as usize, x)?;
            Ok(Value::ListOf(items))
        }
        _ => unreachable!(),
    }
}

/// A list without the element at an index, which below 0 counts from the end.
pub fn del(alloc: Global, v: &Value, i: i64) -> Result<Value, OpFault>
    requires fits { IsTrue (may_del v.now i) }
    ensures value { IfOk result (λ value. del v.now i ≡ gives value) }
    ensures refused { IfErr result (λ fault. Refuses fault (del v.now i)) }
{
    Ok(deleted(alloc, v.copy(alloc)?, i)?)
}

/// As del, of a value that is used up: a list that isn't shared shrinks where it is.
pub fn deleted(alloc: Global, v: Value, i: i64) -> Result<Value, OpFault>
    requires fits { IsTrue (may_del v i) }
    ensures value { IfOk result (λ value. del v i ≡ gives value) }
    ensures refused { IfErr result (λ fault. Refuses fault (del v i)) }
{
    match v {
        Value::ListOf(mut items) => match place_of(items.len(), i) {
            Some(place) => {
                drop(items.remove(alloc, place)?);
                Ok(Value::ListOf(items))
            }
            None => Err(OpFault::Index),
        },
        _ => unreachable!(),
    }
}

/// The list of each index with its element.
pub fn enumerate(alloc: Global, v: &Value) -> Result<Value, OpFault>
    requires fits { IsTrue (may_enumerate v.now) }
    ensures value { IfOk result (λ value. enumerate v.now ≡ gives value) }
    ensures refused { IfErr result (λ fault. Refuses fault (enumerate v.now)) }
{
    match v {
        Value::ListOf(items) => {
            let all = items.copy()?.into_vec(alloc)?;
            let pairs = numbered_all(alloc, all.as_slice())?;
            Ok(Value::ListOf(Row::of(alloc, pairs)?))
        }
        _ => unreachable!(),
    }
}

/// Each index with its element.
fn numbered_all(alloc: Global, items: &[Value]) -> Result<Vec<Value>, NoMemory>
    ensures value { IfOk result (λ pairs. pairs.items ≡ map numbered (enumerate_from 0 items.now)) }
{
    let mut pairs = Vec::new(alloc);
    for (i, item) in items.iter().enumerate() {
        pairs.push(pair(alloc, Value::Int(i as i64), item.copy(alloc)?)?)?;
    }
    Ok(pairs)
}
