ghost use Rattle.std.specs.Prelude.{◌≡◌, ◌≢◌, ◌≤◌, ◌^◌, ◌<◌, ℕ, pos, unsigned_abs, slice_get, IfOk, IfErr, IsTrue, option_copied, OnOk, ◌++◌, option_to_list};
ghost use Rattle.chi_ops.specs.Conditions.{may_slice};
ghost use Rattle.chi_ops.specs.Outcome.{gives};
ghost use Rattle.chi_ops.specs.Refusal.{Refuses};
ghost use Rattle.chi_ops.specs.Sequences.{slice};
ghost use Rattle.chi_ops.specs.Slices.{bound_or, clamped, first_place, from_end, last_place, slice_of, slice_places};
ghost use Rattle.chi_ops.specs.Walking.{rest_of, IsWalk};

use crate::OpFault;
use crate::walk::Walk;
use chi_base::NoMemory;
use chi_token::Bytes;
use chi_value::{Row, Value};
use std::alloc::Global;

/// The elements or bytes from a place to before another, by a step, which is 1 where none is given. A bound below 0
/// counts from the end, and bounds beyond the ends are moved to them. A step below 0 goes backwards.
pub fn slice(
    alloc: Global,
    v: &Value,
    from: Option<i64>,
    upto: Option<i64>,
    by: Option<i64>,
) -> Result<Value, OpFault>
    requires fits { IsTrue (may_slice v.now from upto by) }
    ensures value { IfOk result (λ value. slice v.now from upto by ≡ gives value) }
    ensures refused { IfErr result (λ fault. Refuses fault (slice v.now from upto by)) }
{
    Ok(sliced(alloc, v.copy(alloc)?, from, upto, by)?)
}

/// As slice, of a value that is used up: by steps of 1 the elements of a list that isn't shared stay where they are.
pub fn sliced(
    alloc: Global,
    v: Value,
    from: Option<i64>,
    upto: Option<i64>,
    by: Option<i64>,
) -> Result<Value, OpFault>
    requires fits { IsTrue (may_slice v from upto by) }
    ensures value { IfOk result (λ value. slice v from upto by ≡ gives value) }
    ensures refused { IfErr result (λ fault. Refuses fault (slice v from upto by)) }
{
    let by = by.unwrap_or(1);
    if by == 0 {
        return Err(OpFault::SliceStep);
    }
    match v {
        Value::ListOf(items) => Ok(Value::ListOf(taken_row(alloc, items, from, upto, by)?)),
        Value::Text(bytes) => {
            let taken = taken_bytes(alloc, bytes.as_slice(), from, upto, by)?;
            Ok(Value::Text(Bytes::of(alloc, taken)?))
        }
        _ => unreachable!(),
    }
}

/// The list of a slice.
fn taken_row(
    alloc: Global,
    items: Row,
    from: Option<i64>,
    upto: Option<i64>,
    by: i64,
) -> Result<Row, NoMemory>
    requires { by ≢ pos 0 }
    ensures value { IfOk result (λ taken. taken ≡ slice_of items from upto by) }
{
    if by == 1 {
        return Ok(part_of(alloc, items, from, upto)?);
    }
    let all = items.into_vec(alloc)?;
    let taken = taken_values(alloc, all.as_slice(), from, upto, by)?;
    Ok(Row::of(alloc, taken)?)
}

/// The list of a slice by steps of 1.
#[tactic(auto, using(crate::proofs::Halves::part_taken))]
fn part_of(alloc: Global, items: Row, from: Option<i64>, upto: Option<i64>) -> Result<Row, NoMemory>
    ensures value { IfOk result (λ taken. taken ≡ slice_of items from upto (pos 1)) }
{
    let first = place_or(items.len(), from, 0);
    let last = place_or(items.len(), upto, items.len());
    let size = last.saturating_sub(first);
    let start = first.min(last);
    Ok(items.part(alloc, start, size)?)
}

/// The place of a bound of a slice by steps of 1.
fn place_or(size: usize, bound: Option<i64>, otherwise: usize) -> usize
    requires inside { otherwise ≤ size }
    ensures place { pos result ≡ bound_or (pos otherwise) (pos 0) (pos size) size bound }
    ensures inside { result ≤ size }
{
    match bound {
        Some(bound) => place_near(size, bound),
        None => otherwise,
    }
}

/// A bound below 0 counts from the end, and one beyond an end is moved to it.
fn place_near(size: usize, bound: i64) -> usize
    ensures place { pos result ≡ clamped (pos 0) (pos size) (from_end size bound) }
    ensures inside { result ≤ size }
{
    let distance = bound.unsigned_abs() as usize;
    if bound < 0 {
        size.saturating_sub(distance)
    } else {
        distance.min(size)
    }
}

/// The elements of a slice.
fn taken_values(
    alloc: Global,
    items: &[Value],
    from: Option<i64>,
    upto: Option<i64>,
    by: i64,
) -> Result<Vec<Value>, NoMemory>
    requires { by ≢ pos 0 }
    ensures value { IfOk result (λ taken. taken.items ≡ slice_of items.now from upto by) }
{
    let mut walk = walk_of(items.len(), from, upto, by);
    let mut taken = Vec::new(alloc);
    while let Some(place) = walk.step() {
        push_value(alloc, &mut taken, element(items, place))?;
    }
    Ok(taken)
}

/// The bytes of a slice.
fn taken_bytes(
    alloc: Global,
    bytes: &[u8],
    from: Option<i64>,
    upto: Option<i64>,
    by: i64,
) -> Result<Vec<u8>, NoMemory>
    requires { by ≢ pos 0 }
    ensures value { IfOk result (λ taken. taken.items ≡ slice_of bytes.now from upto by) }
{
    let mut walk = walk_of(bytes.len(), from, upto, by);
    let mut taken = Vec::new(alloc);
    while let Some(place) = walk.step() {
        push_byte(&mut taken, element(bytes, place))?;
    }
    Ok(taken)
}

/// Appends a copy of a value, if there is one.
fn push_value(alloc: Global, taken: &mut Vec<Value>, item: Option<&Value>) -> Result<(), NoMemory>
    ensures pushed { OnOk result (taken.new.items ≡ taken.old.items ++ option_to_list (option_copied item.entry)) }
{
    if let Some(item) = item {
        taken.push(item.copy(alloc)?)?;
    }
    Ok(())
}

/// Appends a byte, if there is one.
fn push_byte(taken: &mut Vec<u8>, byte: Option<&u8>) -> Result<(), NoMemory>
    ensures pushed { OnOk result (taken.new.items ≡ taken.old.items ++ option_to_list (option_copied byte.entry)) }
{
    if let Some(byte) = byte {
        taken.push(*byte)?;
    }
    Ok(())
}

/// The element at a place, if there is one.
fn element<T>(items: &[T], place: i128) -> Option<&T>
    ensures element { option_copied result ≡ slice_get items.now (unsigned_abs place) }
{
    let place = place.unsigned_abs();
    if place < items.len() as u128 {
        items.get(place as usize)
    } else {
        None
    }
}

/// The walk along the places that a slice takes.
fn walk_of(size: usize, from: Option<i64>, upto: Option<i64>, by: i64) -> Walk
    requires { by ≢ pos 0 }
    ensures fit { IsWalk result }
    ensures places { rest_of result ≡ slice_places size from upto by }
{
    Walk::new(
        first_place(size, from, by),
        last_place(size, upto, by),
        by as i128,
    )
}

/// Where a slice begins.
fn first_place(size: usize, bound: Option<i64>, by: i64) -> i128
    ensures value { result ≡ first_place size bound by }
    ensures bound { unsigned_abs result ≤ 2 ^ 64 }
{
    let whole = size as i128;
    if by < 0 {
        bound_or(bound, whole - 1, -1, whole - 1, size)
    } else {
        bound_or(bound, 0, 0, whole, size)
    }
}

/// Before which place a slice ends.
fn last_place(size: usize, bound: Option<i64>, by: i64) -> i128
    ensures value { result ≡ last_place size bound by }
    ensures bound { unsigned_abs result ≤ 2 ^ 64 }
{
    let whole = size as i128;
    if by < 0 {
        bound_or(bound, -1, -1, whole - 1, size)
    } else {
        bound_or(bound, whole, 0, whole, size)
    }
}

/// A bound of a slice, moved to the nearer of two ends where it isn't between them; the first number where none is given.
#[tactic(auto, using(crate::proofs::Walks::passed))]
fn bound_or(bound: Option<i64>, otherwise: i128, low: i128, high: i128, size: usize) -> i128
    requires otherwise { unsigned_abs otherwise ≤ 2 ^ 64 }
    requires low { unsigned_abs low ≤ 2 ^ 64 }
    requires high { unsigned_abs high ≤ 2 ^ 64 }
    ensures value { result ≡ bound_or otherwise low high size bound }
    ensures bound { unsigned_abs result ≤ 2 ^ 64 }
{
    match bound {
        Some(bound) => clamped(low, high, from_end(size, bound)),
        None => otherwise,
    }
}

/// A bound below 0 counts from the end.
fn from_end(size: usize, bound: i64) -> i128
    ensures value { result ≡ from_end size bound }
{
    let bound = bound as i128;
    if bound < 0 {
        bound + size as i128
    } else {
        bound
    }
}

fn clamped(low: i128, high: i128, z: i128) -> i128
    requires low { unsigned_abs low ≤ 2 ^ 64 }
    requires high { unsigned_abs high ≤ 2 ^ 64 }
    ensures value { result ≡ clamped low high z }
    ensures bound { unsigned_abs result ≤ 2 ^ 64 }
{
    if z < low {
        low
    } else if high < z {
        high
    } else {
        z
    }
}
