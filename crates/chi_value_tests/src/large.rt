//! Operations on ints, at the greatest sizes. Their conditions are tested in linear time.

ghost use Rattle.std.specs.Prelude.{◌≡◌, ◌&&◌, ℤ, IsTrue};
ghost use Rattle.std.specs.List.{list_all};
ghost use Rattle.chi_sets.specs.Sets.{is_ascending};
ghost use Rattle.chi_value.specs.declared.format.Kind.TheVariants.{SetOf};
ghost use Rattle.chi_value.specs.declared.value.Value.TheVariants.{Int};
ghost use Rattle.chi_ops.specs.Conditions.{may_build, may_has, may_join, may_size, may_union};
ghost use Rattle.chi_ops.specs.Kinds.{is_int, is_sequence};
ghost use Rattle.chi_ops.specs.Tidy.{tidy};

use chi_base::NoMemory;
use chi_ops::{Kind, OpFault, build, has, index, join, range, size, slice, union};
use chi_token::Bytes;
use chi_value::{Items, Row, Value, compare_any};
use std::alloc::Global;
use std::cmp::Ordering;
use std::test::Fail;

fn is_int(v: &Value) -> bool
    ensures { result ≡ is_int v.now }
{
    matches!(v, Value::Int(_))
}

fn is_ascending(items: &[Value]) -> bool
    ensures { result ≡ is_ascending items.now }
{
    let Some((first, rest)) = items.split_first() else {
        return true;
    };
    let mut before = first;
    for item in rest {
        if compare_any(before, item) != Ordering::Less {
            return false;
        }
        before = item;
    }
    true
}

fn are_ints(values: &[Value]) -> bool
    ensures { result ≡ list_all is_int values.now }
{
    for value in values {
        if !is_int(value) {
            return false;
        }
    }
    true
}

fn is_row_of_ints(values: &Row) -> bool
    ensures { result ≡ list_all is_int values.now }
{
    for place in 0..values.len() {
        let Some(value) = values.get(place) else {
            unreachable!();
        };
        if !is_int(value) {
            return false;
        }
    }
    true
}

#[tactic(auto, using(crate::proofs::Ints::build_ints))]
fn may_build_ints(parts: &[Value]) -> bool
    ensures { IsTrue result → IsTrue (may_build SetOf parts.now) }
{
    are_ints(parts)
}

#[tactic(auto, using(crate::proofs::Ints::has_ints))]
fn may_has_ints(v: &Value) -> bool
    ensures { IsTrue result → (n : ℤ) → IsTrue (may_has v.now (Int n)) }
{
    match v {
        Value::SetOf(items) => are_ints(items.as_slice()) && is_ascending(items.as_slice()),
        _ => false,
    }
}

#[tactic(auto, using(crate::proofs::Ints::union_ints))]
fn may_union_ints(a: &Value, b: &Value) -> bool
    ensures { IsTrue result → IsTrue (may_union a.now b.now) }
{
    match (a, b) {
        (Value::SetOf(a), Value::SetOf(b)) => {
            are_ints(a.as_slice())
                && are_ints(b.as_slice())
                && is_ascending(a.as_slice())
                && is_ascending(b.as_slice())
        }
        (_, _) => false,
    }
}

#[tactic(auto, using(crate::proofs::Ints::join_ints))]
fn may_join_ints(a: &Value, b: &Value) -> bool
    ensures { IsTrue result → IsTrue (may_join a.now b.now) }
{
    match (a, b) {
        (Value::ListOf(a), Value::ListOf(b)) => is_row_of_ints(a) && is_row_of_ints(b),
        (_, _) => false,
    }
}

#[tactic(auto, using(crate::proofs::Ints::sequence_ints))]
fn is_sequence_of_ints(v: &Value) -> bool
    ensures { IsTrue result → IsTrue (tidy v.now && is_sequence v.now) }
{
    match v {
        Value::ListOf(items) => is_row_of_ints(items),
        _ => false,
    }
}

#[tactic(auto, using(crate::proofs::Ints::text_size))]
fn may_size_text(v: &Value) -> bool
    ensures { IsTrue result → IsTrue (may_size v.now) }
{
    match v {
        Value::Text(bytes) => (bytes.as_slice().len() as u64) < 4_294_967_296,
        _ => false,
    }
}

/// So many ints from the greatest down to 1.
fn falling(alloc: Global, count: u32) -> Result<Vec<Value>, NoMemory> {
    let mut numbers = Vec::new(alloc);
    for smaller in 0..count {
        numbers.push(Value::Int(i64::from(count - smaller)))?;
    }
    Ok(numbers)
}

#[test]
fn the_largest_set_is_built_from_falling_ints(rt: HostRuntime) -> Result<(), Fail> {
    let alloc = rt.alloc();
    let parts = falling(alloc, 1_048_576)?;
    assert!(rt; may_build_ints(parts.as_slice()));
    let all = build(alloc, Kind::SetOf, parts)?;
    assert!(rt; may_has_ints(&all));
    for number in 0..1_048_578i64 {
        let inside = number != 0 && number <= 1_048_576;
        assert!(rt; has(&all, &Value::Int(number)) == inside, "{number}");
    }
    let parts = falling(alloc, 1_048_577)?;
    assert!(rt; may_build_ints(parts.as_slice()));
    assert!(rt; matches!(build(alloc, Kind::SetOf, parts), Err(OpFault::Limit)));
    Ok(())
}

/// The set of so many odd or even ints from 0 on.
fn every_second(alloc: Global, first: u32) -> Result<Value, NoMemory> {
    let mut numbers = Vec::new(alloc);
    for half in 0..524_288u32 {
        numbers.push(Value::Int(i64::from(2 * half) + i64::from(first)))?;
    }
    Ok(Value::SetOf(Items::of(alloc, numbers)?))
}

#[test]
fn the_largest_sets_are_united(rt: HostRuntime) -> Result<(), Fail> {
    let alloc = rt.alloc();
    let evens = every_second(alloc, 0)?;
    let odds = every_second(alloc, 1)?;
    assert!(rt; may_union_ints(&evens, &odds));
    let both = union(alloc, &evens, &odds)?;
    let Value::SetOf(items) = &both else {
        return Err(Fail::new("no set"));
    };
    assert_eq!(rt; items.as_slice().len(), 1_048_576);
    let mut more = Vec::new(alloc);
    more.push(Value::Int(-1))?;
    let more = Value::SetOf(Items::of(alloc, more)?);
    assert!(rt; may_union_ints(&both, &more));
    assert!(rt; matches!(union(alloc, &both, &more), Err(OpFault::Limit)));
    Ok(())
}

#[test]
fn ints_are_counted_and_found(rt: HostRuntime) -> Result<(), Fail> {
    let alloc = rt.alloc();
    let ints = range(alloc, 0, 3, 1)?;
    assert!(rt; is_sequence_of_ints(&ints));
    assert!(rt; matches!(index(alloc, &ints, -1), Ok(Value::Int(2))));
    assert!(rt; matches!(index(alloc, &ints, 3), Err(OpFault::Index)));
    assert!(rt; matches!(range(alloc, 0, 3, 0), Err(OpFault::SliceStep)));
    assert!(rt; may_join_ints(&ints, &ints));
    let both = join(alloc, &ints, &ints)?;
    assert!(rt; is_sequence_of_ints(&both));
    let part = slice(alloc, &both, None, None, Some(-5))?;
    let Value::ListOf(items) = &part else {
        return Err(Fail::new("no list"));
    };
    assert!(rt; items.len() == 2 && matches!(items.get(1), Some(Value::Int(0))));
    Ok(())
}

/// A string with a byte that no source has.
#[test]
fn a_string_may_have_any_bytes(rt: HostRuntime) -> Result<(), Fail> {
    let text = Value::Text(Bytes::copy_of(rt.alloc(), b"a\n\xff")?);
    assert!(rt; may_size_text(&text));
    assert_eq!(rt; size(&text), 3);
    Ok(())
}
