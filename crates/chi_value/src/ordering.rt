ghost use Rattle.std.specs.Prelude.{◌≡◌, map};
ghost use Rattle.std.specs.Cmp.Lexicographic.{slice_cmp};
ghost use Rattle.chi_value.specs.declared.value.Value.{out-Value};
ghost use Rattle.chi_value.specs.Alike.{Alike};
ghost use Rattle.chi_value.specs.Order.{order, against, rank};

use crate::{Row, Value};
use std::cmp::Ordering;

/// The order of two alike values: false before true, numbers, strings by bytes, enumerations by
/// position, and all else by the first difference, what ends first before what goes on.
pub fn compare(a: &Value, b: &Value) -> Ordering
    requires { Alike a.now b.now }
    ensures value { result ≡ order a.now b.now }
{
    compare_any(a, b)
}

/// The order of any two values: of those that are not alike, that of their kinds.
#[cycle(compare_any)]
pub fn compare_any(a: &Value, b: &Value) -> Ordering
    ensures value { result ≡ order a.now b.now }
{
    let kinds = rank(a).cmp(&rank(b));
    if kinds != Ordering::Equal {
        return kinds;
    }
    match (a, b) {
        (Value::Bool(x), Value::Bool(y)) => x.cmp(y),
        (Value::Int(x), Value::Int(y)) => x.cmp(y),
        (Value::Real(x), Value::Real(y)) => x.cmp(y),
        (Value::Text(x), Value::Text(y)) => x.as_slice().cmp(y.as_slice()),
        (Value::Choice(k, x), Value::Choice(l, y)) => k.cmp(l).then(x.cmp(y)),
        (Value::TupleOf(xs), Value::TupleOf(ys))
        | (Value::SetOf(xs), Value::SetOf(ys))
        | (Value::DictOf(xs), Value::DictOf(ys)) => compare_all(xs.as_slice(), ys.as_slice()),
        (Value::ListOf(xs), Value::ListOf(ys)) => compare_rows(xs, ys),
        (_, _) => Ordering::Equal,
    }
}

/// The place of a value's kind among the kinds.
fn rank(value: &Value) -> u8
    ensures value { result ≡ rank (out-Value value.now) }
{
    match value {
        Value::Bool(_) => 0,
        Value::Int(_) => 1,
        Value::Real(_) => 2,
        Value::Text(_) => 3,
        Value::Choice(_, _) => 4,
        Value::TupleOf(_) => 5,
        Value::ListOf(_) => 6,
        Value::SetOf(_) => 7,
        Value::DictOf(_) => 8,
        Value::Chan(_) => 9,
        Value::Dist(_) => 10,
        Value::Timer(_) => 11,
        Value::Inst(_) => 12,
    }
}

#[cycle(compare_any)]
fn compare_all(a: &[Value], b: &[Value]) -> Ordering
    ensures value { result ≡ slice_cmp against (map order a.now) b.now }
{
    let mut others = b;
    for value in a {
        let Some((other, rest)) = others.split_first() else {
            return Ordering::Greater;
        };
        let found = compare_any(value, other);
        if found != Ordering::Equal {
            return found;
        }
        others = rest;
    }
    if others.is_empty() {
        Ordering::Equal
    } else {
        Ordering::Less
    }
}

#[cycle(compare_any)]
fn compare_rows(a: &Row, b: &Row) -> Ordering
    ensures value { result ≡ slice_cmp against (map order a.now) b.now }
{
    for place in 0..a.len() {
        let Some(value) = a.get(place) else {
            unreachable!();
        };
        let Some(other) = b.get(place) else {
            return Ordering::Greater;
        };
        let found = compare_any(value, other);
        if found != Ordering::Equal {
            return found;
        }
    }
    if a.len() < b.len() {
        Ordering::Less
    } else {
        Ordering::Equal
    }
}
