//! What a value is by its kind.

ghost use Rattle.std.specs.Prelude.{◌≡◌, ◌≢◌, None, Some, IfOk};
ghost use Rattle.chi_core.specs.Reading.{truth_of, int_of, real_of, due_of, channel_of, instance_of, elements_of, parts_of, part_of};

use chi_base::NoMemory;
use chi_num::Real;
use chi_value::Value;
use std::alloc::Global;

/// The truth value that the value is.
pub fn truth_in(value: &Value) -> bool
    requires { truth_of value.now ≢ None }
    ensures { truth_of value.now ≡ Some result }
{
    match value {
        Value::Bool(x) => *x,
        Value::Int(_)
        | Value::Real(_)
        | Value::Text(_)
        | Value::Choice(_, _)
        | Value::TupleOf(_)
        | Value::ListOf(_)
        | Value::SetOf(_)
        | Value::DictOf(_)
        | Value::Chan(_)
        | Value::Dist(_)
        | Value::Timer(_)
        | Value::Inst(_) => unreachable!(),
    }
}

/// The int that the value is.
pub fn int_in(value: &Value) -> i64
    requires { int_of value.now ≢ None }
    ensures { int_of value.now ≡ Some result }
{
    match value {
        Value::Int(x) => *x,
        Value::Bool(_)
        | Value::Real(_)
        | Value::Text(_)
        | Value::Choice(_, _)
        | Value::TupleOf(_)
        | Value::ListOf(_)
        | Value::SetOf(_)
        | Value::DictOf(_)
        | Value::Chan(_)
        | Value::Dist(_)
        | Value::Timer(_)
        | Value::Inst(_) => unreachable!(),
    }
}

/// The real that the value is.
pub fn real_in(value: &Value) -> Real
    requires { real_of value.now ≢ None }
    ensures { real_of value.now ≡ Some result }
{
    match value {
        Value::Real(x) => *x,
        Value::Bool(_)
        | Value::Int(_)
        | Value::Text(_)
        | Value::Choice(_, _)
        | Value::TupleOf(_)
        | Value::ListOf(_)
        | Value::SetOf(_)
        | Value::DictOf(_)
        | Value::Chan(_)
        | Value::Dist(_)
        | Value::Timer(_)
        | Value::Inst(_) => unreachable!(),
    }
}

/// When a timer is due.
pub fn due_in(value: &Value) -> i64
    requires { due_of value.now ≢ None }
    ensures { due_of value.now ≡ Some result }
{
    match value {
        Value::Timer(due) => *due,
        Value::Bool(_)
        | Value::Int(_)
        | Value::Real(_)
        | Value::Text(_)
        | Value::Choice(_, _)
        | Value::TupleOf(_)
        | Value::ListOf(_)
        | Value::SetOf(_)
        | Value::DictOf(_)
        | Value::Chan(_)
        | Value::Dist(_)
        | Value::Inst(_) => unreachable!(),
    }
}

/// The number of a channel.
pub fn channel_in(value: &Value) -> u32
    requires { channel_of value.now ≢ None }
    ensures { channel_of value.now ≡ Some result }
{
    match value {
        Value::Chan(number) => *number,
        Value::Bool(_)
        | Value::Int(_)
        | Value::Real(_)
        | Value::Text(_)
        | Value::Choice(_, _)
        | Value::TupleOf(_)
        | Value::ListOf(_)
        | Value::SetOf(_)
        | Value::DictOf(_)
        | Value::Dist(_)
        | Value::Timer(_)
        | Value::Inst(_) => unreachable!(),
    }
}

/// The number of an instance, if the value names one.
pub fn instance_in(value: &Value) -> Option<u32>
    requires { instance_of value.now ≢ None }
    ensures { instance_of value.now ≡ Some result }
{
    match value {
        Value::Inst(number) => *number,
        Value::Bool(_)
        | Value::Int(_)
        | Value::Real(_)
        | Value::Text(_)
        | Value::Choice(_, _)
        | Value::TupleOf(_)
        | Value::ListOf(_)
        | Value::SetOf(_)
        | Value::DictOf(_)
        | Value::Chan(_)
        | Value::Dist(_)
        | Value::Timer(_) => unreachable!(),
    }
}

/// The parts of a tuple.
pub fn parts_in(value: &Value) -> &[Value]
    requires { parts_of value.now ≢ None }
    ensures { parts_of value.now ≡ Some result.now }
{
    match value {
        Value::TupleOf(parts) => parts.as_slice(),
        Value::Bool(_)
        | Value::Int(_)
        | Value::Real(_)
        | Value::Text(_)
        | Value::Choice(_, _)
        | Value::ListOf(_)
        | Value::SetOf(_)
        | Value::DictOf(_)
        | Value::Chan(_)
        | Value::Dist(_)
        | Value::Timer(_)
        | Value::Inst(_) => unreachable!(),
    }
}

/// A copy of the part of a tuple.
#[tactic(auto, using(crate::proofs::Parts::parts))]
pub fn part_in(alloc: Global, value: &Value, number: u32) -> Result<Value, NoMemory>
    requires { part_of value.now number ≢ None }
    ensures { IfOk result (λ part. part_of value.now number ≡ Some part) }
{
    Ok(parts_in(value)[number as usize].copy(alloc)?)
}

/// The elements of a container in order; those of a dictionary are pairs of a key and what it has.
pub fn elements_in(alloc: Global, value: Value) -> Result<Vec<Value>, NoMemory>
    requires { elements_of value ≢ None }
    ensures { IfOk result (λ elements. elements_of value ≡ Some elements.items) }
{
    match value {
        Value::ListOf(items) => Ok(items.into_vec(alloc)?),
        Value::SetOf(items) | Value::DictOf(items) => Ok(items.into_vec(alloc)?),
        Value::Bool(_)
        | Value::Int(_)
        | Value::Real(_)
        | Value::Text(_)
        | Value::Choice(_, _)
        | Value::TupleOf(_)
        | Value::Chan(_)
        | Value::Dist(_)
        | Value::Timer(_)
        | Value::Inst(_) => unreachable!(),
    }
}

/// The parts of a tuple, as they are.
pub fn parts_from(alloc: Global, value: Value) -> Result<Vec<Value>, NoMemory>
    requires { parts_of value ≢ None }
    ensures { IfOk result (λ parts. parts_of value ≡ Some parts.items) }
{
    match value {
        Value::TupleOf(parts) => Ok(parts.into_vec(alloc)?),
        Value::Bool(_)
        | Value::Int(_)
        | Value::Real(_)
        | Value::Text(_)
        | Value::Choice(_, _)
        | Value::ListOf(_)
        | Value::SetOf(_)
        | Value::DictOf(_)
        | Value::Chan(_)
        | Value::Dist(_)
        | Value::Timer(_)
        | Value::Inst(_) => unreachable!(),
    }
}
