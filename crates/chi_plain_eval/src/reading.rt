//! What is read of values. A truth or a count is read of a value that nothing else wants, which goes with it.

ghost use Rattle.std.specs.Prelude.{◌≡◌, ◌≢◌, ◌≤◌, ◌<◌, ℕ, pos, None, Some, IfSome, IfNone};
ghost use Rattle.chi_core.specs.Reading.{int_of, truth_of};
ghost use Rattle.chi_value.specs.declared.value.Value.{out-Value};
ghost use Rattle.chi_value.specs.declared.value.TheConstants.{MOST_ELEMENTS};
ghost use Rattle.chi_plain_eval.specs.Kinds.{items_of};

use chi_core_apply::{times_in, truth_in};
use chi_value::{Row, Value};

/// The truth that a value is.
pub fn truth_of(value: Value) -> bool
    requires { truth_of value ≢ None }
    ensures { truth_of value ≡ Some result }
{
    truth_in(&value)
}

/// How many values a list of so many values has, where it may have that many.
pub fn times_of(count: Value) -> Option<u32>
    requires { int_of count ≢ None }
    ensures few { IfSome result (λ n. int_of count ≡ Some (pos n)) }
    ensures within { IfSome result (λ n. n ≤ MOST_ELEMENTS) }
    ensures many { IfNone result ((n : ℕ) → int_of count ≡ Some (pos n) → MOST_ELEMENTS < n) }
{
    times_in(&count)
}

/// What a list has.
pub fn list_in(value: &Value) -> &Row
    requires { items_of (out-Value value.now) ≢ None }
    ensures { items_of (out-Value value.now) ≡ Some result.now }
{
    match value {
        Value::ListOf(items) => items,
        Value::Bool(_)
        | Value::Int(_)
        | Value::Real(_)
        | Value::Text(_)
        | Value::Choice(_, _)
        | Value::TupleOf(_)
        | Value::SetOf(_)
        | Value::DictOf(_)
        | Value::Chan(_)
        | Value::Dist(_)
        | Value::Timer(_)
        | Value::Inst(_) => unreachable!(),
    }
}
