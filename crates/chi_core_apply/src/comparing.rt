//! Comparisons of plain values, and truth values.

ghost use Rattle.std.specs.Prelude.{◌≡◌, ◌≢◌, None, Some};
ghost use Rattle.chi_core.specs.Answer.{Gives, Amiss};
ghost use Rattle.chi_core.specs.Comparisons.{compared, opposite, equal, different, below, at_most, above, at_least};

use crate::reading::truth_in;
use chi_core::View;
use chi_value::{Value, compare_any};
use std::cmp::Ordering;

/// How two values stand to each other.
#[tactic(auto, using(crate::proofs::Truths::truths))]
fn compared(a: &Value, b: &Value) -> Ordering
    requires { compared a.now b.now ≢ None }
    ensures { compared a.now b.now ≡ Some result }
{
    compare_any(a, b)
}

/// The other truth value.
#[tactic(auto, using(crate::proofs::Truths::truths))]
pub fn opposite(a: &Value, view: &View) -> Value
    requires { opposite a.now view.now ≢ Amiss }
    ensures { opposite a.now view.now ≡ Gives result view.now }
{
    Value::Bool(!truth_in(a))
}

#[tactic(auto, using(crate::proofs::Truths::truths))]
pub fn equal(a: &Value, b: &Value, view: &View) -> Value
    requires { equal a.now b.now view.now ≢ Amiss }
    ensures { equal a.now b.now view.now ≡ Gives result view.now }
{
    Value::Bool(compared(a, b).is_eq())
}

#[tactic(auto, using(crate::proofs::Truths::truths))]
pub fn different(a: &Value, b: &Value, view: &View) -> Value
    requires { different a.now b.now view.now ≢ Amiss }
    ensures { different a.now b.now view.now ≡ Gives result view.now }
{
    Value::Bool(!compared(a, b).is_eq())
}

#[tactic(auto, using(crate::proofs::Truths::truths))]
pub fn below(a: &Value, b: &Value, view: &View) -> Value
    requires { below a.now b.now view.now ≢ Amiss }
    ensures { below a.now b.now view.now ≡ Gives result view.now }
{
    Value::Bool(compared(a, b).is_lt())
}

#[tactic(auto, using(crate::proofs::Truths::truths))]
pub fn at_most(a: &Value, b: &Value, view: &View) -> Value
    requires { at_most a.now b.now view.now ≢ Amiss }
    ensures { at_most a.now b.now view.now ≡ Gives result view.now }
{
    Value::Bool(!compared(a, b).is_gt())
}

#[tactic(auto, using(crate::proofs::Truths::truths))]
pub fn above(a: &Value, b: &Value, view: &View) -> Value
    requires { above a.now b.now view.now ≢ Amiss }
    ensures { above a.now b.now view.now ≡ Gives result view.now }
{
    Value::Bool(compared(a, b).is_gt())
}

#[tactic(auto, using(crate::proofs::Truths::truths))]
pub fn at_least(a: &Value, b: &Value, view: &View) -> Value
    requires { at_least a.now b.now view.now ≢ Amiss }
    ensures { at_least a.now b.now view.now ≡ Gives result view.now }
{
    Value::Bool(!compared(a, b).is_lt())
}
