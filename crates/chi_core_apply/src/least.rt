//! The least and the greatest of numbers, all of them ints or all of them reals.

ghost use Rattle.std.specs.Prelude.{◌≡◌, ◌≢◌};
ghost use Rattle.chi_core.specs.Answer.{Gives, Amiss};
ghost use Rattle.chi_core.specs.Arithmetic.{best_int, best_real, best_of};
ghost use Rattle.chi_core_apply.specs.Best.{better_by};

use crate::reading::{int_in, real_in};
use chi_core::View;
use chi_num::Real;
use chi_value::Value;

/// The greater of two numbers, or the lesser.
fn better(greatest: bool, x: i64, y: i64) -> i64
    ensures { result ≡ better_by greatest x y }
{
    if greatest { x.max(y) } else { x.min(y) }
}

#[tactic(auto, using(crate::proofs::Numbers::kinds, crate::proofs::Bests::bests))]
fn best_int(greatest: bool, first: i64, others: &[Value], view: &View) -> Value
    requires { best_int (better_by greatest) first others.now view.now ≢ Amiss }
    ensures { best_int (better_by greatest) first others.now view.now ≡ Gives result view.now }
{
    let mut best = first;
    for other in others {
        best = better(greatest, best, int_in(other));
    }
    Value::Int(best)
}

#[tactic(auto, using(crate::proofs::Numbers::kinds, crate::proofs::Bests::bests))]
fn best_real(greatest: bool, first: i64, others: &[Value], view: &View) -> Value
    requires { best_real (better_by greatest) first others.now view.now ≢ Amiss }
    ensures { best_real (better_by greatest) first others.now view.now ≡ Gives result view.now }
{
    let mut best = first;
    for other in others {
        best = better(greatest, best, real_in(other).units());
    }
    Value::Real(Real::from_units(best))
}

/// The greatest of two or more numbers, or the least.
#[tactic(auto, using(crate::proofs::Numbers::kinds, crate::proofs::Bests::bests))]
pub fn best_of(greatest: bool, a: &Value, b: &Value, rest: &[Value], view: &View) -> Value
    requires { best_of (better_by greatest) a.now b.now rest.now view.now ≢ Amiss }
    ensures { best_of (better_by greatest) a.now b.now rest.now view.now ≡ Gives result view.now }
{
    match a {
        Value::Int(x) => best_int(greatest, better(greatest, *x, int_in(b)), rest, view),
        Value::Real(x) => {
            let first = better(greatest, x.units(), real_in(b).units());
            best_real(greatest, first, rest, view)
        }
        Value::Bool(_)
        | Value::Text(_)
        | Value::Choice(_, _)
        | Value::TupleOf(_)
        | Value::ListOf(_)
        | Value::SetOf(_)
        | Value::DictOf(_)
        | Value::Chan(_)
        | Value::Dist(_)
        | Value::Timer(_)
        | Value::Inst(_) => unreachable!(),
    }
}
