//! Operators, `and` and `or`, and the parts of tuples.

ghost use Rattle.std.specs.Prelude.{◌≡◌, ◌≢◌, Err, IfOk, IfErr, OnOk, map};
ghost use Rattle.chi_core.specs.Answer.{Gives, Amiss, in_turn, then_do};
ghost use Rattle.chi_core.specs.Operators.{applied};
ghost use Rattle.chi_core_frame.specs.Alike.{AreAlikeBut};
ghost use Rattle.chi_core_frame.specs.Operators.{listed};
ghost use Rattle.chi_plain_eval.specs.Calls.{meaning};
ghost use Rattle.chi_plain_eval.specs.Kinds.{second_where, taken_part};
ghost use Rattle.chi_core_frame.specs.Stops.{Stops};
ghost use Rattle.chi_plain_eval.specs.Surroundings.{scene_in};

use crate::expressions::{eval, eval_all};
use crate::here::Here;
use crate::surroundings::scenery;
use chi_core::{CExpr, OpName, View};
use chi_core_apply::truth_in;
use chi_core_frame::{Operands, Stop, Variables, operator_of, part_of};
use chi_value::Value;

/// The values of an operator's operands, which are evaluated from left to right.
#[cycle(eval)]
#[tactic(auto, using(chi_core_frame::proofs::Stopping::stopping, crate::proofs::Operating::operating))]
fn operands_of(
    parts: &[CExpr],
    here: &Here<'_>,
    variables: &Variables,
    view: &mut View,
) -> Result<Operands, Stop>
    requires { in_turn (map (meaning here.now variables.now) parts.now) view.old ≢ Amiss }
    ensures value { IfOk result (λ operands. in_turn (map (meaning here.now variables.now) parts.now) view.old ≡ Gives (listed operands) view.new) }
    ensures stops { IfErr result (λ stop. Stops stop (in_turn (map (meaning here.now variables.now) parts.now) view.old)) }
{
    match parts {
        [a] => Ok(Operands::One(eval(a, here, variables, view)?)),
        [a, b] => {
            let first = eval(a, here, variables, view)?;
            let second = eval(b, here, variables, view)?;
            Ok(Operands::Two(first, second))
        }
        _ => Ok(Operands::Any(eval_all(parts, here, variables, view)?)),
    }
}

/// What an operator makes of the values of its operands.
#[cycle(eval)]
#[tactic(auto, using(chi_core_frame::proofs::Stopping::stopping, crate::proofs::Operating::gathering))]
pub fn operate(
    parts: &[CExpr],
    here: &Here<'_>,
    name: OpName,
    variables: &Variables,
    view: &mut View,
) -> Result<Value, Stop>
    requires { then_do (in_turn (map (meaning here.now variables.now) parts.now) view.old) (applied (scene_in here.now.surroundings.now) name) ≢ Amiss }
    ensures value { IfOk result (λ v. then_do (in_turn (map (meaning here.now variables.now) parts.now) view.old) (applied (scene_in here.now.surroundings.now) name) ≡ Gives v view.new) }
    ensures stops { IfErr result (λ stop. Stops stop (then_do (in_turn (map (meaning here.now variables.now) parts.now) view.old) (applied (scene_in here.now.surroundings.now) name))) }
{
    let operands = operands_of(parts, here, variables, view)?;
    operator_of(
        here.alloc,
        &scenery(here.surroundings),
        name,
        operands,
        view,
    )
}

/// As operate, where the value of a variable is let go of between the operands and the operator: an operand that is a copy
/// of it isn't shared then, and changes where it is.
#[cycle(eval)]
#[tactic(auto, using(chi_core_frame::proofs::Stopping::stopping, crate::proofs::Operating::gathering))]
pub fn operate_off(
    parts: &[CExpr],
    here: &Here<'_>,
    name: OpName,
    slot: u32,
    variables: &mut Variables,
    view: &mut View,
) -> Result<Value, Stop>
    requires { then_do (in_turn (map (meaning here.now variables.old) parts.now) view.old) (applied (scene_in here.now.surroundings.now) name) ≢ Amiss }
    ensures value { IfOk result (λ v. then_do (in_turn (map (meaning here.now variables.old) parts.now) view.old) (applied (scene_in here.now.surroundings.now) name) ≡ Gives v view.new) }
    ensures stops { IfErr result (λ stop. Stops stop (then_do (in_turn (map (meaning here.now variables.old) parts.now) view.old) (applied (scene_in here.now.surroundings.now) name))) }
    ensures alike { OnOk result (AreAlikeBut slot variables.old variables.new) }
    ensures kept { result ≡ Err Stop.Spent → variables.new ≡ variables.old }
{
    let operands = operands_of(parts, here, variables, view)?;
    variables.unset(slot);
    operator_of(
        here.alloc,
        &scenery(here.surroundings),
        name,
        operands,
        view,
    )
}

/// `and` and `or`: the second is evaluated only where the first comes to this truth.
#[cycle(eval)]
#[tactic(auto, using(crate::proofs::Truths::truths))]
pub fn second_where(
    a: &CExpr,
    here: &Here<'_>,
    b: &CExpr,
    truth: bool,
    variables: &Variables,
    view: &mut View,
) -> Result<Value, Stop>
    requires { second_where (meaning here.now variables.now) truth a.now b.now view.old ≢ Amiss }
    ensures value { IfOk result (λ v. second_where (meaning here.now variables.now) truth a.now b.now view.old ≡ Gives v view.new) }
    ensures stops { IfErr result (λ stop. Stops stop (second_where (meaning here.now variables.now) truth a.now b.now view.old)) }
{
    let first = eval(a, here, variables, view)?;
    if truth_in(&first) == truth {
        eval(b, here, variables, view)
    } else {
        Ok(first)
    }
}

/// The part of a tuple.
#[cycle(eval)]
#[tactic(auto, using(crate::proofs::Standing::parts))]
pub fn part(
    a: &CExpr,
    here: &Here<'_>,
    number: u32,
    variables: &Variables,
    view: &mut View,
) -> Result<Value, Stop>
    requires { taken_part (meaning here.now variables.now) a.now number view.old ≢ Amiss }
    ensures value { IfOk result (λ v. taken_part (meaning here.now variables.now) a.now number view.old ≡ Gives v view.new) }
    ensures stops { IfErr result (λ stop. Stops stop (taken_part (meaning here.now variables.now) a.now number view.old)) }
{
    let whole = eval(a, here, variables, view)?;
    part_of(here.alloc, whole, number, view)
}
