//! What operators make of values that are given away.

ghost use Rattle.std.specs.Prelude.{◌≡◌, ◌≢◌, Err, IfErr, IfOk};
ghost use Rattle.chi_core.specs.Answer.{Gives, Amiss};
ghost use Rattle.chi_core.specs.Operators.{applied};
ghost use Rattle.chi_core_frame.specs.Operators.{listed};
ghost use Rattle.chi_core_frame.specs.Stops.{Stops};
ghost use Rattle.chi_core_apply.specs.Scenery.{scene_of};

use crate::stop::Stop;
use chi_core::{OpName, View};
use chi_core_apply::{Scenery, apply, of_one_used, of_two_used};
use chi_value::Value;
use std::alloc::Global;

/// The values of an operator's operands, from left to right. One or two, which most operators take, need no vector.
#[derive(Debug, Drop)]
pub enum Operands {
    One(Value),
    Two(Value, Value),
    Any(Vec<Value>),
}

/// What an operator makes of its operands.
#[tactic(auto, using(crate::proofs::Stopping::stopping, crate::proofs::Unspent::never_spent))]
pub fn operator_of(
    alloc: Global,
    scenery: &Scenery<'_>,
    name: OpName,
    operands: Operands,
    view: &mut View,
) -> Result<Value, Stop>
    requires { applied (scene_of scenery.now) name (listed operands) view.old ≢ Amiss }
    ensures value { IfOk result (λ v. applied (scene_of scenery.now) name (listed operands) view.old ≡ Gives v view.new) }
    ensures stops { IfErr result (λ stop. Stops stop (applied (scene_of scenery.now) name (listed operands) view.old)) }
    ensures never { result ≢ Err Stop.Spent }
{
    match operands {
        Operands::One(x) => Ok(of_one_used(alloc, scenery, name, x, view)?),
        Operands::Two(x, y) => Ok(of_two_used(alloc, scenery, name, x, y, view)?),
        Operands::Any(values) => Ok(apply(alloc, scenery, name, values.as_slice(), view)?),
    }
}
