//! Targets, read step by step.

ghost use Rattle.std.specs.Prelude.{◌≡◌, ◌≢◌, IfOk, IfErr};
ghost use Rattle.chi_value.specs.declared.value.Value.{out-Value};
ghost use Rattle.chi_ops.specs.Kinds.{is_dictionary};
ghost use Rattle.chi_core.specs.Answer.{Gives, Amiss, through};
ghost use Rattle.chi_core.specs.Spots.{element_by, read_step, read_at};
ghost use Rattle.chi_core_frame.specs.Stops.{Stops};
ghost use Rattle.chi_plain_eval.specs.Surroundings.{value_in};

use chi_core::{CStep, CTarget, View};
use chi_core_apply::{element_at, looked_up, part_in};
use chi_core_frame::{Stop, Variables};
use chi_plain_eval::{Surroundings, value_of};
use chi_value::Value;
use std::alloc::Global;

fn is_dictionary(value: &Value) -> bool
    ensures { result ≡ is_dictionary value.now }
{
    match value {
        Value::DictOf(_) => true,
        Value::Bool(_)
        | Value::Int(_)
        | Value::Real(_)
        | Value::Text(_)
        | Value::Choice(_, _)
        | Value::TupleOf(_)
        | Value::ListOf(_)
        | Value::SetOf(_)
        | Value::Chan(_)
        | Value::Dist(_)
        | Value::Timer(_)
        | Value::Inst(_) => false,
    }
}

/// What a step by a key or an index leads to, as the container decides.
#[tactic(auto, using(crate::proofs::Stepped::elements, chi_core_frame::proofs::Stopping::stopping))]
fn element_by(alloc: Global, value: &Value, key: &Value, view: &View) -> Result<Value, Stop>
    requires { element_by value.now (out-Value value.now) key.now (out-Value key.now) view.now ≢ Amiss }
    ensures value { IfOk result (λ v. element_by value.now (out-Value value.now) key.now (out-Value key.now) view.now ≡ Gives v view.now) }
    ensures stops { IfErr result (λ stop. Stops stop (element_by value.now (out-Value value.now) key.now (out-Value key.now) view.now)) }
{
    if is_dictionary(value) {
        Ok(looked_up(alloc, value, key, view)?)
    } else {
        Ok(element_at(alloc, value, key, view)?)
    }
}

/// What a step of a target leads to.
#[tactic(auto, using(crate::proofs::Stepped::steps))]
fn read_step(
    alloc: Global,
    surroundings: &Surroundings<'_>,
    variables: &Variables,
    step: &CStep,
    value: &Value,
    view: &mut View,
) -> Result<Value, Stop>
    requires { read_step (value_in surroundings.now variables.now) step.now value.now view.old ≢ Amiss }
    ensures value { IfOk result (λ v. read_step (value_in surroundings.now variables.now) step.now value.now view.old ≡ Gives v view.new) }
    ensures stops { IfErr result (λ stop. Stops stop (read_step (value_in surroundings.now variables.now) step.now value.now view.old)) }
{
    match step {
        CStep::Index(e) => {
            let key = value_of(alloc, surroundings, variables, e, view)?;
            Ok(element_by(alloc, value, &key, view)?)
        }
        CStep::Part(number) => Ok(part_in(alloc, value, *number)?),
    }
}

/// What stands at a target.
#[tactic(auto, using(crate::proofs::Stepped::walks))]
pub fn read_at(
    alloc: Global,
    surroundings: &Surroundings<'_>,
    variables: &Variables,
    target: &CTarget,
    view: &mut View,
) -> Result<Value, Stop>
    requires { read_at (value_in surroundings.now variables.now) variables.now target.now view.old ≢ Amiss }
    ensures value { IfOk result (λ v. read_at (value_in surroundings.now variables.now) variables.now target.now view.old ≡ Gives v view.new) }
    ensures stops { IfErr result (λ stop. Stops stop (read_at (value_in surroundings.now variables.now) variables.now target.now view.old)) }
{
    let first = variables.get(target.slot).copy(alloc)?;
    Ok(read_steps(
        alloc,
        surroundings,
        variables,
        target.steps.as_slice(),
        first,
        view,
    )?)
}

#[tactic(auto, using(crate::proofs::Stepped::turns))]
fn read_steps(
    alloc: Global,
    surroundings: &Surroundings<'_>,
    variables: &Variables,
    steps: &[CStep],
    first: Value,
    view: &mut View,
) -> Result<Value, Stop>
    requires { through (read_step (value_in surroundings.now variables.now)) steps.now first view.old ≢ Amiss }
    ensures value { IfOk result (λ v. through (read_step (value_in surroundings.now variables.now)) steps.now first view.old ≡ Gives v view.new) }
    ensures stops { IfErr result (λ stop. Stops stop (through (read_step (value_in surroundings.now variables.now)) steps.now first view.old)) }
{
    let mut value = first;
    for step in steps {
        value = read_step(alloc, surroundings, variables, step, &value, view)?;
    }
    Ok(value)
}
