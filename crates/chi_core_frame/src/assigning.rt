//! Stores of assignments.

ghost use Rattle.std.specs.Prelude.{◌≡◌, ◌≢◌, Err, None, Some, map, IfOk, IfErr, OnOk};
ghost use Rattle.chi_core.specs.Answer.{Gives, Amiss};
ghost use Rattle.chi_core.specs.Terms.{spread};
ghost use Rattle.chi_core.specs.Variables.{side_by_side};
ghost use Rattle.chi_core_frame.specs.Assignments.{each_stored};
ghost use Rattle.chi_core_frame.specs.Spots.{spot_in};
ghost use Rattle.chi_core_frame.specs.Stops.{Stops};

use crate::spots::{Spot, store};
use crate::stop::Stop;
use crate::variables::Variables;
use chi_base::NoMemory;
use chi_core::{CTarget, View};
use chi_core_apply::parts_from;
use chi_value::Value;
use std::alloc::Global;

/// The values that go to targets: one for each, or the parts of one tuple for several.
#[tactic(auto, using(crate::proofs::Spreading::spreading))]
pub fn spread(
    alloc: Global,
    targets: &[CTarget],
    values: Vec<Value>,
) -> Result<Vec<Value>, NoMemory>
    requires { spread targets.now values.items ≢ None }
    ensures { IfOk result (λ each. spread targets.now values.items ≡ Some each.items) }
{
    if targets.len() < 2 {
        return Ok(values);
    }
    if values.len() != 1 {
        return Ok(values);
    }
    let mut values = values;
    match values.pop() {
        Some(tuple) => Ok(parts_from(alloc, tuple)?),
        None => unreachable!(),
    }
}

/// Stores the values into the spots of targets, from left to right.
#[tactic(auto, using(crate::proofs::Spreading::storing))]
pub fn store_each(
    alloc: Global,
    spots: Vec<Spot>,
    values: Vec<Value>,
    variables: &mut Variables,
    view: &View,
) -> Result<(), Stop>
    requires { each_stored (side_by_side (map spot_in spots.items) values.items) variables.old view.now ≢ Amiss }
    ensures value { OnOk result (each_stored (side_by_side (map spot_in spots.items) values.items) variables.old view.now ≡ Gives variables.new view.now) }
    ensures stops { IfErr result (λ stop. Stops stop (each_stored (side_by_side (map spot_in spots.items) values.items) variables.old view.now)) }
    ensures never { result ≢ Err Stop.Spent }
{
    let mut left = values;
    left.reverse();
    for spot in spots {
        match left.pop() {
            Some(value) => store(alloc, variables, spot, value, view)?,
            None => unreachable!(),
        }
    }
    Ok(())
}
