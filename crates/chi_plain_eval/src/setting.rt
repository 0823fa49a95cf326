//! Whole variables that are set to what expressions come to. Where an operator or an insertion makes it, the old value of
//! a variable is let go of before, so that a list of which something is made changes where it is.

ghost use Rattle.std.specs.Prelude.{◌≡◌, ◌≢◌, [], ◌∷◌, map, Err, IfErr, IfOk, IfSome, IsTrue, OnOk};
ghost use Rattle.std.specs.List.{list_all, list_any};
ghost use Rattle.chi_core.specs.Answer.{Gives, Amiss};
ghost use Rattle.chi_core_frame.specs.Spots.{spot_in};
ghost use Rattle.chi_core_frame.specs.Stops.{Stops};
ghost use Rattle.chi_plain_eval.specs.Calls.{meaning};
ghost use Rattle.chi_plain_eval.specs.Settings.{is_whole, names, parted, set_each, set_to, whole_spot};

use crate::expressions::eval_off;
use crate::here::Here;
use chi_base::NoMemory;
use chi_core::{CExpr, CTarget, View};
use chi_core_frame::{Spot, Stop, Variables, spread, store_each};
use chi_value::Value;
use std::alloc::Global;

/// The slot and the expression, where one expression goes to one whole variable.
#[tactic(auto, using(crate::proofs::Wholes::wholes))]
pub fn whole_of<'e>(targets: &[CTarget], values: &'e [CExpr]) -> Option<(u32, &'e CExpr)>
    ensures target { IfSome result (λ whole. targets.now ≡ record { slot = whole.0; steps = [] } ∷ []) }
    ensures value { IfSome result (λ whole. values.now ≡ whole.1.now ∷ []) }
{
    match targets {
        [target] => match values {
            [value] => {
                if target.steps.as_slice().is_empty() {
                    Some((target.slot, value))
                } else {
                    None
                }
            }
            _ => None,
        },
        _ => None,
    }
}

/// Where one expression goes to whole variables: one of them that it is made of, and the expression.
#[tactic(auto, using(crate::proofs::Wholes::wholes))]
pub fn parted_of<'e>(targets: &[CTarget], values: &'e [CExpr]) -> Option<(u32, &'e CExpr)>
    ensures whole { IfSome result (λ it. IsTrue (list_all is_whole targets.now)) }
    ensures among { IfSome result (λ it. IsTrue (list_any (names it.0) targets.now)) }
    ensures value { IfSome result (λ it. values.now ≡ it.1.now ∷ []) }
{
    match values {
        [value] => {
            if !are_whole(targets) {
                return None;
            }
            match read_of(value, targets) {
                Some(slot) => Some((slot, value)),
                None => None,
            }
        }
        _ => None,
    }
}

/// Whether a target is a whole variable.
fn is_whole(target: &CTarget) -> bool
    ensures { result ≡ is_whole target.now }
{
    match target.steps.as_slice() {
        [] => true,
        [_, ..] => false,
    }
}

/// Whether each target is a whole variable.
fn are_whole(targets: &[CTarget]) -> bool
    ensures { result ≡ list_all is_whole targets.now }
{
    targets.iter().all(|target| is_whole(target))
}

/// A variable among the targets that an operand of an expression is.
fn read_of(e: &CExpr, targets: &[CTarget]) -> Option<u32>
    ensures { IfSome result (λ slot. IsTrue (list_any (names slot) targets.now)) }
{
    match e {
        CExpr::Op(_, parts) => {
            for part in parts.as_slice() {
                if let CExpr::Var(slot) = part {
                    if has_slot(targets, *slot) {
                        return Some(*slot);
                    }
                }
            }
            None
        }
        _ => None,
    }
}

/// Whether one of the targets is in this variable.
fn has_slot(targets: &[CTarget], slot: u32) -> bool
    ensures { result ≡ list_any (names slot) targets.now }
{
    targets.iter().any(|target| target.slot == slot)
}

/// The spots that whole variables are.
fn whole_spots(alloc: Global, targets: &[CTarget]) -> Result<Vec<Spot>, NoMemory>
    ensures { IfOk result (λ spots. map spot_in spots.items ≡ map whole_spot targets.now) }
{
    let mut spots = Vec::new(alloc);
    for target in targets {
        let slot = target.slot;
        let path = Vec::new(alloc);
        spots.push(Spot { slot, path })?;
    }
    Ok(spots)
}

/// Sets whole variables to a value: the one to it, several to its parts.
#[tactic(auto, using(chi_core_frame::proofs::Stopping::stopping, crate::proofs::Released::parting))]
fn set_parted(
    alloc: Global,
    targets: &[CTarget],
    value: Value,
    variables: &mut Variables,
    view: &View,
) -> Result<(), Stop>
    requires { parted targets.now value variables.old view.now ≢ Amiss }
    ensures value { OnOk result (parted targets.now value variables.old view.now ≡ Gives variables.new view.now) }
    ensures stops { IfErr result (λ stop. Stops stop (parted targets.now value variables.old view.now)) }
    ensures never { result ≢ Err Stop.Spent }
{
    let mut given = Vec::new(alloc);
    given.push(value)?;
    let each = spread(alloc, targets, given)?;
    let spots = whole_spots(alloc, targets)?;
    store_each(alloc, spots, each, variables, view)?;
    Ok(())
}

/// Sets whole variables to the value of an expression: the one to it, several to its parts. One of them is let go of before.
#[cycle(eval)]
#[tactic(auto, using(chi_core_frame::proofs::Stopping::stopping, crate::proofs::Released::releasing))]
pub fn set_each(
    e: &CExpr,
    here: &Here<'_>,
    slot: u32,
    targets: &[CTarget],
    variables: &mut Variables,
    view: &mut View,
) -> Result<(), Stop>
    requires among { IsTrue (list_any (names slot) targets.now) }
    requires there { set_each (meaning here.now variables.old) targets.now e.now variables.old view.old ≢ Amiss }
    ensures value { OnOk result (set_each (meaning here.now variables.old) targets.now e.now variables.old view.old ≡ Gives variables.new view.new) }
    ensures stops { IfErr result (λ stop. Stops stop (set_each (meaning here.now variables.old) targets.now e.now variables.old view.old)) }
    ensures kept { result ≡ Err Stop.Spent → variables.new ≡ variables.old }
{
    let value = eval_off(e, here, slot, variables, view)?;
    set_parted(here.alloc, targets, value, variables, view)?;
    Ok(())
}

/// Sets a whole variable to the value of an expression. It is let go of before.
#[cycle(eval)]
#[tactic(auto, using(chi_core_frame::proofs::Stopping::stopping, crate::proofs::Wholes::setting))]
pub fn set_to(
    e: &CExpr,
    here: &Here<'_>,
    slot: u32,
    variables: &mut Variables,
    view: &mut View,
) -> Result<(), Stop>
    requires { set_to (meaning here.now variables.old) slot e.now variables.old view.old ≢ Amiss }
    ensures value { OnOk result (set_to (meaning here.now variables.old) slot e.now variables.old view.old ≡ Gives variables.new view.new) }
    ensures stops { IfErr result (λ stop. Stops stop (set_to (meaning here.now variables.old) slot e.now variables.old view.old)) }
    ensures kept { result ≡ Err Stop.Spent → variables.new ≡ variables.old }
{
    let value = eval_off(e, here, slot, variables, view)?;
    variables.set(slot, value);
    Ok(())
}
