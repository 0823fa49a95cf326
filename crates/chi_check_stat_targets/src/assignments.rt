//! Assignments of as many values as targets, and of one tuple to several targets.

#![tactic(auto, using(chi_check_types::proofs::Firsts::first_of_none))]

ghost use Rattle.std.specs.Prelude.{◌≡◌, [], ◌∷◌, Some, map, IfOk, OnOk};
ghost use Rattle.chi_types.specs.declared.ty.Ty.{out-Ty};
ghost use Rattle.chi_types.specs.Fits.{fits_unconverted};
ghost use Rattle.chi_check_types.specs.Faults.{first_of};
ghost use Rattle.chi_check_stat_rules.specs.Assignments as spec;

use chi_base::{Items, NoMemory};
use chi_check_expr_rules::{all_made, core_and_type, list_of_one, passed, settle};
use chi_check_stat_rules::Aim;
use chi_check_types::{Fault, Made, note, rules};
use chi_core::{CExpr, CStat, CTarget};
use chi_token::{Bytes, Place};
use chi_types::{Ty, fits};
use std::alloc::Global;

/// All targets, where each has a type.
fn all_aims(alloc: Global, parts: Items<Option<Aim>>) -> Result<Option<Items<Aim>>, NoMemory>
    ensures { IfOk result (λ all. all ≡ spec.all_aims parts) }
{
    let mut all = Vec::new(alloc);
    for part in parts.into_vec(alloc)? {
        let Some(aim) = part else {
            return Ok(None);
        };
        all.push(aim)?;
    }
    Ok(Some(Items::of(alloc, all)?))
}

fn types_of(alloc: Global, aims: &[Aim]) -> Result<Vec<Ty>, NoMemory>
    ensures { IfOk result (λ types. types.items ≡ map (λ a. a.ty) aims.now) }
{
    let mut types = Vec::new(alloc);
    for aim in aims {
        types.push(aim.ty.copy(alloc)?)?;
    }
    Ok(types)
}

fn targets_of(alloc: Global, aims: Items<Aim>) -> Result<Items<CTarget>, NoMemory>
    ensures { IfOk result (λ targets. targets ≡ map (λ a. a.target) aims) }
{
    let mut targets = Vec::new(alloc);
    for aim in aims.into_vec(alloc)? {
        targets.push(aim.target)?;
    }
    Ok(Items::of(alloc, targets)?)
}

fn storing(
    alloc: Global,
    line: u32,
    aims: Items<Aim>,
    values: Items<CExpr>,
) -> Result<Option<CStat>, NoMemory>
    ensures { IfOk result (λ s. s ≡ Some (spec.assign line aims values)) }
{
    match targets_of(alloc, aims) {
        Ok(targets) => Ok(Some(CStat::Assign(line, targets, values))),
        Err(refusal) => {
            drop(values);
            Err(refusal)
        }
    }
}

fn stored(
    alloc: Global,
    line: u32,
    values: Items<Made>,
    aims: Items<Aim>,
) -> Result<Option<CStat>, NoMemory>
    ensures { IfOk result (λ s. s ≡ spec.stored line values aims) }
{
    let types = types_of(alloc, aims.as_slice())?;
    let Some(values) = passed(alloc, values, types.as_slice())? else {
        return Ok(None);
    };
    storing(alloc, line, aims, values)
}

/// Whether a type serves for another as it is.
#[tactic(auto, using(crate::proofs::Unconverted::int_for_real))]
fn fits_unconverted(given: &Ty, wanted: &Ty) -> bool
    ensures { result ≡ fits_unconverted given.now wanted.now }
{
    match (given, wanted) {
        (Ty::Int, Ty::Real) => false,
        (_, _) => fits(given, wanted),
    }
}

fn parts_fit(parts: &[(Bytes, Ty)], aims: &[Aim]) -> bool
    ensures { result ≡ spec.parts_fit parts.now aims.now }
{
    let mut others = aims;
    for part in parts {
        let Some((aim, rest)) = others.split_first() else {
            return false;
        };
        if !fits_unconverted(&part.1, &aim.ty) {
            return false;
        }
        others = rest;
    }
    others.is_empty()
}

fn spread(
    alloc: Global,
    line: u32,
    tuple: CExpr,
    parts: &[(Bytes, Ty)],
    aims: Items<Aim>,
) -> Result<Option<CStat>, NoMemory>
    ensures { IfOk result (λ s. s ≡ spec.spread line tuple parts.now aims) }
{
    if !parts_fit(parts, aims.as_slice()) {
        drop(tuple);
        drop(aims);
        return Ok(None);
    }
    match list_of_one(alloc, tuple) {
        Ok(values) => storing(alloc, line, aims, values),
        Err(refusal) => {
            drop(aims);
            Err(refusal)
        }
    }
}

fn spread_parts(
    alloc: Global,
    line: u32,
    equals: Place,
    aims: Items<Option<Aim>>,
    tuple: CExpr,
    parts: &[(Bytes, Ty)],
    kept: &mut Option<Fault>,
) -> Result<Option<CStat>, NoMemory>
    ensures made { IfOk result (λ s. s ≡ (spec.spread_parts line equals aims tuple parts.now).made) }
    ensures noted { OnOk result (kept.new ≡ first_of kept.old (spec.spread_parts line equals aims tuple parts.now).faults) }
{
    if parts.len() != aims.as_slice().len() {
        note(kept, rules::TARGET_COUNT, equals);
        drop(aims);
        drop(tuple);
        return Ok(None);
    }
    let aims = match all_aims(alloc, aims) {
        Ok(Some(aims)) => aims,
        Ok(None) => {
            drop(tuple);
            return Ok(None);
        }
        Err(refusal) => {
            drop(tuple);
            return Err(refusal);
        }
    };
    Ok(settle(
        spread(alloc, line, tuple, parts, aims)?,
        rules::ASSIGNED_VALUE,
        equals,
        kept,
    ))
}

fn spread_one(
    alloc: Global,
    line: u32,
    equals: Place,
    aims: Items<Option<Aim>>,
    value: Option<Made>,
    kept: &mut Option<Fault>,
) -> Result<Option<CStat>, NoMemory>
    ensures made { IfOk result (λ s. s ≡ (spec.spread_one line equals aims value).made) }
    ensures noted { OnOk result (kept.new ≡ first_of kept.old (spec.spread_one line equals aims value).faults) }
{
    let Some(value) = value else {
        drop(aims);
        return Ok(None);
    };
    let (core, ty) = core_and_type(value);
    match &ty {
        Ty::TupleOf(parts) => {
            let parts = parts.as_slice();
            spread_parts(alloc, line, equals, aims, core, parts, kept)
        }
        _ => {
            note(kept, rules::TARGET_COUNT, equals);
            drop(aims);
            drop(core);
            Ok(None)
        }
    }
}

/// The one value, where there is just one.
fn only_one(alloc: Global, values: Items<Option<Made>>) -> Result<Option<Option<Made>>, NoMemory>
    ensures { IfOk result (λ v. v ≡ spec.only_one values) }
{
    let mut values = values.into_vec(alloc)?;
    let Some(last) = values.pop() else {
        return Ok(None);
    };
    if !values.is_empty() {
        drop(last);
        return Ok(None);
    }
    Ok(Some(last))
}

fn even(
    alloc: Global,
    line: u32,
    equals: Place,
    aims: Items<Option<Aim>>,
    values: Items<Option<Made>>,
    kept: &mut Option<Fault>,
) -> Result<Option<CStat>, NoMemory>
    ensures made { IfOk result (λ s. s ≡ (spec.even line equals aims values).made) }
    ensures noted { OnOk result (kept.new ≡ first_of kept.old (spec.even line equals aims values).faults) }
{
    let Some(values) = all_made(alloc, values)? else {
        return Ok(None);
    };
    let Some(aims) = all_aims(alloc, aims)? else {
        return Ok(None);
    };
    Ok(settle(
        stored(alloc, line, values, aims)?,
        rules::ASSIGNED_VALUE,
        equals,
        kept,
    ))
}

/// An assignment, whose `=` stands at the place.
pub fn assigned(
    alloc: Global,
    line: u32,
    equals: Place,
    aims: Items<Option<Aim>>,
    values: Items<Option<Made>>,
    kept: &mut Option<Fault>,
) -> Result<Option<CStat>, NoMemory>
    ensures made { IfOk result (λ s. s ≡ (spec.assigned line equals aims values).made) }
    ensures noted { OnOk result (kept.new ≡ first_of kept.old (spec.assigned line equals aims values).faults) }
{
    if values.as_slice().len() == aims.as_slice().len() {
        return even(alloc, line, equals, aims, values, kept);
    }
    let Some(value) = only_one(alloc, values)? else {
        note(kept, rules::TARGET_COUNT, equals);
        return Ok(None);
    };
    spread_one(alloc, line, equals, aims, value, kept)
}
