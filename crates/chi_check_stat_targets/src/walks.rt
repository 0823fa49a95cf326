//! Walks over the elements of a container, by one name or by a name for each part of a tuple.

#![tactic(auto, using(chi_check_types::proofs::Firsts::first_of_none))]

ghost use Rattle.std.specs.Prelude.{◌≡◌, ◌∷◌, [], map, IfOk, OnOk};
ghost use Rattle.chi_types.specs.declared.ty.Ty.{out-Ty};
ghost use Rattle.chi_types.specs.declared.ty.Ty.TheVariants as ty;
ghost use Rattle.chi_core.specs.Kinds.{nameless_parts};
ghost use Rattle.chi_check_types.specs.Faults.{first_of};
ghost use Rattle.chi_check_stat_rules.specs.Walks as spec;

use chi_base::{Items, NoMemory};
use chi_check_expr_rules::{core_of, list_of_one, settle};
use chi_check_stat_rules::Walked;
use chi_check_types::{Fault, Made, note, rules};
use chi_core::CExpr;
use chi_token::{Bytes, Place};
use chi_types::Ty;
use std::alloc::Global;

fn pair_type(alloc: Global, key: &Ty, value: &Ty) -> Result<Ty, NoMemory>
    ensures { IfOk result (λ t. t ≡ ty.TupleOf (nameless_parts (key.now ∷ value.now ∷ []))) }
{
    let mut parts = Vec::new(alloc);
    parts.push((Bytes::copy_of(alloc, b"")?, key.copy(alloc)?))?;
    parts.push((Bytes::copy_of(alloc, b"")?, value.copy(alloc)?))?;
    Ok(Ty::TupleOf(Items::of(alloc, parts)?))
}

fn element_type(alloc: Global, ty: &Ty) -> Result<Option<Ty>, NoMemory>
    ensures { IfOk result (λ t. t ≡ spec.element_type (out-Ty ty.now)) }
{
    match ty {
        Ty::ListOf(element) | Ty::SetOf(element) => Ok(Some(element.get().copy(alloc)?)),
        Ty::DictOf(key, value) => Ok(Some(pair_type(alloc, key.get(), value.get())?)),
        _ => Ok(None),
    }
}

fn part_types(alloc: Global, parts: &[(Bytes, Ty)]) -> Result<Items<Ty>, NoMemory>
    ensures { IfOk result (λ types. types ≡ map (λ part. part.1) parts.now) }
{
    let mut types = Vec::new(alloc);
    for part in parts {
        types.push(part.1.copy(alloc)?)?;
    }
    Ok(Items::of(alloc, types)?)
}

fn types_of_parts(alloc: Global, count: usize, ty: &Ty) -> Result<Option<Items<Ty>>, NoMemory>
    ensures { IfOk result (λ types. types ≡ spec.types_of_parts count (out-Ty ty.now)) }
{
    match ty {
        Ty::TupleOf(parts) => {
            let parts = parts.as_slice();
            if parts.len() != count {
                return Ok(None);
            }
            Ok(Some(part_types(alloc, parts)?))
        }
        _ => Ok(None),
    }
}

fn name_types(alloc: Global, count: usize, element: Ty) -> Result<Option<Items<Ty>>, NoMemory>
    ensures { IfOk result (λ types. types ≡ spec.name_types count element) }
{
    if count == 1 {
        return Ok(Some(list_of_one(alloc, element)?));
    }
    let types = types_of_parts(alloc, count, &element);
    drop(element);
    types
}

fn walked(
    alloc: Global,
    count: usize,
    container: CExpr,
    element: Ty,
) -> Result<Option<Walked>, NoMemory>
    ensures { IfOk result (λ w. w ≡ spec.walked_by count container element) }
{
    match name_types(alloc, count, element) {
        Ok(Some(types)) => Ok(Some(Walked { container, types })),
        Ok(None) => {
            drop(container);
            Ok(None)
        }
        Err(refusal) => {
            drop(container);
            Err(refusal)
        }
    }
}

/// A walk by so many names over a container. The first place is that of the container, the second
/// that of the first name.
pub fn walk_of(
    alloc: Global,
    place: Place,
    first: Place,
    count: usize,
    made: Option<Made>,
    kept: &mut Option<Fault>,
) -> Result<Option<Walked>, NoMemory>
    ensures made { IfOk result (λ w. w ≡ (spec.walk_of place first count made).made) }
    ensures noted { OnOk result (kept.new ≡ first_of kept.old (spec.walk_of place first count made).faults) }
{
    let Some(made) = made else {
        return Ok(None);
    };
    match element_type(alloc, &made.ty) {
        Ok(Some(element)) => {
            let walked = walked(alloc, count, core_of(made), element)?;
            Ok(settle(walked, rules::WALK_NAMES, first, kept))
        }
        Ok(None) => {
            note(kept, rules::WALK, place);
            drop(made);
            Ok(None)
        }
        Err(refusal) => {
            drop(made);
            Err(refusal)
        }
    }
}
