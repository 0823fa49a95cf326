//! Literals of several parts, and empty ones. Types and parts of which nothing is made are dropped by calls of
//! `drop`: what goes out of scope where a function returns is laid out part by part in its proof, on each way out.

#![tactic(auto, using(chi_check_types::proofs::Firsts::first_of_none, chi_check_types::proofs::Firsts::first_of_append, chi_check_types::proofs::Ruled::faults_unless, chi_check_types::proofs::Ruled::made_unless, chi_check_types::proofs::Ruled::made_deep))]

ghost use Rattle.std.specs.Prelude.{◌≡◌, [], not, map, Option, None, Some, IfOk, OnOk, if◌then◌else◌};
ghost use Rattle.chi_core.specs.declared.expression.CExpr.TheVariants as expression;
ghost use Rattle.chi_core.specs.Kinds.{nameless_parts};
ghost use Rattle.chi_check_types.specs.Faults.{first_of, are_none};
ghost use Rattle.chi_check_types.specs.Typed.{unless};
ghost use Rattle.chi_check_types.specs.TypeRules.{depth_rule};
ghost use Rattle.chi_check_expr_rules.specs.Conversions.{made};
ghost use Rattle.chi_check_expr_rules.specs.Containers as spec;

use chi_base::{Boxed, Items, NoMemory};
use chi_check_expr_rules::{all_converted, all_made, type_meant, with_cores};
use chi_check_types::{Fault, Made, Meant, is_deep, note, note_if, rules};
use chi_core::CExpr;
use chi_token::{Bytes, Place};
use chi_types::{Ty, is_plain, joined};
use chi_value::Kind;
use std::alloc::Global;

/// The type that all parts have in common.
pub(crate) fn joined_all(alloc: Global, parts: &[Made]) -> Result<Option<Ty>, NoMemory>
    ensures { IfOk result (λ t. t ≡ spec.joined_all parts.now) }
{
    let Some((first, others)) = parts.split_first() else {
        return Ok(None);
    };
    let mut ty = first.ty.copy(alloc)?;
    for other in others {
        let common = joined(alloc, &ty, &other.ty);
        drop(ty);
        match common? {
            None => return Ok(None),
            Some(common) => ty = common,
        }
    }
    Ok(Some(ty))
}

/// The literal, where its own rules hold and its type isn't too deep.
pub(crate) fn literal_of(
    place: Place,
    holds: bool,
    kind: Kind,
    parts: Items<CExpr>,
    ty: Ty,
    kept: &mut Option<Fault>,
) -> Option<Made>
    ensures made { result ≡ (if holds then (unless (depth_rule place ty) (made (expression.Build kind parts) ty)).made else None) }
    ensures noted { kept.new ≡ first_of kept.old (depth_rule place ty) }
{
    let deep = is_deep(&ty);
    note_if(kept, deep, rules::TYPE_DEPTH, place);
    if deep || !holds {
        return None;
    }
    let core = CExpr::Build(kind, parts);
    Some(Made { core, ty })
}

/// Notes elements or keys that aren't plain, and tells whether they are.
pub(crate) fn note_unplain(place: Place, ty: &Ty, kept: &mut Option<Fault>) -> bool
    ensures holds { result ≡ are_none (spec.plain_type_rule place ty.now) }
    ensures noted { kept.new ≡ first_of kept.old (spec.plain_type_rule place ty.now) }
{
    let plain = is_plain(ty);
    note_if(kept, !plain, rules::PLAIN_ELEMENT, place);
    plain
}

/// The types of the parts of a tuple, without names.
fn part_types(alloc: Global, parts: &[Made]) -> Result<Items<(Bytes, Ty)>, NoMemory>
    ensures { IfOk result (λ types. types ≡ nameless_parts (map (λ m. m.ty) parts.now)) }
{
    let mut types = Vec::new(alloc);
    for part in parts {
        let name = Bytes::copy_of(alloc, b"")?;
        let ty = part.ty.copy(alloc)?;
        types.push((name, ty))?;
    }
    Ok(Items::of(alloc, types)?)
}

/// A tuple of parts. The place of this literal, as of those below, is that of its first token.
pub fn tuple_of(
    alloc: Global,
    place: Place,
    parts: Items<Option<Made>>,
    kept: &mut Option<Fault>,
) -> Result<Option<Made>, NoMemory>
    ensures made { IfOk result (λ m. m ≡ (spec.tuple_of place parts).made) }
    ensures noted { OnOk result (kept.new ≡ first_of kept.old (spec.tuple_of place parts).faults) }
{
    let Some(parts) = all_made(alloc, parts)? else {
        return Ok(None);
    };
    let types = part_types(alloc, parts.as_slice())?;
    let cores = with_cores(alloc, Vec::new(alloc), parts)?;
    Ok(literal_of(place, true, Kind::TupleOf, cores, Ty::TupleOf(types), kept))
}

/// The elements as they stand in the core, and their type.
fn cores_and_type(
    alloc: Global,
    elements: Items<Made>,
    element: Ty,
) -> Result<(Items<CExpr>, Boxed<Ty>), NoMemory>
    ensures { IfOk result (λ r. r ≡ (spec.all_converted element elements, element)) }
{
    match all_converted(alloc, elements, &element) {
        Ok(cores) => {
            let element = Boxed::new(alloc, element)?;
            Ok((cores, element))
        }
        Err(refusal) => {
            drop(element);
            Err(refusal)
        }
    }
}

/// A list of elements, one at least.
pub fn list_of(
    alloc: Global,
    place: Place,
    elements: Items<Option<Made>>,
    kept: &mut Option<Fault>,
) -> Result<Option<Made>, NoMemory>
    ensures made { IfOk result (λ m. m ≡ (spec.list_of place elements).made) }
    ensures noted { OnOk result (kept.new ≡ first_of kept.old (spec.list_of place elements).faults) }
{
    let Some(elements) = all_made(alloc, elements)? else {
        return Ok(None);
    };
    let Some(element) = joined_all(alloc, elements.as_slice())? else {
        note(kept, rules::JOINED_PARTS, place);
        return Ok(None);
    };
    let (cores, element) = cores_and_type(alloc, elements, element)?;
    Ok(literal_of(place, true, Kind::ListOf, cores, Ty::ListOf(element), kept))
}

/// A set of elements, one at least.
pub fn set_of(
    alloc: Global,
    place: Place,
    elements: Items<Option<Made>>,
    kept: &mut Option<Fault>,
) -> Result<Option<Made>, NoMemory>
    ensures made { IfOk result (λ m. m ≡ (spec.set_of place elements).made) }
    ensures noted { OnOk result (kept.new ≡ first_of kept.old (spec.set_of place elements).faults) }
{
    let Some(elements) = all_made(alloc, elements)? else {
        return Ok(None);
    };
    let Some(element) = joined_all(alloc, elements.as_slice())? else {
        note(kept, rules::JOINED_PARTS, place);
        return Ok(None);
    };
    let plain = note_unplain(place, &element, kept);
    let (cores, element) = cores_and_type(alloc, elements, element)?;
    Ok(literal_of(place, plain, Kind::SetOf, cores, Ty::SetOf(element), kept))
}

/// The literal without parts, under the same rules.
pub(crate) fn empty_literal(
    alloc: Global,
    place: Place,
    holds: bool,
    kind: Kind,
    ty: Ty,
    kept: &mut Option<Fault>,
) -> Result<Option<Made>, NoMemory>
    ensures made { IfOk result (λ m. m ≡ (if holds then (unless (depth_rule place ty) (made (expression.Build kind []) ty)).made else None)) }
    ensures noted { OnOk result (kept.new ≡ first_of kept.old (depth_rule place ty)) }
{
    match Items::of(alloc, Vec::new(alloc)) {
        Ok(parts) => Ok(literal_of(place, holds, kind, parts, ty, kept)),
        Err(refusal) => {
            drop(ty);
            Err(refusal)
        }
    }
}

/// An empty list of elements of a type that is written.
pub fn empty_list(
    alloc: Global,
    place: Place,
    element: Option<Meant>,
    kept: &mut Option<Fault>,
) -> Result<Option<Made>, NoMemory>
    ensures made { IfOk result (λ m. m ≡ (spec.empty_list place element).made) }
    ensures noted { OnOk result (kept.new ≡ first_of kept.old (spec.empty_list place element).faults) }
{
    let Some(element) = element else {
        return Ok(None);
    };
    let ty = Ty::ListOf(Boxed::new(alloc, type_meant(element))?);
    empty_literal(alloc, place, true, Kind::ListOf, ty, kept)
}

/// An empty set of elements of a type that is written.
pub fn empty_set(
    alloc: Global,
    place: Place,
    element: Option<Meant>,
    kept: &mut Option<Fault>,
) -> Result<Option<Made>, NoMemory>
    ensures made { IfOk result (λ m. m ≡ (spec.empty_set place element).made) }
    ensures noted { OnOk result (kept.new ≡ first_of kept.old (spec.empty_set place element).faults) }
{
    let Some(element) = element else {
        return Ok(None);
    };
    let plain = note_unplain(place, &element.ty, kept);
    let ty = Ty::SetOf(Boxed::new(alloc, type_meant(element))?);
    empty_literal(alloc, place, plain, Kind::SetOf, ty, kept)
}
