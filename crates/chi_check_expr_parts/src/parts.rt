//! Indexes, slices and fields, by the type of what they take a part of.

ghost use Rattle.std.specs.Prelude.{◌≡◌, ◌++◌, [], ◌∷◌, Some, map, IfOk};
ghost use Rattle.chi_types.specs.declared.ty.Ty.{out-Ty};
ghost use Rattle.chi_core.specs.declared.expression.CExpr.TheVariants as expression;
ghost use Rattle.chi_check_expr_rules.specs.Parts as spec;

use chi_base::{Boxed, Items, NoMemory};
use chi_check_expr_rules::{
    Contents, are_ints, both_refused, converted, core_and_type, core_of, field_in, is_int, on_two,
    refused, with_cores,
};
use chi_check_types::Made;
use chi_core::{CExpr, OpName};
use chi_token::Bytes;
use chi_types::{Ty, fits};
use std::alloc::Global;

/// An element of a list, or a byte of a string.
fn element_at(
    alloc: Global,
    element: Ty,
    whole: Made,
    index: Made,
) -> Result<Option<Made>, NoMemory>
    ensures { IfOk result (λ m. m ≡ spec.element_at element whole index) }
{
    if !is_int(&index.ty) {
        drop(element);
        return Ok(both_refused(whole, index));
    }
    let (whole, index) = (core_of(whole), core_of(index));
    Ok(Some(on_two(alloc, OpName::Index, whole, index, element)?))
}

/// What a key of a dictionary has.
fn with_key(alloc: Global, key: &Ty, value: Ty, whole: Made, index: Made) -> Result<Made, NoMemory>
    ensures { IfOk result (λ m. m ≡ spec.with_key key.now value whole index) }
{
    match converted(alloc, index, key) {
        Ok(index) => on_two(alloc, OpName::Lookup, core_of(whole), index, value),
        Err(refusal) => {
            drop(value);
            drop(whole);
            Err(refusal)
        }
    }
}

fn looked_up(
    alloc: Global,
    key: &Ty,
    value: Ty,
    whole: Made,
    index: Made,
) -> Result<Option<Made>, NoMemory>
    ensures { IfOk result (λ m. m ≡ spec.looked_up key.now value whole index) }
{
    if !fits(&index.ty, key) {
        drop(value);
        return Ok(both_refused(whole, index));
    }
    Ok(Some(with_key(alloc, key, value, whole, index)?))
}

fn contents_of(alloc: Global, ty: &Ty) -> Result<Contents, NoMemory>
    ensures { IfOk result (λ w. w ≡ spec.contents_of (out-Ty ty.now)) }
{
    match ty {
        Ty::Text => Ok(Contents::Element(Ty::Text)),
        Ty::ListOf(element) => {
            let element = element.get().copy(alloc)?;
            Ok(Contents::Element(element))
        }
        Ty::DictOf(key, value) => {
            let key = key.get().copy(alloc)?;
            let value = value.get().copy(alloc)?;
            Ok(Contents::Entry(key, value))
        }
        _ => Ok(Contents::Nothing),
    }
}

/// What an index makes of what it stands after.
#[tactic(auto, using(crate::proofs::Indexing::indexed_by_contents))]
pub(crate) fn indexed(alloc: Global, whole: Made, index: Made) -> Result<Option<Made>, NoMemory>
    ensures { IfOk result (λ m. m ≡ spec.indexed whole index) }
{
    match contents_of(alloc, &whole.ty) {
        Ok(Contents::Element(element)) => element_at(alloc, element, whole, index),
        Ok(Contents::Entry(key, value)) => looked_up(alloc, &key, value, whole, index),
        Ok(Contents::Nothing) => Ok(both_refused(whole, index)),
        Err(refusal) => {
            drop(whole);
            drop(index);
            Err(refusal)
        }
    }
}

fn has_slices(ty: &Ty) -> bool
    ensures { result ≡ spec.has_slices (out-Ty ty.now) }
{
    match ty {
        Ty::Text | Ty::ListOf(_) => true,
        _ => false,
    }
}

/// A part of a list or a string, with bounds of which those are given.
fn slice_core(
    alloc: Global,
    slice: OpName,
    whole: CExpr,
    bounds: Items<Made>,
) -> Result<CExpr, NoMemory>
    ensures { IfOk result (λ e. e ≡ expression.Op slice (whole ∷ map (λ m. m.core) bounds)) }
{
    let mut operands = Vec::new(alloc);
    operands.push(whole)?;
    Ok(CExpr::Op(slice, with_cores(alloc, operands, bounds)?))
}

/// What a slice makes of what it stands after, with those of its bounds that are given.
pub(crate) fn sliced(
    alloc: Global,
    from: bool,
    upto: bool,
    by: bool,
    whole: Made,
    bounds: Items<Made>,
) -> Result<Option<Made>, NoMemory>
    ensures { IfOk result (λ m. m ≡ spec.sliced from upto by whole bounds) }
{
    if !has_slices(&whole.ty) || !are_ints(bounds.as_slice()) {
        drop(bounds);
        return Ok(refused(whole));
    }
    let (whole, ty) = core_and_type(whole);
    let core = slice_core(alloc, OpName::Slice(from, upto, by), whole, bounds)?;
    Ok(Some(Made { core, ty }))
}

fn part_of(alloc: Global, m: Made, number: u32, ty: Ty) -> Result<Option<Made>, NoMemory>
    ensures { IfOk result (λ n. n ≡ Some (spec.part_of m (number, ty))) }
{
    let whole = Boxed::new(alloc, core_of(m))?;
    let core = CExpr::Part(whole, number);
    Ok(Some(Made { core, ty }))
}

/// What the name of a field makes of what it stands after.
pub(crate) fn field(alloc: Global, name: &Bytes, m: Made) -> Result<Option<Made>, NoMemory>
    ensures { IfOk result (λ n. n ≡ spec.field name.now m) }
{
    match field_in(alloc, &m.ty, name) {
        Ok(Some((number, ty))) => part_of(alloc, m, number, ty),
        Ok(None) => Ok(refused(m)),
        Err(refusal) => {
            drop(m);
            Err(refusal)
        }
    }
}
