//! The signs between two sums, by the types of their operands.

ghost use Rattle.std.specs.Prelude.{◌≡◌, option_map, IfOk};
ghost use Rattle.std.specs.Option.{option_copied, option_and_then};
ghost use Rattle.chi_types.specs.declared.ty.Ty.{out-Ty};
ghost use Rattle.chi_types.specs.Joined.{joined};
ghost use Rattle.chi_check_expr_rules.specs.Comparisons as spec;

use chi_base::NoMemory;
use chi_check_expr_rules::{both_refused, compared, converted, core_of, on_two};
use chi_check_types::Made;
use chi_core::OpName;
use chi_tree::RelationSign;
use chi_types::{Ty, fits, is_plain, joined, same};
use std::alloc::Global;

fn if_plain(ty: Ty) -> Option<Ty>
    ensures { result ≡ spec.if_plain ty }
{
    if is_plain(&ty) {
        Some(ty)
    } else {
        drop(ty);
        None
    }
}

/// The type that both have in common, where it is plain.
fn equal_type(alloc: Global, a: &Ty, b: &Ty) -> Result<Option<Ty>, NoMemory>
    ensures { IfOk result (λ t. t ≡ option_and_then spec.if_plain (joined a.now b.now)) }
{
    match joined(alloc, a, b)? {
        Some(ty) => Ok(if_plain(ty)),
        None => Ok(None),
    }
}

fn equality(alloc: Global, name: OpName, a: Made, b: Made) -> Result<Option<Made>, NoMemory>
    ensures { IfOk result (λ m. m ≡ spec.equality name a b) }
{
    match equal_type(alloc, &a.ty, &b.ty) {
        Ok(common) => compared(alloc, name, common, a, b),
        Err(refusal) => {
            drop(a);
            drop(b);
            Err(refusal)
        }
    }
}

fn has_order(ty: &Ty) -> bool
    ensures { result ≡ spec.has_order (out-Ty ty.now) }
{
    match ty {
        Ty::Int | Ty::Real | Ty::Text | Ty::Choice(_) => true,
        _ => false,
    }
}

fn if_ordered(ty: Ty) -> Option<Ty>
    ensures { result ≡ spec.if_ordered ty }
{
    if has_order(&ty) {
        Some(ty)
    } else {
        drop(ty);
        None
    }
}

/// The type that both have in common, where it has an order.
fn ordered_type(alloc: Global, a: &Ty, b: &Ty) -> Result<Option<Ty>, NoMemory>
    ensures { IfOk result (λ t. t ≡ option_and_then spec.if_ordered (joined a.now b.now)) }
{
    match joined(alloc, a, b)? {
        Some(ty) => Ok(if_ordered(ty)),
        None => Ok(None),
    }
}

fn ordering(alloc: Global, name: OpName, a: Made, b: Made) -> Result<Option<Made>, NoMemory>
    ensures { IfOk result (λ m. m ≡ spec.ordering name a b) }
{
    match ordered_type(alloc, &a.ty, &b.ty) {
        Ok(common) => compared(alloc, name, common, a, b),
        Err(refusal) => {
            drop(a);
            drop(b);
            Err(refusal)
        }
    }
}

/// The type of what may be in a container of this type.
fn member_type(ty: &Ty) -> Option<&Ty>
    ensures { option_copied result ≡ spec.member_type (out-Ty ty.now) }
{
    match ty {
        Ty::ListOf(element) => Some(element.get()),
        Ty::SetOf(element) => Some(element.get()),
        Ty::DictOf(key, _) => Some(key.get()),
        _ => None,
    }
}

/// The type of what is in a container, where the given type serves for it.
fn member(alloc: Global, given: &Ty, container: &Ty) -> Result<Option<Ty>, NoMemory>
    ensures { IfOk result (λ t. t ≡ option_and_then (spec.if_member given.now) (spec.member_type (out-Ty container.now))) }
{
    let Some(ty) = member_type(container) else {
        return Ok(None);
    };
    if !is_plain(ty) || !fits(given, ty) {
        return Ok(None);
    }
    Ok(Some(ty.copy(alloc)?))
}

fn member_of(alloc: Global, a: Made, b: Made, ty: &Ty) -> Result<Made, NoMemory>
    ensures { IfOk result (λ m. m ≡ spec.member_of a b ty.now) }
{
    match converted(alloc, a, ty) {
        Ok(element) => on_two(alloc, OpName::In, element, core_of(b), Ty::Bool),
        Err(refusal) => {
            drop(b);
            Err(refusal)
        }
    }
}

fn member_by(alloc: Global, common: Option<Ty>, a: Made, b: Made) -> Result<Option<Made>, NoMemory>
    ensures { IfOk result (λ m. m ≡ option_map (spec.member_of a b) common) }
{
    match common {
        Some(ty) => Ok(Some(member_of(alloc, a, b, &ty)?)),
        None => Ok(both_refused(a, b)),
    }
}

fn membership(alloc: Global, a: Made, b: Made) -> Result<Option<Made>, NoMemory>
    ensures { IfOk result (λ m. m ≡ spec.membership a b) }
{
    match member(alloc, &a.ty, &b.ty) {
        Ok(common) => member_by(alloc, common, a, b),
        Err(refusal) => {
            drop(a);
            drop(b);
            Err(refusal)
        }
    }
}

fn is_set(ty: &Ty) -> bool
    ensures { result ≡ spec.is_set (out-Ty ty.now) }
{
    match ty {
        Ty::SetOf(_) => true,
        _ => false,
    }
}

fn subset(alloc: Global, a: Made, b: Made) -> Result<Option<Made>, NoMemory>
    ensures { IfOk result (λ m. m ≡ spec.subset a b) }
{
    if !is_set(&a.ty) || !same(&a.ty, &b.ty) {
        return Ok(both_refused(a, b));
    }
    Ok(Some(on_two(alloc, OpName::Subset, core_of(a), core_of(b), Ty::Bool)?))
}

/// What a sign between two sums makes of them.
pub(crate) fn related(
    alloc: Global,
    sign: RelationSign,
    a: Made,
    b: Made,
) -> Result<Option<Made>, NoMemory>
    ensures { IfOk result (λ m. m ≡ spec.related sign a b) }
{
    match sign {
        RelationSign::Less => ordering(alloc, OpName::Less, a, b),
        RelationSign::LessEqual => ordering(alloc, OpName::AtMost, a, b),
        RelationSign::Equal => equality(alloc, OpName::Equal, a, b),
        RelationSign::NotEqual => equality(alloc, OpName::NotEqual, a, b),
        RelationSign::Greater => ordering(alloc, OpName::Greater, a, b),
        RelationSign::GreaterEqual => ordering(alloc, OpName::AtLeast, a, b),
        RelationSign::In => membership(alloc, a, b),
        RelationSign::Sub => subset(alloc, a, b),
    }
}
