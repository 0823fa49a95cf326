//! The types of what predefined names make of their arguments.

ghost use Rattle.std.specs.Prelude.{◌≡◌, ◌++◌, [], ◌∷◌, IfOk};
ghost use Rattle.chi_types.specs.declared.ty.Ty.{out-Ty};
ghost use Rattle.chi_types.specs.declared.ty.Ty.TheVariants as ty;
ghost use Rattle.chi_check_expr_rules.specs.PredefinedCalls as spec;

use chi_base::{Boxed, Items, NoMemory};
use chi_token::Bytes;
use chi_types::Ty;
use std::alloc::Global;

/// A part of a tuple, which has no name.
fn nameless(alloc: Global, ty: &Ty) -> Result<(Bytes, Ty), NoMemory>
    ensures { IfOk result (λ part. part ≡ ([], ty.now)) }
{
    let name = Bytes::copy_of(alloc, b"")?;
    Ok((name, ty.copy(alloc)?))
}

/// One more part of a tuple.
fn with_part(alloc: Global, parts: Vec<(Bytes, Ty)>, ty: &Ty) -> Result<Vec<(Bytes, Ty)>, NoMemory>
    ensures { IfOk result (λ more. more.items ≡ parts.items ++ ([], ty.now) ∷ []) }
{
    let mut parts = parts;
    parts.push(nameless(alloc, ty)?)?;
    Ok(parts)
}

fn tuple_of_two(alloc: Global, a: &Ty, b: &Ty) -> Result<Ty, NoMemory>
    ensures { IfOk result (λ t. t ≡ spec.tuple (a.now ∷ b.now ∷ [])) }
{
    let parts = with_part(alloc, Vec::new(alloc), a)?;
    let parts = with_part(alloc, parts, b)?;
    Ok(Ty::TupleOf(Items::of(alloc, parts)?))
}

fn tuple_of_three(alloc: Global, a: &Ty, b: &Ty, c: &Ty) -> Result<Ty, NoMemory>
    ensures { IfOk result (λ t. t ≡ spec.tuple (a.now ∷ b.now ∷ c.now ∷ [])) }
{
    let parts = with_part(alloc, Vec::new(alloc), a)?;
    let parts = with_part(alloc, parts, b)?;
    let parts = with_part(alloc, parts, c)?;
    Ok(Ty::TupleOf(Items::of(alloc, parts)?))
}

/// The type of a pop: the first or the least, and the rest.
pub(crate) fn popped_type(alloc: Global, whole: &Ty) -> Result<Option<Ty>, NoMemory>
    ensures { IfOk result (λ t. t ≡ spec.popped_type whole.now (out-Ty whole.now)) }
{
    match whole {
        Ty::ListOf(element) | Ty::SetOf(element) => {
            Ok(Some(tuple_of_two(alloc, element.get(), whole)?))
        }
        Ty::DictOf(key, value) => {
            Ok(Some(tuple_of_three(alloc, key.get(), value.get(), whole)?))
        }
        _ => Ok(None),
    }
}

/// The type of the pairs of an index and an element of a list, in a list.
pub(crate) fn enumerated_type(alloc: Global, whole: &Ty) -> Result<Option<Ty>, NoMemory>
    ensures { IfOk result (λ t. t ≡ spec.enumerated_type (out-Ty whole.now)) }
{
    match whole {
        Ty::ListOf(element) => {
            let pair = tuple_of_two(alloc, &Ty::Int, element.get())?;
            Ok(Some(Ty::ListOf(Boxed::new(alloc, pair)?)))
        }
        _ => Ok(None),
    }
}

pub(crate) fn keys_type(alloc: Global, whole: &Ty) -> Result<Option<Ty>, NoMemory>
    ensures { IfOk result (λ t. t ≡ spec.keys_type (out-Ty whole.now)) }
{
    match whole {
        Ty::DictOf(key, _) => {
            let key = key.get().copy(alloc)?;
            Ok(Some(Ty::ListOf(Boxed::new(alloc, key)?)))
        }
        _ => Ok(None),
    }
}

pub(crate) fn values_type(alloc: Global, whole: &Ty) -> Result<Option<Ty>, NoMemory>
    ensures { IfOk result (λ t. t ≡ spec.values_type (out-Ty whole.now)) }
{
    match whole {
        Ty::DictOf(_, value) => {
            let value = value.get().copy(alloc)?;
            Ok(Some(Ty::ListOf(Boxed::new(alloc, value)?)))
        }
        _ => Ok(None),
    }
}

pub(crate) fn dist_of(alloc: Global, drawn: &Ty) -> Result<Ty, NoMemory>
    ensures { IfOk result (λ t. t ≡ ty.Dist drawn.now) }
{
    let drawn = drawn.copy(alloc)?;
    Ok(Ty::Dist(Boxed::new(alloc, drawn)?))
}
