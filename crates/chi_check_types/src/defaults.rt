//! The expression of the default of a variable.

ghost use Rattle.std.specs.Prelude.{◌≡◌, map, IfOk};
ghost use Rattle.std.specs.Option.{option_copied};
ghost use Rattle.chi_types.specs.Same.{beside};
ghost use Rattle.chi_types.specs.declared.ty.Ty.{out-Ty};
ghost use Rattle.chi_check_types.specs.Defaults as spec;

use chi_base::{Boxed, Items, NoMemory};
use chi_core::CExpr;
use chi_token::Bytes;
use chi_types::Ty;
use chi_value::Shape;
use std::alloc::Global;

/// The shape of the defaults of a type, if it has defaults.
#[cycle(shape_of)]
#[tactic(auto, using(crate::proofs::Shapes::shape_of_tuple))]
pub fn shape_of(alloc: Global, ty: &Ty) -> Result<Option<Shape>, NoMemory>
    ensures shape { IfOk result (λ s. s ≡ spec.shape_of ty.now) }
{
    match ty {
        Ty::Bool => Ok(Some(Shape::Bool)),
        Ty::Int => Ok(Some(Shape::Int)),
        Ty::Real => Ok(Some(Shape::Real)),
        Ty::Text => Ok(Some(Shape::Text)),
        Ty::Timer => Ok(Some(Shape::Timer)),
        Ty::Inst => Ok(Some(Shape::Inst)),
        Ty::Void => Ok(None),
        Ty::Choice(enumeration) => Ok(Some(Shape::Choice(*enumeration))),
        Ty::TupleOf(parts) => Ok(tuple_shape(part_shapes(alloc, parts.as_slice())?)),
        Ty::ListOf(_) => Ok(Some(Shape::ListOf)),
        Ty::SetOf(_) => Ok(Some(Shape::SetOf)),
        Ty::DictOf(_, _) => Ok(Some(Shape::DictOf)),
        Ty::Chan(_, _) => Ok(Some(Shape::Chan)),
        Ty::Dist(drawn) => Ok(dist_shape(shape_of(alloc, drawn.get())?)),
    }
}

#[cycle(shape_of)]
fn part_shapes(alloc: Global, parts: &[(Bytes, Ty)]) -> Result<Option<Items<Shape>>, NoMemory>
    ensures shapes { IfOk result (λ ss. ss ≡ spec.part_shapes (map (beside spec.shape_of) parts.now)) }
{
    let mut shapes = Vec::new(alloc);
    for part in parts {
        let Some(shape) = shape_of(alloc, &part.1)? else {
            return Ok(None);
        };
        shapes.push(shape)?;
    }
    Ok(Some(Items::of(alloc, shapes)?))
}

fn tuple_shape(shapes: Option<Items<Shape>>) -> Option<Shape>
    ensures { result ≡ spec.tuple_shape shapes }
{
    match shapes {
        None => None,
        Some(shapes) => Some(Shape::TupleOf(shapes)),
    }
}

fn dist_shape(drawn: Option<Shape>) -> Option<Shape>
    ensures { result ≡ spec.dist_shape drawn }
{
    match drawn {
        Some(Shape::Bool) => Some(Shape::DistBool),
        Some(Shape::Int) => Some(Shape::DistInt),
        Some(Shape::Real) => Some(Shape::DistReal),
        _ => None,
    }
}

/// The type within so many lists, if it is so many lists.
fn within(ty: &Ty, lists: usize) -> Option<&Ty>
    ensures { option_copied result ≡ spec.within lists ty.now }
{
    if lists == 0 {
        return Some(ty);
    }
    match ty {
        Ty::ListOf(element) => within(element.get(), lists - 1),
        _ => None,
    }
}

fn repeated(alloc: Global, sizes: Items<CExpr>, each: CExpr) -> Result<CExpr, NoMemory>
    ensures { IfOk result (λ e. e ≡ spec.repeated sizes each) }
{
    let mut whole = each;
    for size in sizes.into_vec(alloc)? {
        let size = Boxed::new(alloc, size)?;
        whole = CExpr::Repeat(size, Boxed::new(alloc, whole)?);
    }
    Ok(whole)
}

/// The default of a variable of a type whose outermost lists have these sizes, the innermost first.
pub fn default_of(alloc: Global, ty: &Ty, sizes: Items<CExpr>) -> Result<Option<CExpr>, NoMemory>
    ensures default { IfOk result (λ e. e ≡ spec.default_of ty.now sizes) }
{
    let Some(inner) = within(ty, sizes.as_slice().len()) else {
        return Ok(None);
    };
    let Some(shape) = shape_of(alloc, inner)? else {
        return Ok(None);
    };
    Ok(Some(repeated(alloc, sizes, CExpr::Default(shape))?))
}
