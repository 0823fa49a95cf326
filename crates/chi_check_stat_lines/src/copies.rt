//! Copies of expressions: each variable of a declaration has its own of the sizes of its lists.

ghost use Rattle.std.specs.Prelude.{◌≡◌, IfOk};

use chi_base::{Boxed, Items, NoMemory};
use chi_core::CExpr;
use chi_value::Shape;
use std::alloc::Global;

#[cycle(shape_copy)]
fn shape_copy(alloc: Global, shape: &Shape) -> Result<Shape, NoMemory>
    ensures { IfOk result (λ copy. copy ≡ shape.now) }
{
    match shape {
        Shape::Bool => Ok(Shape::Bool),
        Shape::Int => Ok(Shape::Int),
        Shape::Real => Ok(Shape::Real),
        Shape::Text => Ok(Shape::Text),
        Shape::Choice(enumeration) => Ok(Shape::Choice(*enumeration)),
        Shape::TupleOf(shapes) => Ok(Shape::TupleOf(shape_copies(alloc, shapes.as_slice())?)),
        Shape::ListOf => Ok(Shape::ListOf),
        Shape::SetOf => Ok(Shape::SetOf),
        Shape::DictOf => Ok(Shape::DictOf),
        Shape::Chan => Ok(Shape::Chan),
        Shape::DistBool => Ok(Shape::DistBool),
        Shape::DistInt => Ok(Shape::DistInt),
        Shape::DistReal => Ok(Shape::DistReal),
        Shape::Timer => Ok(Shape::Timer),
        Shape::Inst => Ok(Shape::Inst),
    }
}

#[cycle(shape_copy)]
fn shape_copies(alloc: Global, shapes: &[Shape]) -> Result<Items<Shape>, NoMemory>
    ensures { IfOk result (λ copies. copies ≡ shapes.now) }
{
    let mut copies = Vec::new(alloc);
    for shape in shapes {
        copies.push(shape_copy(alloc, shape)?)?;
    }
    Ok(Items::of(alloc, copies)?)
}

#[cycle(expr_copy)]
fn expr_copy(alloc: Global, e: &CExpr) -> Result<CExpr, NoMemory>
    ensures { IfOk result (λ copy. copy ≡ e.now) }
{
    match e {
        CExpr::Lit(value) => Ok(CExpr::Lit(value.copy(alloc)?)),
        CExpr::Var(slot) => Ok(CExpr::Var(*slot)),
        CExpr::Const(number) => Ok(CExpr::Const(*number)),
        CExpr::Op(name, es) => Ok(CExpr::Op(*name, expr_copies(alloc, es.as_slice())?)),
        CExpr::And(a, b) => {
            let a = boxed_copy(alloc, a.get())?;
            let (a, b) = copy_after(alloc, b.get(), a)?;
            Ok(CExpr::And(a, b))
        }
        CExpr::Or(a, b) => {
            let a = boxed_copy(alloc, a.get())?;
            let (a, b) = copy_after(alloc, b.get(), a)?;
            Ok(CExpr::Or(a, b))
        }
        CExpr::Build(kind, es) => Ok(CExpr::Build(*kind, expr_copies(alloc, es.as_slice())?)),
        CExpr::Part(e, number) => Ok(CExpr::Part(boxed_copy(alloc, e.get())?, *number)),
        CExpr::Call(number, es) => Ok(CExpr::Call(*number, expr_copies(alloc, es.as_slice())?)),
        CExpr::InsertBy(a, b, number) => {
            let a = boxed_copy(alloc, a.get())?;
            let (a, b) = copy_after(alloc, b.get(), a)?;
            Ok(CExpr::InsertBy(a, b, *number))
        }
        CExpr::Default(shape) => Ok(CExpr::Default(shape_copy(alloc, shape)?)),
        CExpr::Repeat(a, b) => {
            let a = boxed_copy(alloc, a.get())?;
            let (a, b) = copy_after(alloc, b.get(), a)?;
            Ok(CExpr::Repeat(a, b))
        }
    }
}

#[cycle(expr_copy)]
fn boxed_copy(alloc: Global, e: &CExpr) -> Result<Boxed<CExpr>, NoMemory>
    ensures { IfOk result (λ copy. copy ≡ e.now) }
{
    let copy = expr_copy(alloc, e)?;
    Ok(Boxed::new(alloc, copy)?)
}

/// A copy of a part, after that of one before it.
#[cycle(expr_copy)]
fn copy_after(
    alloc: Global,
    second: &CExpr,
    first: Boxed<CExpr>,
) -> Result<(Boxed<CExpr>, Boxed<CExpr>), NoMemory>
    ensures first { IfOk result (λ copies. copies.0 ≡ first) }
    ensures second { IfOk result (λ copies. copies.1 ≡ second.now) }
{
    match boxed_copy(alloc, second) {
        Ok(second) => Ok((first, second)),
        Err(refusal) => {
            drop(first);
            Err(refusal)
        }
    }
}

#[cycle(expr_copy)]
pub(crate) fn expr_copies(alloc: Global, es: &[CExpr]) -> Result<Items<CExpr>, NoMemory>
    ensures { IfOk result (λ copies. copies ≡ es.now) }
{
    let mut copies = Vec::new(alloc);
    for e in es {
        copies.push(expr_copy(alloc, e)?)?;
    }
    Ok(Items::of(alloc, copies)?)
}
