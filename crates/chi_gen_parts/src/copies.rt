//! Copies of what code and core both have. Their place is with the types, as methods.

ghost use Rattle.std.specs.Prelude.{◌≡◌, IfOk};

use chi_base::{Items, NoMemory};
use chi_token::Bytes;
use chi_value::{Names, Piece, Shape};
use std::alloc::Global;

/// A copy of a shape.
#[cycle(shape)]
pub(crate) fn shape_copy(alloc: Global, shape: &Shape) -> Result<Shape, NoMemory>
    ensures { IfOk result (λ s. s ≡ shape.now) }
{
    match shape {
        Shape::Bool => Ok(Shape::Bool),
        Shape::Int => Ok(Shape::Int),
        Shape::Real => Ok(Shape::Real),
        Shape::Text => Ok(Shape::Text),
        Shape::Choice(number) => Ok(Shape::Choice(*number)),
        Shape::TupleOf(parts) => Ok(Shape::TupleOf(shapes_copy(alloc, parts.as_slice())?)),
        Shape::ListOf => Ok(Shape::ListOf),
        Shape::SetOf => Ok(Shape::SetOf),
        Shape::DictOf => Ok(Shape::DictOf),
        Shape::Chan => Ok(Shape::Chan),
        Shape::DistBool => Ok(Shape::DistBool),
        Shape::DistInt => Ok(Shape::DistInt),
        Shape::DistReal => Ok(Shape::DistReal),
        Shape::Timer => Ok(Shape::Timer),
        Shape::Inst => Ok(Shape::Inst),
    }
}

#[cycle(shape)]
fn shapes_copy(alloc: Global, shapes: &[Shape]) -> Result<Items<Shape>, NoMemory>
    ensures { IfOk result (λ s. s ≡ shapes.now) }
{
    let mut copies = Vec::new(alloc);
    for shape in shapes {
        let copy = shape_copy(alloc, shape)?;
        copies.push(copy)?;
    }
    Ok(Items::of(alloc, copies)?)
}

fn kind_names_copy(alloc: Global, names: &[Bytes]) -> Result<Items<Bytes>, NoMemory>
    ensures { IfOk result (λ s. s ≡ names.now) }
{
    let mut copies = Vec::new(alloc);
    for name in names {
        let copy = name.copy()?;
        copies.push(copy)?;
    }
    Ok(Items::of(alloc, copies)?)
}

fn kinds_copy(alloc: Global, kinds: &[Items<Bytes>]) -> Result<Items<Items<Bytes>>, NoMemory>
    ensures { IfOk result (λ s. s ≡ kinds.now) }
{
    let mut copies = Vec::new(alloc);
    for kind in kinds {
        let copy = kind_names_copy(alloc, kind.as_slice())?;
        copies.push(copy)?;
    }
    Ok(Items::of(alloc, copies)?)
}

/// A copy of the names of enumeration values.
pub fn names_copy(alloc: Global, names: &Names) -> Result<Names, NoMemory>
    ensures { IfOk result (λ s. s ≡ names.now) }
{
    Ok(Names {
        kinds: kinds_copy(alloc, names.kinds.as_slice())?,
    })
}

/// A copy of slots.
pub fn slots_copy(alloc: Global, slots: &Items<u32>) -> Result<Items<u32>, NoMemory>
    ensures { IfOk result (λ s. s ≡ slots.now) }
{
    Ok(Items::of(alloc, Vec::from_slice(alloc, slots.as_slice())?)?)
}

fn piece_copy(piece: &Piece) -> Result<Piece, NoMemory>
    ensures { IfOk result (λ s. s ≡ piece.now) }
{
    match piece {
        Piece::Plain(bytes) => Ok(Piece::Plain(bytes.copy()?)),
        Piece::Any(field) => Ok(Piece::Any(*field)),
        Piece::Whole(field) => Ok(Piece::Whole(*field)),
        Piece::Fixed(field, decimals) => Ok(Piece::Fixed(*field, *decimals)),
    }
}

fn each_copy(alloc: Global, pieces: &[Piece]) -> Result<Items<Piece>, NoMemory>
    ensures { IfOk result (λ s. s ≡ pieces.now) }
{
    let mut copies = Vec::new(alloc);
    for piece in pieces {
        let copy = piece_copy(piece)?;
        copies.push(copy)?;
    }
    Ok(Items::of(alloc, copies)?)
}

/// A copy of a format.
pub fn pieces_copy(alloc: Global, pieces: &Items<Piece>) -> Result<Items<Piece>, NoMemory>
    ensures { IfOk result (λ s. s ≡ pieces.now) }
{
    each_copy(alloc, pieces.as_slice())
}
