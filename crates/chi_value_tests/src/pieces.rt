//! The condition of rendering, as a test of pieces and values.

ghost use Rattle.std.specs.Prelude.{◌≡◌};
ghost use Rattle.chi_format.specs.Format.{may_render, takes};
ghost use Rattle.chi_format.specs.SoFar.{is_shown};

use crate::conditions::{plain, within};
use chi_format::Piece;
use chi_value::{Names, Value};

#[tactic(auto, using(crate::proofs::Turns::more_plain, crate::proofs::Turns::more_none, crate::proofs::Turns::more_shown))]
pub(crate) fn may_render(names: &Names, pieces: &[Piece], values: &[Value]) -> bool
    ensures { result ≡ may_render names.now.kinds pieces.now values.now }
{
    let Some((piece, others)) = pieces.split_first() else {
        return values.is_empty();
    };
    if !is_shown(piece) {
        return may_render(names, others, values);
    }
    let Some((value, rest)) = values.split_first() else {
        return false;
    };
    if !takes(names, piece, value) {
        return false;
    }
    may_render(names, others, rest)
}

fn is_shown(piece: &Piece) -> bool
    ensures { result ≡ is_shown piece.now }
{
    !matches!(piece, Piece::Plain(_))
}

fn takes(names: &Names, piece: &Piece, value: &Value) -> bool
    ensures { result ≡ takes names.now.kinds piece.now value.now }
{
    match piece {
        Piece::Plain(_) => false,
        Piece::Any(_) => plain(value) && within(value, names),
        Piece::Whole(_) => matches!(value, Value::Int(_)),
        Piece::Fixed(_, places) => matches!(value, Value::Real(_)) && *places <= 9,
    }
}
