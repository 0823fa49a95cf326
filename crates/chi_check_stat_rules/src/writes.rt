//! Writes: a format and the values that it shows.

#![tactic(auto, using(chi_check_types::proofs::Firsts::first_of_none, chi_check_types::proofs::Firsts::first_of_append, crate::proofs::ShownValues::before_none, crate::proofs::ShownValues::before_end, crate::proofs::ShownValues::shown_end, crate::proofs::ShownValues::made_next, crate::proofs::ShownValues::noted_next))]

ghost use Rattle.std.specs.Prelude.{◌≡◌, Some, None, MatchOption, IfOk, OnOk, if◌then◌else◌};
ghost use Rattle.chi_types.specs.declared.ty.Ty.{out-Ty};
ghost use Rattle.chi_check_types.specs.Faults.{first_of};
ghost use Rattle.chi_check_types.specs.TypeRules.{is_int};
ghost use Rattle.chi_check_stat_rules.specs.Writes as spec;

use crate::fitted;
use chi_base::{Items, NoMemory};
use chi_check_expr_rules::settle;
use chi_check_types::{Fault, Made, note, rules};
use chi_core::{CExpr, CStat};
use chi_format::{FormatFault, read_format};
use chi_token::{Bytes, Place};
use chi_types::{Ty, is_plain};
use chi_value::Piece;
use std::alloc::Global;

/// The bytes of a format, with the line feed of `writeln`.
fn ended(alloc: Global, ends_line: bool, format: &Bytes) -> Result<Vec<u8>, NoMemory>
    ensures { IfOk result (λ text. text.items ≡ spec.ended ends_line format.now) }
{
    let mut text = Vec::from_slice(alloc, format.as_slice())?;
    if ends_line {
        text.push(b'\n')?;
    }
    Ok(text)
}

#[tactic(auto, using(crate::proofs::Pieces::read, crate::proofs::Pieces::unread))]
fn pieces_of(alloc: Global, text: &[u8]) -> Result<Option<Items<Piece>>, NoMemory>
    ensures { IfOk result (λ pieces. pieces ≡ spec.pieces_of text.now) }
{
    // A format is shorter than 2^32 bytes: no source within 1,048,576 bytes has a longer one.
    if text.len() > u32::MAX as usize {
        return Err(NoMemory);
    }
    match read_format(alloc, text) {
        Ok(pieces) => Ok(Some(Items::of(alloc, pieces)?)),
        Err(FormatFault::BadCode(_)) => Ok(None),
        Err(FormatFault::NoMemory) => Err(NoMemory),
    }
}

/// The pieces of a format; none where it has a bad code.
pub fn format_pieces(
    alloc: Global,
    ends_line: bool,
    format: &Bytes,
) -> Result<Option<Items<Piece>>, NoMemory>
    ensures { IfOk result (λ pieces. pieces ≡ spec.pieces_of (spec.ended ends_line format.now)) }
{
    let text = ended(alloc, ends_line, format)?;
    pieces_of(alloc, text.as_slice())
}

fn is_shown(piece: &Piece) -> bool
    ensures { result ≡ spec.is_shown piece.now }
{
    match piece {
        Piece::Plain(_) => false,
        Piece::Any(_) | Piece::Whole(_) | Piece::Fixed(_, _) => true,
    }
}

fn as_whole(made: Made) -> Option<CExpr>
    ensures { result ≡ (if is_int (out-Ty made.ty) then Some made.core else None) }
{
    let Made { core, ty } = made;
    match &ty {
        Ty::Int => Some(core),
        _ => None,
    }
}

fn showing(alloc: Global, piece: &Piece, made: Made) -> Result<Option<CExpr>, NoMemory>
    ensures { IfOk result (λ e. e ≡ spec.showing piece.now made) }
{
    match piece {
        Piece::Plain(_) => Ok(None),
        Piece::Any(_) => {
            if is_plain(&made.ty) {
                Ok(Some(made.core))
            } else {
                Ok(None)
            }
        }
        Piece::Whole(_) => Ok(as_whole(made)),
        Piece::Fixed(_, _) => fitted(alloc, made, &Ty::Real),
    }
}

fn shown_one(
    alloc: Global,
    piece: &Piece,
    place: Place,
    made: Option<Made>,
    kept: &mut Option<Fault>,
) -> Result<Option<CExpr>, NoMemory>
    ensures made { IfOk result (λ e. e ≡ (spec.shown_one piece.now (place, made)).made) }
    ensures noted { OnOk result (kept.new ≡ first_of kept.old (spec.shown_one piece.now (place, made)).faults) }
{
    let Some(made) = made else {
        return Ok(None);
    };
    Ok(settle(
        showing(alloc, piece, made)?,
        rules::FORMAT_VALUE,
        place,
        kept,
    ))
}

/// The next piece that shows a value, and the pieces after it.
fn next_shown(pieces: &[Piece]) -> Option<(&Piece, &[Piece])>
    ensures { MatchOption result (spec.next_shown pieces.now ≡ None) (λ next. spec.next_shown pieces.now ≡ Some (next.0.now, next.1.now)) }
{
    let mut left = pieces;
    while let Some((piece, rest)) = left.split_first() {
        if is_shown(piece) {
            return Some((piece, rest));
        }
        left = rest;
    }
    None
}

fn shown_count(pieces: &[Piece]) -> usize
    ensures { result ≡ spec.shown_count pieces.now }
{
    pieces.iter().filter(|piece| is_shown(piece)).count()
}

fn with_shown(
    alloc: Global,
    all: Option<Items<CExpr>>,
    shown: Option<CExpr>,
) -> Result<Option<Items<CExpr>>, NoMemory>
    ensures { IfOk result (λ more. more ≡ spec.and_then_one all shown) }
{
    let Some(all) = all else {
        return Ok(None);
    };
    let Some(shown) = shown else {
        return Ok(None);
    };
    let mut all = all.into_vec(alloc)?;
    all.push(shown)?;
    Ok(Some(Items::of(alloc, all)?))
}

fn all_shown(
    alloc: Global,
    pieces: &[Piece],
    values: Items<(Place, Option<Made>)>,
    kept: &mut Option<Fault>,
) -> Result<Option<Items<CExpr>>, NoMemory>
    ensures made { IfOk result (λ es. es ≡ (spec.all_shown pieces.now values).made) }
    ensures noted { OnOk result (kept.new ≡ first_of kept.old (spec.all_shown pieces.now values).faults) }
{
    let mut all = Some(Items::of(alloc, Vec::new(alloc))?);
    let mut others = pieces;
    for value in values.into_vec(alloc)? {
        let (place, made) = value;
        let Some((piece, rest)) = next_shown(others) else {
            return Ok(all);
        };
        let shown = shown_one(alloc, piece, place, made, kept)?;
        all = with_shown(alloc, all, shown)?;
        others = rest;
    }
    Ok(all)
}

/// A write. The place is that of the format; the pieces are none where it has a bad code.
pub fn write_of(
    alloc: Global,
    line: u32,
    place: Place,
    pieces: Option<Items<Piece>>,
    values: Items<(Place, Option<Made>)>,
    kept: &mut Option<Fault>,
) -> Result<Option<CStat>, NoMemory>
    ensures made { IfOk result (λ s. s ≡ (spec.write_of line place pieces values).made) }
    ensures noted { OnOk result (kept.new ≡ first_of kept.old (spec.write_of line place pieces values).faults) }
{
    let Some(pieces) = pieces else {
        note(kept, rules::FORMAT, place);
        return Ok(None);
    };
    if shown_count(pieces.as_slice()) != values.as_slice().len() {
        note(kept, rules::FORMAT, place);
        return Ok(None);
    }
    let Some(values) = all_shown(alloc, pieces.as_slice(), values, kept)? else {
        return Ok(None);
    };
    Ok(Some(CStat::Write(line, pieces, values)))
}
