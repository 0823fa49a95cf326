ghost use Rattle.std.specs.Prelude.{◌≡◌, ◌≤◌, IfOk, IfErr, IsTrue};
ghost use Rattle.std.specs.Fmt.{signed_decimal};
ghost use Rattle.chi_num.specs.FixedText.{fixed_text_of};
ghost use Rattle.chi_value.specs.Plain.{is_plain, within};
ghost use Rattle.chi_value.specs.Text.{text};
ghost use Rattle.chi_value.specs.Limit.{Appends};
ghost use Rattle.chi_format.specs.Format.{filled, steps_of, takes, shown};
ghost use Rattle.chi_format.specs.Growth.{Grows};

use super::field::put_filled;
use chi_base::NoMemory;
use chi_num::{Real, fixed_text};
use chi_value::{Field, Names, Piece, TextFault, Value, text_of};
use itoa::Buffer;
use std::alloc::Global;

/// Appends a value as the piece shows it.
pub(super) fn put_shown(
    alloc: Global,
    piece: &Piece,
    value: &Value,
    names: &Names,
    out: &mut Vec<u8>,
) -> Result<(), TextFault>
    requires { IsTrue (takes names.now.kinds piece.now value.now) }
    ensures grown { Grows result out.old.items out.new.items (shown names.now.kinds piece.now value.now) }
{
    match piece {
        Piece::Plain(_) => unreachable!(),
        Piece::Any(field) => Ok(put_any(alloc, field, value, names, out)?),
        Piece::Whole(field) => {
            let Value::Int(number) = value else {
                unreachable!();
            };
            Ok(put_whole(field, *number, out)?)
        }
        Piece::Fixed(field, places) => {
            let Value::Real(real) = value else {
                unreachable!();
            };
            Ok(put_fixed(alloc, field, *places, *real, out)?)
        }
    }
}

fn put_any(
    alloc: Global,
    field: &Field,
    value: &Value,
    names: &Names,
    out: &mut Vec<u8>,
) -> Result<(), TextFault>
    requires plain { IsTrue (is_plain value.now) }
    requires named { IsTrue (within names.now.kinds value.now) }
    ensures grown { Appends result out.old.items out.new.items (filled field.now (text names.now.kinds value.now)) }
{
    let mut shown = Vec::new(alloc);
    text_of(alloc, value, names, &mut shown)?;
    Ok(put_filled(field, shown.as_slice(), out)?)
}

fn put_whole(field: &Field, number: i64, out: &mut Vec<u8>) -> Result<(), TextFault>
    ensures grown { Appends result out.old.items out.new.items (filled field.now (signed_decimal number)) }
{
    let mut digits = Buffer::new();
    Ok(put_filled(field, digits.format(number).as_bytes(), out)?)
}

fn put_fixed(
    alloc: Global,
    field: &Field,
    places: u8,
    real: Real,
    out: &mut Vec<u8>,
) -> Result<(), TextFault>
    requires { places ≤ 9 }
    ensures grown { Appends result out.old.items out.new.items
        (filled field.now (fixed_text_of places (steps_of places real))) }
{
    let shown = fixed_of(alloc, places, real)?;
    Ok(put_filled(field, shown.as_slice(), out)?)
}

/// A real rounded to so many decimals.
fn fixed_of(alloc: Global, places: u8, real: Real) -> Result<Vec<u8>, NoMemory>
    requires { places ≤ 9 }
    ensures { IfOk result (λ text. text.items ≡ fixed_text_of places (steps_of places real)) }
{
    let mut text = Vec::new(alloc);
    fixed_text(alloc, real, places, &mut text)?;
    Ok(text)
}
