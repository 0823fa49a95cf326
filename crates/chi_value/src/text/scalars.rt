ghost use Rattle.std.specs.Prelude.{◌≡◌};
ghost use Rattle.std.specs.Fmt.{signed_decimal};
ghost use Rattle.chi_num.specs.RealText.{real_text_of};
ghost use Rattle.chi_token.specs.Texts.{quoted};
ghost use Rattle.chi_value.specs.Limit.{Appends};
ghost use Rattle.chi_value.specs.Text.{truth_text};
ghost use Rattle.chi_value.specs.Names.{name_of};

use super::TextFault;
use super::limit::append;
use crate::Names;
use chi_num::{Real, real_text};
use chi_token::quoted;
use itoa::Buffer;
use std::alloc::Global;

pub(super) fn put_truth(truth: bool, text: &mut Vec<u8>) -> Result<(), TextFault>
    ensures grown { Appends result text.old.items text.new.items (truth_text truth) }
{
    let word: &[u8] = if truth { b"true" } else { b"false" };
    Ok(append(text, word)?)
}

pub(super) fn put_int(number: i64, text: &mut Vec<u8>) -> Result<(), TextFault>
    ensures grown { Appends result text.old.items text.new.items (signed_decimal number) }
{
    let mut digits = Buffer::new();
    Ok(append(text, digits.format(number).as_bytes())?)
}

pub(super) fn put_real(real: Real, alloc: Global, text: &mut Vec<u8>) -> Result<(), TextFault>
    ensures grown { Appends result text.old.items text.new.items (real_text_of real) }
{
    let mut digits = Vec::new(alloc);
    real_text(alloc, real, &mut digits)?;
    Ok(append(text, digits.as_slice())?)
}

pub(super) fn put_string(bytes: &[u8], alloc: Global, text: &mut Vec<u8>) -> Result<(), TextFault>
    ensures grown { Appends result text.old.items text.new.items (quoted bytes.now) }
{
    let spelled = quoted(alloc, bytes)?;
    Ok(append(text, spelled.as_slice())?)
}

pub(super) fn put_name(
    kind: u32,
    position: u32,
    names: &Names,
    text: &mut Vec<u8>,
) -> Result<(), TextFault>
    ensures grown { Appends result text.old.items text.new.items (name_of names.now.kinds kind position) }
{
    Ok(append(text, name_of(names, kind, position))?)
}

/// The name of an enumeration's value, and no bytes where there is none.
fn name_of<'a>(names: &'a Names, kind: u32, position: u32) -> &'a [u8]
    ensures name { result.now ≡ name_of names.now.kinds kind position }
{
    let Some(kind) = names.kinds.as_slice().get(kind as usize) else {
        return b"";
    };
    match kind.as_slice().get(position as usize) {
        Some(name) => name.as_slice(),
        None => b"",
    }
}
