ghost use Rattle.std.specs.Prelude.{◌≡◌, ◌++◌, OnOk, IfOk};
ghost use Rattle.std.specs.Fmt.{decimal};
ghost use Rattle.chi_types.specs.declared.ty.Ty.{out-Ty};
ghost use Rattle.chi_explain_arguments.specs.Arguments.{argument_text, count_text, kind_text};

use crate::types::{form_words, type_words};
use chi_base::NoMemory;
use chi_explain::{put_as_shown, put_number};
use chi_types::Ty;
use std::alloc::Global;

/// Appends how many there are.
fn put_count(alloc: Global, count: u64, text: &mut Vec<u8>) -> Result<(), NoMemory>
    ensures { OnOk result (text.new.items ≡ text.old.items ++ decimal count) }
{
    let digits = format!(in alloc; "{count}")?;
    text.extend_from_slice(digits.as_bytes())?;
    Ok(())
}

/// The text that tells that another number of arguments is given than is wanted.
pub fn explain_count(alloc: Global, wanted: u64, given: u64) -> Result<Vec<u8>, NoMemory>
    ensures { IfOk result (λ text. text.items ≡ count_text wanted given) }
{
    let mut text = Vec::from_slice(alloc, b"the model's parameters are ")?;
    put_count(alloc, wanted, &mut text)?;
    text.extend_from_slice(b" in number, and the arguments that are given ")?;
    put_count(alloc, given, &mut text)?;
    text.push(b'\n')?;
    Ok(text)
}

/// The text that tells that no argument can be given for the parameter of this number.
pub fn explain_kind(alloc: Global, number: u32, param: &Ty) -> Result<Vec<u8>, NoMemory>
    ensures { IfOk result (λ text. text.items ≡ kind_text number (out-Ty param.now)) }
{
    let mut text = Vec::from_slice(alloc, b"parameter ")?;
    put_number(alloc, number, &mut text)?;
    text.extend_from_slice(b" of the model is ")?;
    text.extend_from_slice(type_words(param).as_bytes())?;
    text.extend_from_slice(b", and an argument can be a bool, an int, a real or a string alone")?;
    text.push(b'\n')?;
    Ok(text)
}

/// The text that tells that what is given for the parameter of this number isn't of its type.
pub fn explain_argument(
    alloc: Global,
    number: u32,
    param: &Ty,
    given: &[u8],
) -> Result<Vec<u8>, NoMemory>
    ensures { IfOk result (λ text. text.items ≡ argument_text number (out-Ty param.now) given.now) }
{
    let mut text = Vec::from_slice(alloc, b"argument ")?;
    put_number(alloc, number, &mut text)?;
    text.extend_from_slice(b" is not ")?;
    text.extend_from_slice(type_words(param).as_bytes())?;
    text.extend_from_slice(b" (")?;
    text.extend_from_slice(form_words(param).as_bytes())?;
    text.extend_from_slice(b"): `")?;
    put_as_shown(given, &mut text)?;
    text.extend_from_slice(b"`\n")?;
    Ok(text)
}
