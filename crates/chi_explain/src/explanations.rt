ghost use Rattle.std.specs.Prelude.{◌≡◌, ◌++◌, OnOk, IfOk};
ghost use Rattle.std.specs.Fmt.{decimal};
ghost use Rattle.chi_explain.specs.Explanations.{explained};

use crate::excerpts::excerpt;
use chi_base::NoMemory;
use chi_token::Place;
use std::alloc::Global;

/// Appends a number in decimal digits.
pub fn put_number(alloc: Global, number: u32, out: &mut Vec<u8>) -> Result<(), NoMemory>
    ensures { OnOk result (out.new.items ≡ out.old.items ++ decimal number) }
{
    let digits = format!(in alloc; "{number}")?;
    out.extend_from_slice(digits.as_bytes())?;
    Ok(())
}

/// The text of what is wrong at a place of a source: the file, the line and the column with the words, and the line with a
/// caret below the place.
pub fn explained(
    alloc: Global,
    file: &[u8],
    source: &[u8],
    place: Place,
    words: &[u8],
) -> Result<Vec<u8>, NoMemory>
    ensures { IfOk result (λ text. text.items ≡ explained file.now source.now place words.now) }
{
    let mut text = Vec::from_slice(alloc, file)?;
    text.push(b':')?;
    put_number(alloc, place.line, &mut text)?;
    text.push(b':')?;
    put_number(alloc, place.column, &mut text)?;
    text.extend_from_slice(b": ")?;
    text.extend_from_slice(words)?;
    text.push(b'\n')?;
    excerpt(source, place, &mut text)?;
    Ok(text)
}
