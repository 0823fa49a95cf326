ghost use Rattle.std.specs.Prelude.{◌≡◌, ◌++◌, IfOk, OnOk};
ghost use Rattle.chi_token.specs.Texts.{escaped, letter_for, quoted, quoted_byte};

use chi_base::NoMemory;
use std::alloc::Global;

/// The escapes of a text: the letter after a backslash, and the byte that it stands for. Reading
/// and spelling both go by this table.
pub static ESCAPES: [(u8, u8); 4] = [(b'n', b'\n'), (b't', b'\t'), (b'"', b'"'), (b'\\', b'\\')];

/// The byte that a letter stands for after a backslash, if it stands for one.
pub fn escaped(letter: u8) -> Option<u8>
    ensures { result ≡ escaped letter }
{
    ESCAPES.iter().find(|row| row.0 == letter).map(|row| row.1)
}

/// The letter that stands for a byte after a backslash, if one does.
fn letter_for(byte: u8) -> Option<u8>
    ensures { result ≡ letter_for byte }
{
    ESCAPES.iter().find(|row| row.1 == byte).map(|row| row.0)
}

/// Appends a byte as it stands within quotes.
fn push_quoted(byte: u8, spelled: &mut Vec<u8>) -> Result<(), NoMemory>
    ensures { OnOk result (spelled.new.items ≡ spelled.old.items ++ quoted_byte byte) }
{
    match letter_for(byte) {
        Some(letter) => {
            spelled.push(b'\\')?;
            spelled.push(letter)?;
        }
        None => spelled.push(byte)?,
    }
    Ok(())
}

/// The bytes in quotes, with their escapes.
#[tactic(auto, unfolding(crate::specs::Texts::quoted))]
pub fn quoted(alloc: Global, text: &[u8]) -> Result<Vec<u8>, NoMemory>
    ensures { IfOk result (λ spelled. spelled.items ≡ quoted text.now) }
{
    let mut spelled = Vec::new(alloc);
    spelled.push(b'"')?;
    for &byte in text {
        push_quoted(byte, &mut spelled)?;
    }
    spelled.push(b'"')?;
    Ok(spelled)
}
