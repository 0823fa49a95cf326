ghost use Rattle.std.specs.Prelude.{◌≡◌, ◌≤◌, ◌++◌, length, OnOk};
ghost use Rattle.std.specs.List.{prefix_len};
ghost use Rattle.chi_token.specs.Characters.{is_name_byte};
ghost use Rattle.chi_explain_typing.specs.Names.{byte_with, name_at, words_with};

use chi_base::NoMemory;
use chi_explain::from_place;
use chi_token::Place;

/// Whether a name may go on with the byte.
fn is_name_byte(byte: u8) -> bool
    ensures { result ≡ is_name_byte byte }
{
    byte.is_ascii_alphabetic() || byte == b'_' || byte.is_ascii_digit()
}

/// How many bytes of names the rest of a line begins with.
fn name_length(rest: &[u8]) -> usize
    ensures passed { result ≡ prefix_len is_name_byte rest.now }
    ensures within { result ≤ length rest.now }
{
    rest.iter().take_while(|byte| is_name_byte(**byte)).count()
}

/// The letters, digits and underscores from a place of a source on, which are the name that begins there, where one does.
pub fn name_at(source: &[u8], place: Place) -> &[u8]
    ensures { result.now ≡ name_at source.now place }
{
    let rest = from_place(source, place);
    rest.split_at(name_length(rest)).0
}

/// Appends a byte of words, or the name in its place.
fn put_byte_with(name: &[u8], byte: u8, out: &mut Vec<u8>) -> Result<(), NoMemory>
    ensures { OnOk result (out.new.items ≡ out.old.items ++ byte_with name.now byte) }
{
    if byte == b'@' {
        out.extend_from_slice(name)?;
    } else {
        out.push(byte)?;
    }
    Ok(())
}

/// Appends words, with the name where it goes.
pub fn put_words_with(name: &[u8], words: &[u8], out: &mut Vec<u8>) -> Result<(), NoMemory>
    ensures { OnOk result (out.new.items ≡ out.old.items ++ words_with name.now words.now) }
{
    for byte in words {
        put_byte_with(name, *byte, out)?;
    }
    Ok(())
}
