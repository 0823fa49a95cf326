ghost use Rattle.std.specs.Prelude.{◌≡◌, ◌<◌, IfOk, length, slice_index};
ghost use Rattle.chi_token.specs.Characters.{backslash, is_plain, quote};
ghost use Rattle.chi_lex.specs.Pieces.{IsTokenPiece};
ghost use Rattle.chi_lex.specs.TextParts.{IsCharacter};

use crate::piece::{Piece, Stop};
use chi_base::NoMemory;
use chi_token::{Bytes, Token, escaped};
use std::alloc::Global;

/// What stands at the front of the rest of a text.
#[derive(Clone, Copy)]
pub enum Character {
    /// A byte or an escape: the byte that it means, and the number of bytes that it takes.
    Means(u8, usize),
    /// The closing quote.
    Closes,
    /// A line feed, or the end of the source.
    Unclosed,
    /// A backslash without one of its letters.
    BadEscape,
    /// A byte that can't stand in a text.
    BadByte,
}

/// Whether the byte stands for itself in a text.
fn is_plain(byte: u8) -> bool
    ensures { result ≡ is_plain byte }
{
    (byte == b'\t' || (b' '..=b'~').contains(&byte)) && !(byte == b'"' || byte == b'\\')
}

/// The escape at the front of the rest of a text, which begins with a backslash.
fn read_escape(rest: &[u8]) -> Character
    requires some { 0 < length rest.now }
    requires backslash { slice_index rest.now 0 ≡ backslash }
    ensures { IsCharacter rest.now result }
{
    match rest.get(1) {
        Some(letter) => match escaped(*letter) {
            Some(byte) => Character::Means(byte, 2),
            None => Character::BadEscape,
        },
        None => Character::BadEscape,
    }
}

/// The character at the front of the rest of a text.
fn read_character(rest: &[u8]) -> Character
    ensures { IsCharacter rest.now result }
{
    match rest.first() {
        None => Character::Unclosed,
        Some(b'\n') => Character::Unclosed,
        Some(b'"') => Character::Closes,
        Some(b'\\') => read_escape(rest),
        Some(byte) if is_plain(*byte) => Character::Means(*byte, 1),
        Some(_) => Character::BadByte,
    }
}

/// The text at the front of the rest of a source, which begins with a quote.
pub fn text(alloc: Global, rest: &[u8]) -> Result<Piece, NoMemory>
    requires some { 0 < length rest.now }
    requires quote { slice_index rest.now 0 ≡ quote }
    ensures { IfOk result (λ piece. IsTokenPiece rest.now piece) }
{
    let mut bytes = Vec::new(alloc);
    let mut passed = 1;
    let mut left = rest.split_at(1).1;
    loop {
        match read_character(left) {
            Character::Means(byte, size) => {
                bytes.push(byte)?;
                passed += size;
                left = left.split_at(size).1;
            }
            Character::Closes => {
                let text = Bytes::copy_of(alloc, bytes.as_slice())?;
                return Ok(Piece::Found(Token::Text(text), passed + 1));
            }
            Character::Unclosed => return Ok(Piece::Stopped(Stop::Open)),
            Character::BadEscape => return Ok(Piece::Stopped(Stop::Escape(passed))),
            Character::BadByte => return Ok(Piece::Stopped(Stop::Byte(passed))),
        }
    }
}
