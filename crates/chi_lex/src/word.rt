ghost use Rattle.std.specs.Prelude.{◌≡◌, ◌<◌, ◌≤◌, IfOk, length, slice_index, true};
ghost use Rattle.std.specs.List.{take_while};
ghost use Rattle.chi_token.specs.Characters.{is_name_byte, is_name_start};
ghost use Rattle.chi_lex.specs.Pieces.{IsTokenPiece};

use crate::piece::Piece;
use chi_base::NoMemory;
use chi_token::{Bytes, Keyword, Token};
use std::alloc::Global;

/// Whether a name may begin with the byte.
pub fn is_name_start(byte: u8) -> bool
    ensures { result ≡ is_name_start byte }
{
    byte.is_ascii_alphabetic() || byte == b'_'
}

/// Whether a name may go on with the byte.
fn is_name_byte(byte: u8) -> bool
    ensures { result ≡ is_name_byte byte }
{
    is_name_start(byte) || byte.is_ascii_digit()
}

/// How many bytes of names the rest of a source begins with.
fn name_length(rest: &[u8]) -> usize
    ensures passed { result ≡ length (take_while is_name_byte rest.now) }
    ensures within { result ≤ length rest.now }
{
    rest.iter().take_while(|byte| is_name_byte(**byte)).count()
}

/// The keyword or name at the front of the rest of a source, which begins as a name does.
pub fn word(alloc: Global, rest: &[u8]) -> Result<Piece, NoMemory>
    requires some { 0 < length rest.now }
    requires start { is_name_start (slice_index rest.now 0) ≡ true }
    ensures { IfOk result (λ piece. IsTokenPiece rest.now piece) }
{
    let size = name_length(rest);
    let text = rest.split_at(size).0;
    match Keyword::of(text) {
        Some(keyword) => Ok(Piece::Found(Token::Word(keyword), size)),
        None => Ok(Piece::Found(Token::Name(Bytes::copy_of(alloc, text)?), size)),
    }
}
