ghost use Rattle.std.specs.Prelude.{◌≡◌, ◌<◌, ◌≤◌, IfOk, length, slice_index, true};
ghost use Rattle.std.specs.List.{take_while};
ghost use Rattle.chi_token.specs.Characters.{is_digit};
ghost use Rattle.chi_lex.specs.Fractions.{fraction_length};
ghost use Rattle.chi_lex.specs.Pieces.{IsTokenPiece};

use crate::piece::Piece;
use chi_base::NoMemory;
use chi_token::{Bytes, Token};
use std::alloc::Global;

/// How many digits the rest of a source begins with.
fn digits_length(rest: &[u8]) -> usize
    ensures passed { result ≡ length (take_while is_digit rest.now) }
    ensures within { result ≤ length rest.now }
{
    rest.iter().take_while(|byte| byte.is_ascii_digit()).count()
}

/// How many bytes a point and digits take with which the rest of a source begins, or 0.
fn fraction_length(rest: &[u8]) -> usize
    ensures passed { result ≡ fraction_length rest.now }
    ensures within { result ≤ length rest.now }
{
    if rest.first() != Some(&b'.') {
        return 0;
    }
    match digits_length(rest.split_at(1).1) {
        0 => 0,
        digits => 1 + digits,
    }
}

/// The number at the front of the rest of a source, which begins with a digit.
pub fn number(alloc: Global, rest: &[u8]) -> Result<Piece, NoMemory>
    requires some { 0 < length rest.now }
    requires digit { is_digit (slice_index rest.now 0) ≡ true }
    ensures { IfOk result (λ piece. IsTokenPiece rest.now piece) }
{
    let whole = digits_length(rest);
    let fraction = fraction_length(rest.split_at(whole).1);
    let size = whole + fraction;
    let digits = Bytes::copy_of(alloc, rest.split_at(size).0)?;
    let token = if fraction == 0 {
        Token::Int(digits)
    } else {
        Token::Real(digits)
    };
    Ok(Piece::Found(token, size))
}
