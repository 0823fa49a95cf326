ghost use Rattle.std.specs.Prelude.{◌≡◌, ◌≢◌, ◌<◌, ◌≤◌, length, slice_index, take, false};
ghost use Rattle.chi_token.specs.Characters.{is_digit, is_name_start, quote};
ghost use Rattle.chi_token.specs.Signs.{sign_of};
ghost use Rattle.chi_lex.specs.Pieces.{IsTokenPiece};

use crate::piece::{Piece, Stop};
use chi_token::{Sign, Token};

/// The sign that the first `size` bytes spell, if there are as many and they spell one.
fn sign_of_size(rest: &[u8], size: usize) -> Option<Sign>
    ensures fits { size ≤ length rest.now → result ≡ sign_of (take size rest.now) }
    ensures short { length rest.now < size → result ≡ None }
{
    if rest.len() < size {
        return None;
    }
    Sign::of(rest.split_at(size).0)
}

/// The sign at the front of the rest of a source, which begins as no other token does.
pub fn sign(rest: &[u8]) -> Piece
    requires some { 0 < length rest.now }
    requires no_name { is_name_start (slice_index rest.now 0) ≡ false }
    requires no_digit { is_digit (slice_index rest.now 0) ≡ false }
    requires no_quote { slice_index rest.now 0 ≢ quote }
    ensures { IsTokenPiece rest.now result }
{
    if let Some(sign) = sign_of_size(rest, 2) {
        return Piece::Found(Token::Sign(sign), 2);
    }
    match sign_of_size(rest, 1) {
        Some(sign) => Piece::Found(Token::Sign(sign), 1),
        None => Piece::Stopped(Stop::Byte(0)),
    }
}
