ghost use Rattle.std.specs.Prelude.{◌≡◌, ◌<◌, ◌≤◌, IfOk, length};
ghost use Rattle.std.specs.List.{take_while};
ghost use Rattle.chi_lex.specs.Gaps.{gap_of, goes_on};
ghost use Rattle.chi_lex.specs.Pieces.{IsPiece, IsTokenPiece};

use crate::number::number;
use crate::piece::Piece;
use crate::sign::sign;
use crate::text::text;
use crate::word::{is_name_start, word};
use chi_base::NoMemory;
use std::alloc::Global;

/// How many bytes a comment goes on after its hash sign.
fn comment_length(rest: &[u8]) -> usize
    ensures passed { result ≡ length (take_while goes_on rest.now) }
    ensures within { result ≤ length rest.now }
{
    rest.iter().take_while(|byte| **byte != b'\n').count()
}

/// The length of the gap at the front of the rest of a source, if there is one.
fn gap_length(rest: &[u8]) -> Option<usize>
    ensures { result ≡ gap_of rest.now }
{
    match rest.first() {
        Some(b' ' | b'\t' | b'\r' | b'\n') => Some(1),
        Some(b'#') => Some(1 + comment_length(rest.split_at(1).1)),
        _ => None,
    }
}

/// The token at the front of the rest of a source.
fn token(alloc: Global, rest: &[u8]) -> Result<Piece, NoMemory>
    requires { 0 < length rest.now }
    ensures { IfOk result (λ piece. IsTokenPiece rest.now piece) }
{
    let first = rest[0];
    if is_name_start(first) {
        word(alloc, rest)
    } else if first.is_ascii_digit() {
        number(alloc, rest)
    } else if first == b'"' {
        text(alloc, rest)
    } else {
        Ok(sign(rest))
    }
}

/// What stands at the front of the rest of a source.
pub fn scan(alloc: Global, rest: &[u8]) -> Result<Piece, NoMemory>
    requires { 0 < length rest.now }
    ensures { IfOk result (λ piece. IsPiece rest.now piece) }
{
    match gap_length(rest) {
        Some(size) => Ok(Piece::Gap(size)),
        None => token(alloc, rest),
    }
}
