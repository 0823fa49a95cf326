ghost use Rattle.std.specs.Prelude.{◌≡◌, ◌+◌, ◌^◌, ◌<◌, ◌≤◌, ℕ, List, ◌++◌, All, IfOk, IfErr, length};
ghost use Rattle.chi_token.specs.Tokens.{IsToken};
ghost use Rattle.chi_lex.specs.Cursors.{StandsAfter};
ghost use Rattle.chi_lex.specs.Stops.{fault_of, stop_of};
ghost use Rattle.chi_lex.specs.Places.{place_of};
ghost use Rattle.chi_lex.specs.Reading.{Reads, IsFaultOf};

use crate::cursor::Cursor;
use crate::fault::LexFault;
use crate::piece::{Piece, Stop};
use crate::scan::scan;
use chi_token::{Place, Spanned};
use std::alloc::Global;

/// The most bytes of a source.
pub const MOST_BYTES: usize = 1_048_576;

/// The place after the last byte of a source.
pub fn end_place(source: &[u8]) -> Place
    requires { length source.now ≤ MOST_BYTES }
    ensures { result ≡ place_of source.now (length source.now) }
{
    Cursor::at_start().past(source).place()
}

/// The fault of what stops the rest of a source.
fn fault_at(cursor: Cursor, rest: &[u8], stop: Stop) -> LexFault
    requires room { cursor.offset + length rest.now + 2 < 2 ^ 32 }
    requires stops { stop ≡ stop_of rest.now }
    ensures { (before : List ℕ) → StandsAfter before cursor
        → result ≡ fault_of (before ++ rest.now) (length before) stop }
{
    match stop {
        Stop::Byte(passed) => LexFault::BadByte(cursor.past(rest.split_at(passed).0).place()),
        Stop::Open => LexFault::OpenString(cursor.place()),
        Stop::Escape(passed) => LexFault::BadEscape(cursor.past(rest.split_at(passed).0).place()),
    }
}

/// Reads a source whole: its tokens with their places, or the first place where there is none.
pub fn lex(alloc: Global, source: &[u8]) -> Result<Vec<Spanned>, LexFault>
    requires { length source.now ≤ MOST_BYTES }
    ensures tokens { IfOk result (λ tokens. Reads source.now tokens.items) }
    ensures spelled { IfOk result (λ tokens. All (λ t. IsToken t.token) tokens.items) }
    ensures fault { IfErr result (λ fault. IsFaultOf source.now fault) }
{
    let mut tokens = Vec::new(alloc);
    let mut cursor = Cursor::at_start();
    let mut rest = source;
    while !rest.is_empty() {
        let piece = scan(alloc, rest)?;
        let size = match piece {
            Piece::Gap(size) => size,
            Piece::Found(token, size) => {
                let (place, start) = (cursor.place(), cursor.offset);
                tokens.push(Spanned {
                    token,
                    place,
                    start,
                    stop: start + size as u32,
                })?;
                size
            }
            Piece::Stopped(stop) => return Err(fault_at(cursor, rest, stop)),
        };
        let (passed, left) = rest.split_at(size);
        cursor = cursor.past(passed);
        rest = left;
    }
    Ok(tokens)
}
