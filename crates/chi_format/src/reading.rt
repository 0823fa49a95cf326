//! The pieces of a format that is a text.

mod front;
mod so_far;

ghost use Rattle.std.specs.Prelude.{◌^◌, ◌<◌, length, IfOk, IfErr};
ghost use Rattle.chi_format.specs.FormatCodes.{MeansPieces};
ghost use Rattle.chi_format.specs.Refusal.{IsBadFormat};

use crate::Piece;
use crate::format_fault::FormatFault;
use front::{Taken, next_part};
use so_far::SoFar;
use std::alloc::Global;

/// Reads a text as a format.
#[tactic(auto, using(crate::proofs::Parts::taken_front, crate::proofs::Parts::left_shorter, crate::proofs::Pieces::reads_none, crate::proofs::Pieces::reads_more, crate::proofs::Pieces::reads_within, crate::proofs::Pieces::reads_all, crate::proofs::Pieces::reads_bad))]
pub fn read_format(alloc: Global, text: &[u8]) -> Result<Vec<Piece>, FormatFault>
    requires short { length text.now < 2 ^ 32 }
    ensures means { IfOk result (λ pieces. MeansPieces text.now pieces.items) }
    ensures refused { IfErr result (λ fault. IsBadFormat fault text.now) }
{
    let mut so_far = SoFar::new(alloc);
    let mut left = text;
    while !left.is_empty() {
        let Some((taken, rest)) = next_part(left) else {
            return Err(FormatFault::BadCode((text.len() - left.len()) as u32));
        };
        so_far.add(alloc, taken)?;
        left = rest;
    }
    Ok(so_far.finish(alloc)?)
}
