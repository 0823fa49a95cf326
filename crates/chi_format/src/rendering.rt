//! The text of pieces with values.

mod field;
mod shown;

ghost use Rattle.std.specs.Prelude.{◌≡◌, ◌≤◌, Some, length, IfOk, IfErr, IsTrue};
ghost use Rattle.chi_value.specs.declared.text.limit.TheConstants.{MOST_TEXT};
ghost use Rattle.chi_format.specs.Format.{rendered, may_render};
ghost use Rattle.chi_format.specs.Refusal.{PastLimit};

use crate::render_fault::RenderFault;
use chi_value::{Names, Piece, Value, append};
use shown::put_shown;
use std::alloc::Global;

/// The text of the pieces in turn, each that isn't plain with the next of the values.
#[tactic(auto, using(crate::proofs::Turns::turns))]
pub fn render(
    alloc: Global,
    pieces: &[Piece],
    values: &[Value],
    names: &Names,
) -> Result<Vec<u8>, RenderFault>
    requires fits { IsTrue (may_render names.now.kinds pieces.now values.now) }
    ensures text { IfOk result (λ text. rendered names.now.kinds pieces.now values.now ≡ Some text.items) }
    ensures within { IfOk result (λ text. length text.items ≤ MOST_TEXT) }
    ensures refused { IfErr result (λ fault. PastLimit fault (rendered names.now.kinds pieces.now values.now)) }
{
    let mut text = Vec::new(alloc);
    let mut next = 0;
    for piece in pieces {
        match piece {
            Piece::Plain(bytes) => append(&mut text, bytes.as_slice())?,
            Piece::Any(_) | Piece::Whole(_) | Piece::Fixed(_, _) => {
                put_shown(alloc, piece, &values[next], names, &mut text)?;
                next += 1;
            }
        }
    }
    Ok(text)
}
