ghost use Rattle.std.specs.Prelude.{◌≡◌, ◌++◌, [], ◌∷◌, ℕ, List, OnOk, IfOk, IsTrue};
ghost use Rattle.chi_value.specs.declared.format.Piece.{Piece};
ghost use Rattle.chi_format.specs.FormatCodes.{with_byte};
ghost use Rattle.chi_format.specs.SoFar.{before, plain_piece, is_shown, with_taken, is_front};

use super::front::Taken;
use chi_base::NoMemory;
use chi_token::Bytes;
use chi_value::Piece;
use std::alloc::Global;

/// The pieces that were read, the last plain one of which may go on.
#[derive(Drop)]
pub(super) struct SoFar {
    pub pieces: Vec<Piece>,
    /// The bytes of the plain piece that may go on.
    pub plain: Vec<u8>,
}

impl SoFar {
    #[tactic(auto, using(crate::proofs::Pieces::none_yet))]
    pub(super) fn new(alloc: Global) -> SoFar
        ensures { (later : List Piece) → before result later ≡ later }
    {
        SoFar {
            pieces: Vec::new(alloc),
            plain: Vec::new(alloc),
        }
    }

    /// Adds what was taken.
    #[tactic(auto, using(crate::proofs::Pieces::pushed, crate::proofs::Pieces::coded))]
    pub(super) fn add(&mut self, alloc: Global, taken: Taken) -> Result<(), NoMemory>
        requires { IsTrue (is_front taken) }
        ensures { OnOk result ((later : List Piece) → before self.new later ≡ before self.old (with_taken taken later)) }
    {
        match taken {
            Taken::Byte(byte) => {
                self.plain.push(byte)?;
                Ok(())
            }
            Taken::Code(piece) => {
                self.end_plain(alloc)?;
                self.pieces.push(piece)?;
                Ok(())
            }
        }
    }

    /// All pieces.
    #[tactic(auto, using(crate::proofs::Pieces::finished))]
    pub(super) fn finish(self, alloc: Global) -> Result<Vec<Piece>, NoMemory>
        ensures { IfOk result (λ pieces. pieces.items ≡ before self []) }
    {
        let mut all = self;
        all.end_plain(alloc)?;
        let SoFar { pieces, plain: _ } = all;
        Ok(pieces)
    }

    /// Ends the plain piece, if there is one.
    fn end_plain(&mut self, alloc: Global) -> Result<(), NoMemory>
        ensures pieces { OnOk result (self.new.pieces.items ≡ self.old.pieces.items ++ plain_piece self.old.plain.items) }
        ensures plain { OnOk result (self.new.plain.items ≡ []) }
    {
        if !self.plain.is_empty() {
            self.pieces.push(Piece::Plain(Bytes::copy_of(alloc, self.plain.as_slice())?))?;
            self.plain.clear();
        }
        Ok(())
    }
}
