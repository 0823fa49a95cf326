ghost use Rattle.std.specs.Prelude.{◌≡◌, ◌+◌, ◌≤◌, None};
ghost use Rattle.chi_io.specs.Counts.{Rose};
ghost use Rattle.chi_io.specs.MuteShelfState.{refusals_after};
ghost use Rattle.chi_io.specs.Shelf.{Answers};

use crate::{Fetch, Shelf};
use std::alloc::Global;
use std::marker::Model;

/// A shelf that passes each call on to another, and doesn't tell its files. Each name that is missing and each file that is too long
/// is counted, as each failure of the other one is.
#[derive(Debug, Drop)]
pub struct MuteShelf<H> {
    inner: H,
    /// How often a name was missing or a file too long, a count that stands still at 2^64 - 1.
    refusals: u64,
}

impl<H> Model for MuteShelf<H> {
    ghost use Rattle.chi_io.specs.MuteShelfState.{MuteShelfState};

    ghost Value = { MuteShelfState H };

    ghost view = { λ s. record { inner = s.inner; refusals = s.refusals } };
}

impl<H: Shelf> MuteShelf<H> {
    /// The same shelf, which tells nothing.
    pub fn new(inner: H) -> MuteShelf<H>
        ensures { result ≡ record { inner = inner; refusals = 0 } }
    {
        MuteShelf { inner, refusals: 0 }
    }
}

impl<H: Shelf> Shelf for MuteShelf<H> {
    ghost files = { λ _. None };

    ghost faults = { λ shelf. H.faults shelf.inner + shelf.refusals };

    #[tactic(auto, using(crate::proofs::Mute::rose_inner, crate::proofs::Mute::rose_own))]
    fn fetch(&mut self, alloc: Global, name: &[u8], limit: u64) -> Fetch
        ensures answer { Answers None name.now limit
            (Rose (H.faults self.old.inner + self.old.refusals) (H.faults self.new.inner + self.new.refusals)) result }
        ensures count { H.faults self.old.inner + self.old.refusals ≤ H.faults self.new.inner + self.new.refusals }

        // It is the other's answer, and each refusal but for a failure is counted.
        ensures passed { Answers (H.files self.old.inner) name.now limit
            (Rose (H.faults self.old.inner) (H.faults self.new.inner)) result }
        ensures refusals { self.new.refusals ≡ refusals_after self.old.refusals result }
    {
        let answer = self.inner.fetch(alloc, name, limit);
        match &answer {
            Fetch::NoSuch | Fetch::TooLong => self.refusals = self.refusals.saturating_add(1),
            Fetch::Bytes(_) | Fetch::Failed | Fetch::NoMemory => {}
        }
        answer
    }
}
