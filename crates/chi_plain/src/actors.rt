//! What may happen in a configuration.

ghost use Rattle.std.specs.Prelude.{◌≡◌, ◌<◌, length, slice_get, Some};
ghost use Rattle.chi_core.specs.Options.{actors, options};
ghost use Rattle.chi_order.specs.Marked.{members};

use crate::watching::Watched;
use chi_core::Label;
use chi_order::{Ranks, Steps};
use chi_plain_options::{option_at, option_count};
use std::marker::Brand;
use std::sync::ledger::{Blank, Ledger};

/// The marked number of a rank. Nobody counts its steps.
fn marked_at<L: Ledger>(marks: &Ranks, rank: u32, blank: Blank) -> u32
    requires name { blank.name ≡ L.name }
    requires parts { blank.parts ≡ L.parts }
    requires some { 0 < L.parts }
    requires rank { rank < length (members marks.now) }
    ensures { slice_get (members marks.now) rank ≡ Some result }
{
    let mut steps = Steps::<L>::new(blank);
    marks.nth(rank, &mut steps)
}

impl<'a> Watched<'a> {
    pub fn clock(&self) -> i64
        ensures { result ≡ self.now.clock }
    {
        self.configuration.clock()
    }

    /// How many instances have an option.
    #[tactic(auto, using(crate::proofs::MarkedActors::marked_is))]
    pub fn actor_count(&self) -> u32
        ensures { result ≡ length (actors self.now) }
    {
        self.kept.marks.count()
    }

    /// Number `i` of the instances that have an option, ascending.
    #[tactic(auto, using(crate::proofs::MarkedActors::marked_is))]
    pub fn actor_at(&self, i: u32) -> u32
        requires { i < length (actors self.now) }
        ensures { slice_get (actors self.now) i ≡ Some result }
    {
        marked_at::<Brand>(&self.kept.marks, i, Blank::new(1))
    }

    /// How many options instance `pid` has.
    pub fn option_count(&self, pid: u32) -> u64
        ensures { result ≡ length (options self.now pid) }
    {
        option_count(&self.configuration, &self.kept.parties, pid)
    }

    /// Option number `i` of instance `pid`.
    pub fn option_at(&self, pid: u32, i: u64) -> Label
        requires { i < length (options self.now pid) }
        ensures { slice_get (options self.now pid) i ≡ Some result }
    {
        option_at(&self.configuration, &self.kept.parties, pid, i)
    }
}
