//! What may come next.

ghost use Rattle.std.specs.Prelude.{◌≡◌, ◌<◌, ◌^◌, [], Some, length, slice_get, if◌then◌else◌};
ghost use Rattle.chi_core.specs.Meeting.{next_due};
ghost use Rattle.chi_core.specs.Options.{actors, advance, options};
ghost use Rattle.chi_core.specs.Picks.{Pick, picked_label};
ghost use Rattle.chi_chan_laws.specs.Agreement.{label_of};
ghost use Rattle.chi_order.specs.Marked.{members};
ghost use Rattle.chi_sched.specs.Policies.{Answers};
ghost use Rattle.chi_machine_agenda.specs.Kept.{is_waiting};
ghost use Rattle.chi_machine_agenda.specs.Phases.{are_over, waits};
ghost use Rattle.chi_machine_agenda.specs.Reading.{config_of};

use crate::agenda::Agenda;
use crate::ending::advance_label;
use crate::standing::{Standing, count, standing_at};
use crate::timing::least_due;
use chi_chan::Choice;
use chi_core::Label;
use chi_order::{Ranks, Steps};
use chi_sched::Chooser;
use std::marker::Brand;
use std::sync::ledger::{Blank, Ledger};

/// The ready instance of a rank. Nobody counts the steps.
fn ready_at<L: Ledger>(ready: &Ranks, rank: u32, blank: Blank) -> u32
    requires name { blank.name ≡ L.name }
    requires parts { blank.parts ≡ L.parts }
    requires some { 0 < L.parts }
    requires rank { rank < length (members ready.now) }
    ensures { slice_get (members ready.now) rank ≡ Some result }
{
    let mut steps = Steps::<L>::new(blank);
    ready.nth(rank, &mut steps)
}

/// One option, or none.
#[inline(always)]
fn one_where(is_free: bool) -> u64
    ensures { result ≡ (if is_free then 1 else 0) }
{
    u64::from(is_free)
}

/// A choice of an instance, as the label that it is.
#[inline(always)]
fn label_of(pid: u32, choice: Choice) -> Label
    ensures { result ≡ label_of pid choice }
{
    match choice {
        Choice::Pair(own, party) => Label::Pair(pid, own, party.pid, party.alternative),
        Choice::Wake(own) => Label::Wake(pid, own),
    }
}

impl Agenda {
    /// The time.
    #[inline(always)]
    pub fn clock(&self) -> i64
        ensures { result ≡ self.now.clock }
    {
        self.clock
    }

    /// How many instances there are.
    pub fn count(&self) -> usize
        ensures { result ≡ length self.now.phases }
    {
        count(&self.standings)
    }

    /// For each instance, whether it has finished.
    #[inline(always)]
    pub fn finished(&self) -> &[bool]
        ensures { result.now ≡ are_over self.now.phases }
    {
        self.finished.as_slice()
    }

    /// Whether there is this instance and it waits with offers.
    pub fn is_waiting(&self, pid: u32) -> bool
        ensures { result ≡ waits (slice_get self.now.phases pid) }
    {
        match standing_at(&self.standings, pid) {
            Some(standing) => is_waiting(standing),
            None => false,
        }
    }

    /// How many instances have an option.
    #[inline(always)]
    pub fn actor_count(&self) -> u32
        ensures { result ≡ length (actors (config_of self.now)) }
    {
        self.ready.count()
    }

    /// Number `i` of the instances that have an option, ascending.
    #[inline(always)]
    pub fn actor_at(&self, i: u32) -> u32
        requires { i < length (actors (config_of self.now)) }
        ensures { slice_get (actors (config_of self.now)) i ≡ Some result }
    {
        ready_at::<Brand>(&self.ready, i, Blank::new(1))
    }

    /// How many options instance `pid` has.
    #[inline(always)]
    pub fn option_count(&self, pid: u32) -> u64
        ensures { result ≡ length (options (config_of self.now) pid) }
    {
        let standing = match standing_at(&self.standings, pid) {
            Some(standing) => standing,
            None => return 0,
        };
        match standing {
            Standing::Running => 1,
            Standing::Waiting => self.waiting.option_count(pid, self.clock),
            Standing::Joining => one_where(self.joins.is_free(pid)),
            Standing::Finished => 0,
        }
    }

    /// Option number `i` of instance `pid`.
    #[inline(always)]
    pub fn option_at(&self, pid: u32, i: u64) -> Label
        requires { i < length (options (config_of self.now) pid) }
        ensures { slice_get (options (config_of self.now) pid) i ≡ Some result }
    {
        let standing = match standing_at(&self.standings, pid) {
            Some(standing) => standing,
            None => unreachable!(),
        };
        match standing {
            Standing::Running => Label::Local(pid),
            Standing::Waiting => label_of(pid, self.waiting.option_at(pid, self.clock, i)),
            Standing::Joining => Label::Join(pid),
            Standing::Finished => unreachable!(),
        }
    }

    /// The least due time of those that wait, if there is one, where no instance has an option.
    pub fn next_due(&self) -> Option<i64>
        requires { actors (config_of self.now) ≡ [] }
        ensures { result ≡ next_due (config_of self.now) }
    {
        least_due(&self.dues)
    }

    /// That the time goes on, where it may and no instance has an option.
    pub(crate) fn advance_label(&self) -> Option<Label>
        requires { actors (config_of self.now) ≡ [] }
        ensures { result ≡ advance (config_of self.now) }
    {
        advance_label(self.until, least_due(&self.dues))
    }

    /// The label that a policy picks at a turn, if anything may come next.
    #[inline(always)]
    pub fn pick<C: Chooser>(&self, chooser: &C, turn: u64) -> Option<Label>
        requires { turn < 2 ^ 63 }
        ensures { (pick : Pick) → Answers (C.gives chooser.now) pick → result ≡ picked_label pick turn (config_of self.now) }
    {
        let actors = self.actor_count();
        if actors == 0 {
            return self.advance_label();
        }
        let actor = self.actor_at(chooser.choose(2 * turn, actors as u64) as u32);
        let options = self.option_count(actor);
        Some(self.option_at(actor, chooser.choose(2 * turn + 1, options)))
    }
}

/// Whether it is that of one that waits with offers.
#[inline(always)]
fn is_waiting(standing: Standing) -> bool
    ensures { result ≡ is_waiting standing }
{
    match standing {
        Standing::Running => false,
        Standing::Waiting => true,
        Standing::Joining => false,
        Standing::Finished => false,
    }
}
