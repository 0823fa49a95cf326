ghost use Rattle.std.specs.Prelude.{◌≡◌, ◌<◌, ◌≤◌, Some, None, IsSome, MatchOption, length, slice_get, OnOk, OnErr};
ghost use Rattle.chi_chan.specs.Held.{held, options, receivers_on, senders_on, NobodyWaits, SameOffers, Updates};
ghost use Rattle.chi_chan.specs.Kept.{IsWaiting};

use crate::lines::Lines;
use crate::listing::{list, unlist};
use crate::offers::{Choice, Offer, Party};
use crate::options::{choice_among, count_among};
use crate::seats::Seats;
use chi_base::NoMemory;
use std::alloc::Global;
use std::marker::Model;

/// The offers of the instances that wait, and for each channel those that send on it and those that receive from it.
/// Contracts see a map from instances to lists of offers.
///
/// An offer stands here once, and `offers_of` lends it, so that no caller need keep a copy. What is kept of an instance
/// that doesn't wait is said at its seats; a line keeps its room.
#[derive(Debug, Drop)]
pub struct Waiting {
    seats: Seats,
    senders: Lines,
    receivers: Lines,
}

impl Model for Waiting {
    ghost use Rattle.std.specs.Prelude.{List, Option};
    ghost use Rattle.chi_chan.specs.declared.offers.Offer.{Offer};
    ghost use Rattle.chi_chan.specs.Kept.{IsWaiting};

    ghost Value = { List (Option (List Offer)) };

    ghost view = { λ w. w.seats };

    ghost invariant = { λ w. IsWaiting w.seats w.senders w.receivers };
}

impl Waiting {
    /// Nobody waits. It takes no memory.
    pub fn new(alloc: Global) -> Waiting
        ensures { NobodyWaits result }
    {
        Waiting {
            seats: Seats::new(alloc),
            senders: Lines::new(alloc),
            receivers: Lines::new(alloc),
        }
    }

    /// Instance `pid`, which doesn't wait, waits with these offers.
    #[inline(always)]
    pub fn offer(&mut self, pid: u32, offers: &[Offer]) -> Result<(), NoMemory>
        requires waits { held self.old pid ≡ None }
        requires pid { pid < 100000 }
        requires few { length offers.now ≤ 65536 }
        ensures ok { OnOk result (Updates self.old self.new pid (Some offers.now)) }
        ensures err { OnErr result (SameOffers self.old self.new) }
    {
        come(
            &mut self.seats,
            &mut self.senders,
            &mut self.receivers,
            pid,
            offers,
        )
    }

    /// Instance `pid`, which waits, doesn't wait any more.
    #[inline(always)]
    pub fn withdraw(&mut self, pid: u32)
        requires { IsSome (held self.old pid) }
        ensures { Updates self.old self.new pid None }
    {
        go(&mut self.seats, &mut self.senders, &mut self.receivers, pid);
    }

    /// How many options instance `pid` has, which waits with these offers.
    #[inline(always)]
    pub fn count_with(&self, pid: u32, clock: i64, offers: &[Offer]) -> u64
        requires { held self.now pid ≡ Some offers.now }
        ensures { result ≡ length (options self.now clock pid) }
    {
        self.receivers.ascending();
        count_among(&self.receivers, pid, clock, offers)
    }

    /// Instance `pid`, which waits with these offers, doesn't wait any more.
    #[inline(always)]
    pub fn withdraw_with(&mut self, pid: u32, offers: &[Offer])
        requires { held self.old pid ≡ Some offers.now }
        ensures { Updates self.old self.new pid None }
    {
        go_with(
            &mut self.seats,
            &mut self.senders,
            &mut self.receivers,
            pid,
            offers,
        );
    }

    /// The offers of instance `pid`, if it waits.
    #[inline(always)]
    pub fn offers_of(&self, pid: u32) -> Option<&[Offer]>
        ensures { MatchOption result (held self.now pid ≡ None) (λ offers. held self.now pid ≡ Some offers.now) }
    {
        self.seats.offers_of(pid)
    }

    /// Who sends on a channel, by instance and then by alternative.
    #[inline(always)]
    pub fn senders(&self, channel: u32) -> &[Party]
        ensures { result.now ≡ senders_on self.now channel }
    {
        self.senders.at(channel)
    }

    /// Who receives from a channel, by instance and then by alternative.
    #[inline(always)]
    pub fn receivers(&self, channel: u32) -> &[Party]
        ensures { result.now ≡ receivers_on self.now channel }
    {
        self.receivers.at(channel)
    }

    /// How many options instance `pid` has. One that doesn't wait has none.
    #[inline(always)]
    pub fn option_count(&self, pid: u32, clock: i64) -> u64
        ensures { result ≡ length (options self.now clock pid) }
    {
        self.receivers.ascending();
        match self.seats.offers_of(pid) {
            Some(offers) => count_among(&self.receivers, pid, clock, offers),
            None => 0,
        }
    }

    /// Option number `i` of instance `pid`.
    #[inline(always)]
    pub fn option_at(&self, pid: u32, clock: i64, i: u64) -> Choice
        requires { i < length (options self.now clock pid) }
        ensures { slice_get (options self.now clock pid) i ≡ Some result }
    {
        self.receivers.ascending();
        match self.seats.offers_of(pid) {
            Some(offers) => choice_among(&self.receivers, pid, clock, i, offers),
            None => unreachable!(),
        }
    }
}

/// An instance waits with these offers.
#[inline(always)]
fn come(
    seats: &mut Seats,
    senders: &mut Lines,
    receivers: &mut Lines,
    pid: u32,
    offers: &[Offer],
) -> Result<(), NoMemory>
    requires waiting { IsWaiting seats.old senders.old receivers.old }
    requires absent { held seats.old pid ≡ None }
    requires pid { pid < 100000 }
    requires few { length offers.now ≤ 65536 }
    ensures waiting { IsWaiting seats.new senders.new receivers.new }
    ensures ok { OnOk result (Updates seats.old seats.new pid (Some offers.now)) }
    ensures err { OnErr result (SameOffers seats.old seats.new) }
{
    seats.sit(pid, offers)?;
    match list(senders, receivers, pid, offers) {
        Ok(()) => Ok(()),
        Err(NoMemory) => {
            seats.rise(pid);
            Err(NoMemory)
        }
    }
}

/// An instance doesn't wait any more.
#[inline(always)]
fn go(seats: &mut Seats, senders: &mut Lines, receivers: &mut Lines, pid: u32)
    requires waiting { IsWaiting seats.old senders.old receivers.old }
    requires waits { IsSome (held seats.old pid) }
    ensures waiting { IsWaiting seats.new senders.new receivers.new }
    ensures gone { Updates seats.old seats.new pid None }
{
    match seats.offers_of(pid) {
        Some(offers) => unlist(senders, receivers, pid, offers),
        None => unreachable!(),
    }
    seats.rise(pid);
}

/// An instance that waits with these offers doesn't wait any more.
#[inline(always)]
fn go_with(
    seats: &mut Seats,
    senders: &mut Lines,
    receivers: &mut Lines,
    pid: u32,
    offers: &[Offer],
)
    requires waiting { IsWaiting seats.old senders.old receivers.old }
    requires waits { held seats.old pid ≡ Some offers.now }
    ensures waiting { IsWaiting seats.new senders.new receivers.new }
    ensures gone { Updates seats.old seats.new pid None }
{
    unlist(senders, receivers, pid, offers);
    seats.rise(pid);
}
