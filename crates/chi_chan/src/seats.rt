ghost use Rattle.std.specs.Prelude.{◌≡◌, ◌≢◌, ℕ, ◌<◌, ◌≤◌, [], Some, None, IsSome, MatchOption, get_or, slice_set, length, OnOk, OnErr};
ghost use Rattle.slab.specs.Slab.{get};
ghost use Rattle.chi_chan.specs.Held.{held, SameOffers, Updates};
ghost use Rattle.chi_chan.specs.Seated.{seen, seat, nobody, Seated};

use crate::offers::Offer;
use chi_base::NoMemory;
use slab::Slab;
use std::alloc::Global;
use std::marker::Model;

/// For how many offers an instance keeps room while it doesn't wait.
const MOST_KEPT: usize = 64;

/// The offers of an instance.
#[derive(Debug, Drop)]
struct Offers {
    offers: Vec<Offer>,
}

impl Model for Offers {
    ghost use Rattle.std.specs.Prelude.{List};
    ghost use Rattle.chi_chan.specs.declared.offers.Offer.{Offer};

    ghost Value = { List Offer };

    ghost view = { λ o. o.offers.items };
}

impl Offers {
    #[inline(always)]
    fn as_slice(&self) -> &[Offer]
        ensures { result.now ≡ self.now }
    {
        self.offers.as_slice()
    }

    /// Other offers stand in the same room, where it is wide enough.
    #[inline(always)]
    fn set(&mut self, offers: &[Offer]) -> Result<(), NoMemory>
        ensures { OnOk result (self.new ≡ offers.now) }
    {
        self.offers.clear();
        if offers.len() == 1 && self.offers.capacity() > 0 {
            self.offers.push_reserved(offers[0]);
        } else {
            self.offers.extend_from_slice(offers)?;
        }
        Ok(())
    }

    /// The room is given back where it is large. Whatever stood there counts no more.
    #[inline(always)]
    fn give_back(&mut self, alloc: Global) {
        if self.offers.capacity() > MOST_KEPT {
            self.offers = Vec::new(alloc);
        }
    }
}

/// Where an instance's offers are kept, and whether it waits.
#[derive(Clone, Copy, Debug)]
struct Seat {
    key: usize,
    waits: bool,
}

/// The offers of the instances that wait. Contracts see a map from instances to lists of offers.
///
/// What is kept: a seat for each instance up to the greatest one that ever waited, and an entry of the slab for each of
/// them, which has room for 64 offers at most while its instance doesn't wait. So an instance that waits again with a few
/// offers takes no memory.
#[derive(Debug, Drop)]
pub struct Seats {
    alloc: Global,
    seats: Vec<Seat>,
    offers: Slab<Offers>,
}

impl Model for Seats {
    ghost use Rattle.std.specs.Prelude.{List, Option};
    ghost use Rattle.chi_chan.specs.declared.offers.Offer.{Offer};
    ghost use Rattle.chi_chan.specs.Seated.{seen, Seated};

    ghost Value = { List (Option (List Offer)) };

    ghost view = { λ s. seen s.offers.slots s.seats.items };

    ghost invariant = { λ s. Seated s.offers.slots s.seats.items };
}

impl Seats {
    /// Nobody waits.
    pub(crate) fn new(alloc: Global) -> Seats
        ensures { result ≡ [] }
    {
        Seats {
            alloc,
            seats: Vec::new(alloc),
            offers: Slab::new(alloc),
        }
    }

    /// The offers of instance `pid`, if it waits.
    #[inline(always)]
    pub(crate) fn offers_of(&self, pid: u32) -> Option<&[Offer]>
        ensures { MatchOption result (held self.now pid ≡ None) (λ offers. held self.now pid ≡ Some offers.now) }
    {
        offers_at(&self.seats, &self.offers, pid)
    }

    /// Instance `pid`, which doesn't wait, waits with these offers.
    #[inline(always)]
    pub(crate) fn sit(&mut self, pid: u32, offers: &[Offer]) -> Result<(), NoMemory>
        requires waits { held self.old pid ≡ None }
        requires pid { pid < 100000 }
        ensures ok { OnOk result (Updates self.old self.new pid (Some offers.now)) }
        ensures err { OnErr result (SameOffers self.old self.new) }
        ensures within { length self.new ≤ 100000 }
    {
        wait(self.alloc, &mut self.seats, &mut self.offers, pid, offers)
    }

    /// Instance `pid` doesn't wait any more.
    #[inline(always)]
    pub(crate) fn rise(&mut self, pid: u32)
        requires { IsSome (held self.old pid) }
        ensures gone { Updates self.old self.new pid None }
        ensures within { length self.new ≤ 100000 }
    {
        leave_seat(self.alloc, &mut self.seats, &mut self.offers, pid);
    }
}

/// The offers of instance `pid`, if it waits.
#[inline(always)]
fn offers_at<'a>(seats: &Vec<Seat>, kept: &'a Slab<Offers>, pid: u32) -> Option<&'a [Offer]>
    requires { Seated kept.now.slots seats.now.items }
    ensures { MatchOption result (held (seen kept.now.slots seats.now.items) pid ≡ None) (λ offers. held (seen kept.now.slots seats.now.items) pid ≡ Some offers.now) }
{
    let seat = seat_of(seats, pid);
    if seat.waits {
        match kept.get(seat.key) {
            Some(offers) => Some(offers.as_slice()),
            None => unreachable!(),
        }
    } else {
        None
    }
}

/// How many seats there are.
#[inline(always)]
fn count(seats: &Vec<Seat>) -> usize
    ensures { result ≡ length seats.now.items }
{
    seats.len()
}

/// The seat of an instance. One that never waited has that of nobody.
#[inline(always)]
fn seat_of(seats: &Vec<Seat>, pid: u32) -> Seat
    ensures { result ≡ get_or seats.now.items pid nobody }
{
    match seats.get(pid as usize) {
        Some(seat) => *seat,
        None => Seat {
            key: 0,
            waits: false,
        },
    }
}

/// An instance waits, or not.
#[inline(always)]
fn mark(seats: &mut Vec<Seat>, pid: u32, key: usize, waits: bool)
    requires { pid < length seats.old.items }
    ensures { seats.new.items ≡ slice_set seats.old.items pid (seat key waits) }
{
    seats[pid as usize] = Seat { key, waits };
}

/// An instance waits with these offers.
#[inline(always)]
fn wait(
    alloc: Global,
    seats: &mut Vec<Seat>,
    kept: &mut Slab<Offers>,
    pid: u32,
    offers: &[Offer],
) -> Result<(), NoMemory>
    requires seated { Seated kept.old.slots seats.old.items }
    requires absent { held (seen kept.old.slots seats.old.items) pid ≡ None }
    requires pid { pid < 100000 }
    ensures seated { Seated kept.new.slots seats.new.items }
    ensures ok { OnOk result (Updates (seen kept.old.slots seats.old.items) (seen kept.new.slots seats.new.items) pid (Some offers.now)) }
    ensures err { OnErr result (SameOffers (seen kept.old.slots seats.old.items) (seen kept.new.slots seats.new.items)) }
{
    make_room(alloc, seats, kept, pid)?;
    take_seat(seats, kept, pid, offers)
}

/// A seat for an instance.
#[inline(always)]
fn make_room(
    alloc: Global,
    seats: &mut Vec<Seat>,
    kept: &mut Slab<Offers>,
    pid: u32,
) -> Result<(), NoMemory>
    requires pid { pid < 100000 }
    requires seated { Seated kept.old.slots seats.old.items }
    ensures seated { Seated kept.new.slots seats.new.items }
    ensures same { SameOffers (seen kept.old.slots seats.old.items) (seen kept.new.slots seats.new.items) }
    ensures room { OnOk result (pid < length seats.new.items) }
{
    if pid as usize >= count(seats) {
        return seat_all(alloc, seats, kept, pid);
    }
    Ok(())
}

/// Seats for all instances up to number `pid`.
#[inline(never)]
fn seat_all(
    alloc: Global,
    seats: &mut Vec<Seat>,
    kept: &mut Slab<Offers>,
    pid: u32,
) -> Result<(), NoMemory>
    requires pid { pid < 100000 }
    requires seated { Seated kept.old.slots seats.old.items }
    ensures seated { Seated kept.new.slots seats.new.items }
    ensures same { SameOffers (seen kept.old.slots seats.old.items) (seen kept.new.slots seats.new.items) }
    ensures room { OnOk result (pid < length seats.new.items) }
{
    for _more in seats.len()..pid as usize + 1 {
        seats.reserve(1)?;
        let key = kept.insert(Offers {
            offers: Vec::new(alloc),
        })?;
        seats.push_reserved(Seat { key, waits: false });
    }
    Ok(())
}

/// An instance that has a seat waits with these offers.
#[inline(always)]
fn take_seat(
    seats: &mut Vec<Seat>,
    kept: &mut Slab<Offers>,
    pid: u32,
    offers: &[Offer],
) -> Result<(), NoMemory>
    requires seated { Seated kept.old.slots seats.old.items }
    requires absent { held (seen kept.old.slots seats.old.items) pid ≡ None }
    requires room { pid < length seats.old.items }
    ensures seated { Seated kept.new.slots seats.new.items }
    ensures ok { OnOk result (Updates (seen kept.old.slots seats.old.items) (seen kept.new.slots seats.new.items) pid (Some offers.now)) }
    ensures err { OnErr result (SameOffers (seen kept.old.slots seats.old.items) (seen kept.new.slots seats.new.items)) }
{
    let key = seat_of(seats, pid).key;
    fill(kept, key, offers)?;
    mark(seats, pid, key, true);
    Ok(())
}

/// An instance doesn't wait any more.
#[inline(always)]
fn leave_seat(alloc: Global, seats: &mut Vec<Seat>, kept: &mut Slab<Offers>, pid: u32)
    requires seated { Seated kept.old.slots seats.old.items }
    requires waits { IsSome (held (seen kept.old.slots seats.old.items) pid) }
    ensures seated { Seated kept.new.slots seats.new.items }
    ensures gone { Updates (seen kept.old.slots seats.old.items) (seen kept.new.slots seats.new.items) pid None }
{
    let key = seat_of(seats, pid).key;
    mark(seats, pid, key, false);
    empty(alloc, kept, key);
}

/// These offers stand in an entry of the slab.
#[inline(always)]
fn fill(kept: &mut Slab<Offers>, key: usize, offers: &[Offer]) -> Result<(), NoMemory>
    requires { IsSome (get kept.old key) }
    ensures set { OnOk result (get kept.new key ≡ Some offers.now) }
    ensures some { IsSome (get kept.new key) }
    ensures others { (k : ℕ) → k ≢ key → get kept.new k ≡ get kept.old k }
{
    match kept.get_mut(key) {
        Some(list) => list.set(offers),
        None => Ok(()),
    }
}

/// An entry of the slab gives a large room back.
#[inline(always)]
fn empty(alloc: Global, kept: &mut Slab<Offers>, key: usize)
    requires { IsSome (get kept.old key) }
    ensures some { IsSome (get kept.new key) }
    ensures others { (k : ℕ) → k ≢ key → get kept.new k ≡ get kept.old k }
{
    match kept.get_mut(key) {
        Some(list) => list.give_back(alloc),
        None => {}
    }
}
