ghost use Rattle.std.specs.Prelude.{◌≡◌, ◌<◌, ◌≤◌, length};

use crate::random::{ROOMS, Random};
use chi_base::NoMemory;
use chi_order::{Ranks, Steps};
use std::alloc::Global;
use std::marker::{Brand, Model};
use std::sync::ledger::{Blank, Ledger};
use std::test::Fail;

/// A set and a sorted vector that is to have the same members.
#[derive(Drop)]
struct Tried {
    ranks: Ranks,
    twin: Vec<u32>,
    room: u32,
}

impl Model for Tried {
    ghost use Rattle.std.specs.Prelude.{◌≤◌, length, List, Bool};

    ghost Value = { List Bool };

    ghost view = { λ t. t.ranks };

    ghost invariant = { λ t. t.room ≤ length t.ranks };
}

/// Where a number stands in a sorted vector, or would stand.
fn place_of(twin: &Vec<u32>, number: u32) -> usize {
    for (place, own) in twin.iter().enumerate() {
        if *own >= number {
            return place;
        }
    }
    twin.len()
}

fn with_room(alloc: Global, room: u32) -> Result<Tried, NoMemory> {
    let mut ranks = Ranks::new(alloc);
    ranks.reserve(room)?;
    Ok(Tried {
        ranks,
        twin: Vec::new(alloc),
        room,
    })
}

impl Tried {
    fn insert(&mut self, number: u32) {
        if number < self.room {
            self.ranks.insert(number);
        }
    }

    fn remove(&mut self, number: u32) {
        if number < self.room {
            self.ranks.remove(number);
        }
    }

    /// A member leaves, and a number that isn't one becomes one.
    fn turn(&mut self, number: u32) -> Result<(), NoMemory> {
        if number >= self.room {
            return Ok(());
        }
        let place = place_of(&self.twin, number);
        if self.ranks.contains(number) {
            self.ranks.remove(number);
            if place < self.twin.len() {
                self.twin.remove(place);
            }
        } else {
            self.ranks.insert(number);
            if place <= self.twin.len() {
                self.twin.insert(place, number)?;
            }
        }
        Ok(())
    }

    fn widen(&mut self, room: u32) -> Result<(), NoMemory> {
        if self.room < room {
            self.ranks.reserve(room)?;
            self.room = room;
        }
        Ok(())
    }
}

/// The member with so many smaller ones, if there is one.
fn nth<L: Ledger>(ranks: &Ranks, rank: u32, steps: &mut Steps<L>) -> Option<u32> {
    if rank < ranks.count() {
        Some(ranks.nth(rank, steps))
    } else {
        None
    }
}

/// Whether both have the same members.
fn agree<L: Ledger>(tried: &Tried, steps: &mut Steps<L>) -> bool {
    let mut rank = 0u32;
    for own in tried.twin.iter() {
        if nth(&tried.ranks, rank, steps) != Some(*own) {
            return false;
        }
        rank = rank.saturating_add(1);
    }
    tried.ranks.count() as usize == tried.twin.len()
}

/// Some thousands of random calls, all of them looked at, and then more room.
fn random_calls<L: Ledger>(alloc: Global, room: u32, blank: Blank) -> Result<bool, NoMemory>
    requires name { blank.name ≡ L.name }
    requires parts { blank.parts ≡ L.parts }
    requires some { 0 < L.parts }
{
    let mut steps = Steps::<L>::new(blank);
    let mut tried = with_room(alloc, room)?;
    let mut random = Random::new();
    for call in 0..3_000u32 {
        if room > 0 {
            tried.turn(random.next() % room)?;
        }
        if call % 64 == 0 && !agree(&tried, &mut steps) {
            return Ok(false);
        }
    }
    tried.widen(room.saturating_mul(5).saturating_add(1))?;
    Ok(agree(&tried, &mut steps))
}

/// All numbers below the room come, and then every other one goes.
fn all_numbers<L: Ledger>(alloc: Global, room: u32, blank: Blank) -> Result<bool, NoMemory>
    requires name { blank.name ≡ L.name }
    requires parts { blank.parts ≡ L.parts }
    requires some { 0 < L.parts }
{
    let mut steps = Steps::<L>::new(blank);
    let mut tried = with_room(alloc, room)?;
    for number in 0..room {
        tried.insert(number);
    }
    for rank in 0..room {
        if nth(&tried.ranks, rank, &mut steps) != Some(rank) {
            return Ok(false);
        }
    }
    for number in 0..room {
        if number % 2 == 0 {
            tried.remove(number);
        }
    }
    for rank in 0..room / 2 {
        if nth(&tried.ranks, rank, &mut steps) != Some(2 * rank + 1) {
            return Ok(false);
        }
    }
    Ok(tried.ranks.count() == room / 2 && !tried.ranks.contains(room))
}

#[test]
fn members_are_those_of_a_sorted_vector(rt: HostRuntime) -> Result<(), Fail> {
    for room in &ROOMS {
        let agrees = random_calls::<Brand>(rt.alloc(), *room, Blank::new(1))?;
        assert!(rt; agrees, "room {room}");
    }
    Ok(())
}

#[test]
fn each_rank_has_its_number(rt: HostRuntime) -> Result<(), Fail> {
    for room in &ROOMS {
        let agrees = all_numbers::<Brand>(rt.alloc(), *room, Blank::new(1))?;
        assert!(rt; agrees, "room {room}");
    }
    Ok(())
}
