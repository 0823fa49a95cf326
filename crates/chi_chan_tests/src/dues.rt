ghost use Rattle.std.specs.Prelude.{◌≡◌, ◌<◌, ◌≤◌, length};

use crate::random::{ROOMS, Random};
use chi_base::NoMemory;
use chi_order::{Dues, Steps};
use std::alloc::Global;
use std::marker::{Brand, Model};
use std::sync::ledger::{Blank, Ledger};
use std::test::Fail;

/// Due times, and a vector sorted by time and then by number that is to have the same.
#[derive(Drop)]
struct Tried {
    dues: Dues,
    twin: Vec<(i64, u32)>,
    room: u32,
}

impl Model for Tried {
    ghost use Rattle.std.specs.Prelude.{◌≤◌, length, List, Option, ℤ};

    ghost Value = { List (Option ℤ) };

    ghost view = { λ t. t.dues };

    ghost invariant = { λ t. t.room ≤ length t.dues };
}

fn with_room(alloc: Global, room: u32) -> Result<Tried, NoMemory> {
    let mut dues = Dues::new(alloc);
    dues.reserve(room)?;
    Ok(Tried {
        dues,
        twin: Vec::new(alloc),
        room,
    })
}

/// Where an entry stands in a sorted vector, or would stand.
fn place_of(twin: &Vec<(i64, u32)>, due: i64, number: u32) -> usize {
    for (place, own) in twin.iter().enumerate() {
        if own.0 > due || (own.0 == due && own.1 >= number) {
            return place;
        }
    }
    twin.len()
}

fn remove(twin: &mut Vec<(i64, u32)>, number: u32) {
    let mut found = None;
    for (place, own) in twin.iter().enumerate() {
        if own.1 == number {
            found = Some(place);
        }
    }
    if let Some(place) = found {
        if place < twin.len() {
            twin.remove(place);
        }
    }
}

/// The due time of a number becomes another one.
fn again<L: Ledger>(dues: &mut Dues, number: u32, due: i64, steps: &mut Steps<L>)
    requires { number < length dues.old }
    ensures { length dues.new ≡ length dues.old }
{
    dues.withdraw(number, steps);
    dues.put(number, due, steps);
}

impl Tried {
    fn withdraw<L: Ledger>(&mut self, number: u32, steps: &mut Steps<L>) {
        self.dues.withdraw(number, steps);
        remove(&mut self.twin, number);
    }

    /// A number's due time becomes another one.
    fn put<L: Ledger>(
        &mut self,
        number: u32,
        due: i64,
        steps: &mut Steps<L>,
    ) -> Result<(), NoMemory> {
        if number >= self.room {
            return Ok(());
        }
        again(&mut self.dues, number, due, steps);
        remove(&mut self.twin, number);
        let place = place_of(&self.twin, due, number);
        if place <= self.twin.len() {
            self.twin.insert(place, (due, number))?;
        }
        Ok(())
    }

    fn widen(&mut self, room: u32) -> Result<(), NoMemory> {
        if self.room < room {
            self.dues.reserve(room)?;
            self.room = room;
        }
        Ok(())
    }

    fn agrees(&self) -> bool {
        match (self.dues.least(), self.twin.first()) {
            (None, None) => true,
            (Some((due, number)), Some(own)) => due == own.0 && number == own.1,
            _ => false,
        }
    }
}

/// Some thousands of random calls, with few different times and with many, and then all due times in order.
fn random_calls<L: Ledger>(
    alloc: Global,
    room: u32,
    times: u32,
    blank: Blank,
) -> Result<bool, NoMemory>
    requires name { blank.name ≡ L.name }
    requires parts { blank.parts ≡ L.parts }
    requires some { 0 < L.parts }
    requires times { 0 < times }
{
    let mut steps = Steps::<L>::new(blank);
    let mut tried = with_room(alloc, room)?;
    let mut random = Random::new();
    for call in 0..3_000u32 {
        if room > 0 {
            let number = random.next() % room;
            if call % 3 == 0 {
                tried.withdraw(number, &mut steps);
            } else {
                let due = (random.next() % times) as i64 - 50;
                tried.put(number, due, &mut steps)?;
            }
        }
        if !tried.agrees() {
            return Ok(false);
        }
    }
    tried.widen(room.saturating_add(1))?;
    for _call in 0..3_001u32 {
        match tried.dues.least() {
            Some((_, number)) => tried.withdraw(number, &mut steps),
            None => return Ok(tried.agrees()),
        }
        if !tried.agrees() {
            return Ok(false);
        }
    }
    Ok(false)
}

#[test]
fn the_least_is_that_of_a_sorted_vector(rt: HostRuntime) -> Result<(), Fail> {
    for room in &ROOMS {
        for times in &[1, 7, 1_000_000] {
            let agrees = random_calls::<Brand>(rt.alloc(), *room, *times, Blank::new(1))?;
            assert!(rt; agrees, "room {room}, times {times}");
        }
    }
    Ok(())
}
