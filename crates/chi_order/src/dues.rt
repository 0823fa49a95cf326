ghost use Rattle.std.specs.Prelude.{◌≡◌, ◌-◌, ◌++◌, ◌<◌, ◌≤◌, [], None, Some, length, slice_set, MatchOption, OnOk, OnErr, vec_capacity, replicate};
ghost use Rattle.chi_order.specs.Bounded.{WithinDigits};
ghost use Rattle.chi_order.specs.Dated.{due_of, IsLeast, NoneDue, SameDues};

use crate::heap::{Due, NOWHERE, due_at, place_of, rise, size, take_out};
use crate::steps::Steps;
use chi_base::NoMemory;
use std::alloc::Global;
use std::marker::Model;
use std::sync::ledger::Ledger;

/// At most one due time for each number below some room. Contracts see it as a due time or nothing for each of them.
#[derive(Debug, Drop)]
pub struct Dues {
    /// A heap, whose least entry stands first. It has room for an entry of each number.
    dues: Vec<Due>,
    /// For each number the place of its entry in the heap.
    places: Vec<u32>,
}

impl Model for Dues {
    ghost use Rattle.std.specs.Prelude.{List, Option, ℤ, vec_capacity};
    ghost use Rattle.chi_order.specs.Heaped.{times, IsDues};

    ghost Value = { List (Option ℤ) };

    ghost view = { λ d. times d.dues.items d.places.items };

    ghost invariant = { λ d. IsDues d.dues.items d.places.items (vec_capacity d.dues) };
}

impl Dues {
    /// No due times, and no room. It takes no memory.
    pub fn new(alloc: Global) -> Dues
        ensures { result ≡ [] }
    {
        Dues {
            dues: Vec::new(alloc),
            places: Vec::new(alloc),
        }
    }

    /// The least due time, and the least number that has it.
    #[inline(always)]
    pub fn least(&self) -> Option<(i64, u32)>
        ensures { MatchOption result (NoneDue self.now) (λ least. IsLeast self.now least.0 least.1) }
    {
        if size(&self.dues) == 0 {
            return None;
        }
        let due = due_at(&self.dues, 0);
        Some((due.time, due.number))
    }

    /// Gives a number that has none a due time.
    #[inline(always)]
    pub fn put<L: Ledger>(&mut self, number: u32, due: i64, steps: &mut Steps<L>)
        requires room { number < length self.old }
        requires none { due_of self.old number ≡ None }
        ensures put { self.new ≡ slice_set self.old number (Some due) }
        ensures cost { WithinDigits (length self.old) steps.old steps.new }
    {
        let entry = Due { time: due, number };
        let at = size(&self.dues);
        self.dues.push_reserved(entry);
        rise(&mut self.dues, &mut self.places, at, entry, steps);
    }

    /// Takes a number's due time away, if it has one.
    #[inline(always)]
    pub fn withdraw<L: Ledger>(&mut self, number: u32, steps: &mut Steps<L>)
        ensures taken { self.new ≡ slice_set self.old number None }
        ensures cost { WithinDigits (length self.old) steps.old steps.new }
    {
        let at = place_of(&self.places, number);
        if at != NOWHERE {
            take_out(&mut self.dues, &mut self.places, at as usize, number, steps);
        }
    }

    /// Room for so many numbers at least.
    pub fn reserve(&mut self, numbers: u32) -> Result<(), NoMemory>
        ensures room { OnOk result (numbers ≤ length self.new) }
        ensures more { length self.old ≤ length self.new }
        ensures kept { SameDues self.old self.new }
    {
        let old = room(&self.places);
        if numbers as usize > old {
            widen(&mut self.dues, &mut self.places, numbers)?;
        }
        Ok(())
    }
}

/// For how many numbers there is room.
#[inline(always)]
fn room(places: &Vec<u32>) -> usize
    ensures { result ≡ length places.now.items }
{
    places.len()
}

/// Room for more numbers, which have no due times.
fn widen(dues: &mut Vec<Due>, places: &mut Vec<u32>, numbers: u32) -> Result<(), NoMemory>
    requires few { length dues.old.items ≤ numbers }
    requires more { length places.old.items ≤ numbers }
    ensures dues { dues.new.items ≡ dues.old.items }
    ensures capacity { vec_capacity dues.old ≤ vec_capacity dues.new }
    ensures room { OnOk result (numbers ≤ vec_capacity dues.new) }
    ensures wide { OnOk result (places.new.items ≡ places.old.items ++ replicate (numbers - length places.old.items) NOWHERE) }
    ensures err { OnErr result (places.new.items ≡ places.old.items) }
{
    let more = numbers as usize - size(dues);
    dues.reserve(more)?;
    let few = numbers as usize - room(places);
    places.reserve(few)?;
    for _more in 0..few {
        places.push_reserved(NOWHERE);
    }
    Ok(())
}
