ghost use Rattle.std.specs.Prelude.{◌≡◌, ◌<◌, ◌≤◌, true, false, [], length, slice_get, slice_set, Some, OnOk, IfOk};
ghost use Rattle.chi_order.specs.Marked.{is_marked, members, NoMembers, SameMembers};
ghost use Rattle.chi_order.specs.Bounded.{WithinDigits};

use crate::bits::{bit_of, is_set, with_bit, without_bit};
use crate::steps::Steps;
use crate::tree::{recount, size, word_at, word_of, words_for};
use chi_base::NoMemory;
use std::alloc::Global;
use std::marker::Model;
use std::sync::ledger::Ledger;

/// A set of numbers below some room. Contracts see it as a truth value for each of them.
#[derive(Debug, Drop)]
pub struct Ranks {
    alloc: Global,
    /// A bit for each number, 64 in a word. There are no words, or a power of 4.
    words: Vec<u64>,
    /// How many numbers are in the set.
    count: u32,
    /// How many are under each node of a tree over the words: below node `n` stand the nodes `4 * n` to `4 * n + 3`.
    counts: Vec<u32>,
}

impl Model for Ranks {
    ghost use Rattle.std.specs.Prelude.{List, Bool};
    ghost use Rattle.chi_order.specs.Counted.{bits, IsCounted};

    ghost Value = { List Bool };

    ghost view = { λ r. bits r.words.items };

    ghost invariant = { λ r. IsCounted r.words.items r.count r.counts.items };
}

impl Ranks {
    /// The empty set, with no room. It takes no memory.
    pub fn new(alloc: Global) -> Ranks
        ensures { result ≡ [] }
    {
        Ranks {
            alloc,
            words: Vec::new(alloc),
            count: 0,
            counts: Vec::new(alloc),
        }
    }

    /// Whether a number is in the set.
    #[inline(always)]
    pub fn contains(&self, number: u32) -> bool
        ensures { result ≡ is_marked self.now number }
    {
        is_set(word_at(&self.words, number as usize / 64), number % 64)
    }

    /// How many numbers are in the set.
    #[inline(always)]
    pub fn count(&self) -> u32
        ensures { result ≡ length (members self.now) }
    {
        self.count
    }

    /// The member that has `rank` smaller ones.
    #[inline(always)]
    pub fn nth<L: Ledger>(&self, rank: u32, steps: &mut Steps<L>) -> u32
        requires { rank < length (members self.now) }
        ensures member { slice_get (members self.now) rank ≡ Some result }
        ensures cost { WithinDigits (length self.now) steps.old steps.new }
    {
        let branch = word_of(&self.words, &self.counts, rank, steps);
        let bit = bit_of(self.words[branch.start], rank - branch.seen, steps);
        branch.start as u32 * 64 + bit
    }

    /// The number is in the set, whether it was or not.
    #[inline(always)]
    pub fn insert(&mut self, number: u32)
        requires { number < length self.old }
        ensures { self.new ≡ slice_set self.old number true }
    {
        let place = number as usize / 64;
        let word = self.words[place];
        if !is_set(word, number % 64) {
            recount(&mut self.counts, size(&self.words), place, true);
            self.count += 1;
            self.words[place] = with_bit(word, number % 64);
        }
    }

    /// The number isn't in the set, whether it was or not.
    #[inline(always)]
    pub fn remove(&mut self, number: u32)
        requires { number < length self.old }
        ensures { self.new ≡ slice_set self.old number false }
    {
        let place = number as usize / 64;
        let word = self.words[place];
        if is_set(word, number % 64) {
            recount(&mut self.counts, size(&self.words), place, false);
            self.count -= 1;
            self.words[place] = without_bit(word, number % 64);
        }
    }

    /// Room for so many numbers at least. Room for more than 2 ^ 30 is refused as want of memory.
    pub fn reserve(&mut self, numbers: u32) -> Result<(), NoMemory>
        ensures room { OnOk result (numbers ≤ length self.new) }
        ensures more { length self.old ≤ length self.new }
        ensures kept { SameMembers self.old self.new }
    {
        let old = size(&self.words) * 64;
        if numbers as usize <= old {
            return Ok(());
        }
        let mut wider = Ranks::with_room(self.alloc, numbers)?;
        for number in 0..old as u32 {
            if self.contains(number) {
                wider.insert(number);
            }
        }
        *self = wider;
        Ok(())
    }

    /// The empty set, with room for so many numbers at least.
    fn with_room(alloc: Global, numbers: u32) -> Result<Ranks, NoMemory>
        ensures room { IfOk result (λ ranks. numbers ≤ length ranks) }
        ensures empty { IfOk result (λ ranks. NoMembers ranks) }
    {
        let words = words_for(numbers)?;
        Ok(Ranks {
            alloc,
            words: vec![in alloc; 0; words]?,
            count: 0,
            counts: vec![in alloc; 0; 2 * words]?,
        })
    }
}
