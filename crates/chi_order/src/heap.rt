ghost use Rattle.std.specs.Prelude.{◌≡◌, ℕ, ◌+◌, ◌*◌, ◌^◌, ◌<◌, ◌≤◌, length, slice_set, true, false, vec_capacity};
ghost use Rattle.chi_order.specs.Heaped.{entry, place, Before, Placed, Hole, Apart, Over, Under, Fills, Takes, IsHeap};

use crate::steps::Steps;
use std::sync::ledger::Ledger;

/// The place of a number that has no due time.
pub const NOWHERE: u32 = 4_294_967_295;

/// A number and its due time.
#[derive(Clone, Copy, Debug)]
pub struct Due {
    pub time: i64,
    pub number: u32,
}

/// How many entries the heap has.
#[inline(always)]
pub(crate) fn size(dues: &Vec<Due>) -> usize
    ensures { result ≡ length dues.now.items }
{
    dues.len()
}

/// The entry of a place. The entries under place `i` stand in the places `2 * i + 1` and `2 * i + 2`.
#[inline(always)]
pub(crate) fn due_at(dues: &Vec<Due>, at: usize) -> Due
    requires { at < length dues.now.items }
    ensures { result ≡ entry dues.now.items at }
{
    dues[at]
}

/// Where the entry of a number stands.
#[inline(always)]
pub(crate) fn place_of(places: &Vec<u32>, number: u32) -> u32
    ensures { result ≡ place places.now.items number }
{
    match places.get(number as usize) {
        Some(at) => *at,
        None => NOWHERE,
    }
}

/// Whether one entry is due before another: earlier, or at the same time with a lesser number.
#[inline(always)]
fn is_before(a: Due, b: Due) -> bool
    ensures yes { result ≡ true → Before a b }
    ensures no { result ≡ false → Before b a }
{
    a.time < b.time || (a.time == b.time && a.number < b.number)
}

/// Puts an entry into a place.
#[inline(always)]
fn stand(dues: &mut Vec<Due>, places: &mut Vec<u32>, at: usize, due: Due)
    requires within { at < length dues.old.items }
    requires few { length dues.old.items ≤ NOWHERE }
    requires room { due.number < length places.old.items }
    ensures dues { dues.new.items ≡ slice_set dues.old.items at due }
    ensures places { places.new.items ≡ slice_set places.old.items due.number at }
    ensures capacity { vec_capacity dues.new ≡ vec_capacity dues.old }
{
    dues[at] = due;
    places[due.number as usize] = at as u32;
}

/// Fills the hole in a place with an entry: those over it that are due later come down first.
#[inline(always)]
pub(crate) fn rise<L: Ledger>(
    dues: &mut Vec<Due>,
    places: &mut Vec<u32>,
    mut at: usize,
    due: Due,
    steps: &mut Steps<L>,
)
    requires hole { Hole dues.old.items places.old.items at due.number }
    requires apart { Apart dues.old.items at }
    requires over { Over dues.old.items at due }
    ensures filled { Fills due dues.old.items places.old.items dues.new.items places.new.items }
    ensures capacity { vec_capacity dues.new ≡ vec_capacity dues.old }
    ensures cost { (k : ℕ) → length dues.old.items < 2 ^ k → steps.new ≤ steps.old + k }
{
    while at > 0 {
        let above = due_at(dues, (at - 1) / 2);
        steps.tick();
        if !is_before(due, above) {
            stand(dues, places, at, due);
            return;
        }
        stand(dues, places, at, above);
        at = (at - 1) / 2;
    }
    stand(dues, places, at, due);
}

/// Of the two places under a hole, the one whose entry is before the other's.
#[inline(always)]
fn lesser<L: Ledger>(dues: &Vec<Due>, child: usize, steps: &mut Steps<L>) -> usize
    requires { child < length dues.now.items }
    ensures within { result < length dues.now.items }
    ensures either { (child ≤ result) × (result ≤ child + 1) }
    ensures first { Before (entry dues.now.items result) (entry dues.now.items child) }
    ensures second { child + 1 < length dues.now.items → Before (entry dues.now.items result) (entry dues.now.items (child + 1)) }
    ensures cost { steps.new ≤ steps.old + 1 }
{
    let other = child + 1;
    if other < size(dues) {
        steps.tick();
        if is_before(due_at(dues, other), due_at(dues, child)) {
            return other;
        }
    }
    child
}

/// Fills the hole with an entry: those under it that are due earlier come up first.
#[inline(always)]
fn sink<L: Ledger>(
    dues: &mut Vec<Due>,
    places: &mut Vec<u32>,
    mut at: usize,
    due: Due,
    steps: &mut Steps<L>,
)
    requires hole { Hole dues.old.items places.old.items at due.number }
    requires apart { Apart dues.old.items at }
    requires under { Under dues.old.items at due }
    ensures filled { Fills due dues.old.items places.old.items dues.new.items places.new.items }
    ensures capacity { vec_capacity dues.new ≡ vec_capacity dues.old }
    ensures cost { (k : ℕ) → length dues.old.items < 2 ^ k → steps.new ≤ steps.old + 2 * k }
{
    while 2 * at + 1 < size(dues) {
        let child = lesser(dues, 2 * at + 1, steps);
        let below = due_at(dues, child);
        steps.tick();
        if !is_before(below, due) {
            stand(dues, places, at, due);
            return;
        }
        stand(dues, places, at, below);
        at = child;
    }
    stand(dues, places, at, due);
}

/// Fills the hole with an entry, which may belong over it or under it.
#[inline(always)]
pub(crate) fn settle<L: Ledger>(
    dues: &mut Vec<Due>,
    places: &mut Vec<u32>,
    at: usize,
    due: Due,
    steps: &mut Steps<L>,
)
    requires hole { Hole dues.old.items places.old.items at due.number }
    requires apart { Apart dues.old.items at }
    ensures filled { Fills due dues.old.items places.old.items dues.new.items places.new.items }
    ensures capacity { vec_capacity dues.new ≡ vec_capacity dues.old }
    ensures cost { (k : ℕ) → length dues.old.items < 2 ^ k → steps.new ≤ steps.old + (2 * k + 2) }
{
    if at > 0 {
        steps.tick();
        if is_before(due, due_at(dues, (at - 1) / 2)) {
            rise(dues, places, at, due, steps);
            return;
        }
    }
    sink(dues, places, at, due, steps);
}

/// Takes out the entry of a number, which stands in this place.
#[inline(always)]
pub(crate) fn take_out<L: Ledger>(
    dues: &mut Vec<Due>,
    places: &mut Vec<u32>,
    at: usize,
    number: u32,
    steps: &mut Steps<L>,
)
    requires placed { Placed dues.old.items places.old.items }
    requires heap { IsHeap dues.old.items }
    requires few { length dues.old.items ≤ NOWHERE }
    requires room { number < length places.old.items }
    requires place { place places.old.items number ≡ at }
    requires some { at < length dues.old.items }
    ensures taken { Takes number dues.old.items places.old.items dues.new.items places.new.items }
    ensures capacity { vec_capacity dues.new ≡ vec_capacity dues.old }
    ensures cost { (k : ℕ) → length dues.old.items < 2 ^ k → steps.new ≤ steps.old + (2 * k + 2) }
{
    let end = size(dues) - 1;
    let last = due_at(dues, end);
    dues.truncate(end);
    places[number as usize] = NOWHERE;
    if at < end {
        settle(dues, places, at, last, steps);
    }
}
