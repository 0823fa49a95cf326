//! Due times: of each instance that waits with delays, none of which is due yet, the least.

ghost use Rattle.std.specs.Prelude.{◌≡◌, ℕ, ◌<◌, ℤ, Option, Some, None, MatchOption, length};
ghost use Rattle.chi_order.specs.Dated.{due_of, IsLeast, NoneDue};
ghost use Rattle.chi_machine_agenda.specs.Timed.{is_due, sooner, AreWoken, Awaits, Dates, Moves};

use chi_chan::Offer;
use chi_order::{Dues, Ranks, Steps};
use std::marker::Brand;
use std::sync::ledger::{Blank, Ledger};

/// The lesser of the two.
#[inline(always)]
fn sooner(due: &i64, least: Option<i64>) -> i64
    ensures { result ≡ sooner due.now least }
{
    match least {
        Some(other) => { if other < *due { other } else { *due } }
        None => *due,
    }
}

/// Whether a time is due.
#[inline(always)]
fn is_due(clock: i64, due: &i64) -> bool
    ensures { result ≡ is_due clock (Some due.now) }
{
    clock >= *due
}

/// The least due time among these offers, unless one of them is due.
#[inline(always)]
fn awaited(clock: i64, offers: &[Offer]) -> Option<i64>
    ensures { Awaits clock (Some offers.now) result }
{
    let mut least = None;
    for offer in offers {
        match offer {
            Offer::Send(_) => {}
            Offer::Receive(_) => {}
            Offer::Delay(due) => {
                if is_due(clock, due) {
                    return None;
                }
                least = Some(sooner(due, least));
            }
        }
    }
    least
}

/// An instance that waits with these offers has the due time that it waits for. Nobody counts the steps.
#[inline(always)]
pub(crate) fn date<L: Ledger>(dues: &mut Dues, clock: i64, pid: u32, offers: &[Offer], blank: Blank)
    requires name { blank.name ≡ L.name }
    requires parts { blank.parts ≡ L.parts }
    requires some { 0 < L.parts }
    requires room { pid < length dues.old }
    requires none { due_of dues.old pid ≡ None }
    ensures { (due : Option ℤ) × Awaits clock (Some offers.now) due × Dates dues.old dues.new pid due }
{
    if let Some(due) = awaited(clock, offers) {
        let mut steps = Steps::<L>::new(blank);
        dues.put(pid, due, &mut steps);
    }
}

/// An instance waits for no time.
#[inline(always)]
pub(crate) fn undate<L: Ledger>(dues: &mut Dues, pid: u32, blank: Blank)
    requires name { blank.name ≡ L.name }
    requires parts { blank.parts ≡ L.parts }
    requires some { 0 < L.parts }
    requires room { pid < length dues.old }
    ensures { Dates dues.old dues.new pid None }
{
    let mut steps = Steps::<L>::new(blank);
    dues.withdraw(pid, &mut steps);
}

/// All that are due by this time are ready, and wait for no time.
pub(crate) fn wake_all<L: Ledger>(ready: &mut Ranks, dues: &mut Dues, clock: i64, blank: Blank)
    requires name { blank.name ≡ L.name }
    requires parts { blank.parts ≡ L.parts }
    requires some { 0 < L.parts }
    requires room { (p : ℕ) (due : ℤ) → due_of dues.old p ≡ Some due → p < length ready.old }
    ensures woken { AreWoken clock ready.old ready.new dues.old dues.new }
    ensures ready { length ready.new ≡ length ready.old }
    ensures dues { length dues.new ≡ length dues.old }
{
    let mut steps = Steps::<L>::new(blank);
    while let Some((due, pid)) = dues.least() {
        if !is_due(clock, &due) {
            return;
        }
        dues.withdraw(pid, &mut steps);
        ready.insert(pid);
    }
}

/// The time goes on to the least due time, if there is one, and all that are due then are ready.
pub(crate) fn go_to_next(clock: &mut i64, ready: &mut Ranks, dues: &mut Dues)
    requires { (p : ℕ) (due : ℤ) → due_of dues.old p ≡ Some due → p < length ready.old }
    ensures { Moves clock.old ready.old dues.old clock.new ready.new dues.new }
{
    let due = match dues.least() {
        Some((due, _)) => due,
        None => return,
    };
    wake_all::<Brand>(ready, dues, due, Blank::new(1));
    *clock = due;
}

/// The least due time, if there is one.
#[inline(always)]
pub(crate) fn least_due(dues: &Dues) -> Option<i64>
    ensures { MatchOption result (NoneDue dues.now) (λ due. (p : ℕ) × IsLeast dues.now due p) }
{
    match dues.least() {
        Some((due, _)) => Some(due),
        None => None,
    }
}
