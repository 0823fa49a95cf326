ghost use Rattle.std.specs.Prelude.{◌≡◌, true, false, None, IsSome};
ghost use Rattle.chi_chan.specs.Held.{held};

use chi_base::NoMemory;
use chi_chan::{Choice, Offer, Party, Waiting};
use std::alloc::Global;

/// Whether an instance waits.
fn waits(waiting: &Waiting, pid: u32) -> bool
    ensures yes { result ≡ true → IsSome (held waiting.now pid) }
    ensures no { result ≡ false → held waiting.now pid ≡ None }
{
    match waiting.offers_of(pid) {
        Some(_) => true,
        None => false,
    }
}

/// An instance waits with these offers, if it didn't and may.
pub fn offer(waiting: &mut Waiting, pid: u32, offers: &[Offer]) -> Result<(), NoMemory> {
    if pid < 100_000 && offers.len() <= 65_536 {
        if !waits(waiting, pid) {
            return waiting.offer(pid, offers);
        }
    }
    Ok(())
}

/// An instance doesn't wait any more.
pub fn withdraw(waiting: &mut Waiting, pid: u32) {
    if waits(waiting, pid) {
        waiting.withdraw(pid);
    }
}

/// An instance doesn't wait any more. Its own offers are given with it, copied, since they are lent by what changes.
pub fn withdraw_lent(alloc: Global, waiting: &mut Waiting, pid: u32) -> Result<(), NoMemory> {
    let copied = match waiting.offers_of(pid) {
        Some(offers) => Vec::from_slice(alloc, offers)?,
        None => return Ok(()),
    };
    waiting.withdraw_with(pid, copied.as_slice());
    Ok(())
}

/// How many options an instance has, by the offers that are lent.
pub fn count_lent(waiting: &Waiting, pid: u32, clock: i64) -> u64 {
    match waiting.offers_of(pid) {
        Some(offers) => waiting.count_with(pid, clock, offers),
        None => 0,
    }
}

/// Option number `i` of an instance, if it has so many.
pub fn option(waiting: &Waiting, pid: u32, clock: i64, i: u64) -> Option<Choice> {
    if i < waiting.option_count(pid, clock) {
        Some(waiting.option_at(pid, clock, i))
    } else {
        None
    }
}

/// Whether this is the pair of an own alternative with a party.
pub fn is_pair(choice: Option<Choice>, own: u32, pid: u32, alternative: u32) -> bool {
    match choice {
        Some(Choice::Pair(a, party)) => a == own && is_party(&party, pid, alternative),
        _ => false,
    }
}

pub fn is_party(party: &Party, pid: u32, alternative: u32) -> bool {
    party.pid == pid && party.alternative == alternative
}
