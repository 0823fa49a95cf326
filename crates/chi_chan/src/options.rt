ghost use Rattle.std.specs.Prelude.{◌≡◌, ◌<◌, ◌≤◌, ◌^◌, ℕ, ℤ, length, slice_get, Some};
ghost use Rattle.chi_chan.specs.Kept.{choices_by, choices_from};

use crate::lines::Lines;
use crate::offers::{Choice, Offer};

/// How many options instance `pid` has by one of its offers.
#[inline(always)]
fn count_by(receivers: &Lines, pid: u32, clock: i64, offer: &Offer) -> u64
    requires { pid < 100000 }
    ensures count { (a : ℕ) → result ≡ length (choices_by receivers.now clock pid a offer.now) }
    ensures within { result ≤ 2 ^ 33 }
{
    match offer {
        Offer::Send(channel) => receivers.others(*channel, pid),
        Offer::Receive(_) => 0,
        Offer::Delay(due) => { if clock < *due { 0 } else { 1 } }
    }
}

/// Option number `i` by that offer.
#[inline(always)]
fn choice_by(receivers: &Lines, pid: u32, alternative: u32, offer: &Offer, i: u64) -> Choice
    requires pid { pid < 100000 }
    requires some { (clock : ℤ) × (i < length (choices_by receivers.now clock pid alternative offer.now)) }
    ensures { (clock : ℤ) → i < length (choices_by receivers.now clock pid alternative offer.now) → slice_get (choices_by receivers.now clock pid alternative offer.now) i ≡ Some result }
{
    match offer {
        Offer::Send(channel) => Choice::Pair(alternative, receivers.other_at(*channel, pid, i)),
        Offer::Receive(_) => unreachable!(),
        Offer::Delay(_) => Choice::Wake(alternative),
    }
}

/// How many options instance `pid` has by these offers of its own.
#[inline(always)]
pub(crate) fn count_among(receivers: &Lines, pid: u32, clock: i64, offers: &[Offer]) -> u64
    requires pid { pid < 100000 }
    requires few { length offers.now ≤ 65536 }
    ensures { result ≡ length (choices_from receivers.now clock pid 0 offers.now) }
{
    let mut count = 0;
    for offer in offers {
        count += count_by(receivers, pid, clock, offer);
    }
    count
}

/// Option number `i` by these offers of its own.
#[inline(always)]
pub(crate) fn choice_among(
    receivers: &Lines,
    pid: u32,
    clock: i64,
    i: u64,
    offers: &[Offer],
) -> Choice
    requires pid { pid < 100000 }
    requires few { length offers.now ≤ 65536 }
    requires some { i < length (choices_from receivers.now clock pid 0 offers.now) }
    ensures { slice_get (choices_from receivers.now clock pid 0 offers.now) i ≡ Some result }
{
    let mut seen = 0;
    for (number, offer) in offers.iter().enumerate() {
        let count = count_by(receivers, pid, clock, offer);
        if i - seen < count {
            return choice_by(receivers, pid, number as u32, offer, i - seen);
        }
        seen += count;
    }
    unreachable!()
}
