//! Which instances are ready: those that may act.

ghost use Rattle.std.specs.Prelude.{◌≡◌, ◌<◌, true, Some, length, slice_set};
ghost use Rattle.chi_chan.specs.Held.{held};
ghost use Rattle.chi_machine_agenda.specs.Asking.{asks, told_all, told_by, told_for, AreWithin, AllWithin};

use chi_chan::{Offer, Party, Waiting};
use chi_order::Ranks;

/// An instance is ready, or isn't.
#[inline(always)]
pub(crate) fn tell(ready: &mut Ranks, pid: u32, is_ready: bool)
    requires { pid < length ready.old }
    ensures { ready.new ≡ slice_set ready.old pid is_ready }
{
    if is_ready {
        ready.insert(pid);
    } else {
        ready.remove(pid);
    }
}

/// Whether an instance that waits has an option.
#[inline(always)]
fn asks(waiting: &Waiting, clock: i64, pid: u32) -> bool
    ensures { result ≡ asks waiting.now clock pid }
{
    waiting.option_count(pid, clock) > 0
}

/// Whether an instance that waits with these offers has an option.
#[inline(always)]
pub(crate) fn asks_with(waiting: &Waiting, clock: i64, pid: u32, offers: &[Offer]) -> bool
    requires { held waiting.now pid ≡ Some offers.now }
    ensures { result ≡ asks waiting.now clock pid }
{
    waiting.count_with(pid, clock, offers) > 0
}

/// The instances of these parties are ready.
#[inline(always)]
fn free_all(ready: &mut Ranks, parties: &[Party])
    requires { AreWithin (length ready.old) parties.now }
    ensures { ready.new ≡ told_all (λ p. true) parties.now ready.old }
{
    for party in parties {
        ready.insert(party.pid);
    }
}

/// The instances of these parties are asked again.
#[inline(always)]
fn ask_all(waiting: &Waiting, clock: i64, ready: &mut Ranks, parties: &[Party])
    requires { AreWithin (length ready.old) parties.now }
    ensures { ready.new ≡ told_all (asks waiting.now clock) parties.now ready.old }
{
    for party in parties {
        tell(ready, party.pid, asks(waiting, clock, party.pid));
    }
}

/// Those that send on the channel from which an offer receives are ready.
#[inline(always)]
fn free_by(waiting: &Waiting, ready: &mut Ranks, offer: &Offer)
    requires { AllWithin (length ready.old) waiting.now }
    ensures { ready.new ≡ told_by (λ p. true) waiting.now offer.now ready.old }
{
    match offer {
        Offer::Send(_) => {}
        Offer::Receive(channel) => free_all(ready, waiting.senders(*channel)),
        Offer::Delay(_) => {}
    }
}

/// Those that send on the channel from which an offer receives are asked again.
#[inline(always)]
fn ask_by(waiting: &Waiting, clock: i64, ready: &mut Ranks, offer: &Offer)
    requires { AllWithin (length ready.old) waiting.now }
    ensures { ready.new ≡ told_by (asks waiting.now clock) waiting.now offer.now ready.old }
{
    match offer {
        Offer::Send(_) => {}
        Offer::Receive(channel) => ask_all(waiting, clock, ready, waiting.senders(*channel)),
        Offer::Delay(_) => {}
    }
}

/// Those that send on channels from which these offers receive are ready.
#[inline(always)]
pub(crate) fn free_for(waiting: &Waiting, ready: &mut Ranks, offers: &[Offer])
    requires { AllWithin (length ready.old) waiting.now }
    ensures { ready.new ≡ told_for (λ p. true) waiting.now offers.now ready.old }
{
    for offer in offers {
        free_by(waiting, ready, offer);
    }
}

/// Those that send on channels from which these offers received are asked again.
#[inline(always)]
pub(crate) fn ask_for(waiting: &Waiting, clock: i64, ready: &mut Ranks, offers: &[Offer])
    requires { AllWithin (length ready.old) waiting.now }
    ensures { ready.new ≡ told_for (asks waiting.now clock) waiting.now offers.now ready.old }
{
    for offer in offers {
        ask_by(waiting, clock, ready, offer);
    }
}
