//! Instances come to wait with offers, and go on: who is ready, and for which times is waited.

ghost use Rattle.std.specs.Prelude.{◌≡◌, ◌≤◌, [], ◌∷◌, None, Some, IfSome, length, OnErr, OnOk};
ghost use Rattle.chi_chan.specs.Held.{held};
ghost use Rattle.chi_order.specs.Dated.{due_of};
ghost use Rattle.chi_machine_agenda.specs.Meeting.{Comes, Goes, HasSeats, IsRefused};

use crate::marking::{ask_for, asks_with, free_for, tell};
use crate::timing::{date, undate};
use chi_base::NoMemory;
use chi_chan::{Offer, Waiting};
use chi_order::{Dues, Ranks};
use std::marker::Brand;
use std::sync::ledger::Blank;

/// Instance `pid` waits with these offers: those that send to it are ready, and it is where it has an option.
#[inline(always)]
fn come_with(
    clock: i64,
    waiting: &mut Waiting,
    ready: &mut Ranks,
    dues: &mut Dues,
    pid: u32,
    offers: &[Offer],
) -> Result<(), NoMemory>
    requires absent { held waiting.old pid ≡ None }
    requires few { length offers.now ≤ 65536 }
    requires seats { HasSeats pid waiting.old ready.old dues.old }
    requires none { due_of dues.old pid ≡ None }
    ensures ok { OnOk result (Comes clock pid offers.now waiting.old ready.old dues.old waiting.new ready.new dues.new) }
    ensures err { OnErr result (IsRefused waiting.old ready.old dues.old waiting.new ready.new dues.new) }
{
    waiting.offer(pid, offers)?;
    free_for(waiting, ready, offers);
    tell(ready, pid, asks_with(waiting, clock, pid, offers));
    date::<Brand>(dues, clock, pid, offers, Blank::new(1));
    Ok(())
}

/// The same with one offer: each kind has code of its own.
#[inline(always)]
fn come_alone(
    clock: i64,
    waiting: &mut Waiting,
    ready: &mut Ranks,
    dues: &mut Dues,
    pid: u32,
    offer: Offer,
) -> Result<(), NoMemory>
    requires absent { held waiting.old pid ≡ None }
    requires seats { HasSeats pid waiting.old ready.old dues.old }
    requires none { due_of dues.old pid ≡ None }
    ensures ok { OnOk result (Comes clock pid (offer ∷ []) waiting.old ready.old dues.old waiting.new ready.new dues.new) }
    ensures err { OnErr result (IsRefused waiting.old ready.old dues.old waiting.new ready.new dues.new) }
{
    match offer {
        Offer::Send(channel) => {
            come_with(clock, waiting, ready, dues, pid, &[Offer::Send(channel)])
        }
        Offer::Receive(channel) => {
            come_with(clock, waiting, ready, dues, pid, &[Offer::Receive(channel)])
        }
        Offer::Delay(due) => come_with(clock, waiting, ready, dues, pid, &[Offer::Delay(due)]),
    }
}

/// The same, whether there is one or more.
#[inline(always)]
pub(crate) fn come(
    clock: i64,
    waiting: &mut Waiting,
    ready: &mut Ranks,
    dues: &mut Dues,
    pid: u32,
    offers: &[Offer],
) -> Result<(), NoMemory>
    requires absent { held waiting.old pid ≡ None }
    requires few { length offers.now ≤ 65536 }
    requires seats { HasSeats pid waiting.old ready.old dues.old }
    requires none { due_of dues.old pid ≡ None }
    ensures ok { OnOk result (Comes clock pid offers.now waiting.old ready.old dues.old waiting.new ready.new dues.new) }
    ensures err { OnErr result (IsRefused waiting.old ready.old dues.old waiting.new ready.new dues.new) }
{
    match only_one(offers) {
        Some(offer) => come_alone(clock, waiting, ready, dues, pid, offer),
        None => come_with(clock, waiting, ready, dues, pid, offers),
    }
}

/// The only one of these offers, if there is one.
#[inline(always)]
fn only_one(offers: &[Offer]) -> Option<Offer>
    ensures { IfSome result (λ offer. offers.now ≡ offer ∷ []) }
{
    match offers {
        [offer] => Some(*offer),
        _ => None,
    }
}

/// Instance `pid`, which waits with these offers, goes on: it is ready, and those that sent to it are asked again.
#[inline(always)]
fn go_with(
    clock: i64,
    waiting: &mut Waiting,
    ready: &mut Ranks,
    dues: &mut Dues,
    pid: u32,
    offers: &[Offer],
)
    requires waits { held waiting.old pid ≡ Some offers.now }
    requires seats { HasSeats pid waiting.old ready.old dues.old }
    ensures { Goes clock pid offers.now waiting.old ready.old dues.old waiting.new ready.new dues.new }
{
    waiting.withdraw_with(pid, offers);
    ask_for(waiting, clock, ready, offers);
    ready.insert(pid);
    undate::<Brand>(dues, pid, Blank::new(1));
}

/// The same with one offer: each kind has code of its own.
#[inline(always)]
fn go_alone(
    clock: i64,
    waiting: &mut Waiting,
    ready: &mut Ranks,
    dues: &mut Dues,
    pid: u32,
    offer: Offer,
)
    requires waits { held waiting.old pid ≡ Some (offer ∷ []) }
    requires seats { HasSeats pid waiting.old ready.old dues.old }
    ensures { Goes clock pid (offer ∷ []) waiting.old ready.old dues.old waiting.new ready.new dues.new }
{
    match offer {
        Offer::Send(channel) => {
            go_with(clock, waiting, ready, dues, pid, &[Offer::Send(channel)])
        }
        Offer::Receive(channel) => {
            go_with(clock, waiting, ready, dues, pid, &[Offer::Receive(channel)])
        }
        Offer::Delay(due) => go_with(clock, waiting, ready, dues, pid, &[Offer::Delay(due)]),
    }
}

/// The same, whether there is one or more.
#[inline(always)]
pub(crate) fn go(
    clock: i64,
    waiting: &mut Waiting,
    ready: &mut Ranks,
    dues: &mut Dues,
    pid: u32,
    offers: &[Offer],
)
    requires waits { held waiting.old pid ≡ Some offers.now }
    requires seats { HasSeats pid waiting.old ready.old dues.old }
    ensures { Goes clock pid offers.now waiting.old ready.old dues.old waiting.new ready.new dues.new }
{
    match only_one(offers) {
        Some(offer) => go_alone(clock, waiting, ready, dues, pid, offer),
        None => go_with(clock, waiting, ready, dues, pid, offers),
    }
}
