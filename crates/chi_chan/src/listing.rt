ghost use Rattle.std.specs.Prelude.{◌≡◌, ◌<◌, ◌≤◌, length, OnOk, OnErr};
ghost use Rattle.chi_chan.specs.declared.offers.Offer.TheVariants.{Send, Receive};
ghost use Rattle.chi_chan.specs.Lined.{IsParty, SameLines};
ghost use Rattle.chi_chan.specs.Kept.{Comes, Left, Stood, Undone};

use crate::lines::Lines;
use crate::offers::{Offer, Party};
use chi_base::NoMemory;

/// An instance stands in lines for each of its offers, or after a refusal for none of them.
#[inline(always)]
pub(crate) fn list(
    senders: &mut Lines,
    receivers: &mut Lines,
    pid: u32,
    offers: &[Offer],
) -> Result<(), NoMemory>
    requires pid { pid < 100000 }
    requires few { length offers.now ≤ 65536 }
    ensures senders { OnOk result (Stood Send pid offers.now (length offers.now) senders.old senders.new) }
    ensures receivers { OnOk result (Stood Receive pid offers.now (length offers.now) receivers.old receivers.new) }
    ensures senders_err { OnErr result (Undone pid senders.old senders.new) }
    ensures receivers_err { OnErr result (Undone pid receivers.old receivers.new) }
{
    match list_all(senders, receivers, pid, offers) {
        Ok(()) => Ok(()),
        Err(NoMemory) => {
            unlist(senders, receivers, pid, offers);
            Err(NoMemory)
        }
    }
}

/// It stands in lines for each of its offers, or after a refusal for some of them.
#[inline(always)]
fn list_all(
    senders: &mut Lines,
    receivers: &mut Lines,
    pid: u32,
    offers: &[Offer],
) -> Result<(), NoMemory>
    requires pid { pid < 100000 }
    requires few { length offers.now ≤ 65536 }
    ensures senders { OnOk result (Stood Send pid offers.now (length offers.now) senders.old senders.new) }
    ensures receivers { OnOk result (Stood Receive pid offers.now (length offers.now) receivers.old receivers.new) }
    ensures senders_err { OnErr result (Stood Send pid offers.now 0 senders.old senders.new) }
    ensures receivers_err { OnErr result (Stood Receive pid offers.now 0 receivers.old receivers.new) }
{
    for (number, offer) in offers.iter().enumerate() {
        let party = Party {
            pid,
            alternative: number as u32,
        };
        list_one(senders, receivers, party, *offer)?;
    }
    Ok(())
}

/// It stands in a line for one of its offers.
#[inline(always)]
fn list_one(
    senders: &mut Lines,
    receivers: &mut Lines,
    party: Party,
    offer: Offer,
) -> Result<(), NoMemory>
    requires { IsParty party }
    ensures ok { OnOk result (Comes offer party senders.old senders.new receivers.old receivers.new) }
    ensures senders_err { OnErr result (SameLines senders.old senders.new) }
    ensures receivers_err { OnErr result (SameLines receivers.old receivers.new) }
{
    match offer {
        Offer::Send(channel) => senders.add(channel, party),
        Offer::Receive(channel) => receivers.add(channel, party),
        Offer::Delay(_) => Ok(()),
    }
}

/// An instance leaves the lines in which it may stand for its offers.
#[inline(always)]
pub(crate) fn unlist(senders: &mut Lines, receivers: &mut Lines, pid: u32, offers: &[Offer])
    requires pid { pid < 100000 }
    ensures senders { Left Send pid offers.now (length offers.now) senders.old senders.new }
    ensures receivers { Left Receive pid offers.now (length offers.now) receivers.old receivers.new }
{
    for offer in offers {
        match offer {
            Offer::Send(channel) => senders.leave(*channel, pid),
            Offer::Receive(channel) => receivers.leave(*channel, pid),
            Offer::Delay(_) => {}
        }
    }
}
