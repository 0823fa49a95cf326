//! What a waiting instance offers, in words.

ghost use Rattle.std.specs.Prelude.{◌≡◌, ◌++◌, flat_map, take, OnOk};
ghost use Rattle.chi_explain_waiting.specs.declared.pieces.TheConstants.{MOST_TOLD};
ghost use Rattle.chi_explain_waiting.specs.WaitingText.{act_words, offer_told, offers_told, open_told, receive_words, send_words, time_words, unless};

use crate::partners::is_answered;
use crate::pieces::{MOST_TOLD, put_more};
use chi_base::NoMemory;
use chi_core::Act;
use chi_explain::put_number;
use chi_num::{Real, real_text};
use chi_plain_open::Offer;
use chi_plain_steps::Configuration;
use std::alloc::Global;

/// Appends words unless they are wrong.
fn put_unless(wrong: bool, words: &[u8], out: &mut Vec<u8>) -> Result<(), NoMemory>
    ensures { OnOk result (out.new.items ≡ out.old.items ++ unless wrong words.now) }
{
    if !wrong {
        out.extend_from_slice(words)?;
    }
    Ok(())
}

/// Appends that an instance waits to send.
fn put_send(alloc: Global, channel: u32, answered: bool, out: &mut Vec<u8>) -> Result<(), NoMemory>
    ensures { OnOk result (out.new.items ≡ out.old.items ++ send_words channel answered) }
{
    out.extend_from_slice(b"  waits to send on channel ")?;
    put_number(alloc, channel, out)?;
    out.push(b'!')?;
    put_unless(answered, b", where nobody else receives", out)?;
    Ok(())
}

/// Appends that an instance waits to receive.
fn put_receive(
    alloc: Global,
    channel: u32,
    answered: bool,
    out: &mut Vec<u8>,
) -> Result<(), NoMemory>
    ensures { OnOk result (out.new.items ≡ out.old.items ++ receive_words channel answered) }
{
    out.extend_from_slice(b"  waits to receive on channel ")?;
    put_number(alloc, channel, out)?;
    out.push(b'?')?;
    put_unless(answered, b", where nobody else sends", out)?;
    Ok(())
}

/// Appends that an instance waits until a time, in units of a real.
fn put_time(alloc: Global, due: i64, out: &mut Vec<u8>) -> Result<(), NoMemory>
    ensures { OnOk result (out.new.items ≡ out.old.items ++ time_words due) }
{
    out.extend_from_slice(b"  waits until time ")?;
    real_text(alloc, Real::from_units(due), out)?;
    Ok(())
}

/// Appends what is offered, of which another instance may offer the other side.
fn put_act(alloc: Global, answered: bool, act: &Act, out: &mut Vec<u8>) -> Result<(), NoMemory>
    ensures { OnOk result (out.new.items ≡ out.old.items ++ act_words answered act.now) }
{
    match act {
        Act::Send(channel, _) => put_send(alloc, *channel, answered, out),
        Act::Receive(channel, _) => put_receive(alloc, *channel, answered, out),
        Act::Delay(due) => put_time(alloc, *due, out),
    }
}

/// Appends the line of an offer of instance `pid`.
#[tactic(auto, using(crate::proofs::Writing::writing))]
fn put_offer(
    alloc: Global,
    configuration: &Configuration<'_>,
    pid: u32,
    offer: &Offer<'_>,
    out: &mut Vec<u8>,
) -> Result<(), NoMemory>
    ensures { OnOk result (out.new.items ≡ out.old.items ++ offer_told configuration.now pid offer.now) }
{
    let offered = offer.act();
    let answered = is_answered(configuration, pid, offered);
    put_act(alloc, answered, offered, out)?;
    out.push(b'\n')?;
    Ok(())
}

/// Appends a line for each of these offers of instance `pid`.
fn put_acts(
    alloc: Global,
    configuration: &Configuration<'_>,
    pid: u32,
    offers: &[Offer<'_>],
    out: &mut Vec<u8>,
) -> Result<(), NoMemory>
    ensures { OnOk result (out.new.items ≡ out.old.items ++ flat_map (offer_told configuration.now pid) offers.now) }
{
    for offer in offers {
        put_offer(alloc, configuration, pid, offer, out)?;
    }
    Ok(())
}

/// The first of these offers: as many as are told.
#[tactic(auto, using(std::proofs::lemmas::List::take_min))]
fn first_offers<'a, 'b>(offers: &'b [Offer<'a>]) -> &'b [Offer<'a>]
    ensures { result.now ≡ take MOST_TOLD offers.now }
{
    offers.split_at(MOST_TOLD.min(offers.len())).0
}

/// Appends the alternatives that instance `pid` offers.
fn put_open(
    alloc: Global,
    configuration: &Configuration<'_>,
    pid: u32,
    offers: &[Offer<'_>],
    out: &mut Vec<u8>,
) -> Result<(), NoMemory>
    ensures { OnOk result (out.new.items ≡ out.old.items ++ open_told configuration.now pid offers.now) }
{
    let told = first_offers(offers);
    let more = offers.len().saturating_sub(MOST_TOLD);
    put_acts(alloc, configuration, pid, told, out)?;
    put_more(alloc, b"  more alternatives: ", more, out)?;
    Ok(())
}

/// Appends what instance `pid` offers, or that it offers nothing.
pub fn put_offers(
    alloc: Global,
    configuration: &Configuration<'_>,
    pid: u32,
    offers: &[Offer<'_>],
    out: &mut Vec<u8>,
) -> Result<(), NoMemory>
    ensures { OnOk result (out.new.items ≡ out.old.items ++ offers_told configuration.now pid offers.now) }
{
    if offers.is_empty() {
        out.extend_from_slice(b"  waits for ever: no alternative is open\n")?;
        Ok(())
    } else {
        put_open(alloc, configuration, pid, offers, out)
    }
}
