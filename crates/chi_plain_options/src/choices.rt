//! The options of an instance: how many there are, and which.

ghost use Rattle.std.specs.Prelude.{◌≡◌, ℕ, ◌<◌, ◌≤◌, length, slice_get, Some};
ghost use Rattle.chi_core.specs.declared.limits.TheConstants.{MOST_OFFERS};
ghost use Rattle.chi_core.specs.Config.{offers_in};
ghost use Rattle.chi_core.specs.Meeting.{are_over};
ghost use Rattle.chi_core.specs.Options.{pairs_with, pairs, options_for, options_in, options};
ghost use Rattle.chi_plain_open.specs.Instances.{state_of};
ghost use Rattle.chi_plain_options.specs.Scanning.{MOST_PAIRS, offered_below};
ghost use Rattle.chi_plain_options.specs.Listing.{AllParties};

use crate::parties::Parties;
use chi_core::{Act, Label};
use chi_plain_open::{Instance, Offer, State, receiver_at, receiver_count};
use chi_plain_steps::Configuration;

/// How many pairs instance `pid`, which sends on a channel, may make with this instance, which is number `other`.
#[tactic(auto, using(crate::proofs::Pairs::partners))]
fn count_with(instance: &Instance, other: u32, pid: u32, channel: u32) -> u64
    ensures count { (a : ℕ) → result ≡ length (pairs_with pid a channel other (Some instance.now)) }
    ensures within { result ≤ MOST_OFFERS }
{
    if other == pid {
        return 0;
    }
    receiver_count(instance.offers(), channel)
}

/// Number `i` of these pairs.
#[tactic(auto, using(crate::proofs::Pairs::partners))]
fn pair_with(
    instance: &Instance,
    other: u32,
    pid: u32,
    alternative: u32,
    channel: u32,
    i: u64,
) -> Label
    requires { i < length (pairs_with pid alternative channel other (Some instance.now)) }
    ensures { slice_get (pairs_with pid alternative channel other (Some instance.now)) i ≡ Some result }
{
    Label::Pair(
        pid,
        alternative,
        other,
        receiver_at(instance.offers(), channel, i),
    )
}

/// How many pairs instance `pid`, which sends on a channel, may make with instance `other`.
#[tactic(auto, using(crate::proofs::Pairs::partners))]
pub fn partner_count(config: &Configuration<'_>, other: u32, pid: u32, channel: u32) -> u64
    ensures count { (a : ℕ) → result ≡ length (pairs_with pid a channel other (slice_get config.now.instances other)) }
    ensures within { result ≤ MOST_OFFERS }
{
    match config.instances().get(other as usize) {
        Some(instance) => count_with(instance, other, pid, channel),
        None => 0,
    }
}

/// Number `i` of these pairs, where it sends by this alternative.
#[tactic(auto, using(crate::proofs::Pairs::partners))]
fn partner_at(
    config: &Configuration<'_>,
    other: u32,
    pid: u32,
    alternative: u32,
    channel: u32,
    i: u64,
) -> Label
    requires { i < length (pairs_with pid alternative channel other (slice_get config.now.instances other)) }
    ensures { slice_get (pairs_with pid alternative channel other (slice_get config.now.instances other)) i ≡ Some result }
{
    match config.instances().get(other as usize) {
        Some(instance) => pair_with(instance, other, pid, alternative, channel, i),
        None => unreachable!(),
    }
}

/// How many pairs instance `pid` may make that sends on a channel.
#[tactic(auto, using(crate::proofs::Pairs::pairing))]
fn pair_count(config: &Configuration<'_>, parties: &Parties, pid: u32, channel: u32) -> u64
    requires { AllParties parties.now config.now.instances }
    ensures count { (a : ℕ) → result ≡ length (pairs config.now pid a channel) }
    ensures within { result ≤ MOST_PAIRS }
{
    let mut count = 0;
    for other in parties.receivers.at(channel) {
        count += partner_count(config, *other, pid, channel);
    }
    count
}

/// Number `i` of these pairs, where it sends by this alternative.
#[tactic(auto, using(crate::proofs::Pairs::pairing))]
fn pair_at(
    config: &Configuration<'_>,
    parties: &Parties,
    pid: u32,
    alternative: u32,
    channel: u32,
    i: u64,
) -> Label
    requires parties { AllParties parties.now config.now.instances }
    requires some { i < length (pairs config.now pid alternative channel) }
    ensures { slice_get (pairs config.now pid alternative channel) i ≡ Some result }
{
    let mut seen = 0;
    for other in parties.receivers.at(channel) {
        let count = partner_count(config, *other, pid, channel);
        if i - seen < count {
            return partner_at(config, *other, pid, alternative, channel, i - seen);
        }
        seen += count;
    }
    unreachable!()
}

/// How many options instance `pid` has by this offer of its own.
fn offer_count(config: &Configuration<'_>, parties: &Parties, pid: u32, offer: &Offer) -> u64
    requires { AllParties parties.now config.now.instances }
    ensures count { (a : ℕ) → result ≡ length (options_for config.now pid a (Some offer.now)) }
    ensures within { result ≤ MOST_PAIRS }
{
    match offer.act() {
        Act::Send(channel, _) => pair_count(config, parties, pid, *channel),
        Act::Receive(_, _) => 0,
        Act::Delay(due) => { if config.clock() < *due { 0 } else { 1 } }
    }
}

/// Number `i` of these options, where the offer is this alternative.
fn offer_at(
    config: &Configuration<'_>,
    parties: &Parties,
    pid: u32,
    alternative: u32,
    offer: &Offer,
    i: u64,
) -> Label
    requires parties { AllParties parties.now config.now.instances }
    requires some { i < length (options_for config.now pid alternative (Some offer.now)) }
    ensures { slice_get (options_for config.now pid alternative (Some offer.now)) i ≡ Some result }
{
    match offer.act() {
        Act::Send(channel, _) => pair_at(config, parties, pid, alternative, *channel, i),
        Act::Receive(_, _) => unreachable!(),
        Act::Delay(_) => Label::Wake(pid, alternative),
    }
}

/// How many options instance `pid` has by these offers of its own.
#[tactic(auto, using(crate::proofs::Pairs::offering))]
fn offered_count(config: &Configuration<'_>, parties: &Parties, pid: u32, offers: &[Offer]) -> u64
    requires parties { AllParties parties.now config.now.instances }
    requires numbered { length offers.now ≤ MOST_OFFERS }
    ensures { result ≡ length (offered_below config.now pid offers.now (length offers.now)) }
{
    let mut count = 0;
    for offer in offers {
        count += offer_count(config, parties, pid, offer);
    }
    count
}

/// Number `i` of these options.
#[tactic(auto, using(crate::proofs::Pairs::offering))]
fn offered_at(
    config: &Configuration<'_>,
    parties: &Parties,
    pid: u32,
    offers: &[Offer],
    i: u64,
) -> Label
    requires parties { AllParties parties.now config.now.instances }
    requires numbered { length offers.now ≤ MOST_OFFERS }
    requires some { i < length (offered_below config.now pid offers.now (length offers.now)) }
    ensures { slice_get (offered_below config.now pid offers.now (length offers.now)) i ≡ Some result }
{
    let mut seen = 0;
    for (number, offer) in offers.iter().enumerate() {
        let count = offer_count(config, parties, pid, offer);
        if i - seen < count {
            return offer_at(config, parties, pid, number as u32, offer, i - seen);
        }
        seen += count;
    }
    unreachable!()
}

/// Whether there are instances of all these numbers that have finished.
pub fn are_over(config: &Configuration<'_>, waited: &[u32]) -> bool
    ensures { result ≡ are_over config.now waited.now }
{
    for pid in waited {
        if !config.is_over(*pid) {
            return false;
        }
    }
    true
}

/// How many options instance `pid` has, which is in this state.
#[tactic(auto, using(crate::proofs::Options::choosing))]
fn option_count_in(config: &Configuration<'_>, parties: &Parties, pid: u32, state: &State) -> u64
    requires parties { AllParties parties.now config.now.instances }
    requires numbered { length (offers_in (state_of state.now)) ≤ MOST_OFFERS }
    ensures { result ≡ length (options_in config.now pid (state_of state.now)) }
{
    match state {
        State::Running => 1,
        State::Waiting(offers) => offered_count(config, parties, pid, offers.as_slice()),
        State::Joining(waited) => {
            if are_over(config, waited.as_slice()) {
                1
            } else {
                0
            }
        }
        State::Finished => 0,
    }
}

/// Number `i` of these options.
#[tactic(auto, using(crate::proofs::Options::choosing))]
fn option_in(
    config: &Configuration<'_>,
    parties: &Parties,
    pid: u32,
    state: &State,
    i: u64,
) -> Label
    requires parties { AllParties parties.now config.now.instances }
    requires numbered { length (offers_in (state_of state.now)) ≤ MOST_OFFERS }
    requires some { i < length (options_in config.now pid (state_of state.now)) }
    ensures { slice_get (options_in config.now pid (state_of state.now)) i ≡ Some result }
{
    match state {
        State::Running => Label::Local(pid),
        State::Waiting(offers) => offered_at(config, parties, pid, offers.as_slice(), i),
        State::Joining(_) => Label::Join(pid),
        State::Finished => unreachable!(),
    }
}

/// How many options instance `pid` has.
pub fn option_count(config: &Configuration<'_>, parties: &Parties, pid: u32) -> u64
    requires { AllParties parties.now config.now.instances }
    ensures { result ≡ length (options config.now pid) }
{
    match config.instances().get(pid as usize) {
        Some(instance) => option_count_in(config, parties, pid, instance.state()),
        None => 0,
    }
}

/// Option number `i` of instance `pid`.
pub fn option_at(config: &Configuration<'_>, parties: &Parties, pid: u32, i: u64) -> Label
    requires parties { AllParties parties.now config.now.instances }
    requires some { i < length (options config.now pid) }
    ensures { slice_get (options config.now pid) i ≡ Some result }
{
    let instance = &config.instances()[pid as usize];
    option_in(config, parties, pid, instance.state(), i)
}
