//! Whether instances have options, with only those in view that communicate on the same channels.

ghost use Rattle.std.specs.Prelude.{◌≡◌, ℕ, length, nat_lt, Some};
ghost use Rattle.chi_core.specs.Options.{pairs, options_for, options_in};
ghost use Rattle.chi_plain_open.specs.Instances.{state_of};
ghost use Rattle.chi_plain_options.specs.Scanning.{offered_below};
ghost use Rattle.chi_plain_options.specs.Listing.{AllParties};
ghost use Rattle.chi_plain_options.specs.Acting.{acts};

use crate::choices::{are_over, partner_count};
use crate::parties::Parties;
use chi_core::Act;
use chi_plain_open::{Offer, State};
use chi_plain_steps::Configuration;

/// Whether instance `pid`, which sends on a channel, may make a pair.
#[tactic(auto, using(crate::proofs::Havings::pairing))]
fn has_pair(config: &Configuration<'_>, parties: &Parties, pid: u32, channel: u32) -> bool
    requires { AllParties parties.now config.now.instances }
    ensures { (a : ℕ) → result ≡ nat_lt 0 (length (pairs config.now pid a channel)) }
{
    for other in parties.receivers.at(channel) {
        if partner_count(config, *other, pid, channel) > 0 {
            return true;
        }
    }
    false
}

/// Whether instance `pid` has an option by this offer of its own.
fn has_option_by(config: &Configuration<'_>, parties: &Parties, pid: u32, offer: &Offer) -> bool
    requires { AllParties parties.now config.now.instances }
    ensures { (a : ℕ) → result ≡ nat_lt 0 (length (options_for config.now pid a (Some offer.now))) }
{
    match offer.act() {
        Act::Send(channel, _) => has_pair(config, parties, pid, *channel),
        Act::Receive(_, _) => false,
        Act::Delay(due) => config.clock() >= *due,
    }
}

/// Whether instance `pid` has an option by one of these offers of its own.
#[tactic(auto, using(crate::proofs::Havings::acting))]
fn has_option_among(
    config: &Configuration<'_>,
    parties: &Parties,
    pid: u32,
    offers: &[Offer],
) -> bool
    requires { AllParties parties.now config.now.instances }
    ensures { result ≡ nat_lt 0 (length (offered_below config.now pid offers.now (length offers.now))) }
{
    for offer in offers {
        if has_option_by(config, parties, pid, offer) {
            return true;
        }
    }
    false
}

/// Whether instance `pid` has an option, which is in this state.
#[tactic(auto, using(crate::proofs::Havings::acting))]
fn has_option_in(config: &Configuration<'_>, parties: &Parties, pid: u32, state: &State) -> bool
    requires { AllParties parties.now config.now.instances }
    ensures { result ≡ nat_lt 0 (length (options_in config.now pid (state_of state.now))) }
{
    match state {
        State::Running => true,
        State::Waiting(offers) => has_option_among(config, parties, pid, offers.as_slice()),
        State::Joining(waited) => are_over(config, waited.as_slice()),
        State::Finished => false,
    }
}

/// Whether instance `pid` has an option.
#[tactic(auto, using(crate::proofs::Havings::acting))]
pub fn has_option(config: &Configuration<'_>, parties: &Parties, pid: u32) -> bool
    requires { AllParties parties.now config.now.instances }
    ensures { result ≡ acts config.now pid }
{
    match config.instances().get(pid as usize) {
        Some(instance) => has_option_in(config, parties, pid, instance.state()),
        None => false,
    }
}
