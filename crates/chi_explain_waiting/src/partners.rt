//! Whether somebody else offers the other side of what an instance offers.

ghost use Rattle.std.specs.Prelude.{◌≡◌, Some};
ghost use Rattle.std.specs.List.{list_any};
ghost use Rattle.chi_core.specs.Options.{receives_on};
ghost use Rattle.chi_explain_waiting.specs.Partners.{answered_by, answers, is_answered, sends_on};

use chi_core::Act;
use chi_plain_open::{Instance, Offer};
use chi_plain_steps::Configuration;

fn sends_on(channel: u32, act: &Act) -> bool
    ensures { result ≡ sends_on channel act.now }
{
    match act {
        Act::Send(number, _) => *number == channel,
        Act::Receive(_, _) => false,
        Act::Delay(_) => false,
    }
}

fn receives_on(channel: u32, act: &Act) -> bool
    ensures { result ≡ receives_on channel act.now }
{
    match act {
        Act::Send(_, _) => false,
        Act::Receive(number, _) => *number == channel,
        Act::Delay(_) => false,
    }
}

/// Whether one sends on the channel from which the other receives.
fn answers(act: &Act, other: &Act) -> bool
    ensures { result ≡ answers act.now other.now }
{
    match act {
        Act::Send(channel, _) => receives_on(*channel, other),
        Act::Receive(channel, _) => sends_on(*channel, other),
        Act::Delay(_) => false,
    }
}

/// Whether one of these offers is the other side.
fn has_other(act: &Act, offers: &[Offer<'_>]) -> bool
    ensures { result ≡ list_any (λ o. answers act.now o.act) offers.now }
{
    for offer in offers {
        if answers(act, offer.act()) {
            return true;
        }
    }
    false
}

/// Whether an instance, which is number `other` and not `pid`, offers the other side.
fn answered_by(pid: u32, act: &Act, other: u32, instance: &Instance<'_>) -> bool
    ensures { result ≡ answered_by pid act.now other (Some instance.now) }
{
    other != pid && has_other(act, instance.offers())
}

/// Whether an instance other than `pid` offers the other side, when each is looked at.
#[tactic(auto, using(crate::proofs::Answering::answering))]
fn has_partner(configuration: &Configuration<'_>, pid: u32, act: &Act) -> bool
    ensures { result ≡ is_answered configuration.now pid act.now }
{
    for (other, instance) in configuration.instances().iter().enumerate() {
        if answered_by(pid, act, other as u32, instance) {
            return true;
        }
    }
    false
}

/// Whether another instance than `pid` offers the other side. A delay has none, so nobody is looked at.
pub fn is_answered(configuration: &Configuration<'_>, pid: u32, act: &Act) -> bool
    ensures { result ≡ is_answered configuration.now pid act.now }
{
    match act {
        Act::Send(_, _) | Act::Receive(_, _) => has_partner(configuration, pid, act),
        Act::Delay(_) => false,
    }
}
