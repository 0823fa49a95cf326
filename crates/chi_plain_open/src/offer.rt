ghost use Rattle.std.specs.Prelude.{◌≡◌, ◌<◌, ◌≤◌, length, slice_get, Some};
ghost use Rattle.std.specs.List.{flat_map};
ghost use Rattle.chi_core.specs.declared.limits.TheConstants.{MOST_OFFERS};
ghost use Rattle.chi_core.specs.Meeting.{due_in, least_time};
ghost use Rattle.chi_core.specs.Options.{receivers, receives_on};
ghost use Rattle.chi_plain_open.specs.Offered.{sooner};

use chi_base::Items;
use chi_core::{Act, CStat};
use chi_value::Value;
use std::marker::Model;

/// What a waiting instance offers: what it does then, what the names of the unwinds around are
/// bound to, and what is done after it.
#[derive(Debug, Drop)]
pub struct Offer<'a> {
    act: Act,
    bindings: Items<(u32, Value)>,
    body: &'a [CStat],
}

impl<'a> Model for Offer<'a> {
    ghost use Rattle.std.specs.Coded.{codes};
    ghost use Rattle.chi_core.specs.contracts.statement.CStat as statements;
    ghost use Rattle.chi_core.specs.contracts.expression.CExpr as expressions;
    ghost use Rattle.chi_core.specs.contracts.element.CElem as elements;
    ghost use Rattle.chi_value.specs.contracts.value.Value as values;
    ghost use Rattle.chi_core.specs.Config.{Offer};

    ghost Value = { Offer };

    ghost coded = { Prim.hlevel (codes, statements.the_row.coded, expressions.the_row.coded, elements.the_row.coded, values.the_row.coded) };

    ghost view = { λ o. record { act = o.act; bindings = o.bindings; body = o.body.now } };
}

impl<'a> Offer<'a> {
    /// An offer to do `act`, and then `body` with these slots bound.
    pub fn new(act: Act, bindings: Items<(u32, Value)>, body: &'a [CStat]) -> Offer<'a>
        ensures { result ≡ record { act = act; bindings = bindings; body = body.now } }
    {
        Offer {
            act,
            bindings,
            body,
        }
    }

    /// What it offers to do.
    pub fn act(&self) -> &Act
        ensures { result.now ≡ self.now.act }
    {
        &self.act
    }

    /// What it does, what the names are bound to, and what is done after it.
    pub fn into_parts(self) -> (Act, Items<(u32, Value)>, &'a [CStat])
        ensures act { result.0 ≡ self.entry.act }
        ensures bindings { result.1 ≡ self.entry.bindings }
        ensures body { result.2.now ≡ self.entry.body }
    {
        let Offer {
            act,
            bindings,
            body,
        } = self;
        (act, bindings, body)
    }

    /// The due time of a delay.
    fn due(&self) -> Option<i64>
        ensures { result ≡ least_time (due_in self.now.act) }
    {
        match &self.act {
            Act::Send(_, _) => None,
            Act::Receive(_, _) => None,
            Act::Delay(due) => Some(*due),
        }
    }

    fn receives_on(&self, channel: u32) -> bool
        ensures { result ≡ receives_on channel self.now.act }
    {
        match &self.act {
            Act::Send(_, _) => false,
            Act::Receive(number, _) => *number == channel,
            Act::Delay(_) => false,
        }
    }
}

/// How many of the offers receive from a channel.
#[tactic(auto, using(crate::proofs::Numbers::receiver_counting))]
pub fn receiver_count(offers: &[Offer], channel: u32) -> u64
    requires { length offers.now ≤ MOST_OFFERS }
    ensures count { result ≡ length (receivers channel offers.now) }
    ensures within { result ≤ MOST_OFFERS }
{
    let mut count = 0;
    for offer in offers {
        if offer.receives_on(channel) {
            count += 1;
        }
    }
    count
}

/// The alternative that receives from a channel as number `i` of those that do.
#[tactic(auto, using(crate::proofs::Numbers::receiver_counting))]
pub fn receiver_at(offers: &[Offer], channel: u32, i: u64) -> u32
    requires numbered { length offers.now ≤ MOST_OFFERS }
    requires some { i < length (receivers channel offers.now) }
    ensures { slice_get (receivers channel offers.now) i ≡ Some result }
{
    let mut seen = 0;
    for (number, offer) in offers.iter().enumerate() {
        if offer.receives_on(channel) {
            if seen == i {
                return number as u32;
            }
            seen += 1;
        }
    }
    unreachable!()
}

/// The less of two times, of which each may be missing.
#[tactic(auto, unfolding(crate::specs::Offered::sooner))]
pub fn sooner(one: Option<i64>, other: Option<i64>) -> Option<i64>
    ensures { result ≡ sooner one other }
{
    match (one, other) {
        (None, _) => other,
        (Some(_), None) => one,
        (Some(time), Some(further)) => Some(time.min(further)),
    }
}

/// The least due time.
#[tactic(auto, using(crate::proofs::Times::steps))]
pub fn least_due(offers: &[Offer]) -> Option<i64>
    ensures { result ≡ least_time (flat_map (λ o. due_in o.act) offers.now) }
{
    let mut least = None;
    for offer in offers {
        least = sooner(least, offer.due());
    }
    least
}
