//! Which instances are in view of others: those that communicate on channels, and those that wait for an instance.

ghost use Rattle.std.specs.Prelude.{◌≡◌, ℕ, ◌≤◌, ◌<◌, length, slice_get, Contains, OnOk};
ghost use Rattle.chi_core.specs.declared.limits.TheConstants.{MOST_INSTANCES};
ghost use Rattle.chi_plain_options.specs.Reaching.{Covers, CoversFrom, ReachesBy, ReachesIn};
ghost use Rattle.chi_plain_options.specs.Listing.{IsJoiner, IsListedFor, IsParty, IsPartyBy, IsPartyIn, Keeps, KeepsLists, KeepsParties, listed_at, waited_in};

use crate::parties::{ListedAt, Parties};
use chi_base::NoMemory;
use chi_core::Act;
use chi_plain_open::{Instance, Offer, State};
use chi_plain_steps::Configuration;

/// Lists instance `pid` where it communicates by an offer.
#[tactic(auto, using(crate::proofs::Listings::listing))]
fn list_by(parties: &mut Parties, pid: u32, offer: &Offer) -> Result<(), NoMemory>
    requires { pid < MOST_INSTANCES }
    ensures keeps { KeepsParties parties.old parties.new }
    ensures listed { OnOk result (IsPartyBy parties.new pid offer.now.act) }
{
    match offer.act() {
        Act::Send(channel, _) => parties.senders.add(*channel, pid),
        Act::Receive(channel, _) => parties.receivers.add(*channel, pid),
        Act::Delay(_) => Ok(()),
    }
}

/// Lists instance `pid` where it communicates by these offers.
#[tactic(auto, using(crate::proofs::Listings::listing))]
fn list_in(parties: &mut Parties, pid: u32, offers: &[Offer]) -> Result<(), NoMemory>
    requires { pid < MOST_INSTANCES }
    ensures keeps { KeepsParties parties.old parties.new }
    ensures listed { OnOk result (IsPartyIn parties.new pid offers.now) }
{
    for offer in offers {
        list_by(parties, pid, offer)?;
    }
    Ok(())
}

/// Lists instance `pid` where it communicates.
#[tactic(auto, using(crate::proofs::Listings::listing))]
fn list_party(config: &Configuration<'_>, parties: &mut Parties, pid: u32) -> Result<(), NoMemory>
    ensures keeps { KeepsParties parties.old parties.new }
    ensures listed { OnOk result (IsParty parties.new pid (slice_get config.now.instances pid)) }
{
    match config.instances().get(pid as usize) {
        Some(instance) => list_in(parties, pid, instance.offers()),
        None => Ok(()),
    }
}

/// Lists instance `pid` as one that waits for each of these.
#[tactic(auto, using(crate::proofs::Listings::listing))]
fn list_for(joiners: &mut ListedAt, pid: u32, waited: &[u32]) -> Result<(), NoMemory>
    requires { pid < MOST_INSTANCES }
    ensures keeps { KeepsLists joiners.old joiners.new }
    ensures listed { OnOk result (IsListedFor joiners.new pid waited.now) }
{
    for other in waited {
        joiners.add(*other, pid)?;
    }
    Ok(())
}

/// Lists instance `pid` where it waits for others.
#[tactic(auto, using(crate::proofs::Listings::listing))]
fn list_joiner(config: &Configuration<'_>, joiners: &mut ListedAt, pid: u32) -> Result<(), NoMemory>
    ensures keeps { KeepsLists joiners.old joiners.new }
    ensures listed { OnOk result (IsJoiner joiners.new pid (slice_get config.now.instances pid)) }
{
    match config.instances().get(pid as usize) {
        Some(instance) => list_for(joiners, pid, waited_by(instance)),
        None => Ok(()),
    }
}

/// The instances for which one waits.
fn waited_by<'i>(instance: &'i Instance<'_>) -> &'i [u32]
    ensures { result.now ≡ waited_in instance.now.state }
{
    match instance.state() {
        State::Running => &[],
        State::Waiting(_) => &[],
        State::Joining(waited) => waited.as_slice(),
        State::Finished => &[],
    }
}

/// Lists an instance anew.
#[tactic(auto, using(crate::proofs::Listings::listing))]
pub fn relist(
    config: &Configuration<'_>,
    parties: &mut Parties,
    joiners: &mut ListedAt,
    pid: u32,
) -> Result<(), NoMemory>
    ensures parties { KeepsParties parties.old parties.new }
    ensures joiners { KeepsLists joiners.old joiners.new }
    ensures party { OnOk result (IsParty parties.new pid (slice_get config.now.instances pid)) }
    ensures joiner { OnOk result (IsJoiner joiners.new pid (slice_get config.now.instances pid)) }
{
    list_party(config, parties, pid)?;
    list_joiner(config, joiners, pid)
}

/// Lists each instance from this number on.
#[tactic(auto, using(crate::proofs::Listings::listing))]
pub fn relist_from(
    config: &Configuration<'_>,
    parties: &mut Parties,
    joiners: &mut ListedAt,
    from: u32,
) -> Result<(), NoMemory>
    ensures parties { KeepsParties parties.old parties.new }
    ensures joiners { KeepsLists joiners.old joiners.new }
    ensures party { OnOk result ((p : ℕ) → from ≤ p → IsParty parties.new p (slice_get config.now.instances p)) }
    ensures joiner { OnOk result ((p : ℕ) → from ≤ p → IsJoiner joiners.new p (slice_get config.now.instances p)) }
{
    for pid in from..config.instances().len() as u32 {
        relist(config, parties, joiners, pid)?;
    }
    Ok(())
}

/// Adds all that may pair with an instance by what this offer receives.
#[tactic(auto, using(crate::proofs::Listings::listing))]
fn reach_by(parties: &Parties, offer: &Offer, reached: &mut Vec<u32>) -> Result<(), NoMemory>
    ensures keeps { Keeps reached.old.items reached.new.items }
    ensures reached { OnOk result (ReachesBy parties.now offer.now.act reached.new.items) }
{
    match offer.act() {
        Act::Send(_, _) => Ok(()),
        Act::Receive(channel, _) => {
            reached.extend_from_slice(parties.senders.at(*channel))?;
            Ok(())
        }
        Act::Delay(_) => Ok(()),
    }
}

/// Adds all that may pair with an instance by what these offers receive.
#[tactic(auto, using(crate::proofs::Listings::listing))]
fn reach_in(parties: &Parties, offers: &[Offer], reached: &mut Vec<u32>) -> Result<(), NoMemory>
    ensures keeps { Keeps reached.old.items reached.new.items }
    ensures reached { OnOk result (ReachesIn parties.now offers.now reached.new.items) }
{
    for offer in offers {
        reach_by(parties, offer, reached)?;
    }
    Ok(())
}

/// Adds instance `pid`, and all that may pair with it by what it receives.
#[tactic(auto, using(crate::proofs::Listings::listing))]
pub fn cover(
    config: &Configuration<'_>,
    parties: &Parties,
    pid: u32,
    covered: &mut Vec<u32>,
) -> Result<(), NoMemory>
    ensures keeps { Keeps covered.old.items covered.new.items }
    ensures covered { OnOk result (Covers parties.now config.now.instances pid covered.new.items) }
{
    covered.push(pid)?;
    match config.instances().get(pid as usize) {
        Some(instance) => reach_in(parties, instance.offers(), covered),
        None => Ok(()),
    }
}

/// Adds those that wait for instance `pid`.
#[tactic(auto, using(crate::proofs::Keeping::keeping))]
pub fn cover_joiners(joiners: &ListedAt, pid: u32, covered: &mut Vec<u32>) -> Result<(), NoMemory>
    ensures keeps { Keeps covered.old.items covered.new.items }
    ensures joined { OnOk result (Keeps (listed_at joiners.now pid) covered.new.items) }
{
    covered.extend_from_slice(joiners.at(pid))?;
    Ok(())
}

/// Adds each instance from this number on, all that may pair with it by what it receives, and those that wait for it.
#[tactic(auto, using(crate::proofs::Listings::listing))]
pub fn cover_from(
    config: &Configuration<'_>,
    parties: &Parties,
    joiners: &ListedAt,
    from: u32,
    covered: &mut Vec<u32>,
) -> Result<(), NoMemory>
    ensures keeps { Keeps covered.old.items covered.new.items }
    ensures covered { OnOk result (CoversFrom parties.now joiners.now config.now.instances from covered.new.items) }
{
    for pid in from..config.instances().len() as u32 {
        cover(config, parties, pid, covered)?;
        cover_joiners(joiners, pid, covered)?;
    }
    Ok(())
}
