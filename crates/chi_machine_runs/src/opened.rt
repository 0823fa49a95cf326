//! The offers of an instance.

ghost use Rattle.std.specs.Prelude.{◌≡◌, ◌≢◌, ◌++◌, ◌<◌, ◌≤◌, [], length, map, take, vec_capacity, None, Some, IfErr, OnOk, OnErr};
ghost use Rattle.chi_core.specs.Answer.{Amiss, Gives};
ghost use Rattle.chi_core.specs.Variables.{Bindings, bindings_at};
ghost use Rattle.chi_core_frame.specs.Stops.{Stops};
ghost use Rattle.chi_machine_runs.specs.Kept.{act_of, bound_to};
ghost use Rattle.chi_machine_runs.specs.Keeping.{kept_with};

use chi_base::NoMemory;
use chi_chan::Offer;
use chi_core::{FaultKind, MOST_OFFERS, View};
use chi_core_frame::{Stop, Variables, copied};
use chi_value::Value;
use std::alloc::Global;
use std::marker::Model;

/// What an offer carries, beside what waiting lists have of it.
#[derive(Drop)]
pub enum Carried {
    /// It is a delay, or a communication on a channel that carries nothing.
    Nothing,
    /// The value that is sent.
    Sent(Value),
    /// The slot into which a value is received.
    Slot(u32),
}

/// What is kept of an offer beside it: what it carries, and where its body begins in the code.
#[derive(Drop)]
pub struct Kept {
    pub carried: Carried,
    pub place: u64,
}

/// What a name of an unwind around an alternative is bound to.
#[derive(Drop)]
pub struct Binding {
    /// The number of the alternative.
    pub alternative: u32,
    pub slot: u32,
    pub value: Value,
}

/// The offers of an instance, in order. Contracts see each with what it carries, its bindings and its place.
#[derive(Drop)]
pub struct Opened {
    alloc: Global,
    /// What waiting lists have.
    pub(crate) offers: Vec<Offer>,
    /// What is kept beside each.
    pub(crate) kept: Vec<Kept>,
    /// Those of all offers.
    pub(crate) bindings: Vec<Binding>,
}

impl Model for Opened {
    ghost use Rattle.std.specs.Coded.{codes};
    ghost use Rattle.std.specs.Prelude.{List};
    ghost use Rattle.chi_value.specs.contracts.value.Value as values;
    ghost use Rattle.chi_machine_laws.specs.Instances as instances;
    ghost use Rattle.chi_machine_runs.specs.Kept.{kept_from, AreKept};

    ghost Value = { List instances.Kept };

    ghost coded = { Prim.hlevel (codes, values.the_row.coded) };

    ghost view = { λ o. kept_from 0 o.offers.items o.kept.items o.bindings.items };

    ghost invariant = { λ o. AreKept o.offers.items o.kept.items o.bindings.items };
}

// More room for offers.
#[inline(never)]
fn grow(offers: &mut Vec<Offer>, kept: &mut Vec<Kept>) -> Result<(), NoMemory>
    ensures offers { offers.new.items ≡ offers.old.items }
    ensures kept { kept.new.items ≡ kept.old.items }
    ensures wide { OnOk result (length offers.new.items < vec_capacity offers.new) }
    ensures also { OnOk result (length kept.new.items < vec_capacity kept.new) }
{
    offers.reserve(1)?;
    kept.reserve(1)?;
    Ok(())
}

// Room for one offer more.
#[inline(always)]
fn widen(offers: &mut Vec<Offer>, kept: &mut Vec<Kept>) -> Result<(), NoMemory>
    ensures offers { offers.new.items ≡ offers.old.items }
    ensures kept { kept.new.items ≡ kept.old.items }
    ensures wide { OnOk result (length offers.new.items < vec_capacity offers.new) }
    ensures also { OnOk result (length kept.new.items < vec_capacity kept.new) }
{
    if offers.len() < offers.capacity() {
        if kept.len() < kept.capacity() {
            return Ok(());
        }
    }
    grow(offers, kept)
}

// What names are bound to, each of which is set, joins the bindings.
#[tactic(auto, using(crate::proofs::Bound::binding))]
fn bind_all(
    alloc: Global,
    alternative: u32,
    names: &[u32],
    variables: &Variables,
    bindings: &mut Vec<Binding>,
) -> Result<(), NoMemory>
    requires set { bindings_at names.now variables.now ≢ None }
    ensures bound { OnOk result ((bound : Bindings) × (bindings_at names.now variables.now ≡ Some bound) × (bindings.new.items ≡ bindings.old.items ++ map (bound_to alternative) bound)) }
    ensures kept { OnErr result ((length bindings.old.items ≤ length bindings.new.items) × (take (length bindings.old.items) bindings.new.items ≡ bindings.old.items)) }
{
    for slot in names {
        let value = copied(alloc, variables.get(*slot))?;
        bindings.push(Binding {
            alternative,
            slot: *slot,
            value,
        })?;
    }
    Ok(())
}

// The same; after a refusal they are as before.
#[inline(never)]
fn bind_names(
    alloc: Global,
    alternative: u32,
    names: &[u32],
    variables: &Variables,
    bindings: &mut Vec<Binding>,
) -> Result<(), NoMemory>
    requires set { bindings_at names.now variables.now ≢ None }
    ensures bound { OnOk result ((bound : Bindings) × (bindings_at names.now variables.now ≡ Some bound) × (bindings.new.items ≡ bindings.old.items ++ map (bound_to alternative) bound)) }
    ensures kept { OnErr result (bindings.new.items ≡ bindings.old.items) }
{
    let before = bindings.len();
    match bind_all(alloc, alternative, names, variables, bindings) {
        Ok(()) => Ok(()),
        Err(NoMemory) => {
            bindings.truncate(before);
            Err(NoMemory)
        }
    }
}

// The same, at once where there are no names.
#[inline(always)]
fn bind(
    alloc: Global,
    alternative: u32,
    names: &[u32],
    variables: &Variables,
    bindings: &mut Vec<Binding>,
) -> Result<(), NoMemory>
    requires set { bindings_at names.now variables.now ≢ None }
    ensures bound { OnOk result ((bound : Bindings) × (bindings_at names.now variables.now ≡ Some bound) × (bindings.new.items ≡ bindings.old.items ++ map (bound_to alternative) bound)) }
    ensures kept { OnErr result (bindings.new.items ≡ bindings.old.items) }
{
    if names.is_empty() {
        return Ok(());
    }
    bind_names(alloc, alternative, names, variables, bindings)
}

impl Opened {
    /// No offers. It takes no memory.
    pub fn new(alloc: Global) -> Opened
        ensures { result ≡ [] }
    {
        Opened {
            alloc,
            offers: Vec::new(alloc),
            kept: Vec::new(alloc),
            bindings: Vec::new(alloc),
        }
    }

    /// Keeps an offer, with what the names of the unwinds around it are bound to.
    #[inline(always)]
    #[tactic(auto, using(crate::proofs::Offers::keeping))]
    pub fn keep(
        &mut self,
        names: &[u32],
        variables: &Variables,
        offer: Offer,
        kept: Kept,
        view: &View,
    ) -> Result<(), Stop>
        requires { kept_with names.now kept.place variables.now self.old (act_of offer kept.carried) view.now ≢ Amiss }
        ensures kept { OnOk result (kept_with names.now kept.place variables.now self.old (act_of offer kept.carried) view.now ≡ Gives self.new view.now) }
        ensures stops { IfErr result (λ stop. Stops stop (kept_with names.now kept.place variables.now self.old (act_of offer kept.carried) view.now)) }
    {
        if self.offers.len() >= MOST_OFFERS {
            return Err(Stop::Fault(FaultKind::TooLarge));
        }
        widen(&mut self.offers, &mut self.kept)?;
        let number = self.offers.len() as u32;
        bind(self.alloc, number, names, variables, &mut self.bindings)?;
        self.offers.push_reserved(offer);
        self.kept.push_reserved(kept);
        Ok(())
    }
}
