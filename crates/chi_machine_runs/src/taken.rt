//! What becomes of the offers of an instance once it waits no longer.

ghost use Rattle.std.specs.Prelude.{◌≡◌, ◌≢◌, ◌≤◌, [], ◌∷◌, None, Some, Option, length, map};
ghost use Rattle.chi_chan_laws.specs.Agreement.{offered_by};
ghost use Rattle.chi_core.specs.declared.limits.TheConstants.{MOST_OFFERS};
ghost use Rattle.chi_core.specs.Meeting.{filled};
ghost use Rattle.chi_core.specs.Variables.{Variables, bind};
ghost use Rattle.chi_machine_runs.specs.Kept.{act_of, bound_at, value_in};
ghost use Rattle.chi_machine_runs.specs.Resuming.{resumed_at, sent_at, slot_by};
ghost use Rattle.chi_value.specs.declared.value.Value.{Value};
ghost use Rattle.std.specs.Option.{option_copied};

use crate::opened::{Binding, Carried, Kept, Opened};
use chi_chan::Offer;
use chi_core_frame::Variables;
use chi_value::Value;
use std::mem;

#[inline(never)]
fn drop_value(value: Value) {
    drop(value);
}

// Lets what was carried go, at once where it is no value.
#[inline(always)]
fn let_go(kept: Kept) {
    match kept.carried {
        Carried::Nothing => {}
        Carried::Slot(_) => {}
        Carried::Sent(value) => drop_value(value),
    }
}

// Nothing is kept any longer.
#[inline(always)]
fn empty(kept: &mut Vec<Kept>)
    ensures { kept.new.items ≡ [] }
{
    while let Some(last) = kept.pop() {
        let_go(last);
    }
}

// The slot into which something is received by an offer.
#[inline(always)]
fn slot_in(offer: Offer, carried: &Carried) -> Option<u32>
    ensures { result ≡ slot_by (act_of offer carried.now) }
{
    match offer {
        Offer::Receive(_) => match carried {
            Carried::Slot(slot) => Some(*slot),
            Carried::Nothing => None,
            Carried::Sent(_) => None,
        },
        Offer::Send(_) => None,
        Offer::Delay(_) => None,
    }
}

// Binds a name, if it is one of the alternative.
#[inline(always)]
#[tactic(auto, using(crate::proofs::Resumed::binding_one))]
fn bind_one(binding: Binding, a: u32, variables: &mut Variables)
    requires { bind (bound_at a (binding ∷ [])) variables.old ≢ None }
    ensures { bind (bound_at a (binding ∷ [])) variables.old ≡ Some variables.new }
{
    if binding.alternative == a {
        let Binding {
            alternative: _,
            slot,
            value,
        } = binding;
        variables.set(slot, value);
    }
}

// Binds the names of an alternative, one after another. No bindings are left.
#[inline(never)]
#[tactic(auto, using(crate::proofs::Resumed::binding))]
fn bind_back(bindings: &mut Vec<Binding>, a: u32, variables: &mut Variables)
    requires { bind (bound_at a bindings.old.items) variables.old ≢ None }
    ensures bound { bind (bound_at a bindings.old.items) variables.old ≡ Some variables.new }
    ensures none { bindings.new.items ≡ [] }
{
    bindings.reverse();
    while let Some(binding) = bindings.pop() {
        bind_one(binding, a, variables);
    }
}

// The same, at once where there are none.
#[inline(always)]
#[tactic(auto, using(crate::proofs::Resumed::unbound))]
fn bind_all(bindings: &mut Vec<Binding>, a: u32, variables: &mut Variables)
    requires { bind (bound_at a bindings.old.items) variables.old ≢ None }
    ensures bound { bind (bound_at a bindings.old.items) variables.old ≡ Some variables.new }
    ensures none { bindings.new.items ≡ [] }
{
    if !bindings.is_empty() {
        bind_back(bindings, a, variables);
    }
}

// What is received goes into the slot: both are there, or neither is.
#[inline(always)]
#[tactic(auto, using(crate::proofs::Resumed::filled_there))]
fn fill(variables: &mut Variables, slot: Option<u32>, received: Option<Value>)
    requires { filled slot received variables.old ≢ None }
    ensures { filled slot received variables.old ≡ Some variables.new }
{
    match (slot, received) {
        (None, None) => {}
        (Some(slot), Some(value)) => variables.set(slot, value),
        (Some(_), None) => unreachable!(),
        (None, Some(_)) => unreachable!(),
    }
}

// The value that is carried beside an offer, if there is one.
fn carried_value(carried: &Carried) -> Option<&Value>
    ensures { option_copied result ≡ value_in carried.now }
{
    match carried {
        Carried::Sent(value) => Some(value),
        Carried::Nothing => None,
        Carried::Slot(_) => None,
    }
}

// Takes the value that is carried beside an offer, if there is one.
#[inline(always)]
fn take_carried(kept: &mut Kept) -> Option<Value>
    ensures value { result ≡ value_in kept.old.carried }
    ensures bare { kept.new ≡ record kept.old { carried = Carried.Nothing } }
{
    match mem::replace(&mut kept.carried, Carried::Nothing) {
        Carried::Sent(value) => Some(value),
        Carried::Nothing => None,
        Carried::Slot(_) => None,
    }
}

impl Opened {
    /// No offers any longer. What they take of memory stays, for others.
    #[inline(always)]
    pub fn clear(&mut self)
        ensures { self.new ≡ [] }
    {
        self.offers.clear();
        empty(&mut self.kept);
        self.bindings.clear();
    }

    /// The offers as waiting lists have them.
    #[inline(always)]
    #[tactic(auto, using(crate::proofs::Resumed::offering))]
    pub fn offers(&self) -> &[Offer]
        ensures offers { result.now ≡ map (λ k. offered_by k.act) self.now }
        ensures few { length result.now ≤ MOST_OFFERS }
    {
        self.offers.as_slice()
    }

    /// The value that the offer of this number sends, if it sends one.
    pub fn value(&self, a: u32) -> Option<&Value>
        ensures { option_copied result ≡ sent_at self.now a }
    {
        match self.offers.get(a as usize) {
            Some(Offer::Send(_)) => carried_value(&self.kept[a as usize].carried),
            Some(Offer::Receive(_)) => None,
            Some(Offer::Delay(_)) => None,
            None => None,
        }
    }

    /// Takes out the value that the offer of this number sends, if it sends one. For who takes the offer nothing has changed.
    #[inline(always)]
    #[tactic(auto, using(crate::proofs::Resumed::taking))]
    pub fn take_value(&mut self, a: u32) -> Option<Value>
        ensures value { result ≡ sent_at self.old a }
        ensures same { (x : Option Value) (variables : Variables) → resumed_at self.new a x variables ≡ resumed_at self.old a x variables }
    {
        match self.offers.get(a as usize) {
            Some(Offer::Send(_)) => take_carried(&mut self.kept[a as usize]),
            Some(Offer::Receive(_)) => None,
            Some(Offer::Delay(_)) => None,
            None => None,
        }
    }

    /// The offer of this number is taken: its names are bound, and what is received is stored. The place is where its body
    /// begins. No offers are left.
    #[inline(always)]
    #[tactic(auto, using(crate::proofs::Resumed::resuming))]
    pub fn resume(&mut self, variables: &mut Variables, a: u32, received: Option<Value>) -> usize
        requires { resumed_at self.old a received variables.old ≢ None }
        ensures resumed { resumed_at self.old a received variables.old ≡ Some (variables.new, result) }
        ensures free { self.new ≡ [] }
    {
        let kept = &self.kept[a as usize];
        let place = kept.place as usize;
        let slot = slot_in(self.offers[a as usize], &kept.carried);
        bind_all(&mut self.bindings, a, variables);
        fill(variables, slot, received);
        self.clear();
        place
    }
}
