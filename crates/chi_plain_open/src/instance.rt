ghost use Rattle.std.specs.Prelude.{◌≡◌, ◌≢◌, ◌≤◌, ◌↔◌, IsTrue, [], drop, length, unwrap_or, slice_get, Some, None, IfOk, OnOk, Err, IfSome, IfErr, MatchOption};
ghost use Rattle.chi_core.specs.declared.limits.TheConstants.{MOST_OFFERS};
ghost use Rattle.chi_core.specs.Answer.{Amiss, Gives, giving};
ghost use Rattle.chi_core.specs.Config as config;
ghost use Rattle.chi_core.specs.Config.{has_finished, new_instance, offers_in, settled};
ghost use Rattle.chi_core.specs.Meeting.{filled};
ghost use Rattle.chi_core.specs.Variables.{bind};
ghost use Rattle.chi_core_frame.specs.Stops.{Stops};
ghost use Rattle.chi_plain_eval.specs.Surroundings.{value_in};
ghost use Rattle.chi_core_frame.specs.Terms.{first_of, item_of};
ghost use Rattle.chi_plain_open.specs.Instances.{state_of, rest_of};
ghost use Rattle.chi_plain_open.specs.Acted.{acted};
ghost use Rattle.chi_plain_open.specs.Taken.{resumed_by, sent_by};

use crate::offer::Offer;
use chi_base::{Items, NoMemory};
use chi_core::{Act, ProcDef, View};
use chi_core_frame::{Stop, Task, Term, Variables};
use chi_plain_eval::{Surroundings, act};
use chi_value::Value;
use std::alloc::Global;
use std::marker::Model;
use std::mem;

/// What an instance is at.
#[derive(Debug, Drop)]
pub enum State<'a> {
    Running,
    Waiting(Vec<Offer<'a>>),
    /// For the instances of these numbers.
    Joining(Vec<u32>),
    Finished,
}

/// A process that was started.
#[derive(Debug, Drop)]
pub struct Instance<'a> {
    /// The number of its definition.
    definition: u32,
    variables: Variables,
    term: Term<'a>,
    state: State<'a>,
}

impl<'a> Model for Instance<'a> {
    ghost use Rattle.std.specs.Coded.{codes};
    ghost use Rattle.chi_core.specs.contracts.statement.CStat as statements;
    ghost use Rattle.chi_core.specs.contracts.expression.CExpr as expressions;
    ghost use Rattle.chi_core.specs.contracts.element.CElem as elements;
    ghost use Rattle.chi_value.specs.contracts.value.Value as values;
    ghost use Rattle.std.specs.Prelude.{◌≤◌, length};
    ghost use Rattle.chi_core.specs.declared.limits.TheConstants.{MOST_OFFERS};
    ghost use Rattle.chi_core.specs.Config.{Instance, offers_in};

    ghost Value = { Instance };

    ghost coded = { Prim.hlevel (codes, statements.the_row.coded, expressions.the_row.coded, elements.the_row.coded, values.the_row.coded) };

    ghost use Rattle.chi_plain_open.specs.Instances.{state_of};

    ghost view = { λ i. record {
      definition = i.definition;
      variables = i.variables;
      term = i.term;
      state = state_of i.state;
    } };

    ghost invariant = { λ i. length (offers_in (state_of i.state)) ≤ MOST_OFFERS };
}

/// Binds slots, one after another.
#[tactic(auto, using(crate::proofs::Bindings::binding))]
fn bind_all(
    alloc: Global,
    variables: &mut Variables,
    bindings: Items<(u32, Value)>,
) -> Result<(), NoMemory>
    requires { bind bindings variables.old ≢ None }
    ensures { OnOk result (bind bindings variables.old ≡ Some variables.new) }
{
    for (slot, value) in bindings.into_vec(alloc)? {
        variables.set(slot, value);
    }
    Ok(())
}

/// What is received goes into the slot: both are there, or neither is.
#[tactic(auto, using(crate::proofs::Bindings::filling))]
fn fill(variables: &mut Variables, slot: Option<u32>, received: Option<Value>)
    requires { filled slot received variables.old ≢ None }
    ensures { filled slot received variables.old ≡ Some variables.new }
{
    match (slot, received) {
        (None, None) => {}
        (Some(slot), Some(value)) => variables.set(slot, value),
        (Some(_), None) => unreachable!(),
        (None, Some(_)) => unreachable!(),
    }
}

impl<'a> Instance<'a> {
    /// An instance of the definition of this number, which isn't at rest yet where it has nothing to do.
    pub fn new(
        alloc: Global,
        number: u32,
        process: &'a ProcDef,
        arguments: Vec<Value>,
    ) -> Result<Instance<'a>, NoMemory>
        ensures { IfOk result (λ i. i ≡ new_instance number process.now arguments.items) }
    {
        let variables = Variables::new(alloc, process.slots.as_slice().len(), arguments)?;
        let term = Term::new(alloc, process.body.as_slice())?;
        Ok(Instance {
            definition: number,
            variables,
            term,
            state: State::Running,
        })
    }

    /// The number of its definition.
    pub fn definition(&self) -> u32
        ensures { result ≡ self.now.definition }
    {
        self.definition
    }

    /// Its variables.
    pub fn variables(&self) -> &Variables
        ensures { result.now ≡ self.now.variables }
    {
        &self.variables
    }

    /// The item that comes first.
    pub fn first(&self) -> Option<&Task<'a>>
        ensures { MatchOption result (self.now.term ≡ []) (λ task. first_of self.now.term ≡ Some (item_of task.now)) }
    {
        self.term.first()
    }

    /// What it is at.
    pub fn state(&self) -> &State<'a>
        ensures state { state_of result.now ≡ self.now.state }
        ensures within { length (offers_in (state_of result.now)) ≤ MOST_OFFERS }
    {
        &self.state
    }

    /// Whether it has finished.
    pub fn has_finished(&self) -> bool
        ensures { result ≡ has_finished self.now }
    {
        match &self.state {
            State::Running => false,
            State::Waiting(_) => false,
            State::Joining(_) => false,
            State::Finished => true,
        }
    }

    /// What it offers, where it waits.
    pub fn offers(&self) -> &[Offer<'a>]
        ensures offers { result.now ≡ offers_in self.now.state }
        ensures within { length (offers_in self.now.state) ≤ MOST_OFFERS }
    {
        match &self.state {
            State::Running => &[],
            State::Waiting(offers) => offers.as_slice(),
            State::Joining(_) => &[],
            State::Finished => &[],
        }
    }

    fn is_running(&self) -> bool
        ensures { IsTrue result ↔ (self.now.state ≡ config.Running) }
    {
        match &self.state {
            State::Running => true,
            State::Waiting(_) => false,
            State::Joining(_) => false,
            State::Finished => false,
        }
    }

    /// Where it runs and has nothing left to do, it has finished.
    pub fn settle(&mut self)
        ensures { self.new ≡ settled self.old }
    {
        if self.is_running() && self.term.is_empty() {
            self.state = State::Finished;
        }
    }

    /// What it waited for is there.
    pub fn go_on(&mut self)
        ensures { self.new ≡ settled (record self.old { state = config.Running }) }
    {
        self.state = State::Running;
        self.settle();
    }

    /// The item that came first is done, and it is in this state then, with these variables where
    /// they have changed.
    pub fn proceed(&mut self, variables: Option<Variables>, state: State<'a>)
        requires { length (offers_in (state_of state)) ≤ MOST_OFFERS }
        ensures { self.new ≡ settled (record (rest_of self.old) { variables = unwrap_or variables self.old.variables; state = state_of state.entry }) }
    {
        self.term.drop_first();
        if let Some(changed) = variables {
            self.variables = changed;
        }
        self.state = state;
        self.settle();
    }

    /// Takes its offer of this number out. It runs then.
    fn accept(&mut self, number: u32) -> Offer<'a>
        requires { slice_get (offers_in self.old.state) number ≢ None }
        ensures offer { slice_get (offers_in self.old.state) number ≡ Some result }
        ensures rest { self.new ≡ record self.old { state = config.Running } }
    {
        match mem::replace(&mut self.state, State::Running) {
            State::Waiting(mut offers) => offers.swap_remove(number as usize),
            State::Running => unreachable!(),
            State::Joining(_) => unreachable!(),
            State::Finished => unreachable!(),
        }
    }

    /// Its offer of this number is taken, and it receives a value where there is one. What it sends is
    /// the answer.
    pub fn resume(
        &mut self,
        alloc: Global,
        number: u32,
        received: Option<Value>,
        view: &View,
    ) -> Result<Option<Value>, NoMemory>
        requires { resumed_by number received self.old view.now ≢ Amiss }
        ensures resumed { OnOk result (resumed_by number received self.old view.now ≡ Gives self.new view.now) }
        ensures sent { IfOk result (λ sent. sent ≡ sent_by (slice_get (offers_in self.old.state) number)) }
    {
        let (act, bindings, body) = self.accept(number).into_parts();
        let (slot, sent) = match act {
            Act::Send(_, value) => (None, value),
            Act::Receive(_, slot) => (slot, None),
            Act::Delay(_) => (None, None),
        };
        bind_all(alloc, &mut self.variables, bindings)?;
        fill(&mut self.variables, slot, received);
        self.term.put_first(body)?;
        Ok(sent)
    }
    /// Does its first item, which is one that functions have too. What costs too much changes nothing.
    pub fn act(
        &mut self,
        alloc: Global,
        scene: &Surroundings<'_>,
        view: &mut View,
    ) -> Result<(), Stop>
        requires { acted (value_in scene.now) self.old view.old ≢ Amiss }
        ensures acted { OnOk result (giving settled (acted (value_in scene.now) self.old view.old) ≡ Gives self.new view.new) }
        ensures stops { IfErr result (λ stop. Stops stop (acted (value_in scene.now) self.old view.old)) }
        ensures kept { result ≡ Err Stop.Spent → self.new ≡ self.old }
    {
        match act(alloc, scene, &mut self.variables, &mut self.term, view)? {
            None => {
                self.settle();
                Ok(())
            }
            Some(_) => unreachable!(),
        }
    }
}
