ghost use Rattle.std.specs.Prelude.{◌≡◌, ◌≢◌, ◌≤◌, [], ◌∷◌, ◌++◌, length, None, Some, IfErr, IfOk, OnOk, unwrap_or};
ghost use Rattle.chi_core.specs.declared.limits.TheConstants.{MOST_OFFERS};
ghost use Rattle.chi_core.specs.Answer.{Amiss, Gives};
ghost use Rattle.chi_core.specs.Opening.{kept};
ghost use Rattle.chi_core.specs.Variables.{bindings_at, bound};
ghost use Rattle.chi_core_frame.specs.Stops.{Stops};
ghost use Rattle.chi_plain_open.specs.Drafts.{opening_of};

use crate::draft::Draft;
use crate::offer::Offer;
use chi_base::{Items, NoMemory};
use chi_core::{Act, CStat, FaultKind, MOST_OFFERS, View};
use chi_core_frame::{Stop, Variables};
use chi_value::Value;
use std::alloc::Global;
use std::marker::Model;

/// What slots are bound to, each of which is set.
#[tactic(auto, using(crate::proofs::Keeping::gathering))]
fn bindings_at(
    alloc: Global,
    slots: &[u32],
    variables: &Variables,
) -> Result<Items<(u32, Value)>, NoMemory>
    requires { bindings_at slots.now variables.now ≢ None }
    ensures { IfOk result (λ bindings. bindings_at slots.now variables.now ≡ Some bindings) }
{
    let mut bindings = Vec::new(alloc);
    for slot in slots {
        let value = variables.get(*slot).copy(alloc)?;
        bindings.push((*slot, value))?;
    }
    Ok(Items::of(alloc, bindings)?)
}

/// A select that is being opened: the variables, and the offers that were kept so far.
#[derive(Debug, Drop)]
pub struct Opening<'v, 'a> {
    variables: Draft<'v>,
    offers: Vec<Offer<'a>>,
}

impl<'v, 'a> Model for Opening<'v, 'a> {
    ghost use Rattle.std.specs.Coded.{codes};
    ghost use Rattle.std.specs.Prelude.{◌≤◌, length};
    ghost use Rattle.chi_core.specs.contracts.statement.CStat as statements;
    ghost use Rattle.chi_core.specs.contracts.expression.CExpr as expressions;
    ghost use Rattle.chi_core.specs.contracts.element.CElem as elements;
    ghost use Rattle.chi_value.specs.contracts.value.Value as values;
    ghost use Rattle.chi_core.specs.declared.limits.TheConstants.{MOST_OFFERS};
    ghost use Rattle.chi_plain_open.specs.Drafts.{Opened};

    ghost Value = { Opened };

    ghost coded = { Prim.hlevel (codes, statements.the_row.coded, expressions.the_row.coded, elements.the_row.coded, values.the_row.coded) };

    ghost view = { λ o. record { origin = o.variables.origin; variables = o.variables.variables; offers = o.offers.items } };

    ghost invariant = { λ o. length o.offers.items ≤ MOST_OFFERS };
}

impl<'v, 'a> Opening<'v, 'a> {
    /// No offers yet, over these variables.
    pub fn new(alloc: Global, variables: &'v Variables) -> Opening<'v, 'a>
        ensures { result ≡ record { origin = variables.now; variables = variables.now; offers = [] } }
    {
        Opening {
            variables: Draft::of(variables),
            offers: Vec::new(alloc),
        }
    }

    /// The variables, with the names of the unwinds around bound.
    pub fn variables(&self) -> &Variables
        ensures { result.now ≡ self.now.variables }
    {
        self.variables.get()
    }

    /// Binds the names of an unwind to an element.
    pub fn bind(&mut self, alloc: Global, slots: &[u32], element: Value) -> Result<(), NoMemory>
        requires { bound slots.now element self.old.variables ≢ None }
        ensures bound { OnOk result (bound slots.now element self.old.variables ≡ Some self.new.variables) }
        ensures rest { self.new ≡ record self.old { variables = self.new.variables } }
    {
        self.variables.bind(alloc, slots, element)?;
        Ok(())
    }

    /// Keeps an offer, with what the names of the unwinds around it are bound to.
    #[tactic(auto, using(crate::proofs::Keeping::keeping))]
    pub fn keep(
        &mut self,
        alloc: Global,
        names: &[u32],
        body: &'a [CStat],
        act: Act,
        view: &View,
    ) -> Result<(), Stop>
        requires { kept names.now body.now (opening_of self.old) act view.now ≢ Amiss }
        ensures kept { OnOk result (kept names.now body.now (opening_of self.old) act view.now ≡ Gives (opening_of self.new) view.now) }
        ensures stops { IfErr result (λ stop. Stops stop (kept names.now body.now (opening_of self.old) act view.now)) }
        ensures origin { self.new.origin ≡ self.old.origin }
    {
        if self.offers.len() >= MOST_OFFERS {
            return Err(Stop::Fault(FaultKind::TooLarge));
        }
        let bindings = bindings_at(alloc, names, self.variables.get())?;
        self.offers.push(Offer::new(act, bindings, body))?;
        Ok(())
    }

    /// The variables, where they have changed, and the offers.
    pub fn finish(self) -> (Option<Variables>, Vec<Offer<'a>>)
        ensures variables { unwrap_or result.0 self.entry.origin ≡ self.entry.variables }
        ensures offers { result.1.items ≡ self.entry.offers }
        ensures few { length result.1.items ≤ MOST_OFFERS }
    {
        let Opening { variables, offers } = self;
        (variables.into_changed(), offers)
    }
}
