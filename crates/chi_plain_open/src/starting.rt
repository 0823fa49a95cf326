ghost use Rattle.std.specs.Prelude.{◌≡◌, ◌≢◌, [], None, Some, IfErr, IfOk, OnOk, option_map, unwrap_or};
ghost use Rattle.chi_core.specs.Answer.{Amiss, Gives};
ghost use Rattle.chi_core.specs.Starting.{made_by};
ghost use Rattle.chi_core.specs.Variables.{bound};
ghost use Rattle.chi_core_frame.specs.Spots.{spot_in};
ghost use Rattle.chi_core_frame.specs.Stops.{Stops};
ghost use Rattle.chi_plain_open.specs.Drafts.{started_of};

use crate::draft::Draft;
use crate::instance::Instance;
use chi_base::NoMemory;
use chi_core::{FaultKind, MOST_INSTANCES, ProcDef, View};
use chi_core_frame::{Spot, Stop, Variables};
use chi_value::Value;
use std::alloc::Global;
use std::marker::Model;

/// A run or a start statement that is being done: the variables, and the instances that were made
/// so far, which aren't at rest yet.
#[derive(Debug, Drop)]
pub struct Starting<'v, 'a> {
    variables: Draft<'v>,
    made: Vec<Instance<'a>>,
}

impl<'v, 'a> Model for Starting<'v, 'a> {
    ghost use Rattle.std.specs.Coded.{codes};
    ghost use Rattle.chi_core.specs.contracts.statement.CStat as statements;
    ghost use Rattle.chi_core.specs.contracts.expression.CExpr as expressions;
    ghost use Rattle.chi_core.specs.contracts.element.CElem as elements;
    ghost use Rattle.chi_value.specs.contracts.value.Value as values;
    ghost use Rattle.chi_plain_open.specs.Drafts.{Made};

    ghost Value = { Made };

    ghost coded = { Prim.hlevel (codes, statements.the_row.coded, expressions.the_row.coded, elements.the_row.coded, values.the_row.coded) };

    ghost view = { λ s. record { origin = s.variables.origin; variables = s.variables.variables; made = s.made.items } };
}

impl<'v, 'a> Starting<'v, 'a> {
    /// No instances yet, over these variables.
    pub fn new(alloc: Global, variables: &'v Variables) -> Starting<'v, 'a>
        ensures { result ≡ record { origin = variables.now; variables = variables.now; made = [] } }
    {
        Starting {
            variables: Draft::of(variables),
            made: Vec::new(alloc),
        }
    }

    /// The variables, with the names of the unwinds around bound.
    pub fn variables(&self) -> &Variables
        ensures { result.now ≡ self.now.variables }
    {
        self.variables.get()
    }

    /// Binds the names of an unwind to an element.
    pub fn bind(&mut self, alloc: Global, slots: &[u32], element: Value) -> Result<(), NoMemory>
        requires { bound slots.now element self.old.variables ≢ None }
        ensures bound { OnOk result (bound slots.now element self.old.variables ≡ Some self.new.variables) }
        ensures rest { self.new ≡ record self.old { variables = self.new.variables } }
    {
        self.variables.bind(alloc, slots, element)?;
        Ok(())
    }

    /// Makes an instance of the process of this number, of which the spot is told.
    #[tactic(auto, using(crate::proofs::Making::starting), unfolding(chi_core::specs::Starting::made_by))]
    pub fn make(
        &mut self,
        alloc: Global,
        number: u32,
        process: &'a ProcDef,
        arguments: Vec<Value>,
        spot: Option<Spot>,
        view: &mut View,
    ) -> Result<(), Stop>
        requires { made_by number process.now arguments.items (option_map spot_in spot) (started_of self.old) view.old ≢ Amiss }
        ensures made { OnOk result (made_by number process.now arguments.items (option_map spot_in spot) (started_of self.old) view.old ≡ Gives (started_of self.new) view.new) }
        ensures stops { IfErr result (λ stop. Stops stop (made_by number process.now arguments.items (option_map spot_in spot) (started_of self.old) view.old)) }
        ensures origin { self.new.origin ≡ self.old.origin }
    {
        let next = view.instances;
        if next as usize >= MOST_INSTANCES {
            return Err(Stop::Fault(FaultKind::TooManyInstances));
        }
        view.instances = next + 1;
        let new = Instance::new(alloc, number, process, arguments)?;
        self.made.push(new)?;
        match spot {
            Some(spot) => Ok(
                self.variables
                    .store(alloc, spot, Value::Inst(Some(next)), view)?,
            ),
            None => Ok(()),
        }
    }

    /// The variables, where they have changed, and the instances.
    pub fn finish(self) -> (Option<Variables>, Vec<Instance<'a>>)
        ensures variables { unwrap_or result.0 self.entry.origin ≡ self.entry.variables }
        ensures made { result.1.items ≡ self.entry.made }
    {
        let Starting { variables, made } = self;
        (variables.into_changed(), made)
    }
}
