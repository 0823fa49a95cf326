ghost use Rattle.std.specs.Prelude.{◌≡◌, ◌≢◌, None, Some, IfErr, IfOk, OnOk, unwrap_or};
ghost use Rattle.chi_core.specs.Answer.{Amiss, Gives};
ghost use Rattle.chi_core.specs.Spots.{store};
ghost use Rattle.chi_core.specs.Variables.{bound};
ghost use Rattle.chi_core_frame.specs.Spots.{spot_in};
ghost use Rattle.chi_core_frame.specs.Stops.{Stops};

use chi_base::NoMemory;
use chi_core::View;
use chi_core_frame::{Spot, Stop, Variables, store};
use chi_value::Value;
use std::alloc::Global;
use std::marker::Model;

/// Variables of which a copy is changed, which is made before the first change.
#[derive(Debug, Drop)]
pub struct Draft<'v> {
    origin: &'v Variables,
    changed: Option<Variables>,
}

impl<'v> Model for Draft<'v> {
    ghost use Rattle.std.specs.Coded.{codes};
    ghost use Rattle.std.specs.Prelude.{unwrap_or};
    ghost use Rattle.chi_value.specs.contracts.value.Value as values;
    ghost use Rattle.chi_plain_open.specs.Drafts.{Draft};

    ghost Value = { Draft };

    ghost coded = { Prim.hlevel (codes, values.the_row.coded) };

    ghost view = { λ d. record { origin = d.origin.now; variables = unwrap_or d.changed d.origin.now } };
}

impl<'v> Draft<'v> {
    /// The variables as they are; nothing is copied before a change.
    pub fn of(origin: &'v Variables) -> Draft<'v>
        ensures { result ≡ record { origin = origin.now; variables = origin.now } }
    {
        Draft {
            origin,
            changed: None,
        }
    }

    /// The variables as they are now.
    pub fn get(&self) -> &Variables
        ensures { result.now ≡ self.now.variables }
    {
        match &self.changed {
            Some(variables) => variables,
            None => self.origin,
        }
    }

    /// The variables, to be changed and put back.
    fn take(&mut self, alloc: Global) -> Result<Variables, NoMemory>
        ensures taken { IfOk result (λ variables. variables ≡ self.old.variables) }
        ensures origin { self.new.origin ≡ self.old.origin }
    {
        match self.changed.take() {
            Some(variables) => Ok(variables),
            None => Ok(self.origin.copy(alloc)?),
        }
    }

    /// Binds the names of these slots to an element.
    pub fn bind(&mut self, alloc: Global, slots: &[u32], element: Value) -> Result<(), NoMemory>
        requires { bound slots.now element self.old.variables ≢ None }
        ensures bound { OnOk result (bound slots.now element self.old.variables ≡ Some self.new.variables) }
        ensures origin { self.new.origin ≡ self.old.origin }
    {
        let mut variables = self.take(alloc)?;
        variables.bind(alloc, slots, element)?;
        self.changed = Some(variables);
        Ok(())
    }

    /// Stores a value at a spot.
    pub fn store(
        &mut self,
        alloc: Global,
        spot: Spot,
        value: Value,
        view: &View,
    ) -> Result<(), Stop>
        requires { store (spot_in spot, value) self.old.variables view.now ≢ Amiss }
        ensures stored { OnOk result (store (spot_in spot, value) self.old.variables view.now ≡ Gives self.new.variables view.now) }
        ensures stops { IfErr result (λ stop. Stops stop (store (spot_in spot, value) self.old.variables view.now)) }
        ensures origin { self.new.origin ≡ self.old.origin }
    {
        let mut variables = self.take(alloc)?;
        store(alloc, &mut variables, spot, value, view)?;
        self.changed = Some(variables);
        Ok(())
    }

    /// The variables, where they have changed.
    pub fn into_changed(self) -> Option<Variables>
        ensures { unwrap_or result self.entry.origin ≡ self.entry.variables }
    {
        let Draft { origin: _, changed } = self;
        changed
    }
}
