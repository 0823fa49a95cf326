//! Turns of a run, one by one and so many.

ghost use Rattle.std.specs.Prelude.{◌≡◌, ◌<◌, ◌^◌, ℕ, List, ◌++◌, IfOk, OnErr};
ghost use Rattle.chi_sched.specs.Policies.{Answers};
ghost use Rattle.chi_core.specs.Options.{ending};
ghost use Rattle.chi_core.specs.Picks.{Pick, picked_label};
ghost use Rattle.chi_machine_laws.specs.Choosing.{config_of};
ghost use Rattle.chi_machine.specs.Courses.{IsCourse, IsPicked, TakesTo, AdvancesTo, HasGone};
ghost use Rattle.chi_machine.specs.Crowds.{IsCrowd};
ghost use Rattle.chi_machine.specs.Views.{whole_of};

use crate::taken::Taken;
use crate::world::World;
use chi_base::NoMemory;
use chi_code::Code;
use chi_core::{Label, Verdict};
use chi_machine_agenda::{Ending, agenda_law};
use chi_machine_laws::safe_law;
use chi_sched::{Chooser, chooser_law};

/// A run that goes on: what the machine has, the turn, and what is left of the bound.
#[derive(Drop)]
pub struct Course {
    pub world: World,
    pub turn: u64,
    pub left: u64,
}

impl Course {
    /// The label that the policy picks at this turn, if anything may come next.
    #[inline(always)]
    pub fn pick<C: Chooser>(&self, chooser: &C) -> Option<Label>
        requires kept { IsCrowd self.now.world.crowd }
        requires early { self.now.turn < 2 ^ 63 }
        ensures { (pick : Pick) → Answers (C.gives chooser.now) pick → result ≡ picked_label pick self.now.turn (config_of (whole_of self.now.world)) }
    {
        agenda_law();
        self.world.crowd.agenda.pick(chooser, self.turn)
    }

    /// Takes a label that may be picked at this turn: the ending, where it ends the run or costs more than is left. What it
    /// writes goes to the end of the output.
    #[inline(always)]
    pub fn take(
        &mut self,
        code: &Code,
        label: &Label,
        out: &mut Vec<u8>,
    ) -> Result<Option<Ending>, NoMemory>
        requires course { IsCourse code.now self.old }
        requires picked { IsPicked self.old label.now }
        ensures taken { IfOk result (λ end. (text : List ℕ) × (out.new.items ≡ out.old.items ++ text) × TakesTo code.now self.old label.now end self.new text) }
        ensures kept { OnErr result (out.new.items ≡ out.old.items) }
    {
        safe_law();
        let clock = self.world.crowd.agenda.clock();
        match self.world.take(code, label, self.left, out)? {
            Taken::On(rest) => {
                self.left = rest;
                self.turn += 1;
                Ok(None)
            }
            Taken::Over(verdict) => Ok(Some(Ending::of(verdict, clock))),
            Taken::Spent => Ok(Some(Ending::of(Verdict::OutOfSteps, clock))),
        }
    }

    /// How the run ends there, if nothing may come next.
    #[inline(always)]
    pub fn ending(&self) -> Option<Ending>
        requires { IsCrowd self.now.world.crowd }
        ensures { result ≡ ending (config_of (whole_of self.now.world)) }
    {
        agenda_law();
        self.world.crowd.agenda.ending()
    }

    /// So many turns, or fewer where the run ends: its ending then. What they write goes to the end of the output, that of
    /// whole labels alone where memory is wanting.
    pub fn advance<C: Chooser>(
        &mut self,
        code: &Code,
        chooser: &C,
        turns: u64,
        out: &mut Vec<u8>,
    ) -> Result<Option<Ending>, NoMemory>
        requires { IsCourse code.now self.old }
        ensures advanced { IfOk result (λ end. (text : List ℕ) × (out.new.items ≡ out.old.items ++ text)
            × ((pick : Pick) → Answers (C.gives chooser.now) pick → AdvancesTo code.now pick turns self.old self.new end text)) }
        ensures written { OnErr result ((text : List ℕ) × (out.new.items ≡ out.old.items ++ text)
            × ((pick : Pick) → Answers (C.gives chooser.now) pick → HasGone code.now pick turns self.old text)) }
    {
        safe_law();
        chooser_law(chooser);
        for _done in 0..turns {
            match self.pick(chooser) {
                Some(label) => match self.take(code, &label, out)? {
                    None => {}
                    Some(ending) => return Ok(Some(ending)),
                },
                None => return Ok(self.ending()),
            }
        }
        Ok(self.ending())
    }
}
