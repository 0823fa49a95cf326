//! New instances.

ghost use Rattle.std.specs.Prelude.{◌≡◌, ◌+◌, ◌<◌, ◌≤◌, ◌++◌, ◌∷◌, [], length, map, OnOk};
ghost use Rattle.chi_core.specs.declared.limits.TheConstants.{MOST_INSTANCES};
ghost use Rattle.chi_machine_runs.specs.Views.{held_in};
ghost use Rattle.chi_machine.specs.Crowds.{IsCrowd, Becomes, FirstStay};
ghost use Rattle.chi_machine.specs.Views.{instances_of};

use crate::crowd::Crowd;
use crate::instance::Instance;
use chi_base::NoMemory;
use chi_code::Code;
use chi_machine_runs::{Made, Room};

impl Crowd {
    /// One instance more, at its end if its code has nothing to do.
    pub(crate) fn add(
        &mut self,
        code: &Code,
        new: Made,
        spare: &mut Vec<Room>,
    ) -> Result<(), NoMemory>
        requires kept { IsCrowd self.old }
        requires room { length self.old.instances.items < MOST_INSTANCES }
        ensures kept { OnOk result (IsCrowd self.new) }
        ensures added { OnOk result (Becomes self.old self.new (instances_of self.old ++ held_in code.now new ∷ [])) }
        ensures first { OnOk result (FirstStay self.old self.new) }
    {
        let Made { process, at, room } = new;
        let p = self.instances.len() as u32;
        self.agenda.add()?;
        let room = Some(room);
        self.instances.push(Instance { process, at, room })?;
        self.rest_at(code, p, at, spare)
    }

    /// New instances come behind the others.
    #[inline(never)]
    pub(crate) fn add_all(
        &mut self,
        code: &Code,
        made: Vec<Made>,
        spare: &mut Vec<Room>,
    ) -> Result<(), NoMemory>
        requires kept { IsCrowd self.old }
        requires room { length self.old.instances.items + length made.items ≤ MOST_INSTANCES }
        ensures kept { OnOk result (IsCrowd self.new) }
        ensures added { OnOk result (Becomes self.old self.new (instances_of self.old ++ map (held_in code.now) made.items)) }
        ensures first { OnOk result (FirstStay self.old self.new) }
    {
        for new in made {
            self.add(code, new, spare)?;
        }
        Ok(())
    }
}
