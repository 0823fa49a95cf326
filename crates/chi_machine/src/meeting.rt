//! Instances that wait or join go on.

ghost use Rattle.std.specs.Prelude.{◌≡◌, slice_set, IfOk, OnOk};
ghost use Rattle.chi_machine_laws.specs.Deeds.{held_there};
ghost use Rattle.chi_machine_runs.specs.Resuming.{value_by};
ghost use Rattle.chi_machine.specs.Crowds.{IsCrowd, Becomes};
ghost use Rattle.chi_machine.specs.Resuming.{MayResume, MayGoOn};
ghost use Rattle.chi_machine.specs.Views.{instances_of};

use crate::crowd::Crowd;
use chi_base::NoMemory;
use chi_code::Code;
use chi_machine_runs::{Room, settle};
use chi_value::Value;

impl Crowd {
    /// The offer of this number of instance `p` is taken, with what it receives: the instance goes on. What it sends is the answer.
    #[inline(always)]
    pub(crate) fn take_offer(
        &mut self,
        code: &Code,
        p: u32,
        a: u32,
        received: Option<Value>,
        spare: &mut Vec<Room>,
    ) -> Result<Option<Value>, NoMemory>
        requires kept { IsCrowd self.old }
        requires may { MayResume code.now (instances_of self.old) p a received }
        ensures kept { OnOk result (IsCrowd self.new) }
        ensures resumed { OnOk result ((r : MayResume code.now (instances_of self.old) p a received) → Becomes self.old self.new (slice_set (instances_of self.old) p r.next)) }
        ensures sent { IfOk result (λ sent. (r : MayResume code.now (instances_of self.old) p a received) → sent ≡ value_by r.kept.act) }
    {
        match &self.instances[p as usize].room {
            Some(room) => self.agenda.go_on(p, room.opened.offers()),
            None => unreachable!(),
        }
        let instance = &mut self.instances[p as usize];
        let (sent, place) = instance.resume(a, received);
        self.rest_at(code, p, settle(code, place), spare)?;
        Ok(sent)
    }

    /// Instance `p`, which joined, goes on.
    pub(crate) fn go_on(
        &mut self,
        code: &Code,
        p: u32,
        spare: &mut Vec<Room>,
    ) -> Result<(), NoMemory>
        requires kept { IsCrowd self.old }
        requires may { MayGoOn code.now (instances_of self.old) p }
        ensures kept { OnOk result (IsCrowd self.new) }
        ensures goes { OnOk result ((r : MayGoOn code.now (instances_of self.old) p) → Becomes self.old self.new (slice_set (instances_of self.old) p (held_there code.now r.h.definition r.h.frame r.place))) }
    {
        let at = self.instances[p as usize].at;
        self.agenda.end_join(p);
        self.rest_at(code, p, settle(code, at), spare)
    }
}
