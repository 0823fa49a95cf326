//! Where an instance that ran rests.

ghost use Rattle.std.specs.Prelude.{◌≡◌, ◌≢◌, ℕ, ◌<◌, true, length, slice_get, slice_set, OnOk, Some};
ghost use Rattle.chi_exec_law.specs.State.{Frame};
ghost use Rattle.chi_machine_laws.specs.Deeds.{held_by, held_there};
ghost use Rattle.chi_machine_laws.specs.Instances as law;
ghost use Rattle.chi_machine_agenda.specs.Phases.{Running, AreThere};
ghost use Rattle.chi_machine.specs.declared.instance.Instance.{Instance};
ghost use Rattle.chi_machine.specs.Crowds.{IsCrowd, Becomes, OthersStay};
ghost use Rattle.chi_machine.specs.Ends.{held_so};
ghost use Rattle.chi_machine.specs.Views.{frame_at, offers_at, instances_of};

use crate::crowd::Crowd;
use chi_base::NoMemory;
use chi_code::{Code, Instr};
use chi_machine_runs::Room;

// Whether an instance that stands before an instruction is at its end.
fn ends(instr: &Instr) -> bool
    ensures { (definition : ℕ) (frame : Frame) (place : ℕ) → held_by definition frame place (Some instr.now) ≡ held_so result definition frame place }
{
    match instr {
        Instr::Done => true,
        _ => false,
    }
}

// Whether an instance that stands at a place is at its end.
#[tactic(auto, using(crate::proofs::Standings::ending))]
fn ends_at(code: &Code, at: usize) -> bool
    ensures { (definition : ℕ) (frame : Frame) → held_there code.now definition frame at ≡ held_so result definition frame at }
{
    match code.instrs.as_slice().get(at) {
        Some(instr) => ends(instr),
        None => false,
    }
}

// A room may serve another instance.
fn spared(mut room: Room, spare: &mut Vec<Room>) -> Result<(), NoMemory> {
    room.clear();
    spare.push(room)?;
    Ok(())
}

impl Crowd {
    // Instance `p`, which runs, has finished.
    #[inline(never)]
    fn finish(&mut self, p: u32, spare: &mut Vec<Room>) -> Result<(), NoMemory>
        requires kept { IsCrowd self.old }
        requires runs { slice_get self.old.agenda.phases p ≡ Some Running }
        ensures kept { OnOk result (IsCrowd self.new) }
        ensures finished { OnOk result ((i : Instance) → slice_get self.old.instances.items p ≡ Some i → Becomes self.old self.new (slice_set (instances_of self.old) p (held_so true i.process (frame_at i.room) i.at))) }
        ensures others { OnOk result (OthersStay self.old self.new p) }
    {
        self.agenda.finish(p)?;
        let instance = &mut self.instances[p as usize];
        match instance.room.take() {
            Some(room) => spared(room, spare),
            None => unreachable!(),
        }
    }

    /// Instance `p`, which runs, stands at a place: before its next turn, or at its end.
    #[inline(always)]
    pub(crate) fn rest_at(
        &mut self,
        code: &Code,
        p: u32,
        at: usize,
        spare: &mut Vec<Room>,
    ) -> Result<(), NoMemory>
        requires kept { IsCrowd self.old }
        requires runs { slice_get self.old.agenda.phases p ≡ Some Running }
        ensures kept { OnOk result (IsCrowd self.new) }
        ensures rests { OnOk result ((i : Instance) → slice_get self.old.instances.items p ≡ Some i → Becomes self.old self.new (slice_set (instances_of self.old) p (held_there code.now i.process (frame_at i.room) at))) }
        ensures others { OnOk result (OthersStay self.old self.new p) }
    {
        let instance = &mut self.instances[p as usize];
        instance.at = at;
        if ends_at(code, at) {
            self.finish(p, spare)
        } else {
            Ok(())
        }
    }

    /// Instance `p`, which runs, stands at a place and waits with what it offers.
    #[inline(always)]
    pub(crate) fn wait_at(&mut self, p: u32, at: usize) -> Result<(), NoMemory>
        requires kept { IsCrowd self.old }
        requires runs { slice_get self.old.agenda.phases p ≡ Some Running }
        ensures kept { OnOk result (IsCrowd self.new) }
        ensures waits { OnOk result ((i : Instance) → slice_get self.old.instances.items p ≡ Some i
            → Becomes self.old self.new (slice_set (instances_of self.old) p (record { definition = i.process; at = at; frame = frame_at i.room; standing = law.Waiting (offers_at i.room) }))) }
    {
        let instance = &mut self.instances[p as usize];
        instance.at = at;
        match &instance.room {
            Some(room) => self.agenda.wait(p, room.opened.offers()),
            None => unreachable!(),
        }
    }

    /// Instance `p`, which runs, stands at a place and joins the instances of these numbers.
    pub(crate) fn join_at(&mut self, p: u32, at: usize, numbers: &[u32]) -> Result<(), NoMemory>
        requires kept { IsCrowd self.old }
        requires runs { slice_get self.old.agenda.phases p ≡ Some Running }
        requires there { AreThere (length self.old.instances.items) numbers.now }
        ensures kept { OnOk result (IsCrowd self.new) }
        ensures joins { OnOk result ((i : Instance) → slice_get self.old.instances.items p ≡ Some i
            → Becomes self.old self.new (slice_set (instances_of self.old) p (record { definition = i.process; at = at; frame = frame_at i.room; standing = law.Joining numbers.now }))) }
    {
        let instance = &mut self.instances[p as usize];
        instance.at = at;
        self.agenda.join(p, numbers)
    }
}
