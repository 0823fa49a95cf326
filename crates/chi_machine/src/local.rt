//! The step of one instance.

ghost use Rattle.std.specs.Prelude.{◌≡◌, ◌≢◌, ℕ, suc, List, ◌+◌, ◌++◌, ◌≤◌, [], length, map, slice_get, slice_set, IfOk, IsTrue, OnErr, OnOk, Some};
ghost use Rattle.chi_code.specs.declared.instr.Instr.TheVariants as i;
ghost use Rattle.chi_core.specs.declared.fault.FaultKind.{FaultKind};
ghost use Rattle.chi_core.specs.declared.label.Label.TheVariants.{Local};
ghost use Rattle.chi_core.specs.declared.verdict.Verdict.TheVariants.{Fault};
ghost use Rattle.chi_core.specs.declared.limits.TheConstants.{MOST_INSTANCES};
ghost use Rattle.chi_machine_laws.specs.Deeds.{held_there};
ghost use Rattle.chi_machine_laws.specs.Instances as law;
ghost use Rattle.chi_machine_agenda.specs.Phases.{Running, AreThere};
ghost use Rattle.chi_machine_runs.specs.Views.{held_in};
ghost use Rattle.chi_machine.specs.declared.instance.Instance.{Instance};
ghost use Rattle.chi_machine.specs.Crowds.{IsCrowd, IsWorld, Becomes, FirstStay};
ghost use Rattle.chi_machine.specs.Runs.{FaultsAt, HasRested, StopsAs};
ghost use Rattle.chi_machine.specs.Takings.{MayTake, Took};
ghost use Rattle.chi_machine.specs.Views.{frame_at, offers_at, instances_of, whole_of};

use crate::taken::Taken;
use crate::world::World;
use chi_base::NoMemory;
use chi_code::{Code, Instr};
use chi_core::{FaultKind, Verdict};
use chi_core_frame::Stop;
use chi_machine_runs::{Doing, Made};
use chi_token::Bytes;
use std::mem;

// The line of the mark at a place.
fn line_at(code: &Code, at: usize) -> u32
    requires { (line : ℕ) × (slice_get code.now.instrs at ≡ Some (i.Mark line)) }
    ensures { slice_get code.now.instrs at ≡ Some (i.Mark result) }
{
    match code.instrs.as_slice().get(at) {
        Some(Instr::Mark(line)) => *line,
        _ => unreachable!(),
    }
}

// Whether no instances were made.
#[inline(always)]
fn is_none(made: &Vec<Made>) -> bool
    ensures { IsTrue result → made.now.items ≡ [] }
{
    made.is_empty()
}

// Whether nothing was written.
#[inline(always)]
fn is_blank(text: &Vec<u8>) -> bool
    ensures { IsTrue result → text.now.items ≡ [] }
{
    text.is_empty()
}

// A text goes to the end of the output.
#[inline(always)]
fn append(text: &Vec<u8>, out: &mut Vec<u8>) -> Result<(), NoMemory>
    ensures text { OnOk result (out.new.items ≡ out.old.items ++ text.now.items) }
    ensures kept { OnErr result (out.new.items ≡ out.old.items) }
{
    if is_blank(text) {
        return Ok(());
    }
    out.extend_from_slice(text.as_slice())?;
    Ok(())
}

impl World {
    // The instances that were made come behind the others.
    #[inline(always)]
    fn start(&mut self, code: &Code) -> Result<(), NoMemory>
        requires kept { IsWorld code.now self.old }
        requires room { length self.old.crowd.instances.items + length self.old.brought.made.items ≤ MOST_INSTANCES }
        ensures kept { OnOk result (IsCrowd self.new.crowd) }
        ensures added { OnOk result (Becomes self.old.crowd self.new.crowd (instances_of self.old.crowd ++ map (held_in code.now) self.old.brought.made.items)) }
        ensures first { OnOk result (FirstStay self.old.crowd self.new.crowd) }
        ensures text { self.new.brought.text.items ≡ self.old.brought.text.items }
        ensures joins { self.new.brought.joins.items ≡ self.old.brought.joins.items }
        ensures rest { self.new ≡ record self.old { crowd = self.new.crowd; brought = self.new.brought } }
    {
        if is_none(&self.brought.made) {
            return Ok(());
        }
        let made = mem::replace(&mut self.brought.made, Vec::new(self.alloc));
        self.crowd.add_all(code, made, &mut self.brought.spare)
    }

    // What was written goes to the end of the output.
    #[inline(always)]
    fn write(&self, out: &mut Vec<u8>) -> Result<Taken, NoMemory>
        ensures taken { IfOk result (λ taken. taken ≡ Taken.On self.now.exec.view.left) }
        ensures text { OnOk result (out.new.items ≡ out.old.items ++ self.now.brought.text.items) }
        ensures kept { OnErr result (out.new.items ≡ out.old.items) }
    {
        append(&self.brought.text, out)?;
        Ok(Taken::On(self.exec.view.left))
    }

    // Instance `p`, which ran, rests before its next turn or at its end.
    #[inline(always)]
    fn pause(&mut self, code: &Code, p: u32, out: &mut Vec<u8>) -> Result<Taken, NoMemory>
        requires kept { IsWorld code.now self.old }
        requires runs { slice_get self.old.crowd.agenda.phases p ≡ Some Running }
        requires room { length self.old.crowd.instances.items + length self.old.brought.made.items ≤ MOST_INSTANCES }
        ensures rests { IfOk result (λ taken. (i : Instance) → slice_get self.old.crowd.instances.items p ≡ Some i
            → HasRested code.now self.old self.new (slice_set (instances_of self.old.crowd ++ map (held_in code.now) self.old.brought.made.items) p (held_there code.now i.process (frame_at i.room) self.old.exec.at))
            out.old.items out.new.items taken) }
        ensures kept { OnErr result (out.new.items ≡ out.old.items) }
    {
        self.start(code)?;
        self.crowd
            .rest_at(code, p, self.exec.at, &mut self.brought.spare)?;
        self.write(out)
    }

    // It waits with what it offers.
    #[inline(always)]
    fn wait(&mut self, code: &Code, p: u32, out: &mut Vec<u8>) -> Result<Taken, NoMemory>
        requires kept { IsWorld code.now self.old }
        requires runs { slice_get self.old.crowd.agenda.phases p ≡ Some Running }
        requires room { length self.old.crowd.instances.items + length self.old.brought.made.items ≤ MOST_INSTANCES }
        ensures rests { IfOk result (λ taken. (i : Instance) → slice_get self.old.crowd.instances.items p ≡ Some i
            → HasRested code.now self.old self.new (slice_set (instances_of self.old.crowd ++ map (held_in code.now) self.old.brought.made.items) p
            (record { definition = i.process; at = self.old.exec.at; frame = frame_at i.room; standing = law.Waiting (offers_at i.room) })) out.old.items out.new.items taken) }
        ensures kept { OnErr result (out.new.items ≡ out.old.items) }
    {
        self.start(code)?;
        self.crowd.wait_at(p, self.exec.at)?;
        self.write(out)
    }

    // It joins others.
    fn join(&mut self, code: &Code, p: u32, out: &mut Vec<u8>) -> Result<Taken, NoMemory>
        requires kept { IsWorld code.now self.old }
        requires runs { slice_get self.old.crowd.agenda.phases p ≡ Some Running }
        requires room { length self.old.crowd.instances.items + length self.old.brought.made.items ≤ MOST_INSTANCES }
        requires there { AreThere (length self.old.crowd.instances.items + length self.old.brought.made.items) self.old.brought.joins.items }
        ensures rests { IfOk result (λ taken. (i : Instance) → slice_get self.old.crowd.instances.items p ≡ Some i
            → HasRested code.now self.old self.new (slice_set (instances_of self.old.crowd ++ map (held_in code.now) self.old.brought.made.items) p
            (record { definition = i.process; at = self.old.exec.at; frame = frame_at i.room; standing = law.Joining self.old.brought.joins.items })) out.old.items out.new.items taken) }
        ensures kept { OnErr result (out.new.items ≡ out.old.items) }
    {
        self.start(code)?;
        self.crowd
            .join_at(p, self.exec.at, self.brought.joins.as_slice())?;
        self.write(out)
    }

    // The verdict of a fault of instance `p`.
    fn fault(&self, code: &Code, p: u32, kind: FaultKind) -> Result<Verdict, NoMemory>
        requires { FaultsAt code.now self.now.crowd p }
        ensures { IfOk result (λ verdict. (r : FaultsAt code.now self.now.crowd p) → verdict ≡ Fault kind r.name r.line) }
    {
        let instance = &self.crowd.instances[p as usize];
        let process = &code.procs.as_slice()[instance.process as usize];
        let line = line_at(code, instance.at);
        let name = Bytes::copy_of(self.alloc, process.name.as_slice())?;
        Ok(Verdict::Fault(kind, name, line))
    }

    // Instance `p` has run into a fault, or it costs too much.
    fn stopped(&self, code: &Code, p: u32) -> Result<Taken, NoMemory>
        requires { (kind : FaultKind) → self.now.exec.stop ≡ Stop.Fault kind → FaultsAt code.now self.now.crowd p }
        ensures { IfOk result (λ taken. StopsAs code.now self.now.crowd p self.now.exec.stop taken) }
    {
        match self.exec.stop {
            Stop::Fault(kind) => Ok(Taken::Over(self.fault(code, p, kind)?)),
            Stop::Spent => Ok(Taken::Spent),
            Stop::NoMemory => Err(NoMemory),
        }
    }

    /// Instance `p` takes its step, where so much is left of the bound beside the 1 that it costs.
    #[inline(always)]
    pub(crate) fn local(
        &mut self,
        code: &Code,
        p: u32,
        left: u64,
        out: &mut Vec<u8>,
    ) -> Result<Taken, NoMemory>
        requires kept { IsWorld code.now self.old }
        requires may { MayTake code.now (whole_of self.old) (Local p) (suc left) }
        ensures taken { IfOk result (λ taken. (text : List ℕ) × (out.new.items ≡ out.old.items ++ text) × Took code.now (whole_of self.old) (Local p) (suc left) taken self.new text) }
        ensures kept { OnErr result (out.new.items ≡ out.old.items) }
    {
        match self.run(code, p, left) {
            Doing::Goes => unreachable!(),
            Doing::Pauses => self.pause(code, p, out),
            Doing::Waits => self.wait(code, p, out),
            Doing::Joins => self.join(code, p, out),
            Doing::Exits => Ok(Taken::Over(Verdict::Exit(self.brought.exit.take()))),
            Doing::Stops => self.stopped(code, p),
        }
    }
}
