//! A run of one instance.

ghost use Rattle.std.specs.Prelude.{◌≡◌, ◌≢◌, [], None};
ghost use Rattle.chi_exec.specs.Hints.{AreRight};
ghost use Rattle.chi_exec_law.specs.Runs.{Halts};
ghost use Rattle.chi_exec_law.specs.State.{Frame, state};
ghost use Rattle.chi_machine_laws.specs.Deeds.{nothing, moves};
ghost use Rattle.chi_machine_runs.specs.Views.{brought_of, within_of, Ran};
ghost use Rattle.chi_machine.specs.Crowds.{IsWorld};
ghost use Rattle.chi_machine.specs.Runs.{MayRun, HasRun};
ghost use Rattle.chi_machine.specs.Views.{frame_at, offers_at, state_with, whole_of};

use crate::instance::Instance;
use crate::world::World;
use chi_code::Code;
use chi_core_apply::Scenery;
use chi_exec::Machine;
use chi_machine_runs::{Brought, Doing, Made, Within, run};
use std::mem;

// No new instance.
#[inline(always)]
fn emptied(made: &mut Vec<Made>)
    ensures { made.new.items ≡ [] }
{
    if !made.is_empty() {
        made.clear();
    }
}

// The machine is ready to run an instance from a place, where so much is left and there are so many instances.
#[inline(always)]
fn set_out(m: &mut Machine, at: usize, left: u64, count: u32)
    ensures stands { (frame : Frame) → state_with frame m.new ≡ state at [] frame [] (record m.old.view { left = left; instances = count }) }
{
    m.at = at;
    if !m.stack.is_empty() {
        m.stack.clear();
    }
    if !m.callers.is_empty() {
        m.callers.clear();
    }
    m.view.left = left;
    m.view.instances = count;
}

// Runs an instance, whose frame is the machine's meanwhile.
#[inline(always)]
fn run_in(
    exec: &mut Machine,
    instance: &mut Instance,
    brought: &mut Brought,
    w: &Within<'_>,
) -> Doing
    requires right { AreRight w.now.hints.now w.now.code.now.instrs }
    requires there { instance.old.room ≢ None }
    requires halts { Halts (moves (within_of w.now)) (state_with (frame_at instance.old.room) exec.old, nothing) }
    ensures ran { Ran result (within_of w.now) (state_with (frame_at instance.old.room) exec.old, nothing) (state_with (frame_at instance.new.room) exec.new)
        (brought_of w.now.code.now (offers_at instance.new.room) brought.new) brought.new exec.new.stop }
    ensures there { instance.new.room ≢ None }
    ensures process { instance.new.process ≡ instance.old.process }
    ensures at { instance.new.at ≡ instance.old.at }
{
    emptied(&mut brought.made);
    brought.text.clear();
    match &mut instance.room {
        Some(room) => {
            room.opened.clear();
            mem::swap(&mut exec.frame, &mut room.frame);
            let doing = run(exec, &mut room.opened, brought, w);
            mem::swap(&mut exec.frame, &mut room.frame);
            doing
        }
        None => unreachable!(),
    }
}

impl World {
    /// Instance `p`, which runs, runs from behind its instruction, where so much is left of the bound.
    #[inline(always)]
    pub(crate) fn run(&mut self, code: &Code, p: u32, left: u64) -> Doing
        requires kept { IsWorld code.now self.old }
        requires may { MayRun code.now (whole_of self.old) p left }
        ensures kept { IsWorld code.now self.new }
        ensures ran { HasRun code.now (whole_of self.old) p left self.new result }
    {
        // the length of code that is there bounds its places
        let _size = code.instrs.as_slice().len();
        let count = self.crowd.instances.len() as u32;
        let at = self.crowd.instances[p as usize].at + 1;
        set_out(&mut self.exec, at, left, count);
        let scenery = Scenery {
            names: &code.names,
            seed: self.seed,
            clock: self.crowd.agenda.clock(),
            constants: self.constants.as_slice(),
            finished: self.crowd.agenda.finished(),
        };
        let w = Within {
            alloc: self.alloc,
            code,
            hints: self.hints.as_slice(),
            scenery,
        };
        let instance = &mut self.crowd.instances[p as usize];
        run_in(&mut self.exec, instance, &mut self.brought, &w)
    }
}
