//! Runs of an instance within a step.

ghost use Rattle.std.specs.Prelude.{◌≡◌, ◌≢◌, IsTrue, IsFalse};
ghost use Rattle.chi_exec.specs.Hints.{AreRight};
ghost use Rattle.chi_exec_steps.specs.Views.{state_of};
ghost use Rattle.chi_exec_law.specs.Runs.{Halts};
ghost use Rattle.chi_machine_laws.specs.Deeds.{moves};
ghost use Rattle.chi_machine_runs.specs.Views.{brought_of, there, within_of, Ran};

use crate::acting::act_itself;
use crate::alone::{stands_to_wait, wait_alone};
use crate::brought::Brought;
use crate::doing::Doing;
use crate::opened::Opened;
use crate::within::Within;
use chi_core_frame::Stop;
use chi_exec::{Extent, Machine, run_on};

// Whether it goes on within the step.
#[inline(always)]
fn goes_on(doing: Doing) -> bool
    ensures on { IsTrue result → doing ≡ Doing.Goes }
    ensures off { IsFalse result → doing ≢ Doing.Goes }
{
    match doing {
        Doing::Goes => true,
        Doing::Pauses | Doing::Waits | Doing::Joins | Doing::Exits | Doing::Stops => false,
    }
}

// Runs an instance, instruction by instruction, until it rests, waits, joins or exits, or until something stops it.
#[inline(always)]
#[tactic(auto, using(crate::proofs::Ran::running))]
fn run_deeds(m: &mut Machine, opened: &mut Opened, brought: &mut Brought, w: &Within<'_>) -> Doing
    requires right { AreRight w.now.hints.now w.now.code.now.instrs }
    requires halts { Halts (moves (within_of w.now)) (there w.now.code.now m.old opened.old brought.old) }
    ensures { Ran result (within_of w.now) (there w.now.code.now m.old opened.old brought.old) (state_of m.new) (brought_of w.now.code.now opened.new brought.new) brought.new m.new.stop }
{
    'deeds: for _ in 0..u64::MAX {
        if !run_on(m, w.alloc, &w.scenery, w.code, w.hints, Extent::Statements) {
            return Doing::Stops;
        }
        let doing = act_itself(m, opened, brought, w);
        if !goes_on(doing) {
            return doing;
        }
        if stands_to_wait(m, w.code) {
            return Doing::Waits;
        }
    }
    m.stop = Stop::NoMemory;
    Doing::Stops
}

/// Runs an instance until it rests, waits, joins or exits, or until something stops it. What it offers, makes and writes
/// has joined what was there before.
#[inline(always)]
pub fn run(m: &mut Machine, opened: &mut Opened, brought: &mut Brought, w: &Within<'_>) -> Doing
    requires right { AreRight w.now.hints.now w.now.code.now.instrs }
    requires halts { Halts (moves (within_of w.now)) (there w.now.code.now m.old opened.old brought.old) }
    ensures { Ran result (within_of w.now) (there w.now.code.now m.old opened.old brought.old) (state_of m.new) (brought_of w.now.code.now opened.new brought.new) brought.new m.new.stop }
{
    match wait_alone(m, opened, brought, w) {
        Some(doing) => doing,
        None => run_deeds(m, opened, brought, w),
    }
}
