//! Labels that cost too much.

ghost use Rattle.std.specs.Prelude.{◌≡◌, ◌≢◌, ◌↔◌, IfErr, IfOk, IsSomeAnd, IsTrue, OnOk, slice_get};
ghost use Rattle.chi_core.specs.Answer as answer;
ghost use Rattle.chi_core.specs.Config as config;
ghost use Rattle.chi_core.specs.Step.{Spent, local, step};
ghost use Rattle.chi_core_frame.specs.Stops.{Stops};
ghost use Rattle.chi_plain_steps.specs.Plans.{performed_at};
ghost use Rattle.chi_plain_steps.specs.Takings.{IsRight};

use crate::trying::try_shared;
use chi_base::NoMemory;
use chi_core::{Core, Label, View};
use chi_core_frame::Stop;
use chi_plain_eval::Surroundings;
use chi_plain_steps::{Configuration, own_statement};
use std::alloc::Global;

/// The first item of instance `pid`, which runs.
fn try_first<'a>(
    alloc: Global,
    core: &'a Core,
    configuration: &Configuration<'a>,
    pid: u32,
    view: &mut View,
) -> Result<(), Stop>
    requires running { IsSomeAnd (slice_get configuration.now.instances pid) (λ i. i.state ≡ config.Running) }
    requires well { performed_at core.now configuration.now pid view.old ≢ answer.Amiss }
    ensures goes { OnOk result (performed_at core.now configuration.now pid view.old ≢ answer.Spent) }
    ensures stops { IfErr result (λ stop. Stops stop (performed_at core.now configuration.now pid view.old)) }
{
    let instance = &configuration.instances()[pid as usize];
    match own_statement(instance) {
        Some(statement) => {
            let _ = configuration.plan(alloc, core, pid, instance, statement, view)?;
            Ok(())
        }
        None => {
            let scene = configuration.scene(core);
            let tried = try_shared(alloc, &scene, instance, view);
            let Surroundings {
                functions: _,
                names: _,
                seed: _,
                clock: _,
                constants: _,
                finished: _,
            } = scene;
            tried
        }
    }
}

/// Whether the first item of instance `pid`, which runs, costs more than is left.
#[tactic(auto, using(crate::proofs::Labels::locals))]
fn local_spends<'a>(
    alloc: Global,
    core: &'a Core,
    configuration: &Configuration<'a>,
    pid: u32,
    mut view: View,
) -> Result<bool, NoMemory>
    requires { IsRight (local core.now configuration.now pid (slice_get configuration.now.instances pid) view) }
    ensures { IfOk result (λ spends. IsTrue spends ↔ (local core.now configuration.now pid (slice_get configuration.now.instances pid) view ≡ Spent)) }
{
    match try_first(alloc, core, configuration, pid, &mut view) {
        Ok(()) => Ok(false),
        Err(Stop::Fault(_)) => Ok(false),
        Err(Stop::Spent) => Ok(true),
        Err(Stop::NoMemory) => Err(NoMemory),
    }
}

/// Whether a label costs more than is left of the bound.
#[tactic(auto, using(crate::proofs::Labels::labels))]
pub fn spends<'a>(
    alloc: Global,
    core: &'a Core,
    configuration: &Configuration<'a>,
    label: &Label,
    left: u64,
) -> Result<bool, NoMemory>
    requires { IsRight (step core.now configuration.now label.now left) }
    ensures { IfOk result (λ spends. IsTrue spends ↔ (step core.now configuration.now label.now left ≡ Spent)) }
{
    if left == 0 {
        return Ok(true);
    }
    match label {
        Label::Local(pid) => {
            let view = configuration.view(left - 1);
            local_spends(alloc, core, configuration, *pid, view)
        }
        Label::Pair(_, _, _, _) => Ok(false),
        Label::Wake(_, _) => Ok(false),
        Label::Join(_) => Ok(false),
        Label::Advance => Ok(false),
    }
}
