ghost use Rattle.std.specs.Prelude.{◌≡◌, ◌↔◌, Contains, IfOk, IsTrue};
ghost use Rattle.chi_core.specs.Kinded.{Kinded};
ghost use Rattle.chi_core.specs.Options.{enabled};
ghost use Rattle.chi_core.specs.Sound.{Sound};
ghost use Rattle.chi_core.specs.Step.{Spent, step};
ghost use Rattle.chi_plain.specs.Stage.{At, MayStep, Steps};
ghost use Rattle.chi_plain_steps.specs.Takings.{Appends};
ghost use Rattle.chi_plain.specs.Progressing.{Stands, stage_of, progress_at};

use crate::stepped::Stepped;
use crate::taking::Taken;
use crate::watching::{Watched, watch};
use chi_base::NoMemory;
use chi_core::{Core, Label};
use chi_core_kinds::kinded_law;
use chi_core_runs::time_law;
use chi_plain_costs::spends;
use chi_plain_steps::{Begun, Ending};
use std::alloc::Global;

/// How far a run is.
#[derive(Debug, Drop)]
pub enum Progress<'a> {
    /// In a configuration, with the ending where nothing can happen there.
    At(Watched<'a>, Option<Ending>),
    /// The run is over.
    Ended(Ending),
    /// Memory was wanting.
    Lost,
}

/// Where a run stands at its beginning.
pub fn progress_of<'a>(alloc: Global, begun: Begun<'a>) -> Result<Progress<'a>, NoMemory>
    ensures { IfOk result (λ s. s ≡ progress_at begun.entry) }
{
    match begun {
        Begun::Begins(configuration) => {
            let watched = watch(alloc, configuration)?;
            let ending = watched.ending();
            Ok(Progress::At(watched, ending))
        }
        Begun::Breaks(ending) => Ok(Progress::Ended(ending)),
    }
}

/// Takes a label in a configuration.
fn step_at<'a>(
    alloc: Global,
    core: &'a Core,
    watched: Watched<'a>,
    label: &Label,
    left: u64,
    out: &mut Vec<u8>,
) -> (Progress<'a>, Stepped)
    requires sound { Sound core.now }
    requires kinded { Kinded core.now watched }
    requires may { Contains (enabled watched) label.now }
    ensures stands { Stands core.now result.0 }
    ensures steps { Appends out.old.items out.new.items (λ text. Steps core.now (At watched.entry) (stage_of result.0) label.now left text result.1) }
{
    kinded_law();
    time_law();
    let clock = watched.clock();
    match watched.take(alloc, core, label, left, out) {
        Ok(Taken::On(watched, rest)) => {
            let ending = watched.ending();
            (Progress::At(watched, ending), Stepped::Next(left - rest))
        }
        Ok(Taken::Over(verdict)) => (Progress::Ended(Ending::of(verdict, clock)), Stepped::Over),
        Ok(Taken::Spent(watched)) => {
            let ending = watched.ending();
            (Progress::At(watched, ending), Stepped::Spent)
        }
        Err(NoMemory) => (Progress::Lost, Stepped::NoMemory),
    }
}

/// Takes a label, where the run stands so.
pub fn step<'a>(
    alloc: Global,
    core: &'a Core,
    progress: Progress<'a>,
    label: &Label,
    left: u64,
    out: &mut Vec<u8>,
) -> (Progress<'a>, Stepped)
    requires sound { Sound core.now }
    requires stands { Stands core.now progress }
    requires may { MayStep (stage_of progress) label.now }
    ensures stands { Stands core.now result.0 }
    ensures steps { Appends out.old.items out.new.items (λ text. Steps core.now (stage_of progress.entry) (stage_of result.0) label.now left text result.1) }
{
    match progress {
        Progress::At(watched, _) => step_at(alloc, core, watched, label, left, out),
        Progress::Ended(_) => unreachable!(),
        Progress::Lost => (Progress::Lost, Stepped::NoMemory),
    }
}

/// Whether a label costs more in a configuration than is left of the bound.
pub fn spent<'a>(
    alloc: Global,
    core: &'a Core,
    watched: &Watched<'a>,
    label: &Label,
    left: u64,
) -> Result<bool, NoMemory>
    requires sound { Sound core.now }
    requires kinded { Kinded core.now watched.now }
    requires may { Contains (enabled watched.now) label.now }
    ensures { IfOk result (λ spent. IsTrue spent ↔ (step core.now watched.now label.now left ≡ Spent)) }
{
    kinded_law();
    spends(alloc, core, watched.configuration(), label, left)
}
