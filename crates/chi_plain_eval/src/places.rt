//! The spots of targets.

ghost use Rattle.std.specs.Prelude.{◌≡◌, ◌≢◌, IfOk, IfErr, map};
ghost use Rattle.chi_core.specs.Answer.{Gives, Amiss, in_turn};
ghost use Rattle.chi_core.specs.Spots.{spot_of, step_at};
ghost use Rattle.chi_ops.specs.Paths.{step_of, steps_of};
ghost use Rattle.chi_plain_eval.specs.Calls.{meaning};
ghost use Rattle.chi_core_frame.specs.Spots.{spot_in};
ghost use Rattle.chi_core_frame.specs.Stops.{Stops};

use crate::expressions::eval;
use crate::here::Here;
use chi_core::{CStep, CTarget, View};
use chi_core_frame::{Spot, Stop, Variables};
use chi_ops::Path;
use chi_value::Value;

/// The way into a variable that the steps of a target name: their indexes are evaluated from left to
/// right.
#[cycle(eval)]
#[tactic(auto, using(chi_core_frame::proofs::Stopping::stopping, crate::proofs::Spotting::paths))]
pub fn path_of(
    steps: &[CStep],
    here: &Here<'_>,
    variables: &Variables,
    view: &mut View,
) -> Result<Vec<Path>, Stop>
    requires { in_turn (map (step_at (meaning here.now variables.now)) steps.now) view.old ≢ Amiss }
    ensures path { IfOk result (λ path. in_turn (map (step_at (meaning here.now variables.now)) steps.now) view.old ≡ Gives (steps_of path.items) view.new) }
    ensures stops { IfErr result (λ stop. Stops stop (in_turn (map (step_at (meaning here.now variables.now)) steps.now) view.old)) }
{
    let mut path = Vec::new(here.alloc);
    for step in steps {
        let next = step_on(step, here, variables, view)?;
        path.push(next)?;
    }
    Ok(path)
}

/// A step of a target.
#[cycle(eval)]
#[tactic(auto, using(chi_core_frame::proofs::Stopping::stopping, crate::proofs::Spotting::steps))]
fn step_on(
    step: &CStep,
    here: &Here<'_>,
    variables: &Variables,
    view: &mut View,
) -> Result<Path, Stop>
    requires { step_at (meaning here.now variables.now) step.now view.old ≢ Amiss }
    ensures step { IfOk result (λ path. step_at (meaning here.now variables.now) step.now view.old ≡ Gives (step_of path) view.new) }
    ensures stops { IfErr result (λ stop. Stops stop (step_at (meaning here.now variables.now) step.now view.old)) }
{
    match step {
        CStep::Index(e) => Ok(Path::Key(eval(e, here, variables, view)?)),
        CStep::Part(number) => Ok(Path::Part(*number)),
    }
}

/// The spots of targets, from left to right.
#[cycle(eval)]
#[tactic(auto, using(chi_core_frame::proofs::Stopping::stopping, crate::proofs::Spotting::places))]
pub fn spots_of(
    targets: &[CTarget],
    here: &Here<'_>,
    variables: &Variables,
    view: &mut View,
) -> Result<Vec<Spot>, Stop>
    requires { in_turn (map (spot_of (meaning here.now variables.now)) targets.now) view.old ≢ Amiss }
    ensures spots { IfOk result (λ spots. in_turn (map (spot_of (meaning here.now variables.now)) targets.now) view.old ≡ Gives (map spot_in spots.items) view.new) }
    ensures stops { IfErr result (λ stop. Stops stop (in_turn (map (spot_of (meaning here.now variables.now)) targets.now) view.old)) }
{
    let mut spots = Vec::new(here.alloc);
    for target in targets {
        let path = path_of(target.steps.as_slice(), here, variables, view)?;
        let slot = target.slot;
        spots.push(Spot { slot, path })?;
    }
    Ok(spots)
}
