//! The runs of models that an experiment makes.

ghost use Rattle.std.specs.Prelude.{◌≡◌, ◌≢◌, ◌↔◌, ℕ, List, None, Some, IfErr, IfOk, OnOk};
ghost use Rattle.chi_value.specs.declared.value.Value.{Value};
ghost use Rattle.chi_core.specs.Answer.{Amiss, Gives};
ghost use Rattle.chi_core_frame.specs.Stops.{Stops};
ghost use Rattle.chi_core_frame.specs.Spots.{spot_in};
ghost use Rattle.chi_xper.specs.Experiments.{converted, exit_value, seed_of, taken};
ghost use Rattle.chi_xper.specs.Ran.{RanSo};

use crate::course::Course;
use crate::deed::Call;
use crate::runner::{RunEnd, Runner};
use chi_core::{OpName, Verdict, View};
use chi_core_apply::Scenery;
use chi_core_frame::{Operands, Spot, Stop, operator_of, store};
use chi_plain_eval::Surroundings;
use chi_value::{Names, Value};
use std::alloc::Global;

/// The value of an exit that has one, or else the verdict.
fn exited(verdict: Verdict) -> Result<Value, Verdict>
    ensures value { IfOk result (λ v. exit_value verdict ≡ Some v) }
    ensures other { IfErr result (λ other. (other ≡ verdict) × (exit_value verdict ≡ None)) }
{
    match verdict {
        Verdict::Exit(Some(value)) => Ok(value),
        Verdict::Exit(None) => Err(Verdict::Exit(None)),
        Verdict::Completed => Err(Verdict::Completed),
        Verdict::Deadlock => Err(Verdict::Deadlock),
        Verdict::Fault(kind, name, line) => Err(Verdict::Fault(kind, name, line)),
        Verdict::OutOfSteps => Err(Verdict::OutOfSteps),
        Verdict::Stopped => Err(Verdict::Stopped),
    }
}

/// An int as a real, where that is wanted.
#[tactic(auto, using(crate::proofs::Taking::converting))]
fn converted(
    alloc: Global,
    names: &Names,
    widen: bool,
    value: Value,
    view: &mut View,
) -> Result<Value, Stop>
    requires { converted widen value view.old ≢ Amiss }
    ensures value { IfOk result (λ v. converted widen value view.old ≡ Gives v view.new) }
    ensures stops { IfErr result (λ stop. Stops stop (converted widen value view.old)) }
{
    if !widen {
        return Ok(value);
    }
    let scenery = Scenery {
        names,
        seed: 0,
        clock: 0,
        constants: &[],
        finished: &[],
    };
    operator_of(alloc, &scenery, OpName::Widen, Operands::One(value), view)
}

/// The value of an exit goes where the call says.
#[tactic(auto, using(crate::proofs::Taking::taking))]
fn take(
    alloc: Global,
    names: &Names,
    spot: Spot,
    widen: bool,
    value: Value,
    course: &mut Course<'_>,
) -> Result<(), Stop>
    requires { taken widen (spot_in spot) course.old.variables value course.old.view ≢ Amiss }
    ensures taken { OnOk result (taken widen (spot_in spot) course.old.variables value course.old.view ≡ Gives course.new.variables course.new.view) }
    ensures stops { IfErr result (λ stop. Stops stop (taken widen (spot_in spot) course.old.variables value course.old.view)) }
    ensures term { course.new.term ≡ course.old.term }
    ensures count { course.new.count ≡ course.old.count }
{
    let value = converted(alloc, names, widen, value, &mut course.view)?;
    store(alloc, &mut course.variables, spot, value, &mut course.view)
}

/// What came of a run.
#[derive(Debug, Drop)]
pub enum Ran {
    /// The value of its exit is where it was to go.
    Took,
    /// It has ended so, at this time, without a value.
    Over(Verdict, i64),
    /// The value of its exit isn't taken, or memory was wanting.
    Stopped(Stop),
}

/// Runs a model, with the seed of the run of this number.
pub fn run_model<R: Runner>(
    alloc: Global,
    scene: &Surroundings<'_>,
    call: Call,
    course: &mut Course<'_>,
    runner: &mut R,
    out: &mut Vec<u8>,
) -> Ran
    requires allowed { R.allows runner.old call.model call.arguments.items }
    requires well { (v : Value) → exit_value (R.outcome runner.old call.model call.arguments.items (seed_of scene.now.seed course.old.count)).verdict ≡ Some v → taken call.widen (spot_in call.spot) course.old.variables v course.old.view ≢ Amiss }
    ensures ran { RanSo (R.outcome runner.old call.model call.arguments.items (seed_of scene.now.seed course.old.count)) (taken call.widen (spot_in call.spot) course.old.variables) course.old.view course.new.variables course.new.view out.old.items out.new.items result }
    ensures term { course.new.term ≡ course.old.term }
    ensures count { course.new.count ≡ course.old.count }
    ensures same_outcome { R.outcome runner.new ≡ R.outcome runner.old }
    ensures same_allowed { (number : ℕ) (values : List Value) → R.allows runner.new number values ↔ R.allows runner.old number values }
{
    let Call {
        model,
        arguments,
        spot,
        widen,
    } = call;
    let seed = scene.seed.wrapping_add(course.count);
    match runner.run(model, arguments, seed, out) {
        RunEnd::NoMemory => Ran::Stopped(Stop::NoMemory),
        RunEnd::Ended(verdict, clock) => match exited(verdict) {
            Err(other) => Ran::Over(other, clock),
            Ok(value) => match take(alloc, scene.names, spot, widen, value, course) {
                Ok(()) => Ran::Took,
                Err(stop) => Ran::Stopped(stop),
            },
        },
    }
}
