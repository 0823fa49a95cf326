//! The experiment itself: its items in turn.

ghost use Rattle.std.specs.Prelude.{◌≡◌, ◌≢◌, None, Some, slice_get};
ghost use Rattle.chi_core.specs.Beginning.{constant_scene};
ghost use Rattle.chi_core.specs.Kinded.{KindedConstants};
ghost use Rattle.chi_core.specs.Sound.{Sound};
ghost use Rattle.chi_plain_eval.specs.Surroundings.{scene_in};
ghost use Rattle.chi_xper.specs.Conditions.{AllowsAll, ExitsFit, IsFine};
ghost use Rattle.chi_xper.specs.Ends.{EndsAs, StopsAs};
ghost use Rattle.chi_xper.specs.Experiments.{begins, experiment, goes};

use crate::course::Course;
use crate::deed::Deed;
use crate::ending::XEnd;
use crate::items::{do_first, line_of};
use crate::laws::experiment_law;
use crate::runner::Runner;
use crate::runs::{Ran, run_model};
use crate::setting::Setting;
use crate::term::Term;
use chi_core::{Core, View, XperDef};
use chi_core_frame::{Stop, Variables};
use chi_plain_eval::Surroundings;
use std::alloc::Global;

/// How an experiment ends that can't go on in a line, after so many runs.
fn stopped(stop: Stop, line: u32, count: u64) -> XEnd
    ensures { StopsAs stop line count result }
{
    match stop {
        Stop::Fault(kind) => XEnd::Fault(kind, line, count),
        Stop::Spent => XEnd::Spent(count),
        Stop::NoMemory => XEnd::NoMemory,
    }
}

/// Does the items in turn.
fn go<R: Runner>(
    alloc: Global,
    core: &Core,
    scene: &Surroundings<'_>,
    mut course: Course<'_>,
    runner: &mut R,
    out: &mut Vec<u8>,
) -> XEnd
    requires scene_is { scene_in scene.now ≡ constant_scene core.now scene.now.seed scene.now.constants.now }
    requires functions { scene.now.functions.now ≡ core.now.funcs }
    requires none_yet { course.count ≡ 0 }
    requires fine { IsFine (R.allows runner.old) (goes core.now scene.now.constants.now scene.now.seed (R.outcome runner.old) course.view.left course.count course.variables course.term course.view) }
    ensures { EndsAs (goes core.now scene.now.constants.now scene.now.seed (R.outcome runner.old) course.entry.view.left course.entry.count course.entry.variables course.entry.term course.entry.view) out.old.items out.new.items result }
{
    for turn in 0..course.view.left {
        let count = course.count;
        let line = match course.term.first() {
            Some(task) => line_of(task),
            None => return XEnd::Done(count),
        };
        if course.view.left == 0 {
            return XEnd::Spent(count);
        }
        course.view.left -= 1;
        let done = do_first(alloc, core, scene, &mut course);
        let deed = match done {
            Ok(deed) => deed,
            Err(stop) => return stopped(stop, line, count),
        };
        match deed {
            Deed::Goes => {}
            Deed::Writes(text) => match out.extend_from_slice(text.as_slice()) {
                Ok(()) => {}
                Err(_) => return XEnd::NoMemory,
            },
            Deed::Calls(call) => {
                let model = call.model;
                match run_model(alloc, scene, call, &mut course, runner, out) {
                    Ran::Took => course.count = count + 1,
                    Ran::Over(verdict, clock) => return XEnd::Run(count, model, verdict, clock),
                    Ran::Stopped(stop) => return stopped(stop, line, count + 1),
                }
            }
        }
    }
    if course.term.is_empty() {
        XEnd::Done(course.count)
    } else {
        XEnd::Spent(course.count)
    }
}

/// An experiment from its beginning on.
fn begin<R: Runner>(
    alloc: Global,
    setting: &Setting<'_>,
    x: &XperDef,
    runner: &mut R,
    out: &mut Vec<u8>,
) -> XEnd
    requires { IsFine (R.allows runner.old) (begins setting.now.core.now setting.now.constants.now setting.now.seed (R.outcome runner.old) setting.now.bound (Some x.now)) }
    ensures { EndsAs (begins setting.now.core.now setting.now.constants.now setting.now.seed (R.outcome runner.old) setting.now.bound (Some x.now)) out.old.items out.new.items result }
{
    let Ok(variables) = Variables::new(alloc, x.slots.as_slice().len(), Vec::new(alloc)) else {
        return XEnd::NoMemory;
    };
    let Ok(term) = Term::new(alloc, x.body.as_slice()) else {
        return XEnd::NoMemory;
    };
    let view = View {
        left: setting.bound,
        draws: [0; 64],
        channels: 0,
        instances: 0,
    };
    let course = Course {
        variables,
        term,
        view,
        count: 0,
    };
    let scene = Surroundings {
        functions: setting.core.funcs.as_slice(),
        names: &setting.core.names,
        seed: setting.seed,
        clock: 0,
        constants: setting.constants,
        finished: &[],
    };
    let end = go(alloc, setting.core, &scene, course, runner, out);
    let Surroundings {
        functions: _,
        names: _,
        seed: _,
        clock: _,
        constants: _,
        finished: _,
    } = scene;
    end
}

/// Runs the first experiment of a sound program, by a runner of its models. What it writes, and what the runs write, is
/// appended to `out`.
pub fn experiment<R: Runner>(
    alloc: Global,
    setting: &Setting<'_>,
    runner: &mut R,
    out: &mut Vec<u8>,
) -> XEnd
    requires sound { Sound setting.now.core.now }
    requires some { slice_get setting.now.core.now.xpers 0 ≢ None }
    requires constants { KindedConstants setting.now.core.now setting.now.constants.now }
    requires allows { AllowsAll setting.now.core.now (R.allows runner.old) }
    requires exits { ExitsFit setting.now.core.now (R.outcome runner.old) }
    ensures { EndsAs (experiment setting.now.core.now setting.now.constants.now setting.now.seed (R.outcome runner.old) setting.now.bound) out.old.items out.new.items result }
{
    experiment_law(setting, &*runner);
    let core = setting.core;
    match core.xpers.as_slice() {
        [x, ..] => begin(alloc, setting, x, runner, out),
        [] => unreachable!(),
    }
}
