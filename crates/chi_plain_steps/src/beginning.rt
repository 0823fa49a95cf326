//! How a run begins: the constants are evaluated in file order, and the model's instance is there
//! alone.

ghost use Rattle.std.specs.Prelude.{◌≡◌, ◌≢◌, None, IfErr, IfOk, MatchOption, length};
ghost use Rattle.chi_core.specs.declared.view.View.{View};
ghost use Rattle.chi_core.specs.Answer.{Amiss, Gives};
ghost use Rattle.chi_core.specs.Beginning as beginning;
ghost use Rattle.chi_core.specs.Beginning.{constant_value, first_config, start};
ghost use Rattle.chi_core.specs.Starting.{started_by};
ghost use Rattle.chi_core_frame.specs.Stops.{Stops};
ghost use Rattle.chi_plain_steps.specs.Begun.{begun_of};

use crate::configuration::Configuration;
use crate::ending::Ending;
use chi_base::NoMemory;
use chi_core::{ConstDef, Core, Verdict, View};
use chi_core_frame::Stop;
use chi_plain_eval::{Surroundings, constant_value};
use chi_plain_open::{Instance, started_by};
use chi_token::Bytes;
use chi_value::Value;
use std::alloc::Global;

/// How a run begins.
#[derive(Debug, Drop)]
pub enum Begun<'a> {
    Begins(Configuration<'a>),
    /// A fault in a constant ends it.
    Breaks(Ending),
}

/// The value of a constant, which may read those before it.
fn constant(
    alloc: Global,
    core: &Core,
    seed: u64,
    before: &[Value],
    c: &ConstDef,
) -> Result<Value, Stop>
    requires { constant_value core.now seed before.now c.now ≢ Amiss }
    ensures value { IfOk result (λ v. (view : View) × (constant_value core.now seed before.now c.now ≡ Gives v view)) }
    ensures stops { IfErr result (λ stop. Stops stop (constant_value core.now seed before.now c.now)) }
{
    let scene = Surroundings {
        functions: &[],
        names: &core.names,
        seed,
        clock: 0,
        constants: before,
        finished: &[],
    };
    let mut view = View {
        left: 0,
        draws: [0; 64],
        channels: 0,
        instances: 0,
    };
    let value = constant_value(alloc, &scene, &c.value, &mut view);
    let Surroundings {
        functions: _,
        names: _,
        seed: _,
        clock: _,
        constants: _,
        finished: _,
    } = scene;
    value
}

/// The configuration in which only the model's instance is there, at the time 0.0.
fn first<'a>(
    alloc: Global,
    core: &'a Core,
    args: Vec<Value>,
    seed: u64,
    until: Option<i64>,
    constants: Vec<Value>,
) -> Result<Configuration<'a>, NoMemory>
    requires { started_by core.now.procs core.now.model (length args.items) ≢ None }
    ensures { IfOk result (λ config. MatchOption (started_by core.now.procs core.now.model (length args.items)) ⊥
        (λ d. config ≡ first_config seed until args.items constants.items core.now.model d)) }
{
    let process = started_by(core.procs.as_slice(), core.model, args.len());
    let mut instance = Instance::new(alloc, core.model, process, args)?;
    instance.settle();
    let mut finished = Vec::new(alloc);
    finished.push(instance.has_finished())?;
    let mut instances = Vec::new(alloc);
    instances.push(instance)?;
    Ok(Configuration {
        clock: 0,
        draws: [0; 64],
        channels: 0,
        instances,
        finished,
        seed,
        until,
        constants,
    })
}

/// The beginning of a run of the program.
pub fn begin<'a>(
    alloc: Global,
    core: &'a Core,
    args: Vec<Value>,
    seed: u64,
    until: Option<i64>,
) -> Result<Begun<'a>, NoMemory>
    requires { start core.now args.items seed until ≢ beginning.Amiss }
    ensures { IfOk result (λ begun. start core.now args.items seed until ≡ begun_of begun) }
{
    let mut values = Vec::new(alloc);
    for c in core.consts.as_slice() {
        match constant(alloc, core, seed, values.as_slice(), c) {
            Ok(value) => values.push(value)?,
            Err(Stop::Fault(kind)) => {
                let name = Bytes::copy_of(alloc, b"const")?;
                return Ok(Begun::Breaks(Ending::of(Verdict::Fault(kind, name, c.line), 0)));
            }
            Err(Stop::Spent) => unreachable!(),
            Err(Stop::NoMemory) => return Err(NoMemory),
        }
    }
    Ok(Begun::Begins(first(alloc, core, args, seed, until, values)?))
}
