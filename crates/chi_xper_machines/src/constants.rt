//! The constants of a program, in file order.

ghost use Rattle.std.specs.Prelude.{◌≡◌, ◌≢◌, IfErr, IfOk};
ghost use Rattle.chi_core.specs.declared.view.View.{View};
ghost use Rattle.chi_core.specs.Answer as answer;
ghost use Rattle.chi_core.specs.Answer.{Gives};
ghost use Rattle.chi_core.specs.Beginning.{constant_value};
ghost use Rattle.chi_core_frame.specs.Stops.{Stops};
ghost use Rattle.chi_xper_runs.specs.Constants.{Amiss, constants};
ghost use Rattle.chi_xper_machines.specs.Constants.{constants_in};

use chi_base::NoMemory;
use chi_core::{ConstDef, Core, Verdict, View};
use chi_core_frame::Stop;
use chi_machine_agenda::Ending;
use chi_plain_eval::{Surroundings, constant_value};
use chi_token::Bytes;
use chi_value::Value;
use std::alloc::Global;

/// What the constants of a program come to.
#[derive(Debug, Drop)]
pub enum Constants {
    /// All have a value.
    Set(Vec<Value>),
    /// A fault in one of them.
    Breaks(Ending),
}

/// The value of a constant, which may read those before it.
fn constant(
    alloc: Global,
    core: &Core,
    seed: u64,
    before: &[Value],
    c: &ConstDef,
) -> Result<Value, Stop>
    requires { constant_value core.now seed before.now c.now ≢ answer.Amiss }
    ensures value { IfOk result (λ v. (view : View) × (constant_value core.now seed before.now c.now ≡ Gives v view)) }
    ensures stops { IfErr result (λ stop. Stops stop (constant_value core.now seed before.now c.now)) }
{
    let scene = Surroundings {
        functions: &[],
        names: &core.names,
        seed,
        clock: 0,
        constants: before,
        finished: &[],
    };
    let mut view = View {
        left: 0,
        draws: [0; 64],
        channels: 0,
        instances: 0,
    };
    let value = constant_value(alloc, &scene, &c.value, &mut view);
    let Surroundings {
        functions: _,
        names: _,
        seed: _,
        clock: _,
        constants: _,
        finished: _,
    } = scene;
    value
}

/// The constants of a program, by the seed of its experiment.
pub fn set_constants(alloc: Global, core: &Core, seed: u64) -> Result<Constants, NoMemory>
    requires { constants core.now seed ≢ Amiss }
    ensures { IfOk result (λ it. constants core.now seed ≡ constants_in it) }
{
    let mut values = Vec::new(alloc);
    for c in core.consts.as_slice() {
        match constant(alloc, core, seed, values.as_slice(), c) {
            Ok(value) => values.push(value)?,
            Err(Stop::Fault(kind)) => {
                let name = Bytes::copy_of(alloc, b"const")?;
                let verdict = Verdict::Fault(kind, name, c.line);
                return Ok(Constants::Breaks(Ending::of(verdict, 0)));
            }
            Err(Stop::Spent) => unreachable!(),
            Err(Stop::NoMemory) => return Err(NoMemory),
        }
    }
    Ok(Constants::Set(values))
}
