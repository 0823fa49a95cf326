//! The experiment of a program, from its constants to the line that tells how it ended.

ghost use Rattle.std.specs.Prelude.{◌≡◌, ◌≢◌, ◌<◌, ◌^◌, [], None, slice_get, IfOk};
ghost use Rattle.chi_core.specs.Kinded.{KindedConstants};
ghost use Rattle.chi_core.specs.Sound.{Sound};
ghost use Rattle.chi_core.specs.VerdictLine.{MayTell};
ghost use Rattle.chi_engine.specs.Settings.{policy_of};
ghost use Rattle.chi_xper.specs.Ends.{EndsAs};
ghost use Rattle.chi_xper.specs.Experiments.{experiment};
ghost use Rattle.chi_xper_machines.specs.Closings.{Tells};
ghost use Rattle.chi_xper_machines.specs.Runs.{outcomes_by};
ghost use Rattle.chi_xper_machines.specs.Trials.{Broken, IsTale, Missing, Tried};

use crate::constants::{Constants, set_constants};
use crate::lines::{line_for, verdict_told, word_for};
use crate::runner::Machinery;
use crate::tale::{Ended, Tale};
use crate::terms::ExperimentTerms;
use chi_base::NoMemory;
use chi_core::Core;
use chi_core_runs::picked_law;
use chi_gen::generate;
use chi_machine_agenda::Ending;
use chi_value::Value;
use chi_xper::{Setting, XEnd, experiment};
use chi_xper_runs::{constants_law, ending_run_law, exits_law, verdict_law};
use std::alloc::Global;

/// What is told where the program has no experiment.
fn tell_missing(alloc: Global, core: &Core) -> Result<Tale, NoMemory>
    ensures { IfOk result (Tells core.now Missing) }
{
    let _core = core;
    let log = Vec::from_slice(alloc, b"no xper\n")?;
    Ok(Tale {
        ended: Ended::Missing,
        out: Vec::new(alloc),
        log,
    })
}

/// What is told where a fault in a constant ends it before its first item.
fn tell_broken(alloc: Global, core: &Core, ending: &Ending) -> Result<Tale, NoMemory>
    requires { MayTell core.now ending.now.verdict }
    ensures { IfOk result (Tells core.now (Broken ending.now)) }
{
    let mut log = Vec::new(alloc);
    verdict_told(alloc, core, ending.verdict(), ending.clock(), &mut log)?;
    Ok(Tale {
        ended: Ended::Faulted,
        out: Vec::new(alloc),
        log,
    })
}

/// Makes the experiment, with these values of the constants.
fn make(
    alloc: Global,
    core: &Core,
    values: &[Value],
    terms: ExperimentTerms,
    out: &mut Vec<u8>,
) -> XEnd
    requires sound { Sound core.now }
    requires some { slice_get core.now.xpers 0 ≢ None }
    requires constants { KindedConstants core.now values.now }
    requires bound { terms.bound < 2 ^ 63 }
    ensures { EndsAs (experiment core.now values.now terms.seed (outcomes_by core.now (policy_of terms.pick) terms.bound) terms.bound) out.old.items out.new.items result }
{
    picked_law();
    exits_law();
    let Ok(code) = generate(alloc, core) else {
        return XEnd::NoMemory;
    };
    let setting = Setting {
        core,
        constants: values,
        seed: terms.seed,
        bound: terms.bound,
    };
    let mut machinery = Machinery {
        alloc,
        core,
        code,
        pick: terms.pick,
        bound: terms.bound,
    };
    let end = experiment(alloc, &setting, &mut machinery, out);
    drop(machinery);
    end
}

/// What is told of the experiment, with these values of the constants.
fn tell_made(
    alloc: Global,
    core: &Core,
    values: &[Value],
    terms: ExperimentTerms,
) -> Result<Tale, NoMemory>
    requires sound { Sound core.now }
    requires some { slice_get core.now.xpers 0 ≢ None }
    requires constants { KindedConstants core.now values.now }
    requires bound { terms.bound < 2 ^ 63 }
    ensures { IfOk result (Tells core.now (Tried (experiment core.now values.now terms.seed (outcomes_by core.now (policy_of terms.pick) terms.bound) terms.bound))) }
{
    picked_law();
    ending_run_law();
    verdict_law();
    let mut out = Vec::new(alloc);
    let end = make(alloc, core, values, terms, &mut out);
    let ended = word_for(&end);
    let line = line_for(alloc, core, &end);
    drop(end);
    let log = line?;
    Ok(Tale { ended, out, log })
}

/// Makes the first experiment of a sound program, whose models are run by machines, and tells of it.
pub fn tell_experiment(alloc: Global, core: &Core, terms: ExperimentTerms) -> Result<Tale, NoMemory>
    requires sound { Sound core.now }
    requires bound { terms.bound < 2 ^ 63 }
    ensures { IfOk result (IsTale core.now terms.seed (policy_of terms.pick) terms.bound) }
{
    picked_law();
    constants_law();
    if core.xpers.as_slice().is_empty() {
        return tell_missing(alloc, core);
    }
    match set_constants(alloc, core, terms.seed)? {
        Constants::Breaks(ending) => {
            let tale = tell_broken(alloc, core, &ending);
            drop(ending);
            tale
        }
        Constants::Set(values) => {
            let tale = tell_made(alloc, core, values.as_slice(), terms);
            drop(values);
            tale
        }
    }
}
