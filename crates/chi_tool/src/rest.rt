//! What is told at length of where a run comes to rest.

ghost use Rattle.std.specs.Prelude.{◌≡◌, ◌<◌, ◌^◌, Some, IfOk, slice_get};
ghost use Rattle.chi_core.specs.declared.program.ProcDef.{ProcDef};
ghost use Rattle.chi_core.specs.Kinds.{kinds_of};
ghost use Rattle.chi_core.specs.Of.{at_start, AreOf};
ghost use Rattle.chi_core.specs.Sound.{Sound};
ghost use Rattle.chi_tool.specs.Running.{IsRestTold};
ghost use Rattle.chi_tool.specs.Settings.{settings_with, wanted_of};

use crate::task::Asked;
use chi_base::NoMemory;
use chi_cli::Pick;
use chi_core::Core;
use chi_explain_runs::explain_rest;
use chi_sched::{First, Last, Spread};
use chi_value::Value;
use std::alloc::Global;

/// The same values once more.
pub fn copies_of(alloc: Global, values: &[Value]) -> Result<Vec<Value>, NoMemory>
    ensures { IfOk result (λ copies. copies.items ≡ values.now) }
{
    let mut copies = Vec::new(alloc);
    for value in values {
        copies.push(value.copy(alloc)?)?;
    }
    Ok(copies)
}

/// The text that says which instances haven't finished where the run of a program comes to rest which words ask for, and who
/// waits for what.
pub fn rest_told(
    alloc: Global,
    source: &[u8],
    core: &Core,
    arguments: Vec<Value>,
    asked: &Asked<Pick>,
) -> Result<Vec<u8>, NoMemory>
    requires sound { Sound core.now }
    requires arguments { (d : ProcDef) → slice_get core.now.procs core.now.model ≡ Some d
        → AreOf (at_start core.now.names.kinds) arguments.items (kinds_of d.params) }
    requires bound { asked.now.terms.bound < 2 ^ 63 }
    ensures { IfOk result (λ text. IsRestTold core.now source.now (settings_with (wanted_of asked.now) arguments.items) text.items) }
{
    match asked.terms.policy {
        Pick::First => {
            let terms = asked.terms.with(First);
            explain_rest(alloc, core, source, arguments, &terms)
        }
        Pick::Last => {
            let terms = asked.terms.with(Last);
            explain_rest(alloc, core, source, arguments, &terms)
        }
        Pick::Spread(salt) => {
            let terms = asked.terms.with(Spread { salt });
            explain_rest(alloc, core, source, arguments, &terms)
        }
    }
}
