//! Calls of models, which are whole values.

#![tactic(auto, using(chi_check_types::proofs::Firsts::first_of_none, chi_check_types::proofs::Firsts::first_of_append))]

ghost use Rattle.std.specs.Prelude.{◌≡◌, option_map, IfOk, OnOk};
ghost use Rattle.chi_check_types.specs.Faults.{first_of};
ghost use Rattle.chi_check_types.specs.Names.{known_in};
ghost use Rattle.chi_check_stat_rules.specs.ModelRuns as runs;
ghost use Rattle.chi_check_experiments.specs.Experiments as spec;

use chi_base::NoMemory;
use chi_check_stat_lines::values_in;
use chi_check_stat_rules::{Home, ModelRun, Modelled, model_known, run_of};
use chi_check_types::{Fault, Scope};
use chi_tree::{Expr, Name};
use std::alloc::Global;

/// A model that is called, and with what.
#[derive(Drop)]
pub(crate) struct Called<'a> {
    pub name: &'a Name,
    pub model: Option<Modelled>,
    pub arguments: &'a [Expr],
}

/// A call of this name, where it is that of a model.
fn call_of<'a>(
    alloc: Global,
    scope: &Scope,
    name: &'a Name,
    arguments: &'a [Expr],
) -> Result<Option<Called<'a>>, NoMemory>
    ensures { IfOk result (λ c. option_map (λ c. spec.call_with c.name.now c.arguments.now c.model) c ≡ option_map (spec.call_with name.now arguments.now) (runs.model_known (known_in scope.now name.now.text))) }
{
    match model_known(alloc, scope.known(&name.text))? {
        None => Ok(None),
        Some(model) => Ok(Some(Called {
            name,
            model,
            arguments,
        })),
    }
}

/// The call of a model, where the whole expression is one.
#[tactic(auto, using(crate::proofs::CallSteps::call_is))]
pub(crate) fn model_call<'a>(
    alloc: Global,
    scope: &Scope,
    e: &'a Expr,
) -> Result<Option<Called<'a>>, NoMemory>
    ensures { IfOk result (λ c. option_map (λ c. spec.call_with c.name.now c.arguments.now c.model) c ≡ spec.model_call scope.now e.now) }
{
    match e {
        Expr::Call { name, arguments } => call_of(alloc, scope, name, arguments.as_slice()),
        _ => Ok(None),
    }
}

/// A run of the model that is called.
pub(crate) fn run_called(
    alloc: Global,
    scope: &Scope,
    called: Called<'_>,
    kept: &mut Option<Fault>,
) -> Result<Option<ModelRun>, NoMemory>
    ensures made { IfOk result (λ r. r ≡ (spec.run_called scope.now (spec.call_with called.entry.name.now called.entry.arguments.now called.entry.model)).made) }
    ensures noted { OnOk result (kept.new ≡ first_of kept.old (spec.run_called scope.now (spec.call_with called.entry.name.now called.entry.arguments.now called.entry.model)).faults) }
{
    let Called {
        name,
        model,
        arguments,
    } = called;
    match values_in(alloc, &Home::Experiment, scope, arguments, kept) {
        Ok(values) => run_of(alloc, name.place, model, values, kept),
        Err(refusal) => {
            drop(model);
            Err(refusal)
        }
    }
}
