//! Declarations. A variable may begin with the value of a run.

#![tactic(auto, using(chi_check_types::proofs::Firsts::first_of_none, chi_check_types::proofs::Firsts::first_of_append))]

ghost use Rattle.std.specs.Prelude.{◌≡◌, None, map, option_map, if◌then◌else◌, IfOk, OnOk};
ghost use Rattle.std.specs.Option.{option_copied};
ghost use Rattle.chi_check_types.specs.Faults.{first_of};
ghost use Rattle.chi_check_stat_rules.specs.Homes.{local_rule};
ghost use Rattle.chi_check_stat_rules.specs.ModelRuns as runs;
ghost use Rattle.chi_check_stat_rules.specs.declared.home.Home.TheVariants.{Experiment};
ghost use Rattle.chi_check_stat_lines.specs.Stated as stated;
ghost use Rattle.chi_check_stat_lines.specs.Stated.{held_by, in_turn};
ghost use Rattle.chi_check_experiments.specs.Experiments as spec;

use crate::blocks::all_lined;
use crate::calls::{Called, model_call, run_called};
use chi_base::{Items, NoMemory};
use chi_check_expr::mean_in;
use chi_check_expr_rules::unless;
use chi_check_stat_lines::{
    State, add_declared, declare_one, joined, note_new_name, nothing, one, type_of,
};
use chi_check_stat_rules::{Home, ModelRun, initial_run, note_local, type_place};
use chi_check_types::{Fault, Meant, Scope, Site};
use chi_core::XStat;
use chi_token::Place;
use chi_tree::{Initial, TypeTree, Variable};
use chi_types::Ty;
use std::alloc::Global;

/// The place of the `=`, and the call of a model that is the initial value.
fn initial_call<'a>(
    alloc: Global,
    scope: &Scope,
    initial: &'a Option<Initial>,
) -> Result<Option<(Place, Called<'a>)>, NoMemory>
    ensures { IfOk result (λ c. option_map (λ c. (c.0, spec.call_with c.1.name.now c.1.arguments.now c.1.model)) c ≡ spec.initial_call scope.now initial.now) }
{
    let Some(initial) = initial else {
        return Ok(None);
    };
    match model_call(alloc, scope, &initial.value)? {
        None => Ok(None),
        Some(called) => Ok(Some((initial.equals, called))),
    }
}

/// A run whose value a variable begins with, unless the name is taken.
fn begun(
    alloc: Global,
    taken: bool,
    line: u32,
    slot: u32,
    equals: Place,
    ty: Option<&Ty>,
    run: Option<ModelRun>,
    kept: &mut Option<Fault>,
) -> Result<Option<Items<XStat>>, NoMemory>
    ensures made { IfOk result (λ s. s ≡ (if taken then None else stated.one (runs.initial_run line slot equals (option_copied ty.entry) run).made)) }
    ensures noted { OnOk result (kept.new ≡ first_of kept.old (runs.initial_run line slot equals (option_copied ty.entry) run).faults) }
{
    let first = initial_run(alloc, line, slot, equals, ty, run, kept)?;
    one(alloc, unless(taken, first))
}

/// A variable that begins with the value of a run.
#[tactic(auto, using(chi_check_types::proofs::Firsts::first_of_append, chi_check_stat_lines::proofs::Held::held_if))]
fn declare_run(
    alloc: Global,
    line: u32,
    meant: &Option<Meant>,
    variable: &Variable,
    equals: Place,
    called: Called<'_>,
    state: &mut State,
    kept: &mut Option<Fault>,
) -> Result<Option<Items<XStat>>, NoMemory>
    ensures next { OnOk result (state.new ≡ (spec.run_declared line meant.now variable.now (equals, spec.call_with called.entry.name.now called.entry.arguments.now called.entry.model) state.old).next) }
    ensures made { IfOk result (λ s. s ≡ (spec.run_declared line meant.now variable.now (equals, spec.call_with called.entry.name.now called.entry.arguments.now called.entry.model) state.old).made) }
    ensures noted { OnOk result (kept.new ≡ first_of kept.old (spec.run_declared line meant.now variable.now (equals, spec.call_with called.entry.name.now called.entry.arguments.now called.entry.model) state.old).faults) }
{
    let taken = note_new_name(&state.names, &variable.name, kept);
    let run = run_called(alloc, &state.names, called, kept)?;
    match add_declared(alloc, &variable.name, type_of(meant), state) {
        Ok(slot) => begun(alloc, taken, line, slot, equals, type_of(meant), run, kept),
        Err(refusal) => {
            drop(run);
            Err(refusal)
        }
    }
}

fn declare_variable(
    alloc: Global,
    line: u32,
    meant: &Option<Meant>,
    variable: &Variable,
    state: &mut State,
    kept: &mut Option<Fault>,
) -> Result<Option<Items<XStat>>, NoMemory>
    ensures next { OnOk result (state.new ≡ (spec.variable_tried line meant.now variable.now state.old).next) }
    ensures made { IfOk result (λ s. s ≡ (spec.variable_tried line meant.now variable.now state.old).made) }
    ensures noted { OnOk result (kept.new ≡ first_of kept.old (spec.variable_tried line meant.now variable.now state.old).faults) }
{
    match initial_call(alloc, &state.names, &variable.initial)? {
        Some((equals, called)) => {
            declare_run(alloc, line, meant, variable, equals, called, state, kept)
        }
        None => {
            let home = &Home::Experiment;
            let made = declare_one(alloc, home, line, meant, variable, state, kept)?;
            all_lined(alloc, made)
        }
    }
}

fn declare_variables(
    alloc: Global,
    line: u32,
    meant: &Option<Meant>,
    variables: &[Variable],
    state: &mut State,
    kept: &mut Option<Fault>,
) -> Result<Option<Items<XStat>>, NoMemory>
    ensures next { OnOk result (state.new ≡ (in_turn (map (spec.variable_tried line meant.now) variables.now) state.old).next) }
    ensures made { IfOk result (λ s. s ≡ (in_turn (map (spec.variable_tried line meant.now) variables.now) state.old).made) }
    ensures noted { OnOk result (kept.new ≡ first_of kept.old (in_turn (map (spec.variable_tried line meant.now) variables.now) state.old).faults) }
{
    let mut all = nothing(alloc)?;
    for variable in variables {
        let made = declare_variable(alloc, line, meant, variable, state, kept)?;
        all = joined(alloc, all, made)?;
    }
    Ok(all)
}

/// A declaration of variables of the type that was meant.
#[tactic(auto, using(chi_check_types::proofs::Firsts::first_of_append, chi_check_stat_lines::proofs::Held::held_made))]
fn declare_meant(
    alloc: Global,
    place: Place,
    meant: &Option<Meant>,
    variables: &[Variable],
    state: &mut State,
    kept: &mut Option<Fault>,
) -> Result<Option<Items<XStat>>, NoMemory>
    ensures next { let tried = in_turn (map (spec.variable_tried place.line meant.now) variables.now) state.old in
        OnOk result (state.new ≡ tried.next) }
    ensures made { let tried = in_turn (map (spec.variable_tried place.line meant.now) variables.now) state.old in
        let rule = local_rule Experiment place (option_map (λ m. m.ty) meant.now) in
        IfOk result (λ s. s ≡ (held_by rule tried).made) }
    ensures noted { let tried = in_turn (map (spec.variable_tried place.line meant.now) variables.now) state.old in
        let rule = local_rule Experiment place (option_map (λ m. m.ty) meant.now) in
        OnOk result (kept.new ≡ first_of kept.old (held_by rule tried).faults) }
{
    let barred = note_local(&Home::Experiment, place, type_of(meant), kept);
    let made = declare_variables(alloc, place.line, meant, variables, state, kept)?;
    Ok(unless(barred, made))
}

/// A declaration of variables of one type.
pub(crate) fn declare(
    alloc: Global,
    ty: &TypeTree,
    variables: &[Variable],
    state: &mut State,
    kept: &mut Option<Fault>,
) -> Result<Option<Items<XStat>>, NoMemory>
    ensures next { OnOk result (state.new ≡ (spec.declaration_tried ty.now variables.now state.old).next) }
    ensures made { IfOk result (λ s. s ≡ (spec.declaration_tried ty.now variables.now state.old).made) }
    ensures noted { OnOk result (kept.new ≡ first_of kept.old (spec.declaration_tried ty.now variables.now state.old).faults) }
{
    let place = type_place(ty);
    let meant = mean_in(alloc, ty, &state.names, Site::Experiment, true, kept)?;
    let made = declare_meant(alloc, place, &meant, variables, state, kept);
    drop(meant);
    made
}
