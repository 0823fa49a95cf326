//! The bodies of experiments.

#![tactic(auto, using(chi_check_types::proofs::Firsts::first_of_none, chi_check_types::proofs::Firsts::first_of_append))]

ghost use Rattle.std.specs.Prelude.{◌≡◌, map, option_map, take, IfOk, OnOk};
ghost use Rattle.chi_check_types.specs.Faults.{first_of};
ghost use Rattle.chi_check_stat_lines.specs.Stated.{in_turn};
ghost use Rattle.chi_check.specs.Bodies as spec;

use crate::bodies::none_in;
use crate::definitions::experiment_made;
use chi_base::{Items, NoMemory};
use chi_check_experiments::check_trials;
use chi_check_stat_lines::{Growing, State, joined, nothing};
use chi_check_types::{Fault, Scope};
use chi_core::{XStat, XperDef};
use chi_tree::{Definition, Item, Name, Step};
use std::alloc::Global;

/// The first names after an experiment, and what is made of it.
fn closed(
    alloc: Global,
    name: &Name,
    count: u32,
    state: State,
    body: Option<Items<XStat>>,
) -> Result<(Scope, Option<Items<XperDef>>), NoMemory>
    ensures next { IfOk result (λ r. r.0 ≡ take count state.names) }
    ensures made { IfOk result (λ r. r.1 ≡ option_map (spec.experiment name.now.text state.slots) body) }
{
    let State { names, slots } = state;
    let mut names = names;
    names.cut(count);
    match experiment_made(alloc, &name.text, slots, body) {
        Ok(made) => Ok((names, made)),
        Err(refusal) => {
            drop(names);
            Err(refusal)
        }
    }
}

/// An experiment, and the names that are visible after it as they were before.
fn experiment_in(
    alloc: Global,
    name: &Name,
    steps: &[Step],
    names: Scope,
    kept: &mut Option<Fault>,
) -> Result<(Scope, Option<Items<XperDef>>), NoMemory>
    ensures next { IfOk result (λ r. r.0 ≡ (spec.experiment_defined name.now steps.now names).next) }
    ensures made { IfOk result (λ r. r.1 ≡ (spec.experiment_defined name.now steps.now names).made) }
    ensures noted { OnOk result (kept.new ≡ first_of kept.old (spec.experiment_defined name.now steps.now names).faults) }
{
    let count = names.count();
    let slots = Growing::new(alloc);
    let mut state = State { names, slots };
    match check_trials(alloc, steps, false, &mut state, kept) {
        Ok(body) => closed(alloc, name, count, state, body),
        Err(refusal) => {
            drop(state);
            Err(refusal)
        }
    }
}

fn define_experiment(
    alloc: Global,
    definition: &Definition,
    names: Scope,
    kept: &mut Option<Fault>,
) -> Result<(Scope, Option<Items<XperDef>>), NoMemory>
    ensures next { IfOk result (λ r. r.0 ≡ (spec.experiment_of definition.now names).next) }
    ensures made { IfOk result (λ r. r.1 ≡ (spec.experiment_of definition.now names).made) }
    ensures noted { OnOk result (kept.new ≡ first_of kept.old (spec.experiment_of definition.now names).faults) }
{
    match definition {
        Definition::Xper { name, block, .. } => {
            experiment_in(alloc, name, block.as_slice(), names, kept)
        }
        _ => none_in(alloc, names),
    }
}

/// All experiments.
#[tactic(auto, using(chi_check_types::proofs::Firsts::first_of_none, chi_check_types::proofs::Firsts::first_of_append, chi_check_stat_lines::proofs::Turns::joined_more, chi_check_stat_lines::proofs::Turns::joined_end))]
pub(crate) fn define_experiments(
    alloc: Global,
    items: &[Item],
    names: Scope,
    kept: &mut Option<Fault>,
) -> Result<(Scope, Option<Items<XperDef>>), NoMemory>
    ensures next { IfOk result (λ r. r.0 ≡ (in_turn (spec.experiments_of (map (λ item. item.definition) items.now)) names).next) }
    ensures made { IfOk result (λ r. r.1 ≡ (in_turn (spec.experiments_of (map (λ item. item.definition) items.now)) names).made) }
    ensures noted { OnOk result (kept.new ≡ first_of kept.old (in_turn (spec.experiments_of (map (λ item. item.definition) items.now)) names).faults) }
{
    let mut scope = names;
    let mut all = nothing(alloc)?;
    for item in items {
        let (next, made) = define_experiment(alloc, &item.definition, scope, kept)?;
        scope = next;
        all = joined(alloc, all, made)?;
    }
    Ok((scope, all))
}
