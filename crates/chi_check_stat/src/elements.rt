//! What is run and started, with unwinds.

#![tactic(auto, using(chi_check_types::proofs::Firsts::first_of_none, chi_check_types::proofs::Firsts::first_of_append))]

ghost use Rattle.std.specs.Prelude.{◌≡◌, None, not, length, map, if◌then◌else◌, IfOk, OnOk};
ghost use Rattle.chi_check_types.specs.Faults.{are_none, first_of};
ghost use Rattle.chi_check_stat_rules.specs.Homes.{running_rule};
ghost use Rattle.chi_check_stat_lines.specs.declared.state.Binder.TheVariants as binder;
ghost use Rattle.chi_check_stat_lines.specs.Stated.{in_turn};
ghost use Rattle.chi_check_stat_lines.specs.States.{cut};
ghost use Rattle.chi_check_stat_lines.specs.Declarations.{walk_in};
ghost use Rattle.chi_check_stat_lines.specs.Blocks.{runs, starts};
ghost use Rattle.chi_check_stat.specs.Statements as spec;

use chi_base::{Items, NoMemory};
use chi_check_stat_lines::{
    Binder, Opened, State, element_in, joined, nothing, one, open_walk, ran, started,
};
use chi_check_stat_rules::{Home, note_running};
use chi_check_types::Fault;
use chi_core::{CElem, CStat};
use chi_token::Place;
use chi_tree::{Element, Walk};
use std::alloc::Global;

fn unwound(
    alloc: Global,
    opened: Option<Opened>,
    inner: Option<Items<CElem>>,
) -> Result<Option<Items<CElem>>, NoMemory>
    ensures { IfOk result (λ es. es ≡ spec.unwound opened inner) }
{
    let Some(Opened { container, slots }) = opened else {
        return Ok(None);
    };
    let Some(inner) = inner else {
        return Ok(None);
    };
    one(alloc, Some(CElem::Unwind(slots, container, inner)))
}

#[cycle(element)]
fn start_unwound(
    alloc: Global,
    home: &Home,
    walk: &Walk,
    elements: &[Element],
    state: &mut State,
    kept: &mut Option<Fault>,
) -> Result<Option<Items<CElem>>, NoMemory>
    ensures next { OnOk result (state.new ≡ cut (length state.old.names) (in_turn (map (spec.starting home.now) elements.now) (walk_in home.now binder.Unwind walk.now state.old).next).next) }
    ensures made { IfOk result (λ es. es ≡ spec.unwound (walk_in home.now binder.Unwind walk.now state.old).made (in_turn (map (spec.starting home.now) elements.now) (walk_in home.now binder.Unwind walk.now state.old).next).made) }
    ensures noted { OnOk result (kept.new ≡ first_of (first_of kept.old (walk_in home.now binder.Unwind walk.now state.old).faults) (in_turn (map (spec.starting home.now) elements.now) (walk_in home.now binder.Unwind walk.now state.old).next).faults) }
{
    let count = state.names.count();
    let opened = open_walk(alloc, home, Binder::Unwind, walk, state, kept)?;
    let inner = start_all(alloc, home, elements, state, kept)?;
    state.names.cut(count);
    unwound(alloc, opened, inner)
}

#[cycle(element)]
#[tactic(auto, using(crate::proofs::ElementSteps::next_make, crate::proofs::ElementSteps::made_make, crate::proofs::ElementSteps::noted_make, crate::proofs::ElementSteps::next_unwind, crate::proofs::ElementSteps::made_unwind, crate::proofs::ElementSteps::noted_unwind))]
fn start_one(
    alloc: Global,
    home: &Home,
    element: &Element,
    state: &mut State,
    kept: &mut Option<Fault>,
) -> Result<Option<Items<CElem>>, NoMemory>
    ensures next { OnOk result (state.new ≡ (spec.starting home.now element.now state.old).next) }
    ensures made { IfOk result (λ es. es ≡ (spec.starting home.now element.now state.old).made) }
    ensures noted { OnOk result (kept.new ≡ first_of kept.old (spec.starting home.now element.now state.old).faults) }
{
    match element {
        Element::Make {
            target,
            name,
            arguments,
        } => {
            let arguments = arguments.as_slice();
            element_in(alloc, home, &state.names, target, name, arguments, kept)
        }
        Element::Unwind { walk, elements, .. } => {
            start_unwound(alloc, home, walk, elements.as_slice(), state, kept)
        }
    }
}

#[cycle(element)]
fn start_all(
    alloc: Global,
    home: &Home,
    elements: &[Element],
    state: &mut State,
    kept: &mut Option<Fault>,
) -> Result<Option<Items<CElem>>, NoMemory>
    ensures next { OnOk result (state.new ≡ (in_turn (map (spec.starting home.now) elements.now) state.old).next) }
    ensures made { IfOk result (λ es. es ≡ (in_turn (map (spec.starting home.now) elements.now) state.old).made) }
    ensures noted { OnOk result (kept.new ≡ first_of kept.old (in_turn (map (spec.starting home.now) elements.now) state.old).faults) }
{
    let mut all = nothing(alloc)?;
    for element in elements {
        let made = start_one(alloc, home, element, state, kept)?;
        all = joined(alloc, all, made)?;
    }
    Ok(all)
}

/// Elements that are waited for.
pub(crate) fn run_all(
    alloc: Global,
    home: &Home,
    place: Place,
    elements: &[Element],
    state: &mut State,
    kept: &mut Option<Fault>,
) -> Result<Option<Items<CStat>>, NoMemory>
    ensures next { OnOk result (state.new ≡ (in_turn (map (spec.starting home.now) elements.now) state.old).next) }
    ensures made { IfOk result (λ s. s ≡ (if not (are_none (running_rule home.now place)) then None else runs place.line (in_turn (map (spec.starting home.now) elements.now) state.old).made)) }
    ensures noted { OnOk result (kept.new ≡ first_of (first_of kept.old (running_rule home.now place)) (in_turn (map (spec.starting home.now) elements.now) state.old).faults) }
{
    let barred = note_running(home, place, kept);
    let inner = start_all(alloc, home, elements, state, kept)?;
    ran(alloc, barred, place.line, inner)
}

/// Elements that are started and not waited for.
pub(crate) fn start_only(
    alloc: Global,
    home: &Home,
    place: Place,
    elements: &[Element],
    state: &mut State,
    kept: &mut Option<Fault>,
) -> Result<Option<Items<CStat>>, NoMemory>
    ensures next { OnOk result (state.new ≡ (in_turn (map (spec.starting home.now) elements.now) state.old).next) }
    ensures made { IfOk result (λ s. s ≡ (if not (are_none (running_rule home.now place)) then None else starts place.line (in_turn (map (spec.starting home.now) elements.now) state.old).made)) }
    ensures noted { OnOk result (kept.new ≡ first_of (first_of kept.old (running_rule home.now place)) (in_turn (map (spec.starting home.now) elements.now) state.old).faults) }
{
    let barred = note_running(home, place, kept);
    let inner = start_all(alloc, home, elements, state, kept)?;
    started(alloc, barred, place.line, inner)
}
