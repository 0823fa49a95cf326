//! Selects: their alternatives, with guards and unwinds.

#![tactic(auto, using(chi_check_types::proofs::Firsts::first_of_none, chi_check_types::proofs::Firsts::first_of_append))]

ghost use Rattle.std.specs.Prelude.{◌≡◌, None, not, length, map, if◌then◌else◌, IfOk, OnOk};
ghost use Rattle.chi_check_types.specs.Faults.{are_none, first_of};
ghost use Rattle.chi_check_stat_rules.specs.Homes.{running_rule};
ghost use Rattle.chi_check_stat_lines.specs.declared.state.Binder.TheVariants as binder;
ghost use Rattle.chi_check_stat_lines.specs.Stated.{in_turn};
ghost use Rattle.chi_check_stat_lines.specs.States.{block, cut};
ghost use Rattle.chi_check_stat_lines.specs.Values.{guard_in};
ghost use Rattle.chi_check_stat_lines.specs.Declarations.{walk_in};
ghost use Rattle.chi_check_stat_lines.specs.Lines.{communication_in};
ghost use Rattle.chi_check_stat_lines.specs.Blocks.{offers, guarded, offered};
ghost use Rattle.chi_check_stat.specs.Statements as spec;

use crate::statements::check_block;
use chi_base::{Items, NoMemory};
use chi_check_stat_lines::{
    Binder, State, communication_in, guard_in, guarded, joined, nothing, offered, open_walk,
    selected,
};
use chi_check_stat_rules::{Home, note_running};
use chi_check_types::Fault;
use chi_core::{CAlt, CStat};
use chi_token::Place;
use chi_tree::{Alternative, Communication, Expr, Step, Walk};
use std::alloc::Global;

/// What a select comes to.
#[cycle(statement)]
pub(crate) fn check_select(
    alloc: Global,
    home: &Home,
    place: Place,
    alternatives: &[Alternative],
    loops: bool,
    state: &mut State,
    kept: &mut Option<Fault>,
) -> Result<Option<Items<CStat>>, NoMemory>
    ensures next { OnOk result (state.new ≡ (in_turn (map (spec.offering_in home.now loops) alternatives.now) state.old).next) }
    ensures made { IfOk result (λ s. s ≡ (if not (are_none (running_rule home.now place)) then None else offers place.line (in_turn (map (spec.offering_in home.now loops) alternatives.now) state.old).made)) }
    ensures noted { OnOk result (kept.new ≡ first_of (first_of kept.old (running_rule home.now place)) (in_turn (map (spec.offering_in home.now loops) alternatives.now) state.old).faults) }
{
    let barred = note_running(home, place, kept);
    let inner = check_alternatives(alloc, home, alternatives, loops, state, kept)?;
    selected(alloc, barred, place.line, inner)
}

#[cycle(statement)]
fn check_alternatives(
    alloc: Global,
    home: &Home,
    alternatives: &[Alternative],
    loops: bool,
    state: &mut State,
    kept: &mut Option<Fault>,
) -> Result<Option<Items<CAlt>>, NoMemory>
    ensures next { OnOk result (state.new ≡ (in_turn (map (spec.offering_in home.now loops) alternatives.now) state.old).next) }
    ensures made { IfOk result (λ s. s ≡ (in_turn (map (spec.offering_in home.now loops) alternatives.now) state.old).made) }
    ensures noted { OnOk result (kept.new ≡ first_of kept.old (in_turn (map (spec.offering_in home.now loops) alternatives.now) state.old).faults) }
{
    let mut all = nothing(alloc)?;
    for alternative in alternatives {
        let made = check_alternative(alloc, home, alternative, loops, state, kept)?;
        all = joined(alloc, all, made)?;
    }
    Ok(all)
}

#[cycle(statement)]
fn check_alternative(
    alloc: Global,
    home: &Home,
    alternative: &Alternative,
    loops: bool,
    state: &mut State,
    kept: &mut Option<Fault>,
) -> Result<Option<Items<CAlt>>, NoMemory>
    ensures next { OnOk result (state.new ≡ (spec.offering home.now alternative.now loops state.old).next) }
    ensures made { IfOk result (λ s. s ≡ (spec.offering home.now alternative.now loops state.old).made) }
    ensures noted { OnOk result (kept.new ≡ first_of kept.old (spec.offering home.now alternative.now loops state.old).faults) }
{
    match alternative {
        Alternative::Guarded {
            guard,
            communication,
            block,
        } => {
            let steps = block.as_slice();
            check_guarded(alloc, home, guard, communication, steps, loops, state, kept)
        }
        Alternative::Unwind {
            walk,
            alternatives,
            ..
        } => check_unwound(
            alloc,
            home,
            walk,
            alternatives.as_slice(),
            loops,
            state,
            kept,
        ),
    }
}

#[cycle(statement)]
fn check_guarded(
    alloc: Global,
    home: &Home,
    guard: &Option<Expr>,
    offer: &Communication,
    steps: &[Step],
    loops: bool,
    state: &mut State,
    kept: &mut Option<Fault>,
) -> Result<Option<Items<CAlt>>, NoMemory>
    ensures next { OnOk result (state.new ≡ (block (map (spec.stepping_in home.now loops) steps.now) state.old).next) }
    ensures made { IfOk result (λ s. s ≡ guarded (guard_in home.now state.old.names guard.now).made (communication_in home.now state.old.names offer.now).made (block (map (spec.stepping_in home.now loops) steps.now) state.old).made) }
    ensures noted { OnOk result (kept.new ≡ first_of (first_of (first_of kept.old (guard_in home.now state.old.names guard.now).faults) (communication_in home.now state.old.names offer.now).faults) (block (map (spec.stepping_in home.now loops) steps.now) state.old).faults) }
{
    let guard = guard_in(alloc, home, &state.names, guard, kept)?;
    let offer = communication_in(alloc, home, &state.names, offer, kept)?;
    let inner = check_block(alloc, home, steps, loops, state, kept)?;
    guarded(alloc, guard, offer, inner)
}

#[cycle(statement)]
fn check_unwound(
    alloc: Global,
    home: &Home,
    walk: &Walk,
    alternatives: &[Alternative],
    loops: bool,
    state: &mut State,
    kept: &mut Option<Fault>,
) -> Result<Option<Items<CAlt>>, NoMemory>
    ensures next { OnOk result (state.new ≡ cut (length state.old.names) (in_turn (map (spec.offering_in home.now loops) alternatives.now) (walk_in home.now binder.Unwind walk.now state.old).next).next) }
    ensures made { IfOk result (λ s. s ≡ offered (walk_in home.now binder.Unwind walk.now state.old).made (in_turn (map (spec.offering_in home.now loops) alternatives.now) (walk_in home.now binder.Unwind walk.now state.old).next).made) }
    ensures noted { OnOk result (kept.new ≡ first_of (first_of kept.old (walk_in home.now binder.Unwind walk.now state.old).faults) (in_turn (map (spec.offering_in home.now loops) alternatives.now) (walk_in home.now binder.Unwind walk.now state.old).next).faults) }
{
    let count = state.names.count();
    let opened = open_walk(alloc, home, Binder::Unwind, walk, state, kept)?;
    let inner = check_alternatives(alloc, home, alternatives, loops, state, kept)?;
    state.names.cut(count);
    offered(alloc, opened, inner)
}
