//! The walk over statements of an experiment. Each arm checks the parts, all of them whatever the first came to, and
//! then makes the statement.

#![tactic(auto, using(chi_check_types::proofs::Firsts::first_of_none, chi_check_types::proofs::Firsts::first_of_append))]

ghost use Rattle.std.specs.Prelude.{◌≡◌, None, true, length, map, IfOk, OnOk};
ghost use Rattle.chi_check_types.specs.declared.rules.TheConstants.{IN_EXPERIMENT};
ghost use Rattle.chi_check_types.specs.Faults.{first_of};
ghost use Rattle.chi_check_types.specs.Typed.{broken_if, unless};
ghost use Rattle.chi_check_stat_rules.specs.Endings.{loop_rule};
ghost use Rattle.chi_check_stat_rules.specs.declared.home.Home.TheVariants.{Experiment};
ghost use Rattle.chi_check_stat_lines.specs.declared.state.Binder.TheVariants as binder;
ghost use Rattle.chi_check_stat_lines.specs.Stated as stated;
ghost use Rattle.chi_check_stat_lines.specs.Stated.{in_turn};
ghost use Rattle.chi_check_stat_lines.specs.States.{block, cut};
ghost use Rattle.chi_check_stat_lines.specs.Values.{test_in};
ghost use Rattle.chi_check_stat_lines.specs.Declarations.{walk_in};
ghost use Rattle.chi_check_stat_lines.specs.Lines as lines;
ghost use Rattle.chi_check_experiments.specs.Experiments as spec;

use crate::assigning::assign;
use crate::blocks::{all_lined, branched, chosen, looped, walked};
use crate::declaring::declare;
use chi_base::{Items, NoMemory};
use chi_check_stat_lines::{
    Binder, State, communicating, exit_in, finish_in, joined, loop_word, nothing, one, open_walk,
    return_in, test_in, write_in,
};
use chi_check_stat_rules::Home;
use chi_check_types::{Fault, Scope, note, rules};
use chi_core::{CStat, XBranch, XStat};
use chi_token::{Bytes, Place};
use chi_tree::{Branch, Expr, Statement, Step, Walk};
use std::alloc::Global;

/// What no experiment has, at its first token.
fn refuse(place: Place, kept: &mut Option<Fault>) -> Option<Items<XStat>>
    ensures made { result ≡ None }
    ensures noted { kept.new ≡ first_of kept.old (broken_if true IN_EXPERIMENT place) }
{
    note(kept, rules::IN_EXPERIMENT, place);
    None
}

/// A write of values, whose word and whose format stand at the places.
fn write(
    alloc: Global,
    scope: &Scope,
    place: Place,
    ends_line: bool,
    format: &Bytes,
    format_place: Place,
    values: &[Expr],
    kept: &mut Option<Fault>,
) -> Result<Option<Items<XStat>>, NoMemory>
    ensures made { IfOk result (λ s. s ≡ stated.one (spec.lined (lines.write_in Experiment scope.now place ends_line format.now format_place values.now)).made) }
    ensures noted { OnOk result (kept.new ≡ first_of kept.old (lines.write_in Experiment scope.now place ends_line format.now format_place values.now).faults) }
{
    let made = write_in(
        alloc,
        &Home::Experiment,
        scope,
        place,
        ends_line,
        format,
        format_place,
        values,
        kept,
    )?;
    all_lined(alloc, made)
}

/// A word of loops, unless it stands in none.
fn turn_word(
    alloc: Global,
    loops: bool,
    place: Place,
    statement: CStat,
    kept: &mut Option<Fault>,
) -> Result<Option<Items<XStat>>, NoMemory>
    ensures made { IfOk result (λ s. s ≡ stated.one (spec.lined (unless (loop_rule loops place) statement)).made) }
    ensures noted { OnOk result (kept.new ≡ first_of kept.old (loop_rule loops place)) }
{
    let made = loop_word(alloc, loops, place, statement, kept)?;
    all_lined(alloc, made)
}

/// What a statement comes to, if it comes to anything, where a loop stands around it or not.
#[cycle(trial)]
fn check_trial(
    alloc: Global,
    statement: &Statement,
    loops: bool,
    state: &mut State,
    kept: &mut Option<Fault>,
) -> Result<Option<Items<XStat>>, NoMemory>
    ensures next { OnOk result (state.new ≡ (spec.stating_tried statement.now loops state.old).next) }
    ensures made { IfOk result (λ s. s ≡ (spec.stating_tried statement.now loops state.old).made) }
    ensures noted { OnOk result (kept.new ≡ first_of kept.old (spec.stating_tried statement.now loops state.old).faults) }
{
    match statement {
        Statement::Declare { ty, variables } => {
            declare(alloc, ty, variables.as_slice(), state, kept)
        }
        Statement::Assign {
            targets,
            equals,
            values,
        } => {
            let targets = targets.as_slice();
            let values = values.as_slice();
            assign(alloc, &state.names, targets, *equals, values, kept)
        }
        Statement::Communicate(c) => {
            let made = communicating(alloc, &Home::Experiment, &state.names, c, kept)?;
            all_lined(alloc, made)
        }
        Statement::Pass(place) => one(alloc, Some(XStat::Line(CStat::Pass(place.line)))),
        Statement::Break(place) => {
            turn_word(alloc, loops, *place, CStat::Break(place.line), kept)
        }
        Statement::Continue(place) => {
            turn_word(alloc, loops, *place, CStat::Continue(place.line), kept)
        }
        Statement::If {
            place,
            branches,
            otherwise,
        } => {
            let parts = branches.as_slice();
            let steps = otherwise.as_slice();
            let made = check_branches(alloc, parts, loops, state, kept)?;
            check_otherwise(alloc, *place, steps, made, loops, state, kept)
        }
        Statement::While {
            place,
            condition,
            block,
        } => check_while(alloc, *place, block.as_slice(), condition, state, kept),
        Statement::For { place, walk, block } => {
            check_for(alloc, *place, walk, block.as_slice(), state, kept)
        }
        Statement::Return { place, value } => {
            let made = return_in(alloc, &Home::Experiment, &state.names, *place, value, kept)?;
            all_lined(alloc, made)
        }
        Statement::Exit { place, value } => {
            let made = exit_in(alloc, &Home::Experiment, &state.names, *place, value, kept)?;
            all_lined(alloc, made)
        }
        Statement::Finish { place, instances } => {
            let each = instances.as_slice();
            let made = finish_in(alloc, &Home::Experiment, &state.names, *place, each, kept)?;
            all_lined(alloc, made)
        }
        Statement::Write {
            place,
            ends_line,
            format,
            format_place,
            values,
        } => {
            let values = values.as_slice();
            let format_place = *format_place;
            write(
                alloc,
                &state.names,
                *place,
                *ends_line,
                format,
                format_place,
                values,
                kept,
            )
        }
        Statement::Select { place, .. } => Ok(refuse(*place, kept)),
        Statement::Run { place, .. } => Ok(refuse(*place, kept)),
        Statement::Start { place, .. } => Ok(refuse(*place, kept)),
    }
}

/// The block of `else`, after what the branches came to.
#[cycle(trial)]
fn check_otherwise(
    alloc: Global,
    place: Place,
    steps: &[Step],
    branches: Option<Items<XBranch>>,
    loops: bool,
    state: &mut State,
    kept: &mut Option<Fault>,
) -> Result<Option<Items<XStat>>, NoMemory>
    ensures next { OnOk result (state.new ≡ (block (map (spec.trying_in loops) steps.now) state.old).next) }
    ensures made { IfOk result (λ s. s ≡ spec.chosen place.line branches (block (map (spec.trying_in loops) steps.now) state.old).made) }
    ensures noted { OnOk result (kept.new ≡ first_of kept.old (block (map (spec.trying_in loops) steps.now) state.old).faults) }
{
    match check_block(alloc, steps, loops, state, kept) {
        Ok(otherwise) => chosen(alloc, place.line, branches, otherwise),
        Err(refusal) => {
            drop(branches);
            Err(refusal)
        }
    }
}

#[cycle(trial)]
fn check_while(
    alloc: Global,
    place: Place,
    steps: &[Step],
    condition: &Expr,
    state: &mut State,
    kept: &mut Option<Fault>,
) -> Result<Option<Items<XStat>>, NoMemory>
    ensures next { OnOk result (state.new ≡ (block (map (spec.trying_in true) steps.now) state.old).next) }
    ensures made { IfOk result (λ s. s ≡ spec.looped place.line (test_in Experiment state.old.names condition.now).made (block (map (spec.trying_in true) steps.now) state.old).made) }
    ensures noted { OnOk result (kept.new ≡ first_of (first_of kept.old (test_in Experiment state.old.names condition.now).faults) (block (map (spec.trying_in true) steps.now) state.old).faults) }
{
    let test = test_in(alloc, &Home::Experiment, &state.names, condition, kept)?;
    match check_block(alloc, steps, true, state, kept) {
        Ok(inner) => looped(alloc, place.line, test, inner),
        Err(refusal) => {
            drop(test);
            Err(refusal)
        }
    }
}

#[cycle(trial)]
fn check_for(
    alloc: Global,
    place: Place,
    walk: &Walk,
    steps: &[Step],
    state: &mut State,
    kept: &mut Option<Fault>,
) -> Result<Option<Items<XStat>>, NoMemory>
    ensures next { OnOk result (state.new ≡ cut (length state.old.names) (in_turn (map (spec.trying_in true) steps.now) (walk_in Experiment binder.Variable walk.now state.old).next).next) }
    ensures made { IfOk result (λ s. s ≡ spec.walked place.line (walk_in Experiment binder.Variable walk.now state.old).made (in_turn (map (spec.trying_in true) steps.now) (walk_in Experiment binder.Variable walk.now state.old).next).made) }
    ensures noted { OnOk result (kept.new ≡ first_of (first_of kept.old (walk_in Experiment binder.Variable walk.now state.old).faults) (in_turn (map (spec.trying_in true) steps.now) (walk_in Experiment binder.Variable walk.now state.old).next).faults) }
{
    let count = state.names.count();
    let opened = open_walk(
        alloc,
        &Home::Experiment,
        Binder::Variable,
        walk,
        state,
        kept,
    )?;
    match check_trials(alloc, steps, true, state, kept) {
        Ok(inner) => {
            state.names.cut(count);
            walked(alloc, place.line, opened, inner)
        }
        Err(refusal) => {
            drop(opened);
            Err(refusal)
        }
    }
}

/// Statements in turn, whose names end with them.
#[cycle(trial)]
fn check_block(
    alloc: Global,
    steps: &[Step],
    loops: bool,
    state: &mut State,
    kept: &mut Option<Fault>,
) -> Result<Option<Items<XStat>>, NoMemory>
    ensures next { OnOk result (state.new ≡ (block (map (spec.trying_in loops) steps.now) state.old).next) }
    ensures made { IfOk result (λ s. s ≡ (block (map (spec.trying_in loops) steps.now) state.old).made) }
    ensures noted { OnOk result (kept.new ≡ first_of kept.old (block (map (spec.trying_in loops) steps.now) state.old).faults) }
{
    let visible = state.names.count();
    let made = check_trials(alloc, steps, loops, state, kept)?;
    state.names.cut(visible);
    Ok(made)
}

/// Statements of an experiment in turn.
#[cycle(trial)]
pub fn check_trials(
    alloc: Global,
    steps: &[Step],
    loops: bool,
    state: &mut State,
    kept: &mut Option<Fault>,
) -> Result<Option<Items<XStat>>, NoMemory>
    ensures next { OnOk result (state.new ≡ (in_turn (map (spec.trying_in loops) steps.now) state.old).next) }
    ensures made { IfOk result (λ s. s ≡ (in_turn (map (spec.trying_in loops) steps.now) state.old).made) }
    ensures noted { OnOk result (kept.new ≡ first_of kept.old (in_turn (map (spec.trying_in loops) steps.now) state.old).faults) }
{
    let mut all = nothing(alloc)?;
    for step in steps {
        let made = check_trial(alloc, &step.statement, loops, state, kept)?;
        all = joined(alloc, all, made)?;
    }
    Ok(all)
}

#[cycle(trial)]
fn check_branches(
    alloc: Global,
    branches: &[Branch],
    loops: bool,
    state: &mut State,
    kept: &mut Option<Fault>,
) -> Result<Option<Items<XBranch>>, NoMemory>
    ensures next { OnOk result (state.new ≡ (in_turn (map (spec.branch_tried_in loops) branches.now) state.old).next) }
    ensures made { IfOk result (λ s. s ≡ (in_turn (map (spec.branch_tried_in loops) branches.now) state.old).made) }
    ensures noted { OnOk result (kept.new ≡ first_of kept.old (in_turn (map (spec.branch_tried_in loops) branches.now) state.old).faults) }
{
    let mut all = nothing(alloc)?;
    for branch in branches {
        let made = check_branch(alloc, branch, loops, state, kept)?;
        all = joined(alloc, all, made)?;
    }
    Ok(all)
}

#[cycle(trial)]
fn check_branch(
    alloc: Global,
    branch: &Branch,
    loops: bool,
    state: &mut State,
    kept: &mut Option<Fault>,
) -> Result<Option<Items<XBranch>>, NoMemory>
    ensures next { OnOk result (state.new ≡ (spec.branch_tried branch.now loops state.old).next) }
    ensures made { IfOk result (λ s. s ≡ (spec.branch_tried branch.now loops state.old).made) }
    ensures noted { OnOk result (kept.new ≡ first_of kept.old (spec.branch_tried branch.now loops state.old).faults) }
{
    let home = &Home::Experiment;
    let test = test_in(alloc, home, &state.names, &branch.condition, kept)?;
    match check_block(alloc, branch.block.as_slice(), loops, state, kept) {
        Ok(inner) => branched(alloc, test, inner),
        Err(refusal) => {
            drop(test);
            Err(refusal)
        }
    }
}
