//! The walk over statements. Each arm checks the parts, all of them whatever the first came to, and then makes the statement.

#![tactic(auto, using(chi_check_types::proofs::Firsts::first_of_none, chi_check_types::proofs::Firsts::first_of_append))]

ghost use Rattle.std.specs.Prelude.{◌≡◌, true, length, map, IfOk, OnOk};
ghost use Rattle.chi_check_types.specs.Faults.{first_of};
ghost use Rattle.chi_check_stat_lines.specs.declared.state.Binder.TheVariants as binder;
ghost use Rattle.chi_check_stat_lines.specs.Stated.{in_turn};
ghost use Rattle.chi_check_stat_lines.specs.States.{block, cut};
ghost use Rattle.chi_check_stat_lines.specs.Values.{test_in};
ghost use Rattle.chi_check_stat_lines.specs.Declarations.{walk_in};
ghost use Rattle.chi_check_stat_lines.specs.Blocks.{chosen, looped, walked};
ghost use Rattle.chi_check_stat.specs.Statements as spec;

use crate::alternatives::check_select;
use crate::elements::{run_all, start_only};
use chi_base::{Items, NoMemory};
use chi_check_stat_lines::{
    Binder, State, assignment_in, branched, chosen, communicating, declare, exit_in, finish_in,
    joined, loop_word, looped, nothing, one, open_walk, return_in, test_in, walked, write_in,
};
use chi_check_stat_rules::Home;
use chi_check_types::Fault;
use chi_core::{Branch, CStat};
use chi_token::Place;
use chi_tree::{Expr, Statement, Step, Walk};
use std::alloc::Global;

/// What a statement comes to, if it comes to anything, where a loop stands around it or not.
#[cycle(statement)]
fn check_statement(
    alloc: Global,
    home: &Home,
    statement: &Statement,
    loops: bool,
    state: &mut State,
    kept: &mut Option<Fault>,
) -> Result<Option<Items<CStat>>, NoMemory>
    ensures next { OnOk result (state.new ≡ (spec.stating home.now statement.now loops state.old).next) }
    ensures made { IfOk result (λ s. s ≡ (spec.stating home.now statement.now loops state.old).made) }
    ensures noted { OnOk result (kept.new ≡ first_of kept.old (spec.stating home.now statement.now loops state.old).faults) }
{
    match statement {
        Statement::Declare { ty, variables } => {
            declare(alloc, home, ty, variables.as_slice(), state, kept)
        }
        Statement::Assign {
            targets,
            equals,
            values,
        } => {
            let targets = targets.as_slice();
            let values = values.as_slice();
            assignment_in(alloc, home, &state.names, targets, *equals, values, kept)
        }
        Statement::Communicate(c) => communicating(alloc, home, &state.names, c, kept),
        Statement::Pass(place) => one(alloc, Some(CStat::Pass(place.line))),
        Statement::Break(place) => {
            loop_word(alloc, loops, *place, CStat::Break(place.line), kept)
        }
        Statement::Continue(place) => {
            loop_word(alloc, loops, *place, CStat::Continue(place.line), kept)
        }
        Statement::Select {
            place,
            alternatives,
        } => check_select(
            alloc,
            home,
            *place,
            alternatives.as_slice(),
            loops,
            state,
            kept,
        ),
        Statement::If {
            place,
            branches,
            otherwise,
        } => {
            let parts = branches.as_slice();
            let steps = otherwise.as_slice();
            let made = check_branches(alloc, home, parts, loops, state, kept)?;
            check_otherwise(alloc, home, *place, steps, made, loops, state, kept)
        }
        Statement::While {
            place,
            condition,
            block,
        } => check_while(
            alloc,
            home,
            *place,
            block.as_slice(),
            condition,
            state,
            kept,
        ),
        Statement::For { place, walk, block } => {
            check_for(alloc, home, *place, walk, block.as_slice(), state, kept)
        }
        Statement::Return { place, value } => {
            return_in(alloc, home, &state.names, *place, value, kept)
        }
        Statement::Exit { place, value } => {
            exit_in(alloc, home, &state.names, *place, value, kept)
        }
        Statement::Run { place, elements } => {
            run_all(alloc, home, *place, elements.as_slice(), state, kept)
        }
        Statement::Start { place, elements } => {
            start_only(alloc, home, *place, elements.as_slice(), state, kept)
        }
        Statement::Finish { place, instances } => {
            finish_in(
                alloc,
                home,
                &state.names,
                *place,
                instances.as_slice(),
                kept,
            )
        }
        Statement::Write {
            place,
            ends_line,
            format,
            format_place,
            values,
        } => {
            let values = values.as_slice();
            let format_place = *format_place;
            write_in(
                alloc,
                home,
                &state.names,
                *place,
                *ends_line,
                format,
                format_place,
                values,
                kept,
            )
        }
    }
}

/// The block of `else`, after what the branches came to.
#[cycle(statement)]
fn check_otherwise(
    alloc: Global,
    home: &Home,
    place: Place,
    steps: &[Step],
    branches: Option<Items<Branch>>,
    loops: bool,
    state: &mut State,
    kept: &mut Option<Fault>,
) -> Result<Option<Items<CStat>>, NoMemory>
    ensures next { OnOk result (state.new ≡ (block (map (spec.stepping_in home.now loops) steps.now) state.old).next) }
    ensures made { IfOk result (λ s. s ≡ chosen place.line branches (block (map (spec.stepping_in home.now loops) steps.now) state.old).made) }
    ensures noted { OnOk result (kept.new ≡ first_of kept.old (block (map (spec.stepping_in home.now loops) steps.now) state.old).faults) }
{
    let otherwise = check_block(alloc, home, steps, loops, state, kept)?;
    chosen(alloc, place.line, branches, otherwise)
}

#[cycle(statement)]
fn check_while(
    alloc: Global,
    home: &Home,
    place: Place,
    steps: &[Step],
    condition: &Expr,
    state: &mut State,
    kept: &mut Option<Fault>,
) -> Result<Option<Items<CStat>>, NoMemory>
    ensures next { OnOk result (state.new ≡ (block (map (spec.stepping_in home.now true) steps.now) state.old).next) }
    ensures made { IfOk result (λ s. s ≡ looped place.line (test_in home.now state.old.names condition.now).made (block (map (spec.stepping_in home.now true) steps.now) state.old).made) }
    ensures noted { OnOk result (kept.new ≡ first_of (first_of kept.old (test_in home.now state.old.names condition.now).faults) (block (map (spec.stepping_in home.now true) steps.now) state.old).faults) }
{
    let test = test_in(alloc, home, &state.names, condition, kept)?;
    let count = state.names.count();
    let inner = check_all(alloc, home, steps, true, state, kept)?;
    state.names.cut(count);
    looped(alloc, place.line, test, inner)
}

#[cycle(statement)]
fn check_for(
    alloc: Global,
    home: &Home,
    place: Place,
    walk: &Walk,
    steps: &[Step],
    state: &mut State,
    kept: &mut Option<Fault>,
) -> Result<Option<Items<CStat>>, NoMemory>
    ensures next { OnOk result (state.new ≡ cut (length state.old.names) (in_turn (map (spec.stepping_in home.now true) steps.now) (walk_in home.now binder.Variable walk.now state.old).next).next) }
    ensures made { IfOk result (λ s. s ≡ walked place.line (walk_in home.now binder.Variable walk.now state.old).made (in_turn (map (spec.stepping_in home.now true) steps.now) (walk_in home.now binder.Variable walk.now state.old).next).made) }
    ensures noted { OnOk result (kept.new ≡ first_of (first_of kept.old (walk_in home.now binder.Variable walk.now state.old).faults) (in_turn (map (spec.stepping_in home.now true) steps.now) (walk_in home.now binder.Variable walk.now state.old).next).faults) }
{
    let count = state.names.count();
    let opened = open_walk(alloc, home, Binder::Variable, walk, state, kept)?;
    let inner = check_all(alloc, home, steps, true, state, kept)?;
    state.names.cut(count);
    walked(alloc, place.line, opened, inner)
}

/// Statements in turn, whose names end with them.
#[cycle(statement)]
pub(crate) fn check_block(
    alloc: Global,
    home: &Home,
    steps: &[Step],
    loops: bool,
    state: &mut State,
    kept: &mut Option<Fault>,
) -> Result<Option<Items<CStat>>, NoMemory>
    ensures next { OnOk result (state.new ≡ (block (map (spec.stepping_in home.now loops) steps.now) state.old).next) }
    ensures made { IfOk result (λ s. s ≡ (block (map (spec.stepping_in home.now loops) steps.now) state.old).made) }
    ensures noted { OnOk result (kept.new ≡ first_of kept.old (block (map (spec.stepping_in home.now loops) steps.now) state.old).faults) }
{
    let visible = state.names.count();
    let made = check_all(alloc, home, steps, loops, state, kept)?;
    state.names.cut(visible);
    Ok(made)
}

/// Statements in turn.
#[cycle(statement)]
pub fn check_all(
    alloc: Global,
    home: &Home,
    steps: &[Step],
    loops: bool,
    state: &mut State,
    kept: &mut Option<Fault>,
) -> Result<Option<Items<CStat>>, NoMemory>
    ensures next { OnOk result (state.new ≡ (in_turn (map (spec.stepping_in home.now loops) steps.now) state.old).next) }
    ensures made { IfOk result (λ s. s ≡ (in_turn (map (spec.stepping_in home.now loops) steps.now) state.old).made) }
    ensures noted { OnOk result (kept.new ≡ first_of kept.old (in_turn (map (spec.stepping_in home.now loops) steps.now) state.old).faults) }
{
    let mut all = nothing(alloc)?;
    for step in steps {
        let made = check_statement(alloc, home, &step.statement, loops, state, kept)?;
        all = joined(alloc, all, made)?;
    }
    Ok(all)
}

#[cycle(statement)]
fn check_branches(
    alloc: Global,
    home: &Home,
    branches: &[chi_tree::Branch],
    loops: bool,
    state: &mut State,
    kept: &mut Option<Fault>,
) -> Result<Option<Items<Branch>>, NoMemory>
    ensures next { OnOk result (state.new ≡ (in_turn (map (spec.branching_in home.now loops) branches.now) state.old).next) }
    ensures made { IfOk result (λ s. s ≡ (in_turn (map (spec.branching_in home.now loops) branches.now) state.old).made) }
    ensures noted { OnOk result (kept.new ≡ first_of kept.old (in_turn (map (spec.branching_in home.now loops) branches.now) state.old).faults) }
{
    let mut all = nothing(alloc)?;
    for branch in branches {
        let made = check_branch(alloc, home, branch, loops, state, kept)?;
        all = joined(alloc, all, made)?;
    }
    Ok(all)
}

#[cycle(statement)]
fn check_branch(
    alloc: Global,
    home: &Home,
    branch: &chi_tree::Branch,
    loops: bool,
    state: &mut State,
    kept: &mut Option<Fault>,
) -> Result<Option<Items<Branch>>, NoMemory>
    ensures next { OnOk result (state.new ≡ (spec.branching home.now branch.now loops state.old).next) }
    ensures made { IfOk result (λ s. s ≡ (spec.branching home.now branch.now loops state.old).made) }
    ensures noted { OnOk result (kept.new ≡ first_of kept.old (spec.branching home.now branch.now loops state.old).faults) }
{
    let test = test_in(alloc, home, &state.names, &branch.condition, kept)?;
    let inner = check_block(alloc, home, branch.block.as_slice(), loops, state, kept)?;
    branched(alloc, test, inner)
}
