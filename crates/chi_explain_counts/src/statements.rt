//! Statements, and what is counted in them themselves: targets, values, codes, and arguments of what is run or started.

ghost use Rattle.std.specs.Prelude.{◌≡◌, map};
ghost use Rattle.chi_explain_counts.specs.Found.{first_found};
ghost use Rattle.chi_explain_counts.specs.Statements as spec;

use crate::counted::{Counted, here};
use crate::expressions::{
    counted_in_expr, counted_in_exprs, counted_in_postfixes, counted_where_expr,
};
use crate::types::counted_in_type;
use chi_token::{Bytes, Place};
use chi_tree::{
    Alternative, Branch, Communication, Element, Expr, Statement, Step, Target, Variable, Walk,
};

/// The parts of the one tuple, where there is just one value, and it is written as a tuple.
fn parts_of_one(values: &[Expr]) -> Option<usize>
    ensures { result ≡ spec.parts_of_one values.now }
{
    let Some((value, others)) = values.split_first() else {
        return None;
    };
    if !others.is_empty() {
        return None;
    }
    match value {
        Expr::TupleOf { parts, .. } => Some(parts.as_slice().len()),
        _ => None,
    }
}

/// What is counted of an assignment with so many targets.
fn assigned(targets: usize, values: &[Expr]) -> Counted
    ensures { result ≡ spec.assigned targets values.now }
{
    match parts_of_one(values) {
        Some(parts) => Counted::Parts { targets, parts },
        None => Counted::Values {
            targets,
            values: values.len(),
        },
    }
}

/// How many codes a format has.
fn code_count(format: &[u8]) -> usize
    ensures { result ≡ spec.code_count format.now }
{
    let mut count = 0;
    let mut before = false;
    for byte in format {
        if before {
            if *byte != b'%' {
                count += 1;
            }
            before = false;
        } else {
            before = *byte == b'%';
        }
    }
    count
}

/// What is counted at a place of the initial value of a variable, if it has one.
fn counted_in_variable(place: Place, variable: &Variable) -> Option<Counted>
    ensures { result ≡ spec.counted_in_variable place variable.now }
{
    match &variable.initial {
        Some(initial) => counted_in_expr(place, &initial.value),
        None => None,
    }
}

/// What is counted at a place of the initial values of a declaration.
fn counted_in_declaration(place: Place, variables: &[Variable]) -> Option<Counted>
    ensures { result ≡ spec.counted_in_declaration place variables.now }
{
    for variable in variables {
        if let Some(found) = counted_in_variable(place, variable) {
            return Some(found);
        }
    }
    None
}

/// What is counted at a place of the indexes of a target.
fn counted_in_target(place: Place, target: &Target) -> Option<Counted>
    ensures { result ≡ spec.counted_in_target place target.now }
{
    counted_in_postfixes(place, target.steps.as_slice())
}

/// What is counted at a place of the indexes of targets.
fn counted_in_targets(place: Place, targets: &[Target]) -> Option<Counted>
    ensures { result ≡ spec.counted_in_targets place targets.now }
{
    for target in targets {
        if let Some(found) = counted_in_target(place, target) {
            return Some(found);
        }
    }
    None
}

/// What is counted at a place of an assignment.
fn counted_in_assignment(
    place: Place,
    targets: &[Target],
    equals: Place,
    values: &[Expr],
) -> Option<Counted>
    ensures { result ≡ spec.counted_in_assignment place targets.now equals values.now }
{
    let within = counted_in_targets(place, targets).or(counted_in_exprs(place, values));
    here(place, equals, assigned(targets.len(), values)).or(within)
}

/// What is counted at a place of a write.
fn counted_in_write(
    place: Place,
    format: &Bytes,
    format_place: Place,
    values: &[Expr],
) -> Option<Counted>
    ensures { result ≡ spec.counted_in_write place format.now format_place values.now }
{
    let shown = Counted::Shown {
        codes: code_count(format.as_slice()),
        values: values.len(),
    };
    here(place, format_place, shown).or(counted_in_exprs(place, values))
}

/// What is counted at a place of the container of a walk.
fn counted_in_walk(place: Place, walk: &Walk) -> Option<Counted>
    ensures { result ≡ spec.counted_in_walk place walk.now }
{
    counted_in_expr(place, &walk.container)
}

/// What is counted at a place of a communication.
fn counted_in_communication(place: Place, communication: &Communication) -> Option<Counted>
    ensures { result ≡ spec.counted_in_communication place communication.now }
{
    match communication {
        Communication::Send { target, value, .. } => {
            counted_in_target(place, target).or(counted_where_expr(place, value))
        }
        Communication::Receive { target, .. } => counted_in_target(place, target),
        Communication::Delay { length, .. } => counted_in_expr(place, length),
    }
}

/// What is counted at a place of the indexes of a target that may be left out.
fn counted_where_target(place: Place, target: &Option<Target>) -> Option<Counted>
    ensures { result ≡ spec.counted_where_target place target.now }
{
    match target {
        Some(target) => counted_in_target(place, target),
        None => None,
    }
}

/// What is counted at a place of what is run or started.
#[cycle(element)]
fn counted_in_element(place: Place, element: &Element) -> Option<Counted>
    ensures { result ≡ spec.counted_in_element place element.now }
{
    match element {
        Element::Make {
            target,
            name,
            arguments,
        } => {
            let arguments = arguments.as_slice();
            let within = counted_where_target(place, target).or(counted_in_exprs(place, arguments));
            here(place, name.place, Counted::Arguments(arguments.len())).or(within)
        }
        Element::Unwind { walk, elements, .. } => {
            let inner = counted_in_elements(place, elements.as_slice());
            counted_in_walk(place, walk).or(inner)
        }
    }
}

/// What is counted at a place of several that are run or started.
#[cycle(element)]
fn counted_in_elements(place: Place, elements: &[Element]) -> Option<Counted>
    ensures { result ≡ spec.counted_in_elements place elements.now }
{
    for element in elements {
        if let Some(found) = counted_in_element(place, element) {
            return Some(found);
        }
    }
    None
}

/// What is counted at a place of a statement.
#[cycle(statement)]
fn counted_in_statement(place: Place, statement: &Statement) -> Option<Counted>
    ensures { result ≡ spec.counted_in_statement place statement.now }
{
    match statement {
        Statement::Declare { ty, variables } => {
            let initial = counted_in_declaration(place, variables.as_slice());
            counted_in_type(place, ty).or(initial)
        }
        Statement::Assign {
            targets,
            equals,
            values,
        } => counted_in_assignment(place, targets.as_slice(), *equals, values.as_slice()),
        Statement::Communicate(communication) => counted_in_communication(place, communication),
        Statement::Select { alternatives, .. } => {
            counted_in_alternatives(place, alternatives.as_slice())
        }
        Statement::If {
            branches,
            otherwise,
            ..
        } => {
            let last = counted_in_block(place, otherwise.as_slice());
            counted_in_branches(place, branches.as_slice()).or(last)
        }
        Statement::While {
            condition,
            block,
            ..
        } => {
            let block = counted_in_block(place, block.as_slice());
            counted_in_expr(place, condition).or(block)
        }
        Statement::For { walk, block, .. } => {
            let block = counted_in_block(place, block.as_slice());
            counted_in_walk(place, walk).or(block)
        }
        Statement::Return { value, .. } => counted_in_expr(place, value),
        Statement::Exit { value, .. } => counted_where_expr(place, value),
        Statement::Run { elements, .. } | Statement::Start { elements, .. } => {
            counted_in_elements(place, elements.as_slice())
        }
        Statement::Finish { instances, .. } => counted_in_exprs(place, instances.as_slice()),
        Statement::Write {
            format,
            format_place,
            values,
            ..
        } => counted_in_write(place, format, *format_place, values.as_slice()),
        Statement::Pass(_) | Statement::Break(_) | Statement::Continue(_) => None,
    }
}

/// What is counted at a place of statements in turn.
#[cycle(statement)]
pub(crate) fn counted_in_block(place: Place, steps: &[Step]) -> Option<Counted>
    ensures { result ≡ spec.counted_in_block place steps.now }
{
    for step in steps {
        if let Some(found) = counted_in_statement(place, &step.statement) {
            return Some(found);
        }
    }
    None
}

/// What is counted at a place of the branches of an `if`.
#[cycle(statement)]
fn counted_in_branches(place: Place, branches: &[Branch]) -> Option<Counted>
    ensures { result ≡ first_found (map (spec.counted_in_branch place) branches.now) }
{
    for branch in branches {
        let block = counted_in_block(place, branch.block.as_slice());
        if let Some(found) = counted_in_expr(place, &branch.condition).or(block) {
            return Some(found);
        }
    }
    None
}

/// What is counted at a place of an alternative of a select.
#[cycle(statement)]
fn counted_in_alternative(place: Place, alternative: &Alternative) -> Option<Counted>
    ensures { result ≡ spec.counted_in_alternative place alternative.now }
{
    match alternative {
        Alternative::Guarded {
            guard,
            communication,
            block,
        } => {
            let block = counted_in_block(place, block.as_slice());
            let offer = counted_in_communication(place, communication);
            counted_where_expr(place, guard).or(offer.or(block))
        }
        Alternative::Unwind {
            walk,
            alternatives,
            ..
        } => {
            let inner = counted_in_alternatives(place, alternatives.as_slice());
            counted_in_walk(place, walk).or(inner)
        }
    }
}

/// What is counted at a place of the alternatives of a select.
#[cycle(statement)]
fn counted_in_alternatives(place: Place, alternatives: &[Alternative]) -> Option<Counted>
    ensures { result ≡ first_found (map (spec.counted_in_alternative place) alternatives.now) }
{
    for alternative in alternatives {
        if let Some(found) = counted_in_alternative(place, alternative) {
            return Some(found);
        }
    }
    None
}
