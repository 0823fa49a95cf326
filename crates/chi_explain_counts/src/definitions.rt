//! Definitions: what is counted in them, and how many parameters they have.

ghost use Rattle.std.specs.Prelude.{◌≡◌};
ghost use Rattle.chi_explain_counts.specs.Programs as spec;

use crate::counted::Counted;
use crate::expressions::counted_in_expr;
use crate::statements::counted_in_block;
use crate::types::{counted_in_formals, counted_in_type, counted_where_type};
use chi_token::Place;
use chi_tree::{Definition, Formal, Item, Name, Program, Step};

/// What is counted at a place of formals and of the block after them.
fn counted_in_body(place: Place, formals: &[Formal], block: &[Step]) -> Option<Counted>
    ensures { result ≡ spec.counted_in_body place formals.now block.now }
{
    counted_in_formals(place, formals).or(counted_in_block(place, block))
}

/// What is counted at a place of a definition.
fn counted_in_definition(place: Place, definition: &Definition) -> Option<Counted>
    ensures { result ≡ spec.counted_in_definition place definition.now }
{
    match definition {
        Definition::Enum { .. } => None,
        Definition::Const { ty, value, .. } => {
            counted_in_type(place, ty).or(counted_in_expr(place, value))
        }
        Definition::TypeWord { ty, .. } => counted_in_type(place, ty),
        Definition::Func {
            result_type,
            formals,
            block,
            ..
        } => {
            let body = counted_in_body(place, formals.as_slice(), block.as_slice());
            counted_in_type(place, result_type).or(body)
        }
        Definition::Proc {
            exit_type,
            formals,
            block,
            ..
        }
        | Definition::Model {
            exit_type,
            formals,
            block,
            ..
        } => {
            let body = counted_in_body(place, formals.as_slice(), block.as_slice());
            counted_where_type(place, exit_type).or(body)
        }
        Definition::Xper { block, .. } => counted_in_block(place, block.as_slice()),
    }
}

/// What is counted at a place of a program.
pub(crate) fn counted_at(place: Place, tree: &Program) -> Option<Counted>
    ensures { result ≡ spec.counted_at place tree.now }
{
    for item in tree.items.as_slice() {
        if let Some(found) = counted_in_definition(place, &item.definition) {
            return Some(found);
        }
    }
    None
}

/// How many formals these are, if the name is the wanted one.
fn parameters_named(wanted: &[u8], name: &Name, formals: &[Formal]) -> Option<usize>
    ensures { result ≡ spec.parameters_named wanted.now name.now formals.now }
{
    if wanted == name.text.as_slice() {
        Some(formals.len())
    } else {
        None
    }
}

/// How many parameters a definition has, if it is a function, a process or a model of this name.
fn parameters_in(wanted: &[u8], definition: &Definition) -> Option<usize>
    ensures { result ≡ spec.parameters_in wanted.now definition.now }
{
    match definition {
        Definition::Func { name, formals, .. }
        | Definition::Proc { name, formals, .. }
        | Definition::Model { name, formals, .. } => {
            parameters_named(wanted, name, formals.as_slice())
        }
        Definition::Enum { .. }
        | Definition::Const { .. }
        | Definition::TypeWord { .. }
        | Definition::Xper { .. } => None,
    }
}

/// How many parameters the first function, process or model of this name has.
pub(crate) fn parameters_of(wanted: &[u8], items: &[Item]) -> Option<usize>
    ensures { result ≡ spec.parameters_of wanted.now items.now }
{
    for item in items {
        if let Some(found) = parameters_in(wanted, &item.definition) {
            return Some(found);
        }
    }
    None
}
