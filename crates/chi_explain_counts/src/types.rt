//! Types, in whose sizes expressions stand.

ghost use Rattle.std.specs.Prelude.{◌≡◌};
ghost use Rattle.chi_explain_counts.specs.Expressions as spec;

use crate::counted::Counted;
use crate::expressions::counted_where_boxed;
use chi_base::Boxed;
use chi_token::Place;
use chi_tree::{Formal, TypeTree};

/// What is counted at a place of a type.
#[cycle(expression)]
pub(crate) fn counted_in_type(place: Place, t: &TypeTree) -> Option<Counted>
    ensures { result ≡ spec.counted_in_type place t.now }
{
    match t {
        TypeTree::List { size, element, .. } => {
            counted_where_boxed(place, size).or(counted_in_type(place, element.get()))
        }
        TypeTree::Set { element, .. } => counted_in_type(place, element.get()),
        TypeTree::Dist { drawn, .. } => counted_in_type(place, drawn.get()),
        TypeTree::Dict { key, value, .. } => {
            counted_in_type(place, key.get()).or(counted_in_type(place, value.get()))
        }
        TypeTree::Tuple { fields, .. } => counted_in_formals(place, fields.as_slice()),
        TypeTree::Chan { carried, .. } => counted_where_boxed_type(place, carried),
        TypeTree::Word { .. } | TypeTree::Defined(_) => None,
    }
}

/// What is counted at a place of a type that may be left out.
#[cycle(expression)]
fn counted_where_boxed_type(place: Place, t: &Option<Boxed<TypeTree>>) -> Option<Counted>
    ensures { result ≡ spec.counted_where_type place t.now }
{
    match t {
        Some(t) => counted_in_type(place, t.get()),
        None => None,
    }
}

/// What is counted at a place of formals or fields.
#[cycle(expression)]
pub(crate) fn counted_in_formals(place: Place, formals: &[Formal]) -> Option<Counted>
    ensures { result ≡ spec.counted_in_formals place formals.now }
{
    for formal in formals {
        if let Some(found) = counted_where_boxed_type(place, &formal.ty) {
            return Some(found);
        }
    }
    None
}

/// What is counted at a place of the type of exits, where a header has one.
pub(crate) fn counted_where_type(place: Place, t: &Option<TypeTree>) -> Option<Counted>
    ensures { result ≡ spec.counted_where_type place t.now }
{
    match t {
        Some(t) => counted_in_type(place, t),
        None => None,
    }
}
