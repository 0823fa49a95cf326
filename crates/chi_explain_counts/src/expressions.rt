//! Expressions, in which calls stand.

ghost use Rattle.std.specs.Prelude.{◌≡◌, map};
ghost use Rattle.chi_explain_counts.specs.Found.{first_found};
ghost use Rattle.chi_explain_counts.specs.Expressions as spec;

use crate::counted::{Counted, here};
use crate::types::counted_in_type;
use chi_base::Boxed;
use chi_token::Place;
use chi_tree::{Entry, Expr, Link, Postfix};

/// What is counted at a place of an expression.
#[cycle(expression)]
#[tactic(auto, using(crate::proofs::Lengths::length_of_each))]
pub(crate) fn counted_in_expr(place: Place, e: &Expr) -> Option<Counted>
    ensures { result ≡ spec.counted_in_expr place e.now }
{
    match e {
        Expr::Chain { first, links } => {
            let others = counted_in_links(place, links.as_slice());
            counted_in_expr(place, first.get()).or(others)
        }
        Expr::Prefix { operand, .. } | Expr::Cast { operand, .. } => {
            counted_in_expr(place, operand.get())
        }
        Expr::Round { inner, .. } => counted_in_expr(place, inner.get()),
        Expr::Relation { left, right, .. } => {
            counted_in_expr(place, left.get()).or(counted_in_expr(place, right.get()))
        }
        Expr::Power { base, exponent, .. } => {
            counted_in_expr(place, base.get()).or(counted_in_expr(place, exponent.get()))
        }
        Expr::Part { whole, postfixes } => {
            let others = counted_in_postfixes(place, postfixes.as_slice());
            counted_in_expr(place, whole.get()).or(others)
        }
        Expr::Call { name, arguments } => {
            let arguments = arguments.as_slice();
            let within = counted_in_exprs(place, arguments);
            here(place, name.place, Counted::Arguments(arguments.len())).or(within)
        }
        Expr::TupleOf { parts, .. } => counted_in_exprs(place, parts.as_slice()),
        Expr::ListOf { elements, .. } | Expr::SetOf { elements, .. } => {
            counted_in_exprs(place, elements.as_slice())
        }
        Expr::DictOf { entries, .. } => counted_in_entries(place, entries.as_slice()),
        Expr::EmptyList { element, .. } | Expr::EmptySet { element, .. } => {
            counted_in_type(place, element.get())
        }
        Expr::EmptyDict { key, value, .. } => {
            counted_in_type(place, key.get()).or(counted_in_type(place, value.get()))
        }
        Expr::Int { .. }
        | Expr::Real { .. }
        | Expr::Text { .. }
        | Expr::Bool { .. }
        | Expr::Time(_)
        | Expr::Named(_) => None,
    }
}

/// What is counted at a place of expressions that stand beside each other.
#[cycle(expression)]
pub(crate) fn counted_in_exprs(place: Place, es: &[Expr]) -> Option<Counted>
    ensures { result ≡ spec.counted_in_exprs place es.now }
{
    for e in es {
        if let Some(found) = counted_in_expr(place, e) {
            return Some(found);
        }
    }
    None
}

/// What is counted at a place of the further operands of a chain.
#[cycle(expression)]
fn counted_in_links(place: Place, links: &[Link]) -> Option<Counted>
    ensures { result ≡ first_found (map (spec.counted_in_link place) links.now) }
{
    for link in links {
        if let Some(found) = counted_in_expr(place, &link.operand) {
            return Some(found);
        }
    }
    None
}

/// What is counted at a place of the entries of a dictionary.
#[cycle(expression)]
fn counted_in_entries(place: Place, entries: &[Entry]) -> Option<Counted>
    ensures { result ≡ first_found (map (spec.counted_in_entry place) entries.now) }
{
    for entry in entries {
        if let Some(found) = counted_in_expr(place, &entry.key).or(counted_in_expr(
            place,
            &entry.value,
        )) {
            return Some(found);
        }
    }
    None
}

/// What is counted at a place of indexes, slices and fields.
#[cycle(expression)]
pub(crate) fn counted_in_postfixes(place: Place, postfixes: &[Postfix]) -> Option<Counted>
    ensures { result ≡ spec.counted_in_postfixes place postfixes.now }
{
    for postfix in postfixes {
        if let Some(found) = counted_in_postfix(place, postfix) {
            return Some(found);
        }
    }
    None
}

/// What is counted at a place of an index or a slice.
#[cycle(expression)]
fn counted_in_postfix(place: Place, postfix: &Postfix) -> Option<Counted>
    ensures { result ≡ spec.counted_in_postfix place postfix.now }
{
    match postfix {
        Postfix::Index { index, .. } => counted_in_expr(place, index.get()),
        Postfix::Slice { from, upto, by, .. } => {
            let upto = counted_where_boxed(place, upto);
            let by = counted_where_boxed(place, by);
            counted_where_boxed(place, from).or(upto.or(by))
        }
        Postfix::Field(_) => None,
    }
}

/// What is counted at a place of an expression that may be left out.
#[cycle(expression)]
pub(crate) fn counted_where_boxed(place: Place, e: &Option<Boxed<Expr>>) -> Option<Counted>
    ensures { result ≡ spec.counted_where_expr place e.now }
{
    match e {
        Some(e) => counted_in_expr(place, e.get()),
        None => None,
    }
}

/// What is counted at a place of an expression that may be left out, in a statement.
pub(crate) fn counted_where_expr(place: Place, e: &Option<Expr>) -> Option<Counted>
    ensures { result ≡ spec.counted_where_expr place e.now }
{
    match e {
        Some(e) => counted_in_expr(place, e),
        None => None,
    }
}
