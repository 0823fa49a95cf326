//! The walk over expressions. Each arm types the parts, all of them whatever the first came to, and
//! then calls the rule of its node. What is kept is the first broken rule so far.

mod calls;
mod containers;
mod operands;
mod parts;
mod type_trees;

ghost use Rattle.std.specs.Prelude.{◌≡◌, IfOk, OnOk};
ghost use Rattle.chi_check_types.specs.Faults.{first_of};
ghost use Rattle.chi_check_expr.specs.Typing as spec;

use calls::type_call;
use chi_base::NoMemory;
use chi_check_expr_parts as name_rule;
use chi_check_expr_rules::settle;
use chi_check_types::{Fault, Made, Scope, Site, rules};
use chi_tree::Expr;
use containers::{
    type_dict, type_empty_dict, type_empty_list, type_empty_set, type_list, type_set, type_tuple,
};
use operands::{type_cast, type_links, type_power, type_prefix, type_related};
use parts::type_parts;
use std::alloc::Global;
pub use type_trees::mean_in;

/// The core and the type of an expression, if it has a type.
#[cycle(typing)]
pub fn type_in(
    alloc: Global,
    e: &Expr,
    scope: &Scope,
    site: Site,
    kept: &mut Option<Fault>,
) -> Result<Option<Made>, NoMemory>
    ensures made { IfOk result (λ m. m ≡ (spec.typing site scope.now e.now).made) }
    ensures noted { OnOk result (kept.new ≡ first_of kept.old (spec.typing site scope.now e.now).faults) }
{
    match e {
        Expr::Chain { first, links } => {
            let left = type_in(alloc, first.get(), scope, site, kept)?;
            type_links(alloc, links.as_slice(), left, scope, site, kept)
        }
        Expr::Prefix {
            sign,
            place,
            operand,
        } => type_prefix(alloc, *sign, *place, operand.get(), scope, site, kept),
        Expr::Relation {
            left,
            sign,
            place,
            right,
        } => {
            let left = type_in(alloc, left.get(), scope, site, kept)?;
            type_related(alloc, *sign, *place, left, right.get(), scope, site, kept)
        }
        Expr::Power {
            base,
            place,
            exponent,
        } => {
            let base = type_in(alloc, base.get(), scope, site, kept)?;
            type_power(alloc, *place, base, exponent.get(), scope, site, kept)
        }
        Expr::Part { whole, postfixes } => {
            let whole = type_in(alloc, whole.get(), scope, site, kept)?;
            type_parts(alloc, postfixes.as_slice(), whole, scope, site, kept)
        }
        Expr::Int { digits, place } => {
            let number = name_rule::int_literal(digits);
            Ok(settle(number, rules::LITERAL_RANGE, *place, kept))
        }
        Expr::Real { digits, place } => {
            let number = name_rule::real_literal(digits);
            Ok(settle(number, rules::LITERAL_RANGE, *place, kept))
        }
        Expr::Text { bytes, place: _ } => Ok(Some(name_rule::text_literal(alloc, bytes)?)),
        Expr::Bool { truth, place: _ } => Ok(Some(name_rule::bool_literal(*truth))),
        Expr::Time(place) => name_rule::time_of(alloc, site, *place, kept),
        Expr::Named(name) => name_rule::named_value(alloc, scope, name, kept),
        Expr::Call { name, arguments } => {
            type_call(alloc, name, arguments.as_slice(), scope, site, kept)
        }
        Expr::Cast {
            word,
            place,
            operand,
        } => type_cast(alloc, *word, *place, operand.get(), scope, site, kept),
        Expr::Round { place: _, inner } => type_in(alloc, inner.get(), scope, site, kept),
        Expr::TupleOf { place, parts } => {
            type_tuple(alloc, *place, parts.as_slice(), scope, site, kept)
        }
        Expr::ListOf { place, elements } => {
            type_list(alloc, *place, elements.as_slice(), scope, site, kept)
        }
        Expr::SetOf { place, elements } => {
            type_set(alloc, *place, elements.as_slice(), scope, site, kept)
        }
        Expr::DictOf { place, entries } => {
            type_dict(alloc, *place, entries.as_slice(), scope, site, kept)
        }
        Expr::EmptyList { place, element } => {
            type_empty_list(alloc, *place, element.get(), scope, site, kept)
        }
        Expr::EmptySet { place, element } => {
            type_empty_set(alloc, *place, element.get(), scope, site, kept)
        }
        Expr::EmptyDict { place, key, value } => {
            let key = mean_in(alloc, key.get(), scope, site, false, kept)?;
            type_empty_dict(alloc, *place, key, value.get(), scope, site, kept)
        }
    }
}
