//! Operators and casts. The operand that stands first is typed before the call.

ghost use Rattle.std.specs.Prelude.{◌≡◌, map, IfOk, OnOk};
ghost use Rattle.chi_check_types.specs.Faults.{first_of};
ghost use Rattle.chi_check_expr_rules.specs.Casts as casts;
ghost use Rattle.chi_check_expr_rules.specs.Comparisons as comparisons;
ghost use Rattle.chi_check_expr_rules.specs.Operators as operators;
ghost use Rattle.chi_check_expr.specs.Expressions as expressions;
ghost use Rattle.chi_check_expr.specs.Typing as spec;

use crate::typing::type_in;
use chi_base::NoMemory;
use chi_check_expr_operators as rule;
use chi_check_types::{Fault, Made, Scope, Site};
use chi_token::Place;
use chi_tree::{CastWord, Expr, Link, PrefixSign, RelationSign};
use std::alloc::Global;

/// An operator before its operand.
#[cycle(typing)]
pub(super) fn type_prefix(
    alloc: Global,
    sign: PrefixSign,
    place: Place,
    operand: &Expr,
    scope: &Scope,
    site: Site,
    kept: &mut Option<Fault>,
) -> Result<Option<Made>, NoMemory>
    ensures made { IfOk result (λ m. m ≡ (operators.prefix_of site sign place (spec.typing site scope.now operand.now).made).made) }
    ensures noted { OnOk result (kept.new ≡ first_of (first_of kept.old (spec.typing site scope.now operand.now).faults) (operators.prefix_of site sign place (spec.typing site scope.now operand.now).made).faults) }
{
    let operand = type_in(alloc, operand, scope, site, kept)?;
    rule::prefix_of(alloc, site, sign, place, operand, kept)
}

/// A cast.
#[cycle(typing)]
pub(super) fn type_cast(
    alloc: Global,
    word: CastWord,
    place: Place,
    operand: &Expr,
    scope: &Scope,
    site: Site,
    kept: &mut Option<Fault>,
) -> Result<Option<Made>, NoMemory>
    ensures made { IfOk result (λ m. m ≡ (casts.cast_of site word place (spec.typing site scope.now operand.now).made).made) }
    ensures noted { OnOk result (kept.new ≡ first_of (first_of kept.old (spec.typing site scope.now operand.now).faults) (casts.cast_of site word place (spec.typing site scope.now operand.now).made).faults) }
{
    let operand = type_in(alloc, operand, scope, site, kept)?;
    rule::cast_of(alloc, site, word, place, operand, kept)
}

/// A relation to its right side.
#[cycle(typing)]
pub(super) fn type_related(
    alloc: Global,
    sign: RelationSign,
    place: Place,
    left: Option<Made>,
    right: &Expr,
    scope: &Scope,
    site: Site,
    kept: &mut Option<Fault>,
) -> Result<Option<Made>, NoMemory>
    ensures made { IfOk result (λ m. m ≡ (comparisons.relation_of sign place left (spec.typing site scope.now right.now).made).made) }
    ensures noted { OnOk result (kept.new ≡ first_of (first_of kept.old (spec.typing site scope.now right.now).faults) (comparisons.relation_of sign place left (spec.typing site scope.now right.now).made).faults) }
{
    match type_in(alloc, right, scope, site, kept) {
        Ok(right) => rule::relation_of(alloc, sign, place, left, right, kept),
        Err(refusal) => {
            drop(left);
            Err(refusal)
        }
    }
}

/// A power with its exponent.
#[cycle(typing)]
pub(super) fn type_power(
    alloc: Global,
    place: Place,
    base: Option<Made>,
    exponent: &Expr,
    scope: &Scope,
    site: Site,
    kept: &mut Option<Fault>,
) -> Result<Option<Made>, NoMemory>
    ensures made { IfOk result (λ m. m ≡ (operators.power_of place base (spec.typing site scope.now exponent.now).made).made) }
    ensures noted { OnOk result (kept.new ≡ first_of (first_of kept.old (spec.typing site scope.now exponent.now).faults) (operators.power_of place base (spec.typing site scope.now exponent.now).made).faults) }
{
    match type_in(alloc, exponent, scope, site, kept) {
        Ok(exponent) => rule::power_of(alloc, place, base, exponent, kept),
        Err(refusal) => {
            drop(base);
            Err(refusal)
        }
    }
}

/// Operands of one level, from the left.
#[cycle(typing)]
pub(super) fn type_links(
    alloc: Global,
    links: &[Link],
    first: Option<Made>,
    scope: &Scope,
    site: Site,
    kept: &mut Option<Fault>,
) -> Result<Option<Made>, NoMemory>
    ensures made { IfOk result (λ m. m ≡ (expressions.chained first (map (spec.linked site scope.now) links.now)).made) }
    ensures noted { OnOk result (kept.new ≡ first_of kept.old (expressions.chained first (map (spec.linked site scope.now) links.now)).faults) }
{
    let mut left = first;
    for link in links {
        let right = type_in(alloc, &link.operand, scope, site, kept)?;
        left = rule::chain_of(alloc, link.operator, link.place, left, right, kept)?;
    }
    Ok(left)
}
