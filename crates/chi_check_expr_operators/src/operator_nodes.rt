//! Operators with their operands, each of which may have no type.

#![tactic(auto, using(chi_check_types::proofs::Firsts::first_of_none, chi_check_types::proofs::Firsts::first_of_append, chi_check_expr_rules::proofs::Barred::made_barred, chi_check_expr_rules::proofs::Barred::faults_barred))]

ghost use Rattle.std.specs.Prelude.{◌≡◌, not, IfOk, OnOk};
ghost use Rattle.chi_check_types.specs.Faults.{first_of, are_none};
ghost use Rattle.chi_check_expr_rules.specs.Comparisons as relation;
ghost use Rattle.chi_check_expr_rules.specs.Operators as spec;

use crate::comparisons::related;
use crate::operators::{binary, power, prefixed};
use chi_base::NoMemory;
use chi_check_expr_rules::{note_running, settle, unless};
use chi_check_types::{Fault, Made, Site, rules};
use chi_token::Place;
use chi_tree::{Operator, PrefixSign, RelationSign};
use std::alloc::Global;

/// Two operands of a chain. The place is that of the operator.
pub fn chain_of(
    alloc: Global,
    sign: Operator,
    place: Place,
    a: Option<Made>,
    b: Option<Made>,
    kept: &mut Option<Fault>,
) -> Result<Option<Made>, NoMemory>
    ensures made { IfOk result (λ m. m ≡ (spec.chain_of sign place a b).made) }
    ensures noted { OnOk result (kept.new ≡ first_of kept.old (spec.chain_of sign place a b).faults) }
{
    let Some(a) = a else {
        drop(b);
        return Ok(None);
    };
    let Some(b) = b else {
        drop(a);
        return Ok(None);
    };
    Ok(settle(binary(alloc, sign, a, b)?, rules::OPERATOR, place, kept))
}

/// A base and its exponent. The place is that of `^`.
pub fn power_of(
    alloc: Global,
    place: Place,
    a: Option<Made>,
    b: Option<Made>,
    kept: &mut Option<Fault>,
) -> Result<Option<Made>, NoMemory>
    ensures made { IfOk result (λ m. m ≡ (spec.power_of place a b).made) }
    ensures noted { OnOk result (kept.new ≡ first_of kept.old (spec.power_of place a b).faults) }
{
    let Some(a) = a else {
        drop(b);
        return Ok(None);
    };
    let Some(b) = b else {
        drop(a);
        return Ok(None);
    };
    Ok(settle(power(alloc, a, b)?, rules::OPERATOR, place, kept))
}

/// Two operands of a relation. The place is that of the sign.
pub fn relation_of(
    alloc: Global,
    sign: RelationSign,
    place: Place,
    a: Option<Made>,
    b: Option<Made>,
    kept: &mut Option<Fault>,
) -> Result<Option<Made>, NoMemory>
    ensures made { IfOk result (λ m. m ≡ (relation.relation_of sign place a b).made) }
    ensures noted { OnOk result (kept.new ≡ first_of kept.old (relation.relation_of sign place a b).faults) }
{
    let Some(a) = a else {
        drop(b);
        return Ok(None);
    };
    let Some(b) = b else {
        drop(a);
        return Ok(None);
    };
    Ok(settle(related(alloc, sign, a, b)?, rules::OPERATOR, place, kept))
}

fn prefix_made(
    alloc: Global,
    sign: PrefixSign,
    place: Place,
    m: Option<Made>,
    kept: &mut Option<Fault>,
) -> Result<Option<Made>, NoMemory>
    ensures made { IfOk result (λ n. n ≡ (spec.prefix_made sign place m).made) }
    ensures noted { OnOk result (kept.new ≡ first_of kept.old (spec.prefix_made sign place m).faults) }
{
    let Some(m) = m else {
        return Ok(None);
    };
    Ok(settle(prefixed(alloc, sign, m)?, rules::OPERATOR, place, kept))
}

fn note_prefix(site: Site, sign: PrefixSign, place: Place, kept: &mut Option<Fault>) -> bool
    ensures barred { result ≡ not (are_none (spec.prefix_rule site sign place)) }
    ensures noted { kept.new ≡ first_of kept.old (spec.prefix_rule site sign place) }
{
    match sign {
        PrefixSign::Sample => note_running(site, place, kept),
        PrefixSign::Not | PrefixSign::Minus | PrefixSign::Plus => false,
    }
}

/// An operator before its operand. The place is that of the operator.
pub fn prefix_of(
    alloc: Global,
    site: Site,
    sign: PrefixSign,
    place: Place,
    m: Option<Made>,
    kept: &mut Option<Fault>,
) -> Result<Option<Made>, NoMemory>
    ensures made { IfOk result (λ n. n ≡ (spec.prefix_of site sign place m).made) }
    ensures noted { OnOk result (kept.new ≡ first_of kept.old (spec.prefix_of site sign place m).faults) }
{
    let barred = note_prefix(site, sign, place, kept);
    let made = prefix_made(alloc, sign, place, m, kept)?;
    Ok(unless(barred, made))
}
