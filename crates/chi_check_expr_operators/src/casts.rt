//! Casts, by the type of what is cast.

#![tactic(auto, using(chi_check_types::proofs::Firsts::first_of_none, chi_check_types::proofs::Firsts::first_of_append, chi_check_expr_rules::proofs::Barred::made_barred, chi_check_expr_rules::proofs::Barred::faults_barred))]

ghost use Rattle.std.specs.Prelude.{◌≡◌, not, IfOk, OnOk};
ghost use Rattle.chi_types.specs.declared.ty.Ty.{out-Ty};
ghost use Rattle.chi_check_types.specs.Faults.{first_of, are_none};
ghost use Rattle.chi_check_expr_rules.specs.Casts as spec;

use chi_base::NoMemory;
use chi_check_expr_rules::{
    list_of_one, note_running, note_running_if, on_it, refused, settle, unless, wanting,
};
use chi_check_types::{Fault, Made, Site, rules};
use chi_core::OpName;
use chi_token::Place;
use chi_tree::CastWord;
use chi_types::{Ty, is_plain};
use std::alloc::Global;

fn to_int(alloc: Global, m: Made) -> Result<Option<Made>, NoMemory>
    ensures { IfOk result (λ n. n ≡ spec.to_int (out-Ty m.ty) m) }
{
    match &m.ty {
        Ty::Int | Ty::Text => on_it(alloc, OpName::ToInt, m, Ty::Int),
        _ => Ok(refused(m)),
    }
}

fn to_real(alloc: Global, m: Made) -> Result<Option<Made>, NoMemory>
    ensures { IfOk result (λ n. n ≡ spec.to_real (out-Ty m.ty) m) }
{
    match &m.ty {
        Ty::Int | Ty::Real | Ty::Text | Ty::Timer => on_it(alloc, OpName::ToReal, m, Ty::Real),
        _ => Ok(refused(m)),
    }
}

fn to_bool(alloc: Global, m: Made) -> Result<Option<Made>, NoMemory>
    ensures { IfOk result (λ n. n ≡ spec.to_bool (out-Ty m.ty) m) }
{
    match &m.ty {
        Ty::Bool | Ty::Text => on_it(alloc, OpName::ToBool, m, Ty::Bool),
        _ => Ok(refused(m)),
    }
}

fn to_text(alloc: Global, m: Made) -> Result<Option<Made>, NoMemory>
    ensures { IfOk result (λ n. n ≡ spec.to_text m) }
{
    if is_plain(&m.ty) {
        on_it(alloc, OpName::ToText, m, Ty::Text)
    } else {
        Ok(refused(m))
    }
}

fn to_timer(alloc: Global, m: Made) -> Result<Option<Made>, NoMemory>
    ensures { IfOk result (λ n. n ≡ spec.to_timer m) }
{
    let operands = list_of_one(alloc, m)?;
    wanting(alloc, OpName::ToTimer, &[Ty::Real], Ty::Timer, operands)
}

/// What a cast makes of what is cast.
fn cast(alloc: Global, word: CastWord, m: Made) -> Result<Option<Made>, NoMemory>
    ensures { IfOk result (λ n. n ≡ spec.cast word m) }
{
    match word {
        CastWord::Int => to_int(alloc, m),
        CastWord::Real => to_real(alloc, m),
        CastWord::Text => to_text(alloc, m),
        CastWord::Bool => to_bool(alloc, m),
        CastWord::Timer => to_timer(alloc, m),
    }
}

fn is_timer(ty: &Ty) -> bool
    ensures { result ≡ spec.is_timer (out-Ty ty.now) }
{
    match ty {
        Ty::Timer => true,
        _ => false,
    }
}

fn note_from_timer(site: Site, place: Place, m: &Option<Made>, kept: &mut Option<Fault>) -> bool
    ensures barred { result ≡ not (are_none (spec.from_timer_rule site place m.now)) }
    ensures noted { kept.new ≡ first_of kept.old (spec.from_timer_rule site place m.now) }
{
    match m {
        None => false,
        Some(m) => note_running_if(is_timer(&m.ty), site, place, kept),
    }
}

fn note_timer(
    site: Site,
    word: CastWord,
    place: Place,
    m: &Option<Made>,
    kept: &mut Option<Fault>,
) -> bool
    ensures barred { result ≡ not (are_none (spec.timer_rule site word place m.now)) }
    ensures noted { kept.new ≡ first_of kept.old (spec.timer_rule site word place m.now) }
{
    match word {
        CastWord::Timer => note_running(site, place, kept),
        CastWord::Real => note_from_timer(site, place, m, kept),
        CastWord::Int | CastWord::Text | CastWord::Bool => false,
    }
}

fn cast_made(
    alloc: Global,
    word: CastWord,
    place: Place,
    m: Option<Made>,
    kept: &mut Option<Fault>,
) -> Result<Option<Made>, NoMemory>
    ensures made { IfOk result (λ n. n ≡ (spec.cast_made word place m).made) }
    ensures noted { OnOk result (kept.new ≡ first_of kept.old (spec.cast_made word place m).faults) }
{
    let Some(m) = m else {
        return Ok(None);
    };
    Ok(settle(cast(alloc, word, m)?, rules::PREDEFINED, place, kept))
}

/// A cast. The place is that of its word.
pub fn cast_of(
    alloc: Global,
    site: Site,
    word: CastWord,
    place: Place,
    m: Option<Made>,
    kept: &mut Option<Fault>,
) -> Result<Option<Made>, NoMemory>
    ensures made { IfOk result (λ n. n ≡ (spec.cast_of site word place m).made) }
    ensures noted { OnOk result (kept.new ≡ first_of kept.old (spec.cast_of site word place m).faults) }
{
    let barred = note_timer(site, word, place, &m, kept);
    let made = cast_made(alloc, word, place, m, kept)?;
    Ok(unless(barred, made))
}
