//! What may stand in a function, in a process and in an experiment, and what may not.

#![tactic(auto, using(chi_check_types::proofs::Firsts::first_of_none))]

ghost use Rattle.std.specs.Prelude.{◌≡◌, map, not};
ghost use Rattle.std.specs.List.{list_any};
ghost use Rattle.std.specs.Option.{option_copied};
ghost use Rattle.chi_types.specs.Same.{beside};
ghost use Rattle.chi_types.specs.Plain.{holds};
ghost use Rattle.chi_check_types.specs.Faults.{first_of, are_none};
ghost use Rattle.chi_check_stat_rules.specs.Homes as spec;

use crate::home::Home;
use chi_check_types::{Fault, Site, note, note_if, rules};
use chi_token::{Bytes, Place};
use chi_types::{Ty, is_plain};

/// Where the expressions of a body stand.
pub fn site_of(home: &Home) -> Site
    ensures { result ≡ spec.site_of home.now }
{
    match home {
        Home::Function(_) => Site::Function,
        Home::Process(_) => Site::Process,
        Home::Experiment => Site::Experiment,
    }
}

/// Notes what stands in no function and in no experiment where it stands in one, and tells whether it does.
pub fn note_running(home: &Home, place: Place, kept: &mut Option<Fault>) -> bool
    ensures barred { result ≡ not (are_none (spec.running_rule home.now place)) }
    ensures noted { kept.new ≡ first_of kept.old (spec.running_rule home.now place) }
{
    match home {
        Home::Function(_) => {
            note(kept, rules::IN_FUNCTION, place);
            true
        }
        Home::Process(_) => false,
        Home::Experiment => {
            note(kept, rules::IN_EXPERIMENT, place);
            true
        }
    }
}

/// Notes what writes where it stands in a function, and tells whether it does.
pub fn note_writing(home: &Home, place: Place, kept: &mut Option<Fault>) -> bool
    ensures barred { result ≡ not (are_none (spec.writing_rule home.now place)) }
    ensures noted { kept.new ≡ first_of kept.old (spec.writing_rule home.now place) }
{
    match home {
        Home::Function(_) => {
            note(kept, rules::IN_FUNCTION, place);
            true
        }
        Home::Process(_) | Home::Experiment => false,
    }
}

#[cycle(has_channel)]
fn has_channel(ty: &Ty) -> bool
    ensures { result ≡ spec.has_channel ty.now }
{
    match ty {
        Ty::Chan(_, _) => true,
        Ty::TupleOf(parts) => any_has_channel(parts.as_slice()),
        Ty::ListOf(inner) | Ty::SetOf(inner) | Ty::Dist(inner) => has_channel(inner.get()),
        Ty::DictOf(key, value) => has_channel(key.get()) || has_channel(value.get()),
        Ty::Bool
        | Ty::Int
        | Ty::Real
        | Ty::Text
        | Ty::Timer
        | Ty::Inst
        | Ty::Void
        | Ty::Choice(_) => false,
    }
}

#[cycle(has_channel)]
fn any_has_channel(parts: &[(Bytes, Ty)]) -> bool
    ensures { result ≡ list_any holds (map (beside spec.has_channel) parts.now) }
{
    for part in parts {
        if has_channel(&part.1) {
            return true;
        }
    }
    false
}

fn note_local_in(home: &Home, place: Place, ty: &Ty, kept: &mut Option<Fault>) -> bool
    ensures barred { result ≡ not (are_none (spec.local_in_rule home.now place ty.now)) }
    ensures noted { kept.new ≡ first_of kept.old (spec.local_in_rule home.now place ty.now) }
{
    match home {
        Home::Function(_) => {
            let holds_channel = has_channel(ty);
            note_if(kept, holds_channel, rules::CHANNEL_IN_FUNCTION, place);
            holds_channel
        }
        Home::Process(_) => false,
        Home::Experiment => {
            let plain = is_plain(ty);
            note_if(kept, !plain, rules::IN_EXPERIMENT, place);
            !plain
        }
    }
}

/// Notes a local variable of a function whose type has a channel in it, and one of an experiment whose type isn't
/// plain, and tells whether it is one.
pub fn note_local(home: &Home, place: Place, ty: Option<&Ty>, kept: &mut Option<Fault>) -> bool
    ensures barred { result ≡ not (are_none (spec.local_rule home.now place (option_copied ty.entry))) }
    ensures noted { kept.new ≡ first_of kept.old (spec.local_rule home.now place (option_copied ty.entry)) }
{
    match ty {
        None => false,
        Some(ty) => note_local_in(home, place, ty, kept),
    }
}
