//! What may not stand in a constant's expression, in a function and in an experiment.

#![tactic(auto, using(chi_check_types::proofs::Firsts::first_of_none))]

ghost use Rattle.std.specs.Prelude.{◌≡◌, not};
ghost use Rattle.chi_check_types.specs.Faults.{first_of, are_none};
ghost use Rattle.chi_check_expr_rules.specs.Sites as spec;

use chi_check_types::{Fault, Site, note, rules};
use chi_token::Place;

/// Notes a call of a function where none may stand, and tells whether it is there.
pub fn note_calling(site: Site, place: Place, kept: &mut Option<Fault>) -> bool
    ensures barred { result ≡ not (are_none (spec.calling_rule site place)) }
    ensures noted { kept.new ≡ first_of kept.old (spec.calling_rule site place) }
{
    match site {
        Site::Constant => {
            note(kept, rules::IN_CONSTANT, place);
            true
        }
        Site::Function | Site::Process | Site::Experiment => false,
    }
}

/// Notes what depends on the run where it may not stand, and tells whether it is there.
pub fn note_running(site: Site, place: Place, kept: &mut Option<Fault>) -> bool
    ensures barred { result ≡ not (are_none (spec.running_rule site place)) }
    ensures noted { kept.new ≡ first_of kept.old (spec.running_rule site place) }
{
    match site {
        Site::Constant => {
            note(kept, rules::IN_CONSTANT, place);
            true
        }
        Site::Function => {
            note(kept, rules::IN_FUNCTION, place);
            true
        }
        Site::Process => false,
        Site::Experiment => {
            note(kept, rules::IN_EXPERIMENT, place);
            true
        }
    }
}

/// Does so where the test says that it depends on the run.
pub fn note_running_if(runs: bool, site: Site, place: Place, kept: &mut Option<Fault>) -> bool
    ensures barred { result ≡ not (are_none (spec.running_rule_if runs site place)) }
    ensures noted { kept.new ≡ first_of kept.old (spec.running_rule_if runs site place) }
{
    if runs {
        note_running(site, place, kept)
    } else {
        false
    }
}

/// The rule that a call of a model breaks in an expression.
pub fn model_call_rule(site: Site) -> u8
    ensures { result ≡ spec.model_call_rule site }
{
    match site {
        Site::Constant | Site::Function | Site::Process => rules::NAME_KIND,
        Site::Experiment => rules::MODEL_CALL,
    }
}
