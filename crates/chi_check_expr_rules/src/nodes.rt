//! What a node comes to by a rule over its parts.

ghost use Rattle.std.specs.Prelude.{◌≡◌, IfOk};
ghost use Rattle.chi_check_types.specs.Faults.{first_of};
ghost use Rattle.chi_check_expr_rules.specs.Nodes as spec;

use chi_base::{Items, NoMemory};
use chi_check_types::{Fault, Made, note};
use chi_token::Place;
use std::alloc::Global;

/// What the rule makes, or the rule is broken there.
#[tactic(auto, using(chi_check_types::proofs::Firsts::first_of_none))]
pub fn settle<T: Drop>(
    made: Option<T>,
    rule: u8,
    place: Place,
    kept: &mut Option<Fault>,
) -> Option<T>
    ensures made { result ≡ (spec.settled rule place made).made }
    ensures noted { kept.new ≡ first_of kept.old (spec.settled rule place made).faults }
{
    match made {
        None => {
            note(kept, rule, place);
            None
        }
        Some(made) => Some(made),
    }
}

/// All parts, where each has a type.
pub fn all_made(alloc: Global, parts: Items<Option<Made>>) -> Result<Option<Items<Made>>, NoMemory>
    ensures { IfOk result (λ all. all ≡ spec.all_made parts) }
{
    let mut all = Vec::new(alloc);
    for part in parts.into_vec(alloc)? {
        let Some(made) = part else {
            return Ok(None);
        };
        all.push(made)?;
    }
    Ok(Some(Items::of(alloc, all)?))
}
