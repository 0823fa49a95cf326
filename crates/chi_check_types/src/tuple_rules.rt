//! The rules of tuples: what their fields' names are, and what they mean where the types of all
//! fields are known.

ghost use Rattle.std.specs.Prelude.{◌≡◌, [], map, IfOk, OnOk};
ghost use Rattle.chi_check_types.specs.Faults.{first_of, are_none};
ghost use Rattle.chi_check_types.specs.TypeRules as spec;

use crate::fault::{Fault, note};
use crate::meant::Meant;
use crate::rules;
use crate::table::Table;
use crate::type_rules::{meaning, settled};
use chi_base::{Items, NoMemory};
use chi_token::{Bytes, Place};
use chi_tree::Formal;
use chi_types::Ty;
use std::alloc::Global;

/// Notes each field that has the name of one before it, and tells whether there is none.
fn note_names(alloc: Global, fields: &[Formal], kept: &mut Option<Fault>) -> Result<bool, NoMemory>
    ensures holds { IfOk result (λ holds. holds ≡ are_none (spec.names_rule [] (map (λ f. f.name) fields.now))) }
    ensures noted { OnOk result (kept.new ≡ first_of kept.old (spec.names_rule [] (map (λ f. f.name) fields.now))) }
{
    let mut before = Table::new(alloc);
    let mut holds = true;
    for field in fields {
        let name = field.name.text.as_slice();
        if before.has(name) {
            note(kept, rules::FIELD_NAMES, field.name.place);
            holds = false;
        } else {
            before.add(alloc, name, ())?;
        }
    }
    Ok(holds)
}

/// A tuple of fields, whose names and types are the parts where all fields have types.
#[tactic(auto, using(crate::proofs::Firsts::first_of_none, crate::proofs::Firsts::first_of_append, crate::proofs::Ruled::faults_unless, crate::proofs::Ruled::made_ruled))]
pub fn tuple_of(
    alloc: Global,
    place: Place,
    fields: &[Formal],
    parts: Option<Items<(Bytes, Ty)>>,
    kept: &mut Option<Fault>,
) -> Result<Option<Meant>, NoMemory>
    ensures made { IfOk result (λ m. m ≡ (spec.tuple_of place (map (λ f. f.name) fields.now) parts).made) }
    ensures noted { OnOk result (kept.new ≡ first_of kept.old (spec.tuple_of place (map (λ f. f.name) fields.now) parts).faults) }
{
    let holds = note_names(alloc, fields, kept)?;
    let Some(parts) = parts else {
        return Ok(None);
    };
    let meant = meaning(alloc, Ty::TupleOf(parts))?;
    Ok(settled(meant, holds, place, kept))
}
