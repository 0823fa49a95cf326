//! The fields of a tuple, whose types are found one after the other.

ghost use Rattle.std.specs.Prelude.{◌≡◌, [], ◌∷◌, ◌++◌, map, Option, None, IfOk, option_map};
ghost use Rattle.std.specs.Option.{option_and_then};
ghost use Rattle.chi_check_types.specs.Faults.{first_of};
ghost use Rattle.chi_check_expr.specs.TypeTrees as spec;

use chi_base::{Items, NoMemory};
use chi_check_types::{Fault, note, rules};
use chi_token::Bytes;
use chi_tree::{Formal, Name};
use chi_types::Ty;
use std::alloc::Global;

/// Notes a first field without a type before it, which no tree of a source has.
#[tactic(auto, using(chi_check_types::proofs::Firsts::first_of_none))]
pub(crate) fn note_first(fields: &[Formal], kept: &mut Option<Fault>)
    ensures { kept.new ≡ first_of kept.old (spec.first_rule (map spec.placed_formal fields.now)) }
{
    let Some((first, _)) = fields.split_first() else {
        return;
    };
    if first.ty.is_none() {
        note(kept, rules::VISIBLE_NAME, first.name.place);
    }
}

/// One more field, where it and those before it have types.
pub(crate) fn with_field(
    alloc: Global,
    parts: Option<Items<(Bytes, Ty)>>,
    name: &Name,
    ty: &Option<Ty>,
) -> Result<Option<Items<(Bytes, Ty)>>, NoMemory>
    ensures { IfOk result (λ more. more ≡ option_and_then (λ done. option_map (λ t. done ++ (name.now.text, t) ∷ []) ty.now) parts) }
{
    let Some(parts) = parts else {
        return Ok(None);
    };
    let Some(ty) = ty else {
        return Ok(None);
    };
    let mut parts = parts.into_vec(alloc)?;
    let ty = ty.copy(alloc)?;
    parts.push((Bytes::copy_of(alloc, name.text.as_slice())?, ty))?;
    Ok(Some(Items::of(alloc, parts)?))
}
