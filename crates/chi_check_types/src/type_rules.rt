//! What a type tree means where the types of its parts are known. Each function notes the rules of
//! its own node that are broken, and gives the type where there are none.

#![tactic(auto, using(crate::proofs::Firsts::first_of_none, crate::proofs::Firsts::first_of_append, crate::proofs::Ruled::faults_unless, crate::proofs::Ruled::made_unless, crate::proofs::Ruled::made_deep))]

ghost use Rattle.std.specs.Prelude.{◌≡◌, [], ◌∷◌, not, nat_lt, Option, None, IfOk, OnOk, if◌then◌else◌};
ghost use Rattle.std.specs.Option.{option_copied};
ghost use Rattle.chi_types.specs.declared.ty.Ty.{out-Ty};
ghost use Rattle.chi_types.specs.Depth.{depth};
ghost use Rattle.chi_types.specs.Plain.{is_plain};
ghost use Rattle.chi_check_types.specs.Faults.{first_of};
ghost use Rattle.chi_check_types.specs.Typed.{broken_if, unless};
ghost use Rattle.chi_check_types.specs.TypeRules as spec;

use crate::fault::{Fault, note};
use crate::known::{Known, NameKind};
use crate::meant::{Made, Meant};
use crate::predefined::is_predefined;
use crate::rules;
use crate::scope::Scope;
use chi_base::{Boxed, Items, NoMemory};
use chi_core::CExpr;
use chi_token::Place;
use chi_tree::{Name, TypeWord};
use chi_types::{Ty, Way, depth, is_plain};
use std::alloc::Global;

/// How deep a type may be.
pub const MOST_TYPE_DEPTH: u32 = 32;

/// Notes the rule where it is broken.
pub fn note_if(kept: &mut Option<Fault>, broken: bool, rule: u8, place: Place)
    ensures { kept.new ≡ first_of kept.old (broken_if broken rule place) }
{
    if broken {
        note(kept, rule, place);
    }
}

/// Whether a type is deeper than types may be.
pub fn is_deep(ty: &Ty) -> bool
    ensures { result ≡ nat_lt MOST_TYPE_DEPTH (depth ty.now) }
{
    depth(ty) > MOST_TYPE_DEPTH
}

/// What the tree means, where its own rules hold and it isn't too deep.
pub(crate) fn settled(
    meant: Meant,
    holds: bool,
    place: Place,
    kept: &mut Option<Fault>,
) -> Option<Meant>
    ensures made { result ≡ (if holds then (unless (spec.depth_rule place meant.ty) meant).made else None) }
    ensures noted { kept.new ≡ first_of kept.old (spec.depth_rule place meant.ty) }
{
    let deep = is_deep(&meant.ty);
    note_if(kept, deep, rules::TYPE_DEPTH, place);
    if deep || !holds { None } else { Some(meant) }
}

pub(crate) fn meaning(alloc: Global, ty: Ty) -> Result<Meant, NoMemory>
    ensures { IfOk result (λ m. m ≡ spec.meaning ty) }
{
    let sizes = Items::of(alloc, Vec::new(alloc))?;
    Ok(Meant { ty, sizes })
}

fn word_type(word: TypeWord) -> Ty
    ensures { result ≡ spec.word_type word }
{
    match word {
        TypeWord::Bool => Ty::Bool,
        TypeWord::Int => Ty::Int,
        TypeWord::Real => Ty::Real,
        TypeWord::Text => Ty::Text,
        TypeWord::Timer => Ty::Timer,
        TypeWord::Inst => Ty::Inst,
    }
}

/// A type that is a word.
pub fn word_of(
    alloc: Global,
    place: Place,
    word: TypeWord,
    kept: &mut Option<Fault>,
) -> Result<Option<Meant>, NoMemory>
    ensures made { IfOk result (λ m. m ≡ (spec.word_of place word).made) }
    ensures noted { OnOk result (kept.new ≡ first_of kept.old (spec.word_of place word).faults) }
{
    let meant = meaning(alloc, word_type(word))?;
    Ok(settled(meant, true, place, kept))
}

/// A list of elements of this type, where the tree of the element is a type.
pub fn list_of(
    alloc: Global,
    place: Place,
    element: Option<Meant>,
    kept: &mut Option<Fault>,
) -> Result<Option<Meant>, NoMemory>
    ensures made { IfOk result (λ m. m ≡ (spec.list_of place element).made) }
    ensures noted { OnOk result (kept.new ≡ first_of kept.old (spec.list_of place element).faults) }
{
    let Some(element) = element else {
        return Ok(None);
    };
    let meant = meaning(alloc, Ty::ListOf(Boxed::new(alloc, element.ty)?))?;
    Ok(settled(meant, true, place, kept))
}

/// A set of elements of this type, which is plain; else the broken rule is noted.
pub fn set_of(
    alloc: Global,
    place: Place,
    element: Option<Meant>,
    kept: &mut Option<Fault>,
) -> Result<Option<Meant>, NoMemory>
    ensures made { IfOk result (λ m. m ≡ (spec.set_of place element).made) }
    ensures noted { OnOk result (kept.new ≡ first_of kept.old (spec.set_of place element).faults) }
{
    let Some(element) = element else {
        return Ok(None);
    };
    let plain = is_plain(&element.ty);
    note_if(kept, !plain, rules::PLAIN_ELEMENT, place);
    let meant = meaning(alloc, Ty::SetOf(Boxed::new(alloc, element.ty)?))?;
    Ok(settled(meant, plain, place, kept))
}

/// A dictionary with keys of a type, which is plain, and values of another; else the broken rule is noted.
pub fn dict_of(
    alloc: Global,
    place: Place,
    key: Option<Meant>,
    value: Option<Meant>,
    kept: &mut Option<Fault>,
) -> Result<Option<Meant>, NoMemory>
    ensures made { IfOk result (λ m. m ≡ (spec.dict_of place key value).made) }
    ensures noted { OnOk result (kept.new ≡ first_of kept.old (spec.dict_of place key value).faults) }
{
    let Some(key) = key else {
        return Ok(None);
    };
    let plain = is_plain(&key.ty);
    note_if(kept, !plain, rules::PLAIN_ELEMENT, place);
    let Some(value) = value else {
        return Ok(None);
    };
    let key = Boxed::new(alloc, key.ty)?;
    let meant = meaning(alloc, Ty::DictOf(key, Boxed::new(alloc, value.ty)?))?;
    Ok(settled(meant, plain, place, kept))
}

/// Whether a distribution may draw values of the type.
pub fn is_drawn(ty: &Ty) -> bool
    ensures { result ≡ spec.is_drawn (out-Ty ty.now) }
{
    match ty {
        Ty::Bool | Ty::Int | Ty::Real => true,
        _ => false,
    }
}

/// A distribution over a type, which is `bool`, `int` or `real`; else the broken rule is noted.
pub fn dist_of(
    alloc: Global,
    place: Place,
    drawn: Option<Meant>,
    kept: &mut Option<Fault>,
) -> Result<Option<Meant>, NoMemory>
    ensures made { IfOk result (λ m. m ≡ (spec.dist_of place drawn).made) }
    ensures noted { OnOk result (kept.new ≡ first_of kept.old (spec.dist_of place drawn).faults) }
{
    let Some(drawn) = drawn else {
        return Ok(None);
    };
    let holds = is_drawn(&drawn.ty);
    note_if(kept, !holds, rules::DISTRIBUTION, place);
    let meant = meaning(alloc, Ty::Dist(Boxed::new(alloc, drawn.ty)?))?;
    Ok(settled(meant, holds, place, kept))
}

fn way_of(way: chi_tree::Way) -> Way
    ensures { result ≡ spec.way_of way }
{
    match way {
        chi_tree::Way::Both => Way::Both,
        chi_tree::Way::Send => Way::Send,
        chi_tree::Way::Receive => Way::Receive,
    }
}

/// A channel that carries values of this type, and the way in which it may be used.
pub fn chan_of(
    alloc: Global,
    place: Place,
    way: chi_tree::Way,
    carried: Option<Meant>,
    kept: &mut Option<Fault>,
) -> Result<Option<Meant>, NoMemory>
    ensures made { IfOk result (λ m. m ≡ (spec.chan_of place way carried).made) }
    ensures noted { OnOk result (kept.new ≡ first_of kept.old (spec.chan_of place way carried).faults) }
{
    let Some(carried) = carried else {
        return Ok(None);
    };
    let meant = meaning(alloc, Ty::Chan(way_of(way), Boxed::new(alloc, carried.ty)?))?;
    Ok(settled(meant, true, place, kept))
}

/// A channel that carries nothing.
pub fn void_chan_of(
    alloc: Global,
    place: Place,
    way: chi_tree::Way,
    kept: &mut Option<Fault>,
) -> Result<Option<Meant>, NoMemory>
    ensures made { IfOk result (λ m. m ≡ (spec.void_chan_of place way).made) }
    ensures noted { OnOk result (kept.new ≡ first_of kept.old (spec.void_chan_of place way).faults) }
{
    let meant = meaning(alloc, Ty::Chan(way_of(way), Boxed::new(alloc, Ty::Void)?))?;
    Ok(settled(meant, true, place, kept))
}

/// Whether it is the type of ints.
pub fn is_int(ty: &Ty) -> bool
    ensures { result ≡ spec.is_int (out-Ty ty.now) }
{
    match ty {
        Ty::Int => true,
        _ => false,
    }
}

fn size_holds(sizes: bool, size: &Option<Made>) -> bool
    ensures { result ≡ spec.size_holds sizes size.now }
{
    if !sizes {
        return false;
    }
    match size {
        None => true,
        Some(size) => is_int(&size.ty),
    }
}

fn with_size(alloc: Global, element: Meant, size: CExpr) -> Result<Meant, NoMemory>
    ensures { IfOk result (λ m. m ≡ spec.with_size element size) }
{
    let Meant { ty, sizes } = element;
    let mut sizes = sizes.into_vec(alloc)?;
    sizes.push(size)?;
    let sizes = Items::of(alloc, sizes)?;
    let ty = Ty::ListOf(Boxed::new(alloc, ty)?);
    Ok(Meant { ty, sizes })
}

/// A list with a size. `sizes` says whether one may stand there.
pub fn sized_list_of(
    alloc: Global,
    place: Place,
    sizes: bool,
    size: Option<Made>,
    element: Option<Meant>,
    kept: &mut Option<Fault>,
) -> Result<Option<Meant>, NoMemory>
    ensures made { IfOk result (λ m. m ≡ (spec.sized_list_of place sizes size element).made) }
    ensures noted { OnOk result (kept.new ≡ first_of kept.old (spec.sized_list_of place sizes size element).faults) }
{
    let holds = size_holds(sizes, &size);
    note_if(kept, !holds, rules::LIST_SIZE, place);
    let Some(size) = size else {
        return Ok(None);
    };
    let Some(element) = element else {
        return Ok(None);
    };
    Ok(settled(with_size(alloc, element, size.core)?, holds, place, kept))
}

fn untyped_name(place: Place, kind: NameKind, kept: &mut Option<Fault>) -> Option<Meant>
    ensures made { result ≡ (spec.untyped_name place kind).made }
    ensures noted { kept.new ≡ first_of kept.old (spec.untyped_name place kind).faults }
{
    match kind {
        NameKind::Type => None,
        _ => {
            note(kept, rules::NAME_KIND, place);
            None
        }
    }
}

fn visible_type(
    alloc: Global,
    place: Place,
    known: Option<&Known>,
    kept: &mut Option<Fault>,
) -> Result<Option<Meant>, NoMemory>
    ensures made { IfOk result (λ m. m ≡ (spec.visible_type place (option_copied known.entry)).made) }
    ensures noted { OnOk result (kept.new ≡ first_of kept.old (spec.visible_type place (option_copied known.entry)).faults) }
{
    match known {
        None => {
            note(kept, rules::VISIBLE_NAME, place);
            Ok(None)
        }
        Some(Known::Kind(ty)) => {
            let meant = meaning(alloc, ty.copy(alloc)?)?;
            Ok(settled(meant, true, place, kept))
        }
        Some(Known::Untyped(kind)) => Ok(untyped_name(place, *kind, kept)),
        Some(_) => {
            note(kept, rules::NAME_KIND, place);
            Ok(None)
        }
    }
}

/// What a name means where a type stands.
pub fn named_type(
    alloc: Global,
    scope: &Scope,
    name: &Name,
    kept: &mut Option<Fault>,
) -> Result<Option<Meant>, NoMemory>
    ensures made { IfOk result (λ m. m ≡ (spec.named_type scope.now name.now).made) }
    ensures noted { OnOk result (kept.new ≡ first_of kept.old (spec.named_type scope.now name.now).faults) }
{
    if is_predefined(&name.text) {
        note(kept, rules::NAME_KIND, name.place);
        return Ok(None);
    }
    visible_type(alloc, name.place, scope.known(&name.text), kept)
}
