//! New names.

#![tactic(auto, using(chi_check_types::proofs::Firsts::first_of_none, chi_check_types::proofs::Firsts::first_of_append))]

ghost use Rattle.std.specs.Prelude.{◌≡◌, IfOk, OnOk};
ghost use Rattle.std.specs.Option.{option_copied};
ghost use Rattle.chi_check_types.specs.Faults.{first_of};
ghost use Rattle.chi_check_stat_lines.specs.States as spec;
ghost use Rattle.chi_check_stat_lines.specs.Stated.{in_turn};

use crate::lists::{joined, nothing, one};
use crate::state::{Binder, State};
use chi_base::{Items, NoMemory};
use chi_check_types::{Fault, Known, NameKind, Scope, is_predefined, note, rules};
use chi_token::Bytes;
use chi_tree::Name;
use chi_types::Ty;
use std::alloc::Global;

/// Whether nothing new may be named so.
pub(crate) fn is_taken(scope: &Scope, name: &Bytes) -> bool
    ensures { result ≡ spec.is_taken scope.now name.now }
{
    is_predefined(name) || scope.known(name).is_some()
}

/// Notes a name that is taken, and tells whether it is.
pub fn note_new_name(scope: &Scope, name: &Name, kept: &mut Option<Fault>) -> bool
    ensures taken { result ≡ spec.is_taken scope.now name.now.text }
    ensures noted { kept.new ≡ first_of kept.old (spec.new_name_rule scope.now name.now) }
{
    let taken = is_taken(scope, &name.text);
    if taken {
        note(kept, rules::NEW_NAME, name.place);
    }
    taken
}

/// Adds a name, unless it is taken.
pub fn add_name(scope: &mut Scope, name: &Bytes, known: Known) -> Result<(), NoMemory>
    ensures { OnOk result (scope.new ≡ spec.with_name scope.old name.now known) }
{
    if is_taken(scope, name) {
        drop(known);
        return Ok(());
    }
    // At most 2^32 - 1 names are visible: no source within 1,048,576 bytes has more.
    if scope.count() == u32::MAX {
        drop(known);
        return Err(NoMemory);
    }
    scope.declare(name, known)
}

fn bound(binder: Binder, slot: u32, ty: Option<Ty>) -> Known
    ensures { result ≡ spec.bound binder slot ty }
{
    match (binder, ty) {
        (Binder::Variable, Some(ty)) => Known::Var(slot, ty),
        (Binder::Variable, None) => Known::Untyped(NameKind::Variable),
        (Binder::Unwind, Some(ty)) => Known::Fixed(slot, ty),
        (Binder::Unwind, None) => Known::Untyped(NameKind::Unwound),
    }
}

/// A copy of a type, if there is one.
pub fn copied(alloc: Global, ty: Option<&Ty>) -> Result<Option<Ty>, NoMemory>
    ensures { IfOk result (λ copy. copy ≡ option_copied ty.entry) }
{
    match ty {
        None => Ok(None),
        Some(ty) => Ok(Some(ty.copy(alloc)?)),
    }
}

/// The number of the next slot.
pub fn next_slot(state: &State) -> Result<u32, NoMemory>
    ensures { IfOk result (λ slot. slot ≡ spec.next_slot state.now) }
{
    // Slots are numbered below 2^32: no source within 1,048,576 bytes has more names to bind.
    match u32::try_from(state.slots.count()) {
        Ok(slot) => Ok(slot),
        Err(_) => Err(NoMemory),
    }
}

/// A new variable, in the next slot.
pub fn add_variable(
    alloc: Global,
    binder: Binder,
    name: &Name,
    ty: Option<&Ty>,
    state: &mut State,
) -> Result<(), NoMemory>
    ensures { OnOk result (state.new ≡ spec.with_variable binder name.now (option_copied ty.entry) state.old) }
{
    let slot = next_slot(state)?;
    let known = bound(binder, slot, copied(alloc, ty)?);
    add_name(&mut state.names, &name.text, known)?;
    match ty {
        None => Ok(()),
        Some(ty) => state.slots.push(ty.copy(alloc)?),
    }
}

fn slot_of(
    alloc: Global,
    taken: bool,
    slot: u32,
    typed: bool,
) -> Result<Option<Items<u32>>, NoMemory>
    ensures { IfOk result (λ slots. slots ≡ spec.slot_if taken typed slot) }
{
    if taken || !typed {
        return Ok(None);
    }
    one(alloc, Some(slot))
}

/// A name that is bound, and its slot.
pub fn bind(
    alloc: Global,
    binder: Binder,
    name: &Name,
    ty: Option<&Ty>,
    state: &mut State,
    kept: &mut Option<Fault>,
) -> Result<Option<Items<u32>>, NoMemory>
    ensures next { OnOk result (state.new ≡ (spec.binding binder name.now (option_copied ty.entry) state.old).next) }
    ensures made { IfOk result (λ slots. slots ≡ (spec.binding binder name.now (option_copied ty.entry) state.old).made) }
    ensures noted { OnOk result (kept.new ≡ first_of kept.old (spec.binding binder name.now (option_copied ty.entry) state.old).faults) }
{
    let taken = note_new_name(&state.names, name, kept);
    let slot = next_slot(state)?;
    add_variable(alloc, binder, name, ty, state)?;
    slot_of(alloc, taken, slot, ty.is_some())
}

fn first_of_types(types: &[Ty]) -> (Option<&Ty>, &[Ty])
    ensures first { option_copied result.0 ≡ spec.first_type types.now }
    ensures rest { result.1.now ≡ spec.other_types types.now }
{
    match types.split_first() {
        None => (None, types),
        Some((ty, rest)) => (Some(ty), rest),
    }
}

/// Names that are bound in turn, with their types; those past the types have none.
#[tactic(auto, using(chi_check_types::proofs::Firsts::first_of_none, chi_check_types::proofs::Firsts::first_of_append, crate::proofs::Turns::joined_more, crate::proofs::Turns::joined_end))]
pub(crate) fn bind_all(
    alloc: Global,
    binder: Binder,
    names: &[Name],
    types: &[Ty],
    state: &mut State,
    kept: &mut Option<Fault>,
) -> Result<Option<Items<u32>>, NoMemory>
    ensures next { OnOk result (state.new ≡ (in_turn (spec.bindings binder names.now types.now) state.old).next) }
    ensures made { IfOk result (λ slots. slots ≡ (in_turn (spec.bindings binder names.now types.now) state.old).made) }
    ensures noted { OnOk result (kept.new ≡ first_of kept.old (in_turn (spec.bindings binder names.now types.now) state.old).faults) }
{
    let mut all = nothing(alloc)?;
    let mut others = types;
    for name in names {
        let (ty, rest) = first_of_types(others);
        let made = bind(alloc, binder, name, ty, state, kept)?;
        all = joined(alloc, all, made)?;
        others = rest;
    }
    Ok(all)
}
