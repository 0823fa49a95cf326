//! The names of all definitions, before their types are known.

#![tactic(auto, using(chi_check_types::proofs::Firsts::first_of_none, chi_check_types::proofs::Firsts::first_of_append))]

ghost use Rattle.std.specs.Prelude.{◌≡◌, ◌+◌, map, IfOk, OnOk};
ghost use Rattle.chi_check_types.specs.Faults.{first_of};
ghost use Rattle.chi_check_stat_lines.specs.Stated.{in_turn};
ghost use Rattle.chi_check_stat_lines.specs.States.{new_name_rule};
ghost use Rattle.chi_check_headers.specs.Definitions as spec;

use crate::sketch::Sketch;
use chi_base::{Items, NoMemory};
use chi_check_stat_lines::{add_name, joined, note_new_name, nothing, one};
use chi_check_types::{Fault, Known, NameKind};
use chi_token::Bytes;
use chi_tree::{Definition, Item, Name};
use chi_types::Ty;
use std::alloc::Global;

/// One more.
pub fn after(count: u32) -> Result<u32, NoMemory>
    ensures { IfOk result (λ next. next ≡ count + 1) }
{
    // At most 2^32 - 1 of anything that is named: no source within 1,048,576 bytes has more.
    match count.checked_add(1) {
        Some(next) => Ok(next),
        None => Err(NoMemory),
    }
}

fn early_known(enumeration: u32, position: Option<u32>) -> Known
    ensures { result ≡ spec.early_known enumeration position }
{
    match position {
        None => Known::Kind(Ty::Choice(enumeration)),
        Some(position) => Known::Value(enumeration, position),
    }
}

/// The name of an enumeration, or of its value at a position.
fn name_early(
    name: &Name,
    enumeration: u32,
    position: Option<u32>,
    sketch: &mut Sketch,
    kept: &mut Option<Fault>,
) -> Result<(), NoMemory>
    ensures next { OnOk result (sketch.new ≡ spec.named_early name.now enumeration position sketch.old) }
    ensures noted { OnOk result (kept.new ≡ first_of kept.old (new_name_rule sketch.old.all name.now)) }
{
    if !note_new_name(&sketch.all, name, kept) {
        add_name(
            &mut sketch.early,
            &name.text,
            early_known(enumeration, position),
        )?;
    }
    add_name(
        &mut sketch.all,
        &name.text,
        early_known(enumeration, position),
    )
}

fn name_value(
    alloc: Global,
    enumeration: u32,
    position: u32,
    value: &Name,
    sketch: &mut Sketch,
    kept: &mut Option<Fault>,
) -> Result<Option<Items<Bytes>>, NoMemory>
    ensures next { OnOk result (sketch.new ≡ (spec.value_named enumeration position value.now sketch.old).next) }
    ensures made { IfOk result (λ m. m ≡ (spec.value_named enumeration position value.now sketch.old).made) }
    ensures noted { OnOk result (kept.new ≡ first_of kept.old (spec.value_named enumeration position value.now sketch.old).faults) }
{
    name_early(value, enumeration, Some(position), sketch, kept)?;
    one(alloc, Some(Bytes::copy_of(alloc, value.text.as_slice())?))
}

#[tactic(auto, using(chi_check_types::proofs::Firsts::first_of_none, chi_check_types::proofs::Firsts::first_of_append, chi_check_stat_lines::proofs::Turns::joined_more, chi_check_stat_lines::proofs::Turns::joined_end))]
fn name_values(
    alloc: Global,
    enumeration: u32,
    values: &[Name],
    sketch: &mut Sketch,
    kept: &mut Option<Fault>,
) -> Result<Option<Items<Bytes>>, NoMemory>
    ensures next { OnOk result (sketch.new ≡ (in_turn (spec.values_from enumeration 0 values.now) sketch.old).next) }
    ensures made { IfOk result (λ m. m ≡ (in_turn (spec.values_from enumeration 0 values.now) sketch.old).made) }
    ensures noted { OnOk result (kept.new ≡ first_of kept.old (in_turn (spec.values_from enumeration 0 values.now) sketch.old).faults) }
{
    let mut all = nothing(alloc)?;
    let mut position = 0;
    for value in values {
        let made = name_value(alloc, enumeration, position, value, sketch, kept)?;
        all = joined(alloc, all, made)?;
        position = after(position)?;
    }
    Ok(all)
}

fn name_enumeration(
    alloc: Global,
    name: &Name,
    values: &[Name],
    sketch: &mut Sketch,
    kept: &mut Option<Fault>,
) -> Result<Option<Items<Items<Bytes>>>, NoMemory>
    ensures next { OnOk result (sketch.new ≡ (spec.enumeration_named name.now values.now sketch.old).next) }
    ensures made { IfOk result (λ m. m ≡ (spec.enumeration_named name.now values.now sketch.old).made) }
    ensures noted { OnOk result (kept.new ≡ first_of kept.old (spec.enumeration_named name.now values.now sketch.old).faults) }
{
    let enumeration = sketch.enumerations;
    name_early(name, enumeration, None, sketch, kept)?;
    let names = name_values(alloc, enumeration, values, sketch, kept)?;
    sketch.enumerations = after(sketch.enumerations)?;
    one(alloc, names)
}

/// The name of what is no enumeration.
fn name_late(
    name: &Name,
    known: Known,
    sketch: &mut Sketch,
    kept: &mut Option<Fault>,
) -> Result<(), NoMemory>
    ensures next { OnOk result (sketch.new ≡ spec.named_late name.now known sketch.old) }
    ensures noted { OnOk result (kept.new ≡ first_of kept.old (new_name_rule sketch.old.all name.now)) }
{
    let _taken = note_new_name(&sketch.all, name, kept);
    add_name(&mut sketch.all, &name.text, known)
}

/// The names of a definition, and those of the values of an enumeration.
fn name_definition(
    alloc: Global,
    definition: &Definition,
    sketch: &mut Sketch,
    kept: &mut Option<Fault>,
) -> Result<Option<Items<Items<Bytes>>>, NoMemory>
    ensures next { OnOk result (sketch.new ≡ (spec.sketching definition.now sketch.old).next) }
    ensures made { IfOk result (λ m. m ≡ (spec.sketching definition.now sketch.old).made) }
    ensures noted { OnOk result (kept.new ≡ first_of kept.old (spec.sketching definition.now sketch.old).faults) }
{
    match definition {
        Definition::Enum { name, values, .. } => {
            return name_enumeration(alloc, name, values.as_slice(), sketch, kept);
        }
        Definition::Const { name, .. } => {
            name_late(name, Known::Untyped(NameKind::Constant), sketch, kept)?;
        }
        Definition::TypeWord { name, .. } => {
            name_late(name, Known::Untyped(NameKind::Type), sketch, kept)?;
        }
        Definition::Func { name, .. } => {
            name_late(name, Known::Untyped(NameKind::Function), sketch, kept)?;
        }
        Definition::Proc { name, .. } => {
            name_late(name, Known::Untyped(NameKind::Process), sketch, kept)?;
            sketch.processes = after(sketch.processes)?;
        }
        Definition::Model { name, .. } => {
            name_late(name, Known::Untyped(NameKind::Model), sketch, kept)?;
            sketch.processes = after(sketch.processes)?;
        }
        Definition::Xper { name, .. } => {
            name_late(name, Known::Xper(sketch.experiments), sketch, kept)?;
            sketch.experiments = after(sketch.experiments)?;
        }
    }
    nothing(alloc)
}

/// The names of all definitions.
#[tactic(auto, using(chi_check_types::proofs::Firsts::first_of_none, chi_check_types::proofs::Firsts::first_of_append, chi_check_stat_lines::proofs::Turns::joined_more, chi_check_stat_lines::proofs::Turns::joined_end))]
pub fn name_all(
    alloc: Global,
    items: &[Item],
    sketch: &mut Sketch,
    kept: &mut Option<Fault>,
) -> Result<Option<Items<Items<Bytes>>>, NoMemory>
    ensures next { OnOk result (sketch.new ≡ (in_turn (map spec.sketching (map (λ item. item.definition) items.now)) sketch.old).next) }
    ensures made { IfOk result (λ m. m ≡ (in_turn (map spec.sketching (map (λ item. item.definition) items.now)) sketch.old).made) }
    ensures noted { OnOk result (kept.new ≡ first_of kept.old (in_turn (map spec.sketching (map (λ item. item.definition) items.now)) sketch.old).faults) }
{
    let mut all = nothing(alloc)?;
    for item in items {
        let made = name_definition(alloc, &item.definition, sketch, kept)?;
        all = joined(alloc, all, made)?;
    }
    Ok(all)
}
