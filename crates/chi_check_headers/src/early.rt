//! Types and constants, each of which sees those before it and all enumerations.

#![tactic(auto, using(chi_check_types::proofs::Firsts::first_of_none, chi_check_types::proofs::Firsts::first_of_append))]

ghost use Rattle.std.specs.Prelude.{◌≡◌, ◌+◌, ◌++◌, map, IfOk, OnOk};
ghost use Rattle.std.specs.Option.{option_copied};
ghost use Rattle.chi_check_types.specs.Faults.{first_of};
ghost use Rattle.chi_check_stat_lines.specs.Stated.{in_turn};
ghost use Rattle.chi_check_types.specs.declared.known.NameKind.TheVariants as kinds;
ghost use Rattle.chi_check_types.specs.declared.site.Site.TheVariants as site;
ghost use Rattle.chi_check_expr.specs.Typing.{typing};
ghost use Rattle.chi_check_stat_rules.specs.Values as values;
ghost use Rattle.chi_check_headers.specs.Definitions as spec;

use crate::headers::type_in;
use crate::naming::after;
use crate::sketch::Early;
use chi_base::{Items, NoMemory};
use chi_check_expr::type_in as type_value;
use chi_check_stat_lines::{add_name, copied, joined, nothing, one};
use chi_check_stat_rules::constant_value;
use chi_check_types::{Fault, Known, NameKind, Scope, Site};
use chi_core::{CExpr, ConstDef};
use chi_token::Place;
use chi_tree::{Definition, Expr, Item, Name, TypeTree};
use chi_types::Ty;
use std::alloc::Global;

fn is_kind(a: NameKind, b: NameKind) -> bool
    ensures { result ≡ spec.is_kind a b }
{
    match (a, b) {
        (NameKind::Constant, NameKind::Constant)
        | (NameKind::Type, NameKind::Type)
        | (NameKind::Function, NameKind::Function)
        | (NameKind::Process, NameKind::Process)
        | (NameKind::Model, NameKind::Model) => true,
        (_, _) => false,
    }
}

/// Whether a name means a definition of the kind.
fn means(kind: NameKind, known: Option<&Known>) -> bool
    ensures { result ≡ spec.means kind (option_copied known.entry) }
{
    match known {
        Some(Known::Untyped(other)) => is_kind(kind, *other),
        _ => false,
    }
}

/// Adds the name of a definition of the kind, where the name means that.
pub(crate) fn add_definition(
    all: &Scope,
    kind: NameKind,
    scope: &mut Scope,
    name: &Name,
    known: Known,
) -> Result<(), NoMemory>
    ensures { OnOk result (scope.new ≡ spec.with_definition all.now kind scope.old name.now known) }
{
    if means(kind, all.known(&name.text)) {
        add_name(scope, &name.text, known)
    } else {
        drop(known);
        Ok(())
    }
}

fn constant_known(number: u32, ty: Option<Ty>) -> Known
    ensures { result ≡ spec.constant_known number ty }
{
    match ty {
        None => Known::Untyped(NameKind::Constant),
        Some(ty) => Known::Const(number, ty),
    }
}

fn type_known(ty: Option<Ty>) -> Known
    ensures { result ≡ spec.type_known ty }
{
    match ty {
        None => Known::Untyped(NameKind::Type),
        Some(ty) => Known::Kind(ty),
    }
}

fn constant(
    alloc: Global,
    line: u32,
    ty: Option<Ty>,
    value: Option<CExpr>,
) -> Result<Option<Items<ConstDef>>, NoMemory>
    ensures { IfOk result (λ c. c ≡ spec.constant_made line ty value) }
{
    let Some(ty) = ty else {
        drop(value);
        return Ok(None);
    };
    let Some(value) = value else {
        drop(ty);
        return Ok(None);
    };
    one(alloc, Some(ConstDef { line, ty, value }))
}

/// Adds a constant of the type, if it has one.
fn add_constant(
    alloc: Global,
    all: &Scope,
    name: &Name,
    ty: Option<&Ty>,
    early: &mut Early,
) -> Result<(), NoMemory>
    ensures next { let known = spec.constant_known early.old.constants (option_copied ty.entry) in
        OnOk result (early.new ≡ record {
          names = spec.with_definition all.now kinds.Constant early.old.names name.now known;
          constants = early.old.constants + 1;
        }) }
{
    let known = constant_known(early.constants, copied(alloc, ty)?);
    add_definition(all, NameKind::Constant, &mut early.names, name, known)?;
    early.constants = after(early.constants)?;
    Ok(())
}

/// What a constant's value comes to at its type. The constant is visible after it.
fn define_value(
    alloc: Global,
    all: &Scope,
    name: &Name,
    equals: Place,
    value: &Expr,
    ty: Option<&Ty>,
    early: &mut Early,
    kept: &mut Option<Fault>,
) -> Result<Option<CExpr>, NoMemory>
    ensures next { let known = spec.constant_known early.old.constants (option_copied ty.entry) in
        OnOk result (early.new ≡ record {
          names = spec.with_definition all.now kinds.Constant early.old.names name.now known;
          constants = early.old.constants + 1;
        }) }
    ensures made { let v = typing site.Constant early.old.names value.now in
        IfOk result (λ e. e ≡ (values.constant_value equals v.made (option_copied ty.entry)).made) }
    ensures noted { let v = typing site.Constant early.old.names value.now in
        OnOk result (kept.new ≡ first_of kept.old (v.faults ++ (values.constant_value equals v.made (option_copied ty.entry)).faults)) }
{
    let made = type_value(alloc, value, &early.names, Site::Constant, kept)?;
    let value = constant_value(alloc, equals, made, ty, kept)?;
    match add_constant(alloc, all, name, ty, early) {
        Ok(()) => Ok(value),
        Err(refusal) => {
            drop(value);
            Err(refusal)
        }
    }
}

fn define_constant(
    alloc: Global,
    all: &Scope,
    place: Place,
    tree: &TypeTree,
    name: &Name,
    equals: Place,
    value: &Expr,
    early: &mut Early,
    kept: &mut Option<Fault>,
) -> Result<Option<Items<ConstDef>>, NoMemory>
    ensures next { OnOk result (early.new ≡ (spec.constant_defined all.now place tree.now name.now equals value.now early.old).next) }
    ensures made { IfOk result (λ c. c ≡ (spec.constant_defined all.now place tree.now name.now equals value.now early.old).made) }
    ensures noted { OnOk result (kept.new ≡ first_of kept.old (spec.constant_defined all.now place tree.now name.now equals value.now early.old).faults) }
{
    let ty = type_in(alloc, Site::Constant, &early.names, tree, kept)?;
    match define_value(alloc, all, name, equals, value, ty.as_ref(), early, kept) {
        Ok(value) => constant(alloc, place.line, ty, value),
        Err(refusal) => {
            drop(ty);
            Err(refusal)
        }
    }
}

fn define_type(
    alloc: Global,
    all: &Scope,
    name: &Name,
    tree: &TypeTree,
    early: &mut Early,
    kept: &mut Option<Fault>,
) -> Result<Option<Items<ConstDef>>, NoMemory>
    ensures next { OnOk result (early.new ≡ (spec.type_defined all.now name.now tree.now early.old).next) }
    ensures made { IfOk result (λ c. c ≡ (spec.type_defined all.now name.now tree.now early.old).made) }
    ensures noted { OnOk result (kept.new ≡ first_of kept.old (spec.type_defined all.now name.now tree.now early.old).faults) }
{
    let ty = type_in(alloc, Site::Constant, &early.names, tree, kept)?;
    let typed = ty.is_some();
    add_definition(all, NameKind::Type, &mut early.names, name, type_known(ty))?;
    if typed { nothing(alloc) } else { Ok(None) }
}

fn define_early(
    alloc: Global,
    all: &Scope,
    definition: &Definition,
    early: &mut Early,
    kept: &mut Option<Fault>,
) -> Result<Option<Items<ConstDef>>, NoMemory>
    ensures next { OnOk result (early.new ≡ (spec.early_defined all.now definition.now early.old).next) }
    ensures made { IfOk result (λ c. c ≡ (spec.early_defined all.now definition.now early.old).made) }
    ensures noted { OnOk result (kept.new ≡ first_of kept.old (spec.early_defined all.now definition.now early.old).faults) }
{
    match definition {
        Definition::Const {
            place,
            ty,
            name,
            equals,
            value,
        } => define_constant(alloc, all, *place, ty, name, *equals, value, early, kept),
        Definition::TypeWord { name, ty, .. } => define_type(alloc, all, name, ty, early, kept),
        Definition::Enum { .. }
        | Definition::Func { .. }
        | Definition::Proc { .. }
        | Definition::Model { .. }
        | Definition::Xper { .. } => nothing(alloc),
    }
}

/// All types and constants.
#[tactic(auto, using(chi_check_types::proofs::Firsts::first_of_none, chi_check_types::proofs::Firsts::first_of_append, chi_check_stat_lines::proofs::Turns::joined_more, chi_check_stat_lines::proofs::Turns::joined_end))]
pub fn define_all_early(
    alloc: Global,
    all: &Scope,
    items: &[Item],
    early: &mut Early,
    kept: &mut Option<Fault>,
) -> Result<Option<Items<ConstDef>>, NoMemory>
    ensures next { OnOk result (early.new ≡ (in_turn (map (spec.early_defined all.now) (map (λ item. item.definition) items.now)) early.old).next) }
    ensures made { IfOk result (λ c. c ≡ (in_turn (map (spec.early_defined all.now) (map (λ item. item.definition) items.now)) early.old).made) }
    ensures noted { OnOk result (kept.new ≡ first_of kept.old (in_turn (map (spec.early_defined all.now) (map (λ item. item.definition) items.now)) early.old).faults) }
{
    let mut made_so_far = nothing(alloc)?;
    for item in items {
        let made = define_early(alloc, all, &item.definition, early, kept)?;
        made_so_far = joined(alloc, made_so_far, made)?;
    }
    Ok(made_so_far)
}
