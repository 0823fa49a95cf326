//! Headers of functions, processes and models: what they mean, and what is known of their names.

#![tactic(auto, using(chi_check_types::proofs::Firsts::first_of_none, chi_check_types::proofs::Firsts::first_of_append))]

ghost use Rattle.std.specs.Prelude.{◌≡◌, IfOk, OnOk, map};
ghost use Rattle.std.specs.Option.{option_copied};
ghost use Rattle.chi_check_types.specs.Faults.{first_of};
ghost use Rattle.chi_check_headers.specs.Headers as spec;

use crate::header::Header;
use chi_base::{Boxed, Items, NoMemory};
use chi_check_expr::mean_in;
use chi_check_expr_rules::type_of;
use chi_check_stat_lines::copied;
use chi_check_stat_rules::{ExitType, Home};
use chi_check_types::{Fault, Known, NameKind, Scope, Site};
use chi_tree::{Definition, Formal, TypeTree};
use chi_types::Ty;
use std::alloc::Global;

pub(crate) fn type_in(
    alloc: Global,
    site: Site,
    scope: &Scope,
    tree: &TypeTree,
    kept: &mut Option<Fault>,
) -> Result<Option<Ty>, NoMemory>
    ensures given { IfOk result (λ t. t ≡ (spec.type_in site scope.now tree.now).given) }
    ensures noted { OnOk result (kept.new ≡ first_of kept.old (spec.type_in site scope.now tree.now).faults) }
{
    let meant = mean_in(alloc, tree, scope, site, false, kept)?;
    Ok(type_of(meant))
}

/// The type of a formal: that before it, or that of the formal before it.
fn formal_type(
    alloc: Global,
    site: Site,
    scope: &Scope,
    last: Option<&Ty>,
    tree: &Option<Boxed<TypeTree>>,
    kept: &mut Option<Fault>,
) -> Result<Option<Ty>, NoMemory>
    ensures given { IfOk result (λ t. t ≡ (spec.formal_type site scope.now (option_copied last.entry) tree.now).given) }
    ensures noted { OnOk result (kept.new ≡ first_of kept.old (spec.formal_type site scope.now (option_copied last.entry) tree.now).faults) }
{
    match tree {
        None => copied(alloc, last),
        Some(tree) => type_in(alloc, site, scope, tree.get(), kept),
    }
}

fn formal_types(
    alloc: Global,
    site: Site,
    scope: &Scope,
    formals: &[Formal],
    kept: &mut Option<Fault>,
) -> Result<Items<Option<Ty>>, NoMemory>
    ensures given { IfOk result (λ ts. ts ≡ (spec.formal_types site scope.now None formals.now).given) }
    ensures noted { OnOk result (kept.new ≡ first_of kept.old (spec.formal_types site scope.now None formals.now).faults) }
{
    let mut types = Vec::new(alloc);
    let mut last = None;
    for formal in formals {
        let ty = formal_type(alloc, site, scope, last.as_ref(), &formal.ty, kept)?;
        last = copied(alloc, ty.as_ref())?;
        types.push(ty)?;
    }
    Ok(Items::of(alloc, types)?)
}

fn exit_type_in(
    alloc: Global,
    scope: &Scope,
    tree: &Option<TypeTree>,
    kept: &mut Option<Fault>,
) -> Result<ExitType, NoMemory>
    ensures given { IfOk result (λ e. e ≡ (spec.exit_type_in scope.now tree.now).given) }
    ensures noted { OnOk result (kept.new ≡ first_of kept.old (spec.exit_type_in scope.now tree.now).faults) }
{
    let Some(tree) = tree else {
        return Ok(ExitType::Nothing);
    };
    match type_in(alloc, Site::Process, scope, tree, kept)? {
        None => Ok(ExitType::Untyped),
        Some(ty) => Ok(ExitType::Given(ty)),
    }
}

fn function_header(
    alloc: Global,
    scope: &Scope,
    tree: &TypeTree,
    formals: &[Formal],
    kept: &mut Option<Fault>,
) -> Result<Header, NoMemory>
    ensures given { IfOk result (λ h. h ≡ (spec.function_header scope.now tree.now formals.now).given) }
    ensures noted { OnOk result (kept.new ≡ first_of kept.old (spec.function_header scope.now tree.now formals.now).faults) }
{
    let outcome = type_in(alloc, Site::Function, scope, tree, kept)?;
    match formal_types(alloc, Site::Function, scope, formals, kept) {
        Ok(formals) => {
            let home = Home::Function(outcome);
            Ok(Header { formals, home })
        }
        Err(refusal) => {
            drop(outcome);
            Err(refusal)
        }
    }
}

fn process_header(
    alloc: Global,
    scope: &Scope,
    tree: &Option<TypeTree>,
    formals: &[Formal],
    kept: &mut Option<Fault>,
) -> Result<Header, NoMemory>
    ensures given { IfOk result (λ h. h ≡ (spec.process_header scope.now tree.now formals.now).given) }
    ensures noted { OnOk result (kept.new ≡ first_of kept.old (spec.process_header scope.now tree.now formals.now).faults) }
{
    let exit = exit_type_in(alloc, scope, tree, kept)?;
    match formal_types(alloc, Site::Process, scope, formals, kept) {
        Ok(formals) => {
            let home = Home::Process(exit);
            Ok(Header { formals, home })
        }
        Err(refusal) => {
            drop(exit);
            Err(refusal)
        }
    }
}

/// The header of what has one, where these names are visible.
pub(crate) fn header_in(
    alloc: Global,
    scope: &Scope,
    definition: &Definition,
    kept: &mut Option<Fault>,
) -> Result<Option<Header>, NoMemory>
    ensures given { IfOk result (λ h. h ≡ (spec.header_in scope.now definition.now).given) }
    ensures noted { OnOk result (kept.new ≡ first_of kept.old (spec.header_in scope.now definition.now).faults) }
{
    match definition {
        Definition::Func {
            result_type,
            formals,
            ..
        } => {
            let formals = formals.as_slice();
            Ok(Some(function_header(alloc, scope, result_type, formals, kept)?))
        }
        Definition::Proc {
            exit_type,
            formals,
            ..
        }
        | Definition::Model {
            exit_type,
            formals,
            ..
        } => {
            let formals = formals.as_slice();
            Ok(Some(process_header(alloc, scope, exit_type, formals, kept)?))
        }
        Definition::Enum { .. }
        | Definition::Const { .. }
        | Definition::TypeWord { .. }
        | Definition::Xper { .. } => Ok(None),
    }
}

/// All types, where each formal has one.
pub fn all_types(alloc: Global, types: &[Option<Ty>]) -> Result<Option<Items<Ty>>, NoMemory>
    ensures { IfOk result (λ all. all ≡ spec.all_types types.now) }
{
    let mut all = Vec::new(alloc);
    for ty in types {
        let Some(ty) = ty else {
            drop(all);
            return Ok(None);
        };
        all.push(ty.copy(alloc)?)?;
    }
    Ok(Some(Items::of(alloc, all)?))
}

/// The result of a function, where what has the header is one.
fn result_in(alloc: Global, home: &Home) -> Result<Option<Ty>, NoMemory>
    ensures { IfOk result (λ t. t ≡ spec.result_in home.now) }
{
    match home {
        Home::Function(outcome) => copied(alloc, outcome.as_ref()),
        Home::Process(_) | Home::Experiment => Ok(None),
    }
}

/// The exit type of a process or a model, where what has the header is one.
fn exit_in(alloc: Global, home: &Home) -> Result<ExitType, NoMemory>
    ensures { IfOk result (λ e. e ≡ spec.exit_in home.now) }
{
    match home {
        Home::Process(ExitType::Nothing) => Ok(ExitType::Nothing),
        Home::Process(ExitType::Given(ty)) => Ok(ExitType::Given(ty.copy(alloc)?)),
        Home::Process(ExitType::Untyped) | Home::Function(_) | Home::Experiment => {
            Ok(ExitType::Untyped)
        }
    }
}

fn function_known(number: u32, params: Option<Items<Ty>>, outcome: Option<Ty>) -> Known
    ensures { result ≡ spec.function_known number params outcome }
{
    let Some(params) = params else {
        drop(outcome);
        return Known::Untyped(NameKind::Function);
    };
    let Some(outcome) = outcome else {
        drop(params);
        return Known::Untyped(NameKind::Function);
    };
    Known::Func(number, params, outcome)
}

fn process_known(number: u32, params: Option<Items<Ty>>, exit: ExitType) -> Known
    ensures { result ≡ spec.process_known number params exit }
{
    let Some(params) = params else {
        drop(exit);
        return Known::Untyped(NameKind::Process);
    };
    match exit {
        ExitType::Nothing => Known::Proc(number, params, None),
        ExitType::Given(ty) => Known::Proc(number, params, Some(ty)),
        ExitType::Untyped => {
            drop(params);
            Known::Untyped(NameKind::Process)
        }
    }
}

fn model_known(number: u32, params: Option<Items<Ty>>, exit: ExitType) -> Known
    ensures { result ≡ spec.model_known number params exit }
{
    let Some(params) = params else {
        drop(exit);
        return Known::Untyped(NameKind::Model);
    };
    match exit {
        ExitType::Nothing => Known::Model(number, params, None),
        ExitType::Given(ty) => Known::Model(number, params, Some(ty)),
        ExitType::Untyped => {
            drop(params);
            Known::Untyped(NameKind::Model)
        }
    }
}

/// What is known of the name of a function with this header.
pub(crate) fn function_headed(
    alloc: Global,
    number: u32,
    header: &Header,
) -> Result<Known, NoMemory>
    ensures { IfOk result (λ k. k ≡ spec.function_headed number header.now) }
{
    let params = all_types(alloc, header.formals.as_slice())?;
    match result_in(alloc, &header.home) {
        Ok(outcome) => Ok(function_known(number, params, outcome)),
        Err(refusal) => {
            drop(params);
            Err(refusal)
        }
    }
}

/// What is known of the name of a process with this header.
pub(crate) fn process_headed(alloc: Global, number: u32, header: &Header) -> Result<Known, NoMemory>
    ensures { IfOk result (λ k. k ≡ spec.process_headed number header.now) }
{
    let params = all_types(alloc, header.formals.as_slice())?;
    match exit_in(alloc, &header.home) {
        Ok(exit) => Ok(process_known(number, params, exit)),
        Err(refusal) => {
            drop(params);
            Err(refusal)
        }
    }
}

/// What is known of the name of a model with this header.
pub(crate) fn model_headed(alloc: Global, number: u32, header: &Header) -> Result<Known, NoMemory>
    ensures { IfOk result (λ k. k ≡ spec.model_headed number header.now) }
{
    let params = all_types(alloc, header.formals.as_slice())?;
    match exit_in(alloc, &header.home) {
        Ok(exit) => Ok(model_known(number, params, exit)),
        Err(refusal) => {
            drop(params);
            Err(refusal)
        }
    }
}
