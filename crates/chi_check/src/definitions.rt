//! What functions, processes, models and experiments come to, by what their headers and their bodies come to.

ghost use Rattle.std.specs.Prelude.{◌≡◌, Some, length, option_map, IfOk};
ghost use Rattle.std.specs.Option.{option_and_then};
ghost use Rattle.chi_check.specs.Bodies as spec;

use chi_base::{Items, NoMemory};
use chi_check_headers::{Header, all_types};
use chi_check_stat_lines::{Growing, one};
use chi_check_stat_rules::{ExitType, Home};
use chi_core::{CStat, FuncDef, ProcDef, XStat, XperDef};
use chi_token::Bytes;
use chi_types::Ty;
use std::alloc::Global;

fn result_of(alloc: Global, home: &Home) -> Result<Option<Ty>, NoMemory>
    ensures { IfOk result (λ t. t ≡ spec.result_of home.now) }
{
    match home {
        Home::Function(Some(outcome)) => Ok(Some(outcome.copy(alloc)?)),
        Home::Function(None) | Home::Process(_) | Home::Experiment => Ok(None),
    }
}

fn exit_of(alloc: Global, home: &Home) -> Result<Option<Option<Ty>>, NoMemory>
    ensures { IfOk result (λ e. e ≡ spec.exit_of home.now) }
{
    match home {
        Home::Process(ExitType::Nothing) => Ok(Some(None)),
        Home::Process(ExitType::Given(ty)) => Ok(Some(Some(ty.copy(alloc)?))),
        Home::Process(ExitType::Untyped) | Home::Function(_) | Home::Experiment => Ok(None),
    }
}

fn arity_of(params: &[Ty]) -> Result<u32, NoMemory>
    ensures { IfOk result (λ arity. arity ≡ length params.now) }
{
    // At most 2^32 - 1 formals: no source within 1,048,576 bytes has more.
    match u32::try_from(params.len()) {
        Ok(arity) => Ok(arity),
        Err(_) => Err(NoMemory),
    }
}

/// A copy of a function's name, and how many formals it has.
fn name_and_arity(alloc: Global, name: &Bytes, params: &[Ty]) -> Result<(Bytes, u32), NoMemory>
    ensures name { IfOk result (λ r. r.0 ≡ name.now) }
    ensures arity { IfOk result (λ r. r.1 ≡ length params.now) }
{
    let arity = arity_of(params)?;
    let name = Bytes::copy_of(alloc, name.as_slice())?;
    Ok((name, arity))
}

fn function_with(
    alloc: Global,
    name: &Bytes,
    params: &[Ty],
    outcome: Ty,
    body: Option<(Items<CStat>, Items<Ty>)>,
) -> Result<Option<Items<FuncDef>>, NoMemory>
    ensures { IfOk result (λ f. f ≡ option_map (spec.function name.now params.now outcome) body) }
{
    let Some((body, slots)) = body else {
        drop(outcome);
        return Ok(None);
    };
    match name_and_arity(alloc, name, params) {
        Ok((name, arity)) => {
            let made = FuncDef {
                name,
                arity,
                result: outcome,
                slots,
                body,
            };
            one(alloc, Some(made))
        }
        Err(refusal) => {
            drop(outcome);
            drop(slots);
            drop(body);
            Err(refusal)
        }
    }
}

/// A function whose formals have these types.
fn typed_function(
    alloc: Global,
    name: &Bytes,
    params: &[Ty],
    home: &Home,
    body: Option<(Items<CStat>, Items<Ty>)>,
) -> Result<Option<Items<FuncDef>>, NoMemory>
    ensures { IfOk result (λ f. f ≡ option_and_then (λ r. option_map (spec.function name.now params.now r) body) (spec.result_of home.now)) }
{
    match result_of(alloc, home) {
        Ok(Some(outcome)) => function_with(alloc, name, params, outcome, body),
        Ok(None) => {
            drop(body);
            Ok(None)
        }
        Err(refusal) => {
            drop(body);
            Err(refusal)
        }
    }
}

/// A function of this name, whose body comes to this.
pub(crate) fn function_made(
    alloc: Global,
    name: &Bytes,
    header: &Header,
    body: Option<(Items<CStat>, Items<Ty>)>,
) -> Result<Option<Items<FuncDef>>, NoMemory>
    ensures { IfOk result (λ f. f ≡ spec.function_made name.now header.now body) }
{
    match all_types(alloc, header.formals.as_slice()) {
        Ok(Some(params)) => {
            let made = typed_function(alloc, name, params.as_slice(), &header.home, body);
            drop(params);
            made
        }
        Ok(None) => {
            drop(body);
            Ok(None)
        }
        Err(refusal) => {
            drop(body);
            Err(refusal)
        }
    }
}

fn process_with(
    alloc: Global,
    name: &Bytes,
    params: Items<Ty>,
    exit: Option<Ty>,
    body: Option<(Items<CStat>, Items<Ty>)>,
) -> Result<Option<Items<ProcDef>>, NoMemory>
    ensures { IfOk result (λ p. p ≡ option_map (spec.process name.now params exit) body) }
{
    let Some((body, slots)) = body else {
        drop(params);
        drop(exit);
        return Ok(None);
    };
    match Bytes::copy_of(alloc, name.as_slice()) {
        Ok(name) => {
            let made = ProcDef {
                name,
                params,
                exit,
                slots,
                body,
            };
            one(alloc, Some(made))
        }
        Err(refusal) => {
            drop(params);
            drop(exit);
            drop(slots);
            drop(body);
            Err(refusal)
        }
    }
}

/// A process whose formals have these types.
fn typed_process(
    alloc: Global,
    name: &Bytes,
    params: Items<Ty>,
    home: &Home,
    body: Option<(Items<CStat>, Items<Ty>)>,
) -> Result<Option<Items<ProcDef>>, NoMemory>
    ensures { IfOk result (λ p. p ≡ option_and_then (λ e. option_map (spec.process name.now params e) body) (spec.exit_of home.now)) }
{
    match exit_of(alloc, home) {
        Ok(Some(exit)) => process_with(alloc, name, params, exit, body),
        Ok(None) => {
            drop(params);
            drop(body);
            Ok(None)
        }
        Err(refusal) => {
            drop(params);
            drop(body);
            Err(refusal)
        }
    }
}

/// A process of this name, whose body comes to this.
pub(crate) fn process_made(
    alloc: Global,
    name: &Bytes,
    header: &Header,
    body: Option<(Items<CStat>, Items<Ty>)>,
) -> Result<Option<Items<ProcDef>>, NoMemory>
    ensures { IfOk result (λ p. p ≡ spec.process_made name.now header.now body) }
{
    match all_types(alloc, header.formals.as_slice()) {
        Ok(Some(params)) => typed_process(alloc, name, params, &header.home, body),
        Ok(None) => {
            drop(body);
            Ok(None)
        }
        Err(refusal) => {
            drop(body);
            Err(refusal)
        }
    }
}

fn experiment_with(
    alloc: Global,
    name: &Bytes,
    slots: Items<Ty>,
    body: Items<XStat>,
) -> Result<Option<Items<XperDef>>, NoMemory>
    ensures { IfOk result (λ x. x ≡ Some (spec.experiment name.now slots body)) }
{
    match Bytes::copy_of(alloc, name.as_slice()) {
        Ok(name) => one(alloc, Some(XperDef { name, slots, body })),
        Err(refusal) => {
            drop(slots);
            drop(body);
            Err(refusal)
        }
    }
}

/// An experiment of this name, whose body comes to this.
pub(crate) fn experiment_made(
    alloc: Global,
    name: &Bytes,
    slots: Growing<Ty>,
    body: Option<Items<XStat>>,
) -> Result<Option<Items<XperDef>>, NoMemory>
    ensures { IfOk result (λ x. x ≡ option_map (spec.experiment name.now slots) body) }
{
    let Some(body) = body else {
        drop(slots);
        return Ok(None);
    };
    match slots.into_items(alloc) {
        Ok(slots) => experiment_with(alloc, name, slots, body),
        Err(refusal) => {
            drop(body);
            Err(refusal)
        }
    }
}
