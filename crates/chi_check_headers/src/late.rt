//! The names of functions, processes, models and experiments: first without types, for headers, and then with those of the headers.

#![tactic(auto, using(chi_check_types::proofs::Firsts::first_of_none, chi_check_types::proofs::Firsts::first_of_append))]

ghost use Rattle.std.specs.Prelude.{◌≡◌, map, IfOk, OnOk};
ghost use Rattle.std.specs.Option.{option_copied};
ghost use Rattle.chi_check_types.specs.Faults.{first_of};
ghost use Rattle.chi_check_headers.specs.Headers.{header_in, header_faults};
ghost use Rattle.chi_check_headers.specs.Definitions as spec;

use crate::early::add_definition;
use crate::header::Header;
use crate::headers::{function_headed, header_in, model_headed, process_headed};
use crate::naming::after;
use crate::sketch::Named;
use chi_base::NoMemory;
use chi_check_stat_lines::add_name;
use chi_check_types::{Fault, Known, NameKind, Scope};
use chi_tree::{Definition, Item, Name};
use std::alloc::Global;

/// Adds what a name means that isn't visible early.
fn add_meaning(scope: &mut Scope, name: &Name, known: Option<&Known>) -> Result<(), NoMemory>
    ensures { OnOk result (scope.new ≡ spec.with_meaning scope.old name.now (option_copied known.entry)) }
{
    match known {
        Some(Known::Untyped(kind)) => add_name(scope, &name.text, Known::Untyped(*kind)),
        Some(Known::Xper(number)) => add_name(scope, &name.text, Known::Xper(*number)),
        _ => Ok(()),
    }
}

fn late_name(definition: &Definition) -> Option<&Name>
    ensures { option_copied result ≡ spec.late_name definition.now }
{
    match definition {
        Definition::Func { name, .. }
        | Definition::Proc { name, .. }
        | Definition::Model { name, .. }
        | Definition::Xper { name, .. } => Some(name),
        Definition::Enum { .. } | Definition::Const { .. } | Definition::TypeWord { .. } => None,
    }
}

fn add_late(all: &Scope, scope: &mut Scope, name: Option<&Name>) -> Result<(), NoMemory>
    ensures { OnOk result (scope.new ≡ spec.with_late all.now scope.old (option_copied name.entry)) }
{
    let Some(name) = name else {
        return Ok(());
    };
    add_meaning(scope, name, all.known(&name.text))
}

/// Adds the names that headers see.
pub fn add_all_late(all: &Scope, scope: &mut Scope, items: &[Item]) -> Result<(), NoMemory>
    ensures { OnOk result (scope.new ≡ spec.with_all_late all.now scope.old (map (λ item. item.definition) items.now)) }
{
    for item in items {
        add_late(all, scope, late_name(&item.definition))?;
    }
    Ok(())
}

/// The headers of all definitions.
pub fn headers_in(
    alloc: Global,
    scope: &Scope,
    items: &[Item],
    kept: &mut Option<Fault>,
) -> Result<Vec<Option<Header>>, NoMemory>
    ensures given { IfOk result (λ hs. hs.items ≡ map (λ h. h.given) (map (header_in scope.now) (map (λ item. item.definition) items.now))) }
    ensures noted { OnOk result (kept.new ≡ first_of kept.old (header_faults (map (header_in scope.now) (map (λ item. item.definition) items.now)))) }
{
    let mut headers = Vec::new(alloc);
    for item in items {
        let header = header_in(alloc, scope, &item.definition, kept)?;
        headers.push(header)?;
    }
    Ok(headers)
}

fn add_function(
    alloc: Global,
    all: &Scope,
    name: &Name,
    header: &Header,
    named: &mut Named,
) -> Result<(), NoMemory>
    ensures { OnOk result (named.new ≡ spec.with_function all.now name.now header.now named.old) }
{
    let known = function_headed(alloc, named.functions, header)?;
    add_definition(all, NameKind::Function, &mut named.names, name, known)?;
    named.functions = after(named.functions)?;
    Ok(())
}

fn add_process(
    alloc: Global,
    all: &Scope,
    name: &Name,
    header: &Header,
    named: &mut Named,
) -> Result<(), NoMemory>
    ensures { OnOk result (named.new ≡ spec.with_process all.now name.now header.now named.old) }
{
    let known = process_headed(alloc, named.processes, header)?;
    add_definition(all, NameKind::Process, &mut named.names, name, known)?;
    named.processes = after(named.processes)?;
    Ok(())
}

fn add_model(
    alloc: Global,
    all: &Scope,
    name: &Name,
    header: &Header,
    named: &mut Named,
) -> Result<(), NoMemory>
    ensures { OnOk result (named.new ≡ spec.with_model all.now name.now header.now named.old) }
{
    let known = model_headed(alloc, named.processes, header)?;
    add_definition(all, NameKind::Model, &mut named.names, name, known)?;
    named.processes = after(named.processes)?;
    Ok(())
}

fn add_headed(
    alloc: Global,
    all: &Scope,
    definition: &Definition,
    header: &Option<Header>,
    named: &mut Named,
) -> Result<(), NoMemory>
    ensures { OnOk result (named.new ≡ spec.with_headed all.now definition.now header.now named.old) }
{
    match (definition, header) {
        (Definition::Func { name, .. }, Some(header)) => {
            add_function(alloc, all, name, header, named)
        }
        (Definition::Proc { name, .. }, Some(header)) => {
            add_process(alloc, all, name, header, named)
        }
        (Definition::Model { name, .. }, Some(header)) => {
            add_model(alloc, all, name, header, named)
        }
        (Definition::Xper { name, .. }, _) => add_late(all, &mut named.names, Some(name)),
        (_, _) => Ok(()),
    }
}

/// Adds the names that bodies see.
pub fn add_all_headed(
    alloc: Global,
    all: &Scope,
    items: &[Item],
    headers: &[Option<Header>],
    named: &mut Named,
) -> Result<(), NoMemory>
    ensures { OnOk result (named.new ≡ spec.with_all_headed all.now (map (λ item. item.definition) items.now) headers.now named.old) }
{
    let mut others = headers;
    for item in items {
        let Some((header, rest)) = others.split_first() else {
            return Ok(());
        };
        add_headed(alloc, all, &item.definition, header, named)?;
        others = rest;
    }
    Ok(())
}
