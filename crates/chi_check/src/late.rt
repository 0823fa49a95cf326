//! The headers and the bodies of a program, where the names of its types and constants are known.

#![tactic(auto, using(chi_check_types::proofs::Firsts::first_of_none, chi_check_types::proofs::Firsts::first_of_append))]

ghost use Rattle.std.specs.Prelude.{◌≡◌, length, map, take, IfOk, OnOk};
ghost use Rattle.chi_check_types.specs.Faults.{first_of};
ghost use Rattle.chi_check_stat_lines.specs.Stated.{in_turn};
ghost use Rattle.chi_check_headers.specs.Headers.{header_in, header_faults};
ghost use Rattle.chi_check_headers.specs.Definitions.{with_all_late, with_all_headed};
ghost use Rattle.chi_check.specs.Bodies.{functions_of, processes_of, experiments_of};
ghost use Rattle.chi_check.specs.Programs as spec;

use crate::bodies::{define_functions, define_processes};
use crate::experiments::define_experiments;
use chi_base::{Items, NoMemory};
use chi_check_headers::{Header, Named, add_all_headed, add_all_late, headers_in};
use chi_check_types::{Fault, Scope};
use chi_core::{FuncDef, ProcDef, XperDef};
use chi_tree::Item;
use std::alloc::Global;

/// What the bodies of functions, of processes and models, and of experiments come to.
#[derive(Drop)]
pub(crate) struct Bodies {
    pub funcs: Option<Items<FuncDef>>,
    pub procs: Option<Items<ProcDef>>,
    pub xpers: Option<Items<XperDef>>,
}

/// All experiments, beside the other bodies.
fn with_experiments(
    alloc: Global,
    items: &[Item],
    names: Scope,
    funcs: Option<Items<FuncDef>>,
    procs: Option<Items<ProcDef>>,
    kept: &mut Option<Fault>,
) -> Result<Bodies, NoMemory>
    ensures funcs { IfOk result (λ r. r.funcs ≡ funcs) }
    ensures procs { IfOk result (λ r. r.procs ≡ procs) }
    ensures xpers { let xpers = in_turn (experiments_of (map (λ item. item.definition) items.now)) names in
        IfOk result (λ r. r.xpers ≡ xpers.made) }
    ensures noted { let xpers = in_turn (experiments_of (map (λ item. item.definition) items.now)) names in
        OnOk result (kept.new ≡ first_of kept.old xpers.faults) }
{
    match define_experiments(alloc, items, names, kept) {
        Ok((scope, xpers)) => {
            drop(scope);
            Ok(Bodies {
                funcs,
                procs,
                xpers,
            })
        }
        Err(refusal) => {
            drop(funcs);
            drop(procs);
            Err(refusal)
        }
    }
}

/// All functions, processes, models and experiments.
fn define_bodies(
    alloc: Global,
    items: &[Item],
    headers: &[Option<Header>],
    names: Scope,
    kept: &mut Option<Fault>,
) -> Result<Bodies, NoMemory>
    ensures funcs { let ds = map (λ item. item.definition) items.now in
        let funcs = in_turn (functions_of ds headers.now) names in
        IfOk result (λ r. r.funcs ≡ funcs.made) }
    ensures procs { let ds = map (λ item. item.definition) items.now in
        let funcs = in_turn (functions_of ds headers.now) names in
        let procs = in_turn (processes_of ds headers.now) funcs.next in
        IfOk result (λ r. r.procs ≡ procs.made) }
    ensures xpers { let ds = map (λ item. item.definition) items.now in
        let funcs = in_turn (functions_of ds headers.now) names in
        let procs = in_turn (processes_of ds headers.now) funcs.next in
        let xpers = in_turn (experiments_of ds) procs.next in
        IfOk result (λ r. r.xpers ≡ xpers.made) }
    ensures noted { let ds = map (λ item. item.definition) items.now in
        let funcs = in_turn (functions_of ds headers.now) names in
        let procs = in_turn (processes_of ds headers.now) funcs.next in
        let xpers = in_turn (experiments_of ds) procs.next in
        OnOk result (kept.new ≡ first_of (first_of (first_of kept.old funcs.faults) procs.faults) xpers.faults) }
{
    let (scope, funcs) = define_functions(alloc, items, headers, names, kept)?;
    match define_processes(alloc, items, headers, scope, kept) {
        Ok((scope, procs)) => with_experiments(alloc, items, scope, funcs, procs, kept),
        Err(refusal) => {
            drop(funcs);
            Err(refusal)
        }
    }
}

/// The headers of all definitions, where the names of types and constants are visible, and nothing more after it.
fn late_headers(
    alloc: Global,
    all: &Scope,
    items: &[Item],
    names: &mut Scope,
    kept: &mut Option<Fault>,
) -> Result<Vec<Option<Header>>, NoMemory>
    ensures given { let ds = map (λ item. item.definition) items.now in
        let late = with_all_late all.now names.old ds in
        IfOk result (λ hs. hs.items ≡ map (λ h. h.given) (map (header_in late) ds)) }
    ensures names { let ds = map (λ item. item.definition) items.now in
        OnOk result (names.new ≡ take (length names.old) (with_all_late all.now names.old ds)) }
    ensures noted { let ds = map (λ item. item.definition) items.now in
        let late = with_all_late all.now names.old ds in
        OnOk result (kept.new ≡ first_of kept.old (header_faults (map (header_in late) ds))) }
{
    let count = names.count();
    add_all_late(all, names, items)?;
    let headers = headers_in(alloc, names, items, kept)?;
    names.cut(count);
    Ok(headers)
}

/// All bodies, with their headers.
fn define_headed(
    alloc: Global,
    all: &Scope,
    items: &[Item],
    headers: &[Option<Header>],
    names: Scope,
    kept: &mut Option<Fault>,
) -> Result<Bodies, NoMemory>
    ensures funcs { let ds = map (λ item. item.definition) items.now in
        let named = with_all_headed all.now ds headers.now (spec.first_named names) in
        let funcs = in_turn (functions_of ds headers.now) named.names in
        IfOk result (λ r. r.funcs ≡ funcs.made) }
    ensures procs { let ds = map (λ item. item.definition) items.now in
        let named = with_all_headed all.now ds headers.now (spec.first_named names) in
        let funcs = in_turn (functions_of ds headers.now) named.names in
        let procs = in_turn (processes_of ds headers.now) funcs.next in
        IfOk result (λ r. r.procs ≡ procs.made) }
    ensures xpers { let ds = map (λ item. item.definition) items.now in
        let named = with_all_headed all.now ds headers.now (spec.first_named names) in
        let funcs = in_turn (functions_of ds headers.now) named.names in
        let procs = in_turn (processes_of ds headers.now) funcs.next in
        let xpers = in_turn (experiments_of ds) procs.next in
        IfOk result (λ r. r.xpers ≡ xpers.made) }
    ensures noted { let ds = map (λ item. item.definition) items.now in
        let named = with_all_headed all.now ds headers.now (spec.first_named names) in
        let funcs = in_turn (functions_of ds headers.now) named.names in
        let procs = in_turn (processes_of ds headers.now) funcs.next in
        let xpers = in_turn (experiments_of ds) procs.next in
        OnOk result (kept.new ≡ first_of (first_of (first_of kept.old funcs.faults) procs.faults) xpers.faults) }
{
    let mut named = Named {
        names,
        functions: 0,
        processes: 0,
    };
    match add_all_headed(alloc, all, items, headers, &mut named) {
        Ok(()) => define_bodies(alloc, items, headers, named.names, kept),
        Err(refusal) => {
            drop(named);
            Err(refusal)
        }
    }
}

/// All bodies, where the names of types and constants are visible.
pub(crate) fn define_late(
    alloc: Global,
    all: &Scope,
    items: &[Item],
    early: Scope,
    kept: &mut Option<Fault>,
) -> Result<Bodies, NoMemory>
    ensures funcs { let ds = map (λ item. item.definition) items.now in
        let late = with_all_late all.now early ds in
        let given = map (λ h. h.given) (map (header_in late) ds) in
        let named = with_all_headed all.now ds given (spec.first_named (take (length early) late)) in
        let funcs = in_turn (functions_of ds given) named.names in
        IfOk result (λ r. r.funcs ≡ funcs.made) }
    ensures procs { let ds = map (λ item. item.definition) items.now in
        let late = with_all_late all.now early ds in
        let given = map (λ h. h.given) (map (header_in late) ds) in
        let named = with_all_headed all.now ds given (spec.first_named (take (length early) late)) in
        let funcs = in_turn (functions_of ds given) named.names in
        let procs = in_turn (processes_of ds given) funcs.next in
        IfOk result (λ r. r.procs ≡ procs.made) }
    ensures xpers { let ds = map (λ item. item.definition) items.now in
        let late = with_all_late all.now early ds in
        let given = map (λ h. h.given) (map (header_in late) ds) in
        let named = with_all_headed all.now ds given (spec.first_named (take (length early) late)) in
        let funcs = in_turn (functions_of ds given) named.names in
        let procs = in_turn (processes_of ds given) funcs.next in
        let xpers = in_turn (experiments_of ds) procs.next in
        IfOk result (λ r. r.xpers ≡ xpers.made) }
    ensures noted { let ds = map (λ item. item.definition) items.now in
        let late = with_all_late all.now early ds in
        let given = map (λ h. h.given) (map (header_in late) ds) in
        let named = with_all_headed all.now ds given (spec.first_named (take (length early) late)) in
        let funcs = in_turn (functions_of ds given) named.names in
        let procs = in_turn (processes_of ds given) funcs.next in
        let xpers = in_turn (experiments_of ds) procs.next in
        OnOk result (kept.new ≡ first_of (first_of (first_of (first_of kept.old (header_faults (map (header_in late) ds))) funcs.faults) procs.faults) xpers.faults) }
{
    let mut names = early;
    match late_headers(alloc, all, items, &mut names, kept) {
        Ok(headers) => {
            let defined = define_headed(alloc, all, items, headers.as_slice(), names, kept);
            drop(headers);
            defined
        }
        Err(refusal) => {
            drop(names);
            Err(refusal)
        }
    }
}
