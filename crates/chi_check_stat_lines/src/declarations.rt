//! Declarations, and the names that walks bind.

#![tactic(auto, using(chi_check_types::proofs::Firsts::first_of_none, chi_check_types::proofs::Firsts::first_of_append))]

ghost use Rattle.std.specs.Prelude.{◌≡◌, map, option_map, not, length, if◌then◌else◌, None, IfOk, OnOk};
ghost use Rattle.std.specs.Option.{option_copied};
ghost use Rattle.chi_check_types.specs.Faults.{first_of, are_none};
ghost use Rattle.chi_check_stat_rules.specs.Homes.{local_rule};
ghost use Rattle.chi_check_stat_lines.specs.Stated.{held_by, in_turn};
ghost use Rattle.chi_check_stat_lines.specs.declared.state.Binder.TheVariants as binder;
ghost use Rattle.chi_check_stat_lines.specs.States.{is_taken, with_variable};
ghost use Rattle.chi_check_stat_lines.specs.States as states;
ghost use Rattle.chi_check_stat_lines.specs.Declarations as spec;

use crate::copies::expr_copies;
use crate::lists::{joined, nothing, one};
use crate::names::{add_variable, bind_all, next_slot, note_new_name};
use crate::state::{Binder, Opened, State};
use crate::values::value_in;
use chi_base::{Items, NoMemory};
use chi_check_expr::mean_in;
use chi_check_expr_rules::unless;
use chi_check_stat_rules::{Home, Walked, expr_place, site_of, type_place};
use chi_check_types::{Fault, Meant, Scope, default_of};
use chi_core::{CExpr, CStat};
use chi_token::Place;
use chi_tree::{Initial, Name, TypeTree, Variable, Walk};
use chi_types::Ty;
use std::alloc::Global;

/// The type that was meant, if there is one.
pub fn type_of(meant: &Option<Meant>) -> Option<&Ty>
    ensures { option_copied result ≡ option_map (λ m. m.ty) meant.now }
{
    match meant {
        None => None,
        Some(meant) => Some(&meant.ty),
    }
}

/// The default of a variable, with its own copy of the sizes of its lists.
fn default_in(alloc: Global, meant: &Option<Meant>) -> Result<Option<CExpr>, NoMemory>
    ensures { IfOk result (λ e. e ≡ (spec.default_in meant.now).made) }
{
    let Some(meant) = meant else {
        return Ok(None);
    };
    let sizes = expr_copies(alloc, meant.sizes.as_slice())?;
    default_of(alloc, &meant.ty, sizes)
}

fn initial_in(
    alloc: Global,
    home: &Home,
    scope: &Scope,
    meant: &Option<Meant>,
    initial: &Option<Initial>,
    kept: &mut Option<Fault>,
) -> Result<Option<CExpr>, NoMemory>
    ensures made { IfOk result (λ e. e ≡ (spec.initial_in home.now scope.now meant.now initial.now).made) }
    ensures noted { OnOk result (kept.new ≡ first_of kept.old (spec.initial_in home.now scope.now meant.now initial.now).faults) }
{
    let Some(initial) = initial else {
        return default_in(alloc, meant);
    };
    let made = value_in(alloc, home, scope, &initial.value, kept)?;
    chi_check_stat_rules::initial_value(alloc, initial.equals, made, type_of(meant), kept)
}

fn declaration(
    alloc: Global,
    taken: bool,
    line: u32,
    slot: u32,
    value: Option<CExpr>,
) -> Result<Option<Items<CStat>>, NoMemory>
    ensures { IfOk result (λ s. s ≡ (if taken then None else spec.declaration line slot value)) }
{
    let Some(value) = value else {
        return Ok(None);
    };
    if taken {
        drop(value);
        return Ok(None);
    }
    one(alloc, Some(CStat::Declare(line, slot, value)))
}

/// Adds a variable, and tells its slot.
pub fn add_declared(
    alloc: Global,
    name: &Name,
    ty: Option<&Ty>,
    state: &mut State,
) -> Result<u32, NoMemory>
    ensures next { OnOk result (state.new ≡ with_variable binder.Variable name.now (option_copied ty.entry) state.old) }
    ensures slot { IfOk result (λ slot. slot ≡ states.next_slot state.old) }
{
    let slot = next_slot(state)?;
    add_variable(alloc, Binder::Variable, name, ty, state)?;
    Ok(slot)
}

/// One variable of a declaration, of the type that was meant.
#[tactic(auto, using(chi_check_types::proofs::Firsts::first_of_append, crate::proofs::Held::held_if))]
pub fn declare_one(
    alloc: Global,
    home: &Home,
    line: u32,
    meant: &Option<Meant>,
    variable: &Variable,
    state: &mut State,
    kept: &mut Option<Fault>,
) -> Result<Option<Items<CStat>>, NoMemory>
    ensures next { OnOk result (state.new ≡ (spec.declared home.now line meant.now variable.now state.old).next) }
    ensures made { IfOk result (λ s. s ≡ (spec.declared home.now line meant.now variable.now state.old).made) }
    ensures noted { OnOk result (kept.new ≡ first_of kept.old (spec.declared home.now line meant.now variable.now state.old).faults) }
{
    let taken = note_new_name(&state.names, &variable.name, kept);
    let value = initial_in(alloc, home, &state.names, meant, &variable.initial, kept)?;
    match add_declared(alloc, &variable.name, type_of(meant), state) {
        Ok(slot) => declaration(alloc, taken, line, slot, value),
        Err(refusal) => {
            drop(value);
            Err(refusal)
        }
    }
}

fn declare_all(
    alloc: Global,
    home: &Home,
    line: u32,
    meant: &Option<Meant>,
    variables: &[Variable],
    state: &mut State,
    kept: &mut Option<Fault>,
) -> Result<Option<Items<CStat>>, NoMemory>
    ensures next { OnOk result (state.new ≡ (in_turn (map (spec.declared home.now line meant.now) variables.now) state.old).next) }
    ensures made { IfOk result (λ s. s ≡ (in_turn (map (spec.declared home.now line meant.now) variables.now) state.old).made) }
    ensures noted { OnOk result (kept.new ≡ first_of kept.old (in_turn (map (spec.declared home.now line meant.now) variables.now) state.old).faults) }
{
    let mut all = nothing(alloc)?;
    for variable in variables {
        let made = declare_one(alloc, home, line, meant, variable, state, kept)?;
        all = joined(alloc, all, made)?;
    }
    Ok(all)
}

/// A declaration of variables of the type that was meant.
#[tactic(auto, using(chi_check_types::proofs::Firsts::first_of_append, crate::proofs::Held::held_made))]
fn declare_meant(
    alloc: Global,
    home: &Home,
    place: Place,
    meant: &Option<Meant>,
    variables: &[Variable],
    state: &mut State,
    kept: &mut Option<Fault>,
) -> Result<Option<Items<CStat>>, NoMemory>
    ensures next { let declared = in_turn (map (spec.declared home.now place.line meant.now) variables.now) state.old in
        OnOk result (state.new ≡ declared.next) }
    ensures made { let declared = in_turn (map (spec.declared home.now place.line meant.now) variables.now) state.old in
        let rule = local_rule home.now place (option_map (λ m. m.ty) meant.now) in
        IfOk result (λ s. s ≡ (held_by rule declared).made) }
    ensures noted { let declared = in_turn (map (spec.declared home.now place.line meant.now) variables.now) state.old in
        let rule = local_rule home.now place (option_map (λ m. m.ty) meant.now) in
        OnOk result (kept.new ≡ first_of kept.old (held_by rule declared).faults) }
{
    let barred = chi_check_stat_rules::note_local(home, place, type_of(meant), kept);
    let made = declare_all(alloc, home, place.line, meant, variables, state, kept)?;
    Ok(unless(barred, made))
}

/// A declaration of variables of one type.
pub fn declare(
    alloc: Global,
    home: &Home,
    ty: &TypeTree,
    variables: &[Variable],
    state: &mut State,
    kept: &mut Option<Fault>,
) -> Result<Option<Items<CStat>>, NoMemory>
    ensures next { OnOk result (state.new ≡ (spec.declaration_in home.now ty.now variables.now state.old).next) }
    ensures made { IfOk result (λ s. s ≡ (spec.declaration_in home.now ty.now variables.now state.old).made) }
    ensures noted { OnOk result (kept.new ≡ first_of kept.old (spec.declaration_in home.now ty.now variables.now state.old).faults) }
{
    let place = type_place(ty);
    let meant = mean_in(alloc, ty, &state.names, site_of(home), true, kept)?;
    let made = declare_meant(alloc, home, place, &meant, variables, state, kept);
    drop(meant);
    made
}

fn walk_place(names: &[Name], container: Place) -> Place
    ensures { result ≡ spec.walk_place names.now container }
{
    match names.first() {
        None => container,
        Some(name) => name.place,
    }
}

fn types_of(walked: &Option<Walked>) -> &[Ty]
    ensures { result.now ≡ spec.types_of walked.now }
{
    match walked {
        None => &[],
        Some(walked) => walked.types.as_slice(),
    }
}

fn container_of(walked: Walked) -> CExpr
    ensures { result ≡ walked.container }
{
    let Walked {
        container,
        types: _types,
    } = walked;
    container
}

fn opened(walked: Option<Walked>, slots: Option<Items<u32>>) -> Option<Opened>
    ensures { result ≡ spec.opening walked slots }
{
    let Some(walked) = walked else {
        drop(slots);
        return None;
    };
    let Some(slots) = slots else {
        drop(walked);
        return None;
    };
    let container = container_of(walked);
    Some(Opened { container, slots })
}

/// Binds the names of a walk.
pub fn open_walk(
    alloc: Global,
    home: &Home,
    binder: Binder,
    walk: &Walk,
    state: &mut State,
    kept: &mut Option<Fault>,
) -> Result<Option<Opened>, NoMemory>
    ensures next { OnOk result (state.new ≡ (spec.walk_in home.now binder walk.now state.old).next) }
    ensures made { IfOk result (λ w. w ≡ (spec.walk_in home.now binder walk.now state.old).made) }
    ensures noted { OnOk result (kept.new ≡ first_of kept.old (spec.walk_in home.now binder walk.now state.old).faults) }
{
    let names = walk.names.as_slice();
    let place = expr_place(&walk.container);
    let first = walk_place(names, place);
    let made = value_in(alloc, home, &state.names, &walk.container, kept)?;
    let walked = chi_check_stat_targets::walk_of(alloc, place, first, names.len(), made, kept)?;
    match bind_all(alloc, binder, names, types_of(&walked), state, kept) {
        Ok(slots) => Ok(opened(walked, slots)),
        Err(refusal) => {
            drop(walked);
            Err(refusal)
        }
    }
}
