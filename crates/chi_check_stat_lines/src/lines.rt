//! Statements without blocks.

#![tactic(auto, using(chi_check_types::proofs::Firsts::first_of_none, chi_check_types::proofs::Firsts::first_of_append, chi_check_expr_rules::proofs::Barred::made_barred, chi_check_expr_rules::proofs::Barred::faults_barred))]

ghost use Rattle.std.specs.Prelude.{◌≡◌, ◌++◌, None, map, option_map, if◌then◌else◌, IfOk, OnOk};
ghost use Rattle.chi_tree.specs.declared.statement.Communication.TheVariants as communication;
ghost use Rattle.chi_core.specs.declared.statement.CStat.TheVariants as statement;
ghost use Rattle.chi_check_types.specs.Faults.{first_of};
ghost use Rattle.chi_check_stat_lines.specs.Stated as stated;
ghost use Rattle.chi_check_stat_rules.specs.Elements.{start_of};
ghost use Rattle.chi_check_stat_rules.specs.Writes.{write_of};
ghost use Rattle.chi_check_stat_lines.specs.Values.{all_faults, faults_if, made_if, made_of};
ghost use Rattle.chi_check_stat_lines.specs.Values as expressions;
ghost use Rattle.chi_check_stat_lines.specs.Lines as spec;

use crate::lists::one;
use crate::values::{goal_in, instances_in, some_value_in, target_in, value_in, values_in};
use chi_base::{Items, NoMemory};
use chi_check_expr_rules::{list_of_one, unless};
use chi_check_stat_rules::{Home, Receiver, Started, expr_place, note_running, note_writing};
use chi_check_types::{Fault, Made, Scope};
use chi_core::{CAlt, CComm, CElem, CExpr, CStat};
use chi_token::{Bytes, Place};
use chi_tree::{Communication, Expr, Name, Target};
use chi_value::Piece;
use std::alloc::Global;

pub(crate) fn communication_place(c: &Communication) -> Place
    ensures { result ≡ spec.communication_place c.now }
{
    match c {
        Communication::Send { target, .. } | Communication::Receive { target, .. } => {
            target.name.place
        }
        Communication::Delay { place, .. } => *place,
    }
}

/// A name that receives, if one stands there.
fn receiver_in(
    alloc: Global,
    place: Place,
    scope: &Scope,
    name: &Option<Name>,
    kept: &mut Option<Fault>,
) -> Result<Option<Option<Receiver>>, NoMemory>
    ensures made { IfOk result (λ r. r ≡ made_if (option_map (spec.receiver_in place scope.now) name.now)) }
    ensures noted { OnOk result (kept.new ≡ first_of kept.old (faults_if (option_map (spec.receiver_in place scope.now) name.now))) }
{
    match name {
        None => Ok(None),
        Some(name) => Ok(Some(chi_check_stat_targets::named_receiver(
            alloc, place, scope, name, kept,
        )?)),
    }
}

fn send_in(
    alloc: Global,
    home: &Home,
    scope: &Scope,
    target: &Target,
    place: Place,
    value: &Option<Expr>,
    kept: &mut Option<Fault>,
) -> Result<Option<CComm>, NoMemory>
    ensures made { IfOk result (λ m. m ≡ (spec.parts_in home.now scope.now (communication.Send target.now place value.now)).made) }
    ensures noted { OnOk result (kept.new ≡ first_of kept.old (spec.parts_in home.now scope.now (communication.Send target.now place value.now)).faults) }
{
    let to = target_in(alloc, home, scope, target, kept)?;
    match some_value_in(alloc, home, scope, value, kept) {
        Ok(value) => chi_check_stat_targets::send_of(alloc, place, to, value, kept),
        Err(refusal) => {
            drop(to);
            Err(refusal)
        }
    }
}

fn receive_in(
    alloc: Global,
    home: &Home,
    scope: &Scope,
    target: &Target,
    place: Place,
    name: &Option<Name>,
    kept: &mut Option<Fault>,
) -> Result<Option<CComm>, NoMemory>
    ensures made { IfOk result (λ m. m ≡ (spec.parts_in home.now scope.now (communication.Receive target.now place name.now)).made) }
    ensures noted { OnOk result (kept.new ≡ first_of kept.old (spec.parts_in home.now scope.now (communication.Receive target.now place name.now)).faults) }
{
    let from = target_in(alloc, home, scope, target, kept)?;
    match receiver_in(alloc, place, scope, name, kept) {
        Ok(receiver) => chi_check_stat_targets::receive_of(alloc, place, from, receiver, kept),
        Err(refusal) => {
            drop(from);
            Err(refusal)
        }
    }
}

fn delay_in(
    alloc: Global,
    home: &Home,
    scope: &Scope,
    place: Place,
    length: &Expr,
    kept: &mut Option<Fault>,
) -> Result<Option<CComm>, NoMemory>
    ensures made { IfOk result (λ m. m ≡ (spec.parts_in home.now scope.now (communication.Delay place length.now)).made) }
    ensures noted { OnOk result (kept.new ≡ first_of kept.old (spec.parts_in home.now scope.now (communication.Delay place length.now)).faults) }
{
    let made = value_in(alloc, home, scope, length, kept)?;
    chi_check_stat_targets::delay_of(alloc, place, made, kept)
}

fn parts_in(
    alloc: Global,
    home: &Home,
    scope: &Scope,
    c: &Communication,
    kept: &mut Option<Fault>,
) -> Result<Option<CComm>, NoMemory>
    ensures made { IfOk result (λ m. m ≡ (spec.parts_in home.now scope.now c.now).made) }
    ensures noted { OnOk result (kept.new ≡ first_of kept.old (spec.parts_in home.now scope.now c.now).faults) }
{
    match c {
        Communication::Send {
            target,
            place,
            value,
        } => send_in(alloc, home, scope, target, *place, value, kept),
        Communication::Receive {
            target,
            place,
            name,
        } => receive_in(alloc, home, scope, target, *place, name, kept),
        Communication::Delay { place, length } => {
            delay_in(alloc, home, scope, *place, length, kept)
        }
    }
}

/// A send, a receive or a delay.
pub fn communication_in(
    alloc: Global,
    home: &Home,
    scope: &Scope,
    c: &Communication,
    kept: &mut Option<Fault>,
) -> Result<Option<CComm>, NoMemory>
    ensures made { IfOk result (λ m. m ≡ (spec.communication_in home.now scope.now c.now).made) }
    ensures noted { OnOk result (kept.new ≡ first_of kept.old (spec.communication_in home.now scope.now c.now).faults) }
{
    let barred = note_running(home, communication_place(c), kept);
    let made = parts_in(alloc, home, scope, c, kept)?;
    Ok(unless(barred, made))
}

/// A select of one alternative without a guard.
fn selected(alloc: Global, line: u32, c: CComm) -> Result<CStat, NoMemory>
    ensures { IfOk result (λ s. s ≡ spec.selected line c) }
{
    match Items::of(alloc, Vec::new(alloc)) {
        Ok(block) => Ok(CStat::Select(line, list_of_one(alloc, CAlt::Guarded(None, c, block))?)),
        Err(refusal) => {
            drop(c);
            Err(refusal)
        }
    }
}

/// A communication that stands alone.
pub fn communicating(
    alloc: Global,
    home: &Home,
    scope: &Scope,
    c: &Communication,
    kept: &mut Option<Fault>,
) -> Result<Option<Items<CStat>>, NoMemory>
    ensures made { IfOk result (λ s. s ≡ stated.one (spec.communicating home.now scope.now c.now).made) }
    ensures noted { OnOk result (kept.new ≡ first_of kept.old (spec.communicating home.now scope.now c.now).faults) }
{
    let line = communication_place(c).line;
    match communication_in(alloc, home, scope, c, kept)? {
        Some(made) => one(alloc, Some(selected(alloc, line, made)?)),
        None => Ok(None),
    }
}

/// A name with arguments, which is run or started.
fn started_in(
    alloc: Global,
    home: &Home,
    scope: &Scope,
    name: &Name,
    arguments: &[Expr],
    kept: &mut Option<Fault>,
) -> Result<Option<Started>, NoMemory>
    ensures made { let given = expressions.values_in home.now scope.now arguments.now in
        IfOk result (λ s. s ≡ (start_of home.now scope.now name.now (map made_of given)).made) }
    ensures noted { let given = expressions.values_in home.now scope.now arguments.now in
        OnOk result (kept.new ≡ first_of kept.old (all_faults given ++ (start_of home.now scope.now name.now (map made_of given)).faults)) }
{
    let arguments = values_in(alloc, home, scope, arguments, kept)?;
    chi_check_stat_targets::start_of(alloc, home, scope, name, arguments, kept)
}

/// What is run or started: a name with arguments, and where the new instance goes, if it goes anywhere.
pub fn element_in(
    alloc: Global,
    home: &Home,
    scope: &Scope,
    target: &Option<Target>,
    name: &Name,
    arguments: &[Expr],
    kept: &mut Option<Fault>,
) -> Result<Option<Items<CElem>>, NoMemory>
    ensures made { IfOk result (λ es. es ≡ stated.one (spec.element_in home.now scope.now target.now name.now arguments.now).made) }
    ensures noted { OnOk result (kept.new ≡ first_of kept.old (spec.element_in home.now scope.now target.now name.now arguments.now).faults) }
{
    let target = goal_in(alloc, home, scope, target, kept)?;
    match started_in(alloc, home, scope, name, arguments, kept) {
        Ok(started) => one(alloc, chi_check_stat_targets::element_made(target, started)),
        Err(refusal) => {
            drop(target);
            Err(refusal)
        }
    }
}

/// Each value with its place.
fn placed(
    alloc: Global,
    es: &[Expr],
    made: Items<Option<Made>>,
) -> Result<Items<(Place, Option<Made>)>, NoMemory>
    ensures { IfOk result (λ ws. ws ≡ spec.placed es.now made) }
{
    let mut all = Vec::new(alloc);
    let mut others = es;
    for value in made.into_vec(alloc)? {
        let Some((e, rest)) = others.split_first() else {
            return Ok(Items::of(alloc, all)?);
        };
        all.push((expr_place(e), value))?;
        others = rest;
    }
    Ok(Items::of(alloc, all)?)
}

/// The values of a write, each with its place.
fn written_in(
    alloc: Global,
    home: &Home,
    scope: &Scope,
    values: &[Expr],
    kept: &mut Option<Fault>,
) -> Result<Items<(Place, Option<Made>)>, NoMemory>
    ensures made { IfOk result (λ ws. ws ≡ spec.placed values.now (map made_of (expressions.values_in home.now scope.now values.now))) }
    ensures noted { OnOk result (kept.new ≡ first_of kept.old (all_faults (expressions.values_in home.now scope.now values.now))) }
{
    let made = values_in(alloc, home, scope, values, kept)?;
    placed(alloc, values, made)
}

/// A write of the pieces of its format, unless a rule of the whole is broken.
fn written_by(
    alloc: Global,
    barred: bool,
    line: u32,
    format_place: Place,
    pieces: Option<Items<Piece>>,
    written: Items<(Place, Option<Made>)>,
    kept: &mut Option<Fault>,
) -> Result<Option<Items<CStat>>, NoMemory>
    ensures made { IfOk result (λ s. s ≡ stated.one (if barred then None else (write_of line format_place pieces written).made)) }
    ensures noted { OnOk result (kept.new ≡ first_of kept.old (write_of line format_place pieces written).faults) }
{
    let made = chi_check_stat_rules::write_of(alloc, line, format_place, pieces, written, kept)?;
    one(alloc, unless(barred, made))
}

/// A write of values, whose word and whose format stand at the places.
pub fn write_in(
    alloc: Global,
    home: &Home,
    scope: &Scope,
    place: Place,
    ends_line: bool,
    format: &Bytes,
    format_place: Place,
    values: &[Expr],
    kept: &mut Option<Fault>,
) -> Result<Option<Items<CStat>>, NoMemory>
    ensures made { IfOk result (λ s. s ≡ stated.one (spec.write_in home.now scope.now place ends_line format.now format_place values.now).made) }
    ensures noted { OnOk result (kept.new ≡ first_of kept.old (spec.write_in home.now scope.now place ends_line format.now format_place values.now).faults) }
{
    let barred = note_writing(home, place, kept);
    let written = written_in(alloc, home, scope, values, kept)?;
    match chi_check_stat_rules::format_pieces(alloc, ends_line, format) {
        Ok(pieces) => written_by(
            alloc,
            barred,
            place.line,
            format_place,
            pieces,
            written,
            kept,
        ),
        Err(refusal) => {
            drop(written);
            Err(refusal)
        }
    }
}

/// A return, whose word stands at the place.
pub fn return_in(
    alloc: Global,
    home: &Home,
    scope: &Scope,
    place: Place,
    value: &Expr,
    kept: &mut Option<Fault>,
) -> Result<Option<Items<CStat>>, NoMemory>
    ensures made { IfOk result (λ s. s ≡ stated.one (spec.return_in home.now scope.now place value.now).made) }
    ensures noted { OnOk result (kept.new ≡ first_of kept.old (spec.return_in home.now scope.now place value.now).faults) }
{
    let made = value_in(alloc, home, scope, value, kept)?;
    let made = chi_check_stat_rules::return_of(alloc, home, place, made, kept)?;
    one(alloc, made)
}

/// An exit, whose word stands at the place, with a value where one stands there.
pub fn exit_in(
    alloc: Global,
    home: &Home,
    scope: &Scope,
    place: Place,
    value: &Option<Expr>,
    kept: &mut Option<Fault>,
) -> Result<Option<Items<CStat>>, NoMemory>
    ensures made { IfOk result (λ s. s ≡ stated.one (spec.exit_in home.now scope.now place value.now).made) }
    ensures noted { OnOk result (kept.new ≡ first_of kept.old (spec.exit_in home.now scope.now place value.now).faults) }
{
    let made = some_value_in(alloc, home, scope, value, kept)?;
    let made = chi_check_stat_rules::exit_of(alloc, home, place, made, kept)?;
    one(alloc, made)
}

fn finished(
    alloc: Global,
    barred: bool,
    line: u32,
    instances: Option<Items<CExpr>>,
) -> Result<Option<Items<CStat>>, NoMemory>
    ensures { IfOk result (λ s. s ≡ stated.one (if barred then None else option_map (statement.Finish line) instances)) }
{
    match instances {
        Some(instances) => one(alloc, unless(barred, Some(CStat::Finish(line, instances)))),
        None => Ok(None),
    }
}

/// A `finish`, whose word stands at the place, of instances.
pub fn finish_in(
    alloc: Global,
    home: &Home,
    scope: &Scope,
    place: Place,
    instances: &[Expr],
    kept: &mut Option<Fault>,
) -> Result<Option<Items<CStat>>, NoMemory>
    ensures made { IfOk result (λ s. s ≡ stated.one (spec.finish_in home.now scope.now place instances.now).made) }
    ensures noted { OnOk result (kept.new ≡ first_of kept.old (spec.finish_in home.now scope.now place instances.now).faults) }
{
    let barred = note_running(home, place, kept);
    let made = instances_in(alloc, home, scope, instances, kept)?;
    finished(alloc, barred, place.line, made)
}
