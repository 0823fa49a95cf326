//! Sends, receives and delays. The place is that of `!`, `?` or `delay`.

#![tactic(auto, using(chi_check_types::proofs::Firsts::first_of_none))]

ghost use Rattle.std.specs.Prelude.{◌≡◌, Some, IfOk, OnOk};
ghost use Rattle.std.specs.Option.{option_copied};
ghost use Rattle.chi_types.specs.declared.ty.Ty.{out-Ty};
ghost use Rattle.chi_core.specs.Kinds.{is_void};
ghost use Rattle.chi_check_types.specs.Faults.{first_of};
ghost use Rattle.chi_check_stat_rules.specs.Channels as spec;

use crate::taking::target_of;
use chi_base::NoMemory;
use chi_check_expr_rules::{converted, core_of, refused, settle};
use chi_check_stat_rules::{Aim, Receiver, fitted};
use chi_check_types::{Fault, Known, Made, NameKind, Scope, is_predefined, note, rules};
use chi_core::CComm;
use chi_token::Place;
use chi_tree::Name;
use chi_types::{Ty, Way, same};
use std::alloc::Global;

fn is_void(ty: &Ty) -> bool
    ensures { result ≡ is_void (out-Ty ty.now) }
{
    match ty {
        Ty::Void => true,
        _ => false,
    }
}

fn sent_type(alloc: Global, ty: &Ty) -> Result<Option<Ty>, NoMemory>
    ensures { IfOk result (λ t. t ≡ spec.sent_type (out-Ty ty.now)) }
{
    match ty {
        Ty::Chan(Way::Both, carried) | Ty::Chan(Way::Send, carried) => {
            Ok(Some(carried.get().copy(alloc)?))
        }
        _ => Ok(None),
    }
}

fn received_type(alloc: Global, ty: &Ty) -> Result<Option<Ty>, NoMemory>
    ensures { IfOk result (λ t. t ≡ spec.received_type (out-Ty ty.now)) }
{
    match ty {
        Ty::Chan(Way::Both, carried) | Ty::Chan(Way::Receive, carried) => {
            Ok(Some(carried.get().copy(alloc)?))
        }
        _ => Ok(None),
    }
}

fn send_void(
    place: Place,
    aim: Aim,
    value: Option<Option<Made>>,
    kept: &mut Option<Fault>,
) -> Option<CComm>
    ensures made { result ≡ (spec.send_void place aim value).made }
    ensures noted { kept.new ≡ first_of kept.old (spec.send_void place aim value).faults }
{
    match value {
        None => Some(CComm::Send(target_of(aim), None)),
        Some(value) => {
            note(kept, rules::SENT_VALUE, place);
            drop(value);
            refused(aim)
        }
    }
}

fn sending(alloc: Global, aim: Aim, ty: &Ty, made: Made) -> Result<Option<CComm>, NoMemory>
    ensures { IfOk result (λ c. c ≡ spec.sending aim ty.now made) }
{
    match fitted(alloc, made, ty) {
        Ok(Some(value)) => Ok(Some(CComm::Send(target_of(aim), Some(value)))),
        Ok(None) => Ok(refused(aim)),
        Err(refusal) => {
            drop(aim);
            Err(refusal)
        }
    }
}

fn send_value(
    alloc: Global,
    place: Place,
    aim: Aim,
    ty: &Ty,
    value: Option<Option<Made>>,
    kept: &mut Option<Fault>,
) -> Result<Option<CComm>, NoMemory>
    ensures made { IfOk result (λ c. c ≡ (spec.send_value place aim ty.now value).made) }
    ensures noted { OnOk result (kept.new ≡ first_of kept.old (spec.send_value place aim ty.now value).faults) }
{
    let Some(value) = value else {
        note(kept, rules::SENT_VALUE, place);
        return Ok(refused(aim));
    };
    let Some(made) = value else {
        return Ok(refused(aim));
    };
    Ok(settle(
        sending(alloc, aim, ty, made)?,
        rules::SENT_VALUE,
        place,
        kept,
    ))
}

/// A send on a channel of values of this type.
fn send_typed(
    alloc: Global,
    place: Place,
    aim: Aim,
    ty: &Ty,
    value: Option<Option<Made>>,
    kept: &mut Option<Fault>,
) -> Result<Option<CComm>, NoMemory>
    ensures made { IfOk result (λ c. c ≡ (spec.send_on place aim (Some ty.now) value).made) }
    ensures noted { OnOk result (kept.new ≡ first_of kept.old (spec.send_on place aim (Some ty.now) value).faults) }
{
    if is_void(ty) {
        Ok(send_void(place, aim, value, kept))
    } else {
        send_value(alloc, place, aim, ty, value, kept)
    }
}

/// A send, of a value where one stands there; that may have no type.
pub fn send_of(
    alloc: Global,
    place: Place,
    aim: Option<Aim>,
    value: Option<Option<Made>>,
    kept: &mut Option<Fault>,
) -> Result<Option<CComm>, NoMemory>
    ensures made { IfOk result (λ c. c ≡ (spec.send_of place aim value).made) }
    ensures noted { OnOk result (kept.new ≡ first_of kept.old (spec.send_of place aim value).faults) }
{
    let Some(aim) = aim else {
        drop(value);
        return Ok(None);
    };
    match sent_type(alloc, &aim.ty) {
        Ok(Some(ty)) => send_typed(alloc, place, aim, &ty, value, kept),
        Ok(None) => {
            note(kept, rules::SEND, place);
            drop(value);
            Ok(refused(aim))
        }
        Err(refusal) => {
            drop(value);
            drop(aim);
            Err(refusal)
        }
    }
}

fn untyped_receiver(place: Place, kind: NameKind, kept: &mut Option<Fault>) -> Option<Receiver>
    ensures made { result ≡ (spec.untyped_receiver place kind).made }
    ensures noted { kept.new ≡ first_of kept.old (spec.untyped_receiver place kind).faults }
{
    match kind {
        NameKind::Variable => None,
        _ => {
            note(kept, rules::RECEIVING_NAME, place);
            None
        }
    }
}

#[tactic(auto, using(chi_check_types::proofs::Firsts::first_of_none, crate::proofs::Twice::first_of_two))]
fn visible_receiver(
    alloc: Global,
    place: Place,
    name: Place,
    known: Option<&Known>,
    kept: &mut Option<Fault>,
) -> Result<Option<Receiver>, NoMemory>
    ensures made { IfOk result (λ r. r ≡ (spec.visible_receiver place name (option_copied known.entry)).made) }
    ensures noted { OnOk result (kept.new ≡ first_of kept.old (spec.visible_receiver place name (option_copied known.entry)).faults) }
{
    match known {
        None => {
            note(kept, rules::RECEIVING_NAME, place);
            note(kept, rules::VISIBLE_NAME, name);
            Ok(None)
        }
        Some(Known::Var(slot, ty)) => {
            let ty = ty.copy(alloc)?;
            let slot = *slot;
            Ok(Some(Receiver { slot, ty }))
        }
        Some(Known::Untyped(kind)) => Ok(untyped_receiver(place, *kind, kept)),
        Some(_) => {
            note(kept, rules::RECEIVING_NAME, place);
            Ok(None)
        }
    }
}

/// What a name comes to that receives.
pub fn named_receiver(
    alloc: Global,
    place: Place,
    scope: &Scope,
    name: &Name,
    kept: &mut Option<Fault>,
) -> Result<Option<Receiver>, NoMemory>
    ensures made { IfOk result (λ r. r ≡ (spec.named_receiver place scope.now name.now).made) }
    ensures noted { OnOk result (kept.new ≡ first_of kept.old (spec.named_receiver place scope.now name.now).faults) }
{
    if is_predefined(&name.text) {
        note(kept, rules::RECEIVING_NAME, place);
        return Ok(None);
    }
    visible_receiver(alloc, place, name.place, scope.known(&name.text), kept)
}

fn receive_void(
    place: Place,
    aim: Aim,
    receiver: Option<Option<Receiver>>,
    kept: &mut Option<Fault>,
) -> Option<CComm>
    ensures made { result ≡ (spec.receive_void place aim receiver).made }
    ensures noted { kept.new ≡ first_of kept.old (spec.receive_void place aim receiver).faults }
{
    match receiver {
        None => Some(CComm::Receive(target_of(aim), None)),
        Some(receiver) => {
            note(kept, rules::RECEIVING_NAME, place);
            drop(receiver);
            refused(aim)
        }
    }
}

fn receiving(aim: Aim, ty: &Ty, receiver: Receiver) -> Option<CComm>
    ensures { result ≡ spec.receiving aim ty.now receiver }
{
    let slot = receiver.slot;
    let fits = same(&receiver.ty, ty);
    drop(receiver);
    if fits {
        Some(CComm::Receive(target_of(aim), Some(slot)))
    } else {
        refused(aim)
    }
}

fn receive_value(
    place: Place,
    aim: Aim,
    ty: &Ty,
    receiver: Option<Option<Receiver>>,
    kept: &mut Option<Fault>,
) -> Option<CComm>
    ensures made { result ≡ (spec.receive_value place aim ty.now receiver).made }
    ensures noted { kept.new ≡ first_of kept.old (spec.receive_value place aim ty.now receiver).faults }
{
    let Some(receiver) = receiver else {
        note(kept, rules::RECEIVING_NAME, place);
        return refused(aim);
    };
    let Some(receiver) = receiver else {
        return refused(aim);
    };
    settle(
        receiving(aim, ty, receiver),
        rules::RECEIVING_NAME,
        place,
        kept,
    )
}

/// A receive on a channel of values of this type.
fn receive_typed(
    place: Place,
    aim: Aim,
    ty: &Ty,
    receiver: Option<Option<Receiver>>,
    kept: &mut Option<Fault>,
) -> Option<CComm>
    ensures made { result ≡ (spec.receive_on place aim (Some ty.now) receiver).made }
    ensures noted { kept.new ≡ first_of kept.old (spec.receive_on place aim (Some ty.now) receiver).faults }
{
    if is_void(ty) {
        receive_void(place, aim, receiver, kept)
    } else {
        receive_value(place, aim, ty, receiver, kept)
    }
}

/// A receive, into a variable where one stands there; that may have no type.
pub fn receive_of(
    alloc: Global,
    place: Place,
    aim: Option<Aim>,
    receiver: Option<Option<Receiver>>,
    kept: &mut Option<Fault>,
) -> Result<Option<CComm>, NoMemory>
    ensures made { IfOk result (λ c. c ≡ (spec.receive_of place aim receiver).made) }
    ensures noted { OnOk result (kept.new ≡ first_of kept.old (spec.receive_of place aim receiver).faults) }
{
    let Some(aim) = aim else {
        drop(receiver);
        return Ok(None);
    };
    match received_type(alloc, &aim.ty) {
        Ok(Some(ty)) => Ok(receive_typed(place, aim, &ty, receiver, kept)),
        Ok(None) => {
            note(kept, rules::RECEIVE, place);
            drop(receiver);
            Ok(refused(aim))
        }
        Err(refusal) => {
            drop(receiver);
            drop(aim);
            Err(refusal)
        }
    }
}

fn delaying(alloc: Global, made: Made) -> Result<Option<CComm>, NoMemory>
    ensures { IfOk result (λ c. c ≡ spec.delaying made) }
{
    match &made.ty {
        Ty::Int => Ok(Some(CComm::Delay(converted(alloc, made, &Ty::Real)?))),
        Ty::Real => Ok(Some(CComm::Delay(core_of(made)))),
        Ty::Timer => Ok(Some(CComm::Timer(core_of(made)))),
        _ => {
            drop(made);
            Ok(None)
        }
    }
}

/// The offer of a delay, whose length is an int, a real or a timer; else the broken rule is noted.
pub fn delay_of(
    alloc: Global,
    place: Place,
    made: Option<Made>,
    kept: &mut Option<Fault>,
) -> Result<Option<CComm>, NoMemory>
    ensures made { IfOk result (λ c. c ≡ (spec.delay_of place made).made) }
    ensures noted { OnOk result (kept.new ≡ first_of kept.old (spec.delay_of place made).faults) }
{
    let Some(made) = made else {
        return Ok(None);
    };
    Ok(settle(delaying(alloc, made)?, rules::DELAY, place, kept))
}
