ghost use Rattle.std.specs.Prelude.{◌≡◌, ◌^◌, ◌<◌, ◌≤◌, true, IfOk, List, None, Some, length};
ghost use Rattle.chi_grammar.specs.Rules.{part, ◌▸◌};
ghost use Rattle.chi_grammar.specs.Reads.{Reads};
ghost use Rattle.chi_tree.specs.Parts as s;
ghost use Rattle.chi_token.specs.declared.sign.Sign.TheVariants.{Comma};
ghost use Rattle.chi_tree.specs.Rules.{grammar, sign};
ghost use Rattle.chi_parse.specs.Rests.{guarded_of, offer_shown, offered_shown};
ghost use Rattle.chi_tree.specs.Tables.{table};
ghost use Rattle.chi_tree.specs.declared.expr.Expr.{out-Expr};
ghost use Rattle.chi_tree.specs.declared.expr.Postfix.{Postfix, out-Postfix};
ghost use Rattle.chi_tree.specs.Statements.{as_target, is_some, is_step_in, name_target};

use crate::communications::{communication, communication_end, delay};
use chi_base::{Items, NoMemory};
use chi_grammar::{ParseFault, Room};
use chi_parse_expr::expr;
use chi_parse_look::{is_next, joined, take};
use chi_token::{Keyword, Sign, Spanned};
use chi_tree::{Class, Communication, Expr, Postfix, Target};
use std::alloc::Global;

/// A communication, with its guard where there is one.
#[derive(Drop)]
pub struct GuardedCommunication {
    pub guard: Option<Expr>,
    pub communication: Communication,
}

/// Whether an expression is a name alone.
fn is_named(e: &Expr) -> bool
    ensures { (steps : List Postfix) → result ≡ is_some (name_target (out-Expr e.now) steps) }
{
    matches!(e, Expr::Named(_))
}

/// Whether a part of an expression may be one of a target.
fn is_step(step: &Postfix) -> bool
    ensures { result ≡ is_step_in (out-Postfix step.now) }
{
    matches!(step, Postfix::Index { .. } | Postfix::Field(_))
}

/// Whether an expression is a name, or parts of one by indexes and fields.
fn is_target(e: &Expr) -> bool
    ensures { result ≡ is_some (as_target e.now) }
{
    match e {
        Expr::Named(_) => true,
        Expr::Part { whole, postfixes } => is_named(whole.get())
            && postfixes.as_slice().iter().all(|step| is_step(step)),
        _ => false,
    }
}

/// The target that an expression is.
fn into_target(alloc: Global, e: Expr) -> Result<Target, NoMemory>
    requires { is_some (as_target e) ≡ true }
    ensures { IfOk result (λ target. as_target e ≡ Some target) }
{
    match e {
        Expr::Named(name) => {
            let steps = Items::of(alloc, Vec::new(alloc))?;
            Ok(Target { name, steps })
        }
        Expr::Part { whole, postfixes } => match whole.into_inner() {
            Expr::Named(name) => Ok(Target {
                name,
                steps: postfixes,
            }),
            _ => unreachable!(),
        },
        _ => unreachable!(),
    }
}

/// An offer without a guard.
fn bare(communication: Communication) -> GuardedCommunication
    ensures { result ≡ record { guard = None; communication = communication } }
{
    GuardedCommunication {
        guard: None,
        communication,
    }
}

/// A guard and a communication, of which the guard has been read.
fn guarded(
    alloc: Global,
    tokens: &[Spanned],
    at: u32,
    room: Room,
    guard: Expr,
) -> Result<(GuardedCommunication, u32), ParseFault>
    requires short { length tokens.now < 2 ^ 32 }
    requires inside { at ≤ length tokens.now }
    ensures { Reads grammar table tokens.now (offered_shown guard) room (part s.Guarded) at result }
{
    let ((guard, communication), end) = joined(guard, after_guard(alloc, tokens, at, room))?;
    Ok((
        GuardedCommunication {
            guard: Some(guard),
            communication,
        },
        end,
    ))
}

/// The communication after a guard and its comma.
fn after_guard(
    alloc: Global,
    tokens: &[Spanned],
    at: u32,
    room: Room,
) -> Result<(Communication, u32), ParseFault>
    requires short { length tokens.now < 2 ^ 32 }
    requires inside { at ≤ length tokens.now }
    ensures { Reads grammar table tokens.now guarded_of room (sign Comma ▸ part s.Communication) at result }
{
    let (_, start) = take(tokens, at, Class::Sign(Sign::Comma))?;
    communication(alloc, tokens, start, room)
}

/// What stands after an expression that is a target: it is a guard, or that of a communication.
fn offered(
    alloc: Global,
    tokens: &[Spanned],
    at: u32,
    room: Room,
    first: Expr,
) -> Result<(GuardedCommunication, u32), ParseFault>
    requires short { length tokens.now < 2 ^ 32 }
    requires inside { at ≤ length tokens.now }
    requires target { is_some (as_target first) ≡ true }
    ensures { Reads grammar table tokens.now (offered_shown first) room (part s.Offered) at result }
{
    if is_next(tokens, at, &[Class::Sign(Sign::Comma)]) {
        return guarded(alloc, tokens, at, room, first);
    }
    let target = into_target(alloc, first)?;
    let (communication, end) = communication_end(alloc, tokens, at, room, target)?;
    Ok((bare(communication), end))
}

pub fn offer(
    alloc: Global,
    tokens: &[Spanned],
    at: u32,
    room: Room,
) -> Result<(GuardedCommunication, u32), ParseFault>
    requires short { length tokens.now < 2 ^ 32 }
    requires inside { at ≤ length tokens.now }
    ensures { Reads grammar table tokens.now offer_shown room (part s.Offer) at result }
{
    if is_next(tokens, at, &[Class::Word(Keyword::DelayWord)]) {
        let (communication, end) = delay(alloc, tokens, at, room)?;
        return Ok((bare(communication), end));
    }
    let (first, middle) = expr(alloc, tokens, at, room)?;
    if is_target(&first) {
        return offered(alloc, tokens, middle, room, first);
    }
    guarded(alloc, tokens, middle, room, first)
}
