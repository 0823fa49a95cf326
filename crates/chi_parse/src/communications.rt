ghost use Rattle.std.specs.Prelude.{◌^◌, ◌<◌, ◌≤◌, length};
ghost use Rattle.chi_grammar.specs.Rules.{maybe, part};
ghost use Rattle.chi_grammar.specs.Reads.{Reads};
ghost use Rattle.chi_tree.specs.Parts as s;
ghost use Rattle.chi_tree.specs.Rules.{grammar, name};
ghost use Rattle.chi_tree.specs.Tables.{table};
ghost use Rattle.chi_tree.specs.Statements.{communicated, communication_of};
ghost use Rattle.chi_tree.specs.View.{expr_of, name_in, optional};

use crate::targets::target;
use chi_grammar::{ParseFault, Room};
use chi_parse_expr::expr;
use chi_parse_look::classes::FIRST_OF_EXPR;
use chi_parse_look::{is_next, take, take_name};
use chi_token::{Keyword, Sign, Spanned};
use chi_tree::{Class, Communication, Expr, Name, Target};
use std::alloc::Global;

/// An expression that may be left out.
pub fn optional_expr(
    alloc: Global,
    tokens: &[Spanned],
    at: u32,
    room: Room,
) -> Result<(Option<Expr>, u32), ParseFault>
    requires short { length tokens.now < 2 ^ 32 }
    requires inside { at ≤ length tokens.now }
    ensures { Reads grammar table tokens.now (λ t. optional t (expr_of t)) room (maybe (part s.Expr)) at result }
{
    if !is_next(tokens, at, &FIRST_OF_EXPR) {
        return Ok((None, at));
    }
    let (value, end) = expr(alloc, tokens, at, room)?;
    Ok((Some(value), end))
}

/// A name that may be left out.
fn optional_name(
    alloc: Global,
    tokens: &[Spanned],
    at: u32,
    room: Room,
) -> Result<(Option<Name>, u32), ParseFault>
    requires short { length tokens.now < 2 ^ 32 }
    requires inside { at ≤ length tokens.now }
    ensures { Reads grammar table tokens.now (λ t. optional t (name_in t)) room (maybe name) at result }
{
    if !is_next(tokens, at, &[Class::Name]) {
        return Ok((None, at));
    }
    let (name, end) = take_name(alloc, tokens, at)?;
    Ok((Some(name), end))
}

fn sending(
    alloc: Global,
    tokens: &[Spanned],
    at: u32,
    room: Room,
    target: Target,
) -> Result<(Communication, u32), ParseFault>
    requires short { length tokens.now < 2 ^ 32 }
    requires inside { at ≤ length tokens.now }
    ensures { Reads grammar table tokens.now (communicated target) room (part s.Sending) at result }
{
    let (sign, start) = take(tokens, at, Class::Sign(Sign::Bang))?;
    let (value, end) = optional_expr(alloc, tokens, start, room)?;
    Ok((
        Communication::Send {
            target,
            place: sign.place,
            value,
        },
        end,
    ))
}

fn receiving(
    alloc: Global,
    tokens: &[Spanned],
    at: u32,
    room: Room,
    target: Target,
) -> Result<(Communication, u32), ParseFault>
    requires short { length tokens.now < 2 ^ 32 }
    requires inside { at ≤ length tokens.now }
    ensures { Reads grammar table tokens.now (communicated target) room (part s.Receiving) at result }
{
    let (sign, start) = take(tokens, at, Class::Sign(Sign::Question))?;
    let (variable, end) = optional_name(alloc, tokens, start, room)?;
    Ok((
        Communication::Receive {
            target,
            place: sign.place,
            name: variable,
        },
        end,
    ))
}

/// What stands after the target of a communication.
pub fn communication_end(
    alloc: Global,
    tokens: &[Spanned],
    at: u32,
    room: Room,
    target: Target,
) -> Result<(Communication, u32), ParseFault>
    requires short { length tokens.now < 2 ^ 32 }
    requires inside { at ≤ length tokens.now }
    ensures { Reads grammar table tokens.now (communicated target) room (part s.CommunicationEnd) at result }
{
    if is_next(tokens, at, &[Class::Sign(Sign::Bang)]) {
        return sending(alloc, tokens, at, room, target);
    }
    receiving(alloc, tokens, at, room, target)
}

pub fn delay(
    alloc: Global,
    tokens: &[Spanned],
    at: u32,
    room: Room,
) -> Result<(Communication, u32), ParseFault>
    requires short { length tokens.now < 2 ^ 32 }
    requires inside { at ≤ length tokens.now }
    ensures { Reads grammar table tokens.now communication_of room (part s.Delay) at result }
{
    let (word, start) = take(tokens, at, Class::Word(Keyword::DelayWord))?;
    let (time, end) = expr(alloc, tokens, start, room)?;
    Ok((
        Communication::Delay {
            place: word.place,
            length: time,
        },
        end,
    ))
}

pub fn communication(
    alloc: Global,
    tokens: &[Spanned],
    at: u32,
    room: Room,
) -> Result<(Communication, u32), ParseFault>
    requires short { length tokens.now < 2 ^ 32 }
    requires inside { at ≤ length tokens.now }
    ensures { Reads grammar table tokens.now communication_of room (part s.Communication) at result }
{
    if is_next(tokens, at, &[Class::Word(Keyword::DelayWord)]) {
        return delay(alloc, tokens, at, room);
    }
    let (target, middle) = target(alloc, tokens, at, room)?;
    communication_end(alloc, tokens, middle, room, target)
}
