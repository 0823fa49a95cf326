ghost use Rattle.std.specs.Prelude.{◌≡◌, ◌^◌, ◌<◌, ◌≤◌, true, length, Some};
ghost use Rattle.chi_grammar.specs.Rules.{part};
ghost use Rattle.chi_grammar.specs.Reads.{Reads};
ghost use Rattle.chi_grammar.specs.declared.room.Room.{Room};
ghost use Rattle.chi_tree.specs.Parts as s;
ghost use Rattle.chi_tree.specs.Rules.{grammar};
ghost use Rattle.chi_tree.specs.Statements.{is_some, led, statement_of};
ghost use Rattle.chi_tree.specs.Tables.{table};
ghost use Rattle.chi_tree.specs.Tokens.{ends_line, jump_of};

use crate::communications::{communication_end, delay, optional_expr};
use crate::declared::variables;
use crate::targets::{is_bare, more_targets, target};
use chi_grammar::{Nesting, ParseFault, Room};
use chi_parse_expr::{built_type, expr, exprs, more_exprs};
use chi_parse_look::classes::{
    FIRST_OF_BUILT_TYPE, FIRST_OF_COMMUNICATION_END, FIRST_OF_JUMP, FIRST_OF_WRITE,
};
use chi_parse_look::{bytes_of, enter, is_next, joined, take, take_one_of};
use chi_token::{Bytes, Keyword, Place, Sign, Spanned, Token};
use chi_tree::{Class, Statement, Target, TypeTree};
use std::alloc::Global;

/// A declaration of a type that is no name.
fn declaration(
    alloc: Global,
    tokens: &[Spanned],
    at: u32,
    room: Room,
) -> Result<(Statement, u32), ParseFault>
    requires short { length tokens.now < 2 ^ 32 }
    requires inside { at ≤ length tokens.now }
    ensures { Reads grammar table tokens.now statement_of room (part s.Declaration) at result }
{
    let (ty, middle) = built_type(alloc, tokens, at, room)?;
    let ((ty, variables), end) = joined(ty, variables(alloc, tokens, middle, room))?;
    Ok((Statement::Declare { ty, variables }, end))
}

/// A statement that begins with a target.
fn name_led(
    alloc: Global,
    tokens: &[Spanned],
    at: u32,
    room: Room,
) -> Result<(Statement, u32), ParseFault>
    requires short { length tokens.now < 2 ^ 32 }
    requires inside { at ≤ length tokens.now }
    ensures { Reads grammar table tokens.now statement_of room (part s.NameLed) at result }
{
    let (target, middle) = target(alloc, tokens, at, room)?;
    if is_bare(&target) {
        return after_name(alloc, tokens, middle, room, target);
    }
    after_target(alloc, tokens, middle, room, target)
}

/// What stands after a name with which a statement begins.
fn after_name(
    alloc: Global,
    tokens: &[Spanned],
    at: u32,
    room: Room,
    target: Target,
) -> Result<(Statement, u32), ParseFault>
    requires short { length tokens.now < 2 ^ 32 }
    requires inside { at ≤ length tokens.now }
    ensures { Reads grammar table tokens.now (led target) room (part s.AfterName) at result }
{
    if !is_next(tokens, at, &[Class::Name]) {
        return after_target(alloc, tokens, at, room, target);
    }
    let (variables, end) = variables(alloc, tokens, at, room)?;
    let Target { name, steps: _ } = target;
    let ty = TypeTree::Defined(name);
    Ok((Statement::Declare { ty, variables }, end))
}

/// What stands after the target with which a statement begins.
fn after_target(
    alloc: Global,
    tokens: &[Spanned],
    at: u32,
    room: Room,
    target: Target,
) -> Result<(Statement, u32), ParseFault>
    requires short { length tokens.now < 2 ^ 32 }
    requires inside { at ≤ length tokens.now }
    ensures { Reads grammar table tokens.now (led target) room (part s.AfterTarget) at result }
{
    if !is_next(tokens, at, &FIRST_OF_COMMUNICATION_END) {
        return assignment(alloc, tokens, at, room, target);
    }
    let (communication, end) = communication_end(alloc, tokens, at, room, target)?;
    Ok((Statement::Communicate(communication), end))
}

/// The rest of an assignment after its first target.
fn assignment(
    alloc: Global,
    tokens: &[Spanned],
    at: u32,
    room: Room,
    target: Target,
) -> Result<(Statement, u32), ParseFault>
    requires short { length tokens.now < 2 ^ 32 }
    requires inside { at ≤ length tokens.now }
    ensures { Reads grammar table tokens.now (led target) room (part s.Assignment) at result }
{
    let (targets, middle) = more_targets(alloc, tokens, at, room, target)?;
    let (sign, start) = take(tokens, middle, Class::Sign(Sign::Assign))?;
    let (values, end) = exprs(alloc, tokens, start, room)?;
    Ok((
        Statement::Assign {
            targets,
            equals: sign.place,
            values,
        },
        end,
    ))
}

fn timed(
    alloc: Global,
    tokens: &[Spanned],
    at: u32,
    room: Room,
) -> Result<(Statement, u32), ParseFault>
    requires short { length tokens.now < 2 ^ 32 }
    requires inside { at ≤ length tokens.now }
    ensures { Reads grammar table tokens.now statement_of room (part s.Timed) at result }
{
    let (communication, end) = delay(alloc, tokens, at, room)?;
    Ok((Statement::Communicate(communication), end))
}

fn jump_of(token: &Token, place: Place) -> Statement
    requires { is_some (jump_of token.now place) ≡ true }
    ensures { jump_of token.now place ≡ Some result }
{
    match token {
        Token::Word(Keyword::PassWord) => Statement::Pass(place),
        Token::Word(Keyword::BreakWord) => Statement::Break(place),
        Token::Word(Keyword::ContinueWord) => Statement::Continue(place),
        _ => unreachable!(),
    }
}

fn jump(tokens: &[Spanned], at: u32) -> Result<(Statement, u32), ParseFault>
    requires short { length tokens.now < 2 ^ 32 }
    requires inside { at ≤ length tokens.now }
    ensures { (room : Room) → Reads grammar table tokens.now statement_of room (part s.Jump) at result }
{
    let (word, end) = take_one_of(tokens, at, &FIRST_OF_JUMP)?;
    Ok((jump_of(&word.token, word.place), end))
}

fn returned(
    alloc: Global,
    tokens: &[Spanned],
    at: u32,
    room: Room,
) -> Result<(Statement, u32), ParseFault>
    requires short { length tokens.now < 2 ^ 32 }
    requires inside { at ≤ length tokens.now }
    ensures { Reads grammar table tokens.now statement_of room (part s.Return) at result }
{
    let (word, start) = take(tokens, at, Class::Word(Keyword::ReturnWord))?;
    let (value, end) = expr(alloc, tokens, start, room)?;
    Ok((
        Statement::Return {
            place: word.place,
            value,
        },
        end,
    ))
}

fn exit(
    alloc: Global,
    tokens: &[Spanned],
    at: u32,
    room: Room,
) -> Result<(Statement, u32), ParseFault>
    requires short { length tokens.now < 2 ^ 32 }
    requires inside { at ≤ length tokens.now }
    ensures { Reads grammar table tokens.now statement_of room (part s.Exit) at result }
{
    let (word, start) = take(tokens, at, Class::Word(Keyword::ExitWord))?;
    let (value, end) = optional_expr(alloc, tokens, start, room)?;
    Ok((
        Statement::Exit {
            place: word.place,
            value,
        },
        end,
    ))
}

fn finish(
    alloc: Global,
    tokens: &[Spanned],
    at: u32,
    room: Room,
) -> Result<(Statement, u32), ParseFault>
    requires short { length tokens.now < 2 ^ 32 }
    requires inside { at ≤ length tokens.now }
    ensures { Reads grammar table tokens.now statement_of room (part s.Finish) at result }
{
    let (word, start) = take(tokens, at, Class::Word(Keyword::FinishWord))?;
    let (instances, end) = exprs(alloc, tokens, start, room)?;
    Ok((
        Statement::Finish {
            place: word.place,
            instances,
        },
        end,
    ))
}

/// Whether a write ends its line.
fn ends_line(token: &Token) -> bool
    requires { is_some (ends_line token.now) ≡ true }
    ensures { ends_line token.now ≡ Some result }
{
    match token {
        Token::Word(Keyword::WriteWord) => false,
        Token::Word(Keyword::WritelnWord) => true,
        _ => unreachable!(),
    }
}

fn write(
    alloc: Global,
    tokens: &[Spanned],
    at: u32,
    room: Room,
) -> Result<(Statement, u32), ParseFault>
    requires short { length tokens.now < 2 ^ 32 }
    requires inside { at ≤ length tokens.now }
    ensures { Reads grammar table tokens.now statement_of room (part s.Write) at result }
{
    let (word, start) = take_one_of(tokens, at, &FIRST_OF_WRITE)?;
    let inner = enter(
        tokens,
        start,
        room,
        Nesting::Expression,
        &[Class::Sign(Sign::LeftParen)],
    )?;
    let (_, from) = take(tokens, start, Class::Sign(Sign::LeftParen))?;
    let (text, middle) = take(tokens, from, Class::Text)?;
    let (values, last) = more_exprs(alloc, tokens, middle, inner, Vec::new(alloc))?;
    let (_, end) = take(tokens, last, Class::Sign(Sign::RightParen))?;
    let format = Bytes::copy_of(alloc, bytes_of(&text.token))?;
    let statement = Statement::Write {
        place: word.place,
        ends_line: ends_line(&word.token),
        format,
        format_place: text.place,
        values,
    };
    Ok((statement, end))
}

/// A statement whose last token is never taken for the `end` of one.
pub fn open(
    alloc: Global,
    tokens: &[Spanned],
    at: u32,
    room: Room,
) -> Result<(Statement, u32), ParseFault>
    requires short { length tokens.now < 2 ^ 32 }
    requires inside { at ≤ length tokens.now }
    ensures { Reads grammar table tokens.now statement_of room (part s.Open) at result }
{
    if is_next(tokens, at, &FIRST_OF_BUILT_TYPE) {
        return declaration(alloc, tokens, at, room);
    }
    if is_next(tokens, at, &[Class::Name]) {
        return name_led(alloc, tokens, at, room);
    }
    if is_next(tokens, at, &[Class::Word(Keyword::DelayWord)]) {
        return timed(alloc, tokens, at, room);
    }
    if is_next(tokens, at, &FIRST_OF_JUMP) {
        return jump(tokens, at);
    }
    if is_next(tokens, at, &[Class::Word(Keyword::ReturnWord)]) {
        return returned(alloc, tokens, at, room);
    }
    if is_next(tokens, at, &[Class::Word(Keyword::ExitWord)]) {
        return exit(alloc, tokens, at, room);
    }
    if is_next(tokens, at, &[Class::Word(Keyword::FinishWord)]) {
        return finish(alloc, tokens, at, room);
    }
    write(alloc, tokens, at, room)
}
