ghost use Rattle.std.specs.Prelude.{◌≡◌, ◌^◌, ◌<◌, ◌≤◌, ◌∷◌, length};
ghost use Rattle.chi_grammar.specs.Rules.{many, part, ◌▸◌};
ghost use Rattle.chi_grammar.specs.Reads.{Reads};
ghost use Rattle.chi_token.specs.declared.sign.Sign.TheVariants.{Comma};
ghost use Rattle.chi_tree.specs.Parts as s;
ghost use Rattle.chi_tree.specs.Rules.{grammar, sign};
ghost use Rattle.chi_tree.specs.Tables.{table};
ghost use Rattle.chi_tree.specs.Statements.{is_bare, more_targets_of, target_of};
ghost use Rattle.chi_tree.specs.View.{postfix_of, postfixes_of};

use chi_base::Items;
use chi_grammar::{Nesting, ParseFault, Room};
use chi_parse_expr::{boxed_expr, field};
use chi_parse_look::classes::FIRST_OF_POSTFIX;
use chi_parse_look::{enter, is_next, take, take_name};
use chi_token::{Sign, Spanned};
use chi_tree::{Class, Postfix, Target};
use std::alloc::Global;

/// An index or a field of a target.
fn target_step(
    alloc: Global,
    tokens: &[Spanned],
    at: u32,
    room: Room,
) -> Result<(Postfix, u32), ParseFault>
    requires short { length tokens.now < 2 ^ 32 }
    requires inside { at ≤ length tokens.now }
    ensures { Reads grammar table tokens.now postfix_of room (part s.TargetStep) at result }
{
    if !is_next(tokens, at, &[Class::Sign(Sign::LeftBracket)]) {
        return field(alloc, tokens, at);
    }
    let inner = enter(
        tokens,
        at,
        room,
        Nesting::Expression,
        &[Class::Sign(Sign::LeftBracket)],
    )?;
    let (bracket, start) = take(tokens, at, Class::Sign(Sign::LeftBracket))?;
    let (index, middle) = boxed_expr(alloc, tokens, start, inner)?;
    let (_, end) = take(tokens, middle, Class::Sign(Sign::RightBracket))?;
    Ok((
        Postfix::Index {
            place: bracket.place,
            index,
        },
        end,
    ))
}

fn target_steps(
    alloc: Global,
    tokens: &[Spanned],
    at: u32,
    room: Room,
) -> Result<(Items<Postfix>, u32), ParseFault>
    requires short { length tokens.now < 2 ^ 32 }
    requires inside { at ≤ length tokens.now }
    ensures { Reads grammar table tokens.now postfixes_of room (many (part s.TargetStep)) at result }
{
    let mut steps = Vec::new(alloc);
    let mut end = at;
    'turn: while is_next(tokens, end, &FIRST_OF_POSTFIX) {
        let (step, stop) = target_step(alloc, tokens, end, room)?;
        steps.push(step)?;
        end = stop;
    }
    Ok((Items::of(alloc, steps)?, end))
}

pub fn target(
    alloc: Global,
    tokens: &[Spanned],
    at: u32,
    room: Room,
) -> Result<(Target, u32), ParseFault>
    requires short { length tokens.now < 2 ^ 32 }
    requires inside { at ≤ length tokens.now }
    ensures { Reads grammar table tokens.now target_of room (part s.Target) at result }
{
    let (name, middle) = take_name(alloc, tokens, at)?;
    let (steps, end) = target_steps(alloc, tokens, middle, room)?;
    Ok((Target { name, steps }, end))
}

/// The targets after a first one.
pub fn more_targets(
    alloc: Global,
    tokens: &[Spanned],
    at: u32,
    room: Room,
    first: Target,
) -> Result<(Items<Target>, u32), ParseFault>
    requires short { length tokens.now < 2 ^ 32 }
    requires inside { at ≤ length tokens.now }
    ensures { Reads grammar table tokens.now (λ ts. first ∷ more_targets_of ts) room (many (sign Comma ▸ part s.Target)) at result }
{
    let mut targets = Vec::new(alloc);
    targets.push(first)?;
    let mut end = at;
    'turn: while is_next(tokens, end, &[Class::Sign(Sign::Comma)]) {
        let (_, after) = take(tokens, end, Class::Sign(Sign::Comma))?;
        let (next, stop) = target(alloc, tokens, after, room)?;
        targets.push(next)?;
        end = stop;
    }
    Ok((Items::of(alloc, targets)?, end))
}

/// Whether a target is a name alone.
pub fn is_bare(target: &Target) -> bool
    ensures { result ≡ is_bare target.now.steps }
{
    target.steps.as_slice().is_empty()
}
