ghost use Rattle.std.specs.Prelude.{◌^◌, ◌<◌, ◌≤◌, ◌∷◌, length};
ghost use Rattle.chi_grammar.specs.declared.room.Room.{Room};
ghost use Rattle.chi_grammar.specs.Rules.{many, part, ◌▸◌};
ghost use Rattle.chi_grammar.specs.Reads.{Reads};
ghost use Rattle.chi_token.specs.declared.sign.Sign.TheVariants.{Comma};
ghost use Rattle.chi_tree.specs.Parts as s;
ghost use Rattle.chi_tree.specs.Rules.{grammar, name, sign};
ghost use Rattle.chi_tree.specs.Tables.{table};
ghost use Rattle.chi_tree.specs.Statements.{walk_of};
ghost use Rattle.chi_tree.specs.View.{more_names_in, names_in};

use chi_base::Items;
use chi_grammar::{ParseFault, Room};
use chi_parse_expr::expr;
use chi_parse_look::{is_next, take, take_name};
use chi_token::{Keyword, Sign, Spanned};
use chi_tree::{Class, Name, Walk};
use std::alloc::Global;

/// The names after a first one.
fn more_names(
    alloc: Global,
    tokens: &[Spanned],
    at: u32,
    first: Name,
) -> Result<(Items<Name>, u32), ParseFault>
    requires short { length tokens.now < 2 ^ 32 }
    requires inside { at ≤ length tokens.now }
    ensures { (room : Room) → Reads grammar table tokens.now (λ ns. first ∷ more_names_in ns) room (many (sign Comma ▸ name)) at result }
{
    let mut names = Vec::new(alloc);
    names.push(first)?;
    let mut end = at;
    'turn: while is_next(tokens, end, &[Class::Sign(Sign::Comma)]) {
        let (_, after) = take(tokens, end, Class::Sign(Sign::Comma))?;
        let (name, stop) = take_name(alloc, tokens, after)?;
        names.push(name)?;
        end = stop;
    }
    Ok((Items::of(alloc, names)?, end))
}

pub fn names(alloc: Global, tokens: &[Spanned], at: u32) -> Result<(Items<Name>, u32), ParseFault>
    requires short { length tokens.now < 2 ^ 32 }
    requires inside { at ≤ length tokens.now }
    ensures { (room : Room) → Reads grammar table tokens.now names_in room (part s.Names) at result }
{
    let (first, middle) = take_name(alloc, tokens, at)?;
    more_names(alloc, tokens, middle, first)
}

pub fn walk(
    alloc: Global,
    tokens: &[Spanned],
    at: u32,
    room: Room,
) -> Result<(Walk, u32), ParseFault>
    requires short { length tokens.now < 2 ^ 32 }
    requires inside { at ≤ length tokens.now }
    ensures { Reads grammar table tokens.now walk_of room (part s.Walk) at result }
{
    let (names, middle) = names(alloc, tokens, at)?;
    let (_, start) = take(tokens, middle, Class::Word(Keyword::InWord))?;
    let (container, end) = expr(alloc, tokens, start, room)?;
    Ok((Walk { names, container }, end))
}
