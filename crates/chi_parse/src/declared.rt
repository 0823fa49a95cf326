ghost use Rattle.std.specs.Prelude.{◌^◌, ◌<◌, ◌≤◌, ◌∷◌, length};
ghost use Rattle.chi_grammar.specs.Rules.{many, maybe, part, ◌▸◌};
ghost use Rattle.chi_grammar.specs.Reads.{Reads};
ghost use Rattle.chi_token.specs.declared.sign.Sign.TheVariants.{Assign, Comma};
ghost use Rattle.chi_tree.specs.Parts as s;
ghost use Rattle.chi_tree.specs.Rules.{grammar, sign};
ghost use Rattle.chi_tree.specs.Tables.{table};
ghost use Rattle.chi_parse.specs.Rests.{assigned_of};
ghost use Rattle.chi_tree.specs.Statements.{initial_of, more_variables_of, variable_of, variables_of};

use chi_base::Items;
use chi_grammar::{ParseFault, Room};
use chi_parse_expr::expr;
use chi_parse_look::{is_next, take, take_name};
use chi_token::{Sign, Spanned};
use chi_tree::{Class, Initial, Variable};
use std::alloc::Global;

fn initial(
    alloc: Global,
    tokens: &[Spanned],
    at: u32,
    room: Room,
) -> Result<(Option<Initial>, u32), ParseFault>
    requires short { length tokens.now < 2 ^ 32 }
    requires inside { at ≤ length tokens.now }
    ensures { Reads grammar table tokens.now initial_of room (maybe (part s.Initial)) at result }
{
    if !is_next(tokens, at, &[Class::Sign(Sign::Assign)]) {
        return Ok((None, at));
    }
    let (initial, end) = assigned(alloc, tokens, at, room)?;
    Ok((Some(initial), end))
}

/// `=` and the value after it.
pub fn assigned(
    alloc: Global,
    tokens: &[Spanned],
    at: u32,
    room: Room,
) -> Result<(Initial, u32), ParseFault>
    requires short { length tokens.now < 2 ^ 32 }
    requires inside { at ≤ length tokens.now }
    ensures { Reads grammar table tokens.now assigned_of room (sign Assign ▸ part s.Expr) at result }
{
    let (sign, start) = take(tokens, at, Class::Sign(Sign::Assign))?;
    let (value, end) = expr(alloc, tokens, start, room)?;
    let initial = Initial {
        equals: sign.place,
        value,
    };
    Ok((initial, end))
}

fn variable(
    alloc: Global,
    tokens: &[Spanned],
    at: u32,
    room: Room,
) -> Result<(Variable, u32), ParseFault>
    requires short { length tokens.now < 2 ^ 32 }
    requires inside { at ≤ length tokens.now }
    ensures { Reads grammar table tokens.now variable_of room (part s.Variable) at result }
{
    let (name, middle) = take_name(alloc, tokens, at)?;
    let (initial, end) = initial(alloc, tokens, middle, room)?;
    Ok((Variable { name, initial }, end))
}

/// The variables after a first one.
fn more_variables(
    alloc: Global,
    tokens: &[Spanned],
    at: u32,
    room: Room,
    first: Variable,
) -> Result<(Items<Variable>, u32), ParseFault>
    requires short { length tokens.now < 2 ^ 32 }
    requires inside { at ≤ length tokens.now }
    ensures { Reads grammar table tokens.now (λ vs. first ∷ more_variables_of vs) room (many (sign Comma ▸ part s.Variable)) at result }
{
    let mut variables = Vec::new(alloc);
    variables.push(first)?;
    let mut end = at;
    'turn: while is_next(tokens, end, &[Class::Sign(Sign::Comma)]) {
        let (_, after) = take(tokens, end, Class::Sign(Sign::Comma))?;
        let (next, stop) = variable(alloc, tokens, after, room)?;
        variables.push(next)?;
        end = stop;
    }
    Ok((Items::of(alloc, variables)?, end))
}

pub fn variables(
    alloc: Global,
    tokens: &[Spanned],
    at: u32,
    room: Room,
) -> Result<(Items<Variable>, u32), ParseFault>
    requires short { length tokens.now < 2 ^ 32 }
    requires inside { at ≤ length tokens.now }
    ensures { Reads grammar table tokens.now variables_of room (part s.Variables) at result }
{
    let (first, middle) = variable(alloc, tokens, at, room)?;
    more_variables(alloc, tokens, middle, room, first)
}
