//! Parts with what is read after them.
//!
//! A part that is held while more is read has to be dropped where that fails. Here a call drops it: a tree that goes out
//! of scope in a function that reads is laid out part by part in the function's proof, on each way out.

ghost use Rattle.std.specs.Prelude.{ℕ, List, ◌≡◌, ◌^◌, ◌<◌, ◌∷◌, [], length, MatchResult};
ghost use Rattle.chi_grammar.specs.declared.room.Room.{Room};
ghost use Rattle.chi_grammar.specs.Rules.{Rule};
ghost use Rattle.chi_grammar.specs.Reads.{Reads, TokenAt};
ghost use Rattle.chi_parse_look.specs.Taking.{NoneAt};
ghost use Rattle.chi_token.specs.declared.place.Spanned.{Spanned};
ghost use Rattle.chi_tree.specs.Classes.{number_of};
ghost use Rattle.chi_tree.specs.Parts.{Part};
ghost use Rattle.chi_tree.specs.Rules.{grammar};
ghost use Rattle.chi_tree.specs.Tables.{table};
ghost use Rattle.chi_tree.specs.View.{Built};

use crate::look::take;
use chi_base::Boxed;
use chi_grammar::ParseFault;
use chi_token::Spanned;
use chi_tree::Class;
use std::alloc::Global;

/// A first part with the one that was read after it; where none was, the first is dropped.
pub fn joined<A: Drop, B: Drop>(
    first: A,
    rest: Result<(B, u32), ParseFault>,
) -> Result<((A, B), u32), ParseFault>
    ensures { (tokens : List Spanned) (room : Room) (view : Built → B) (rule : Rule Spanned Part) (at : ℕ) → Reads grammar table tokens view room rule at rest → Reads grammar table tokens (λ t. (first, view t)) room rule at result }
{
    match rest {
        Ok((second, end)) => Ok(((first, second), end)),
        Err(fault) => {
            drop(first);
            Err(fault)
        }
    }
}

/// A part after which a token of the class stands, with the index after that; where none stands, the part is dropped.
pub fn followed<A: Drop>(
    part: A,
    tokens: &[Spanned],
    at: u32,
    class: Class,
) -> Result<(A, u32), ParseFault>
    requires short { length tokens.now < 2 ^ 32 }
    ensures { MatchResult result (λ p. (p.0 ≡ part) × (x : Spanned) × TokenAt grammar tokens.now (number_of class) at x p.1) (NoneAt tokens.now (class ∷ []) at) }
{
    match take(tokens, at, class) {
        Ok((_, end)) => Ok((part, end)),
        Err(fault) => {
            drop(part);
            Err(fault)
        }
    }
}

/// What was read, in a box.
pub fn boxed<A: Drop>(
    alloc: Global,
    read: Result<(A, u32), ParseFault>,
) -> Result<(Boxed<A>, u32), ParseFault>
    ensures { (tokens : List Spanned) (room : Room) (view : Built → A) (rule : Rule Spanned Part) (at : ℕ) → Reads grammar table tokens view room rule at read → Reads grammar table tokens view room rule at result }
{
    match read {
        Ok((value, end)) => {
            let boxed = Boxed::new(alloc, value)?;
            Ok((boxed, end))
        }
        Err(fault) => Err(fault),
    }
}
