ghost use Rattle.std.specs.Prelude.{◌+◌, ◌^◌, ◌<◌, length, map, IfOk, MatchBool};
ghost use Rattle.chi_tree_spell.specs.Words.{token_of};
ghost use Rattle.chi_explain_expected.specs.Expected.{all_classes, tokens_before, AreExpected, Begins, CanStand, CannotStand};

use crate::classes::{all_classes, sample};
use crate::copies::followed_by;
use chi_base::NoMemory;
use chi_parse::{ParseFault, parse};
use chi_token::Spanned;
use chi_tree::Class;
use std::alloc::Global;

/// Whether a program begins with the tokens, and none of them passes a limit on nesting.
fn begins(alloc: Global, tokens: &[Spanned]) -> Result<bool, NoMemory>
    requires { length tokens.now < 2 ^ 32 }
    ensures { IfOk result (λ begins. MatchBool begins (Begins (map token_of tokens.now)) (Begins (map token_of tokens.now) → ⊥)) }
{
    match parse(alloc, tokens) {
        Ok(_) => Ok(true),
        Err(ParseFault::Syntax(at)) => Ok(at as usize == tokens.len()),
        Err(ParseFault::TooDeep(_)) => Ok(false),
        Err(ParseFault::NoMemory) => Err(NoMemory),
    }
}

/// Whether each token of the class can stand after the tokens before token k, where otherwise none can.
fn can_stand(alloc: Global, tokens: &[Spanned], k: u32, class: Class) -> Result<bool, NoMemory>
    requires { k + 1 < 2 ^ 32 }
    ensures { IfOk result (λ can. MatchBool can (CanStand (tokens_before tokens.now k) class) (CannotStand (tokens_before tokens.now k) class)) }
{
    let next = sample(alloc, class)?;
    let all = followed_by(alloc, tokens, k, next)?;
    begins(alloc, &all)
}

/// Which of the classes can stand after the tokens before token k.
fn chosen(
    alloc: Global,
    tokens: &[Spanned],
    k: u32,
    classes: &[Class],
) -> Result<Vec<Class>, NoMemory>
    requires { k + 1 < 2 ^ 32 }
    ensures { IfOk result (λ chosen. AreExpected (tokens_before tokens.now k) classes.now chosen.items) }
{
    let mut chosen = Vec::new(alloc);
    for class in classes {
        if can_stand(alloc, tokens, k, *class)? {
            chosen.push(*class)?;
        }
    }
    Ok(chosen)
}

/// The classes of which each token can stand after the tokens before token k; of the other classes none can.
pub fn expected(alloc: Global, tokens: &[Spanned], k: u32) -> Result<Vec<Class>, NoMemory>
    requires { k + 1 < 2 ^ 32 }
    ensures { IfOk result (λ chosen. AreExpected (tokens_before tokens.now k) all_classes chosen.items) }
{
    let classes = all_classes(alloc)?;
    chosen(alloc, tokens, k, &classes)
}
