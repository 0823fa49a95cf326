ghost use Rattle.std.specs.Prelude.{◌+◌, ◌^◌, ◌<◌, IfOk, MatchBool};
ghost use Rattle.chi_explain_expected.specs.Depth.{IsBlockTooDeep};

use crate::copies::followed_by;
use chi_base::NoMemory;
use chi_parse::{ParseFault, parse};
use chi_token::{Keyword, Spanned, Token};
use std::alloc::Global;

/// Whether a statement would be the first too deep at token k.
pub fn is_block_too_deep(alloc: Global, tokens: &[Spanned], k: u32) -> Result<bool, NoMemory>
    requires { k + 1 < 2 ^ 32 }
    ensures { IfOk result (λ is. MatchBool is (IsBlockTooDeep tokens.now k) (IsBlockTooDeep tokens.now k → ⊥)) }
{
    let all = followed_by(alloc, tokens, k, Token::Word(Keyword::PassWord))?;
    match parse(alloc, &all) {
        Ok(_) => Ok(false),
        Err(ParseFault::Syntax(_)) => Ok(false),
        Err(ParseFault::TooDeep(at)) => Ok(at == k),
        Err(ParseFault::NoMemory) => Err(NoMemory),
    }
}
