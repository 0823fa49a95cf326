ghost use Rattle.std.specs.Prelude.{◌≡◌, ◌≤◌, ◌+◌, ◌++◌, [], ◌∷◌, length, map, take, IfOk};
ghost use Rattle.chi_tree_spell.specs.Words.{token_of};
ghost use Rattle.chi_explain_expected.specs.Expected.{tokens_before};

use chi_base::NoMemory;
use chi_token::{Place, Spanned, Token};
use std::alloc::Global;

/// The same token, whose bytes both share.
fn copy_of(token: &Token) -> Result<Token, NoMemory>
    ensures { IfOk result (λ copy. copy ≡ token.now) }
{
    Ok(match token {
        Token::Word(keyword) => Token::Word(*keyword),
        Token::Name(bytes) => Token::Name(bytes.copy()?),
        Token::Int(bytes) => Token::Int(bytes.copy()?),
        Token::Real(bytes) => Token::Real(bytes.copy()?),
        Token::Text(bytes) => Token::Text(bytes.copy()?),
        Token::Sign(sign) => Token::Sign(*sign),
    })
}

/// A token at no place.
fn nowhere(token: Token) -> Spanned
    ensures { result.token ≡ token }
{
    Spanned {
        token,
        place: Place { line: 1, column: 1 },
        start: 0,
        stop: 0,
    }
}

/// The same tokens, at no place.
fn copies(alloc: Global, tokens: &[Spanned]) -> Result<Vec<Spanned>, NoMemory>
    ensures { IfOk result (λ copies. map token_of copies.items ≡ map token_of tokens.now) }
{
    let mut copies = Vec::new(alloc);
    for spanned in tokens {
        copies.push(nowhere(copy_of(&spanned.token)?))?;
    }
    Ok(copies)
}

/// The tokens before token k.
#[tactic(auto, using(std::proofs::lemmas::List::take_min))]
fn first_tokens(tokens: &[Spanned], k: u32) -> &[Spanned]
    ensures { result.now ≡ take k tokens.now }
{
    tokens.split_at((k as usize).min(tokens.len())).0
}

/// The tokens before token k, and then another one, at no place.
pub fn followed_by(
    alloc: Global,
    tokens: &[Spanned],
    k: u32,
    next: Token,
) -> Result<Vec<Spanned>, NoMemory>
    ensures tokens { IfOk result (λ all. map token_of all.items ≡ tokens_before tokens.now k ++ next ∷ []) }
    ensures short { IfOk result (λ all. length all.items ≤ k + 1) }
{
    let mut all = copies(alloc, first_tokens(tokens, k))?;
    all.push(nowhere(next))?;
    Ok(all)
}
