ghost use Rattle.std.specs.Prelude.{◌≡◌};
ghost use Rattle.chi_fmt.specs.Spaces.{closes, holds_last, holds_next, is_bracket, is_joined, is_word, opens, sign_takes_bracket, takes_bracket, word_takes_bracket};

use crate::spot::{Role, Spot};
use chi_token::{Keyword, Sign, Token};

/// Whether the token is one before which no space stands.
fn closes(token: &Token) -> bool
    ensures { result ≡ closes token.now }
{
    matches!(
        token,
        Token::Sign(
            Sign::Comma
                | Sign::Semicolon
                | Sign::Colon
                | Sign::Dot
                | Sign::RightParen
                | Sign::RightBracket
                | Sign::RightBrace
                | Sign::Bang
                | Sign::Question
        )
    )
}

/// Whether the token is one after which no space stands.
fn opens(token: &Token) -> bool
    ensures { result ≡ opens token.now }
{
    matches!(
        token,
        Token::Sign(Sign::LeftParen | Sign::LeftBracket | Sign::LeftBrace | Sign::Dot)
    )
}

fn is_word(token: &Token) -> bool
    ensures { result ≡ is_word token.now }
{
    matches!(token, Token::Word(_))
}

/// Whether no space stands after a token of this role before the next one.
fn holds_next(role: Role, next: &Token) -> bool
    ensures { result ≡ holds_next role next.now }
{
    match role {
        Role::Usual => false,
        Role::Communicates => !is_word(next),
        Role::Prefix | Role::Opens | Role::Closes => true,
    }
}

/// Whether no space stands before a token of this role.
fn holds_last(role: Role) -> bool
    ensures { result ≡ holds_last role }
{
    matches!(role, Role::Closes)
}

fn is_bracket(token: &Token) -> bool
    ensures { result ≡ is_bracket token.now }
{
    matches!(token, Token::Sign(Sign::LeftParen | Sign::LeftBracket))
}

/// Whether no space stands between the token and `(` or `[` after it.
fn takes_bracket(token: &Token) -> bool
    ensures { result ≡ takes_bracket token.now }
{
    match token {
        Token::Name(_) | Token::Int(_) | Token::Real(_) | Token::Text(_) => true,
        Token::Sign(sign) => sign_takes_bracket(*sign),
        Token::Word(keyword) => word_takes_bracket(*keyword),
    }
}

fn sign_takes_bracket(sign: Sign) -> bool
    ensures { result ≡ sign_takes_bracket sign }
{
    matches!(
        sign,
        Sign::RightParen | Sign::RightBracket | Sign::RightBrace
    )
}

fn word_takes_bracket(keyword: Keyword) -> bool
    ensures { result ≡ word_takes_bracket keyword }
{
    matches!(
        keyword,
        Keyword::TrueWord
            | Keyword::FalseWord
            | Keyword::TimeWord
            | Keyword::IntWord
            | Keyword::RealWord
            | Keyword::StringWord
            | Keyword::BoolWord
            | Keyword::TimerWord
            | Keyword::WriteWord
            | Keyword::WritelnWord
            | Keyword::ListWord
            | Keyword::DictWord
            | Keyword::TupleWord
    )
}

/// Whether no space stands between two tokens that stand side by side on a line.
pub fn is_joined(first: &Spot, second: &Spot) -> bool
    ensures { result ≡ is_joined first.now second.now }
{
    closes(&second.token)
        || opens(&first.token)
        || holds_next(first.role, &second.token)
        || holds_last(second.role)
        || (is_bracket(&second.token) && takes_bracket(&first.token))
}
