//! What single tokens stand for in the tree, and nodes with one or two expressions below them.
ghost use Rattle.std.specs.Prelude.{◌≡◌, true, Some, IfOk};
ghost use Rattle.chi_tree.specs.Statements.{is_some};
ghost use Rattle.chi_tree.specs.Tokens.{operator_of, relation_of, prefix_of, cast_of, type_word_of, way_of, literal_of};
ghost use Rattle.chi_tree.specs.View.{chained, parted};

use chi_base::{Boxed, Items, NoMemory};
use chi_token::{Keyword, Place, Sign, Spanned, Token};
use chi_tree::{CastWord, Expr, Link, Operator, Postfix, PrefixSign, RelationSign, TypeWord, Way};
use std::alloc::Global;

pub fn operator_of(token: &Token) -> Operator
    requires { is_some (operator_of token.now) ≡ true }
    ensures { operator_of token.now ≡ Some result }
{
    match token {
        Token::Word(Keyword::OrWord) => Operator::Or,
        Token::Word(Keyword::AndWord) => Operator::And,
        Token::Sign(Sign::Plus) => Operator::Add,
        Token::Sign(Sign::Minus) => Operator::Subtract,
        Token::Sign(Sign::Star) => Operator::Multiply,
        Token::Sign(Sign::Slash) => Operator::Divide,
        Token::Word(Keyword::DivWord) => Operator::DivideWhole,
        Token::Word(Keyword::ModWord) => Operator::Remainder,
        _ => unreachable!(),
    }
}

pub fn relation_of(token: &Token) -> RelationSign
    requires { is_some (relation_of token.now) ≡ true }
    ensures { relation_of token.now ≡ Some result }
{
    match token {
        Token::Sign(Sign::Less) => RelationSign::Less,
        Token::Sign(Sign::LessEqual) => RelationSign::LessEqual,
        Token::Sign(Sign::Equal) => RelationSign::Equal,
        Token::Sign(Sign::NotEqual) => RelationSign::NotEqual,
        Token::Sign(Sign::Greater) => RelationSign::Greater,
        Token::Sign(Sign::GreaterEqual) => RelationSign::GreaterEqual,
        Token::Word(Keyword::InWord) => RelationSign::In,
        Token::Word(Keyword::SubWord) => RelationSign::Sub,
        _ => unreachable!(),
    }
}

pub fn prefix_of(token: &Token) -> PrefixSign
    requires { is_some (prefix_of token.now) ≡ true }
    ensures { prefix_of token.now ≡ Some result }
{
    match token {
        Token::Word(Keyword::NotWord) => PrefixSign::Not,
        Token::Sign(Sign::Minus) => PrefixSign::Minus,
        Token::Sign(Sign::Plus) => PrefixSign::Plus,
        Token::Word(Keyword::SampleWord) => PrefixSign::Sample,
        _ => unreachable!(),
    }
}

pub fn cast_of(token: &Token) -> CastWord
    requires { is_some (cast_of token.now) ≡ true }
    ensures { cast_of token.now ≡ Some result }
{
    match token {
        Token::Word(Keyword::IntWord) => CastWord::Int,
        Token::Word(Keyword::RealWord) => CastWord::Real,
        Token::Word(Keyword::StringWord) => CastWord::Text,
        Token::Word(Keyword::BoolWord) => CastWord::Bool,
        Token::Word(Keyword::TimerWord) => CastWord::Timer,
        _ => unreachable!(),
    }
}

pub fn type_word_of(token: &Token) -> TypeWord
    requires { is_some (type_word_of token.now) ≡ true }
    ensures { type_word_of token.now ≡ Some result }
{
    match token {
        Token::Word(Keyword::BoolWord) => TypeWord::Bool,
        Token::Word(Keyword::IntWord) => TypeWord::Int,
        Token::Word(Keyword::RealWord) => TypeWord::Real,
        Token::Word(Keyword::StringWord) => TypeWord::Text,
        Token::Word(Keyword::TimerWord) => TypeWord::Timer,
        Token::Word(Keyword::InstWord) => TypeWord::Inst,
        _ => unreachable!(),
    }
}

pub fn way_of(token: &Token) -> Way
    requires { is_some (way_of token.now) ≡ true }
    ensures { way_of token.now ≡ Some result }
{
    match token {
        Token::Sign(Sign::Bang) => Way::Send,
        Token::Sign(Sign::Question) => Way::Receive,
        _ => unreachable!(),
    }
}

/// A literal of one token.
pub fn literal_of(spanned: &Spanned) -> Result<Expr, NoMemory>
    requires { is_some (literal_of spanned.now.token spanned.now.place) ≡ true }
    ensures { IfOk result (λ e. literal_of spanned.now.token spanned.now.place ≡ Some e) }
{
    let place = spanned.place;
    match &spanned.token {
        Token::Int(digits) => {
            let digits = digits.copy()?;
            Ok(Expr::Int { digits, place })
        }
        Token::Real(digits) => {
            let digits = digits.copy()?;
            Ok(Expr::Real { digits, place })
        }
        Token::Text(text) => {
            let bytes = text.copy()?;
            Ok(Expr::Text { bytes, place })
        }
        Token::Word(Keyword::TrueWord) => Ok(Expr::Bool { truth: true, place }),
        Token::Word(Keyword::FalseWord) => Ok(Expr::Bool {
            truth: false,
            place,
        }),
        Token::Word(Keyword::TimeWord) => Ok(Expr::Time(place)),
        _ => unreachable!(),
    }
}

/// An expression with the links after it, where there are any.
pub fn chained(alloc: Global, first: Expr, links: Items<Link>) -> Result<Expr, NoMemory>
    ensures { IfOk result (λ e. e ≡ chained first links) }
{
    if links.as_slice().is_empty() {
        return Ok(first);
    }
    let first = Boxed::new(alloc, first)?;
    Ok(Expr::Chain { first, links })
}

/// An expression with the indexes, slices and fields after it, where there are any.
pub fn parted(alloc: Global, whole: Expr, parts: Items<Postfix>) -> Result<Expr, NoMemory>
    ensures { IfOk result (λ e. e ≡ parted whole parts) }
{
    if parts.as_slice().is_empty() {
        return Ok(whole);
    }
    let whole = Boxed::new(alloc, whole)?;
    Ok(Expr::Part {
        whole,
        postfixes: parts,
    })
}
