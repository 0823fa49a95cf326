//! The tokens of what a tree keeps as a word of its own.
ghost use Rattle.std.specs.Prelude.{◌≡◌};
ghost use Rattle.chi_tree_spell.specs.Words.{operator_token, relation_token, prefix_token, cast_token, type_token, truth_token, write_word};

use chi_token::{Keyword, Sign, Token};
use chi_tree::{CastWord, Operator, PrefixSign, RelationSign, TypeWord};

/// The sign or the word that an operator of two operands is written as.
pub fn operator_token(operator: Operator) -> Token
    ensures { result ≡ operator_token operator }
{
    match operator {
        Operator::Or => Token::Word(Keyword::OrWord),
        Operator::And => Token::Word(Keyword::AndWord),
        Operator::Add => Token::Sign(Sign::Plus),
        Operator::Subtract => Token::Sign(Sign::Minus),
        Operator::Multiply => Token::Sign(Sign::Star),
        Operator::Divide => Token::Sign(Sign::Slash),
        Operator::DivideWhole => Token::Word(Keyword::DivWord),
        Operator::Remainder => Token::Word(Keyword::ModWord),
    }
}

/// The sign or the word that a relation is written as.
pub fn relation_token(sign: RelationSign) -> Token
    ensures { result ≡ relation_token sign }
{
    match sign {
        RelationSign::Less => Token::Sign(Sign::Less),
        RelationSign::LessEqual => Token::Sign(Sign::LessEqual),
        RelationSign::Equal => Token::Sign(Sign::Equal),
        RelationSign::NotEqual => Token::Sign(Sign::NotEqual),
        RelationSign::Greater => Token::Sign(Sign::Greater),
        RelationSign::GreaterEqual => Token::Sign(Sign::GreaterEqual),
        RelationSign::In => Token::Word(Keyword::InWord),
        RelationSign::Sub => Token::Word(Keyword::SubWord),
    }
}

/// The sign or the word in front of an operand.
pub fn prefix_token(sign: PrefixSign) -> Token
    ensures { result ≡ prefix_token sign }
{
    match sign {
        PrefixSign::Not => Token::Word(Keyword::NotWord),
        PrefixSign::Minus => Token::Sign(Sign::Minus),
        PrefixSign::Plus => Token::Sign(Sign::Plus),
        PrefixSign::Sample => Token::Word(Keyword::SampleWord),
    }
}

/// The word of a conversion, which is that of the type that it converts to.
pub fn cast_token(word: CastWord) -> Token
    ensures { result ≡ cast_token word }
{
    match word {
        CastWord::Int => Token::Word(Keyword::IntWord),
        CastWord::Real => Token::Word(Keyword::RealWord),
        CastWord::Text => Token::Word(Keyword::StringWord),
        CastWord::Bool => Token::Word(Keyword::BoolWord),
        CastWord::Timer => Token::Word(Keyword::TimerWord),
    }
}

/// The word of a type without parts.
pub fn type_token(word: TypeWord) -> Token
    ensures { result ≡ type_token word }
{
    match word {
        TypeWord::Bool => Token::Word(Keyword::BoolWord),
        TypeWord::Int => Token::Word(Keyword::IntWord),
        TypeWord::Real => Token::Word(Keyword::RealWord),
        TypeWord::Text => Token::Word(Keyword::StringWord),
        TypeWord::Timer => Token::Word(Keyword::TimerWord),
        TypeWord::Inst => Token::Word(Keyword::InstWord),
    }
}

/// The word of a truth value.
pub fn truth_token(truth: bool) -> Token
    ensures { result ≡ truth_token truth }
{
    if truth {
        Token::Word(Keyword::TrueWord)
    } else {
        Token::Word(Keyword::FalseWord)
    }
}

/// The word of a statement that writes, and that ends the line where it says so.
pub fn write_word(ends_line: bool) -> Keyword
    ensures { result ≡ write_word ends_line }
{
    if ends_line {
        Keyword::WritelnWord
    } else {
        Keyword::WriteWord
    }
}
