ghost use Rattle.std.specs.Prelude.{◌≡◌};
ghost use Rattle.chi_tree.specs.Classes.{class_of, number_of};

use chi_token::{Keyword, Sign, Token};

/// The kind of a token, which is all that the grammar looks at.
#[derive(Clone, Copy, Debug, PartialEq, Eq)]
pub enum Class {
    Word(Keyword),
    Sign(Sign),
    Name,
    Int,
    Real,
    Text,
}

impl Class {
    /// The kind of a token: a word and a sign by what they are, the others whatever they hold.
    pub fn of(token: &Token) -> Class
        ensures class { result ≡ class_of token.now }
    {
        match token {
            Token::Word(keyword) => Class::Word(*keyword),
            Token::Name(_) => Class::Name,
            Token::Int(_) => Class::Int,
            Token::Real(_) => Class::Real,
            Token::Text(_) => Class::Text,
            Token::Sign(sign) => Class::Sign(*sign),
        }
    }

    /// The number by which the grammar names the class. No two classes have the same.
    pub fn number(self) -> u32
        ensures number { result ≡ number_of self }
    {
        match self {
            Class::Name => 0,
            Class::Int => 1,
            Class::Real => 2,
            Class::Text => 3,
            Class::Sign(sign) => 4 + sign as u32,
            Class::Word(keyword) => 64 + keyword as u32,
        }
    }
}
