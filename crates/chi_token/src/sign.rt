ghost use Rattle.std.specs.Prelude.{◌≡◌};
ghost use Rattle.chi_token.specs.Signs.{mark_of, sign_of};

use crate::table::{spelling_at, value_of};

/// The tokens that are made of one or two punctuation marks, named after their usual reading.
#[derive(Clone, Copy, PartialEq, Eq, Debug)]
pub enum Sign {
    LeftParen,
    RightParen,
    LeftBracket,
    RightBracket,
    LeftBrace,
    RightBrace,
    Less,
    LessEqual,
    Equal,
    NotEqual,
    Greater,
    GreaterEqual,
    Assign,
    Plus,
    Minus,
    Star,
    Slash,
    Caret,
    Bang,
    Question,
    Comma,
    Semicolon,
    Colon,
    Dot,
}

/// Each sign's mark, in the order of the enumeration. Reading and spelling both go by this table.
pub static SIGNS: [(&str, Sign); 24] = [
    ("(", Sign::LeftParen),
    (")", Sign::RightParen),
    ("[", Sign::LeftBracket),
    ("]", Sign::RightBracket),
    ("{", Sign::LeftBrace),
    ("}", Sign::RightBrace),
    ("<", Sign::Less),
    ("<=", Sign::LessEqual),
    ("==", Sign::Equal),
    ("!=", Sign::NotEqual),
    (">", Sign::Greater),
    (">=", Sign::GreaterEqual),
    ("=", Sign::Assign),
    ("+", Sign::Plus),
    ("-", Sign::Minus),
    ("*", Sign::Star),
    ("/", Sign::Slash),
    ("^", Sign::Caret),
    ("!", Sign::Bang),
    ("?", Sign::Question),
    (",", Sign::Comma),
    (";", Sign::Semicolon),
    (":", Sign::Colon),
    (".", Sign::Dot),
];

impl Sign {
    /// The mark that spells this sign.
    #[tactic(auto, unfolding(crate::specs::Signs::mark_of))]
    pub fn mark(self) -> &'static str
        ensures { result.now ≡ mark_of self }
    {
        spelling_at(&SIGNS, self as usize)
    }

    /// The sign that these bytes spell, if they spell one.
    #[tactic(auto, unfolding(crate::specs::Signs::sign_of))]
    pub fn of(text: &[u8]) -> Option<Sign>
        ensures { result ≡ sign_of text.now }
    {
        value_of(&SIGNS, text)
    }
}
