ghost use Rattle.std.specs.Prelude.{◌≡◌};
ghost use Rattle.chi_token.specs.Keywords.{keyword_of, word_of};

use crate::table::{spelling_at, value_of};

/// The words that are no names. Each variant is its word with `Word` after it.
#[derive(Clone, Copy, PartialEq, Eq, Debug)]
pub enum Keyword {
    AltWord,
    AndWord,
    BoolWord,
    BreakWord,
    ChanWord,
    ConstWord,
    ContinueWord,
    DelayWord,
    DictWord,
    DistWord,
    DivWord,
    ElifWord,
    ElseWord,
    EndWord,
    EnumWord,
    ExitWord,
    FalseWord,
    FinishWord,
    ForWord,
    FuncWord,
    IfWord,
    InWord,
    InstWord,
    IntWord,
    ListWord,
    ModWord,
    ModelWord,
    NotWord,
    OrWord,
    PassWord,
    ProcWord,
    RealWord,
    ReturnWord,
    RunWord,
    SampleWord,
    SelectWord,
    SetWord,
    StartWord,
    StringWord,
    SubWord,
    TimeWord,
    TimerWord,
    TrueWord,
    TupleWord,
    TypeWord,
    UnwindWord,
    VoidWord,
    WhileWord,
    WriteWord,
    WritelnWord,
    XperWord,
}

/// Each keyword's word, in the order of the enumeration. Reading and spelling both go by this table.
pub static KEYWORDS: [(&str, Keyword); 51] = [
    ("alt", Keyword::AltWord),
    ("and", Keyword::AndWord),
    ("bool", Keyword::BoolWord),
    ("break", Keyword::BreakWord),
    ("chan", Keyword::ChanWord),
    ("const", Keyword::ConstWord),
    ("continue", Keyword::ContinueWord),
    ("delay", Keyword::DelayWord),
    ("dict", Keyword::DictWord),
    ("dist", Keyword::DistWord),
    ("div", Keyword::DivWord),
    ("elif", Keyword::ElifWord),
    ("else", Keyword::ElseWord),
    ("end", Keyword::EndWord),
    ("enum", Keyword::EnumWord),
    ("exit", Keyword::ExitWord),
    ("false", Keyword::FalseWord),
    ("finish", Keyword::FinishWord),
    ("for", Keyword::ForWord),
    ("func", Keyword::FuncWord),
    ("if", Keyword::IfWord),
    ("in", Keyword::InWord),
    ("inst", Keyword::InstWord),
    ("int", Keyword::IntWord),
    ("list", Keyword::ListWord),
    ("mod", Keyword::ModWord),
    ("model", Keyword::ModelWord),
    ("not", Keyword::NotWord),
    ("or", Keyword::OrWord),
    ("pass", Keyword::PassWord),
    ("proc", Keyword::ProcWord),
    ("real", Keyword::RealWord),
    ("return", Keyword::ReturnWord),
    ("run", Keyword::RunWord),
    ("sample", Keyword::SampleWord),
    ("select", Keyword::SelectWord),
    ("set", Keyword::SetWord),
    ("start", Keyword::StartWord),
    ("string", Keyword::StringWord),
    ("sub", Keyword::SubWord),
    ("time", Keyword::TimeWord),
    ("timer", Keyword::TimerWord),
    ("true", Keyword::TrueWord),
    ("tuple", Keyword::TupleWord),
    ("type", Keyword::TypeWord),
    ("unwind", Keyword::UnwindWord),
    ("void", Keyword::VoidWord),
    ("while", Keyword::WhileWord),
    ("write", Keyword::WriteWord),
    ("writeln", Keyword::WritelnWord),
    ("xper", Keyword::XperWord),
];

impl Keyword {
    /// The word that spells this keyword.
    #[tactic(auto, unfolding(crate::specs::Keywords::word_of))]
    pub fn word(self) -> &'static str
        ensures { result.now ≡ word_of self }
    {
        spelling_at(&KEYWORDS, self as usize)
    }

    /// The keyword that these bytes spell, if they spell one.
    #[tactic(auto, unfolding(crate::specs::Keywords::keyword_of))]
    pub fn of(text: &[u8]) -> Option<Keyword>
        ensures { result ≡ keyword_of text.now }
    {
        value_of(&KEYWORDS, text)
    }
}
