use chi_base::{Boxed, Items};
use chi_token::Bytes;

/// What a channel may be used for.
#[derive(Clone, Copy, Debug, PartialEq, Eq)]
pub enum Way {
    Both,
    Send,
    Receive,
}

/// A type, with type names already looked up.
#[derive(Debug, Drop)]
pub enum Ty {
    Bool,
    Int,
    Real,
    Text,
    Timer,
    Inst,
    /// What a channel carries that only synchronises.
    Void,
    /// An enumeration, by its number.
    Choice(u32),
    /// The parts with their names, an empty one where a part has none.
    TupleOf(Items<(Bytes, Ty)>),
    ListOf(Boxed<Ty>),
    SetOf(Boxed<Ty>),
    /// The type of the keys, and that of the values.
    DictOf(Boxed<Ty>, Boxed<Ty>),
    /// The type of what is sent, `Void` where nothing is.
    Chan(Way, Boxed<Ty>),
    Dist(Boxed<Ty>),
}
