use crate::expr::Expr;
use chi_base::{Boxed, Items};
use chi_token::{Bytes, Place};

/// A name where it stands.
#[derive(Drop)]
pub struct Name {
    pub text: Bytes,
    pub place: Place,
}

/// A type that is one word.
#[derive(Clone, Copy, Debug, PartialEq, Eq)]
pub enum TypeWord {
    Bool,
    Int,
    Real,
    Text,
    Timer,
    Inst,
}

/// What a channel may be used for.
#[derive(Clone, Copy, Debug, PartialEq, Eq)]
pub enum Way {
    Both,
    /// `chan!`
    Send,
    /// `chan?`
    Receive,
}

/// A type as it is written. The place is that of its first token.
#[derive(Drop)]
#[cycle(expr)]
pub enum TypeTree {
    Word {
        word: TypeWord,
        place: Place,
    },
    /// By the name of its definition.
    Defined(Name),
    List {
        place: Place,
        /// In brackets, where one is written.
        size: Option<Boxed<Expr>>,
        element: Boxed<TypeTree>,
    },
    Set {
        place: Place,
        element: Boxed<TypeTree>,
    },
    Dist {
        place: Place,
        drawn: Boxed<TypeTree>,
    },
    Dict {
        place: Place,
        key: Boxed<TypeTree>,
        value: Boxed<TypeTree>,
    },
    /// Two fields at least.
    Tuple {
        place: Place,
        fields: Items<Formal>,
    },
    Chan {
        place: Place,
        way: Way,
        /// None for `void`.
        carried: Option<Boxed<TypeTree>>,
    },
}

/// A formal or a field. Its type stands before it, or it stands after a comma and has the type of the one before it.
#[derive(Drop)]
#[cycle(expr)]
pub struct Formal {
    pub ty: Option<Boxed<TypeTree>>,
    pub name: Name,
}
