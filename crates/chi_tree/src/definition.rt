use crate::expr::Expr;
use crate::statement::Step;
use crate::type_tree::{Formal, Name, TypeTree};
use chi_base::Items;
use chi_token::Place;

/// A source as it is written.
#[derive(Drop)]
pub struct Program {
    pub items: Items<Item>,
    /// That of the last token.
    pub last: Place,
}

/// A definition, and whether a `;` stands after it.
#[derive(Drop)]
pub struct Item {
    pub definition: Definition,
    pub semicolon: bool,
}

/// A definition as it is written. The place is that of its first token.
#[derive(Drop)]
pub enum Definition {
    Enum {
        place: Place,
        name: Name,
        values: Items<Name>,
    },
    Const {
        place: Place,
        ty: TypeTree,
        name: Name,
        /// That of `=`.
        equals: Place,
        value: Expr,
    },
    TypeWord {
        place: Place,
        name: Name,
        ty: TypeTree,
    },
    Func {
        place: Place,
        result_type: TypeTree,
        name: Name,
        formals: Items<Formal>,
        block: Items<Step>,
    },
    Proc {
        place: Place,
        exit_type: Option<TypeTree>,
        name: Name,
        formals: Items<Formal>,
        block: Items<Step>,
    },
    Model {
        place: Place,
        exit_type: Option<TypeTree>,
        name: Name,
        formals: Items<Formal>,
        block: Items<Step>,
    },
    Xper {
        place: Place,
        name: Name,
        block: Items<Step>,
    },
}
