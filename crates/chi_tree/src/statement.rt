use crate::expr::{Expr, Postfix};
use crate::type_tree::{Name, TypeTree};
use chi_base::{Boxed, Items};
use chi_token::{Bytes, Place};

/// Statements in turn.
pub type Block = Items<Step>;

/// A statement, and whether a `;` stands after it.
#[derive(Drop)]
#[cycle(statement)]
pub struct Step {
    pub statement: Statement,
    pub semicolon: bool,
}

/// A statement as it is written. The first place is that of its first token; a statement that begins with a type or a
/// target has its first place there.
#[derive(Drop)]
#[cycle(statement)]
pub enum Statement {
    Declare {
        ty: TypeTree,
        variables: Items<Variable>,
    },
    Assign {
        targets: Items<Target>,
        /// That of `=`.
        equals: Place,
        values: Items<Expr>,
    },
    Communicate(Communication),
    Pass(Place),
    Break(Place),
    Continue(Place),
    Select {
        place: Place,
        alternatives: Items<Alternative>,
    },
    If {
        place: Place,
        /// That of `if`, and that of each `elif`.
        branches: Items<Branch>,
        /// The block of `else`, empty where there is none.
        otherwise: Items<Step>,
    },
    While {
        place: Place,
        condition: Expr,
        block: Items<Step>,
    },
    For {
        place: Place,
        walk: Walk,
        block: Items<Step>,
    },
    Return {
        place: Place,
        value: Expr,
    },
    Exit {
        place: Place,
        value: Option<Expr>,
    },
    Run {
        place: Place,
        elements: Items<Element>,
    },
    Start {
        place: Place,
        elements: Items<Element>,
    },
    Finish {
        place: Place,
        instances: Items<Expr>,
    },
    Write {
        place: Place,
        /// Whether the word is `writeln`.
        ends_line: bool,
        format: Bytes,
        format_place: Place,
        values: Items<Expr>,
    },
}

/// A declared variable.
#[derive(Drop)]
pub struct Variable {
    pub name: Name,
    pub initial: Option<Initial>,
}

/// An initial value.
#[derive(Drop)]
pub struct Initial {
    /// That of `=`.
    pub equals: Place,
    pub value: Expr,
}

/// A variable, or a part of one: each step is an index or a field.
#[derive(Drop)]
pub struct Target {
    pub name: Name,
    pub steps: Items<Postfix>,
}

/// What an instance may do with another, or wait for. The place is that of `!`, `?` or `delay`.
#[derive(Drop)]
pub enum Communication {
    Send {
        target: Target,
        place: Place,
        value: Option<Expr>,
    },
    Receive {
        target: Target,
        place: Place,
        name: Option<Name>,
    },
    Delay {
        place: Place,
        length: Expr,
    },
}

/// A condition and what is done where it holds.
#[derive(Drop)]
#[cycle(statement)]
pub struct Branch {
    pub condition: Expr,
    pub block: Items<Step>,
}

/// Names for the elements of a container in turn.
#[derive(Drop)]
pub struct Walk {
    pub names: Items<Name>,
    pub container: Expr,
}

/// An alternative of a select.
#[derive(Drop)]
#[cycle(statement)]
pub enum Alternative {
    Guarded {
        guard: Option<Expr>,
        communication: Communication,
        /// Empty where there is none.
        block: Items<Step>,
    },
    Unwind {
        /// That of `unwind`.
        place: Place,
        walk: Walk,
        /// Those for each element of the walk's container.
        alternatives: Items<Alternative>,
    },
}

/// What is run or started.
#[derive(Drop)]
pub enum Element {
    Make {
        target: Option<Target>,
        name: Name,
        arguments: Items<Expr>,
    },
    Unwind {
        /// That of `unwind`.
        place: Place,
        walk: Walk,
        /// Those for each element of the walk's container.
        elements: Items<Element>,
    },
}
