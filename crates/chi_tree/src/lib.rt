//! The concrete tree of a source: what each alternative of the grammar has built of which tokens, so
//! that its spelling is that of the source, token by token.
#![tactic(auto)]

mod class;
mod definition;
mod expr;
mod limits;
mod operator;
mod statement;
mod type_tree;

pub use class::Class;
pub use definition::{Definition, Item, Program};
pub use expr::{Entry, Expr, Link, Postfix};
pub use limits::{MOST_BLOCKS, MOST_EXPRESSIONS, whole_room};
pub use operator::{CastWord, Operator, PrefixSign, RelationSign};
pub use statement::{
    Alternative, Block, Branch, Communication, Element, Initial, Statement, Step, Target, Variable,
    Walk,
};
pub use type_tree::{Formal, Name, TypeTree, TypeWord, Way};
