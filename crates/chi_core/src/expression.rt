use crate::OpName;
use chi_base::{Boxed, Items};
use chi_value::{Kind, Shape, Value};

/// An expression.
#[derive(Debug, Drop)]
pub enum CExpr {
    Lit(Value),
    /// The value of a slot.
    Var(u32),
    /// The value of a constant, by its number.
    Const(u32),
    Op(OpName, Items<CExpr>),
    /// The second only where the first is true.
    And(Boxed<CExpr>, Boxed<CExpr>),
    /// The second only where the first is false.
    Or(Boxed<CExpr>, Boxed<CExpr>),
    /// A literal of its parts.
    Build(Kind, Items<CExpr>),
    /// The part of a tuple.
    Part(Boxed<CExpr>, u32),
    /// A call of the function of this number.
    Call(u32, Items<CExpr>),
    /// A list, an element, and the function that says before which others it stands.
    InsertBy(Boxed<CExpr>, Boxed<CExpr>, u32),
    /// A fresh default of a shape.
    Default(Shape),
    /// A list of so many values, each evaluated anew.
    Repeat(Boxed<CExpr>, Boxed<CExpr>),
}
