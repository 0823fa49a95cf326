use crate::{CComm, CElem, CExpr, CTarget};
use chi_base::Items;
use chi_value::Piece;

/// A statement. Its first field is its line, counted from 1.
#[derive(Debug, Drop)]
#[cycle(statement)]
pub enum CStat {
    /// Sets the slot to its initial value.
    Declare(u32, u32, CExpr),
    /// Stores values into targets: as many of one as of the other, or one tuple into several targets.
    Assign(u32, Items<CTarget>, Items<CExpr>),
    /// The block of the first branch whose test is true, or else the last block.
    If(u32, Items<Branch>, Items<CStat>),
    While(u32, CExpr, Items<CStat>),
    /// The slots that each element of the container fills in turn.
    For(u32, Items<u32>, CExpr, Items<CStat>),
    Break(u32),
    Continue(u32),
    Pass(u32),
    Return(u32, CExpr),
    Exit(u32, Option<CExpr>),
    /// Appends a text to the output: its pieces, with the values that they show.
    Write(u32, Items<Piece>, Items<CExpr>),
    /// Offers each alternative, and waits until one of them is taken. A send, a receive and a delay
    /// that stand alone are selects of one alternative.
    Select(u32, Items<CAlt>),
    /// Starts processes in order, and waits until all have finished.
    Run(u32, Items<CElem>),
    /// Starts processes in order.
    Start(u32, Items<CElem>),
    /// Waits until the instances have finished.
    Finish(u32, Items<CExpr>),
}

/// A test, and what is done where it is the first that is true.
#[derive(Debug, Drop)]
#[cycle(statement)]
pub struct Branch {
    pub test: CExpr,
    pub block: Items<CStat>,
}

/// An alternative of a select: what is offered, where a guard holds, and what is done once it is
/// taken; or alternatives for each element of a container.
#[derive(Debug, Drop)]
#[cycle(statement)]
pub enum CAlt {
    Guarded(Option<CExpr>, CComm, Items<CStat>),
    Unwind(Items<u32>, CExpr, Items<CAlt>),
}
