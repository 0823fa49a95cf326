use crate::{CExpr, CStat, CTarget};
use chi_base::Items;
use chi_token::Bytes;
use chi_types::Ty;

/// An experiment, which runs models. Its variables are numbered slots.
#[derive(Debug, Drop)]
pub struct XperDef {
    pub name: Bytes,
    /// The type of each slot.
    pub slots: Items<Ty>,
    pub body: Items<XStat>,
}

/// A statement of an experiment. The first field of those with blocks and of runs is their line, counted from 1.
#[derive(Debug, Drop)]
#[cycle(experiment)]
pub enum XStat {
    /// A statement without blocks: a declaration, an assignment, a `break`, `continue`, `pass` or a write.
    Line(CStat),
    /// The block of the first branch whose test is true, or else the last block.
    If(u32, Items<XBranch>, Items<XStat>),
    While(u32, CExpr, Items<XStat>),
    /// The slots that each element of the container fills in turn.
    For(u32, Items<u32>, CExpr, Items<XStat>),
    /// Runs a model by its number with these arguments, and stores the value of its exit into the
    /// target, converted to a real where the last field is true.
    RunModel(u32, CTarget, u32, Items<CExpr>, bool),
}

/// A test, and what is done where it is the first that is true.
#[derive(Debug, Drop)]
#[cycle(experiment)]
pub struct XBranch {
    pub test: CExpr,
    pub block: Items<XStat>,
}
