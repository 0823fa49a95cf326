use crate::CExpr;
use chi_base::Items;

/// A variable, or a part of one.
#[derive(Debug, Drop)]
pub struct CTarget {
    pub slot: u32,
    pub steps: Items<CStep>,
}

/// A step into a part.
#[derive(Debug, Drop)]
pub enum CStep {
    /// To the element at an index, or to what a key has.
    Index(CExpr),
    /// To the part of a tuple.
    Part(u32),
}
