use crate::{CExpr, CTarget};
use chi_base::Items;

/// What a run or start statement starts.
#[derive(Debug, Drop)]
pub enum CElem {
    /// The process of this number with these arguments; its instance is stored in the target.
    Make(Option<CTarget>, u32, Items<CExpr>),
    Unwind(Items<u32>, CExpr, Items<CElem>),
}
