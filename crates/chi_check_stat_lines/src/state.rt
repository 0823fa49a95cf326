use crate::growing::Growing;
use chi_base::Items;
use chi_check_types::Scope;
use chi_core::CExpr;
use chi_types::Ty;

/// What binds a variable.
#[derive(Clone, Copy, Debug, PartialEq, Eq)]
pub enum Binder {
    /// A declaration, a header or a walk.
    Variable,
    /// An unwind: what it binds is no target.
    Unwind,
}

/// What is visible at a place of a body, and the types of the slots of its variables so far.
#[derive(Drop)]
pub struct State {
    pub names: Scope,
    pub slots: Growing<Ty>,
}

/// What a walk goes over, and the slots that it fills.
#[derive(Debug, Drop)]
pub struct Opened {
    pub container: CExpr,
    pub slots: Items<u32>,
}
