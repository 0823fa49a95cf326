use chi_base::Items;
use chi_core::CExpr;
use chi_types::Ty;

/// What an expression comes to.
#[derive(Debug, Drop)]
pub struct Made {
    pub core: CExpr,
    pub ty: Ty,
}

/// What a type tree means: the type, and the sizes of its lists that have one, the innermost first.
#[derive(Debug, Drop)]
pub struct Meant {
    pub ty: Ty,
    pub sizes: Items<CExpr>,
}
