//! The levels of operators that group from the left.
ghost use Rattle.std.specs.Prelude.{◌≡◌};
ghost use Rattle.chi_tree.specs.Begins.{begins};
ghost use Rattle.chi_parse_expr.specs.Grouping.{link_part};

use chi_parse_look::classes::{AND, OR, PRODUCT_SIGNS, SUM_SIGNS};
use chi_tree::Class;

/// A level of operators that group from the left, from the one that binds least on.
#[derive(Clone, Copy)]
pub enum ChainLevel {
    Or,
    And,
    Sum,
    Product,
}

impl ChainLevel {
    /// The operators of the level.
    pub fn signs(self) -> &'static [Class]
        ensures { result.now ≡ begins (link_part self) }
    {
        match self {
            ChainLevel::Or => &[OR],
            ChainLevel::And => &[AND],
            ChainLevel::Sum => &SUM_SIGNS,
            ChainLevel::Product => &PRODUCT_SIGNS,
        }
    }
}
