use chi_num::Real;

/// What a distribution gave.
#[derive(Clone, Copy, Debug, PartialEq, Eq)]
pub enum Drawn {
    Bool(bool),
    Int(i64),
    Real(Real),
}
