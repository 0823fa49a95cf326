/// How far a run goes outside of all functions.
#[derive(Clone, Copy, Debug)]
pub enum Extent {
    /// Until what is no part of an expression.
    Expressions,
    /// Until what only an instance does.
    Statements,
}
