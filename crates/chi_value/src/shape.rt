/// What of a type tells the default of a variable.
#[derive(Debug, Drop)]
pub enum Shape {
    Bool,
    Int,
    Real,
    Text,
    /// An enumeration, by its number.
    Choice(u32),
    TupleOf(chi_base::Items<Shape>),
    ListOf,
    SetOf,
    DictOf,
    Chan,
    DistBool,
    DistInt,
    DistReal,
    Timer,
    Inst,
}
