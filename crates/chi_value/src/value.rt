use chi_base::Boxed;
use chi_num::{Dist, Real};
use chi_token::Bytes;

/// How many elements a container, or bytes a string, may have.
pub const MOST_ELEMENTS: usize = 1_048_576;

/// The parts of a tuple, or what a set or a dictionary has, which copies of it share.
pub type Items = chi_base::Shared<Value>;

/// A list of values that grows at its end and shrinks at its front, which copies of it share.
pub type Row = chi_base::Row<Value>;

/// A value of the language. A copy of a string or a container shares what that holds, so that no copy costs more where
/// there is more in it.
#[derive(Debug, Drop)]
pub enum Value {
    Bool(bool),
    Int(i64),
    Real(Real),
    Text(Bytes),
    /// The number of an enumeration, and the position of one of its values.
    Choice(u32, u32),
    TupleOf(Items),
    ListOf(Row),
    /// The elements, ascending.
    SetOf(Items),
    /// The entries as tuples of a key and its value, their keys ascending.
    DictOf(Items),
    /// A channel, by its number.
    Chan(u32),
    /// A distribution, on the heap, so that all other values stay small.
    Dist(Boxed<Dist>),
    /// The time at which the timer is due, in units of 10^-9.
    Timer(i64),
    /// A started process, by the number of its instance, or none.
    Inst(Option<u32>),
}
