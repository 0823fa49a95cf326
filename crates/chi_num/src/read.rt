//! Texts as numbers: an int, or a real rounded to the nearest unit.

mod digits;
mod fault;
mod int;
mod numeral;
mod real;
mod signed;

pub use fault::ReadFault;
pub use int::read_int;
pub use real::read_real;
