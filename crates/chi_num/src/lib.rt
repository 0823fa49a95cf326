//! The numbers of Chi 3: ints of 64 bits, and reals that count units of a billionth.
#![tactic(auto)]

mod dist;
mod division;
mod fault;
mod fraction;
mod ints;
mod laws;
mod power;
mod product;
mod quotient;
mod range;
mod read;
mod real;
mod reals;
mod rounding;
mod text;
mod text_laws;

pub use dist::Dist;
pub use division::{int_div, int_mod};
pub use fault::NumFault;
pub use ints::{int_abs, int_add, int_mul, int_neg, int_sub};
pub use laws::{real_laws, remainder_laws, results_law, rounding_laws};
pub use power::int_pow;
pub use product::real_mul;
pub use quotient::real_div;
pub use read::{ReadFault, read_int, read_real};
pub use real::Real;
pub use reals::{real_abs, real_add, real_neg, real_of, real_sub};
pub use rounding::{ceil, floor, round};
pub use text::{fixed_text, real_text};
pub use text_laws::{one_number_is_meant, text_numbers_law, texts_read_back};
