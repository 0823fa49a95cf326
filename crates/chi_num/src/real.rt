ghost use Rattle.std.specs.Prelude.{◌≡◌};

use std::marker::Model;

/// How many units of a real make 1.
pub const UNITS_PER_ONE: i64 = 1_000_000_000;

/// A real of the language: a signed count of units of 10^-9, which contracts see as that count.
#[derive(Clone, Copy, Debug, PartialEq, Eq, PartialOrd, Ord)]
pub struct Real {
    units: i64,
}

impl Model for Real {
    ghost use Rattle.std.specs.Prelude.{ℤ};

    ghost Value = { ℤ };

    ghost view = { λ r. r.units };

    ghost inverse = { λ z. record { units = z } };
}

impl Real {
    /// The real of so many units of 10^-9.
    pub fn from_units(units: i64) -> Real
        ensures same { result ≡ units }
    {
        Real { units }
    }

    /// How many units of 10^-9 it is.
    pub fn units(self) -> i64
        ensures same { result ≡ self }
    {
        self.units
    }
}
