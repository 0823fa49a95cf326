ghost use Rattle.std.specs.Prelude.{FitsSigned};
ghost use Rattle.std.specs.Int.{w64};
ghost use Rattle.std.specs.Option.{SomeIff};
ghost use Rattle.chi_num.specs.Decimal.{signed};

/// A size with a sign, where 64 bits hold it.
pub(super) fn signed(minus: bool, size: u64) -> Option<i64>
    ensures value { SomeIff result (FitsSigned w64 (signed minus size)) (signed minus size) }
{
    if minus {
        0i64.checked_sub_unsigned(size)
    } else {
        0i64.checked_add_unsigned(size)
    }
}
