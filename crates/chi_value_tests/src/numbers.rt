use chi_num::{
    NumFault, ReadFault, Real, ceil, fixed_text, floor, int_abs, int_add, int_div, int_mod,
    int_mul, int_neg, int_pow, int_sub, read_int, read_real, real_abs, real_add, real_div,
    real_mul, real_neg, real_of, real_sub, real_text, round,
};
use std::test::Fail;

fn real(units: i64) -> Real {
    Real::from_units(units)
}

/// One ordinary row a call, and one for each fault. More are in rows/.
#[test]
fn ints(rt: HostRuntime) {
    for (answer, wanted) in [
        (int_neg(5), Ok(-5)),
        (int_abs(-5), Ok(5)),
        (int_add(1, 2), Ok(3)),
        (int_sub(1, 2), Ok(-1)),
        (int_mul(4611686018427387904, -2), Ok(i64::MIN)),
        (int_div(-7, 2), Ok(-4)),
        (int_mod(-7, 2), Ok(1)),
        (int_pow(2, 62), Ok(4611686018427387904)),
        (int_add(i64::MAX, 1), Err(NumFault::Range)),
        (int_div(5, 0), Err(NumFault::Zero)),
        (int_pow(2, -1), Err(NumFault::Power)),
    ] {
        assert_eq!(rt; answer, wanted);
    }
}

#[test]
fn reals(rt: HostRuntime) {
    for (answer, wanted) in [
        (real_of(3), Ok(real(3_000_000_000))),
        (real_neg(real(1)), Ok(real(-1))),
        (real_abs(real(-1)), Ok(real(1))),
        (real_add(real(1), real(2)), Ok(real(3))),
        (real_sub(real(1), real(2)), Ok(real(-1))),
        (real_mul(real(500_000_000), real(1)), Ok(real(1))),
        (
            real_div(real(2_000_000_000), real(3_000_000_000)),
            Ok(real(666_666_667)),
        ),
        (real_of(9223372037), Err(NumFault::Range)),
        (real_div(real(5), real(0)), Err(NumFault::Zero)),
    ] {
        assert_eq!(rt; answer, wanted);
    }
    assert_eq!(rt; floor(real(-2_500_000_000)), -3);
    assert_eq!(rt; ceil(real(-2_500_000_000)), -2);
    assert_eq!(rt; round(real(-2_500_000_000)), -3);
}

#[test]
fn a_text_goes_to_the_end(rt: HostRuntime) -> Result<(), Fail> {
    let mut text = Vec::from_slice(rt.alloc(), b"at ")?;
    real_text(rt.alloc(), Real::from_units(-500_000_000), &mut text)?;
    fixed_text(rt.alloc(), Real::from_units(1_500_000_000), 0, &mut text)?;
    assert_eq!(rt; text.as_slice(), b"at -0.52".as_slice());
    Ok(())
}

/// More texts are in rows/.
#[test]
fn texts_are_read(rt: HostRuntime) {
    assert_eq!(rt; read_int(b"-17"), Ok(-17));
    assert_eq!(rt; read_int(b"9223372036854775808"), Err(ReadFault::Range));
    assert_eq!(rt; read_int(b"1x"), Err(ReadFault::Form));
    assert_eq!(rt; read_real(b"3.5"), Ok(Real::from_units(3_500_000_000)));
    assert_eq!(rt; read_real(b"9223372036.8547758075"), Err(ReadFault::Range));
    assert_eq!(rt; read_real(b"5."), Err(ReadFault::Form));
}
