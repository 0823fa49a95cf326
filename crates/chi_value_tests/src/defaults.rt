use chi_num::Dist;
use chi_value::{DefaultFault, Shape, Value, default_of};
use std::test::Fail;

#[test]
fn defaults_count_their_channels(rt: HostRuntime) -> Result<(), Fail> {
    let mut parts = Vec::new(rt.alloc());
    parts.push(Shape::Chan)?;
    parts.push(Shape::DistReal)?;
    parts.push(Shape::Chan)?;
    let tuple = Shape::TupleOf(chi_base::Items::of(rt.alloc(), parts)?);
    let (value, channels) = default_of(rt.alloc(), &tuple, 5)?;
    assert_eq!(rt; channels, 7);
    let Value::TupleOf(made) = &value else {
        return Err(Fail::new("no tuple"));
    };
    let [Value::Chan(5), Value::Dist(dist), Value::Chan(6)] = made.as_slice() else {
        return Err(Fail::new("other parts"));
    };
    assert!(rt; matches!(dist.get(), Dist::ConstReal(zero) if zero.units() == 0));
    let full = default_of(rt.alloc(), &tuple, 999_999);
    assert!(rt; matches!(full, Err(DefaultFault::TooManyChannels)));
    let last = default_of(rt.alloc(), &Shape::Chan, 999_999)?;
    assert_eq!(rt; last.1, 1_000_000);
    Ok(())
}
