use crate::build::list;
use chi_value::compare_any;
use std::cmp::Ordering;
use std::test::Fail;

/// More pairs are in rows/.
#[test]
fn alike_values_have_an_order(rt: HostRuntime) -> Result<(), Fail> {
    let low = list(rt.alloc(), &[1, 2])?;
    let high = list(rt.alloc(), &[1, 2, 0])?;
    assert_eq!(rt; compare_any(&low, &high), Ordering::Less);
    assert_eq!(rt; compare_any(&high, &low), Ordering::Greater);
    assert_eq!(rt; compare_any(&low, &low), Ordering::Equal);
    Ok(())
}
