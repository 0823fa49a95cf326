use chi_base::{Boxed, NoMemory};
use chi_types::{Ty, Way, depth, fits, is_plain, joined, same};
use std::alloc::Global;
use std::test::Fail;

fn list_of(alloc: Global, element: Ty) -> Result<Ty, NoMemory> {
    Ok(Ty::ListOf(Boxed::new(alloc, element)?))
}

fn channel(alloc: Global, way: Way, element: Ty) -> Result<Ty, NoMemory> {
    Ok(Ty::Chan(way, Boxed::new(alloc, element)?))
}

/// A type by its number. More types are in rows/.
fn example(alloc: Global, number: u32) -> Result<Ty, NoMemory> {
    match number {
        0 => Ok(Ty::Int),
        1 => Ok(Ty::Real),
        2 => list_of(alloc, Ty::Int),
        3 => channel(alloc, Way::Both, Ty::Void),
        _ => channel(alloc, Way::Send, Ty::Void),
    }
}

#[test]
fn pairs_of_types_fit_and_join(rt: HostRuntime) -> Result<(), Fail> {
    // given, wanted, fits, are the same, have a type in common; and the depth of the given one, and whether it is plain
    let rows = [
        (0, 1, true, false, true, 1, true),
        (2, 2, true, true, true, 2, true),
        (3, 4, true, false, false, 2, false),
    ];
    for (given, wanted, fit, alike, common, deep, plain) in rows {
        let a = example(rt.alloc(), given)?;
        let b = example(rt.alloc(), wanted)?;
        assert_eq!(rt; fits(&a, &b), fit, "{given} fits {wanted}");
        assert_eq!(rt; same(&a, &b), alike, "{given} same as {wanted}");
        let met = joined(rt.alloc(), &a, &b)?.is_some();
        assert_eq!(rt; met, common, "{given} joined with {wanted}");
        assert_eq!(rt; depth(&a), deep, "depth of {given}");
        assert_eq!(rt; is_plain(&a), plain, "{given} is plain");
        assert!(rt; same(&a.copy(rt.alloc())?, &a), "copy of {given}");
    }
    Ok(())
}
