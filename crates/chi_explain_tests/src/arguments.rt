use chi_explain_arguments::{explain_argument, explain_count, explain_kind};
use chi_types::Ty;
use std::test::Fail;

#[test]
fn arguments_are_explained(rt: HostRuntime) -> Result<(), Fail> {
    let alloc = rt.alloc();
    assert_eq!(rt;
        explain_count(alloc, 2, 3)?.as_slice(),
        b"the model's parameters are 2 in number, and the arguments that are given 3\n".as_slice()
    );
    assert_eq!(rt;
        explain_kind(alloc, 1, &Ty::Timer)?.as_slice(),
        b"parameter 1 of the model is a timer, and an argument can be a bool, an int, a real or a string alone\n".as_slice()
    );
    assert_eq!(rt;
        explain_argument(alloc, 2, &Ty::Bool, b"y\xFFs")?.as_slice(),
        b"argument 2 is not a bool (`true` or `false`): `y?s`\n".as_slice()
    );
    Ok(())
}
