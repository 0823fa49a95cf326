use chi_base::{Items, NoMemory};
use chi_explain_counts::explain_rule;
use chi_token::Place;
use chi_tree::Program;
use std::alloc::Global;
use std::test::Fail;

/// What is told of a rule with a file in which nothing is counted.
fn told(alloc: Global, source: &[u8], rule: u8, place: Place) -> Result<Vec<u8>, NoMemory> {
    let tree = Program {
        items: Items::of(alloc, Vec::new(alloc))?,
        last: place,
    };
    explain_rule(alloc, b"m.chi", source, &tree, rule, place)
}

#[test]
fn a_broken_rule_is_explained(rt: HostRuntime) -> Result<(), Fail> {
    let place = Place { line: 2, column: 3 };
    let text = told(rt.alloc(), b"model M():\n  count = 1\nend\n", 2, place)?;
    assert_eq!(rt;
        text.as_slice(),
        b"m.chi:2:3: nothing that is visible here has the name `count`; a `type` or `const` sees only types and constants before it, and enumerations: rule 2\n      count = 1\n      ^\n".as_slice()
    );
    let unknown = told(rt.alloc(), b"pass", 43, Place { line: 1, column: 1 })?;
    assert_eq!(rt;
        unknown.as_slice(),
        b"m.chi:1:1: rule 43\n    pass\n    ^\n".as_slice()
    );
    Ok(())
}

#[test]
fn a_new_name_is_explained(rt: HostRuntime) -> Result<(), Fail> {
    let predefined = told(rt.alloc(), b"int size", 1, Place { line: 1, column: 5 })?;
    assert_eq!(rt;
        predefined.as_slice(),
        b"m.chi:1:5: the name `size` can't be given here: it is predefined: rule 1\n    int size\n        ^\n".as_slice()
    );
    let given = told(rt.alloc(), b"int x, x", 1, Place { line: 1, column: 8 })?;
    assert_eq!(rt;
        given.as_slice(),
        b"m.chi:1:8: the name `x` can't be given here: it is visible already, or stands twice: rule 1\n    int x, x\n           ^\n".as_slice()
    );
    Ok(())
}
