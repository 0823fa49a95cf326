use crate::sums::{parse_all, parse_line, parse_sum};
use crate::{
    Nesting, ParseFault, Room, front_law, one_answer_law, one_tree_law, room_law, whole_answer_law,
};
use chi_base::NoMemory;
use std::test::Fail;

#[test]
fn the_longest_sum_is_read(rt: HostRuntime) -> Result<(), Fail> {
    let room = Room {
        blocks: 0,
        expressions: 2,
    };
    let rows: [(&str, &[u8], Result<(bool, u32), ParseFault>); 8] = [
        ("", &[], Err(ParseFault::Syntax(0))),
        ("1 + 1", &[0, 1, 0], Ok((false, 3))),
        ("1 1", &[0, 0], Ok((false, 1))),
        ("(1) + 1)", &[2, 0, 3, 1, 0, 3], Ok((true, 5))),
        ("1 +", &[0, 1], Err(ParseFault::Syntax(2))),
        ("(1 1", &[2, 0, 0], Err(ParseFault::Syntax(2))),
        (
            "(((1)))",
            &[2, 2, 2, 0, 3, 3, 3],
            Err(ParseFault::TooDeep(2)),
        ),
        ("((+", &[2, 2, 1], Err(ParseFault::Syntax(2))),
    ];
    for (text, tokens, answer) in rows {
        assert_eq!(rt; parse_sum(tokens, 0, room), answer, "{text}");
    }
    Ok(())
}

#[test]
fn a_stop_may_be_left_out_after_a_bracket(rt: HostRuntime) -> Result<(), Fail> {
    let room = Room {
        blocks: 0,
        expressions: 1,
    };
    let rows: [(&str, &[u8], Result<(bool, u32), ParseFault>); 5] = [
        ("1;", &[0, 4], Ok((false, 2))),
        ("+ (1);", &[1, 2, 0, 3, 4], Ok((true, 5))),
        ("(1) 1", &[2, 0, 3, 0], Ok((true, 3))),
        ("1 1", &[0, 0], Err(ParseFault::Syntax(1))),
        ("+ +", &[1, 1], Err(ParseFault::Syntax(1))),
    ];
    for (text, tokens, answer) in rows {
        assert_eq!(rt; parse_line(tokens, 0, room), answer, "{text}");
    }
    Ok(())
}

#[test]
fn all_tokens_are_read(rt: HostRuntime) -> Result<(), Fail> {
    let room = Room {
        blocks: 0,
        expressions: 1,
    };
    let rows: [(&str, &[u8], Result<bool, ParseFault>); 3] = [
        ("(1)", &[2, 0, 3], Ok(true)),
        ("1 1", &[0, 0], Err(ParseFault::Syntax(1))),
        ("1 + ((", &[0, 1, 2, 2], Err(ParseFault::TooDeep(3))),
    ];
    for (text, tokens, answer) in rows {
        assert_eq!(rt; parse_all(tokens, room), answer, "{text}");
    }
    Ok(())
}

#[test]
fn a_room_has_one_level_less_inside(rt: HostRuntime) -> Result<(), Fail> {
    let room = Room {
        blocks: 1,
        expressions: 0,
    };
    assert_eq!(rt;
        room.inside(Nesting::Block),
        Some(Room {
            blocks: 0,
            expressions: 0
        })
    );
    assert_eq!(rt; room.inside(Nesting::Expression), None);
    assert_eq!(rt; ParseFault::from(NoMemory), ParseFault::NoMemory);
    Ok(())
}

#[test]
fn the_laws_hold_of_any_grammar() {
    one_tree_law::<u8, u8>();
    front_law::<u8, u8>();
    room_law::<u8, u8>();
    one_answer_law::<u8, u8, bool>();
    whole_answer_law::<u8, u8, bool>();
}
