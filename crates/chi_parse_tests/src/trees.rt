use chi_base::{Boxed, Items, NoMemory};
use chi_token::{Bytes, Keyword, Place, Sign, Token, spelling};
use chi_tree::{
    Class, Definition, Formal, Item, MOST_BLOCKS, MOST_EXPRESSIONS, Name, Program, TypeTree,
    TypeWord, whole_room,
};
use chi_tree_laws::{
    answer_law, formed_law, grammar_law, last_token_law, nesting_law, one_program_law,
    one_tree_law, parsed_law, parsed_part_law,
};
use chi_tree_spell::{places_law, spell, spelling_law};
use std::alloc::Global;
use std::test::Fail;

const HERE: Place = Place { line: 1, column: 1 };

fn name(alloc: Global, text: &[u8]) -> Result<Name, NoMemory> {
    Ok(Name {
        text: Bytes::copy_of(alloc, text)?,
        place: HERE,
    })
}

fn formal(alloc: Global, ty: Option<Boxed<TypeTree>>, text: &[u8]) -> Result<Formal, NoMemory> {
    let name = name(alloc, text)?;
    Ok(Formal { ty, name })
}

/// `tuple ( int a , b )`
fn two_fields(alloc: Global) -> Result<TypeTree, NoMemory> {
    let int = TypeTree::Word {
        word: TypeWord::Int,
        place: HERE,
    };
    let mut fields = Vec::new(alloc);
    fields.push(formal(alloc, Some(Boxed::new(alloc, int)?), b"a")?)?;
    fields.push(formal(alloc, None, b"b")?)?;
    Ok(TypeTree::Tuple {
        place: HERE,
        fields: Items::of(alloc, fields)?,
    })
}

/// `type pair = tuple ( int a , b )`
fn pair(alloc: Global) -> Result<Definition, NoMemory> {
    let name = name(alloc, b"pair")?;
    let ty = two_fields(alloc)?;
    Ok(Definition::TypeWord {
        place: HERE,
        name,
        ty,
    })
}

/// A tree that no parser made.
fn source(alloc: Global) -> Result<Program, NoMemory> {
    let definition = pair(alloc)?;
    let mut items = Vec::new(alloc);
    items.push(Item {
        definition,
        semicolon: true,
    })?;
    Ok(Program {
        items: Items::of(alloc, items)?,
        last: HERE,
    })
}

#[test]
fn a_tree_is_spelled_token_by_token(rt: HostRuntime) -> Result<(), Fail> {
    let alloc = rt.alloc();
    let tree = source(alloc)?;
    let mut text = Vec::new(alloc);
    for token in spell(alloc, &tree)?.as_slice() {
        spelling(alloc, token, &mut text)?;
        text.push(b' ')?;
    }
    assert_eq!(rt;
        text.as_slice(),
        b"type pair = tuple ( int a , b ) ; ".as_slice()
    );
    Ok(())
}

#[test]
fn each_class_has_a_number_of_its_own(rt: HostRuntime) -> Result<(), Fail> {
    let alloc = rt.alloc();
    let name = Token::Name(Bytes::copy_of(alloc, b"x")?);
    assert_eq!(rt; Class::of(&name), Class::Name);
    assert_eq!(rt;
        Class::of(&Token::Word(Keyword::AltWord)),
        Class::Word(Keyword::AltWord)
    );
    assert_eq!(rt; Class::Name.number(), 0);
    assert_eq!(rt; Class::Sign(Sign::Dot).number(), 27);
    assert_eq!(rt; Class::Word(Keyword::AltWord).number(), 64);
    Ok(())
}

#[test]
fn the_whole_room_is_64_blocks_and_200_expressions(rt: HostRuntime) -> Result<(), Fail> {
    let room = whole_room();
    assert_eq!(rt; (room.blocks, room.expressions), (64, 200));
    assert_eq!(rt;
        (room.blocks, room.expressions),
        (MOST_BLOCKS, MOST_EXPRESSIONS)
    );
    Ok(())
}

#[test]
fn the_laws_hold(_rt: HostRuntime) -> Result<(), Fail> {
    spelling_law();
    places_law();
    formed_law();
    one_tree_law();
    last_token_law();
    parsed_law();
    answer_law();
    nesting_law();
    parsed_part_law();
    grammar_law();
    one_program_law();
    Ok(())
}
