ghost use Rattle.std.specs.Prelude.{◌≡◌, ◌++◌, codes, OnOk};
ghost use Rattle.std.specs.List.{flat_map, list_any};
ghost use Rattle.chi_explain_syntax.specs.Listing.{class_words, expected_words, is_name, is_semicolon, line_to_end, listed, semicolon_words};

use chi_base::NoMemory;
use chi_explain::put_number;
use chi_token::Sign;
use chi_tree::Class;
use std::alloc::Global;

/// Appends a word or a sign in quotes.
fn put_quoted(spelled: &str, words: &mut Vec<u8>) -> Result<(), NoMemory>
    ensures { OnOk result (words.new.items ≡ words.old.items ++ (codes "`" ++ spelled.now ++ codes "`")) }
{
    words.push(b'`')?;
    words.extend_from_slice(spelled.as_bytes())?;
    words.push(b'`')?;
    Ok(())
}

/// Appends a class as it is listed.
fn put_class(class: Class, words: &mut Vec<u8>) -> Result<(), NoMemory>
    ensures { OnOk result (words.new.items ≡ words.old.items ++ class_words class) }
{
    match class {
        Class::Name => words.extend_from_slice(b"a name")?,
        Class::Int => words.extend_from_slice(b"an int")?,
        Class::Real => words.extend_from_slice(b"a real")?,
        Class::Text => words.extend_from_slice(b"a text")?,
        Class::Word(keyword) => put_quoted(keyword.word(), words)?,
        Class::Sign(sign) => put_quoted(sign.mark(), words)?,
    }
    Ok(())
}

/// Appends classes, each after a comma.
fn put_more(classes: &[Class], words: &mut Vec<u8>) -> Result<(), NoMemory>
    ensures { OnOk result (words.new.items ≡ words.old.items ++ flat_map (λ other. codes ", " ++ class_words other) classes.now) }
{
    for class in classes {
        words.extend_from_slice(b", ")?;
        put_class(*class, words)?;
    }
    Ok(())
}

/// Appends classes, one after the other.
fn put_listed(classes: &[Class], words: &mut Vec<u8>) -> Result<(), NoMemory>
    ensures { OnOk result (words.new.items ≡ words.old.items ++ listed classes.now) }
{
    if let Some((first, more)) = classes.split_first() {
        put_class(*first, words)?;
        put_more(more, words)?;
    }
    Ok(())
}

fn is_name(class: Class) -> bool
    ensures { result ≡ is_name class }
{
    matches!(class, Class::Name)
}

fn is_semicolon(class: Class) -> bool
    ensures { result ≡ is_semicolon class }
{
    matches!(class, Class::Sign(Sign::Semicolon))
}

/// Whether a name is among the classes.
pub fn has_name(classes: &[Class]) -> bool
    ensures { result ≡ list_any is_name classes.now }
{
    for class in classes {
        if is_name(*class) {
            return true;
        }
    }
    false
}

fn has_semicolon(classes: &[Class]) -> bool
    ensures { result ≡ list_any is_semicolon classes.now }
{
    for class in classes {
        if is_semicolon(*class) {
            return true;
        }
    }
    false
}

/// Appends that a `;` could stand at the end of a line, if it could.
fn put_semicolon(alloc: Global, line: Option<u32>, words: &mut Vec<u8>) -> Result<(), NoMemory>
    ensures { OnOk result (words.new.items ≡ words.old.items ++ semicolon_words line) }
{
    if let Some(line) = line {
        words.extend_from_slice(b"`;` at the end of line ")?;
        put_number(alloc, line, words)?;
        words.extend_from_slice(b", or here ")?;
    }
    Ok(())
}

/// The line at whose end a `;` could stand instead, if it could.
fn line_to_end(classes: &[Class], line: Option<u32>) -> Option<u32>
    ensures { result ≡ line_to_end classes.now line }
{
    if has_semicolon(classes) { line } else { None }
}

/// Appends what could stand at a place, where an earlier line ended before it.
pub fn put_expected(
    alloc: Global,
    classes: &[Class],
    line: Option<u32>,
    words: &mut Vec<u8>,
) -> Result<(), NoMemory>
    ensures { OnOk result (words.new.items ≡ words.old.items ++ expected_words classes.now line) }
{
    words.extend_from_slice(b"; expected: ")?;
    put_semicolon(alloc, line_to_end(classes, line), words)?;
    put_listed(classes, words)?;
    Ok(())
}
