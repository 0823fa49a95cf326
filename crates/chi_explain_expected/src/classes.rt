ghost use Rattle.std.specs.Prelude.{◌≡◌, ◌++◌, map, IfOk, OnOk};
ghost use Rattle.chi_tree.specs.Classes.{class_of};
ghost use Rattle.chi_tree.specs.declared.class.Class.TheVariants as class;
ghost use Rattle.chi_explain_expected.specs.Expected.{all_classes};

use chi_base::NoMemory;
use chi_token::{Bytes, KEYWORDS, Keyword, SIGNS, Sign, Token};
use chi_tree::Class;
use std::alloc::Global;

/// Appends the class of each sign of a table.
fn put_signs(rows: &[(&'static str, Sign)], classes: &mut Vec<Class>) -> Result<(), NoMemory>
    ensures { OnOk result (classes.new.items ≡ classes.old.items ++ map (λ row. class.Sign row.1) rows.now) }
{
    for row in rows {
        classes.push(Class::Sign(row.1))?;
    }
    Ok(())
}

/// Appends the class of each word of a table.
fn put_words(rows: &[(&'static str, Keyword)], classes: &mut Vec<Class>) -> Result<(), NoMemory>
    ensures { OnOk result (classes.new.items ≡ classes.old.items ++ map (λ row. class.Word row.1) rows.now) }
{
    for row in rows {
        classes.push(Class::Word(row.1))?;
    }
    Ok(())
}

/// All classes of tokens, in the order in which they are told.
#[tactic(auto, unfolding(crate::specs::Expected::all_classes))]
pub fn all_classes(alloc: Global) -> Result<Vec<Class>, NoMemory>
    ensures { IfOk result (λ classes. classes.items ≡ all_classes) }
{
    let mut classes = vec![in alloc; Class::Name, Class::Int, Class::Real, Class::Text]?;
    put_signs(&SIGNS, &mut classes)?;
    put_words(&KEYWORDS, &mut classes)?;
    Ok(classes)
}

/// A token of a class.
pub fn sample(alloc: Global, class: Class) -> Result<Token, NoMemory>
    ensures { IfOk result (λ token. class_of token ≡ class) }
{
    let letter = Bytes::copy_of(alloc, b"x")?;
    Ok(match class {
        Class::Word(keyword) => Token::Word(keyword),
        Class::Sign(sign) => Token::Sign(sign),
        Class::Name => Token::Name(letter),
        Class::Int => Token::Int(letter),
        Class::Real => Token::Real(letter),
        Class::Text => Token::Text(letter),
    })
}
