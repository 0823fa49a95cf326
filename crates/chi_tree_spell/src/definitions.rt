ghost use Rattle.std.specs.Prelude.{◌≡◌, ◌++◌, OnOk, map};
ghost use Rattle.std.specs.Option.{option_map};
ghost use Rattle.chi_tree_spell.specs.Words.{all};
ghost use Rattle.chi_tree_spell.specs.Expressions.{curly, spelled_type};
ghost use Rattle.chi_tree_spell.specs.Statements.{spelled_body, spelled_definition, spelled_head, spelled_item, spelled_names};

use crate::speller::Speller;
use chi_base::NoMemory;
use chi_token::{Keyword, Sign, Token};
use chi_tree::{Definition, Formal, Item, Name, Step, TypeTree};

impl Speller {
    pub fn items(&mut self, items: &[Item]) -> Result<(), NoMemory>
        ensures { OnOk result (self.new.tokens.items ≡ self.old.tokens.items ++ all (map spelled_item items.now)) }
    {
        for item in items {
            self.definition(&item.definition)?;
            self.semicolon_if(item.semicolon)?;
        }
        Ok(())
    }

    fn definition(&mut self, definition: &Definition) -> Result<(), NoMemory>
        ensures { OnOk result (self.new.tokens.items ≡ self.old.tokens.items ++ spelled_definition definition.now) }
    {
        match definition {
            Definition::Enum { name, values, .. } => {
                self.word(Keyword::EnumWord)?;
                self.name(name)?;
                self.sign(Sign::Assign)?;
                self.in_braces(values.as_slice())
            }
            Definition::Const {
                ty,
                name,
                value,
                ..
            } => {
                self.word(Keyword::ConstWord)?;
                self.ty(ty)?;
                self.name(name)?;
                self.sign(Sign::Assign)?;
                self.expr(value)
            }
            Definition::TypeWord { name, ty, .. } => {
                self.word(Keyword::TypeWord)?;
                self.name(name)?;
                self.sign(Sign::Assign)?;
                self.ty(ty)
            }
            Definition::Func {
                result_type,
                name,
                formals,
                block,
                ..
            } => {
                self.word(Keyword::FuncWord)?;
                self.ty(result_type)?;
                self.name(name)?;
                self.callable(formals.as_slice(), block.as_slice())
            }
            Definition::Proc {
                exit_type,
                name,
                formals,
                block,
                ..
            } => {
                self.word(Keyword::ProcWord)?;
                self.head(exit_type, name)?;
                self.callable(formals.as_slice(), block.as_slice())
            }
            Definition::Model {
                exit_type,
                name,
                formals,
                block,
                ..
            } => {
                self.word(Keyword::ModelWord)?;
                self.head(exit_type, name)?;
                self.callable(formals.as_slice(), block.as_slice())
            }
            Definition::Xper { name, block, .. } => {
                self.word(Keyword::XperWord)?;
                self.name(name)?;
                self.callable(&[], block.as_slice())
            }
        }
    }

    fn in_braces(&mut self, names: &[Name]) -> Result<(), NoMemory>
        ensures { OnOk result (self.new.tokens.items ≡ self.old.tokens.items ++ curly (spelled_names names.now)) }
    {
        self.sign(Sign::LeftBrace)?;
        self.names(names)?;
        self.sign(Sign::RightBrace)
    }

    /// The type, where there is one, and the name.
    fn head(&mut self, ty: &Option<TypeTree>, name: &Name) -> Result<(), NoMemory>
        ensures { OnOk result (self.new.tokens.items ≡ self.old.tokens.items ++ spelled_head ty.now name.now) }
    {
        if let Some(ty) = ty {
            self.ty(ty)?;
        }
        self.name(name)
    }

    /// The parameters in brackets, and the block.
    fn callable(&mut self, parameters: &[Formal], block: &[Step]) -> Result<(), NoMemory>
        ensures { OnOk result (self.new.tokens.items ≡ self.old.tokens.items ++ spelled_body parameters.now block.now) }
    {
        self.sign(Sign::LeftParen)?;
        self.formals(parameters)?;
        self.sign(Sign::RightParen)?;
        self.to_end(block)
    }
}
