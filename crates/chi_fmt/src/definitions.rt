ghost use Rattle.std.specs.Prelude.{◌≡◌, ◌∷◌, [], ◌++◌, IfOk, OnOk, map, false};
ghost use Rattle.chi_token.specs.declared.keyword.Keyword.TheVariants as keyword;
ghost use Rattle.chi_token.specs.declared.sign.Sign.TheVariants as mark;
ghost use Rattle.chi_fmt.specs.Definitions.{callable_lines, definition_lines, exit_type_spots, item_lines, items_lines};
ghost use Rattle.chi_fmt.specs.Expressions.{curly, expr_spots, type_spots};
ghost use Rattle.chi_fmt.specs.Parts.{name_spot, names_spots, sign, word};

use crate::draft::Draft;
use crate::line::Semicolon;
use crate::lines::{Lines, NO_SEMICOLON, inside};
use chi_base::{Items, NoMemory};
use chi_token::{Keyword, Sign};
use chi_tree::{Definition, Expr, Formal, Item, Name, Step, TypeTree};

impl Lines {
    /// Definitions, with an empty line between each two.
    pub fn items(&mut self, items: &[Item]) -> Result<(), NoMemory>
        ensures { OnOk result (self.new.lines.items ≡ self.old.lines.items ++ items_lines false items.now) }
    {
        let Some((first, more)) = items.split_first() else {
            return Ok(());
        };
        self.item(false, first)?;
        for item in more {
            self.item(true, item)?;
        }
        Ok(())
    }

    fn item(&mut self, after_empty: bool, item: &Item) -> Result<(), NoMemory>
        ensures { OnOk result (self.new.lines.items ≡ self.old.lines.items ++ item_lines after_empty item.now) }
    {
        let semicolon = Semicolon {
            written: item.semicolon,
            kept: false,
        };
        self.definition(after_empty, &item.definition, semicolon)
    }

    fn definition(
        &mut self,
        after_empty: bool,
        definition: &Definition,
        semicolon: Semicolon,
    ) -> Result<(), NoMemory>
        ensures { OnOk result (self.new.lines.items ≡ self.old.lines.items ++ definition_lines after_empty definition.now semicolon) }
    {
        match definition {
            Definition::Enum { name, values, .. } => {
                let draft = self.enumeration(name, values)?;
                self.put_first(after_empty, draft, semicolon)
            }
            Definition::Const {
                ty,
                name,
                value,
                ..
            } => {
                let draft = self.constant(ty, name, value)?;
                self.put_first(after_empty, draft, semicolon)
            }
            Definition::TypeWord { name, ty, .. } => {
                let draft = self.type_name(name, ty)?;
                self.put_first(after_empty, draft, semicolon)
            }
            Definition::Func {
                result_type,
                name,
                formals,
                block,
                ..
            } => {
                let mut draft = self.begun_with(Keyword::FuncWord)?;
                draft.ty(result_type)?;
                draft.name(name)?;
                self.callable(
                    after_empty,
                    draft,
                    formals.as_slice(),
                    block.as_slice(),
                    semicolon,
                )
            }
            Definition::Proc {
                exit_type,
                name,
                formals,
                block,
                ..
            } => {
                let draft = self.process(Keyword::ProcWord, exit_type, name)?;
                self.callable(
                    after_empty,
                    draft,
                    formals.as_slice(),
                    block.as_slice(),
                    semicolon,
                )
            }
            Definition::Model {
                exit_type,
                name,
                formals,
                block,
                ..
            } => {
                let draft = self.process(Keyword::ModelWord, exit_type, name)?;
                self.callable(
                    after_empty,
                    draft,
                    formals.as_slice(),
                    block.as_slice(),
                    semicolon,
                )
            }
            Definition::Xper { name, block, .. } => {
                let mut draft = self.begun_with(Keyword::XperWord)?;
                draft.name(name)?;
                self.callable(after_empty, draft, &[], block.as_slice(), semicolon)
            }
        }
    }

    fn enumeration(&self, name: &Name, values: &Items<Name>) -> Result<Draft, NoMemory>
        ensures { IfOk result (λ draft. draft.spots.items ≡
            word keyword.EnumWord ∷ name_spot name.now ∷ sign mark.Assign ∷ curly (names_spots values.now)) }
    {
        let mut draft = self.begun_with(Keyword::EnumWord)?;
        draft.name(name)?;
        draft.sign(Sign::Assign)?;
        draft.sign(Sign::LeftBrace)?;
        draft.names(values.as_slice())?;
        draft.sign(Sign::RightBrace)?;
        Ok(draft)
    }

    fn constant(&self, ty: &TypeTree, name: &Name, value: &Expr) -> Result<Draft, NoMemory>
        ensures { IfOk result (λ draft. draft.spots.items ≡
            word keyword.ConstWord ∷ type_spots ty.now ++ name_spot name.now ∷ sign mark.Assign ∷ expr_spots value.now) }
    {
        let mut draft = self.begun_with(Keyword::ConstWord)?;
        draft.ty(ty)?;
        draft.name(name)?;
        draft.sign(Sign::Assign)?;
        draft.expr(value)?;
        Ok(draft)
    }

    fn type_name(&self, name: &Name, ty: &TypeTree) -> Result<Draft, NoMemory>
        ensures { IfOk result (λ draft. draft.spots.items ≡
            word keyword.TypeWord ∷ name_spot name.now ∷ sign mark.Assign ∷ type_spots ty.now) }
    {
        let mut draft = self.begun_with(Keyword::TypeWord)?;
        draft.name(name)?;
        draft.sign(Sign::Assign)?;
        draft.ty(ty)?;
        Ok(draft)
    }

    /// What stands before the parameters of a process or a model.
    fn process(
        &self,
        opener: Keyword,
        exit_type: &Option<TypeTree>,
        name: &Name,
    ) -> Result<Draft, NoMemory>
        ensures { IfOk result (λ draft. draft.spots.items ≡
            word opener ∷ exit_type_spots exit_type.now ++ name_spot name.now ∷ []) }
    {
        let mut draft = self.begun_with(opener)?;
        draft.some_type(exit_type)?;
        draft.name(name)?;
        Ok(draft)
    }

    /// The parameters, the block and the end of a definition whose first line was begun.
    fn callable(
        &mut self,
        after_empty: bool,
        begun: Draft,
        formals: &[Formal],
        block: &[Step],
        semicolon: Semicolon,
    ) -> Result<(), NoMemory>
        ensures { OnOk result (self.new.lines.items ≡ self.old.lines.items
            ++ callable_lines after_empty begun.spots.items formals.now block.now semicolon) }
    {
        let mut draft = begun;
        draft.parameters(formals)?;
        self.put_first(after_empty, draft, NO_SEMICOLON)?;
        self.block(inside(0)?, block)?;
        self.end(0, semicolon)
    }
}
