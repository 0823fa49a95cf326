ghost use Rattle.std.specs.Prelude.{◌≡◌, ◌∷◌, [], ◌++◌, OnOk, map};
ghost use Rattle.std.specs.Option.{option_map};
ghost use Rattle.chi_token.specs.declared.keyword.Keyword.TheVariants as keyword;
ghost use Rattle.chi_token.specs.declared.sign.Sign.TheVariants as mark;
ghost use Rattle.chi_token.specs.declared.token.Token.TheVariants as token;
ghost use Rattle.chi_tree_spell.specs.Words.{each_after, if_any, write_word};
ghost use Rattle.chi_fmt.specs.declared.spot.Role.TheVariants.{Usual};
ghost use Rattle.chi_fmt.specs.Expressions.{commas, expr_spots, exprs_spots, round, spot, type_spots};
ghost use Rattle.chi_fmt.specs.Lines.{one_line};
ghost use Rattle.chi_fmt.specs.Parts.{communication_spots, elements_spots, sign, target_spots, variable_spots, word};

use crate::line::Semicolon;
use crate::lines::Lines;
use chi_base::{Items, NoMemory};
use chi_token::{Bytes, Keyword, Sign};
use chi_tree::{Communication, Element, Expr, Target, TypeTree, Variable};
use chi_tree_spell::words::write_word;

impl Lines {
    pub fn declare(
        &mut self,
        margin: u32,
        ty: &TypeTree,
        variables: &Items<Variable>,
        semicolon: Semicolon,
    ) -> Result<(), NoMemory>
        ensures { OnOk result (self.new.lines.items ≡ self.old.lines.items
            ++ one_line (type_spots ty.now ++ commas (map variable_spots variables.now)) margin semicolon) }
    {
        let mut draft = self.draft();
        draft.ty(ty)?;
        draft.variables(variables.as_slice())?;
        self.put(margin, draft, semicolon)
    }

    pub fn assign(
        &mut self,
        margin: u32,
        targets: &Items<Target>,
        values: &Items<Expr>,
        semicolon: Semicolon,
    ) -> Result<(), NoMemory>
        ensures { OnOk result (self.new.lines.items ≡ self.old.lines.items
            ++ one_line (commas (map target_spots targets.now) ++ sign mark.Assign ∷ exprs_spots values.now) margin semicolon) }
    {
        let mut draft = self.draft();
        draft.targets(targets.as_slice())?;
        draft.sign(Sign::Assign)?;
        draft.exprs(values.as_slice())?;
        self.put(margin, draft, semicolon)
    }

    pub fn communicate(
        &mut self,
        margin: u32,
        communication: &Communication,
        semicolon: Semicolon,
    ) -> Result<(), NoMemory>
        ensures { OnOk result (self.new.lines.items ≡
            self.old.lines.items ++ one_line (communication_spots communication.now) margin semicolon) }
    {
        let mut draft = self.draft();
        draft.communication(communication)?;
        self.put(margin, draft, semicolon)
    }

    /// A statement that is one word.
    pub fn jump(
        &mut self,
        margin: u32,
        keyword: Keyword,
        semicolon: Semicolon,
    ) -> Result<(), NoMemory>
        ensures { OnOk result (self.new.lines.items ≡ self.old.lines.items ++ one_line (word keyword ∷ []) margin semicolon) }
    {
        let draft = self.begun_with(keyword)?;
        self.put(margin, draft, semicolon)
    }

    pub fn return_value(
        &mut self,
        margin: u32,
        value: &Expr,
        semicolon: Semicolon,
    ) -> Result<(), NoMemory>
        ensures { OnOk result (self.new.lines.items ≡
            self.old.lines.items ++ one_line (word keyword.ReturnWord ∷ expr_spots value.now) margin semicolon) }
    {
        let mut draft = self.begun_with(Keyword::ReturnWord)?;
        draft.expr(value)?;
        self.put(margin, draft, semicolon)
    }

    pub fn exit(
        &mut self,
        margin: u32,
        value: &Option<Expr>,
        semicolon: Semicolon,
    ) -> Result<(), NoMemory>
        ensures { OnOk result (self.new.lines.items ≡
            self.old.lines.items ++ one_line (word keyword.ExitWord ∷ if_any (option_map expr_spots value.now)) margin semicolon) }
    {
        let mut draft = self.begun_with(Keyword::ExitWord)?;
        draft.some_expr(value)?;
        self.put(margin, draft, semicolon)
    }

    /// What is run or started.
    pub fn launch(
        &mut self,
        margin: u32,
        opener: Keyword,
        elements: &Items<Element>,
        semicolon: Semicolon,
    ) -> Result<(), NoMemory>
        ensures { OnOk result (self.new.lines.items ≡
            self.old.lines.items ++ one_line (word opener ∷ elements_spots elements.now) margin semicolon) }
    {
        let mut draft = self.begun_with(opener)?;
        draft.elements(elements.as_slice())?;
        self.put(margin, draft, semicolon)
    }

    pub fn finish(
        &mut self,
        margin: u32,
        instances: &Items<Expr>,
        semicolon: Semicolon,
    ) -> Result<(), NoMemory>
        ensures { OnOk result (self.new.lines.items ≡
            self.old.lines.items ++ one_line (word keyword.FinishWord ∷ exprs_spots instances.now) margin semicolon) }
    {
        let mut draft = self.begun_with(Keyword::FinishWord)?;
        draft.exprs(instances.as_slice())?;
        self.put(margin, draft, semicolon)
    }

    pub fn write(
        &mut self,
        margin: u32,
        ends_line: bool,
        format: &Bytes,
        values: &Items<Expr>,
        semicolon: Semicolon,
    ) -> Result<(), NoMemory>
        ensures { OnOk result (self.new.lines.items ≡ self.old.lines.items
            ++ one_line (word (write_word ends_line)
            ∷ round (spot (token.Text format.now) Usual ∷ each_after (sign mark.Comma) (map expr_spots values.now))) margin semicolon) }
    {
        let mut draft = self.begun_with(write_word(ends_line))?;
        draft.sign(Sign::LeftParen)?;
        draft.text(format)?;
        draft.more_exprs(values.as_slice())?;
        draft.sign(Sign::RightParen)?;
        self.put(margin, draft, semicolon)
    }
}
