ghost use Rattle.std.specs.Prelude.{◌≡◌, ◌∷◌, [], ◌++◌, OnOk, map};
ghost use Rattle.chi_token.specs.declared.keyword.Keyword.TheVariants as keyword;
ghost use Rattle.chi_fmt.specs.Lines.{alternative_lines, block_lines, branch_lines, else_lines, led_lines, lines_to_end, lines_with, statement_lines, step_lines, unwound_lines};
ghost use Rattle.chi_fmt.specs.Parts.{word};

use crate::draft::Draft;
use crate::line::Semicolon;
use crate::lines::{Lines, NO_SEMICOLON, inside};
use chi_base::NoMemory;
use chi_token::Keyword;
use chi_tree::{Alternative, Branch, Statement, Step};

impl Lines {
    #[cycle(statement)]
    pub fn block(&mut self, margin: u32, steps: &[Step]) -> Result<(), NoMemory>
        ensures { OnOk result (self.new.lines.items ≡ self.old.lines.items ++ block_lines margin (map step_lines steps.now)) }
    {
        let Some((last, front)) = steps.split_last() else {
            return Ok(());
        };
        for step in front {
            self.step(margin, step, true)?;
        }
        self.step(margin, last, false)
    }

    /// A statement of a block, told whether another one follows.
    #[cycle(statement)]
    fn step(&mut self, margin: u32, step: &Step, follows: bool) -> Result<(), NoMemory>
        ensures { OnOk result (self.new.lines.items ≡ self.old.lines.items ++ step_lines step.now margin follows) }
    {
        let semicolon = Semicolon {
            written: step.semicolon,
            kept: follows,
        };
        self.statement(margin, &step.statement, semicolon)
    }

    #[cycle(statement)]
    fn statement(
        &mut self,
        margin: u32,
        statement: &Statement,
        semicolon: Semicolon,
    ) -> Result<(), NoMemory>
        ensures { OnOk result (self.new.lines.items ≡ self.old.lines.items ++ statement_lines statement.now margin semicolon) }
    {
        match statement {
            Statement::Declare { ty, variables } => self.declare(margin, ty, variables, semicolon),
            Statement::Assign {
                targets,
                values,
                ..
            } => self.assign(margin, targets, values, semicolon),
            Statement::Communicate(communication) => {
                self.communicate(margin, communication, semicolon)
            }
            Statement::Pass(_) => self.jump(margin, Keyword::PassWord, semicolon),
            Statement::Break(_) => self.jump(margin, Keyword::BreakWord, semicolon),
            Statement::Continue(_) => self.jump(margin, Keyword::ContinueWord, semicolon),
            Statement::Select { alternatives, .. } => {
                self.select(margin, alternatives.as_slice())?;
                self.end(margin, semicolon)
            }
            Statement::If {
                branches,
                otherwise,
                ..
            } => {
                self.branches(margin, branches.as_slice())?;
                self.otherwise(margin, otherwise.as_slice())?;
                self.end(margin, semicolon)
            }
            Statement::While {
                condition,
                block,
                ..
            } => {
                let mut draft = self.begun_with(Keyword::WhileWord)?;
                draft.expr(condition)?;
                self.to_end(margin, draft, block.as_slice(), semicolon)
            }
            Statement::For { walk, block, .. } => {
                let mut draft = self.begun_with(Keyword::ForWord)?;
                draft.walk(walk)?;
                self.to_end(margin, draft, block.as_slice(), semicolon)
            }
            Statement::Return { value, .. } => self.return_value(margin, value, semicolon),
            Statement::Exit { value, .. } => self.exit(margin, value, semicolon),
            Statement::Run { elements, .. } => {
                self.launch(margin, Keyword::RunWord, elements, semicolon)
            }
            Statement::Start { elements, .. } => {
                self.launch(margin, Keyword::StartWord, elements, semicolon)
            }
            Statement::Finish { instances, .. } => self.finish(margin, instances, semicolon),
            Statement::Write {
                ends_line,
                format,
                values,
                ..
            } => self.write(margin, *ends_line, format, values, semicolon),
        }
    }

    /// A line that ends with a colon, a block and a line with `end`.
    #[cycle(statement)]
    pub fn to_end(
        &mut self,
        margin: u32,
        draft: Draft,
        block: &[Step],
        semicolon: Semicolon,
    ) -> Result<(), NoMemory>
        ensures { OnOk result (self.new.lines.items ≡
            self.old.lines.items ++ lines_to_end margin draft.spots.items (map step_lines block.now) semicolon) }
    {
        self.header(margin, draft)?;
        self.block(inside(margin)?, block)?;
        self.end(margin, semicolon)
    }

    #[cycle(statement)]
    fn select(&mut self, margin: u32, alternatives: &[Alternative]) -> Result<(), NoMemory>
        ensures { OnOk result (self.new.lines.items ≡ self.old.lines.items
            ++ led_lines margin (word keyword.SelectWord ∷ []) (word keyword.AltWord ∷ []) (map alternative_lines alternatives.now)) }
    {
        let first = self.begun_with(Keyword::SelectWord)?;
        self.alternatives(margin, first, alternatives)
    }

    /// Alternatives, the first of which goes on with a line that was begun.
    #[cycle(statement)]
    fn alternatives(
        &mut self,
        margin: u32,
        begun: Draft,
        alternatives: &[Alternative],
    ) -> Result<(), NoMemory>
        ensures { OnOk result (self.new.lines.items ≡ self.old.lines.items
            ++ led_lines margin begun.spots.items (word keyword.AltWord ∷ []) (map alternative_lines alternatives.now)) }
    {
        let Some((first, more)) = alternatives.split_first() else {
            return Ok(());
        };
        self.alternative(margin, begun, first)?;
        for alternative in more {
            let draft = self.begun_with(Keyword::AltWord)?;
            self.alternative(margin, draft, alternative)?;
        }
        Ok(())
    }

    #[cycle(statement)]
    fn alternative(
        &mut self,
        margin: u32,
        begun: Draft,
        alternative: &Alternative,
    ) -> Result<(), NoMemory>
        ensures { OnOk result (self.new.lines.items ≡ self.old.lines.items ++ alternative_lines alternative.now margin begun.spots.items) }
    {
        let mut draft = begun;
        match alternative {
            Alternative::Guarded {
                guard,
                communication,
                block,
            } => {
                draft.offer(guard, communication)?;
                self.with_body(margin, draft, block.as_slice())
            }
            Alternative::Unwind {
                walk,
                alternatives,
                ..
            } => {
                draft.unwind(walk)?;
                self.unwound(margin, draft, alternatives.as_slice())
            }
        }
    }

    /// Alternatives within an unwind, whose line was begun.
    #[cycle(statement)]
    fn unwound(
        &mut self,
        margin: u32,
        draft: Draft,
        alternatives: &[Alternative],
    ) -> Result<(), NoMemory>
        ensures { OnOk result (self.new.lines.items ≡ self.old.lines.items
            ++ unwound_lines margin draft.spots.items (map alternative_lines alternatives.now)) }
    {
        self.header(margin, draft)?;
        let begun = self.draft();
        self.alternatives(inside(margin)?, begun, alternatives)?;
        self.end(margin, NO_SEMICOLON)
    }

    /// A line, and the block after it, if there is one.
    #[cycle(statement)]
    fn with_body(&mut self, margin: u32, draft: Draft, block: &[Step]) -> Result<(), NoMemory>
        ensures { OnOk result (self.new.lines.items ≡
            self.old.lines.items ++ lines_with margin draft.spots.items (map step_lines block.now)) }
    {
        if block.is_empty() {
            return self.put(margin, draft, NO_SEMICOLON);
        }
        self.header(margin, draft)?;
        self.block(inside(margin)?, block)
    }

    #[cycle(statement)]
    fn branches(&mut self, margin: u32, branches: &[Branch]) -> Result<(), NoMemory>
        ensures { OnOk result (self.new.lines.items ≡ self.old.lines.items
            ++ led_lines margin (word keyword.IfWord ∷ []) (word keyword.ElifWord ∷ []) (map branch_lines branches.now)) }
    {
        let Some((first, more)) = branches.split_first() else {
            return Ok(());
        };
        self.branch(margin, Keyword::IfWord, first)?;
        for branch in more {
            self.branch(margin, Keyword::ElifWord, branch)?;
        }
        Ok(())
    }

    #[cycle(statement)]
    fn branch(&mut self, margin: u32, opener: Keyword, branch: &Branch) -> Result<(), NoMemory>
        ensures { OnOk result (self.new.lines.items ≡ self.old.lines.items ++ branch_lines branch.now margin (word opener ∷ [])) }
    {
        let mut draft = self.begun_with(opener)?;
        draft.expr(&branch.condition)?;
        self.header(margin, draft)?;
        self.block(inside(margin)?, branch.block.as_slice())
    }

    /// The block of `else`, if there is one.
    #[cycle(statement)]
    fn otherwise(&mut self, margin: u32, block: &[Step]) -> Result<(), NoMemory>
        ensures { OnOk result (self.new.lines.items ≡ self.old.lines.items ++ else_lines margin (map step_lines block.now)) }
    {
        if block.is_empty() {
            return Ok(());
        }
        let draft = self.begun_with(Keyword::ElseWord)?;
        self.header(margin, draft)?;
        self.block(inside(margin)?, block)
    }
}
