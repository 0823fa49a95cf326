ghost use Rattle.std.specs.Prelude.{◌≡◌, ◌∷◌, [], ◌++◌, OnOk, map};
ghost use Rattle.std.specs.Option.{option_map};
ghost use Rattle.chi_token.specs.declared.keyword.Keyword.TheVariants as keyword;
ghost use Rattle.chi_token.specs.declared.sign.Sign.TheVariants as sign;
ghost use Rattle.chi_token.specs.declared.token.Token.TheVariants as token;
ghost use Rattle.chi_tree_spell.specs.Words.{each_after, if_any, separated, write_word};
ghost use Rattle.chi_tree_spell.specs.Expressions.{commas, round, spelled_expr, spelled_type};
ghost use Rattle.chi_tree_spell.specs.Statements.{body_tokens, else_tokens, guard_tokens, to_end, spelled_alternative, spelled_block, spelled_branch, spelled_elements, spelled_exprs, spelled_statement, spelled_step, spelled_target, spelled_variable, spelled_walk};

use crate::speller::Speller;
use crate::words::write_word;
use chi_base::{Items, NoMemory};
use chi_token::{Bytes, Keyword, Sign, Token};
use chi_tree::{
    Alternative, Branch, Element, Expr, Statement, Step, Target, TypeTree, Variable, Walk,
};

impl Speller {
    #[cycle(statement)]
    pub fn steps(&mut self, steps: &[Step]) -> Result<(), NoMemory>
        ensures { OnOk result (self.new.tokens.items ≡ self.old.tokens.items ++ spelled_block steps.now) }
    {
        for step in steps {
            self.statement(&step.statement)?;
            self.semicolon_if(step.semicolon)?;
        }
        Ok(())
    }

    #[cycle(statement)]
    fn statement(&mut self, statement: &Statement) -> Result<(), NoMemory>
        ensures { OnOk result (self.new.tokens.items ≡ self.old.tokens.items ++ spelled_statement statement.now) }
    {
        match statement {
            Statement::Declare { ty, variables } => self.declare(ty, variables.as_slice()),
            Statement::Assign {
                targets,
                values,
                ..
            } => self.assign(targets, values),
            Statement::Communicate(communication) => self.communication(communication),
            Statement::Pass(_) => self.word(Keyword::PassWord),
            Statement::Break(_) => self.word(Keyword::BreakWord),
            Statement::Continue(_) => self.word(Keyword::ContinueWord),
            Statement::Select { alternatives, .. } => {
                self.word(Keyword::SelectWord)?;
                self.alternatives(alternatives.as_slice())?;
                self.word(Keyword::EndWord)
            }
            Statement::If {
                branches,
                otherwise,
                ..
            } => {
                self.word(Keyword::IfWord)?;
                self.branches(branches.as_slice())?;
                self.otherwise(otherwise.as_slice())?;
                self.word(Keyword::EndWord)
            }
            Statement::While {
                condition,
                block,
                ..
            } => {
                self.word(Keyword::WhileWord)?;
                self.expr(condition)?;
                self.to_end(block.as_slice())
            }
            Statement::For { walk, block, .. } => {
                self.word(Keyword::ForWord)?;
                self.walk(walk)?;
                self.to_end(block.as_slice())
            }
            Statement::Return { value, .. } => self.return_value(value),
            Statement::Exit { value, .. } => self.exit(value),
            Statement::Run { elements, .. } => self.launch(Keyword::RunWord, elements.as_slice()),
            Statement::Start { elements, .. } => self.launch(
                Keyword::StartWord,
                elements.as_slice(),
            ),
            Statement::Finish { instances, .. } => self.finish(instances.as_slice()),
            Statement::Write {
                ends_line,
                format,
                values,
                ..
            } => self.write(*ends_line, format, values),
        }
    }

    fn declare(&mut self, ty: &TypeTree, variables: &[Variable]) -> Result<(), NoMemory>
        ensures { OnOk result (self.new.tokens.items ≡ self.old.tokens.items ++ spelled_type ty.now ++ commas (map spelled_variable variables.now)) }
    {
        self.ty(ty)?;
        self.variables(variables)
    }

    fn assign(&mut self, targets: &Items<Target>, values: &Items<Expr>) -> Result<(), NoMemory>
        ensures { OnOk result (self.new.tokens.items ≡
            self.old.tokens.items ++ commas (map spelled_target targets.now) ++ token.Sign sign.Assign ∷ spelled_exprs values.now) }
    {
        self.targets(targets.as_slice())?;
        self.sign(Sign::Assign)?;
        self.exprs(values.as_slice())
    }

    fn return_value(&mut self, value: &Expr) -> Result<(), NoMemory>
        ensures { OnOk result (self.new.tokens.items ≡ self.old.tokens.items ++ token.Word keyword.ReturnWord ∷ spelled_expr value.now) }
    {
        self.word(Keyword::ReturnWord)?;
        self.expr(value)
    }

    fn exit(&mut self, value: &Option<Expr>) -> Result<(), NoMemory>
        ensures { OnOk result (self.new.tokens.items ≡
            self.old.tokens.items ++ token.Word keyword.ExitWord ∷ if_any (option_map spelled_expr value.now)) }
    {
        self.word(Keyword::ExitWord)?;
        self.some_expr(value)
    }

    /// What is run or started, after its word.
    fn launch(&mut self, word: Keyword, elements: &[Element]) -> Result<(), NoMemory>
        ensures { OnOk result (self.new.tokens.items ≡ self.old.tokens.items ++ token.Word word ∷ spelled_elements elements.now) }
    {
        self.word(word)?;
        self.elements(elements)
    }

    fn finish(&mut self, values: &[Expr]) -> Result<(), NoMemory>
        ensures { OnOk result (self.new.tokens.items ≡ self.old.tokens.items ++ token.Word keyword.FinishWord ∷ spelled_exprs values.now) }
    {
        self.word(Keyword::FinishWord)?;
        self.exprs(values)
    }

    fn write(&mut self, line: bool, text: &Bytes, values: &Items<Expr>) -> Result<(), NoMemory>
        ensures { OnOk result (self.new.tokens.items ≡ self.old.tokens.items ++
            token.Word (write_word line) ∷ round (token.Text text.now ∷ each_after (token.Sign sign.Comma) (map spelled_expr values.now))) }
    {
        self.word(write_word(line))?;
        self.sign(Sign::LeftParen)?;
        self.text(text)?;
        self.more_exprs(values.as_slice())?;
        self.sign(Sign::RightParen)
    }

    /// A block from its colon to its end.
    #[cycle(statement)]
    pub fn to_end(&mut self, block: &[Step]) -> Result<(), NoMemory>
        ensures { OnOk result (self.new.tokens.items ≡ self.old.tokens.items ++ to_end (map spelled_step block.now)) }
    {
        self.sign(Sign::Colon)?;
        self.steps(block)?;
        self.word(Keyword::EndWord)
    }

    /// The block of `else`, if there is one.
    #[cycle(statement)]
    fn otherwise(&mut self, block: &[Step]) -> Result<(), NoMemory>
        ensures { OnOk result (self.new.tokens.items ≡ self.old.tokens.items ++ else_tokens (map spelled_step block.now)) }
    {
        if block.is_empty() {
            return Ok(());
        }
        self.word(Keyword::ElseWord)?;
        self.sign(Sign::Colon)?;
        self.steps(block)
    }

    #[cycle(statement)]
    fn branches(&mut self, branches: &[Branch]) -> Result<(), NoMemory>
        ensures { OnOk result (self.new.tokens.items ≡
            self.old.tokens.items ++ separated (token.Word keyword.ElifWord) (map spelled_branch branches.now)) }
    {
        let Some((first, more)) = branches.split_first() else {
            return Ok(());
        };
        self.branch(first)?;
        for branch in more {
            self.word(Keyword::ElifWord)?;
            self.branch(branch)?;
        }
        Ok(())
    }

    #[cycle(statement)]
    fn branch(&mut self, branch: &Branch) -> Result<(), NoMemory>
        ensures { OnOk result (self.new.tokens.items ≡ self.old.tokens.items ++ spelled_branch branch.now) }
    {
        self.expr(&branch.condition)?;
        self.sign(Sign::Colon)?;
        self.steps(branch.block.as_slice())
    }

    #[cycle(statement)]
    fn alternatives(&mut self, alternatives: &[Alternative]) -> Result<(), NoMemory>
        ensures { OnOk result (self.new.tokens.items ≡
            self.old.tokens.items ++ separated (token.Word keyword.AltWord) (map spelled_alternative alternatives.now)) }
    {
        let Some((first, more)) = alternatives.split_first() else {
            return Ok(());
        };
        self.alternative(first)?;
        for alternative in more {
            self.word(Keyword::AltWord)?;
            self.alternative(alternative)?;
        }
        Ok(())
    }

    #[cycle(statement)]
    fn alternative(&mut self, alternative: &Alternative) -> Result<(), NoMemory>
        ensures { OnOk result (self.new.tokens.items ≡ self.old.tokens.items ++ spelled_alternative alternative.now) }
    {
        match alternative {
            Alternative::Guarded {
                guard,
                communication,
                block,
            } => {
                self.guard(guard)?;
                self.communication(communication)?;
                self.body(block.as_slice())
            }
            Alternative::Unwind {
                walk,
                alternatives,
                ..
            } => {
                self.word(Keyword::UnwindWord)?;
                self.walk(walk)?;
                self.sign(Sign::Colon)?;
                self.alternatives(alternatives.as_slice())?;
                self.word(Keyword::EndWord)
            }
        }
    }

    fn guard(&mut self, guard: &Option<Expr>) -> Result<(), NoMemory>
        ensures { OnOk result (self.new.tokens.items ≡ self.old.tokens.items ++ guard_tokens guard.now) }
    {
        match guard {
            Some(guard) => {
                self.expr(guard)?;
                self.sign(Sign::Comma)
            }
            None => Ok(()),
        }
    }

    /// The block of an alternative, if there is one.
    #[cycle(statement)]
    fn body(&mut self, block: &[Step]) -> Result<(), NoMemory>
        ensures { OnOk result (self.new.tokens.items ≡ self.old.tokens.items ++ body_tokens (map spelled_step block.now)) }
    {
        if block.is_empty() {
            return Ok(());
        }
        self.sign(Sign::Colon)?;
        self.steps(block)
    }
}
