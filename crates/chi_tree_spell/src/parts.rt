ghost use Rattle.std.specs.Prelude.{◌≡◌, ◌∷◌, [], ◌++◌, OnOk, map};
ghost use Rattle.std.specs.Option.{option_map};
ghost use Rattle.chi_token.specs.declared.sign.Sign.TheVariants as sign;
ghost use Rattle.chi_token.specs.declared.token.Token.TheVariants as token;
ghost use Rattle.chi_tree_spell.specs.Words.{each_after, if_any};
ghost use Rattle.chi_tree_spell.specs.Expressions.{commas, spelled_expr};
ghost use Rattle.chi_tree_spell.specs.Statements.{semicolon_if, spelled_name, spelled_names, initial_tokens, spelled_variable, spelled_target, spelled_walk, spelled_communication};

use crate::speller::Speller;
use chi_base::NoMemory;
use chi_token::{Keyword, Sign, Token};
use chi_tree::{Communication, Expr, Initial, Name, Target, Variable, Walk};

impl Speller {
    pub fn semicolon_if(&mut self, semicolon: bool) -> Result<(), NoMemory>
        ensures { OnOk result (self.new.tokens.items ≡ self.old.tokens.items ++ semicolon_if semicolon) }
    {
        if semicolon {
            return self.sign(Sign::Semicolon);
        }
        Ok(())
    }

    pub fn some_expr(&mut self, expr: &Option<Expr>) -> Result<(), NoMemory>
        ensures { OnOk result (self.new.tokens.items ≡ self.old.tokens.items ++ if_any (option_map spelled_expr expr.now)) }
    {
        match expr {
            Some(expr) => self.expr(expr),
            None => Ok(()),
        }
    }

    pub fn names(&mut self, names: &[Name]) -> Result<(), NoMemory>
        ensures { OnOk result (self.new.tokens.items ≡ self.old.tokens.items ++ spelled_names names.now) }
    {
        let Some((first, more)) = names.split_first() else {
            return Ok(());
        };
        self.name(first)?;
        for name in more {
            self.sign(Sign::Comma)?;
            self.name(name)?;
        }
        Ok(())
    }

    pub fn variables(&mut self, variables: &[Variable]) -> Result<(), NoMemory>
        ensures { OnOk result (self.new.tokens.items ≡ self.old.tokens.items ++ commas (map spelled_variable variables.now)) }
    {
        let Some((first, more)) = variables.split_first() else {
            return Ok(());
        };
        self.variable(first)?;
        for variable in more {
            self.sign(Sign::Comma)?;
            self.variable(variable)?;
        }
        Ok(())
    }

    fn variable(&mut self, variable: &Variable) -> Result<(), NoMemory>
        ensures { OnOk result (self.new.tokens.items ≡ self.old.tokens.items ++ spelled_variable variable.now) }
    {
        self.name(&variable.name)?;
        self.initial(&variable.initial)
    }

    fn initial(&mut self, initial: &Option<Initial>) -> Result<(), NoMemory>
        ensures { OnOk result (self.new.tokens.items ≡ self.old.tokens.items ++ initial_tokens initial.now) }
    {
        match initial {
            Some(initial) => {
                self.sign(Sign::Assign)?;
                self.expr(&initial.value)
            }
            None => Ok(()),
        }
    }

    pub fn targets(&mut self, targets: &[Target]) -> Result<(), NoMemory>
        ensures { OnOk result (self.new.tokens.items ≡ self.old.tokens.items ++ commas (map spelled_target targets.now)) }
    {
        let Some((first, more)) = targets.split_first() else {
            return Ok(());
        };
        self.target(first)?;
        for target in more {
            self.sign(Sign::Comma)?;
            self.target(target)?;
        }
        Ok(())
    }

    pub fn target(&mut self, target: &Target) -> Result<(), NoMemory>
        ensures { OnOk result (self.new.tokens.items ≡ self.old.tokens.items ++ spelled_target target.now) }
    {
        self.name(&target.name)?;
        self.postfixes(target.steps.as_slice())
    }

    pub fn walk(&mut self, walk: &Walk) -> Result<(), NoMemory>
        ensures { OnOk result (self.new.tokens.items ≡ self.old.tokens.items ++ spelled_walk walk.now) }
    {
        self.names(walk.names.as_slice())?;
        self.word(Keyword::InWord)?;
        self.expr(&walk.container)
    }

    pub fn communication(&mut self, communication: &Communication) -> Result<(), NoMemory>
        ensures { OnOk result (self.new.tokens.items ≡ self.old.tokens.items ++ spelled_communication communication.now) }
    {
        match communication {
            Communication::Send { target, value, .. } => {
                self.target(target)?;
                self.sign(Sign::Bang)?;
                self.some_expr(value)
            }
            Communication::Receive { target, name, .. } => {
                self.target(target)?;
                self.sign(Sign::Question)?;
                self.some_name(name)
            }
            Communication::Delay { length, .. } => {
                self.word(Keyword::DelayWord)?;
                self.expr(length)
            }
        }
    }

    fn some_name(&mut self, name: &Option<Name>) -> Result<(), NoMemory>
        ensures { OnOk result (self.new.tokens.items ≡ self.old.tokens.items ++ if_any (option_map spelled_name name.now)) }
    {
        match name {
            Some(name) => self.name(name),
            None => Ok(()),
        }
    }
}
