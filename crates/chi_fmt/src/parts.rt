ghost use Rattle.std.specs.Prelude.{◌≡◌, ◌∷◌, [], ◌++◌, OnOk, map};
ghost use Rattle.std.specs.Option.{option_map};
ghost use Rattle.chi_tree_spell.specs.Words.{if_any};
ghost use Rattle.chi_fmt.specs.Expressions.{commas, expr_spots};
ghost use Rattle.chi_token.specs.declared.keyword.Keyword.TheVariants as keyword;
ghost use Rattle.chi_fmt.specs.Parts.{communicates, communication_spots, guard_spots, initial_spots, name_spots, names_spots, offer_spots, target_spots, variable_spots, walk_spots, word};

use crate::draft::Draft;
use crate::spot::Role;
use chi_base::NoMemory;
use chi_token::{Keyword, Sign, Token};
use chi_tree::{Communication, Expr, Initial, Name, Target, Variable, Walk};

impl Draft {
    pub fn some_expr(&mut self, expr: &Option<Expr>) -> Result<(), NoMemory>
        ensures { OnOk result (self.new.spots.items ≡ self.old.spots.items ++ if_any (option_map expr_spots expr.now)) }
    {
        match expr {
            Some(expr) => self.expr(expr),
            None => Ok(()),
        }
    }

    pub fn names(&mut self, names: &[Name]) -> Result<(), NoMemory>
        ensures { OnOk result (self.new.spots.items ≡ self.old.spots.items ++ names_spots names.now) }
    {
        let Some((first, more)) = names.split_first() else {
            return Ok(());
        };
        self.name(first)?;
        for name in more {
            self.sign(Sign::Comma)?;
            self.name(name)?;
        }
        Ok(())
    }

    pub fn variables(&mut self, variables: &[Variable]) -> Result<(), NoMemory>
        ensures { OnOk result (self.new.spots.items ≡ self.old.spots.items ++ commas (map variable_spots variables.now)) }
    {
        let Some((first, more)) = variables.split_first() else {
            return Ok(());
        };
        self.variable(first)?;
        for variable in more {
            self.sign(Sign::Comma)?;
            self.variable(variable)?;
        }
        Ok(())
    }

    fn variable(&mut self, variable: &Variable) -> Result<(), NoMemory>
        ensures { OnOk result (self.new.spots.items ≡ self.old.spots.items ++ variable_spots variable.now) }
    {
        self.name(&variable.name)?;
        self.initial(&variable.initial)
    }

    fn initial(&mut self, initial: &Option<Initial>) -> Result<(), NoMemory>
        ensures { OnOk result (self.new.spots.items ≡ self.old.spots.items ++ initial_spots initial.now) }
    {
        match initial {
            Some(initial) => {
                self.sign(Sign::Assign)?;
                self.expr(&initial.value)
            }
            None => Ok(()),
        }
    }

    pub fn targets(&mut self, targets: &[Target]) -> Result<(), NoMemory>
        ensures { OnOk result (self.new.spots.items ≡ self.old.spots.items ++ commas (map target_spots targets.now)) }
    {
        let Some((first, more)) = targets.split_first() else {
            return Ok(());
        };
        self.target(first)?;
        for target in more {
            self.sign(Sign::Comma)?;
            self.target(target)?;
        }
        Ok(())
    }

    pub fn target(&mut self, target: &Target) -> Result<(), NoMemory>
        ensures { OnOk result (self.new.spots.items ≡ self.old.spots.items ++ target_spots target.now) }
    {
        self.name(&target.name)?;
        self.postfixes(target.steps.as_slice())
    }

    pub fn walk(&mut self, walk: &Walk) -> Result<(), NoMemory>
        ensures { OnOk result (self.new.spots.items ≡ self.old.spots.items ++ walk_spots walk.now) }
    {
        self.names(walk.names.as_slice())?;
        self.word(Keyword::InWord)?;
        self.expr(&walk.container)
    }

    pub fn communication(&mut self, communication: &Communication) -> Result<(), NoMemory>
        ensures { OnOk result (self.new.spots.items ≡ self.old.spots.items ++ communication_spots communication.now) }
    {
        match communication {
            Communication::Send { target, value, .. } => {
                self.target(target)?;
                self.communicates(Sign::Bang)?;
                self.some_expr(value)
            }
            Communication::Receive { target, name, .. } => {
                self.target(target)?;
                self.communicates(Sign::Question)?;
                self.some_name(name)
            }
            Communication::Delay { length, .. } => {
                self.word(Keyword::DelayWord)?;
                self.expr(length)
            }
        }
    }

    /// The sign of a communication.
    fn communicates(&mut self, mark: Sign) -> Result<(), NoMemory>
        ensures { OnOk result (self.new.spots.items ≡ self.old.spots.items ++ communicates mark ∷ []) }
    {
        self.put_as(Token::Sign(mark), Role::Communicates)
    }

    fn some_name(&mut self, name: &Option<Name>) -> Result<(), NoMemory>
        ensures { OnOk result (self.new.spots.items ≡ self.old.spots.items ++ if_any (option_map name_spots name.now)) }
    {
        match name {
            Some(name) => self.name(name),
            None => Ok(()),
        }
    }

    /// What an alternative offers.
    pub fn offer(
        &mut self,
        guard: &Option<Expr>,
        communication: &Communication,
    ) -> Result<(), NoMemory>
        ensures { OnOk result (self.new.spots.items ≡ self.old.spots.items ++ offer_spots guard.now communication.now) }
    {
        self.guard(guard)?;
        self.communication(communication)
    }

    /// The condition of an alternative and a comma, where there is one.
    fn guard(&mut self, guard: &Option<Expr>) -> Result<(), NoMemory>
        ensures { OnOk result (self.new.spots.items ≡ self.old.spots.items ++ guard_spots guard.now) }
    {
        match guard {
            Some(guard) => {
                self.expr(guard)?;
                self.sign(Sign::Comma)
            }
            None => Ok(()),
        }
    }

    /// An unwind up to its walk.
    pub fn unwind(&mut self, walk: &Walk) -> Result<(), NoMemory>
        ensures { OnOk result (self.new.spots.items ≡ self.old.spots.items ++ word keyword.UnwindWord ∷ walk_spots walk.now) }
    {
        self.word(Keyword::UnwindWord)?;
        self.walk(walk)
    }
}
