ghost use Rattle.std.specs.Prelude.{◌≡◌, ◌∷◌, [], ◌++◌, OnOk, map};
ghost use Rattle.std.specs.Option.{option_map};
ghost use Rattle.chi_token.specs.declared.sign.Sign.TheVariants as sign;
ghost use Rattle.chi_token.specs.declared.token.Token.TheVariants as token;
ghost use Rattle.chi_tree_spell.specs.Words.{all, each_after, if_any, name_token, cast_token};
ghost use Rattle.chi_tree_spell.specs.Expressions.{commas, round, curly, step_tokens, spelled_expr, spelled_link, spelled_postfix, spelled_entry, spelled_type};

use crate::speller::Speller;
use crate::words::{cast_token, operator_token, prefix_token, relation_token, truth_token};
use chi_base::{Boxed, NoMemory};
use chi_token::{Keyword, Sign, Token};
use chi_tree::{CastWord, Entry, Expr, Link, Name, Postfix, TypeTree};

/// The sign that opens and the one that closes.
type Brackets = (Sign, Sign);

const ROUND: Brackets = (Sign::LeftParen, Sign::RightParen);

const SQUARE: Brackets = (Sign::LeftBracket, Sign::RightBracket);

const CURLY: Brackets = (Sign::LeftBrace, Sign::RightBrace);

impl Speller {
    #[cycle(spell)]
    pub fn expr(&mut self, expr: &Expr) -> Result<(), NoMemory>
        ensures { OnOk result (self.new.tokens.items ≡ self.old.tokens.items ++ spelled_expr expr.now) }
    {
        match expr {
            Expr::Chain { first, links } => {
                self.expr(first.get())?;
                self.links(links.as_slice())
            }
            Expr::Prefix { sign, operand, .. } => self.prefixed(prefix_token(*sign), operand.get()),
            Expr::Relation {
                left,
                sign,
                right,
                ..
            } => {
                self.expr(left.get())?;
                self.prefixed(relation_token(*sign), right.get())
            }
            Expr::Power { base, exponent, .. } => {
                self.expr(base.get())?;
                self.prefixed(Token::Sign(Sign::Caret), exponent.get())
            }
            Expr::Part { whole, postfixes } => {
                self.expr(whole.get())?;
                self.postfixes(postfixes.as_slice())
            }
            Expr::Int { digits, .. } => self.int(digits),
            Expr::Real { digits, .. } => self.real(digits),
            Expr::Text { bytes, .. } => self.text(bytes),
            Expr::Bool { truth, .. } => self.put(truth_token(*truth)),
            Expr::Time(_) => self.word(Keyword::TimeWord),
            Expr::Named(name) => self.name(name),
            Expr::Call { name, arguments } => self.call(name, arguments.as_slice()),
            Expr::Cast { word, operand, .. } => self.cast(*word, operand.get()),
            Expr::Round { inner, .. } => self.in_round(inner.get()),
            Expr::TupleOf { parts, .. } => self.exprs_in(ROUND, parts.as_slice()),
            Expr::ListOf { elements, .. } => self.exprs_in(SQUARE, elements.as_slice()),
            Expr::SetOf { elements, .. } => self.exprs_in(CURLY, elements.as_slice()),
            Expr::DictOf { entries, .. } => self.dictionary(entries.as_slice()),
            Expr::EmptyList { element, .. } => self.empty(Sign::Less, element.get(), SQUARE),
            Expr::EmptySet { element, .. } => self.empty(Sign::Less, element.get(), CURLY),
            Expr::EmptyDict { key, value, .. } => {
                self.after(Sign::Less, key.get())?;
                self.empty(Sign::Colon, value.get(), CURLY)
            }
        }
    }

    /// An operand after its operator.
    #[cycle(spell)]
    fn prefixed(&mut self, operator: Token, operand: &Expr) -> Result<(), NoMemory>
        ensures { OnOk result (self.new.tokens.items ≡ self.old.tokens.items ++ operator ∷ spelled_expr operand.now) }
    {
        self.put(operator)?;
        self.expr(operand)
    }

    #[cycle(spell)]
    pub fn call(&mut self, name: &Name, arguments: &[Expr]) -> Result<(), NoMemory>
        ensures { OnOk result (self.new.tokens.items ≡ self.old.tokens.items ++ name_token name.now ∷ round (commas (map spelled_expr arguments.now))) }
    {
        self.name(name)?;
        self.exprs_in(ROUND, arguments)
    }

    #[cycle(spell)]
    fn cast(&mut self, word: CastWord, operand: &Expr) -> Result<(), NoMemory>
        ensures { OnOk result (self.new.tokens.items ≡ self.old.tokens.items ++ cast_token word ∷ round (spelled_expr operand.now)) }
    {
        self.put(cast_token(word))?;
        self.in_round(operand)
    }

    #[cycle(spell)]
    fn dictionary(&mut self, entries: &[Entry]) -> Result<(), NoMemory>
        ensures { OnOk result (self.new.tokens.items ≡ self.old.tokens.items ++ curly (commas (map spelled_entry entries.now))) }
    {
        self.sign(Sign::LeftBrace)?;
        self.entries(entries)?;
        self.sign(Sign::RightBrace)
    }

    /// The type of an empty literal, after the sign before it.
    #[cycle(spell)]
    fn after(&mut self, before: Sign, ty: &TypeTree) -> Result<(), NoMemory>
        ensures { OnOk result (self.new.tokens.items ≡ self.old.tokens.items ++ token.Sign before ∷ spelled_type ty.now) }
    {
        self.sign(before)?;
        self.ty(ty)
    }

    /// The last type of an empty literal, after the sign before it, and the brackets.
    #[cycle(spell)]
    fn empty(&mut self, before: Sign, ty: &TypeTree, brackets: Brackets) -> Result<(), NoMemory>
        ensures { OnOk result (self.new.tokens.items ≡ self.old.tokens.items ++
            token.Sign before ∷ spelled_type ty.now ++ token.Sign sign.Greater ∷ token.Sign brackets.0 ∷ token.Sign brackets.1 ∷ []) }
    {
        self.after(before, ty)?;
        self.sign(Sign::Greater)?;
        self.sign(brackets.0)?;
        self.sign(brackets.1)
    }

    #[cycle(spell)]
    fn links(&mut self, links: &[Link]) -> Result<(), NoMemory>
        ensures { OnOk result (self.new.tokens.items ≡ self.old.tokens.items ++ all (map spelled_link links.now)) }
    {
        for link in links {
            self.put(operator_token(link.operator))?;
            self.expr(&link.operand)?;
        }
        Ok(())
    }

    #[cycle(spell)]
    pub fn postfixes(&mut self, postfixes: &[Postfix]) -> Result<(), NoMemory>
        ensures { OnOk result (self.new.tokens.items ≡ self.old.tokens.items ++ all (map spelled_postfix postfixes.now)) }
    {
        for postfix in postfixes {
            self.postfix(postfix)?;
        }
        Ok(())
    }

    #[cycle(spell)]
    fn postfix(&mut self, postfix: &Postfix) -> Result<(), NoMemory>
        ensures { OnOk result (self.new.tokens.items ≡ self.old.tokens.items ++ spelled_postfix postfix.now) }
    {
        match postfix {
            Postfix::Index { index, .. } => {
                self.sign(Sign::LeftBracket)?;
                self.expr(index.get())?;
                self.sign(Sign::RightBracket)
            }
            Postfix::Slice {
                from,
                upto,
                second_colon,
                by,
                ..
            } => {
                self.sign(Sign::LeftBracket)?;
                self.expr_if(from)?;
                self.sign(Sign::Colon)?;
                self.expr_if(upto)?;
                self.by_step(*second_colon, by)?;
                self.sign(Sign::RightBracket)
            }
            Postfix::Field(name) => self.field(name),
        }
    }

    /// The second colon of a slice, where one stands, and what is after it.
    #[cycle(spell)]
    fn by_step(&mut self, second_colon: bool, by: &Option<Boxed<Expr>>) -> Result<(), NoMemory>
        ensures { OnOk result (self.new.tokens.items ≡ self.old.tokens.items ++ step_tokens second_colon (option_map spelled_expr by.now)) }
    {
        if !second_colon {
            return Ok(());
        }
        self.sign(Sign::Colon)?;
        self.expr_if(by)
    }

    fn field(&mut self, name: &Name) -> Result<(), NoMemory>
        ensures { OnOk result (self.new.tokens.items ≡ self.old.tokens.items ++ token.Sign sign.Dot ∷ name_token name.now ∷ []) }
    {
        self.sign(Sign::Dot)?;
        self.name(name)
    }

    #[cycle(spell)]
    fn expr_if(&mut self, expr: &Option<Boxed<Expr>>) -> Result<(), NoMemory>
        ensures { OnOk result (self.new.tokens.items ≡ self.old.tokens.items ++ if_any (option_map spelled_expr expr.now)) }
    {
        match expr {
            Some(expr) => self.expr(expr.get()),
            None => Ok(()),
        }
    }

    #[cycle(spell)]
    pub fn in_round(&mut self, expr: &Expr) -> Result<(), NoMemory>
        ensures { OnOk result (self.new.tokens.items ≡ self.old.tokens.items ++ round (spelled_expr expr.now)) }
    {
        self.sign(Sign::LeftParen)?;
        self.expr(expr)?;
        self.sign(Sign::RightParen)
    }

    /// Expressions in brackets, with commas between them.
    #[cycle(spell)]
    fn exprs_in(&mut self, brackets: Brackets, exprs: &[Expr]) -> Result<(), NoMemory>
        ensures { OnOk result (self.new.tokens.items ≡
            self.old.tokens.items ++ token.Sign brackets.0 ∷ commas (map spelled_expr exprs.now) ++ token.Sign brackets.1 ∷ []) }
    {
        self.sign(brackets.0)?;
        self.exprs(exprs)?;
        self.sign(brackets.1)
    }

    #[cycle(spell)]
    pub fn exprs(&mut self, exprs: &[Expr]) -> Result<(), NoMemory>
        ensures { OnOk result (self.new.tokens.items ≡ self.old.tokens.items ++ commas (map spelled_expr exprs.now)) }
    {
        let Some((first, more)) = exprs.split_first() else {
            return Ok(());
        };
        self.expr(first)?;
        for expr in more {
            self.sign(Sign::Comma)?;
            self.expr(expr)?;
        }
        Ok(())
    }

    /// Expressions, each after a comma.
    pub fn more_exprs(&mut self, exprs: &[Expr]) -> Result<(), NoMemory>
        ensures { OnOk result (self.new.tokens.items ≡
            self.old.tokens.items ++ each_after (token.Sign sign.Comma) (map spelled_expr exprs.now)) }
    {
        for expr in exprs {
            self.sign(Sign::Comma)?;
            self.expr(expr)?;
        }
        Ok(())
    }

    #[cycle(spell)]
    fn entries(&mut self, entries: &[Entry]) -> Result<(), NoMemory>
        ensures { OnOk result (self.new.tokens.items ≡ self.old.tokens.items ++ commas (map spelled_entry entries.now)) }
    {
        let Some((first, more)) = entries.split_first() else {
            return Ok(());
        };
        self.entry(first)?;
        for entry in more {
            self.sign(Sign::Comma)?;
            self.entry(entry)?;
        }
        Ok(())
    }

    #[cycle(spell)]
    fn entry(&mut self, entry: &Entry) -> Result<(), NoMemory>
        ensures { OnOk result (self.new.tokens.items ≡ self.old.tokens.items ++ spelled_entry entry.now) }
    {
        self.expr(&entry.key)?;
        self.sign(Sign::Colon)?;
        self.expr(&entry.value)
    }
}
