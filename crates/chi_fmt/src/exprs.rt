ghost use Rattle.std.specs.Prelude.{◌≡◌, ◌∷◌, [], ◌++◌, OnOk, map};
ghost use Rattle.std.specs.Option.{option_map};
ghost use Rattle.chi_token.specs.declared.sign.Sign.TheVariants as mark;
ghost use Rattle.chi_token.specs.declared.token.Token.TheVariants as token;
ghost use Rattle.chi_tree_spell.specs.Words.{all, each_after, if_any, cast_token};
ghost use Rattle.chi_tree_spell.specs.Expressions.{put_by};
ghost use Rattle.chi_fmt.specs.declared.spot.Role.TheVariants.{Usual};
ghost use Rattle.chi_fmt.specs.Expressions.{closing, commas, curly, entry_spots, expr_spots, link_spots, postfix_spots, prefix_role, round, spot, type_spots, usual};
ghost use Rattle.chi_fmt.specs.Parts.{name_spot, sign};

use crate::draft::Draft;
use crate::spot::Role;
use chi_base::{Boxed, NoMemory};
use chi_token::{Keyword, Sign, Token};
use chi_tree::{CastWord, Entry, Expr, Link, Name, Postfix, PrefixSign, TypeTree};
use chi_tree_spell::words::{
    cast_token, operator_token, prefix_token, relation_token, truth_token,
};

/// The sign that opens and the one that closes.
type Brackets = (Sign, Sign);

/// A sign with its role.
type Marked = (Sign, Role);

const OPENING: Marked = (Sign::Less, Role::Opens);

const COLON: Marked = (Sign::Colon, Role::Usual);

const ROUND: Brackets = (Sign::LeftParen, Sign::RightParen);

const SQUARE: Brackets = (Sign::LeftBracket, Sign::RightBracket);

const CURLY: Brackets = (Sign::LeftBrace, Sign::RightBrace);

impl Draft {
    #[cycle(spell)]
    pub fn expr(&mut self, expr: &Expr) -> Result<(), NoMemory>
        ensures { OnOk result (self.new.spots.items ≡ self.old.spots.items ++ expr_spots expr.now) }
    {
        match expr {
            Expr::Chain { first, links } => {
                self.expr(first.get())?;
                self.links(links.as_slice())
            }
            Expr::Prefix { sign, operand, .. } => {
                self.put_as(prefix_token(*sign), prefix_role(*sign))?;
                self.expr(operand.get())
            }
            Expr::Relation {
                left,
                sign,
                right,
                ..
            } => {
                self.expr(left.get())?;
                self.operated(relation_token(*sign), right.get())
            }
            Expr::Power { base, exponent, .. } => {
                self.expr(base.get())?;
                self.operated(Token::Sign(Sign::Caret), exponent.get())
            }
            Expr::Part { whole, postfixes } => {
                self.expr(whole.get())?;
                self.postfixes(postfixes.as_slice())
            }
            Expr::Int { digits, .. } => self.int(digits),
            Expr::Real { digits, .. } => self.real(digits),
            Expr::Text { bytes, .. } => self.text(bytes),
            Expr::Bool { truth, .. } => self.put(truth_token(*truth)),
            Expr::Time(_) => self.word(Keyword::TimeWord),
            Expr::Named(name) => self.name(name),
            Expr::Call { name, arguments } => self.call(name, arguments.as_slice()),
            Expr::Cast { word, operand, .. } => self.cast(*word, operand.get()),
            Expr::Round { inner, .. } => self.in_round(inner.get()),
            Expr::TupleOf { parts, .. } => self.exprs_in(ROUND, parts.as_slice()),
            Expr::ListOf { elements, .. } => self.exprs_in(SQUARE, elements.as_slice()),
            Expr::SetOf { elements, .. } => self.exprs_in(CURLY, elements.as_slice()),
            Expr::DictOf { entries, .. } => self.dictionary(entries.as_slice()),
            Expr::EmptyList { element, .. } => self.empty(OPENING, element.get(), SQUARE),
            Expr::EmptySet { element, .. } => self.empty(OPENING, element.get(), CURLY),
            Expr::EmptyDict { key, value, .. } => {
                self.after(OPENING, key.get())?;
                self.empty(COLON, value.get(), CURLY)
            }
        }
    }

    /// An operand after its operator.
    #[cycle(spell)]
    fn operated(&mut self, operator: Token, operand: &Expr) -> Result<(), NoMemory>
        ensures { OnOk result (self.new.spots.items ≡ self.old.spots.items ++ spot operator Usual ∷ expr_spots operand.now) }
    {
        self.put(operator)?;
        self.expr(operand)
    }

    #[cycle(spell)]
    pub fn call(&mut self, name: &Name, arguments: &[Expr]) -> Result<(), NoMemory>
        ensures { OnOk result (self.new.spots.items ≡ self.old.spots.items ++ name_spot name.now ∷ round (commas (map expr_spots arguments.now))) }
    {
        self.name(name)?;
        self.exprs_in(ROUND, arguments)
    }

    #[cycle(spell)]
    fn cast(&mut self, word: CastWord, operand: &Expr) -> Result<(), NoMemory>
        ensures { OnOk result (self.new.spots.items ≡ self.old.spots.items ++ spot (cast_token word) Usual ∷ round (expr_spots operand.now)) }
    {
        self.put(cast_token(word))?;
        self.in_round(operand)
    }

    #[cycle(spell)]
    fn dictionary(&mut self, entries: &[Entry]) -> Result<(), NoMemory>
        ensures { OnOk result (self.new.spots.items ≡ self.old.spots.items ++ curly (commas (map entry_spots entries.now))) }
    {
        self.sign(Sign::LeftBrace)?;
        self.entries(entries)?;
        self.sign(Sign::RightBrace)
    }

    /// The type of an empty literal, after the sign before it.
    #[cycle(spell)]
    fn after(&mut self, before: Marked, ty: &TypeTree) -> Result<(), NoMemory>
        ensures { OnOk result (self.new.spots.items ≡ self.old.spots.items ++ spot (token.Sign before.0) before.1 ∷ type_spots ty.now) }
    {
        self.put_as(Token::Sign(before.0), before.1)?;
        self.ty(ty)
    }

    /// The last type of an empty literal, after the sign before it, and the brackets.
    #[cycle(spell)]
    fn empty(&mut self, before: Marked, ty: &TypeTree, brackets: Brackets) -> Result<(), NoMemory>
        ensures { OnOk result (self.new.spots.items ≡ self.old.spots.items ++
            spot (token.Sign before.0) before.1 ∷ type_spots ty.now ++ closing ∷ sign brackets.0 ∷ sign brackets.1 ∷ []) }
    {
        self.after(before, ty)?;
        self.put_as(Token::Sign(Sign::Greater), Role::Closes)?;
        self.sign(brackets.0)?;
        self.sign(brackets.1)
    }

    #[cycle(spell)]
    fn links(&mut self, links: &[Link]) -> Result<(), NoMemory>
        ensures { OnOk result (self.new.spots.items ≡ self.old.spots.items ++ all (map link_spots links.now)) }
    {
        for link in links {
            self.put(operator_token(link.operator))?;
            self.expr(&link.operand)?;
        }
        Ok(())
    }

    #[cycle(spell)]
    pub fn postfixes(&mut self, postfixes: &[Postfix]) -> Result<(), NoMemory>
        ensures { OnOk result (self.new.spots.items ≡ self.old.spots.items ++ all (map postfix_spots postfixes.now)) }
    {
        for postfix in postfixes {
            self.postfix(postfix)?;
        }
        Ok(())
    }

    #[cycle(spell)]
    fn postfix(&mut self, postfix: &Postfix) -> Result<(), NoMemory>
        ensures { OnOk result (self.new.spots.items ≡ self.old.spots.items ++ postfix_spots postfix.now) }
    {
        match postfix {
            Postfix::Index { index, .. } => {
                self.sign(Sign::LeftBracket)?;
                self.expr(index.get())?;
                self.sign(Sign::RightBracket)
            }
            Postfix::Slice {
                from,
                upto,
                second_colon,
                by,
                ..
            } => {
                self.sign(Sign::LeftBracket)?;
                self.expr_if(from)?;
                self.sign(Sign::Colon)?;
                self.expr_if(upto)?;
                self.by_step(*second_colon, by)?;
                self.sign(Sign::RightBracket)
            }
            Postfix::Field(name) => self.field(name),
        }
    }

    /// The second colon of a slice, where one stands, and what is after it.
    #[cycle(spell)]
    fn by_step(&mut self, second_colon: bool, by: &Option<Boxed<Expr>>) -> Result<(), NoMemory>
        ensures { OnOk result (self.new.spots.items ≡ self.old.spots.items ++ put_by usual second_colon (option_map expr_spots by.now)) }
    {
        if !second_colon {
            return Ok(());
        }
        self.sign(Sign::Colon)?;
        self.expr_if(by)
    }

    fn field(&mut self, name: &Name) -> Result<(), NoMemory>
        ensures { OnOk result (self.new.spots.items ≡ self.old.spots.items ++ sign mark.Dot ∷ name_spot name.now ∷ []) }
    {
        self.sign(Sign::Dot)?;
        self.name(name)
    }

    #[cycle(spell)]
    fn expr_if(&mut self, expr: &Option<Boxed<Expr>>) -> Result<(), NoMemory>
        ensures { OnOk result (self.new.spots.items ≡ self.old.spots.items ++ if_any (option_map expr_spots expr.now)) }
    {
        match expr {
            Some(expr) => self.expr(expr.get()),
            None => Ok(()),
        }
    }

    #[cycle(spell)]
    pub fn in_round(&mut self, expr: &Expr) -> Result<(), NoMemory>
        ensures { OnOk result (self.new.spots.items ≡ self.old.spots.items ++ round (expr_spots expr.now)) }
    {
        self.sign(Sign::LeftParen)?;
        self.expr(expr)?;
        self.sign(Sign::RightParen)
    }

    /// Expressions in brackets, with commas between them.
    #[cycle(spell)]
    fn exprs_in(&mut self, brackets: Brackets, exprs: &[Expr]) -> Result<(), NoMemory>
        ensures { OnOk result (self.new.spots.items ≡
            self.old.spots.items ++ sign brackets.0 ∷ commas (map expr_spots exprs.now) ++ sign brackets.1 ∷ []) }
    {
        self.sign(brackets.0)?;
        self.exprs(exprs)?;
        self.sign(brackets.1)
    }

    #[cycle(spell)]
    pub fn exprs(&mut self, exprs: &[Expr]) -> Result<(), NoMemory>
        ensures { OnOk result (self.new.spots.items ≡ self.old.spots.items ++ commas (map expr_spots exprs.now)) }
    {
        let Some((first, more)) = exprs.split_first() else {
            return Ok(());
        };
        self.expr(first)?;
        for expr in more {
            self.sign(Sign::Comma)?;
            self.expr(expr)?;
        }
        Ok(())
    }

    /// Expressions, each after a comma.
    pub fn more_exprs(&mut self, exprs: &[Expr]) -> Result<(), NoMemory>
        ensures { OnOk result (self.new.spots.items ≡
            self.old.spots.items ++ each_after (sign mark.Comma) (map expr_spots exprs.now)) }
    {
        for expr in exprs {
            self.sign(Sign::Comma)?;
            self.expr(expr)?;
        }
        Ok(())
    }

    #[cycle(spell)]
    fn entries(&mut self, entries: &[Entry]) -> Result<(), NoMemory>
        ensures { OnOk result (self.new.spots.items ≡ self.old.spots.items ++ commas (map entry_spots entries.now)) }
    {
        let Some((first, more)) = entries.split_first() else {
            return Ok(());
        };
        self.entry(first)?;
        for entry in more {
            self.sign(Sign::Comma)?;
            self.entry(entry)?;
        }
        Ok(())
    }

    #[cycle(spell)]
    fn entry(&mut self, entry: &Entry) -> Result<(), NoMemory>
        ensures { OnOk result (self.new.spots.items ≡ self.old.spots.items ++ entry_spots entry.now) }
    {
        self.expr(&entry.key)?;
        self.sign(Sign::Colon)?;
        self.expr(&entry.value)
    }
}

/// A `-` or `+` stands in front of its operand; the other two are words like others.
fn prefix_role(sign: PrefixSign) -> Role
    ensures { result ≡ prefix_role sign }
{
    match sign {
        PrefixSign::Minus | PrefixSign::Plus => Role::Prefix,
        PrefixSign::Not | PrefixSign::Sample => Role::Usual,
    }
}
