ghost use Rattle.std.specs.Prelude.{◌≡◌, ◌∷◌, [], ◌++◌, OnOk};
ghost use Rattle.chi_token.specs.declared.token.Token.TheVariants as token;
ghost use Rattle.chi_fmt.specs.Expressions.{spot};
ghost use Rattle.chi_fmt.specs.Parts.{name_spot, sign, word};
ghost use Rattle.chi_fmt.specs.declared.spot.Role.TheVariants.{Usual};

use crate::spot::{Role, Spot};
use chi_base::NoMemory;
use chi_token::{Bytes, Keyword, Sign, Token};
use chi_tree::Name;
use std::alloc::Global;

/// The tokens of a line so far.
#[derive(Drop)]
pub struct Draft {
    pub alloc: Global,
    pub spots: Vec<Spot>,
}

impl Draft {
    pub fn put_as(&mut self, token: Token, role: Role) -> Result<(), NoMemory>
        ensures { OnOk result (self.new.spots.items ≡ self.old.spots.items ++ spot token role ∷ []) }
    {
        self.spots.push(Spot { token, role })?;
        Ok(())
    }

    pub fn put(&mut self, token: Token) -> Result<(), NoMemory>
        ensures { OnOk result (self.new.spots.items ≡ self.old.spots.items ++ spot token Usual ∷ []) }
    {
        self.put_as(token, Role::Usual)
    }

    pub fn sign(&mut self, mark: Sign) -> Result<(), NoMemory>
        ensures { OnOk result (self.new.spots.items ≡ self.old.spots.items ++ sign mark ∷ []) }
    {
        self.put(Token::Sign(mark))
    }

    pub fn word(&mut self, keyword: Keyword) -> Result<(), NoMemory>
        ensures { OnOk result (self.new.spots.items ≡ self.old.spots.items ++ word keyword ∷ []) }
    {
        self.put(Token::Word(keyword))
    }

    pub fn name(&mut self, name: &Name) -> Result<(), NoMemory>
        ensures { OnOk result (self.new.spots.items ≡ self.old.spots.items ++ name_spot name.now ∷ []) }
    {
        let text = name.text.copy()?;
        self.put(Token::Name(text))
    }

    pub fn int(&mut self, digits: &Bytes) -> Result<(), NoMemory>
        ensures { OnOk result (self.new.spots.items ≡ self.old.spots.items ++ spot (token.Int digits.now) Usual ∷ []) }
    {
        let digits = digits.copy()?;
        self.put(Token::Int(digits))
    }

    pub fn real(&mut self, digits: &Bytes) -> Result<(), NoMemory>
        ensures { OnOk result (self.new.spots.items ≡ self.old.spots.items ++ spot (token.Real digits.now) Usual ∷ []) }
    {
        let digits = digits.copy()?;
        self.put(Token::Real(digits))
    }

    pub fn text(&mut self, text: &Bytes) -> Result<(), NoMemory>
        ensures { OnOk result (self.new.spots.items ≡ self.old.spots.items ++ spot (token.Text text.now) Usual ∷ []) }
    {
        let text = text.copy()?;
        self.put(Token::Text(text))
    }
}
