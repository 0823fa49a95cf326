ghost use Rattle.std.specs.Prelude.{◌≡◌, ◌∷◌, [], ◌++◌, OnOk, map};
ghost use Rattle.std.specs.Option.{option_map};
ghost use Rattle.chi_tree_spell.specs.Words.{if_any};
ghost use Rattle.chi_tree_spell.specs.Expressions.{further, way_tokens, size_tokens, carried_tokens, spelled_expr, spelled_type, spelled_formals, declared};

use crate::speller::Speller;
use crate::words::type_token;
use chi_base::{Boxed, NoMemory};
use chi_token::{Keyword, Sign, Token};
use chi_tree::{Expr, Formal, TypeTree, Way};

impl Speller {
    #[cycle(spell)]
    pub fn ty(&mut self, ty: &TypeTree) -> Result<(), NoMemory>
        ensures { OnOk result (self.new.tokens.items ≡ self.old.tokens.items ++ spelled_type ty.now) }
    {
        match ty {
            TypeTree::Word { word, .. } => self.put(type_token(*word)),
            TypeTree::Defined(name) => self.name(name),
            TypeTree::List { size, element, .. } => {
                self.word(Keyword::ListWord)?;
                self.size(size)?;
                self.ty(element.get())
            }
            TypeTree::Set { element, .. } => {
                self.word(Keyword::SetWord)?;
                self.ty(element.get())
            }
            TypeTree::Dist { drawn, .. } => {
                self.word(Keyword::DistWord)?;
                self.ty(drawn.get())
            }
            TypeTree::Dict { key, value, .. } => {
                self.word(Keyword::DictWord)?;
                self.sign(Sign::LeftParen)?;
                self.ty(key.get())?;
                self.sign(Sign::Colon)?;
                self.ty(value.get())?;
                self.sign(Sign::RightParen)
            }
            TypeTree::Tuple { fields, .. } => {
                self.word(Keyword::TupleWord)?;
                self.sign(Sign::LeftParen)?;
                self.formals(fields.as_slice())?;
                self.sign(Sign::RightParen)
            }
            TypeTree::Chan { way, carried, .. } => {
                self.word(Keyword::ChanWord)?;
                self.way(*way)?;
                self.carried(carried)
            }
        }
    }

    /// The size of a list in brackets, where one is written.
    #[cycle(spell)]
    fn size(&mut self, size: &Option<Boxed<Expr>>) -> Result<(), NoMemory>
        ensures { OnOk result (self.new.tokens.items ≡ self.old.tokens.items ++ size_tokens (option_map spelled_expr size.now)) }
    {
        match size {
            Some(size) => self.in_round(size.get()),
            None => Ok(()),
        }
    }

    fn way(&mut self, way: Way) -> Result<(), NoMemory>
        ensures { OnOk result (self.new.tokens.items ≡ self.old.tokens.items ++ way_tokens way) }
    {
        match way {
            Way::Both => Ok(()),
            Way::Send => self.sign(Sign::Bang),
            Way::Receive => self.sign(Sign::Question),
        }
    }

    #[cycle(spell)]
    fn carried(&mut self, ty: &Option<Boxed<TypeTree>>) -> Result<(), NoMemory>
        ensures { OnOk result (self.new.tokens.items ≡ self.old.tokens.items ++ carried_tokens (option_map spelled_type ty.now)) }
    {
        match ty {
            Some(ty) => self.ty(ty.get()),
            None => self.word(Keyword::VoidWord),
        }
    }

    #[cycle(spell)]
    pub fn formals(&mut self, formals: &[Formal]) -> Result<(), NoMemory>
        ensures { OnOk result (self.new.tokens.items ≡ self.old.tokens.items ++ spelled_formals formals.now) }
    {
        let Some((first, more)) = formals.split_first() else {
            return Ok(());
        };
        self.ty_if(&first.ty)?;
        self.name(&first.name)?;
        for formal in more {
            self.further(formal)?;
        }
        Ok(())
    }

    #[cycle(spell)]
    fn ty_if(&mut self, ty: &Option<Boxed<TypeTree>>) -> Result<(), NoMemory>
        ensures { OnOk result (self.new.tokens.items ≡ self.old.tokens.items ++ if_any (option_map spelled_type ty.now)) }
    {
        match ty {
            Some(ty) => self.ty(ty.get()),
            None => Ok(()),
        }
    }

    /// A formal after another.
    #[cycle(spell)]
    fn further(&mut self, formal: &Formal) -> Result<(), NoMemory>
        ensures { OnOk result (self.new.tokens.items ≡ self.old.tokens.items ++ further (declared formal.now)) }
    {
        match &formal.ty {
            Some(ty) => {
                self.sign(Sign::Semicolon)?;
                self.ty(ty.get())?;
            }
            None => self.sign(Sign::Comma)?,
        }
        self.name(&formal.name)
    }
}
