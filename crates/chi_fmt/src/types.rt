ghost use Rattle.std.specs.Prelude.{◌≡◌, ◌∷◌, [], ◌++◌, OnOk, map};
ghost use Rattle.std.specs.Option.{option_map};
ghost use Rattle.chi_tree_spell.specs.Words.{if_any};
ghost use Rattle.chi_tree_spell.specs.Expressions.{put_carried, put_further, put_size, put_way};
ghost use Rattle.chi_token.specs.declared.sign.Sign.TheVariants as mark;
ghost use Rattle.chi_fmt.specs.Definitions.{exit_type_spots};
ghost use Rattle.chi_fmt.specs.Expressions.{expr_spots, formal_spots, formals_spots, round, type_spots, usual};
ghost use Rattle.chi_fmt.specs.Parts.{sign};

use crate::draft::Draft;
use chi_base::{Boxed, NoMemory};
use chi_token::{Keyword, Sign};
use chi_tree::{Expr, Formal, TypeTree, Way};
use chi_tree_spell::words::type_token;

impl Draft {
    #[cycle(spell)]
    pub fn ty(&mut self, ty: &TypeTree) -> Result<(), NoMemory>
        ensures { OnOk result (self.new.spots.items ≡ self.old.spots.items ++ type_spots ty.now) }
    {
        match ty {
            TypeTree::Word { word, .. } => self.put(type_token(*word)),
            TypeTree::Defined(name) => self.name(name),
            TypeTree::List { size, element, .. } => {
                self.word(Keyword::ListWord)?;
                self.size(size)?;
                self.ty(element.get())
            }
            TypeTree::Set { element, .. } => {
                self.word(Keyword::SetWord)?;
                self.ty(element.get())
            }
            TypeTree::Dist { drawn, .. } => {
                self.word(Keyword::DistWord)?;
                self.ty(drawn.get())
            }
            TypeTree::Dict { key, value, .. } => {
                self.word(Keyword::DictWord)?;
                self.sign(Sign::LeftParen)?;
                self.ty(key.get())?;
                self.sign(Sign::Colon)?;
                self.ty(value.get())?;
                self.sign(Sign::RightParen)
            }
            TypeTree::Tuple { fields, .. } => {
                self.word(Keyword::TupleWord)?;
                self.sign(Sign::LeftParen)?;
                self.formals(fields.as_slice())?;
                self.sign(Sign::RightParen)
            }
            TypeTree::Chan { way, carried, .. } => {
                self.word(Keyword::ChanWord)?;
                self.way(*way)?;
                self.carried(carried)
            }
        }
    }

    /// The size of a list in brackets, where one is written.
    #[cycle(spell)]
    fn size(&mut self, size: &Option<Boxed<Expr>>) -> Result<(), NoMemory>
        ensures { OnOk result (self.new.spots.items ≡ self.old.spots.items ++ put_size usual (option_map expr_spots size.now)) }
    {
        match size {
            Some(size) => self.in_round(size.get()),
            None => Ok(()),
        }
    }

    fn way(&mut self, way: Way) -> Result<(), NoMemory>
        ensures { OnOk result (self.new.spots.items ≡ self.old.spots.items ++ put_way usual way) }
    {
        match way {
            Way::Both => Ok(()),
            Way::Send => self.sign(Sign::Bang),
            Way::Receive => self.sign(Sign::Question),
        }
    }

    #[cycle(spell)]
    fn carried(&mut self, ty: &Option<Boxed<TypeTree>>) -> Result<(), NoMemory>
        ensures { OnOk result (self.new.spots.items ≡ self.old.spots.items ++ put_carried usual (option_map type_spots ty.now)) }
    {
        match ty {
            Some(ty) => self.ty(ty.get()),
            None => self.word(Keyword::VoidWord),
        }
    }

    #[cycle(spell)]
    pub fn formals(&mut self, formals: &[Formal]) -> Result<(), NoMemory>
        ensures { OnOk result (self.new.spots.items ≡ self.old.spots.items ++ formals_spots formals.now) }
    {
        let Some((first, more)) = formals.split_first() else {
            return Ok(());
        };
        self.ty_if(&first.ty)?;
        self.name(&first.name)?;
        for formal in more {
            self.further(formal)?;
        }
        Ok(())
    }

    #[cycle(spell)]
    fn ty_if(&mut self, ty: &Option<Boxed<TypeTree>>) -> Result<(), NoMemory>
        ensures { OnOk result (self.new.spots.items ≡ self.old.spots.items ++ if_any (option_map type_spots ty.now)) }
    {
        match ty {
            Some(ty) => self.ty(ty.get()),
            None => Ok(()),
        }
    }

    /// A formal after another.
    #[cycle(spell)]
    fn further(&mut self, formal: &Formal) -> Result<(), NoMemory>
        ensures { OnOk result (self.new.spots.items ≡ self.old.spots.items ++ put_further usual (formal_spots formal.now)) }
    {
        match &formal.ty {
            Some(ty) => {
                self.sign(Sign::Semicolon)?;
                self.ty(ty.get())?;
            }
            None => self.sign(Sign::Comma)?,
        }
        self.name(&formal.name)
    }

    pub fn some_type(&mut self, ty: &Option<TypeTree>) -> Result<(), NoMemory>
        ensures { OnOk result (self.new.spots.items ≡ self.old.spots.items ++ exit_type_spots ty.now) }
    {
        match ty {
            Some(ty) => self.ty(ty),
            None => Ok(()),
        }
    }

    /// Parameters in brackets, and a colon.
    pub fn parameters(&mut self, formals: &[Formal]) -> Result<(), NoMemory>
        ensures { OnOk result (self.new.spots.items ≡
            self.old.spots.items ++ round (formals_spots formals.now) ++ sign mark.Colon ∷ []) }
    {
        self.sign(Sign::LeftParen)?;
        self.formals(formals)?;
        self.sign(Sign::RightParen)?;
        self.sign(Sign::Colon)
    }
}
