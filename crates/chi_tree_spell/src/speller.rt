ghost use Rattle.std.specs.Prelude.{◌≡◌, ◌∷◌, [], ◌++◌, OnOk};
ghost use Rattle.chi_token.specs.declared.token.Token.TheVariants as token;
ghost use Rattle.chi_tree_spell.specs.Words.{name_token};

use chi_base::NoMemory;
use chi_token::{Bytes, Keyword, Sign, Token};
use chi_tree::Name;
use std::alloc::Global;

/// The tokens so far.
#[derive(Drop)]
pub struct Speller {
    pub alloc: Global,
    pub tokens: Vec<Token>,
}

impl Speller {
    pub fn put(&mut self, token: Token) -> Result<(), NoMemory>
        ensures { OnOk result (self.new.tokens.items ≡ self.old.tokens.items ++ token ∷ []) }
    {
        self.tokens.push(token)?;
        Ok(())
    }

    pub fn sign(&mut self, sign: Sign) -> Result<(), NoMemory>
        ensures { OnOk result (self.new.tokens.items ≡ self.old.tokens.items ++ token.Sign sign ∷ []) }
    {
        self.put(Token::Sign(sign))
    }

    pub fn word(&mut self, word: Keyword) -> Result<(), NoMemory>
        ensures { OnOk result (self.new.tokens.items ≡ self.old.tokens.items ++ token.Word word ∷ []) }
    {
        self.put(Token::Word(word))
    }

    pub fn name(&mut self, name: &Name) -> Result<(), NoMemory>
        ensures { OnOk result (self.new.tokens.items ≡ self.old.tokens.items ++ name_token name.now ∷ []) }
    {
        let text = Bytes::copy_of(self.alloc, name.text.as_slice())?;
        self.put(Token::Name(text))
    }

    pub fn int(&mut self, digits: &Bytes) -> Result<(), NoMemory>
        ensures { OnOk result (self.new.tokens.items ≡ self.old.tokens.items ++ token.Int digits.now ∷ []) }
    {
        let digits = Bytes::copy_of(self.alloc, digits.as_slice())?;
        self.put(Token::Int(digits))
    }

    pub fn real(&mut self, digits: &Bytes) -> Result<(), NoMemory>
        ensures { OnOk result (self.new.tokens.items ≡ self.old.tokens.items ++ token.Real digits.now ∷ []) }
    {
        let digits = Bytes::copy_of(self.alloc, digits.as_slice())?;
        self.put(Token::Real(digits))
    }

    pub fn text(&mut self, text: &Bytes) -> Result<(), NoMemory>
        ensures { OnOk result (self.new.tokens.items ≡ self.old.tokens.items ++ token.Text text.now ∷ []) }
    {
        let text = Bytes::copy_of(self.alloc, text.as_slice())?;
        self.put(Token::Text(text))
    }
}
