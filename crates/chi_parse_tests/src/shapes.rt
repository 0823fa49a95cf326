//! How expressions and types are grouped, as text for the tests.
use chi_base::Boxed;
use chi_tree::{Expr, Formal, Postfix, TypeTree};
use std::alloc::Global;
use std::fmt::Debug;
use std::test::Fail;

/// The text so far.
#[derive(Drop)]
struct Shaper {
    alloc: Global,
    text: String,
}

/// An expression, each operation in brackets with the words of its operators, and where it ends.
pub fn shape(alloc: Global, e: &Expr, end: u32) -> Result<String, Fail> {
    let mut shaper = Shaper {
        alloc,
        text: String::new(alloc),
    };
    shaper.expr(e)?;
    shaper.ended(end)
}

/// A type, with the words of its tree, and where it ends.
pub fn type_shape(alloc: Global, ty: &TypeTree, end: u32) -> Result<String, Fail> {
    let mut shaper = Shaper {
        alloc,
        text: String::new(alloc),
    };
    shaper.ty(ty)?;
    shaper.ended(end)
}

impl Shaper {
    fn put(&mut self, text: &str) -> Result<(), Fail> {
        self.text.push_str(text)?;
        Ok(())
    }

    /// The text, with the index at which the tokens end.
    fn ended(self, end: u32) -> Result<String, Fail> {
        let Shaper { alloc, text } = self;
        Ok(format!(in alloc; "{text} {end}")?)
    }

    fn bytes(&mut self, bytes: &[u8]) -> Result<(), Fail> {
        let text = std::str::from_utf8(bytes)?;
        self.put(text)
    }

    fn word<W: Debug>(&mut self, word: &W) -> Result<(), Fail> {
        let text = format!(in self.alloc; "{word:?}")?;
        self.put(text.as_str())
    }

    #[cycle(shape)]
    fn expr(&mut self, e: &Expr) -> Result<(), Fail> {
        match e {
            Expr::Chain { first, links } => {
                self.put("(")?;
                self.expr(first.get())?;
                for link in links.as_slice() {
                    self.put(" ")?;
                    self.word(&link.operator)?;
                    self.put(" ")?;
                    self.expr(&link.operand)?;
                }
                self.put(")")
            }
            Expr::Prefix { sign, operand, .. } => {
                self.put("(")?;
                self.word(sign)?;
                self.put(" ")?;
                self.expr(operand.get())?;
                self.put(")")
            }
            Expr::Relation {
                left,
                sign,
                right,
                ..
            } => {
                self.put("(")?;
                self.expr(left.get())?;
                self.put(" ")?;
                self.word(sign)?;
                self.put(" ")?;
                self.expr(right.get())?;
                self.put(")")
            }
            Expr::Power { base, exponent, .. } => {
                self.put("(")?;
                self.expr(base.get())?;
                self.put(" ^ ")?;
                self.expr(exponent.get())?;
                self.put(")")
            }
            _ => self.primary(e),
        }
    }

    #[cycle(shape)]
    fn primary(&mut self, e: &Expr) -> Result<(), Fail> {
        match e {
            Expr::Part { whole, postfixes } => {
                self.expr(whole.get())?;
                for postfix in postfixes.as_slice() {
                    self.postfix(postfix)?;
                }
                Ok(())
            }
            Expr::Int { digits, .. } | Expr::Real { digits, .. } => self.bytes(digits.as_slice()),
            Expr::Text { bytes, .. } => self.bytes(bytes.as_slice()),
            Expr::Bool { truth, .. } => self.word(truth),
            Expr::Named(name) => self.bytes(name.text.as_slice()),
            Expr::Call { name, arguments } => {
                self.bytes(name.text.as_slice())?;
                self.exprs("", arguments.as_slice())
            }
            Expr::Cast { word, operand, .. } => {
                self.put("cast ")?;
                self.word(word)?;
                self.in_brackets("", operand.get())
            }
            Expr::Round { inner, .. } => self.in_brackets("round", inner.get()),
            Expr::TupleOf { parts, .. } => self.exprs("tuple", parts.as_slice()),
            Expr::ListOf { elements, .. } => self.exprs("list", elements.as_slice()),
            Expr::SetOf { elements, .. } => self.exprs("set", elements.as_slice()),
            _ => self.typed(e),
        }
    }

    /// A dictionary, an empty literal or the time.
    #[cycle(shape)]
    fn typed(&mut self, e: &Expr) -> Result<(), Fail> {
        match e {
            Expr::DictOf { entries, .. } => {
                self.put("dict")?;
                for entry in entries.as_slice() {
                    self.put(" ")?;
                    self.expr(&entry.key)?;
                    self.put(": ")?;
                    self.expr(&entry.value)?;
                    self.put(";")?;
                }
                Ok(())
            }
            Expr::EmptyList { element, .. } => {
                self.put("empty list ")?;
                self.ty(element.get())
            }
            Expr::EmptySet { element, .. } => {
                self.put("empty set ")?;
                self.ty(element.get())
            }
            Expr::EmptyDict { key, value, .. } => {
                self.put("empty dict ")?;
                self.ty(key.get())?;
                self.put(": ")?;
                self.ty(value.get())
            }
            _ => self.put("time"),
        }
    }

    #[cycle(shape)]
    fn in_brackets(&mut self, before: &str, e: &Expr) -> Result<(), Fail> {
        self.put(before)?;
        self.put("(")?;
        self.expr(e)?;
        self.put(")")
    }

    #[cycle(shape)]
    fn exprs(&mut self, before: &str, exprs: &[Expr]) -> Result<(), Fail> {
        self.put(before)?;
        self.put("(")?;
        for e in exprs {
            self.expr(e)?;
            self.put(";")?;
        }
        self.put(")")
    }

    #[cycle(shape)]
    fn postfix(&mut self, postfix: &Postfix) -> Result<(), Fail> {
        match postfix {
            Postfix::Index { index, .. } => {
                self.put("[")?;
                self.expr(index.get())?;
                self.put("]")
            }
            Postfix::Slice {
                from,
                upto,
                second_colon,
                by,
                ..
            } => {
                self.put("[")?;
                self.bound(from)?;
                self.put(":")?;
                self.bound(upto)?;
                self.put(if *second_colon { ":" } else { "" })?;
                self.bound(by)?;
                self.put("]")
            }
            Postfix::Field(name) => {
                self.put(".")?;
                self.bytes(name.text.as_slice())
            }
        }
    }

    #[cycle(shape)]
    fn bound(&mut self, bound: &Option<Boxed<Expr>>) -> Result<(), Fail> {
        match bound {
            Some(bound) => self.expr(bound.get()),
            None => Ok(()),
        }
    }

    #[cycle(shape)]
    fn ty(&mut self, ty: &TypeTree) -> Result<(), Fail> {
        match ty {
            TypeTree::Word { word, .. } => self.word(word),
            TypeTree::Defined(name) => self.bytes(name.text.as_slice()),
            TypeTree::List { size, element, .. } => {
                self.put("list(")?;
                self.bound(size)?;
                self.put(") ")?;
                self.ty(element.get())
            }
            TypeTree::Set { element, .. } => {
                self.put("set ")?;
                self.ty(element.get())
            }
            TypeTree::Dist { drawn, .. } => {
                self.put("dist ")?;
                self.ty(drawn.get())
            }
            TypeTree::Dict { key, value, .. } => {
                self.put("dict(")?;
                self.ty(key.get())?;
                self.put(": ")?;
                self.ty(value.get())?;
                self.put(")")
            }
            TypeTree::Tuple { fields, .. } => self.fields(fields.as_slice()),
            TypeTree::Chan { way, carried, .. } => {
                self.put("chan ")?;
                self.word(way)?;
                self.put(" ")?;
                match carried {
                    Some(carried) => self.ty(carried.get()),
                    None => self.put("void"),
                }
            }
        }
    }

    #[cycle(shape)]
    fn fields(&mut self, fields: &[Formal]) -> Result<(), Fail> {
        self.put("tuple(")?;
        for field in fields {
            if let Some(ty) = &field.ty {
                self.ty(ty.get())?;
                self.put(" ")?;
            }
            self.bytes(field.name.text.as_slice())?;
            self.put(";")?;
        }
        self.put(")")
    }
}
