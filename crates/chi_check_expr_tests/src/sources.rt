//! Sources as trees.

use chi_lex::{MOST_BYTES, lex};
use chi_parse_expr::{parse_expr, parse_type};
use chi_token::Spanned;
use chi_tree::{Expr, TypeTree};
use std::alloc::Global;
use std::test::Fail;

fn parsed_expr(alloc: Global, tokens: &[Spanned]) -> Result<Option<Expr>, Fail> {
    if tokens.len() > MOST_BYTES {
        return Ok(None);
    }
    let (tree, end) = parse_expr(alloc, tokens, 0, 0)?;
    if end as usize == tokens.len() {
        Ok(Some(tree))
    } else {
        Ok(None)
    }
}

/// The expression that a source is, if it is one.
pub fn expr_of(alloc: Global, source: &[u8]) -> Result<Option<Expr>, Fail> {
    if source.len() > MOST_BYTES {
        return Ok(None);
    }
    let tokens = lex(alloc, source)?;
    parsed_expr(alloc, tokens.as_slice())
}

fn parsed_type(alloc: Global, tokens: &[Spanned]) -> Result<Option<TypeTree>, Fail> {
    if tokens.len() > MOST_BYTES {
        return Ok(None);
    }
    let (tree, end) = parse_type(alloc, tokens, 0, 0)?;
    if end as usize == tokens.len() {
        Ok(Some(tree))
    } else {
        Ok(None)
    }
}

/// The type that a source is, if it is one.
pub fn type_of(alloc: Global, source: &[u8]) -> Result<Option<TypeTree>, Fail> {
    if source.len() > MOST_BYTES {
        return Ok(None);
    }
    let tokens = lex(alloc, source)?;
    parsed_type(alloc, tokens.as_slice())
}
