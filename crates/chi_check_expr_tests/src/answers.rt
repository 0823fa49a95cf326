//! What a source comes to, as a text. Where a rule is broken that is the number of the first one with the
//! line and the column of the place; else `untyped`, where it has no type, and `unread`, where it is no tree.

use crate::names::no_names;
use crate::shown::shown;
use crate::sources::{expr_of, type_of};
use chi_check_expr::{Scope, Site, TypeFault, type_expr, type_in, type_tree};
use chi_check_types::Fault;
use chi_token::Place;
use chi_tree::{Expr, TypeTree};
use std::alloc::Global;
use std::test::Fail;

fn broken(alloc: Global, rule: u8, place: Place) -> Result<String, Fail> {
    let (line, column) = (place.line, place.column);
    Ok(format!(in alloc; "{rule} at {line}:{column}")?)
}

fn unread(alloc: Global) -> Result<String, Fail> {
    Ok("unread".to_string(alloc)?)
}

fn untyped(alloc: Global) -> Result<String, Fail> {
    Ok("untyped".to_string(alloc)?)
}

fn tree_answer(alloc: Global, tree: &Expr, scope: &Scope, site: Site) -> Result<String, Fail> {
    let mut kept = None;
    let made = type_in(alloc, tree, scope, site, &mut kept)?;
    if let Some(Fault { rule, place }) = kept {
        drop(made);
        return broken(alloc, rule, place);
    }
    let told = match &made {
        Some(made) => shown(alloc, &made.core),
        None => untyped(alloc),
    };
    drop(made);
    told
}

/// Of an expression: its core, or what is broken.
pub fn expr_answer(
    alloc: Global,
    source: &[u8],
    scope: &Scope,
    site: Site,
) -> Result<String, Fail> {
    match expr_of(alloc, source)? {
        Some(tree) => {
            let told = tree_answer(alloc, &tree, scope, site);
            drop(tree);
            told
        }
        None => unread(alloc),
    }
}

fn refused(alloc: Global, fault: TypeFault) -> Result<String, Fail> {
    match fault {
        TypeFault::Broken { rule, place } => broken(alloc, rule, place),
        TypeFault::NoMemory => Err(Fail::from(TypeFault::NoMemory)),
    }
}

fn tree_core(alloc: Global, tree: &Expr) -> Result<String, Fail> {
    let scope = no_names(alloc);
    let typed = type_expr(alloc, tree, &scope, Site::Constant);
    drop(scope);
    match typed {
        Ok((core, ty)) => {
            drop(ty);
            let told = shown(alloc, &core);
            drop(core);
            told
        }
        Err(fault) => refused(alloc, fault),
    }
}

/// Of an expression of a constant where no name is visible: its core, or what is broken.
pub fn expr_call(alloc: Global, source: &'static str) -> Result<String, Fail> {
    match expr_of(alloc, source.as_bytes())? {
        Some(tree) => {
            let told = tree_core(alloc, &tree);
            drop(tree);
            told
        }
        None => unread(alloc),
    }
}

fn tree_default(alloc: Global, tree: &TypeTree) -> Result<String, Fail> {
    let scope = no_names(alloc);
    let typed = type_tree(alloc, tree, &scope, Site::Process, true);
    drop(scope);
    match typed {
        Ok((ty, default)) => {
            drop(ty);
            let told = shown(alloc, &default);
            drop(default);
            told
        }
        Err(fault) => refused(alloc, fault),
    }
}

/// Of the type of a local variable where no name is visible: its default, or what is broken.
pub fn type_call(alloc: Global, source: &'static str) -> Result<String, Fail> {
    match type_of(alloc, source.as_bytes())? {
        Some(tree) => {
            let told = tree_default(alloc, &tree);
            drop(tree);
            told
        }
        None => unread(alloc),
    }
}
