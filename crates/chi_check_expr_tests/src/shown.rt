//! Expressions of the core as texts.

use chi_core::CExpr;
use std::alloc::Global;
use std::test::Fail;

/// The `Debug` text of an expression, without the names of the structs that hold lists and boxed parts.
pub fn shown(alloc: Global, e: &CExpr) -> Result<String, Fail> {
    let told = format!(in alloc; "{e:?}")?;
    let told = told.replace(alloc, "Items { elements: ", "")?;
    let told = told.replace(alloc, "Boxed { inner: ", "")?;
    Ok(told.replace(alloc, " }", "")?)
}
