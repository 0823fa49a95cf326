//! Values as texts.

use std::alloc::Global;
use std::test::Fail;

/// A `Debug` text without the names of the structs that hold lists, strings and reals.
pub fn bare(alloc: Global, text: &str) -> Result<String, Fail> {
    let told = text.replace(alloc, "Row { shared: ", "")?;
    let told = told.replace(alloc, "Bytes { bytes: ", "")?;
    let told = told.replace(alloc, "Real { units: ", "")?;
    Ok(told.replace(alloc, " }", "")?)
}
