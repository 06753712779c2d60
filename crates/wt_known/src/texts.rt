//! Texts of the page in one.

use std::alloc::Global;
use wt_span::{NoMemory, Str, Text};
use wt_tree::push_texts;

/// Texts that follow one another in one.
pub fn joined(alloc: Global, texts: &[Text<'_>]) -> Result<Str, NoMemory> {
    let mut out = Str::new(alloc);
    push_texts(&mut out, texts)?;
    Ok(out)
}
