//! The text that the items of a page show.
use std::alloc::Global;
use std::test::Fail;
use wt_expand::{expanded, page_items};
use wt_span::NoMemory;

/// Whether the items of a short page show this text.
fn shows(alloc: Global, page: &str, text: &str) -> Result<bool, NoMemory> {
    if page.len() > 1000 {
        return Ok(false);
    }
    let items = page_items(alloc, page)?;
    let shown = expanded(alloc, &items)?;
    Ok(shown.as_str() == text)
}

#[test]
fn marks_are_not_shown(rt: HostRuntime) -> Result<(), Fail> {
    let page = "a\u{e9}<!-- c -->&amp;<nowiki>b</nowiki><noinclude>d</noinclude>";
    assert!(rt; shows(rt.alloc(), page, "a\u{e9}&amp;<nowiki>b</nowiki>d")?);
    Ok(())
}
