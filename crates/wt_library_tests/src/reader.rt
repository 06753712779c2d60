//! HTML is read in pieces, and little of it is held.
use bumpalo::Bump;
use std::alloc::Global;
use std::process::Abort;
use std::test::Fail;
use wt_html_in::{Edited, HtmlRefusal, HtmlWhy, Reader};
use wt_span::NoMemory;

/// Whether what was read is refused at this place for its syntax.
fn is_refused(answer: Result<Edited<'_>, HtmlRefusal>, at: u32) -> bool {
    match answer {
        Err(HtmlRefusal::Html { place, why }) => place == at && why == HtmlWhy::Syntax,
        _ => false,
    }
}

/// Feeds a reader a paragraph of these letters, and then a tag that is broken off.
fn check_pieces(
    rt: &(impl Abort + AllocGlobal),
    letters: &[u8],
    arena: &Bump<Global>,
) -> Result<(), NoMemory> {
    if 1_000_000 < letters.len() {
        return Err(NoMemory);
    }
    let mut reader = Reader::new(rt.alloc(), arena)?;
    let head = reader.feed(b"<html><body><p>");
    let text = reader.feed(letters);
    assert!(rt; head.is_ok() && text.is_ok() && reader.kept() == 0);
    let open = reader.feed(b"&lt;<b id='mw1");
    assert!(rt; open.is_ok() && reader.kept() == 10);
    let refused = reader.feed(b"'/>");
    assert!(rt; refused.is_err() && reader.kept() == 0);
    assert!(rt; is_refused(reader.finish(), 1_000_030));
    Ok(())
}

#[test]
fn a_text_is_not_held_but_an_open_tag_is(rt: HostRuntime) -> Result<(), Fail> {
    let letters = vec![in rt.alloc(); b'a'; 1_000_000]?;
    let arena = Bump::new(rt.alloc());
    check_pieces(&rt, letters.as_slice(), &arena)?;
    Ok(())
}
