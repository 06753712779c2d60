//! A `nowiki` of the page whose text was changed: its tags stay, and what is in it is written as it is shown.

use std::alloc::Global;
use wt_known::{Block, Known, joined};
use wt_original::shown_text;
use wt_span::{NoMemory, Str};
use wt_tree::{Kind, Node, flat};

/// Whether what comes after `&` may make a reference of it.
fn opens_reference(text: &str) -> bool {
    match text.as_bytes().first() {
        Some(byte) => byte.is_ascii_alphabetic() || *byte == b'#',
        None => false,
    }
}

/// Whether a text may hold an end tag of `nowiki`.
fn may_hold_end(text: &[u8]) -> bool {
    let mut before = b' ';
    let mut last = b' ';
    for byte in text {
        if before == b'<' && last == b'/' && (*byte == b'n' || *byte == b'N') {
            return true;
        }
        before = last;
        last = *byte;
    }
    false
}

/// Appends a text in which nothing but references is read.
fn push_raw(out: &mut Str, text: &str) -> Result<(), NoMemory> {
    let mut is_first = true;
    for piece in text.split('&') {
        if !is_first {
            out.push_str(if opens_reference(piece) { "&amp;" } else { "&" })?;
        }
        is_first = false;
        out.push_str(piece)?;
    }
    Ok(())
}

/// The source of a reference of the page, where it shows this text still.
fn source_of_reference<'t, 'a>(
    alloc: Global,
    known: &Known<'t, 'a>,
    block: &Option<Block<'t, 'a>>,
    number: u32,
    text: &str,
) -> Result<Option<Str>, NoMemory> {
    if number == 0 {
        return Ok(None);
    }
    let Some(kept) = known.find(block, number) else {
        return Ok(None);
    };
    let shown = shown_text(alloc, kept.node)?;
    if shown.as_str() != text {
        return Ok(None);
    }
    let source = flat(alloc, kept.node)?;
    Ok(Some(source))
}

/// A changed `nowiki`, which was this node of the page, with its tags; None of another node, of one that is empty
/// now, and where the text could end it.
pub fn nowiki_round<'t, 'a>(
    alloc: Global,
    known: &Known<'t, 'a>,
    block: &Option<Block<'t, 'a>>,
    old: &Node<'_>,
    node: &Node<'_>,
) -> Result<Option<Str>, NoMemory> {
    let text = shown_text(alloc, node)?;
    let are_both = matches!(old.kind, Kind::Nowiki) && matches!(node.kind, Kind::Nowiki);
    if !are_both || old.closing().is_empty() || text.is_empty() || may_hold_end(text.as_bytes()) {
        return Ok(None);
    }
    let mut out = joined(alloc, old.opening())?;
    for child in node.children.as_slice() {
        let text = shown_text(alloc, child)?;
        match source_of_reference(alloc, known, block, child.id, text.as_str())? {
            Some(source) => out.push_str(source.as_str())?,
            None => push_raw(&mut out, text.as_str())?,
        }
    }
    let closing = joined(alloc, old.closing())?;
    out.push_str(closing.as_str())?;
    Ok(Some(out))
}
