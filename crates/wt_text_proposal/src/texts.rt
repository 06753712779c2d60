//! A text between two nodes: what it has in common with the page's texts next to these stays as it was.

use crate::common::{common_back, common_front};
use std::alloc::Global;
use wt_guards::{Role, Stretch, Thing, Unit};
use wt_span::{NoMemory, Str};
use wt_tree::Node;

/// A text of the page that is there as it is shown: its bytes, and where it starts in the page.
#[derive(Clone, Copy)]
struct PageText<'t> {
    text: &'t [u8],
    start: usize,
}

fn page_text<'t>(text: Option<&'t Node<'_>>) -> Option<PageText<'t>> {
    let node = text?;
    let ranges = node.ranges?;
    let bytes = node.shown().as_bytes();
    if ranges.end.saturating_sub(ranges.start) as usize != bytes.len() {
        return None;
    }
    Some(PageText {
        text: bytes,
        start: ranges.start as usize,
    })
}

/// A front or back of a text that is that of one of the page: how many bytes, and where these start there.
#[derive(Clone, Copy)]
struct Common {
    length: usize,
    start: usize,
}

const NOTHING: Common = Common {
    length: 0,
    start: 0,
};

fn starts_at(text: Option<PageText<'_>>, start: usize) -> bool {
    match text {
        Some(found) => found.start == start,
        None => false,
    }
}

/// The text without its last byte.
fn shortened(text: &[u8]) -> &[u8] {
    match text.split_last() {
        Some((_, rest)) => rest,
        None => text,
    }
}

/// The front of a text that is that of the page's text on the left. Of the one text between two nodes the last
/// character, where it stays, counts for the back.
fn front_in(text: &[u8], left: Option<PageText<'_>>, right: Option<PageText<'_>>) -> Common {
    let Some(old) = left else {
        return NOTHING;
    };
    let is_one = starts_at(right, old.start) && old.text != text && old.text.last() == text.last();
    let length = if is_one {
        common_front(shortened(old.text), shortened(text))
    } else {
        common_front(old.text, text)
    };
    Common {
        length,
        start: old.start,
    }
}

/// The back of what is left of a text that is that of the page's text on the right. What counts for the front
/// doesn't count twice.
fn back_in(rest: &[u8], right: Option<PageText<'_>>, front: Common) -> Common {
    let Some(old) = right else {
        return NOTHING;
    };
    let most = if old.start == front.start {
        old.text.len().saturating_sub(front.length)
    } else {
        old.text.len()
    };
    let length = common_back(old.text, rest, most);
    Common {
        length,
        start: old
            .start
            .saturating_add(old.text.len())
            .saturating_sub(length),
    }
}

/// Appends characters that are written anew.
pub fn push_letters<'n>(out: &mut Vec<Unit<'n>>, text: &'n str) -> Result<(), NoMemory> {
    if !text.is_empty() {
        out.push(Unit::Text(text))?;
    }
    Ok(())
}

// ---- apostrophes beside delimiters

/// Appends what keeps two signs apart.
pub fn push_nowiki(alloc: Global, out: &mut Vec<Unit<'_>>) -> Result<(), NoMemory> {
    let source = Str::copy_of(alloc, "<nowiki/>")?;
    out.push(Unit::Thing(Thing {
        role: Role::Node,
        source,
        place: None,
    }))?;
    Ok(())
}

fn is_new_toggle(unit: &Unit<'_>) -> bool {
    match unit {
        Unit::Thing(thing) => matches!(thing.role, Role::Toggle) && thing.place.is_none(),
        Unit::Text(_) | Unit::Copied(_) => false,
    }
}

/// Whether what was appended last is a text of the page that ends with an apostrophe.
pub fn ends_with_apostrophe(out: &[Unit<'_>]) -> bool {
    match out.last() {
        Some(Unit::Thing(thing)) => {
            thing.place.is_some() && thing.source.as_str().as_bytes().last() == Some(&b'\'')
        }
        _ => false,
    }
}

fn is_behind_new_toggle(out: &[Unit<'_>]) -> bool {
    match out.last() {
        Some(unit) => is_new_toggle(unit),
        None => false,
    }
}

// ---- what stays

/// Appends characters that are in the page as they are, apart from a delimiter before them that an
/// apostrophe would lengthen.
fn push_standing(
    alloc: Global,
    out: &mut Vec<Unit<'_>>,
    text: &str,
    start: usize,
) -> Result<(), NoMemory> {
    if text.is_empty() {
        return Ok(());
    }
    if text.as_bytes().first() == Some(&b'\'') && is_behind_new_toggle(out.as_slice()) {
        push_nowiki(alloc, out)?;
    }
    let source = Str::copy_of(alloc, text)?;
    let end = start.saturating_add(text.len());
    out.push(Unit::Thing(Thing {
        role: Role::Node,
        source,
        place: Some(Stretch { start, end }),
    }))?;
    Ok(())
}

/// Appends a text between two nodes, by the page's texts next to these.
pub fn push_text<'n>(
    alloc: Global,
    out: &mut Vec<Unit<'n>>,
    text: &'n str,
    left: Option<&Node<'_>>,
    right: Option<&Node<'_>>,
) -> Result<(), NoMemory> {
    let left = page_text(left);
    let right = page_text(right);
    let front = front_in(text.as_bytes(), left, right);
    let (before, rest) = text.split_at_checked(front.length).unwrap_or(("", text));
    push_standing(alloc, out, before, front.start)?;
    let back = back_in(rest.as_bytes(), right, front);
    let end = rest.len().saturating_sub(back.length);
    let (new, behind) = rest.split_at_checked(end).unwrap_or((rest, ""));
    push_letters(out, new)?;
    push_standing(alloc, out, behind, back.start)
}
