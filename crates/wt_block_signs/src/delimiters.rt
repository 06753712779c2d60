//! The delimiters of blocks that are written anew: those that they had, where the page has them with the same number.

use crate::kinds::is_cell;
use std::alloc::Global;
use wt_checks::original;
use wt_difference::inside;
use wt_known::{Known, blanks_at_line_start, joined};
use wt_span::{NoMemory, Str, Text};
use wt_tree::{Kind, Node, same_attrs, same_kind};

fn of_number<'t, 'a>(known: &Known<'t, 'a>, number: u32) -> Option<&'t Node<'a>> {
    if number == 0 {
        return None;
    }
    let visit = original(known.index, number)?;
    Some(visit.node)
}

/// What a node was in the page, where it has its kind and its attributes still.
fn standing_of<'t, 'a>(known: &Known<'t, 'a>, node: &Node<'_>) -> Option<&'t Node<'a>> {
    let old = of_number(known, node.id)?;
    let is_same = same_kind(old.kind, node.kind) && same_attrs(old.attrs(), node.attrs());
    if is_same { Some(old) } else { None }
}

/// These texts, or a sign where there are none.
fn joined_or(alloc: Global, texts: &[Text<'_>], sign: &str) -> Result<Str, NoMemory> {
    if texts.is_empty() {
        return Str::copy_of(alloc, sign);
    }
    joined(alloc, texts)
}

// ---- tables

/// The cell that a node was in the page, where it is one of the other kind now and has its attributes still.
fn turned_of<'t, 'a>(known: &Known<'t, 'a>, node: &Node<'_>) -> Option<&'t Node<'a>> {
    let old = of_number(known, node.id)?;
    let are_cells = is_cell(old.kind) && is_cell(node.kind) && !same_kind(old.kind, node.kind);
    if are_cells && same_attrs(old.attrs(), node.attrs()) {
        Some(old)
    } else {
        None
    }
}

/// Whether a text has the signs with which a heading cell goes on in a line.
fn has_heading_signs(text: &str) -> bool {
    let bytes = text.as_bytes();
    for at in 1..bytes.len() {
        if bytes[at] == b'!' && bytes[at - 1] == b'!' {
            return true;
        }
    }
    false
}

/// What comes after the sign of a cell of the page that has attributes, and may come after one of this kind: these, and the
/// bar after them.
fn attributes_for(kind: Kind, opening: &str) -> Option<&str> {
    let count = if is_doubled(opening) { 2 } else { 1 };
    let (_, rest) = opening.split_at_checked(count)?;
    let is_parted = matches!(kind, Kind::Th) && has_heading_signs(rest);
    if rest.as_bytes().contains(&b'|') && !is_parted {
        Some(rest)
    } else {
        None
    }
}

/// Appends the opening delimiter of a cell that had another kind in the page, with the attributes that it has there; `sign`
/// where it has none.
fn push_turned(
    alloc: Global,
    out: &mut Str,
    known: &Known<'_, '_>,
    node: &Node<'_>,
    sign: &str,
) -> Result<(), NoMemory> {
    let Some(old) = turned_of(known, node) else {
        return out.push_str(sign);
    };
    let opening = joined(alloc, old.opening())?;
    let Some(attributes) = attributes_for(node.kind, opening.as_str()) else {
        return out.push_str(sign);
    };
    out.push_str(if matches!(node.kind, Kind::Th) {
        "!"
    } else {
        "|"
    })?;
    out.push_str(attributes)
}

/// Appends the opening delimiter of a table, a row or a cell; `sign` where it has none of its own.
pub fn push_opening(
    alloc: Global,
    out: &mut Str,
    known: &Known<'_, '_>,
    node: &Node<'_>,
    sign: &str,
) -> Result<(), NoMemory> {
    let Some(old) = standing_of(known, node) else {
        return push_turned(alloc, out, known, node, sign);
    };
    let opening = joined_or(alloc, old.opening(), sign)?;
    push_begun(out, node.kind, opening.as_str())
}

/// Appends its closing delimiter, likewise.
pub fn push_closing(
    alloc: Global,
    out: &mut Str,
    known: &Known<'_, '_>,
    node: &Node<'_>,
    sign: &str,
) -> Result<(), NoMemory> {
    let Some(old) = standing_of(known, node) else {
        return out.push_str(sign);
    };
    let closing = joined_or(alloc, old.closing(), sign)?;
    out.push_str(closing.as_str())
}

/// Whether the source of a cell goes on in a line, by its two signs.
fn is_doubled(source: &str) -> bool {
    let bytes = source.as_bytes();
    bytes.starts_with(b"||") || bytes.starts_with(b"!!")
}

/// Whether what is written so far ends at the start of a line.
pub fn begins_line(out: &Str) -> bool {
    match out.as_str().as_bytes().last() {
        Some(byte) => *byte == b'\n',
        None => true,
    }
}

/// Whether what is written so far ends where a cell may begin a line, or one that a template gives: blanks may be before it.
fn begins_line_of_cell(out: &Str, kind: Kind) -> bool {
    let is_of_table = is_cell(kind) || matches!(kind, Kind::Group);
    is_of_table && blanks_at_line_start(out.as_str(), out.as_str().len()).is_some()
}

/// Appends a source that may be that of a cell: at the start of a line with one sign where it had two.
pub fn push_begun(out: &mut Str, kind: Kind, source: &str) -> Result<(), NoMemory> {
    if !is_doubled(source) || !begins_line_of_cell(out, kind) {
        return out.push_str(source);
    }
    let (_, rest) = source.split_at_checked(2).unwrap_or((source, ""));
    out.push_str(if matches!(kind, Kind::Th) { "!" } else { "|" })?;
    out.push_str(rest)
}

fn is_behind(before: &Node<'_>, node: &Node<'_>) -> bool {
    match (before.ranges, node.ranges) {
        (Some(before), Some(ranges)) => before.end == ranges.start,
        _ => false,
    }
}

/// Whether an item goes on in the line of the one before it, as it did in the page. Items on lines of their own have a
/// line break between them, and blocks after the text of the first one end its line.
pub fn goes_on_behind(known: &Known<'_, '_>, before: &Node<'_>, item: &Node<'_>) -> bool {
    match (standing_of(known, before), standing_of(known, item)) {
        (Some(left), Some(old)) => {
            let is_text = inside(before).len() == before.children.as_slice().len();
            is_behind(left, old) && is_text && !old.opening().is_empty()
        }
        _ => false,
    }
}

/// Whether a cell goes on in the line of the one before it, as it did in the page.
pub fn shares_line(
    alloc: Global,
    known: &Known<'_, '_>,
    before: Option<&Node<'_>>,
    node: &Node<'_>,
) -> Result<bool, NoMemory> {
    let Some(before) = before else {
        return Ok(false);
    };
    let (Some(left), Some(old)) = (standing_of(known, before), standing_of(known, node)) else {
        return Ok(false);
    };
    if !is_behind(left, old) {
        return Ok(false);
    }
    let opening = joined(alloc, old.opening())?;
    Ok(is_doubled(opening.as_str()))
}

/// Whether a node of the page is a cell that goes on in the line of this one.
fn is_next_in_line(alloc: Global, left: &Node<'_>, cell: &Node<'_>) -> Result<bool, NoMemory> {
    if !is_cell(left.kind) || !is_cell(cell.kind) || !is_behind(left, cell) {
        return Ok(false);
    }
    let opening = joined(alloc, cell.opening())?;
    Ok(is_doubled(opening.as_str()))
}

/// Whether a cell goes on in the line of the one before it, as it did in the page, where both had another kind.
pub fn shared_line(
    alloc: Global,
    known: &Known<'_, '_>,
    before: &Node<'_>,
    node: &Node<'_>,
) -> Result<bool, NoMemory> {
    let (Some(left), Some(old)) = (of_number(known, before.id), of_number(known, node.id)) else {
        return Ok(false);
    };
    if same_kind(left.kind, before.kind) || same_kind(old.kind, node.kind) {
        return Ok(false);
    }
    if !same_kind(before.kind, node.kind) || !is_cell(node.kind) {
        return Ok(false);
    }
    is_next_in_line(alloc, left, old)
}

// ---- items

fn is_sign(byte: u8) -> bool {
    byte == b'*' || byte == b'#' || byte == b':' || byte == b';'
}

/// What comes after the signs of an item.
fn behind_signs(opening: &str) -> &str {
    let count = opening
        .as_bytes()
        .iter()
        .take_while(|byte| is_sign(**byte))
        .count();
    let (_, rest) = opening.split_at_checked(count).unwrap_or((opening, ""));
    rest
}

/// Appends the signs of an item, and the blanks that it had after its own; where it is new this one.
pub fn push_signs(
    alloc: Global,
    out: &mut Str,
    known: &Known<'_, '_>,
    node: &Node<'_>,
    signs: &str,
    blank: &str,
) -> Result<(), NoMemory> {
    out.push_str(signs)?;
    let Some(old) = standing_of(known, node) else {
        return out.push_str(blank);
    };
    let opening = joined_or(alloc, old.opening(), blank)?;
    out.push_str(behind_signs(opening.as_str()))
}

// ---- headings

/// How many signs a text begins with.
fn equals_len(text: &str) -> usize {
    text.as_bytes()
        .iter()
        .take_while(|byte| **byte == b'=')
        .count()
}

fn before_equals(text: &str) -> usize {
    text.as_bytes()
        .iter()
        .take_while(|byte| **byte != b'=')
        .count()
}

fn push_equals(out: &mut Str, count: u8) -> Result<(), NoMemory> {
    for _at in 0..count {
        out.push_str("=")?;
    }
    Ok(())
}

/// The page's heading with this number, of whatever level.
fn heading_of<'t, 'a>(known: &Known<'t, 'a>, number: u32) -> Option<&'t Node<'a>> {
    let old = of_number(known, number)?;
    if matches!(old.kind, Kind::Heading(_)) {
        Some(old)
    } else {
        None
    }
}

/// Appends the signs before the text of a heading, and the blanks that it had there; where it is new this one.
pub fn push_heading_start(
    alloc: Global,
    out: &mut Str,
    known: &Known<'_, '_>,
    number: u32,
    level: u8,
    blank: &str,
) -> Result<(), NoMemory> {
    push_equals(out, level)?;
    let Some(old) = heading_of(known, number) else {
        return out.push_str(blank);
    };
    let opening = joined(alloc, old.opening())?;
    let opening = opening.as_str();
    let (_, blanks) = opening
        .split_at_checked(equals_len(opening))
        .unwrap_or((opening, ""));
    out.push_str(blanks)
}

/// Appends those after it, and what came after its last sign: comments and include tags are there, too. Where it is new
/// the blank comes before them.
pub fn push_heading_end(
    alloc: Global,
    out: &mut Str,
    known: &Known<'_, '_>,
    number: u32,
    level: u8,
    blank: &str,
) -> Result<(), NoMemory> {
    let Some(old) = heading_of(known, number) else {
        out.push_str(blank)?;
        return push_equals(out, level);
    };
    let closing = joined(alloc, old.closing())?;
    let closing = closing.as_str();
    let (blanks, rest) = closing
        .split_at_checked(before_equals(closing))
        .unwrap_or((closing, ""));
    let (_, behind) = rest
        .split_at_checked(equals_len(rest))
        .unwrap_or((rest, ""));
    out.push_str(blanks)?;
    push_equals(out, level)?;
    out.push_str(behind)
}

/// Whether more than blanks comes after the last sign of a heading of the page: a comment or an include tag, which is in its
/// delimiter and no node.
pub fn has_mark_behind_signs(alloc: Global, heading: &Node<'_>) -> Result<bool, NoMemory> {
    let closing = joined(alloc, heading.closing())?;
    let closing = closing.as_str();
    let (_, rest) = closing
        .split_at_checked(before_equals(closing))
        .unwrap_or((closing, ""));
    let (_, behind) = rest
        .split_at_checked(equals_len(rest))
        .unwrap_or((rest, ""));
    Ok(!behind.trim().is_empty())
}
