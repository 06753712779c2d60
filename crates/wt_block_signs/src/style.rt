//! How parts of lists and tables that are new are written: as those beside them in the page.

use crate::kinds::{is_cell, is_item};
use wt_difference::inside;
use wt_span::{TagName, Text};
use wt_tree::{Kind, Node};

/// How parts are written: whether no blank comes after their signs, and whether the cells of a row are in one line.
#[derive(Clone, Copy)]
pub struct Style {
    pub is_tight: bool,
    pub is_one_line: bool,
}

/// A blank after each sign, and each cell on a line of its own.
pub const USUAL: Style = Style {
    is_tight: false,
    is_one_line: false,
};

fn ends_with_blank(texts: &[Text<'_>]) -> bool {
    match texts.last() {
        Some(text) => text.as_str().ends_with(" ") || text.as_str().ends_with("\t"),
        None => false,
    }
}

/// Whether an item or a cell of the page has a sign, and no blank after it.
fn ends_with_sign(part: &Node<'_>) -> bool {
    !part.opening().is_empty() && !ends_with_blank(part.opening())
}

/// Whether an item, a cell or a caption of the page is empty, with no blank after its sign.
pub fn is_bare_sign(part: &Node<'_>) -> bool {
    let has_sign = is_item(part.kind) || is_cell(part.kind) || matches!(part.kind, Kind::Caption);
    has_sign && inside(part).is_empty() && ends_with_sign(part)
}

/// Whether a part of the page is an item or a cell with a sign and text after it.
pub fn has_signed_text(part: &Node<'_>) -> bool {
    let has_sign = (is_item(part.kind) || is_cell(part.kind)) && !part.opening().is_empty();
    has_sign && !inside(part).is_empty()
}

/// Whether an item or a cell of the page has text, and no blank before it.
fn is_tight(part: &Node<'_>) -> bool {
    ends_with_sign(part) && !inside(part).is_empty()
}

/// Whether a cell of the page goes on in the line of the one before it.
fn is_doubled(cell: &Node<'_>) -> bool {
    match cell.opening().first() {
        Some(text) => text.as_str().starts_with("||") || text.as_str().starts_with("!!"),
        None => false,
    }
}

/// How the cells of a row are written: tight where some have text and none has a blank after its sign, and in one line
/// where there are several and all but the first go on in it.
fn style_of_row(row: &Node<'_>) -> Style {
    let mut are_bare = true;
    let mut have_text = false;
    let mut is_one_line = true;
    let mut count: usize = 0;
    for cell in row.children.as_slice() {
        if is_cell(cell.kind) {
            are_bare = are_bare && ends_with_sign(cell);
            have_text = have_text || !inside(cell).is_empty();
            is_one_line = is_one_line && (count == 0 || is_doubled(cell));
            count = count.saturating_add(1);
        }
    }
    Style {
        is_tight: are_bare && have_text,
        is_one_line: is_one_line && count > 1,
    }
}

/// Whether a row of the page has a cell with text.
fn has_text(row: &Node<'_>) -> bool {
    for cell in row.children.as_slice() {
        if is_cell(cell.kind) && !inside(cell).is_empty() {
            return true;
        }
    }
    false
}

/// How the cells of a row of the page are written: as those that it has, or, where none has text, as those of the row
/// beside it.
pub fn style_within(row: &Node<'_>, beside: Option<&Node<'_>>) -> Style {
    if has_text(row) {
        style_of_row(row)
    } else {
        style_of(beside)
    }
}

/// How a new item, cell or row is written beside this one of the page.
pub fn style_of(part: Option<&Node<'_>>) -> Style {
    match part {
        Some(part) if matches!(part.kind, Kind::Tr) => style_of_row(part),
        Some(part) if is_item(part.kind) || is_cell(part.kind) => Style {
            is_tight: is_tight(part),
            is_one_line: false,
        },
        _ => USUAL,
    }
}

/// Whether a node with which a template's group ends is a text that ends with the sign of a heading cell; an edited group
/// has its text in a `span`.
fn ends_with_heading_sign(given: &Node<'_>) -> bool {
    match given.children.as_slice().last() {
        Some(text) if matches!(given.kind, Kind::Tag(TagName::Span)) => text.shown().ends_with("!"),
        _ => given.shown().ends_with("!"),
    }
}

/// Whether a heading cell ends with what a template gives, and this with the sign of such a cell: it would be read with
/// the signs of the next one.
pub fn ends_with_given_sign(cell: &Node<'_>) -> bool {
    match inside(cell).last() {
        Some(last) if matches!(cell.kind, Kind::Th) && matches!(last.kind, Kind::Group) => {
            match last.children.as_slice().last() {
                Some(given) => ends_with_heading_sign(given),
                None => false,
            }
        }
        _ => false,
    }
}

/// Whether what is written may come directly after the sign of an item or a cell; nothing may.
fn may_follow_sign(inside: &str) -> bool {
    match inside.as_bytes().first() {
        Some(byte) => !matches!(
            *byte,
            b' ' | b'\t' | b'*' | b'#' | b':' | b';' | b'-' | b'+' | b'|' | b'!' | b'{' | b'}'
        ),
        None => true,
    }
}

fn is_list_sign(byte: u8) -> bool {
    matches!(byte, b'*' | b'#' | b':' | b';')
}

/// Whether a text that begins with this byte would be read with the byte of the delimiter directly before it.
pub fn joins_sign(kind: Kind, before: u8, first: u8) -> bool {
    match kind {
        Kind::Td => before == b'|' && (first == b'-' || first == b'+'),
        Kind::Th => before == b'!' && first == b'!',
        Kind::Li | Kind::Dt | Kind::Dd => is_list_sign(before) && is_list_sign(first),
        _ => false,
    }
}

impl Style {
    /// The blank between a sign and what is written after it.
    pub fn blank_before(self, inside: &str) -> &'static str {
        if self.is_tight && may_follow_sign(inside) {
            ""
        } else {
            " "
        }
    }
}
