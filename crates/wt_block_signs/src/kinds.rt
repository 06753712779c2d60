//! What the kinds of blocks are to their neighbours, by the table of kinds.

use wt_known::is_at_line_start;
use wt_tree::{Kind, Node, Placement};

/// Whether it is a list.
pub fn is_list(kind: Kind) -> bool {
    matches!(kind.shape().class, Placement::List)
}

/// Whether it is an item of a list.
pub fn is_item(kind: Kind) -> bool {
    matches!(kind.shape().class, Placement::Item | Placement::Term)
}

/// Whether it is a cell of a row.
pub fn is_cell(kind: Kind) -> bool {
    matches!(kind.shape().class, Placement::Cell)
}

/// Whether it is only ever in a list or a table.
pub fn is_part(kind: Kind) -> bool {
    matches!(
        kind.shape().class,
        Placement::Item
            | Placement::Term
            | Placement::TablePart
            | Placement::TableRow
            | Placement::Cell
    )
}

/// Whether a block is recognized by the signs at its line's start or end.
pub fn is_lined(kind: Kind) -> bool {
    match kind.shape().class {
        Placement::Block => !matches!(kind, Kind::Para | Kind::Pre),
        Placement::List => true,
        _ => is_part(kind),
    }
}

/// Whether a node of the page is a row without a sign of its own, as the first one of a table may be, or a group that
/// begins with one.
pub fn is_row_without_sign(node: &Node<'_>) -> bool {
    match node.kind {
        Kind::Tr => node.opening().is_empty(),
        Kind::Group => match node.children.as_slice().first() {
            Some(first) => matches!(first.kind, Kind::Tr) && first.opening().is_empty(),
            None => false,
        },
        _ => false,
    }
}

/// Whether a node of the page is a paragraph that goes on in a line, as after a table's end or a rule, and begins with a
/// blank or the sign of a list: it would be another block at a line's start.
pub fn is_paragraph_in_line(page: &str, node: &Node<'_>) -> bool {
    let Some(ranges) = node.ranges else {
        return false;
    };
    let bytes = page.as_bytes();
    let start = ranges.start as usize;
    let begins_with_sign = matches!(
        bytes.get(start),
        Some(b' ' | b'\t' | b'*' | b'#' | b':' | b';')
    );
    matches!(node.kind, Kind::Para) && begins_with_sign && !is_at_line_start(page, start)
}
