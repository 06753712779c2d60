//! Where nodes are in the page, and which cells go on in the line of the one before them.

use crate::blanks::{byte_at, most_breaks, past_blanks};
use crate::breaks::{between, is_box, kind_at_end, kind_at_start, least_between, push_breaks};
use wt_block_signs::{is_cell, is_item, is_part};
use wt_checks::{Visit, is_compared, original};
use wt_known::{Known, blanks_at_line_start, breaks_between, is_at_line_start};
use wt_places::Slot;
use wt_span::{NoMemory, Str};
use wt_tree::{Kind, Node, same_kind};

/// From where to where a node is in the page.
pub fn range_of(node: &Node<'_>) -> Slot {
    match node.ranges {
        Some(ranges) => Slot {
            start: ranges.start as usize,
            end: ranges.end as usize,
        },
        None => Slot { start: 0, end: 0 },
    }
}

/// The page from one place up to another.
fn slice_of<'p>(page: &'p str, place: Slot) -> &'p str {
    let (front, _) = page.split_at_checked(place.end).unwrap_or((page, ""));
    let (_, slice) = front.split_at_checked(place.start).unwrap_or((front, ""));
    slice
}

/// The place in the page between two blocks that are neighbours there, with nothing but line breaks and blanks; it is
/// empty where they share a line.
fn place_between(known: &Known<'_, '_>, before: &Node<'_>, node: &Node<'_>) -> Option<Slot> {
    if before.id == 0 || node.id == 0 {
        return None;
    }
    let start = range_of(original(known.index, before.id)?.node).end;
    let end = range_of(original(known.index, node.id)?.node).start;
    breaks_between(known.page, start, end)?;
    if start <= end {
        Some(Slot { start, end })
    } else {
        None
    }
}

/// Whether a block is of the kind that it has in the page.
fn is_of_its_kind(known: &Known<'_, '_>, node: &Node<'_>) -> bool {
    match original(known.index, node.id) {
        Some(visit) => node.id != 0 && same_kind(visit.node.kind, node.kind),
        None => false,
    }
}

/// How many line breaks two blocks that are neighbours in the page ask for: none more than it has, unless one of them has
/// another kind now.
fn least_of(known: &Known<'_, '_>, is_tight: bool, before: &Node<'_>, node: &Node<'_>) -> usize {
    if is_of_its_kind(known, before) && is_of_its_kind(known, node) {
        0
    } else {
        least_between(is_tight, kind_at_end(before), kind_at_start(node))
    }
}

/// Appends what the page has between two blocks, the second of which comes after the first one again, with as many
/// line breaks as they ask for; it says whether they were neighbours there.
pub fn push_between(
    out: &mut Str,
    known: &Known<'_, '_>,
    before: &Node<'_>,
    node: &Node<'_>,
) -> Result<bool, NoMemory> {
    if is_part(before.kind) || is_part(node.kind) {
        return Ok(false);
    }
    let Some(place) = place_between(known, before, node) else {
        return Ok(false);
    };
    let least = least_of(known, false, before, node);
    let standing = breaks_between(known.page, place.start, place.end).unwrap_or(0);
    out.push_str(slice_of(known.page, place))?;
    push_breaks(out, least.saturating_sub(standing))?;
    Ok(true)
}

/// Appends what comes between a block and a comment, which comes after it with the block below that: what the page has
/// between them, where they are neighbours there, else as many line breaks as come between the two blocks.
pub fn push_up_to_comment(
    out: &mut Str,
    known: &Known<'_, '_>,
    is_tight: bool,
    before: &Node<'_>,
    comment: &Node<'_>,
    block: &Node<'_>,
) -> Result<(), NoMemory> {
    let Some(place) = place_between(known, before, comment) else {
        let count = between(known.closeness, is_tight, before.kind, block.kind);
        return push_breaks(out, count);
    };
    let start = match original(known.index, block.id) {
        Some(visit) => range_of(visit.node).start,
        None => place.end,
    };
    let least = least_of(known, is_tight, before, block);
    let standing = most_breaks(known.page, place.start, start);
    out.push_str(slice_of(known.page, place))?;
    push_breaks(out, least.saturating_sub(standing))
}

/// Where a comment of the page, which ends here, ends with the blanks and line breaks up to what comes next; in an item, a
/// list or a table, where no empty line is, with its own line break.
fn end_of_comment(known: &Known<'_, '_>, is_tight: bool, comment: &Node<'_>, end: usize) -> usize {
    let page = known.page;
    let next = (comment.id as usize).saturating_add(1);
    let to = match known.index.get(next) {
        Some(visit) => range_of(visit.node).start,
        None => page.len(),
    };
    if is_tight && is_at_line_start(page, end) {
        end
    } else {
        past_blanks(page, end, to)
    }
}

/// Appends a comment of the page, with the blanks and line breaks after it.
pub fn push_comment(
    out: &mut Str,
    known: &Known<'_, '_>,
    is_tight: bool,
    comment: &Node<'_>,
) -> Result<(), NoMemory> {
    let Some(visit) = original(known.index, comment.id) else {
        return Ok(());
    };
    let place = range_of(visit.node);
    let end = end_of_comment(known, is_tight, comment, place.end);
    out.push_str(slice_of(
        known.page,
        Slot {
            start: place.start,
            end,
        },
    ))
}

/// Appends a comment of the page that has a line of its own, without its line break.
pub fn push_comment_line(
    out: &mut Str,
    known: &Known<'_, '_>,
    comment: &Node<'_>,
) -> Result<(), NoMemory> {
    let Some(visit) = original(known.index, comment.id) else {
        return Ok(());
    };
    let source = slice_of(known.page, range_of(visit.node));
    out.push_str(source.strip_suffix("\n").unwrap_or(source))
}

/// The block after one of the page's, in what holds it; None where a comment or an include tag comes first.
pub fn next_in_page<'t, 'a>(known: &Known<'t, 'a>, visit: Visit<'t, 'a>) -> Option<&'t Node<'a>> {
    let first = (visit.node.id as usize).saturating_add(1);
    for at in first..known.index.len() {
        let next = known.index[at];
        if next.parent <= visit.parent {
            return if next.parent == visit.parent && is_compared(next.node.kind) {
                Some(next.node)
            } else {
                None
            };
        }
    }
    None
}

/// The block before one of the page's, in what holds it; None where a comment or an include tag is between.
fn block_above<'t, 'a>(known: &Known<'t, 'a>, visit: Visit<'t, 'a>) -> Option<&'t Node<'a>> {
    let number = visit.node.id as usize;
    for count in 1..number {
        let before = known.index.get(number.saturating_sub(count))?;
        if before.parent <= visit.parent {
            return if before.parent == visit.parent
                && before.node.id != visit.parent
                && is_compared(before.node.kind)
            {
                Some(before.node)
            } else {
                None
            };
        }
    }
    None
}

/// Whether the page has a list, a table or a rule directly below another such block.
fn are_stacked(page: &str, above: Option<&Node<'_>>, below: Option<&Node<'_>>) -> bool {
    let (Some(above), Some(below)) = (above, below) else {
        return false;
    };
    is_box(kind_at_end(above))
        && is_box(kind_at_start(below))
        && breaks_between(page, range_of(above).end, range_of(below).start) == Some(1)
}

/// Whether a block is a list, a table or a rule of the page that is directly above or below another one there.
pub fn is_in_stack(known: &Known<'_, '_>, node: &Node<'_>) -> bool {
    if node.id == 0 || !is_box(kind_at_start(node)) {
        return false;
    }
    match original(known.index, node.id) {
        Some(visit) => {
            are_stacked(known.page, Some(visit.node), next_in_page(known, visit))
                || are_stacked(known.page, block_above(known, visit), Some(visit.node))
        }
        None => false,
    }
}

/// How many line breaks are written between a block that comes and the one that comes after it: one where both are in a
/// stack of boxes of the page.
pub fn between_coming(
    known: &Known<'_, '_>,
    is_tight: bool,
    last: Kind,
    before: Option<&Node<'_>>,
    node: &Node<'_>,
) -> usize {
    match before {
        Some(before) if !is_tight && is_in_stack(known, before) && is_in_stack(known, node) => {
            least_between(false, last, kind_at_start(node))
        }
        _ => between(known.closeness, is_tight, last, node.kind),
    }
}

/// Whether what begins at a place of the page is a cell that goes on in a line, by its two signs.
pub fn is_doubled_at(page: &str, at: usize) -> bool {
    let sign = byte_at(page, at);
    (sign == b'|' || sign == b'!') && sign == byte_at(page, at.saturating_add(1))
}

/// Whether a node is such a cell. One with a single sign may hold nothing before the two of the next.
pub fn is_doubled(page: &str, node: &Node<'_>) -> bool {
    let width = match node.ranges {
        Some(ranges) => ranges.open_w,
        None => 0,
    };
    is_cell(node.kind) && width > 1 && is_doubled_at(page, range_of(node).start)
}

/// The sign of a cell of the page that begins a line now, where its own ends at this place: apart from a text with
/// which it would be the sign of a row, a caption or the table's end.
pub fn sign_at_line_start(page: &str, cell: &Node<'_>, end: usize) -> &'static str {
    if matches!(cell.kind, Kind::Th) {
        return "!";
    }
    match byte_at(page, end) {
        b'-' | b'+' | b'}' => "| ",
        _ => "|",
    }
}

/// Whether a line begins after what is written at a place of the page, before a node of this kind.
pub fn leaves_line_start(page: &str, at: usize, by: &str, next: Kind) -> bool {
    if by.is_empty() {
        begins_line(page, at, next)
    } else {
        begins_line(by, by.len(), next)
    }
}

// ---- blanks before the lines of a table

/// Whether a node of this kind begins with the sign of a line of a table, before which blanks may be.
pub fn is_of_table(kind: Kind) -> bool {
    is_part(kind) && !is_item(kind)
}

/// The blanks before a place of the page, where nothing else is before it on its line.
fn blanks_before<'p>(page: &'p str, at: usize) -> Option<&'p str> {
    let count = blanks_at_line_start(page, at)?;
    let start = at.saturating_sub(count);
    Some(slice_of(page, Slot { start, end: at }))
}

/// Whether a line begins at a place of a text, before a node of this kind: in a table blanks may be before it.
pub fn begins_line(text: &str, at: usize, next: Kind) -> bool {
    is_at_line_start(text, at) || (is_of_table(next) && blanks_at_line_start(text, at).is_some())
}

/// The page's node that holds this one.
fn holder_of<'t, 'a>(known: &Known<'t, 'a>, node: &Node<'_>) -> Option<&'t Node<'a>> {
    let visit = original(known.index, node.id)?;
    let holder = original(known.index, visit.parent)?;
    Some(holder.node)
}

/// The blanks before the signs of the line of a table in which this part of it begins, in the page; of a cell that goes on
/// in a line those of its row.
pub fn blanks_of_line<'t, 'a>(known: &Known<'t, 'a>, part: &Node<'_>) -> &'t str {
    if !is_of_table(part.kind) {
        return "";
    }
    if let Some(blanks) = blanks_before(known.page, range_of(part).start) {
        return blanks;
    }
    match holder_of(known, part) {
        Some(row) => blanks_before(known.page, range_of(row).start).unwrap_or(""),
        None => "",
    }
}

/// Whether a cell of the page goes on in the line of the one before it, and may do so after one of this kind.
pub fn shares_line(page: &str, last: Kind, cell: &Node<'_>) -> bool {
    is_cell(last) && same_kind(last, cell.kind) && is_doubled(page, cell)
}

/// The sign with which a cell begins.
pub fn first_sign(cell: &str) -> &'static str {
    if cell.starts_with("!") { "!" } else { "|" }
}

/// Appends a cell that goes on in a line, given as it begins one, after the sign of the line's cells doubled: a heading cell
/// may go on after two bars, too.
pub fn push_in_line(out: &mut Str, sign: u8, cell: &str) -> Result<(), NoMemory> {
    if sign == b'|'
        && let Some(rest) = cell.strip_prefix("!")
    {
        out.push_str("||")?;
        return out.push_str(rest);
    }
    out.push_str(first_sign(cell))?;
    out.push_str(cell)
}
