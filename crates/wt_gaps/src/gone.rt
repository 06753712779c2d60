//! What goes of the children of the page in a gap.

use crate::blanks::{back_over_blanks, byte_at, most_breaks, past_blanks};
use crate::breaks::{breaks, kind_at_end, kind_at_start, least_between};
use crate::gap::{Gap, Joined, is_below_heading};
use crate::lines::{is_doubled, leaves_line_start, range_of, sign_at_line_start};
use crate::tags::{Tags, breaks_before_tag, breaks_behind_tag, tag_of};
use std::alloc::Global;
use wt_block_signs::{is_cell, is_item, is_paragraph_in_line, signs_of};
use wt_checks::is_compared;
use wt_known::{Known, joined as texts_joined};
use wt_places::Slot;
use wt_span::{NoMemory, Str};
use wt_splice::Change;
use wt_tree::{Kind, Node};

// ---- slices

/// A slice of the page that goes, and the include tags beside it.
#[derive(Clone, Copy)]
pub struct Slice {
    pub place: Slot,
    pub tags: Tags,
}

/// A slice that goes on to the end of the next child, or begins with it, after this tag.
fn joined(slice: Option<Slice>, before: Option<Slot>, child: Slot) -> Slice {
    match slice {
        Some(slice) => Slice {
            place: Slot {
                start: slice.place.start,
                end: child.end,
            },
            tags: slice.tags,
        },
        None => Slice {
            place: child,
            tags: Tags {
                before,
                behind: None,
            },
        },
    }
}

/// Appends a slice, before this tag.
fn push_slice(
    out: &mut Vec<Slice>,
    slice: Option<Slice>,
    behind: Option<Slot>,
) -> Result<(), NoMemory> {
    if let Some(slice) = slice {
        out.push(Slice {
            place: slice.place,
            tags: Tags {
                before: slice.tags.before,
                behind,
            },
        })?;
    }
    Ok(())
}

/// Whether a node is a comment that comes along with a block that moved: before the one below it, or behind the one above.
#[derive(Clone, Copy)]
pub enum Along {
    No,
    Before,
    Behind,
}

/// How a node comes along; `along` says it of each number.
pub fn way_of(along: &[Along], node: &Node<'_>) -> Along {
    along.get(node.id as usize).copied().unwrap_or(Along::No)
}

/// Whether a node is one of the comments that come along with a block.
pub fn comes_along(along: &[Along], node: &Node<'_>) -> bool {
    !matches!(way_of(along, node), Along::No)
}

/// Where a node is that goes: of a comment all but its own line break.
fn place_of(page: &str, node: &Node<'_>) -> Slot {
    let place = range_of(node);
    let last = place.end.saturating_sub(1);
    let has_break = node.kind.is_mark() && place.start < last && byte_at(page, last) == b'\n';
    Slot {
        start: place.start,
        end: if has_break { last } else { place.end },
    }
}

/// The same with the blanks before it, if it has nothing else before it on its line: else they would begin what comes there.
fn place_in_line(page: &str, gap: &Gap<'_, '_, '_>, node: &Node<'_>) -> Slot {
    let place = place_of(page, node);
    let from = gap.place.start.min(place.start);
    let count = place.start.saturating_sub(from);
    for passed in 0..count {
        let at = place.start.saturating_sub(passed);
        match byte_at(page, at.saturating_sub(1)) {
            b' ' | b'\t' => {}
            b'\n' => {
                return Slot {
                    start: at,
                    end: place.end,
                };
            }
            _ => return place,
        }
    }
    Slot {
        start: if from == 0 { 0 } else { place.start },
        end: place.end,
    }
}

/// The slices of a gap's children that go: those that are next to each other in one, with the comments that come along
/// with them. Another comment or an include tag between two of them stays.
pub fn slices_of(
    alloc: Global,
    page: &str,
    gap: &Gap<'_, '_, '_>,
    along: &[Along],
) -> Result<Vec<Slice>, NoMemory> {
    let mut out = Vec::new(alloc);
    let mut slice = None;
    let mut tag = gap.tags.before;
    for child in gap.gone {
        let node = child.node;
        if is_compared(node.kind) || comes_along(along, node) {
            let place = if gap.is_tight {
                place_of(page, node)
            } else {
                place_in_line(page, gap, node)
            };
            slice = Some(joined(slice, tag, place));
        } else if node.kind.is_mark() {
            tag = tag_of(node);
            push_slice(&mut out, slice, tag)?;
            slice = None;
        }
    }
    push_slice(&mut out, slice, gap.tags.behind)?;
    Ok(out)
}

/// All but the first.
pub fn behind_first(slices: &[Slice]) -> &[Slice] {
    if slices.is_empty() {
        slices
    } else {
        &slices[1..]
    }
}

// ---- what goes

/// A slice that goes, with the blanks after it; at the end of its holder with those before it, also with the line break
/// that ends the line of a comment or an include tag: the one after the slice ends this line then.
fn with_blanks(page: &str, gap: &Gap<'_, '_, '_>, slice: Slot) -> Slot {
    let end = past_blanks(page, slice.end, gap.place.end);
    if gap.behind.is_none() && end == gap.place.end {
        return Slot {
            start: back_over_blanks(page, gap.blanks, slice.start),
            end: slice.end,
        };
    }
    Slot {
        start: slice.start,
        end,
    }
}

/// Appends a slice, by what is there instead.
pub fn push_change(out: &mut Vec<Change>, place: Slot, by: Str) -> Result<(), NoMemory> {
    out.push(Change {
        start: place.start,
        end: place.end,
        by,
    })?;
    Ok(())
}

/// How many signs of items a text begins with.
fn signs_len(text: &str) -> usize {
    text.as_bytes()
        .iter()
        .take_while(|byte| matches!(**byte, b'*' | b'#' | b':' | b';'))
        .count()
}

/// The signs of an item of the page, as its line has them: `;#` below a term and a definition is read as `:#`. By the lists
/// in which it is, where its line doesn't begin with it.
pub fn signs_as_written(
    alloc: Global,
    known: &Known<'_, '_>,
    item: &Node<'_>,
) -> Result<Str, NoMemory> {
    let signs = signs_of(alloc, known, item)?;
    let opening = texts_joined(alloc, item.opening())?;
    let opening = opening.as_str();
    match opening.split_at_checked(signs_len(opening)) {
        Some((own, _)) if own.len() == signs.as_str().len() => Str::copy_of(alloc, own),
        _ => Ok(signs),
    }
}

/// Appends the signs that an item hasn't which begins a line now: those before its own, where it went on in one.
fn push_missing_signs(
    alloc: Global,
    out: &mut Str,
    known: &Known<'_, '_>,
    item: &Node<'_>,
) -> Result<(), NoMemory> {
    let signs = signs_of(alloc, known, item)?;
    let signs = signs.as_str();
    let opening = texts_joined(alloc, item.opening())?;
    let own = signs_len(opening.as_str());
    if own == 0 {
        return Ok(());
    }
    let (missing, _) = signs
        .split_at_checked(signs.len().saturating_sub(own))
        .unwrap_or(("", signs));
    out.push_str(missing)
}

/// Appends a slice of a gap. Where a cell or an item that went on in a line begins one after it, the two signs of a
/// cell become one, and an item has all of its signs; a paragraph that would be another block then has `<nowiki/>`, if it
/// still begins so.
pub fn push_part_of(
    alloc: Global,
    out: &mut Vec<Change>,
    known: &Known<'_, '_>,
    gap: &Gap<'_, '_, '_>,
    place: Slot,
    mut by: Str,
) -> Result<(), NoMemory> {
    let page = known.page;
    let mut end = place.end;
    if let Some(node) = gap.behind
        && place.end == range_of(node).start
        && leaves_line_start(page, place.start, by.as_str(), node.kind)
    {
        if is_doubled(page, node) {
            end = end.saturating_add(2);
            by.push_str(sign_at_line_start(page, node, end))?;
        } else if is_item(node.kind) {
            push_missing_signs(alloc, &mut by, known, node)?;
        } else if gap.begins_alike && is_paragraph_in_line(page, node) {
            by.push_str("<nowiki/>")?;
        }
    }
    push_change(
        out,
        Slot {
            start: place.start,
            end,
        },
        by,
    )
}

/// What a slice that goes leaves: where what is written anew begins and ends, how many line breaks are written there, and
/// how many there are then between what was before and after it, also across an include tag.
#[derive(Clone, Copy)]
struct Left {
    start: usize,
    end: usize,
    by: usize,
    standing: usize,
}

/// Whether a slice begins where the child before the gap ends, as a paragraph after a table's end or a rule may.
fn is_behind_block(gap: &Gap<'_, '_, '_>, slice: Slot) -> bool {
    match gap.before {
        Some(before) => range_of(before).end == slice.start,
        None => false,
    }
}

/// Whether a comment or an include tag that stays is in the gap before this slice.
fn is_behind_mark(gap: &Gap<'_, '_, '_>, slice: Slot) -> bool {
    for child in gap.gone {
        if child.node.kind.is_mark() && range_of(child.node).start < slice.start {
            return true;
        }
    }
    match gap.before {
        Some(before) => range_of(before).end < gap.place.start,
        None => false,
    }
}

/// How many line breaks are left of those before and after a slice that goes: the longer of the two. But what comes
/// after it goes on in the line of a comment or an include tag, or is as close to a heading as it was; beside an include
/// tag those are left that are beside the tag; and where the slice was joined with what is beside it, those on its other
/// side, one at least after a comment that stays.
fn breaks_left(gap: &Gap<'_, '_, '_>, slice: Slice, before: usize, behind: usize) -> usize {
    let tags = slice.tags;
    let goes_on = before == 0 && !is_behind_block(gap, slice.place);
    if gap.is_tight || goes_on || tags.before.is_some() {
        before
    } else if tags.behind.is_some() && 0 < behind {
        behind
    } else if is_below_heading(gap) {
        before
    } else {
        match gap.joined {
            Joined::Nowhere => before.max(behind),
            Joined::Before if is_behind_mark(gap, slice.place) => behind.max(1),
            Joined::Before => behind,
            Joined::Behind => before,
        }
    }
}

/// How many line breaks are on the other side of the tags beside a slice; none count in an item, a list or a table.
fn across_tags(page: &str, gap: &Gap<'_, '_, '_>, tags: Tags) -> usize {
    if gap.is_tight {
        return 0;
    }
    breaks_before_tag(page, tags.before).saturating_add(breaks_behind_tag(page, tags.behind))
}

/// Whether the blanks and line breaks behind a slice stay as they are, and those before it go: its text was joined with
/// what is above it, no tag or heading is beside it, and as many line breaks are left as there are behind it.
fn keeps_behind(gap: &Gap<'_, '_, '_>, slice: Slice, behind: usize, left: usize) -> bool {
    let tags = slice.tags;
    matches!(gap.joined, Joined::Before)
        && !gap.is_tight
        && !is_below_heading(gap)
        && tags.before.is_none()
        && tags.behind.is_none()
        && 0 < behind
        && behind == left
}

/// What a slice leaves that goes with the blanks of `place`, where what is before `at` was looked at.
fn left_of(page: &str, gap: &Gap<'_, '_, '_>, at: usize, slice: Slice, place: Slot) -> Left {
    let from = back_over_blanks(page, at, slice.place.start);
    let before = most_breaks(page, from, slice.place.start);
    let behind = most_breaks(page, slice.place.end, place.end);
    let left = breaks_left(gap, slice, before, behind);
    if gap.place.start <= from && keeps_behind(gap, slice, behind, left) {
        return Left {
            start: from,
            end: slice.place.end,
            by: 0,
            standing: most_breaks(page, at, from).saturating_add(left),
        };
    }
    let start = if left < before {
        from.max(gap.place.start)
    } else {
        place.start
    };
    let by = if left < before {
        left.saturating_sub(most_breaks(page, from, start))
    } else {
        left.saturating_sub(before)
    };
    let across = across_tags(page, gap, slice.tags);
    let standing = most_breaks(page, at, start).saturating_add(by);
    Left {
        start,
        end: place.end,
        by,
        standing: standing.max(left.saturating_add(across)),
    }
}

/// Appends the slices that go, each with the line breaks that are left beside it. Where they leave fewer line breaks
/// than are wanted between what comes before and after them, the last one has the others.
pub fn push_gone(
    alloc: Global,
    out: &mut Vec<Change>,
    known: &Known<'_, '_>,
    gap: &Gap<'_, '_, '_>,
    slices: &[Slice],
    wanted: usize,
) -> Result<(), NoMemory> {
    let page = known.page;
    let mut standing = 0;
    let mut at = gap.blanks;
    let mut count = slices.len();
    for slice in slices {
        count = count.saturating_sub(1);
        let place = with_blanks(page, gap, slice.place);
        let left = left_of(page, gap, at, *slice, place);
        standing = left.standing.max(standing);
        at = left.end;
        let missing = if count == 0 {
            wanted.saturating_sub(most_breaks(page, at, gap.place.end).max(standing))
        } else {
            0
        };
        let by = breaks(alloc, left.by.saturating_add(missing))?;
        let anew = Slot {
            start: left.start,
            end: left.end,
        };
        push_part_of(alloc, out, known, gap, anew, by)?;
    }
    Ok(())
}

/// Whether the cells that go are all those of a row without a sign of its own.
pub fn empties_row(gap: &Gap<'_, '_, '_>) -> bool {
    gap.in_row_without_sign && gap.before.is_none() && gap.behind.is_none()
}

/// Appends the slices that go, and the sign of the row that they leave in place of the first.
pub fn push_emptied_row(
    alloc: Global,
    out: &mut Vec<Change>,
    known: &Known<'_, '_>,
    gap: &Gap<'_, '_, '_>,
    slices: &[Slice],
) -> Result<(), NoMemory> {
    if let Some(slice) = slices.first() {
        let sign = Str::copy_of(alloc, "|-")?;
        push_change(out, slice.place, sign)?;
    }
    push_gone(alloc, out, known, gap, behind_first(slices), 0)
}

/// Whether a node of this kind is an item that comes in the line of a call that shows nothing, which was before another item
/// in it. A line with nothing but the call would part the list.
pub fn joins_empty_call(page: &str, before: &Node<'_>, kind: Kind) -> bool {
    is_item(kind)
        && matches!(kind_at_end(before), Kind::Empty)
        && byte_at(page, range_of(before).end) != b'\n'
}

/// Whether the child after a gap goes on in the line of the last one that goes, whose text went into the child before.
fn goes_on_behind_joined(page: &str, gap: &Gap<'_, '_, '_>, behind: &Node<'_>) -> bool {
    match gap.gone.last() {
        Some(gone) => {
            matches!(gap.joined, Joined::Before)
                && is_compared(gone.node.kind)
                && !gap.is_tight
                && most_breaks(page, range_of(gone.node).end, range_of(behind).start) == 0
        }
        None => false,
    }
}

/// Whether the first child that goes is in the line with which the child before ends, and its text went into the one after.
fn goes_on_before_joined(page: &str, gap: &Gap<'_, '_, '_>, before: &Node<'_>) -> bool {
    match gap.gone.first() {
        Some(gone) => {
            matches!(gap.joined, Joined::Behind)
                && is_compared(gone.node.kind)
                && !gap.is_tight
                && most_breaks(page, range_of(before).end, range_of(gone.node).start) == 0
        }
        None => false,
    }
}

/// The line breaks that are wanted between the two that stay: one before a cell that doesn't go on in a line.
pub fn wanted_between(page: &str, gap: &Gap<'_, '_, '_>) -> usize {
    let (Some(before), Some(behind)) = (gap.before, gap.behind) else {
        return 0;
    };
    if is_cell(behind.kind) && !is_doubled(page, behind) {
        return 1;
    }
    if joins_empty_call(page, before, behind.kind)
        || goes_on_behind_joined(page, gap, behind)
        || goes_on_before_joined(page, gap, before)
    {
        return 0;
    }
    least_between(gap.is_tight, kind_at_end(before), kind_at_start(behind))
}
