//! What comes in a gap, and where it is put.

use crate::blanks::{byte_at, most_breaks, past_spaces};
use crate::breaks::{
    between, is_box, is_heading, is_lined_block, kind_at_end, kind_at_start, least_between,
    push_breaks,
};
use crate::gap::{Gap, is_before_text};
use crate::gone::{Slice, joins_empty_call, push_change, push_part_of, signs_as_written};
use crate::lines::{
    begins_line, blanks_of_line, first_sign, is_doubled, is_doubled_at, is_in_stack, next_in_page,
    push_in_line, range_of, shares_line,
};
use crate::nodes::{count_of, first_block, last_block};
use crate::tags::{Tags, breaks_before_tag, breaks_behind_tag};
use std::alloc::Global;
use wt_block_signs::{
    Style, is_cell, is_item, is_lined, is_list, is_part, is_row_without_sign, signs_of, style_of,
};
use wt_checks::{Visit, is_compared, original};
use wt_difference::{Child, inside};
use wt_known::{Known, breaks_between};
use wt_places::Slot;
use wt_span::{NoMemory, Str};
use wt_splice::Change;
use wt_tree::{Kind, Node, same_kind};

fn first_gone<'t, 'a>(gone: &[Child<'t, 'a>]) -> Option<&'t Node<'a>> {
    for child in gone {
        if is_compared(child.node.kind) {
            return Some(child.node);
        }
    }
    None
}

/// A node, where it is a part of a list or a table itself.
fn as_part<'t, 'a>(node: Option<&'t Node<'a>>) -> Option<&'t Node<'a>> {
    match node {
        Some(node) if is_part(node.kind) => Some(node),
        _ => None,
    }
}

/// A child of the page that is beside those that come: rather an item, a row or a cell than what a template gives.
fn item_beside<'t, 'a>(gap: &Gap<'_, 't, 'a>) -> Option<&'t Node<'a>> {
    let gone = first_gone(gap.gone);
    let part = as_part(gap.before)
        .or(as_part(gap.behind))
        .or(as_part(gone));
    part.or(gap.before).or(gap.behind).or(gone)
}

/// All but the last byte of an item's signs, which are ASCII.
fn outer_signs(signs: &str) -> &str {
    let count = signs.len().saturating_sub(1);
    if signs.is_char_boundary(count) {
        &signs[..count]
    } else {
        signs
    }
}

/// The signs of an item of this kind beside one with these.
fn signs_like(alloc: Global, signs: &str, kind: Kind) -> Result<Str, NoMemory> {
    match kind {
        Kind::Dt | Kind::Dd => {
            let mut out = Str::copy_of(alloc, outer_signs(signs))?;
            out.push_str(if matches!(kind, Kind::Dt) { ";" } else { ":" })?;
            Ok(out)
        }
        _ => Str::copy_of(alloc, signs),
    }
}

/// The signs with which an item that comes begins: those of the items that are there.
pub fn signs_in(
    alloc: Global,
    known: &Known<'_, '_>,
    gap: &Gap<'_, '_, '_>,
    kind: Kind,
    outer: &str,
) -> Result<Str, NoMemory> {
    if !is_item(kind) {
        return Str::copy_of(alloc, outer);
    }
    match item_beside(gap) {
        None => Str::copy_of(alloc, outer),
        Some(item) => {
            let signs = signs_as_written(alloc, known, item)?;
            signs_like(alloc, signs.as_str(), kind)
        }
    }
}

/// What comes: the kind of the first, the kinds of what all of them show first and last, whether the last is of one
/// line, in which a cell may follow, whether a comment comes before the first, and one after the last, whose line has to
/// end, and how it is written.
#[derive(Drop)]
pub struct Coming {
    pub first: Kind,
    pub start: Kind,
    pub last: Kind,
    pub is_of_line: bool,
    pub is_led: bool,
    pub is_trailed: bool,
    pub source: Str,
}

/// How what comes is written: as the item, cell or row beside it, or, where lists come in an item, as this one.
pub fn style_beside(gap: &Gap<'_, '_, '_>) -> Style {
    match item_beside(gap) {
        Some(node) if is_item(node.kind) || is_cell(node.kind) || matches!(node.kind, Kind::Tr) => {
            style_of(Some(node))
        }
        _ => gap.style,
    }
}

/// The blanks with which the lines of what comes begin: in a table those of the line beside it.
pub fn blanks_beside<'t, 'a>(known: &Known<'t, 'a>, gap: &Gap<'_, 't, 'a>) -> &'t str {
    match item_beside(gap) {
        Some(node) => blanks_of_line(known, node),
        None => "",
    }
}

// ---- line breaks beside it

/// Whether the first of those that come begins as the page's paragraph after the gap does: it is the first half of that
/// one.
fn is_first_half(gap: &Gap<'_, '_, '_>) -> bool {
    let (Some(new), Some(behind)) = (first_block(gap.new), gap.behind) else {
        return false;
    };
    let are_paragraphs = matches!(new.kind, Kind::Para) && matches!(behind.kind, Kind::Para);
    if !are_paragraphs || !is_directly_before(gap, behind) {
        return false;
    }
    match (inside(new).first(), inside(behind).first()) {
        (Some(first), Some(was)) => {
            (was.id != 0 && was.id == first.id)
                || (!first.shown().is_empty() && was.shown().starts_with(first.shown()))
        }
        _ => false,
    }
}

/// Where those come that take the place of a slice, or no other's: after the child before, or before the one after, where
/// there is none before, or this one is split.
fn place_of(gap: &Gap<'_, '_, '_>, slice: Option<Slice>) -> Slot {
    if let Some(slice) = slice {
        return slice.place;
    }
    let at = if gap.behind.is_some() && (gap.before.is_none() || is_first_half(gap)) {
        gap.place.end
    } else {
        gap.place.start
    };
    Slot { start: at, end: at }
}

/// Whether the page has this node directly below a block: a paragraph, or anything below a heading.
fn is_followed_closely(page: &str, above: &Node<'_>, below: Option<&Node<'_>>) -> bool {
    let Some(below) = below else {
        return false;
    };
    let is_alike = is_heading(kind_at_end(above)) || !is_lined_block(kind_at_start(below));
    is_alike && breaks_between(page, range_of(above).end, range_of(below).start) == Some(1)
}

/// Whether blocks of these kinds are as close as the first one was to what was below it: a heading, or a list, a table
/// or a rule with no heading after it, nor a list after a list.
fn may_be_close(above: Kind, below: Kind) -> bool {
    is_heading(above)
        || (is_lined_block(above) && !is_heading(below) && !(is_list(above) && is_list(below)))
}

/// Whether a part of a gap begins where the child before it ends: the first part of each does.
fn is_directly_behind(gap: &Gap<'_, '_, '_>, before: &Node<'_>) -> bool {
    gap.place.start <= range_of(before).end
}

/// Whether a part of a gap ends where the child after it begins: the last part of each does.
fn is_directly_before(gap: &Gap<'_, '_, '_>, behind: &Node<'_>) -> bool {
    range_of(behind).start <= gap.place.end
}

/// Whether what is directly below the child before in the page is as close to it as it may be.
fn is_above_closely(page: &str, gap: &Gap<'_, '_, '_>, before: &Node<'_>) -> bool {
    let below = first_gone(gap.gone).or(gap.behind);
    is_directly_behind(gap, before) && is_followed_closely(page, before, below)
}

/// Whether the last of those that come is a new list with the last item of the page's list before the gap: the second half
/// of that one.
fn ends_with_second_half(gap: &Gap<'_, '_, '_>) -> bool {
    let (Some(new), Some(before)) = (last_block(gap.new), gap.before) else {
        return false;
    };
    if new.id != 0 || !is_list(new.kind) || !is_list(before.kind) {
        return false;
    }
    match (
        new.children.as_slice().last(),
        before.children.as_slice().last(),
    ) {
        (Some(last), Some(was)) => was.id != 0 && was.id == last.id,
        _ => false,
    }
}

/// The line breaks between the child before and what comes after it: below a heading, a table or a list as many as the
/// page has below this one, unless this is a list whose second half has that below it now.
fn breaks_below(
    known: &Known<'_, '_>,
    gap: &Gap<'_, '_, '_>,
    before: &Node<'_>,
    coming: &Coming,
) -> usize {
    let last = kind_at_end(before);
    let is_close = may_be_close(last, coming.start) && is_above_closely(known.page, gap, before);
    let is_close = is_close && !ends_with_second_half(gap);
    if is_close || goes_on_in_stack(known, gap, before, coming) {
        return least_between(gap.is_tight, last, coming.start).max(1);
    }
    between(known.closeness, gap.is_tight, last, coming.first)
}

/// Whether what comes directly after the child before is in a stack of boxes of the page, as that one is.
fn goes_on_in_stack(
    known: &Known<'_, '_>,
    gap: &Gap<'_, '_, '_>,
    before: &Node<'_>,
    coming: &Coming,
) -> bool {
    let are_boxes = is_box(kind_at_end(before)) && is_box(coming.start);
    if gap.is_tight || !are_boxes || !is_directly_behind(gap, before) {
        return false;
    }
    match first_block(gap.new) {
        Some(first) => is_in_stack(known, first) && is_in_stack(known, before),
        None => false,
    }
}

/// The line breaks that what comes asks for at least after the child before.
fn least_before(page: &str, gap: &Gap<'_, '_, '_>, coming: &Coming) -> usize {
    match gap.before {
        Some(before) if joins_empty_call(page, before, coming.first) => 0,
        Some(before) => least_between(gap.is_tight, kind_at_end(before), coming.start),
        None => 0,
    }
}

/// The line breaks between an include tag and what comes after it: those after the tag in the page, and so many that
/// what comes is read apart from the child before. Where nothing comes after it, it is on a line of its own.
fn breaks_after_tag(page: &str, gap: &Gap<'_, '_, '_>, coming: &Coming, tag: Slot) -> usize {
    let tag = Some(tag);
    let own = if gap.behind.is_none() { 1 } else { 0 };
    let least = least_before(page, gap, coming).saturating_sub(breaks_before_tag(page, tag));
    breaks_behind_tag(page, tag).max(own).max(least)
}

/// The line breaks before what comes, which takes no other's place.
fn breaks_after_child(known: &Known<'_, '_>, gap: &Gap<'_, '_, '_>, coming: &Coming) -> usize {
    match gap.before {
        Some(before) if joins_empty_call(known.page, before, coming.first) => 0,
        Some(before) => breaks_below(known, gap, before, coming),
        None if gap.behind.is_some() || gap.place.start == 0 => 0,
        None => 1,
    }
}

/// The line breaks before the first half of a paragraph of the page, where so many stand: it begins where the paragraph
/// began, on the line of a table's end, too.
fn breaks_before_half(
    page: &str,
    gap: &Gap<'_, '_, '_>,
    coming: &Coming,
    standing: usize,
) -> usize {
    if standing == 0 {
        0
    } else {
        least_before(page, gap, coming)
    }
}

/// The include tags beside what comes in the place of a slice, or in a gap.
fn tags_beside(gap: &Gap<'_, '_, '_>, slice: Option<Slice>) -> Tags {
    if gap.is_tight {
        return Tags::none();
    }
    match slice {
        Some(slice) => slice.tags,
        None => gap.tags,
    }
}

/// The line breaks before what comes in the place of a slice, or in a gap.
fn breaks_before(
    known: &Known<'_, '_>,
    gap: &Gap<'_, '_, '_>,
    slice: Option<Slice>,
    coming: &Coming,
    at: usize,
) -> usize {
    let page = known.page;
    let first = coming.first;
    let standing = most_breaks(page, gap.blanks, at);
    let wanted = match tags_beside(gap, slice).before {
        Some(tag) => breaks_after_tag(page, gap, coming, tag),
        None if slice.is_some() => least_before(page, gap, coming),
        None if is_first_half(gap) => breaks_before_half(page, gap, coming, standing),
        None => breaks_after_child(known, gap, coming),
    };
    let missing = wanted.saturating_sub(standing);
    let is_lined = is_lined(first) && (gap.place.start < at || is_cell(first));
    if missing == 0 && (coming.is_led || is_lined) && !begins_line(page, at, first) {
        1
    } else {
        missing
    }
}

/// The last of those that come, as the page has it; None where it is new.
fn last_coming<'t, 'a>(known: &Known<'t, 'a>, gap: &Gap<'_, 't, 'a>) -> Option<Visit<'t, 'a>> {
    match last_block(gap.new) {
        Some(node) if node.id != 0 => original(known.index, node.id),
        _ => None,
    }
}

/// Whether the last of those that come was in the page, and had something directly below it there.
fn was_followed_closely<'t, 'a>(known: &Known<'t, 'a>, gap: &Gap<'_, 't, 'a>) -> bool {
    match last_coming(known, gap) {
        Some(visit) => is_followed_closely(known.page, visit.node, next_in_page(known, visit)),
        None => false,
    }
}

/// Whether the page has the block after the gap directly below the one before it, and that is a list, a table or a rule.
fn is_below_box(page: &str, gap: &Gap<'_, '_, '_>, behind: &Node<'_>) -> bool {
    match gap.before {
        Some(before) => {
            is_box(kind_at_end(before))
                && breaks_between(page, range_of(before).end, range_of(behind).start) == Some(1)
        }
        None => false,
    }
}

/// Whether the last of those that come is in a stack of boxes of the page, and what is after it may be directly below it:
/// another one that is, or what was directly below the box before, but no heading.
fn ends_in_stack<'t, 'a>(
    known: &Known<'t, 'a>,
    gap: &Gap<'_, 't, 'a>,
    last: Kind,
    behind: &Node<'_>,
) -> bool {
    let is_before_heading = is_heading(kind_at_start(behind));
    if gap.is_tight || !is_box(last) || is_before_heading || !is_directly_before(gap, behind) {
        return false;
    }
    match last_coming(known, gap) {
        Some(visit) if is_in_stack(known, visit.node) => {
            is_below_box(known.page, gap, behind) || is_in_stack(known, behind)
        }
        _ => false,
    }
}

/// Whether the last of those that come ends as the page's block before the gap does: it is the second half of that one.
fn is_second_half(gap: &Gap<'_, '_, '_>, before: &Node<'_>) -> bool {
    let Some(new) = last_block(gap.new) else {
        return false;
    };
    match (inside(new).last(), inside(before).last()) {
        (Some(last), Some(was)) => {
            (was.id != 0 && was.id == last.id)
                || (!last.shown().is_empty() && was.shown().ends_with(last.shown()))
        }
        _ => false,
    }
}

/// Whether what comes, which takes no other's place, is the second half of the block before, and the page has what is after
/// the gap in the line with which that block ends.
fn goes_on_in_line(
    page: &str,
    gap: &Gap<'_, '_, '_>,
    slice: Option<Slice>,
    behind: &Node<'_>,
) -> bool {
    match gap.before {
        Some(before) => {
            slice.is_none()
                && !gap.is_tight
                && most_breaks(page, range_of(before).end, range_of(behind).start) == 0
                && is_second_half(gap, before)
        }
        None => false,
    }
}

/// Whether what comes after a paragraph ends with one, too: what is below is as close to this one, but a heading only
/// where the paragraph was split.
fn goes_on_as_paragraph(gap: &Gap<'_, '_, '_>, last: Kind, below: Kind) -> bool {
    match gap.before {
        Some(before) if !gap.is_tight && matches!(before.kind, Kind::Para) => {
            matches!(last, Kind::Para) && (!is_heading(below) || is_second_half(gap, before))
        }
        _ => false,
    }
}

/// The line breaks between what comes, which takes no other's place, and what is after it: as many as there are between
/// other blocks of the page, or as the last that comes had below it.
fn breaks_below_new<'t, 'a>(
    known: &Known<'t, 'a>,
    gap: &Gap<'_, 't, 'a>,
    last: Kind,
    behind: &Node<'_>,
) -> usize {
    let below = kind_at_start(behind);
    if !gap.is_tight && may_be_close(last, below) && was_followed_closely(known, gap) {
        return least_between(gap.is_tight, last, below).max(1);
    }
    if goes_on_as_paragraph(gap, last, below)
        || ends_in_stack(known, gap, last, behind)
        || (!gap.is_tight && ends_with_second_half(gap))
    {
        return least_between(gap.is_tight, last, below);
    }
    between(known.closeness, gap.is_tight, last, below)
}

/// The last of the page's children before the one after the gap.
fn last_before<'t, 'a>(gap: &Gap<'_, 't, 'a>) -> Option<&'t Node<'a>> {
    let mut last = gap.before;
    for child in gap.gone {
        if is_compared(child.node.kind) {
            last = Some(child.node);
        }
    }
    last
}

/// Whether a heading comes after, was below another one, and is below something else now.
fn is_parted_from_heading(gap: &Gap<'_, '_, '_>, last: Kind, behind: &Node<'_>) -> bool {
    match last_before(gap) {
        Some(before) if !gap.is_tight => {
            is_heading(kind_at_start(behind))
                && is_heading(kind_at_end(before))
                && !is_heading(last)
        }
        _ => false,
    }
}

/// Where the place of what comes ends: after the blanks of its line, or, where a new heading comes in a page that has
/// what is below headings directly below them, after the empty lines, too.
fn end_of_place(
    known: &Known<'_, '_>,
    gap: &Gap<'_, '_, '_>,
    coming: &Coming,
    from: usize,
    to: usize,
) -> usize {
    let is_new_heading = match last_before(gap) {
        Some(before) if is_heading(kind_at_end(before)) => false,
        _ => is_heading(coming.last) && is_before_text(gap) && !gap.is_tight,
    };
    match breaks_between(known.page, from, to) {
        Some(count) if count > 1 && is_new_heading && known.closeness.below_headings => from.max(
            to,
        ),
        _ => past_spaces(known.page, from, to),
    }
}

/// The line breaks between what comes and an include tag after it, a line break at least: those before the tag in the
/// page, and so many that what comes is read apart from the child behind.
fn breaks_up_to_tag(page: &str, tag: Slot, last: Kind, behind: &Node<'_>) -> usize {
    let tag = Some(tag);
    let least = least_between(false, last, kind_at_start(behind));
    breaks_before_tag(page, tag)
        .max(1)
        .max(least.saturating_sub(breaks_behind_tag(page, tag)))
}

/// The line breaks after what comes in the place of a slice, or in a gap, before what the page has after it, up to what
/// stays or to the next slice that goes. After all that a cell holds the next cell may go on in the line.
fn breaks_behind<'t, 'a>(
    known: &Known<'t, 'a>,
    gap: &Gap<'_, 't, 'a>,
    slice: Option<Slice>,
    coming: &Coming,
    after: Slot,
) -> usize {
    let page = known.page;
    let last = coming.last;
    let Some(behind) = gap.behind else {
        let ends_line = (gap.in_cell && is_doubled_at(page, gap.place.end))
            || (coming.is_trailed && byte_at(page, after.start) != b'\n');
        return if ends_line { 1 } else { 0 };
    };
    let standing = most_breaks(page, after.start, after.end);
    let goes_on = standing == 0
        && ((coming.is_of_line && shares_line(page, last, behind))
            || goes_on_in_line(page, gap, slice, behind));
    let wanted = if goes_on {
        0
    } else if let Some(tag) = tags_beside(gap, slice).behind {
        breaks_up_to_tag(page, tag, last, behind)
    } else if slice.is_none() {
        breaks_below_new(known, gap, last, behind)
    } else if standing == 0 {
        between(known.closeness, gap.is_tight, last, behind.kind)
    } else if is_parted_from_heading(gap, last, behind) {
        between(known.closeness, gap.is_tight, last, behind.kind)
    } else {
        least_between(gap.is_tight, last, kind_at_start(behind))
    };
    wanted.saturating_sub(standing)
}

// ---- its source

/// Whether a row without a sign of its own comes after, as the first one of a table may.
fn begins_without_sign(gap: &Gap<'_, '_, '_>) -> bool {
    match gap.behind {
        Some(row) => is_row_without_sign(row),
        None => false,
    }
}

/// Appends a line of its own for an item that follows and is on the line of its first item: else it would be taken
/// into the one that comes.
fn push_line_of_item(
    alloc: Global,
    out: &mut Str,
    known: &Known<'_, '_>,
    gap: &Gap<'_, '_, '_>,
) -> Result<(), NoMemory> {
    match gap.behind {
        Some(item) if is_item(item.kind) && item.opening().is_empty() && !gap.gets_line => {
            let signs = signs_of(alloc, known, item)?;
            out.push_str("\n")?;
            out.push_str(signs.as_str())?;
            out.push_str(" ")
        }
        _ => Ok(()),
    }
}

/// Whether what comes is one cell between two of a line.
fn joins_line(page: &str, gap: &Gap<'_, '_, '_>, coming: &Coming) -> bool {
    let (Some(before), Some(behind)) = (gap.before, gap.behind) else {
        return false;
    };
    same_kind(before.kind, coming.first)
        && count_of(gap.new) == 1
        && shares_line(page, coming.last, behind)
        && coming.is_of_line
}

/// Whether what comes is one cell after the last one of a line, in which no blanks are beside the signs.
fn comes_last_in_line(page: &str, gap: &Gap<'_, '_, '_>, coming: &Coming) -> bool {
    let Some(before) = gap.before else {
        return false;
    };
    gap.behind.is_none()
        && gap.is_behind_text
        && is_directly_behind(gap, before)
        && is_cell(coming.first)
        && same_kind(before.kind, coming.first)
        && count_of(gap.new) == 1
        && coming.is_of_line
        && style_of(gap.before).is_tight
        && is_doubled(page, before)
        && most_breaks(page, range_of(before).start, range_of(before).end) == 0
}

/// The sign of the next cell of the page, where that goes on in the line of this one.
fn next_sign(known: &Known<'_, '_>, cell: &Node<'_>) -> Option<u8> {
    let visit = original(known.index, cell.id)?;
    let next = next_in_page(known, visit)?;
    if is_doubled(known.page, next) {
        Some(byte_at(known.page, range_of(next).start))
    } else {
        None
    }
}

/// Whether the sign of a cell may stand directly behind this source of another: it is a sign alone, or doesn't end with a
/// bar (that of its attributes), which would be read as one with the sign.
fn leads_sign(source: &str) -> bool {
    match source.as_bytes().last() {
        Some(byte) => source.len() == 1 || *byte != b'|',
        None => false,
    }
}

/// Whether what comes is one cell before the first one of a line, in which no blanks are beside the signs.
fn comes_first_in_line(known: &Known<'_, '_>, gap: &Gap<'_, '_, '_>, coming: &Coming) -> bool {
    let Some(behind) = gap.behind else {
        return false;
    };
    gap.before.is_none()
        && is_directly_before(gap, behind)
        && is_cell(coming.first)
        && same_kind(coming.first, behind.kind)
        && count_of(gap.new) == 1
        && coming.is_of_line
        && leads_sign(coming.source.as_str())
        && style_of(gap.behind).is_tight
        && !is_doubled(known.page, behind)
        && begins_line(known.page, range_of(behind).start, behind.kind)
        && next_sign(known, behind).is_some()
}

/// What is written in a line of the page, and how many bytes of what comes after it go: the sign of a cell that goes on now.
#[derive(Drop)]
struct InLine {
    source: Str,
    past: usize,
}

/// A cell before the first one of a line, whose sign is that of one that goes on then, as the others of the line do.
fn before_first(
    alloc: Global,
    known: &Known<'_, '_>,
    behind: Option<&Node<'_>>,
    cell: &str,
) -> Result<InLine, NoMemory> {
    let mut source = Str::copy_of(alloc, cell)?;
    let is_by_bars = match behind {
        Some(behind) => {
            matches!(behind.kind, Kind::Th) && next_sign(known, behind) == Some(b'|')
        }
        None => false,
    };
    if is_by_bars {
        source.push_str("||")?;
        return Ok(InLine { source, past: 1 });
    }
    source.push_str(first_sign(cell))?;
    Ok(InLine { source, past: 0 })
}

/// What is written of what comes in a line of the page: after a cell of it, or before its first one, whose sign is that
/// of one that goes on then. None where it begins a line of its own.
fn source_in_line(
    alloc: Global,
    known: &Known<'_, '_>,
    gap: &Gap<'_, '_, '_>,
    coming: &Coming,
) -> Result<Option<InLine>, NoMemory> {
    let source = coming.source.as_str();
    let beside = if joins_line(known.page, gap, coming) {
        gap.behind
    } else if comes_last_in_line(known.page, gap, coming) {
        gap.before
    } else {
        None
    };
    if let Some(beside) = beside {
        let mut out = Str::new(alloc);
        push_in_line(
            &mut out,
            byte_at(known.page, range_of(beside).start),
            source,
        )?;
        return Ok(Some(InLine {
            source: out,
            past: 0,
        }));
    }
    if comes_first_in_line(known, gap, coming) {
        let found = before_first(alloc, known, gap.behind, source)?;
        return Ok(Some(found));
    }
    Ok(None)
}

/// Whether what comes is one cell in the place of one that went on in the line of the cell before, which has its kind.
fn takes_place_in_line(page: &str, gap: &Gap<'_, '_, '_>, coming: &Coming, at: usize) -> bool {
    let Some(before) = gap.before else {
        return false;
    };
    is_cell(coming.first)
        && same_kind(before.kind, coming.first)
        && count_of(gap.new) == 1
        && coming.is_of_line
        && is_doubled_at(page, at)
        && !begins_line(page, at, coming.first)
}

/// Appends what comes: in the line that is begun, with this sign doubled, or after so many line breaks, and the blanks of a
/// line of the table.
fn push_source(
    out: &mut Str,
    coming: &Coming,
    sign: Option<u8>,
    breaks: usize,
    blanks: &str,
) -> Result<(), NoMemory> {
    if let Some(sign) = sign {
        return push_in_line(out, sign, coming.source.as_str());
    }
    push_breaks(out, breaks)?;
    if breaks > 0 && !coming.is_led {
        out.push_str(blanks)?;
    }
    out.push_str(coming.source.as_str())
}

/// Appends what comes before the child after it: the sign of a row that has none, the line of an item, and so many line breaks,
/// with the blanks of a line of the table, where the page has nothing before that one (`is_next`).
fn push_up_to_next<'t, 'a>(
    alloc: Global,
    out: &mut Str,
    known: &Known<'t, 'a>,
    gap: &Gap<'_, 't, 'a>,
    breaks: usize,
    is_next: bool,
) -> Result<(), NoMemory> {
    let blanks = blanks_beside(known, gap);
    if begins_without_sign(gap) {
        out.push_str("\n")?;
        out.push_str(blanks)?;
        out.push_str("|-")?;
    }
    push_line_of_item(alloc, out, known, gap)?;
    push_breaks(out, breaks)?;
    if breaks > 0 && is_next && gap.behind.is_some() {
        out.push_str(blanks)?;
    }
    Ok(())
}

/// Appends what comes, in the place of the first slice that goes.
pub fn push_new<'t, 'a>(
    alloc: Global,
    out: &mut Vec<Change>,
    known: &Known<'t, 'a>,
    gap: &Gap<'_, 't, 'a>,
    slices: &[Slice],
    coming: &Coming,
) -> Result<(), NoMemory> {
    let page = known.page;
    let slice = slices.first().copied();
    let place = place_of(gap, slice);
    if slice.is_none()
        && let Some(found) = source_in_line(alloc, known, gap, coming)?
    {
        let in_line = Slot {
            start: place.start,
            end: place.end.saturating_add(found.past),
        };
        return push_change(out, in_line, found.source);
    }
    let to = match slices.get(1) {
        Some(next) => next.place.start,
        None => gap.place.end,
    };
    let end = end_of_place(known, gap, coming, place.end, to);
    let before = breaks_before(known, gap, slice, coming, place.start);
    let after = Slot {
        start: end,
        end: to,
    };
    let behind = breaks_behind(known, gap, slice, coming, after);
    let mut by = Str::new(alloc);
    let sign = if slice.is_some() && takes_place_in_line(page, gap, coming, place.start) {
        Some(byte_at(page, place.start))
    } else {
        None
    };
    push_source(&mut by, coming, sign, before, blanks_beside(known, gap))?;
    push_up_to_next(alloc, &mut by, known, gap, behind, end == to)?;
    let start = place.start;
    push_part_of(alloc, out, known, gap, Slot { start, end }, by)
}
