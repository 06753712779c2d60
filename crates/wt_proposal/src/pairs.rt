//! Pairs of include tags, of which both come along with what was moved, or neither.

use std::alloc::Global;
use wt_checks::{Visit, original};
use wt_gaps::{Along, byte_at, range_of};
use wt_places::Slot;
use wt_span::NoMemory;
use wt_tree::{Kind, Node};

/// Whether a node is an include tag.
pub fn is_tag(node: &Node<'_>) -> bool {
    matches!(node.kind, Kind::Include)
}

/// Whether an include tag of the page closes what another one opened.
pub fn is_closing(page: &str, tag: &Node<'_>) -> bool {
    byte_at(page, range_of(tag).start.saturating_add(1)) == b'/'
}

/// Of each node of the page, by its number, whether it is an include tag.
pub fn tags_of(alloc: Global, index: &[Visit<'_, '_>]) -> Result<Vec<bool>, NoMemory> {
    let mut out = Vec::new(alloc);
    for visit in index {
        out.push(is_tag(visit.node))?;
    }
    Ok(out)
}

/// Whether a tag is at this place that closes what this one opens, with the same name as it is written.
fn is_closed_at(page: &str, opening: Slot, at: usize) -> bool {
    if byte_at(page, at) != b'<' || byte_at(page, at.saturating_add(1)) != b'/' {
        return false;
    }
    let name = at.saturating_add(2);
    for place in opening.start.saturating_add(1)..opening.end {
        let count = place.saturating_sub(opening.start).saturating_sub(1);
        if byte_at(page, place) != byte_at(page, name.saturating_add(count)) {
            return false;
        }
    }
    true
}

/// How many bytes of a node are its close delimiter.
fn close_width(node: &Node<'_>) -> usize {
    match node.ranges {
        Some(ranges) => ranges.close_w as usize,
        None => 0,
    }
}

/// Whether this opening tag, directly before a heading, is closed after the heading's last sign.
fn is_closed_behind(page: &str, opening: Slot, heading: Option<&Node<'_>>) -> bool {
    let Some(heading) = heading else {
        return false;
    };
    let place = range_of(heading);
    if place.start != opening.end || !matches!(heading.kind, Kind::Heading(_)) {
        return false;
    }
    for at in place.end.saturating_sub(close_width(heading))..place.end {
        if is_closed_at(page, opening, at) {
            return true;
        }
    }
    false
}

/// Whether a node comes along.
fn is_along(along: &[Along], node: &Node<'_>) -> bool {
    !matches!(
        along.get(node.id as usize).copied().unwrap_or(Along::No),
        Along::No
    )
}

/// Whether a place is in a node.
fn is_within(place: Slot, node: &Node<'_>) -> bool {
    let around = range_of(node);
    around.start <= place.start && place.end <= around.end
}

/// The block of the page that a mark of it is directly before.
fn block_below<'t, 'a>(
    index: &[Visit<'t, 'a>],
    below: &[u32],
    mark: &Node<'_>,
) -> Option<&'t Node<'a>> {
    let number = below.get(mark.id as usize).copied().unwrap_or(0);
    if number == 0 {
        return None;
    }
    let visit = original(index, number)?;
    Some(visit.node)
}

/// Whether a closing tag goes where this opening one comes along: it comes along, too, or is in the block below that one.
fn goes_with(along: &[Along], block: Option<&Node<'_>>, closing: &Node<'_>) -> bool {
    match block {
        Some(block) if is_within(range_of(closing), block) => true,
        _ => is_along(along, closing),
    }
}

/// Notes a tag.
fn note(tags: &mut [bool], tag: &Node<'_>) {
    let at = tag.id as usize;
    if at < tags.len() {
        tags[at] = true;
    }
}

/// Notes the last opening tag and a closing one, if it closes that one, and both go.
fn note_pair(
    tags: &mut [bool],
    page: &str,
    along: &[Along],
    block: Option<&Node<'_>>,
    opening: &Node<'_>,
    closing: &Node<'_>,
) {
    let is_pair = is_closed_at(page, range_of(opening), range_of(closing).start);
    if is_pair && is_along(along, opening) && goes_with(along, block, closing) {
        note(tags, opening);
        if is_along(along, closing) {
            note(tags, closing);
        }
    }
}

/// Of each node of the page, by its number, whether it is an include tag that comes along with its partner, where each tag
/// may that comes along by itself. `below` says of each tag the block that it is before.
pub fn pairs_along(
    alloc: Global,
    page: &str,
    index: &[Visit<'_, '_>],
    along: &[Along],
    below: &[u32],
) -> Result<Vec<bool>, NoMemory> {
    let mut out = Vec::new(alloc);
    for _ in 0..index.len() {
        out.push(false)?;
    }
    let mut open: Vec<&Node<'_>> = Vec::new(alloc);
    for visit in index {
        let tag = visit.node;
        if is_tag(tag) && !is_closing(page, tag) {
            let block = block_below(index, below, tag);
            if !is_closed_behind(page, range_of(tag), block) {
                open.push(tag)?;
            } else if is_along(along, tag) {
                note(out.as_mut_slice(), tag);
            }
        } else if is_tag(tag)
            && let Some(opening) = open.pop()
        {
            let block = block_below(index, below, opening);
            note_pair(out.as_mut_slice(), page, along, block, opening, tag);
        }
    }
    Ok(out)
}

/// Whether each of these tags comes along.
pub fn keep_together(along: &[Along], tags: &[bool]) -> bool {
    for at in 0..tags.len() {
        if tags[at] && matches!(along.get(at).copied().unwrap_or(Along::No), Along::No) {
            return false;
        }
    }
    true
}
