//! A list of children that is written anew: what goes, what comes, and the line breaks between.

use crate::proposing::Plan;
use std::alloc::Global;
use wt_block_proposal::{Surroundings, push_block, push_if_in_line};
use wt_block_signs::{USUAL, ends_with_given_sign, goes_on_behind, is_item};
use wt_checks::{is_compared, original};
use wt_difference::inside;
use wt_gaps::{
    Along, Coming, Gap, Passed, behind_first, between_coming, blanks_beside, comes_along, count_of,
    empties_row, first_block, kind_at_end, kind_at_start, last_number, mark_at, nodes_between,
    place_behind, push_between, push_breaks, push_comment, push_comment_line, push_emptied_row,
    push_gone, push_new, push_up_to_comment, range_of, signs_in, slices_of, style_beside,
    wanted_between, way_of,
};
use wt_known::{Known, is_at_line_start, last_text};
use wt_span::{NoMemory, Str};
use wt_splice::Change;
use wt_tree::{Kind, Node};

/// The text at the end of the block before, where the last of those that come may be its second half.
fn tail_of<'t, 'a>(gap: &Gap<'_, 't, 'a>, left: usize) -> Option<&'t Node<'a>> {
    if left == 0 { gap.text_before } else { None }
}

/// The text at the end of a block.
fn text_at_end<'t, 'a>(block: Option<&'t Node<'a>>) -> Option<&'t Node<'a>> {
    last_text(inside(block?))
}

/// What comes, with line breaks between; nothing where nothing does.
fn coming_of<'t, 'a>(
    alloc: Global,
    known: &Known<'t, 'a>,
    plan: &Plan<'_>,
    outer: &str,
    gap: &Gap<'_, 't, 'a>,
) -> Result<Option<Coming>, NoMemory> {
    let mut coming: Option<Coming> = None;
    let blanks = blanks_beside(known, gap);
    let mut left = count_of(gap.new);
    let mut block = gap.first;
    let mut before = None;
    for at in 0..gap.new.len() {
        let node = &gap.new[at];
        let way = way_of(plan.along, node);
        if matches!(way, Along::Behind) {
            coming = trailed_by(known, coming, node)?;
        } else if matches!(way, Along::Before) {
            let rest = nodes_between(gap.new, at, gap.new.len());
            coming = led_by(alloc, known, gap.is_tight, coming, before, rest)?;
            before = None;
        } else if is_compared(node.kind) {
            left = left.saturating_sub(1);
            let signs = signs_in(alloc, known, gap, node.kind, outer)?;
            let keeps = plan.keeps(block.number);
            let around = Surroundings {
                keeps,
                signs: signs.as_str(),
                tail: tail_of(gap, left),
                style: if keeps { gap.style } else { USUAL },
                blanks,
            };
            coming = Some(match coming {
                None => begun_with(alloc, known, &around, node)?,
                Some(coming) => followed(alloc, known, gap, coming, &around, before, node)?,
            });
            before = Some(node);
            block = block.next();
        }
    }
    Ok(coming)
}

fn has_break_from(source: &str, start: usize) -> bool {
    match source.split_at_checked(start) {
        Some((_, last)) => last.as_bytes().contains(&b'\n'),
        None => false,
    }
}

/// Whether a node, whose source is the end of this one, is of one line, in which a cell may follow: a text that ends with
/// the sign of a heading cell, also one that a template gives, would be read with the signs of the next.
fn may_go_on(source: &str, start: usize, node: &Node<'_>) -> bool {
    let is_heading_text = matches!(node.kind, Kind::Th) && !inside(node).is_empty();
    let joins = is_heading_text && (source.ends_with("!") || ends_with_given_sign(node));
    !joins && !has_break_from(source, start)
}

/// The first that comes.
fn begun_with<'t, 'a>(
    alloc: Global,
    known: &Known<'t, 'a>,
    around: &Surroundings<'_, 't, 'a>,
    node: &Node<'_>,
) -> Result<Coming, NoMemory> {
    let mut source = Str::new(alloc);
    push_block(alloc, &mut source, known, around, node)?;
    Ok(Coming {
        first: node.kind,
        start: kind_at_start(node),
        last: kind_at_end(node),
        is_of_line: may_go_on(source.as_str(), 0, node),
        is_led: false,
        is_trailed: false,
        source,
    })
}

/// Appends what the page has between the block before and this one, where it has them so; it says whether it does.
fn push_as_between(
    out: &mut Str,
    known: &Known<'_, '_>,
    before: Option<&Node<'_>>,
    node: &Node<'_>,
) -> Result<bool, NoMemory> {
    match before {
        Some(before) => push_between(out, known, before, node),
        None => Ok(false),
    }
}

/// What comes, of which nothing is written yet, and begins with a comment that comes along with this block.
fn led_to(alloc: Global, block: &Node<'_>) -> Coming {
    Coming {
        first: block.kind,
        start: kind_at_start(block),
        last: kind_at_end(block),
        is_of_line: false,
        is_led: true,
        is_trailed: false,
        source: Str::new(alloc),
    }
}

/// What came so far, and after it the first of these nodes, a comment that comes along with the block below it. It
/// comes after the block `before`, unless it begins what comes or is after another comment. The block is sought for the
/// first of several comments alone.
fn led_by(
    alloc: Global,
    known: &Known<'_, '_>,
    is_tight: bool,
    coming: Option<Coming>,
    before: Option<&Node<'_>>,
    nodes: &[Node<'_>],
) -> Result<Option<Coming>, NoMemory> {
    let is_first = coming.is_none() || before.is_some();
    let block = if is_first { first_block(nodes) } else { None };
    let mut coming = match coming {
        Some(coming) => coming,
        None => match block {
            Some(block) => led_to(alloc, block),
            None => return Ok(None),
        },
    };
    if let Some(comment) = nodes.first() {
        if let (Some(before), Some(block)) = (before, block) {
            push_up_to_comment(&mut coming.source, known, is_tight, before, comment, block)?;
        }
        push_comment(&mut coming.source, known, is_tight, comment)?;
    }
    Ok(Some(coming))
}

/// What came so far, and a mark that comes along with the last block of it: on the next line, as a comment is, or, as an
/// include tag may be, in that of the block.
fn trailed_by(
    known: &Known<'_, '_>,
    coming: Option<Coming>,
    comment: &Node<'_>,
) -> Result<Option<Coming>, NoMemory> {
    let mut coming = match coming {
        Some(coming) => coming,
        None => return Ok(None),
    };
    if begins_line(known, comment) {
        coming.source.push_str("\n")?;
    }
    push_comment_line(&mut coming.source, known, comment)?;
    coming.is_of_line = false;
    coming.is_trailed = matches!(comment.kind, Kind::Comment);
    Ok(Some(coming))
}

/// Whether a mark of the page begins a line.
fn begins_line(known: &Known<'_, '_>, mark: &Node<'_>) -> bool {
    match original(known.index, mark.id) {
        Some(visit) => is_at_line_start(known.page, range_of(visit.node).start),
        None => true,
    }
}

/// Whether an item that holds no lists goes on in the line of the one before it, as a definition in that of its term.
fn goes_on_in_line(known: &Known<'_, '_>, before: Option<&Node<'_>>, node: &Node<'_>) -> bool {
    match before {
        Some(before) => {
            is_item(node.kind) && is_inside_alone(node) && goes_on_behind(known, before, node)
        }
        None => false,
    }
}

/// Whether a node holds nothing but its inside.
fn is_inside_alone(node: &Node<'_>) -> bool {
    inside(node).len() == node.children.as_slice().len()
}

/// Whether a definition of the page is in the line of its term.
fn is_in_line_of_term(known: &Known<'_, '_>, definition: &Node<'_>) -> bool {
    matches!(definition.kind, Kind::Dd)
        && !definition.opening().is_empty()
        && !is_at_line_start(known.page, range_of(definition).start)
}

/// Whether a new definition goes on in the line of the new term before it, whose text ends with a blank: as the one before
/// the gap does, which they come after.
fn goes_on_as_in_page(
    known: &Known<'_, '_>,
    in_page: Option<&Node<'_>>,
    before: Option<&Node<'_>>,
    node: &Node<'_>,
) -> bool {
    let (Some(in_page), Some(term)) = (in_page, before) else {
        return false;
    };
    let are_new = term.id == 0 && node.id == 0;
    let is_pair = matches!(term.kind, Kind::Dt) && matches!(node.kind, Kind::Dd);
    let ends_with_blank = match last_text(inside(term)) {
        Some(text) => text.shown().ends_with(" "),
        None => false,
    };
    are_new
        && is_pair
        && ends_with_blank
        && is_inside_alone(term)
        && is_inside_alone(node)
        && is_in_line_of_term(known, in_page)
}

/// Appends a block that comes after another; of an item that goes on in its line the last sign alone.
fn push_behind<'t, 'a>(
    alloc: Global,
    out: &mut Str,
    known: &Known<'t, 'a>,
    around: &Surroundings<'_, 't, 'a>,
    goes_on: bool,
    node: &Node<'_>,
) -> Result<(), NoMemory> {
    if !goes_on {
        return push_block(alloc, out, known, around, node);
    }
    let own = Surroundings {
        signs: ":",
        ..*around
    };
    push_block(alloc, out, known, &own, node)
}

/// What came so far, and this one after it, which comes after that one; in the line that is begun, where it comes
/// after a comment, and in that of its term, where it is a definition that was there.
fn followed<'t, 'a>(
    alloc: Global,
    known: &Known<'t, 'a>,
    gap: &Gap<'_, 't, 'a>,
    coming: Coming,
    around: &Surroundings<'_, 't, 'a>,
    before: Option<&Node<'_>>,
    node: &Node<'_>,
) -> Result<Coming, NoMemory> {
    let Coming {
        first,
        start,
        last,
        is_of_line: _,
        is_led,
        is_trailed: _,
        mut source,
    } = coming;
    let goes_on = goes_on_in_line(known, before, node)
        || goes_on_as_in_page(known, gap.before, before, node);
    let is_begun = before.is_none()
        || goes_on
        || push_if_in_line(alloc, &mut source, known, around, before, node)?
        || push_as_between(&mut source, known, before, node)?;
    if !is_begun {
        push_breaks(
            &mut source,
            between_coming(known, gap.is_tight, last, before, node),
        )?;
        source.push_str(around.blanks)?;
    }
    let from = source.as_str().len();
    push_behind(alloc, &mut source, known, around, goes_on, node)?;
    Ok(Coming {
        first,
        start,
        last: kind_at_end(node),
        is_of_line: may_go_on(source.as_str(), from, node),
        is_led,
        is_trailed: false,
        source,
    })
}

/// Appends what is written anew between two children that stay in their turn. What was sent after a comment or an
/// include tag of the gap comes after it. `outer` are the signs of the item that holds them.
pub fn push_gap<'t, 'a>(
    alloc: Global,
    out: &mut Vec<Change>,
    known: &Known<'t, 'a>,
    plan: &Plan<'_>,
    outer: &str,
    gap: &Gap<'_, 't, 'a>,
) -> Result<(), NoMemory> {
    if count_of(gap.new) == 0 {
        return push_part(alloc, out, known, plan, outer, gap);
    }
    let gap = Gap {
        style: style_beside(gap),
        text_before: text_at_end(gap.before),
        ..*gap
    };
    let mut passed = Passed::of(&gap);
    let mut from = 0;
    let last = last_number(gap.gone);
    for at in 0..gap.new.len() {
        let node = &gap.new[at];
        let stays = node.kind.is_mark() && !comes_along(plan.along, node);
        if stays && node.id != 0 && node.id <= last {
            from = place_behind(gap.gone, from, node.id);
            if let Some(mark) = mark_at(gap.gone, from, node.id) {
                let part = passed.part(&gap, from, at, mark);
                push_part(alloc, out, known, plan, outer, &part)?;
                passed = passed.behind(known.page, &part, mark);
            }
        }
    }
    push_part(alloc, out, known, plan, outer, &passed.rest(&gap))
}

/// Appends what is written anew in a part of a gap.
fn push_part<'t, 'a>(
    alloc: Global,
    out: &mut Vec<Change>,
    known: &Known<'t, 'a>,
    plan: &Plan<'_>,
    outer: &str,
    gap: &Gap<'_, 't, 'a>,
) -> Result<(), NoMemory> {
    let slices = slices_of(alloc, known.page, gap, plan.along)?;
    let slices = slices.as_slice();
    let coming = coming_of(alloc, known, plan, outer, gap)?;
    match coming {
        None if empties_row(gap) => push_emptied_row(alloc, out, known, gap, slices),
        None => {
            let wanted = wanted_between(known.page, gap);
            push_gone(alloc, out, known, gap, slices, wanted)
        }
        Some(coming) => {
            push_new(alloc, out, known, gap, slices, &coming)?;
            push_gone(alloc, out, known, gap, behind_first(slices), 0)
        }
    }
}
