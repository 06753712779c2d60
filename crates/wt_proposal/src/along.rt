//! Comments that come along with a block that moved: those that are before it in the page, or directly below it, and were
//! sent so; and include tags whose partner comes along, too. And which comments and include tags are left where the page has
//! them.

use crate::pairs::{is_closing, is_tag, keep_together, pairs_along, tags_of};
use std::alloc::Global;
use wt_block_signs::{is_cell, is_list};
use wt_checks::{Visit, is_compared, is_content, original};
use wt_difference::{are_same, inside_count, is_block_part, stays_in};
use wt_gaps::{Along, byte_at, nodes_between, range_of};
use wt_known::{breaks_between, is_at_line_start, text_of};
use wt_places::turns;
use wt_span::NoMemory;
use wt_tree::{Kind, Node};

fn is_comment(node: &Node<'_>) -> bool {
    matches!(node.kind, Kind::Comment)
}

/// Whether a node is a comment, or one of these include tags, which are taken as comments.
fn is_loose(tags: &[bool], node: &Node<'_>) -> bool {
    is_comment(node) || (is_tag(node) && was_sent(tags, node.id))
}

// ---- in the page

/// Whether a table ends directly before a place of the page.
fn is_behind_table(page: &str, at: usize) -> bool {
    byte_at(page, at.saturating_sub(1)) == b'}' && byte_at(page, at.saturating_sub(2)) == b'|'
}

/// Whether a mark of the page begins its line, or is a tag directly behind a table, as mostly the one before what only the
/// page itself shows.
fn begins_row(page: &str, mark: &Node<'_>) -> bool {
    let at = range_of(mark).start;
    is_at_line_start(page, at) || (is_tag(mark) && is_behind_table(page, at))
}

/// Whether a comment begins its line, and is one alone: several on a line of their own are one node.
fn is_alone(page: &str, comment: &Node<'_>) -> bool {
    let place = range_of(comment);
    for at in place.start.saturating_add(1)..place.end {
        let next = byte_at(page, at.saturating_add(1));
        if byte_at(page, at) == b'<' && next == b'!' {
            return false;
        }
    }
    begins_row(page, comment)
}

/// Whether a mark of the page goes on in the line of the tag before it.
fn goes_on_behind_tag(before: &Node<'_>, mark: &Node<'_>) -> bool {
    is_tag(before) && is_tag(mark) && range_of(before).end == range_of(mark).start
}

/// Where the row of comments begins that ends with this one, where those before it begin at `from`; after it, where it
/// isn't alone on its line.
fn row_from(page: &str, index: &[Visit<'_, '_>], from: usize, at: usize) -> usize {
    let (Some(visit), Some(before)) = (index.get(at), index.get(at.saturating_sub(1))) else {
        return at;
    };
    let goes_on = from < at && visit.parent == before.parent;
    if !is_alone(page, visit.node) && !(goes_on && goes_on_behind_tag(before.node, visit.node)) {
        return at.saturating_add(1);
    }
    if goes_on { from } else { at }
}

/// Notes that the comments from `from` on are before the page's node with the number `at`, where that is a block, an item
/// or a row beside them.
fn note_row(out: &mut [u32], index: &[Visit<'_, '_>], from: usize, at: usize) {
    let (Some(first), Some(below)) = (index.get(from), index.get(at)) else {
        return;
    };
    let kind = below.node.kind;
    if first.parent != below.parent || !is_compared(kind) || is_cell(kind) {
        return;
    }
    for number in from..at {
        if number < out.len() {
            out[number] = below.node.id;
        }
    }
}

/// Of each node of the page, by its number: none.
fn no_numbers(alloc: Global, index: &[Visit<'_, '_>]) -> Result<Vec<u32>, NoMemory> {
    let mut out = Vec::new(alloc);
    for _ in 0..index.len() {
        out.push(0)?;
    }
    Ok(out)
}

/// Of each comment of the page, and of each of these include tags, by its number, the number of what it is directly before; 0
/// of all other nodes.
fn blocks_below(
    alloc: Global,
    page: &str,
    index: &[Visit<'_, '_>],
    tags: &[bool],
) -> Result<Vec<u32>, NoMemory> {
    let mut out = no_numbers(alloc, index)?;
    let mut from = 0;
    for at in 0..index.len() {
        if is_loose(tags, index[at].node) {
            from = row_from(page, index, from, at);
        } else {
            note_row(out.as_mut_slice(), index, from, at);
            from = at.saturating_add(1);
        }
    }
    Ok(out)
}

/// Notes a number of another one.
fn note_number(numbers: &mut [u32], of: u32, number: u32) {
    let at = of as usize;
    if at < numbers.len() {
        numbers[at] = number;
    }
}

/// What is said of a number; 0 where nothing is.
fn said_of(numbers: &[u32], number: u32) -> u32 {
    numbers.get(number as usize).copied().unwrap_or(0)
}

/// Whether the line that begins at a place of the page is empty, or the page ends there.
fn is_before_empty_line(page: &str, from: usize) -> bool {
    for at in from..page.len() {
        match byte_at(page, at) {
            b' ' | b'\t' => {}
            byte => return byte == b'\n',
        }
    }
    true
}

/// Whether a mark of the page is a comment on a line of its own, or one of these include tags that closes.
fn may_be_below(page: &str, tags: &[bool], mark: &Node<'_>) -> bool {
    if is_comment(mark) {
        is_alone(page, mark)
    } else {
        is_loose(tags, mark) && is_closing(page, mark)
    }
}

/// Whether a mark that may be below something is as close below this node of the page: a comment on the next line, a tag
/// there or on the same one. A comment's line break is in the comment.
fn is_close_below(page: &str, above: &Node<'_>, mark: &Node<'_>) -> bool {
    let breaks = breaks_between(page, range_of(above).end, range_of(mark).start);
    if is_tag(mark) {
        matches!(breaks, Some(0 | 1))
    } else if is_comment(above) {
        breaks == Some(0)
    } else {
        breaks == Some(1)
    }
}

/// The number of the block that a comment of the page is below, where the child of its holder before it has this number:
/// this one, if the comment is on the line after it, or that of the comment before it; 0 of any other node.
fn block_over(
    page: &str,
    index: &[Visit<'_, '_>],
    tags: &[bool],
    above: &[u32],
    before: u32,
    comment: &Node<'_>,
) -> u32 {
    let Some(visit) = original(index, before) else {
        return 0;
    };
    if before == 0 || !may_be_below(page, tags, comment) {
        return 0;
    }
    if !is_close_below(page, visit.node, comment) {
        0
    } else if is_loose(tags, visit.node) {
        said_of(above, before)
    } else if is_compared(visit.node.kind) && !is_cell(visit.node.kind) {
        before
    } else {
        0
    }
}

/// Of each comment of the page, by its number, the number of the block that it is directly below, or is so with comments
/// between; likewise of these include tags; 0 of all other nodes.
fn blocks_over(
    alloc: Global,
    page: &str,
    index: &[Visit<'_, '_>],
    tags: &[bool],
) -> Result<Vec<u32>, NoMemory> {
    let mut out = no_numbers(alloc, index)?;
    let mut children = no_numbers(alloc, index)?;
    for at in 1..index.len() {
        let visit = index[at];
        let before = said_of(children.as_slice(), visit.parent);
        let over = block_over(page, index, tags, out.as_slice(), before, visit.node);
        note_number(out.as_mut_slice(), visit.node.id, over);
        note_number(children.as_mut_slice(), visit.parent, visit.node.id);
    }
    Ok(out)
}

/// Whether the page's node with this number is an include tag, or an empty line comes after it, or the page's end.
fn is_last_in_row(page: &str, index: &[Visit<'_, '_>], at: usize) -> bool {
    match index.get(at) {
        Some(visit) => {
            is_tag(visit.node) || is_before_empty_line(page, range_of(visit.node).end)
        }
        None => false,
    }
}

/// The same where an empty line comes after it, or after the comments below it, or the page's end: it belongs to what is
/// above it, as a closing tag does.
fn blocks_above(
    alloc: Global,
    page: &str,
    index: &[Visit<'_, '_>],
    tags: &[bool],
) -> Result<Vec<u32>, NoMemory> {
    let mut out = blocks_over(alloc, page, index, tags)?;
    let mut next = 0;
    for count in 0..out.len() {
        let at = out.len().saturating_sub(count).saturating_sub(1);
        if at < out.len() {
            if out[at] != 0 && out[at] != next && !is_last_in_row(page, index, at) {
                out[at] = 0;
            }
            next = out[at];
        }
    }
    Ok(out)
}

// ---- in the edited tree

/// The number of what a comment is beside in the page, or an include tag that is taken as one; 0 of any other node.
fn block_beside(blocks: &[u32], node: &Node<'_>) -> u32 {
    if node.kind.is_mark() {
        said_of(blocks, node.id)
    } else {
        0
    }
}

/// The blocks beside the page's comments: those that they are before, and those that they are below; and by the number
/// of each node of the page whether the edited tree has it, whether it has it in the same holder, and whether it is an
/// include tag that is taken as a comment.
#[derive(Clone, Copy)]
struct Blocks<'w> {
    below: &'w [u32],
    above: &'w [u32],
    sent: &'w [bool],
    kept: &'w [bool],
    tags: &'w [bool],
}

/// Notes the nodes of the page that these are and hold.
fn note_sent(sent: &mut [bool], nodes: &[Node<'_>]) {
    for node in nodes {
        let at = node.id as usize;
        if at != 0 && at < sent.len() {
            sent[at] = true;
        }
        note_sent(sent, node.children.as_slice());
    }
}

/// Notes those of these children, and of those in them, that the page has in what holds them, too, which has this number.
fn note_kept(kept: &mut [bool], index: &[Visit<'_, '_>], holder: u32, nodes: &[Node<'_>]) {
    for node in nodes {
        let at = node.id as usize;
        if at != 0 && at < kept.len() && stays_in(index, holder, node) {
            kept[at] = true;
        }
        note_kept(kept, index, node.id, node.children.as_slice());
    }
}

/// Notes the comments among the children of a new list that the page has directly before what isn't in its place any more:
/// they go into the list, as where paragraphs become its items.
fn note_taken(out: &mut [Along], blocks: &Blocks<'_>, nodes: &[Node<'_>]) {
    for node in nodes {
        let at = node.id as usize;
        let below = block_beside(blocks.below, node);
        let is_taken = is_comment(node) && below != 0 && !was_sent(blocks.kept, below);
        if is_taken && at < out.len() {
            out[at] = Along::Before;
        }
    }
}

/// Whether the edited tree has the page's node of this number.
fn was_sent(sent: &[bool], number: u32) -> bool {
    sent.get(number as usize).copied().unwrap_or(false)
}

/// Whether a comment was in a list or a table of the page that isn't there any more.
fn is_left_alone(blocks: &Blocks<'_>, index: &[Visit<'_, '_>], node: &Node<'_>) -> bool {
    match original(index, node.id) {
        Some(visit) if node.id != 0 && is_comment(node) && visit.parent != 0 => {
            !was_sent(blocks.sent, visit.parent)
        }
        _ => false,
    }
}

/// Notes those of these nodes that are such comments: they come before the block that was sent after them, or, if there is
/// none, behind the last one.
fn note_alone(
    out: &mut [Along],
    blocks: &Blocks<'_>,
    index: &[Visit<'_, '_>],
    nodes: &[Node<'_>],
    way: Along,
) {
    for node in nodes {
        let at = node.id as usize;
        if is_left_alone(blocks, index, node) && at < out.len() {
            out[at] = way;
        }
    }
}

/// Whether one of these nodes is a comment that may come along.
fn may_come(blocks: &Blocks<'_>, index: &[Visit<'_, '_>], nodes: &[Node<'_>]) -> bool {
    for node in nodes {
        if block_beside(blocks.below, node) != 0
            || block_beside(blocks.above, node) != 0
            || is_left_alone(blocks, index, node)
        {
            return true;
        }
    }
    false
}

/// Where those of these nodes begin, which were sent before the block with this number, that the page has directly before
/// it, too, in the same order; their end, where it has none.
fn own_row(below: &[u32], nodes: &[Node<'_>], number: u32) -> usize {
    let mut from = 0;
    let mut next = 0;
    for at in 0..nodes.len() {
        let node = &nodes[at];
        if node.kind.is_mark() {
            if node.id != next {
                from = at;
            }
            next = if block_beside(below, node) == number {
                node.id.saturating_add(1)
            } else {
                0
            };
        }
    }
    if next == number { from } else { nodes.len() }
}

/// Notes those of these nodes, which were sent before the block with this number, that the page has directly before it, too,
/// in the same order.
fn note_before(out: &mut [Along], below: &[u32], nodes: &[Node<'_>], number: u32) {
    for node in nodes_between(nodes, own_row(below, nodes, number), nodes.len()) {
        let at = node.id as usize;
        if block_beside(below, node) == number && at < out.len() {
            out[at] = Along::Before;
        }
    }
}

/// Notes those of these nodes, which were sent after the block with this number, that the page has below it, too, in the
/// same order.
fn note_behind(out: &mut [Along], blocks: &Blocks<'_>, nodes: &[Node<'_>], number: u32) {
    let mut last = 0;
    for node in nodes {
        let is_next = block_beside(blocks.above, node) == number && last < node.id;
        let is_mark = node.kind.is_mark();
        if ends_row(blocks.tags, node) || (is_mark && !is_next) {
            return;
        }
        let at = node.id as usize;
        if is_mark && at < out.len() {
            out[at] = Along::Behind;
            last = node.id;
        }
    }
}

/// Whether comments that were sent before a node weren't sent before what comes after it.
fn ends_row(tags: &[bool], node: &Node<'_>) -> bool {
    is_compared(node.kind) || (node.kind.is_mark() && !is_loose(tags, node))
}

/// What holds edited children: the page's node with this number, or a new one, and whether that stays.
#[derive(Clone, Copy)]
struct Holder {
    number: Option<u32>,
    stays: bool,
}

impl Holder {
    /// What an edited node is to its children, by whether it stays.
    fn of(node: &Node<'_>, stays: bool) -> Holder {
        Holder {
            number: if node.id != 0 || stays {
                Some(node.id)
            } else {
                None
            },
            stays,
        }
    }

    /// Whether a child of it stays in it.
    fn keeps(self, index: &[Visit<'_, '_>], child: &Node<'_>) -> bool {
        match self.number {
            Some(number) => self.stays && stays_in(index, number, child),
            None => false,
        }
    }

    /// Whether a child of it is in another node in the page.
    fn gets(self, index: &[Visit<'_, '_>], child: &Node<'_>) -> bool {
        match original(index, child.id) {
            Some(visit) => child.id != 0 && self.number != Some(visit.parent),
            None => false,
        }
    }
}

/// Of each of these children whether it stays in its turn; none are said where what holds them doesn't stay.
fn turns_in(
    alloc: Global,
    index: &[Visit<'_, '_>],
    holder: Holder,
    nodes: &[Node<'_>],
) -> Result<Vec<bool>, NoMemory> {
    match holder.number {
        Some(number) if holder.stays => turns(alloc, index, number, nodes),
        _ => Ok(Vec::new(alloc)),
    }
}

/// What is noted: of each node of the page, by its number, how it comes along; and whether an include tag that doesn't was
/// sent elsewhere than between the children that it is between in the page.
#[derive(Drop)]
struct Noted {
    along: Vec<Along>,
    strays: bool,
}

/// The number of the last child in its turn, and the greatest one of an include tag after it.
#[derive(Clone, Copy)]
struct Sent {
    child: u32,
    tag: u32,
}

impl Sent {
    /// After a child in its turn, or an include tag that doesn't come along.
    fn behind(self, node: &Node<'_>, is_in_turn: bool) -> Sent {
        if is_tag(node) {
            Sent {
                child: self.child,
                tag: self.tag.max(node.id),
            }
        } else if is_in_turn {
            Sent {
                child: node.id,
                tag: 0,
            }
        } else {
            self
        }
    }

    /// Whether the page has this one before the child, or an include tag after it that was sent before it.
    fn strays(self, node: &Node<'_>, is_in_turn: bool) -> bool {
        if is_tag(node) {
            node.id != 0 && node.id < self.child
        } else {
            is_in_turn && node.id < self.tag
        }
    }
}

/// Notes the comments that come along among these children.
fn note_children(
    alloc: Global,
    out: &mut Noted,
    blocks: &Blocks<'_>,
    index: &[Visit<'_, '_>],
    holder: Holder,
    nodes: &[Node<'_>],
) -> Result<(), NoMemory> {
    if !may_come(blocks, index, nodes) {
        return Ok(());
    }
    let turns = turns_in(alloc, index, holder, nodes)?;
    let mut sent = Sent { child: 0, tag: 0 };
    let mut from = 0;
    for at in 0..nodes.len() {
        let node = &nodes[at];
        if ends_row(blocks.tags, node) {
            let is_in_turn = turns.get(at).copied().unwrap_or(false);
            out.strays = out.strays || sent.strays(node, is_in_turn);
            sent = sent.behind(node, is_in_turn);
            let before = nodes_between(nodes, from, at);
            from = at.saturating_add(1);
            let behind = nodes_between(nodes, from, nodes.len());
            let along = out.along.as_mut_slice();
            note_alone(along, blocks, index, before, way_beside(is_in_turn));
            let is_moved = holder.gets(index, node) || holder.keeps(index, node);
            if is_moved && !is_in_turn {
                note_before(along, blocks.below, before, node.id);
                note_behind(along, blocks, behind, node.id);
            }
        }
    }
    let rest = nodes_between(nodes, from, nodes.len());
    note_alone(out.along.as_mut_slice(), blocks, index, rest, Along::Behind);
    Ok(())
}

/// How a comment that is left alone comes before a child, which is in its turn or not.
fn way_beside(is_in_turn: bool) -> Along {
    if is_in_turn {
        Along::Behind
    } else {
        Along::Before
    }
}

/// How many of the edited children of a node come before those that it has in lines of their own.
fn text_count(page: &str, index: &[Visit<'_, '_>], stays: bool, node: &Node<'_>) -> usize {
    if stays {
        inside_count(node)
    } else {
        text_of(page, index, node).len()
    }
}

/// Notes the comments that come along in a node, which stays or doesn't, and in those that it holds.
fn note_within(
    alloc: Global,
    out: &mut Noted,
    blocks: &Blocks<'_>,
    page: &str,
    index: &[Visit<'_, '_>],
    node: &Node<'_>,
    stays: bool,
) -> Result<(), NoMemory> {
    let holder = Holder::of(node, stays);
    let nodes = node.children.as_slice();
    let from = text_count(page, index, stays, node);
    let children = nodes_between(nodes, from, nodes.len());
    if !stays && is_list(node.kind) {
        note_taken(out.along.as_mut_slice(), blocks, children);
    }
    note_children(alloc, out, blocks, index, holder, children)?;
    for child in nodes {
        if is_block_part(child.kind) {
            let stays = holder.keeps(index, child);
            note_within(alloc, out, blocks, page, index, child, stays)?;
        }
    }
    Ok(())
}

/// Of each node of the page, by its number, whether it is a comment that comes along, or one of these include tags: the
/// block that it is directly before or below was moved, in what holds it or into another node, and it was sent before or
/// after it.
fn marks_along(
    alloc: Global,
    page: &str,
    index: &[Visit<'_, '_>],
    edited: &Node<'_>,
    tags: &[bool],
) -> Result<Noted, NoMemory> {
    let below = blocks_below(alloc, page, index, tags)?;
    let above = blocks_above(alloc, page, index, tags)?;
    let mut sent = none_noted(alloc, index)?;
    note_sent(sent.as_mut_slice(), edited.children.as_slice());
    let mut kept = none_noted(alloc, index)?;
    note_kept(kept.as_mut_slice(), index, 0, edited.children.as_slice());
    let blocks = Blocks {
        below: below.as_slice(),
        above: above.as_slice(),
        sent: sent.as_slice(),
        kept: kept.as_slice(),
        tags,
    };
    let mut along = Vec::new(alloc);
    for _ in 0..index.len() {
        along.push(Along::No)?;
    }
    let mut out = Noted {
        along,
        strays: false,
    };
    note_within(alloc, &mut out, &blocks, page, index, edited, true)?;
    Ok(out)
}

/// The include tags that come along if all do that may: those of a pair that both do, or of which one is in the block that
/// the other one is before.
fn tags_along(
    alloc: Global,
    page: &str,
    index: &[Visit<'_, '_>],
    edited: &Node<'_>,
) -> Result<Vec<bool>, NoMemory> {
    let tags = tags_of(alloc, index)?;
    if !tags.as_slice().contains(&true) {
        return Ok(tags);
    }
    let noted = marks_along(alloc, page, index, edited, tags.as_slice())?;
    let below = blocks_below(alloc, page, index, tags.as_slice())?;
    pairs_along(alloc, page, index, noted.along.as_slice(), below.as_slice())
}

/// Of each node of the page, by its number, whether it is a comment or an include tag that comes along: the block that it
/// is directly before or below was moved, in what holds it or into another node, and it was sent before or after it; of
/// the tags those whose partner comes along, too, and none where one that doesn't was sent elsewhere: their order counts.
pub fn comments_along(
    alloc: Global,
    page: &str,
    index: &[Visit<'_, '_>],
    edited: &Node<'_>,
) -> Result<Vec<Along>, NoMemory> {
    let tags = tags_along(alloc, page, index, edited)?;
    let noted = marks_along(alloc, page, index, edited, tags.as_slice())?;
    if !tags.as_slice().contains(&true) {
        return Ok(noted.along);
    }
    if !noted.strays && keep_together(noted.along.as_slice(), tags.as_slice()) {
        return Ok(noted.along);
    }
    let none = none_noted(alloc, index)?;
    let noted = marks_along(alloc, page, index, edited, none.as_slice())?;
    Ok(noted.along)
}

/// Of each node of the page, by its number: no.
pub fn none_noted(alloc: Global, index: &[Visit<'_, '_>]) -> Result<Vec<bool>, NoMemory> {
    let mut out = Vec::new(alloc);
    for _ in 0..index.len() {
        out.push(false)?;
    }
    Ok(out)
}

// ---- comments and include tags that are left

/// Notes the comments and include tags among these nodes of the page, and in them but for their blocks, or with these.
fn note_marks(left: &mut [bool], nodes: &[Node<'_>], with_blocks: bool) {
    for node in nodes {
        let at = node.id as usize;
        if node.kind.is_mark() && at != 0 && at < left.len() {
            left[at] = true;
        }
        if with_blocks || !is_block_part(node.kind) {
            note_marks(left, node.children.as_slice(), with_blocks);
        }
    }
}

/// Notes those that are left in a block of the page that was moved: all, where it is as it was and is written so.
fn note_moved(
    alloc: Global,
    left: &mut [bool],
    old: &Node<'_>,
    node: &Node<'_>,
) -> Result<(), NoMemory> {
    if are_same(alloc, old.children.as_slice(), node.children.as_slice())? {
        note_marks(left, old.children.as_slice(), true);
    }
    Ok(())
}

/// Notes those that are left in a node of the page (`old`) that stays in its turn, but for its blocks: all but those of an
/// inside that is written anew.
fn note_standing(left: &mut [bool], node: &Node<'_>, old: &Node<'_>) {
    let nodes = old.children.as_slice();
    let from = if is_content(node.mark()) {
        inside_count(old)
    } else {
        0
    };
    note_marks(left, nodes_between(nodes, from, nodes.len()), false);
}

/// Notes those that are left in a node of the page (`old`) that stays in its turn, and in its blocks.
fn note_left(
    alloc: Global,
    left: &mut [bool],
    index: &[Visit<'_, '_>],
    node: &Node<'_>,
    old: &Node<'_>,
) -> Result<(), NoMemory> {
    note_standing(left, node, old);
    let nodes = node.children.as_slice();
    let from = inside_count(node);
    let turns = turns(
        alloc,
        index,
        old.id,
        nodes_between(nodes, from, nodes.len()),
    )?;
    for at in from..nodes.len() {
        let child = &nodes[at];
        if is_block_part(child.kind)
            && stays_in(index, old.id, child)
            && let Some(visit) = original(index, child.id)
        {
            let is_in_turn = turns.get(at.saturating_sub(from)).copied().unwrap_or(false);
            if is_in_turn {
                note_left(alloc, left, index, child, visit.node)?;
            } else {
                note_moved(alloc, left, visit.node, child)?;
            }
        }
    }
    Ok(())
}

/// Of each node of the page, by its number, whether it is a comment or an include tag that is left where the page has it:
/// between blocks, or in a block that isn't written anew there. Those that come along (`along`) aren't. Nothing is said
/// where no node comes from elsewhere (`is_asked`).
pub fn marks_left(
    alloc: Global,
    index: &[Visit<'_, '_>],
    tree: &Node<'_>,
    edited: &Node<'_>,
    along: &[Along],
    is_asked: bool,
) -> Result<Vec<bool>, NoMemory> {
    if !is_asked {
        return Ok(Vec::new(alloc));
    }
    let mut left = none_noted(alloc, index)?;
    note_left(alloc, left.as_mut_slice(), index, edited, tree)?;
    for at in 0..left.len() {
        if !matches!(along.get(at).copied().unwrap_or(Along::No), Along::No) {
            left[at] = false;
        }
    }
    Ok(left)
}
