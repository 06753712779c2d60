//! A proposal: the page in which the places of the difference are written anew.

ghost use Rattle.std.specs.Prelude.{◌≡◌, ◌≤◌, IfOk, IfSome, length};
ghost use Rattle.wt_checks.specs.Places.{page_of};
ghost use Rattle.wt_checks.specs.View.{indexed};
ghost use Rattle.wt_tree.specs.View.{view};
ghost use Rattle.wt_places.specs.Rewritten.{IsRewritten};

use crate::along::{comments_along, marks_left};
use crate::children::push_gap;
use crate::homeless::{marks_without_place, push_with_marks};
use crate::lost::loses_marks;
use std::alloc::Global;
use wt_block_signs::{
    Style, USUAL, ends_with_given_sign, is_bare_sign, is_cell, is_item, is_list,
    is_row_without_sign, joins_sign, signs_of, style_of, style_within,
};
use wt_checks::{Visit, is_compared, is_content};
use wt_content_proposal::{Writing, edges_of, spelled};
use wt_difference::{Child, held, inside, inside_count, same_inside};
use wt_gaps::{
    Along, Gap, Joined, Numbering, Tags, byte_at, children_between, first_block, nodes_between,
    push_change,
};
use wt_known::{Known, block_of, first_text, takes_from_elsewhere, text_of_staying};
use wt_places::{
    Beside, Reached, Slot, begun, inside_end, inside_start, inside_stop, next_turn, places,
    start_of, tested, turns,
};
use wt_span::{NoMemory, Str};
use wt_splice::Change;
use wt_tree::{Kind, Node};

/// Where texts keep their bytes: everywhere, everywhere but in the block with this number (from 1, among what
/// the edited body shows), or nowhere.
#[derive(Clone, Copy)]
pub enum Keeping {
    Everywhere,
    ButIn(usize),
    Nowhere,
}

impl Keeping {
    fn keeps(self, block: usize) -> bool {
        match self {
            Keeping::Everywhere => true,
            Keeping::ButIn(number) => number != block,
            Keeping::Nowhere => false,
        }
    }
}

/// What a proposal is made by, beside what is known of the page: where texts keep their bytes, by the number of each
/// comment whether it comes along with a block beside it, and which marks were sent where nothing is written anew.
#[derive(Clone, Copy)]
pub struct Plan<'w> {
    pub keeping: Keeping,
    pub along: &'w [Along],
    pub homeless: &'w [bool],
}

impl<'w> Plan<'w> {
    /// Whether texts keep their bytes in the block with this number.
    pub fn keeps(&self, block: usize) -> bool {
        self.keeping.keeps(block)
    }
}

// ---- insides

/// Whether a blank is written at a place of the page, where there was none.
fn is_behind_blank(changes: &[Change], at: usize) -> bool {
    match changes.last() {
        Some(change) => change.start == at && change.end == at && change.by.as_str() == " ",
        None => false,
    }
}

/// The first byte of the text with which an inside begins; a space where it begins with none.
fn first_byte(inside: &[Node<'_>]) -> u8 {
    match inside.first() {
        Some(node) if matches!(node.kind, Kind::Text) => {
            node.shown().as_bytes().first().copied().unwrap_or(b' ')
        }
        _ => b' ',
    }
}

/// Whether an inside begins with a text now that would be read with the sign before it: a blank comes between them.
fn begins_with_sign(before: u8, new: &Node<'_>, old: &Node<'_>) -> bool {
    let first = first_byte(inside(new));
    first != first_byte(inside(old)) && joins_sign(old.kind, before, first)
}

/// Whether the bar after the attributes of a cell would join the signs of the next one, if the cell holds nothing.
fn meets_next_sign(page: &str, old: &Node<'_>, place: Slot) -> bool {
    let width = match old.ranges {
        Some(ranges) => ranges.open_w,
        None => 0,
    };
    is_cell(old.kind)
        && width > 2
        && byte_at(page, place.start.saturating_sub(1)) == b'|'
        && byte_at(page, place.end) == b'|'
}

/// The inside of a heading cell before the signs of the next one: its last character isn't read with these, nor is that
/// of what a template gives.
fn apart_from_sign(alloc: Global, cell: &Node<'_>, inside: Str) -> Result<Str, NoMemory> {
    if ends_with_given_sign(cell) {
        let mut out = inside;
        out.push_str("<nowiki/>")?;
        return Ok(out);
    }
    let Some(front) = inside.as_str().strip_suffix("!") else {
        return Ok(inside);
    };
    let mut out = Str::copy_of(alloc, front)?;
    out.push_str("&#33;")?;
    Ok(out)
}

/// How the inside of a node of the page is written.
fn writing_in(keeps: bool, old: &Node<'_>) -> Writing {
    Writing {
        keeps,
        place: old.kind.edit_shape().place,
    }
}

/// How an inside is written: whether texts keep their bytes in it, and which marks of the page stay in it that were sent where
/// nothing is written anew.
#[derive(Clone, Copy)]
struct InsideStyle<'w> {
    keeps: bool,
    homeless: &'w [bool],
}

/// Appends the inside of a node of the page, spelled as it was edited.
fn push_inside<'t, 'a>(
    alloc: Global,
    out: &mut Vec<Change>,
    known: &Known<'t, 'a>,
    style: InsideStyle<'_>,
    new: &'t Node<'a>,
    old: &'t Node<'a>,
) -> Result<(), NoMemory> {
    if same_inside(alloc, old, new)? {
        return Ok(());
    }
    let keeps = style.keeps;
    let start = inside_start(old.ranges);
    let block = block_of(alloc, old)?;
    let mut by = Str::new(alloc);
    let is_apart = is_behind_blank(out.as_slice(), start);
    let is_parted = !is_apart && keeps && begins_with_sign(block.before, new, old);
    if is_parted {
        by.push_str(" ")?;
    }
    let block = Some(if is_apart || is_parted {
        block.behind_blank()
    } else {
        block
    });
    let source = spelled(
        alloc,
        known,
        &block,
        writing_in(keeps, old),
        text_of_staying(known.page, known.index, new),
        &edges_of(inside(old)),
    )?;
    push_with_marks(alloc, &mut by, source.as_str(), style.homeless, inside(old))?;
    let place = Slot {
        start,
        end: inside_end(old),
    };
    if keeps && by.as_str().is_empty() && meets_next_sign(known.page, old, place) {
        by.push_str(" ")?;
    }
    if matches!(old.kind, Kind::Th) && byte_at(known.page, place.end) == b'!' {
        by = apart_from_sign(alloc, new, by)?;
    }
    push_change(out, place, by)
}

// ---- items without a line

/// Whether the first of these nodes that counts is a list or a group; not where none counts.
fn begin_with_list(nodes: &[Node<'_>]) -> bool {
    match first_block(nodes) {
        Some(node) => is_list(node.kind) || matches!(node.kind, Kind::Group),
        None => false,
    }
}

/// Whether an item of the page that had no line of its own gets one: it has text now, or no list begins on its line.
fn gets_line(new: &Node<'_>, old: &Node<'_>) -> bool {
    is_item(old.kind) && old.opening().is_empty() && !begin_with_list(new.children.as_slice())
}

/// Whether a node of the page begins with the character of its text with which it began.
fn begins_alike(new: &Node<'_>, old: &Node<'_>) -> bool {
    match (first_text(inside(new)), first_text(inside(old))) {
        (Some(text), Some(was)) => text.shown().as_bytes().first()
            == was.shown().as_bytes().first(),
        _ => false,
    }
}

/// Past the signs of an item, which may begin at this place of the page.
fn past_signs(page: &str, from: usize) -> usize {
    for at in from..page.len() {
        if !matches!(byte_at(page, at), b'*' | b'#' | b':' | b';') {
            return at;
        }
    }
    from.max(page.len())
}

/// How an item is written that gets a line before the line of its first inner item, which is at this place.
fn style_at(page: &str, at: usize) -> Style {
    let first = byte_at(page, past_signs(page, at));
    Style {
        is_tight: !matches!(first, b' ' | b'\t' | b'\n'),
        is_one_line: false,
    }
}

/// Appends the line of an item that had none: its signs, its inside, and a line break where it holds lists.
fn push_own_line<'t, 'a>(
    alloc: Global,
    out: &mut Vec<Change>,
    known: &Known<'t, 'a>,
    keeps: bool,
    new: &'t Node<'a>,
    old: &'t Node<'a>,
) -> Result<(), NoMemory> {
    let start = inside_start(old.ranges);
    let block = Some(block_of(alloc, old)?);
    let source = spelled(
        alloc,
        known,
        &block,
        writing_in(keeps, old),
        text_of_staying(known.page, known.index, new),
        &edges_of(inside(old)),
    )?;
    let mut by = signs_of(alloc, known, old)?;
    if !source.as_str().is_empty() {
        by.push_str(style_at(known.page, start).blank_before(source.as_str()))?;
        by.push_str(source.as_str())?;
    }
    if holds_blocks(new) {
        by.push_str("\n")?;
    }
    push_change(out, Slot { start, end: start }, by)
}

/// Whether something that counts comes after the inside of a node.
fn holds_blocks(node: &Node<'_>) -> bool {
    let nodes = node.children.as_slice();
    for block in nodes_between(nodes, inside(node).len(), nodes.len()) {
        if is_compared(block.kind) {
            return true;
        }
    }
    false
}

// ---- children

/// A node of the page that stays, and the part of its list or table that is beside it in the page.
#[derive(Clone, Copy)]
struct Part<'t, 'a> {
    old: &'t Node<'a>,
    beside: Option<&'t Node<'a>>,
}

/// The children that a node of the page holds, the signs with which it begins where it is an item, its kind, whether it
/// is a row without a sign of its own, how new lists or cells are written in it, its number, where its children begin
/// and end, and how many of the edited ones are its inside.
#[derive(Clone, Copy)]
struct Held<'w, 't, 'a> {
    children: &'w [Child<'t, 'a>],
    signs: &'w str,
    kind: Kind,
    is_without_sign: bool,
    style: Style,
    number: u32,
    begun: Reached,
    stop: usize,
    from: usize,
}

/// How far one has come along the edited children of a node: how many of the page's children are passed, the first
/// edited child after the last one that stayed in its turn, and the numbers of its block and of the one in hand.
#[derive(Clone, Copy)]
struct Line {
    from: usize,
    came_from: usize,
    reached: Reached,
    first: Numbering,
    block: Numbering,
}

/// A gap, by how many of the page's children come before it, whether the last of them is text alone as it was edited,
/// by how many come before what comes after it, whether this begins as it did, whether it is an item that gets a line of
/// its own, and where the text of what goes went.
#[derive(Clone, Copy)]
struct Span {
    place: Slot,
    from: usize,
    is_behind_text: bool,
    to: usize,
    is_last: bool,
    begins_alike: bool,
    gets_line: bool,
    joined: Joined,
    first: Numbering,
}

impl Line {
    fn of(held: &Held<'_, '_, '_>, block: Numbering) -> Line {
        Line {
            from: 0,
            came_from: held.from,
            reached: held.begun,
            first: block.next(),
            block,
        }
    }

    /// With the number of the child in hand.
    fn at(&self, child: &Node<'_>) -> Line {
        let block = if is_compared(child.kind) {
            self.block.next()
        } else {
            self.block
        };
        Line {
            from: self.from,
            came_from: self.came_from,
            reached: self.reached,
            first: self.first,
            block,
        }
    }

    /// After the child with this index, which passes so many of the page's children.
    fn behind(&self, passed: usize, reached: Reached, at: usize) -> Line {
        let is_begun = passed > 0;
        Line {
            from: self.from.saturating_add(passed),
            came_from: if is_begun {
                at.saturating_add(1)
            } else {
                self.came_from
            },
            reached,
            first: if is_begun {
                self.block.next()
            } else {
                self.first
            },
            block: self.block,
        }
    }

    /// The edited child before those that come, one of these.
    fn before<'n, 'a>(&self, nodes: &'n [Node<'a>]) -> Option<&'n Node<'a>> {
        nodes.get(self.came_from.checked_sub(1)?)
    }

    /// Whether this child is text alone, which isn't read with a sign that comes after it.
    fn is_behind_text(&self, nodes: &[Node<'_>]) -> bool {
        match self.before(nodes) {
            Some(node) => !holds_more(node) && !ends_with_sign(node),
            None => false,
        }
    }

    /// The gap before a child that passes so many of the page's children, itself the last of them.
    fn span(&self, nodes: &[Node<'_>], place: Slot, passed: usize) -> Span {
        Span {
            place,
            from: self.from,
            is_behind_text: self.is_behind_text(nodes),
            to: self.from.saturating_add(passed).saturating_sub(1),
            is_last: false,
            begins_alike: true,
            gets_line: false,
            joined: Joined::Nowhere,
            first: self.first,
        }
    }

    /// The gap after the last child that stays in its turn.
    fn last_span(&self, nodes: &[Node<'_>], held: &Held<'_, '_, '_>) -> Span {
        Span {
            place: Slot {
                start: self.reached.end,
                end: held.stop,
            },
            from: self.from,
            is_behind_text: self.is_behind_text(nodes),
            to: held.children.len(),
            is_last: true,
            begins_alike: true,
            gets_line: false,
            joined: Joined::Nowhere,
            first: self.first,
        }
    }
}

/// The one block of the page among these; None where there are none or several.
fn only_block<'t, 'a>(children: &[Child<'t, 'a>]) -> Option<&'t Node<'a>> {
    let mut found = None;
    for child in children {
        if is_compared(child.node.kind) {
            if found.is_some() {
                return None;
            }
            found = Some(child.node);
        }
    }
    found
}

/// Whether what a block of the page ended with is at the end of an edited one now, whose inside was changed.
fn ends_with_end_of(new: &Node<'_>, gone: &Node<'_>) -> bool {
    match (inside(new).last(), inside(gone).last()) {
        (Some(last), Some(was)) if is_content(new.mark()) => {
            (was.id != 0 && was.id == last.id)
                || (!was.shown().is_empty() && last.shown().ends_with(was.shown()))
        }
        _ => false,
    }
}

/// The same of what it began with.
fn begins_with_start_of(new: &Node<'_>, gone: &Node<'_>) -> bool {
    match (inside(new).first(), inside(gone).first()) {
        (Some(first), Some(was)) if is_content(new.mark()) => {
            (was.id != 0 && was.id == first.id)
                || (!was.shown().is_empty() && first.shown().starts_with(was.shown()))
        }
        _ => false,
    }
}

/// Where the text of the one block that goes between two edited ones went.
fn joined_between(before: Option<&Node<'_>>, behind: &Node<'_>, gone: &[Child<'_, '_>]) -> Joined {
    let Some(gone) = only_block(gone) else {
        return Joined::Nowhere;
    };
    match before {
        Some(before) if ends_with_end_of(before, gone) => Joined::Before,
        _ if begins_with_start_of(behind, gone) => Joined::Behind,
        _ => Joined::Nowhere,
    }
}

/// Whether a node holds more than its inside.
fn holds_more(node: &Node<'_>) -> bool {
    inside(node).len() != node.children.as_slice().len()
}

/// Whether a heading cell ends with a text, its own or that of a group, that would be read with the signs of the next one.
fn ends_with_sign(cell: &Node<'_>) -> bool {
    if !matches!(cell.kind, Kind::Th) {
        return false;
    }
    match inside(cell).last() {
        Some(last) => last.shown().ends_with("!") || ends_with_given_sign(cell),
        None => false,
    }
}

fn node_at<'t, 'a>(children: &[Child<'t, 'a>], at: Option<usize>) -> Option<&'t Node<'a>> {
    let child = children.get(at?)?;
    Some(child.node)
}

/// A place, cut at the start of the node after it, past which it may reach.
fn up_to(place: Slot, behind: Option<&Node<'_>>) -> Slot {
    let end = match behind {
        Some(node) => start_of(node.ranges),
        None => place.end,
    };
    Slot {
        start: place.start,
        end,
    }
}

/// Whether a node of this kind holds items, rows, cells or other parts alone.
fn holds_parts(kind: Kind) -> bool {
    is_list(kind) || matches!(kind, Kind::Table | Kind::Tbody | Kind::Tr)
}

/// Appends what is written anew in a gap in which these children come.
fn push_span<'t, 'a>(
    alloc: Global,
    out: &mut Vec<Change>,
    known: &Known<'t, 'a>,
    plan: &Plan<'_>,
    held: &Held<'_, 't, 'a>,
    new: &[Node<'a>],
    span: &Span,
) -> Result<(), NoMemory> {
    let behind = if span.is_last { None } else { Some(span.to) };
    let behind = node_at(held.children, behind);
    let gap = Gap {
        place: up_to(span.place, behind),
        tags: Tags::none(),
        blanks: span.place.start,
        is_tight: !held.signs.is_empty() || holds_parts(held.kind),
        in_cell: is_cell(held.kind),
        in_row_without_sign: held.is_without_sign,
        style: held.style,
        before: node_at(held.children, span.from.checked_sub(1)),
        text_before: None,
        is_behind_text: span.is_behind_text,
        behind,
        begins_alike: span.begins_alike,
        gets_line: span.gets_line,
        joined: span.joined,
        gone: children_between(held.children, span.from, span.to),
        new,
        first: span.first,
    };
    push_gap(alloc, out, known, plan, held.signs, &gap)
}

/// The part of a list or a table that is beside one in its turn, which passes so many of the page's: the one before it,
/// or the one after it.
fn part_beside<'t, 'a>(
    held: &Held<'_, 't, 'a>,
    from: usize,
    passed: usize,
) -> Option<&'t Node<'a>> {
    let next = from.saturating_add(passed);
    let before = node_at(held.children, from.checked_sub(1));
    before
        .or(part_at(held.children, next))
        .or(part_at(held.children, next.saturating_add(1)))
}

/// The item, cell or other compared node at a place.
fn part_at<'t, 'a>(children: &[Child<'t, 'a>], at: usize) -> Option<&'t Node<'a>> {
    let node = node_at(children, Some(at))?;
    if is_compared(node.kind) {
        Some(node)
    } else {
        None
    }
}

/// Appends the blank after the sign of an empty part that is filled, unless those of its row, or the one beside it,
/// have text and none.
fn push_blank(
    alloc: Global,
    out: &mut Vec<Change>,
    known: &Known<'_, '_>,
    new: &Node<'_>,
    part: &Part<'_, '_>,
    is_tight: bool,
) -> Result<(), NoMemory> {
    let old = part.old;
    if !is_bare_sign(old)
        || is_tight
        || style_of(part.beside).is_tight
        || text_of_staying(known.page, known.index, new).is_empty()
        || same_inside(alloc, old, new)?
    {
        return Ok(());
    }
    let start = inside_start(old.ranges);
    let blank = Str::copy_of(alloc, " ")?;
    push_change(out, Slot { start, end: start }, blank)
}

/// Appends what is written anew of a node's children, of which the first ones are its inside.
#[cycle(proposing)]
fn push_children<'t, 'a>(
    alloc: Global,
    out: &mut Vec<Change>,
    known: &Known<'t, 'a>,
    plan: &Plan<'_>,
    nodes: &'t [Node<'a>],
    held: &Held<'_, 't, 'a>,
    block: Numbering,
) -> Result<(), NoMemory>
    requires { held.now.from ≤ length nodes.now }
{
    let turns = turns(alloc, known.index, held.number, &nodes[held.from..])?;
    let mut line = Line::of(held, block);
    for at in held.from..nodes.len() {
        let child = &nodes[at];
        line = line.at(child);
        let beside = Beside {
            is_in_turn: turns[at - held.from],
            rest: children_between(held.children, line.from, held.children.len()),
            reached: line.reached,
        };
        let turn = next_turn(known.index, beside, child);
        if let Some(place) = turn.gap {
            let new = nodes_between(nodes, line.came_from, at);
            let mut span = line.span(nodes, place, turn.passed);
            let gone = children_between(held.children, span.from, span.to);
            span.joined = joined_between(line.before(nodes), child, gone);
            if let Some(within) = turn.within {
                span.begins_alike = begins_alike(child, within);
                span.gets_line = gets_line(child, within);
            }
            push_span(alloc, out, known, plan, held, new, &span)?;
        }
        if let Some(within) = turn.within {
            let part = Part {
                old: within,
                beside: part_beside(held, line.from, turn.passed),
            };
            if plan.keeps(line.block.number) {
                push_blank(
                    alloc,
                    out,
                    known,
                    child,
                    &part,
                    held.style.is_tight && is_cell(within.kind),
                )?;
            }
            push_node(alloc, out, known, plan, child, &part, line.block.inside())?;
        }
        line = line.behind(turn.passed, turn.reached, at);
    }
    let new = nodes_between(nodes, line.came_from, nodes.len());
    push_span(
        alloc,
        out,
        known,
        plan,
        held,
        new,
        &line.last_span(nodes, held),
    )
}

/// How new parts are written in a node of the page: lists in an item as this one is, cells in a row as those of it.
fn style_in(part: &Part<'_, '_>) -> Style {
    match part.old.kind {
        Kind::Tr => style_within(part.old, part.beside),
        kind if is_item(kind) => style_of(Some(part.old)),
        _ => USUAL,
    }
}

/// Appends what is written anew of a node of the page that stays.
#[cycle(proposing)]
fn push_node<'t, 'a>(
    alloc: Global,
    out: &mut Vec<Change>,
    known: &Known<'t, 'a>,
    plan: &Plan<'_>,
    new: &'t Node<'a>,
    part: &Part<'t, 'a>,
    block: Numbering,
) -> Result<(), NoMemory> {
    let old = part.old;
    let keeps = plan.keeps(block.number);
    if gets_line(new, old) {
        push_own_line(alloc, out, known, keeps, new, old)?;
    } else {
        let style = InsideStyle {
            keeps,
            homeless: plan.homeless,
        };
        push_inside(alloc, out, known, style, new, old)?;
    }
    let children = held(alloc, old)?;
    let signs = signs_of(alloc, known, old)?;
    let begun = begun(old);
    let held = Held {
        children: children.as_slice(),
        signs: signs.as_str(),
        kind: old.kind,
        is_without_sign: is_row_without_sign(old),
        style: style_in(part),
        number: old.id,
        begun,
        stop: inside_stop(old.ranges),
        from: text_of_staying(known.page, known.index, new)
            .len()
            .min(inside_count(new)),
    };
    push_children(
        alloc,
        out,
        known,
        plan,
        new.children.as_slice(),
        &held,
        block,
    )
}

// ---- a proposal

/// What is written anew of a page.
fn changes_of<'t, 'a>(
    alloc: Global,
    page: &'t str,
    index: &'t [Visit<'t, 'a>],
    tree: &'t Node<'a>,
    edited: &'t Node<'a>,
    keeping: Keeping,
) -> Result<Vec<Change>, NoMemory> {
    let along = comments_along(alloc, page, index, edited)?;
    let is_whole = takes_from_elsewhere(index, edited);
    let left = marks_left(alloc, index, tree, edited, along.as_slice(), is_whole)?;
    let known = Known::of(alloc, page, index, tree, is_whole, left)?;
    let homeless = marks_without_place(alloc, index, edited, along.as_slice())?;
    let plan = Plan {
        keeping,
        along: along.as_slice(),
        homeless: homeless.as_slice(),
    };
    let body = Numbering {
        number: 0,
        grows: true,
    };
    let mut out = Vec::new(alloc);
    let whole = Part {
        old: tree,
        beside: None,
    };
    push_node(alloc, &mut out, &known, &plan, edited, &whole, body)?;
    Ok(out)
}

/// A new page for an edited one: the page written anew in the places in which the edited tree differs from
/// its tree, and nowhere else. Whether it reads as it was edited isn't said. None where no new page was found, or a comment
/// or an include tag after a heading's last sign would be lost.
/// `index` are the body and the nodes of the page with numbers (`numbered_nodes`).
pub fn proposal<'t, 'a>(
    alloc: Global,
    page: &'t str,
    index: &'t [Visit<'t, 'a>],
    tree: &'t Node<'a>,
    edited: &'t Node<'a>,
    keeping: Keeping,
) -> Result<Option<Str>, NoMemory>
    requires { indexed index.now ≡ page_of (view tree.now) }
    ensures { IfOk result (λ o. IfSome o (λ new. IsRewritten page.now (view tree.now) (view edited.now) new)) }
{
    if loses_marks(alloc, index, edited)? {
        return Ok(None);
    }
    let changes = changes_of(alloc, page, index, tree, edited, keeping)?;
    let places = places(alloc, index, tree, edited)?;
    tested(alloc, page, changes.as_slice(), places.as_slice())
}
