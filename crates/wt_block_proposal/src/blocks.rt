//! Blocks, items and rows as wikitext, where they are new, come from elsewhere or are of another kind now.

use std::alloc::Global;
use wt_block_signs::{
    Style, USUAL, begins_line, ends_with_given_sign, goes_on_behind, has_signed_text, is_cell,
    is_item, is_lined, is_list, is_paragraph_in_line, is_row_without_sign, push_begun,
    push_closing, push_heading_end, push_heading_start, push_opening, push_signs, shared_line,
    shares_line, sign_of, style_of,
};
use wt_checks::original;
use wt_content_proposal::{Edges, Writing, edges_of, spelled};
use wt_difference::{are_same, inside, is_block_part};
use wt_known::{Block, Known, block_of, text_of};
use wt_span::{NoMemory, Str};
use wt_tree::{Kind, Node, flat, same_attrs, same_kind};

/// What a block is written by beside what is known of the page: whether texts keep their bytes, the signs of the item
/// in which it is (of an item its own), the page's text at its end, where the block is the second half of one that was
/// there, how it is written where it is a new item, cell or row, and the blanks with which the lines of the table begin in
/// which it is a row or a cell. (What is known goes beside it: read from a structure behind a reference, it costs each
/// function seconds of proof.)
#[derive(Clone, Copy)]
pub struct Surroundings<'w, 't, 'a> {
    pub keeps: bool,
    pub signs: &'w str,
    pub tail: Option<&'t Node<'a>>,
    pub style: Style,
    pub blanks: &'w str,
}

impl<'w, 't, 'a> Surroundings<'w, 't, 'a> {
    /// The same for what is in the block.
    fn within(&self) -> Surroundings<'w, 't, 'a> {
        Surroundings {
            keeps: self.keeps,
            signs: self.signs,
            tail: None,
            style: USUAL,
            blanks: "",
        }
    }

    /// The same for what a block of this kind holds: the cells of a row are written as those beside them, and lists in
    /// an item as this one.
    fn within_kind(&self, kind: Kind) -> Surroundings<'w, 't, 'a> {
        match kind {
            Kind::Tr => self.in_table(),
            Kind::Li | Kind::Dt | Kind::Dd => self.styled(self.style),
            _ => self.within(),
        }
    }

    /// The same for what is in a part of a table, where lists begin anew.
    fn in_table(&self) -> Surroundings<'w, 't, 'a> {
        Surroundings {
            keeps: self.keeps,
            signs: "",
            tail: None,
            style: self.style,
            blanks: self.blanks,
        }
    }

    /// The same for an item that comes after one of this style.
    fn styled(&self, style: Style) -> Surroundings<'w, 't, 'a> {
        Surroundings {
            keeps: self.keeps,
            signs: self.signs,
            tail: None,
            style: if self.keeps { style } else { USUAL },
            blanks: self.blanks,
        }
    }

    /// The blanks with which the lines of what a node of this kind holds begin.
    fn blanks_in(&self, kind: Kind) -> &'w str {
        match kind {
            Kind::Table | Kind::Tr => self.blanks,
            _ => "",
        }
    }
}

// ---- blocks that stay

/// Whether a node is the page's with its number, as it was. Of a group nothing can have been changed.
fn is_as_it_was(alloc: Global, old: &Node<'_>, node: &Node<'_>) -> Result<bool, NoMemory> {
    if !same_kind(old.kind, node.kind) || !same_attrs(old.attrs(), node.attrs()) {
        return Ok(false);
    }
    if matches!(node.kind, Kind::Group) {
        return Ok(true);
    }
    are_same(alloc, old.children.as_slice(), node.children.as_slice())
}

/// The page's source of a node that is as it was.
fn source_standing(
    alloc: Global,
    known: &Known<'_, '_>,
    node: &Node<'_>,
) -> Result<Option<Str>, NoMemory> {
    if node.id == 0 {
        return Ok(None);
    }
    let Some(visit) = original(known.index, node.id) else {
        return Ok(None);
    };
    if !is_as_it_was(alloc, visit.node, node)? {
        return Ok(None);
    }
    let source = flat(alloc, visit.node)?;
    Ok(Some(source))
}

// ---- what a block holds

/// How the inside of a block of this kind is written.
fn writing_of(keeps: bool, kind: Kind) -> Writing {
    Writing {
        keeps,
        place: kind.edit_shape().place,
    }
}

/// The inside of a block that the page has.
fn kept_inside<'t, 'a>(
    alloc: Global,
    known: &Known<'t, 'a>,
    around: &Surroundings<'_, 't, 'a>,
    old: &'t Node<'a>,
    node: &Node<'_>,
) -> Result<Str, NoMemory> {
    let block = Some(block_of(alloc, old)?);
    let writing = writing_of(around.keeps, node.kind);
    let text = text_of(known.page, known.index, node);
    let edges = edges_of(inside(old));
    spelled(alloc, known, &block, writing, text, &edges)
}

/// The inside of a new block.
fn new_inside<'t, 'a>(
    alloc: Global,
    known: &Known<'t, 'a>,
    around: &Surroundings<'_, 't, 'a>,
    node: &Node<'_>,
) -> Result<Str, NoMemory> {
    let writing = writing_of(around.keeps, node.kind);
    let edges = Edges {
        first: None,
        last: around.tail,
    };
    let text = text_of(known.page, known.index, node);
    spelled(alloc, known, &None, writing, text, &edges)
}

/// The inside of a block.
fn inside_of<'t, 'a>(
    alloc: Global,
    known: &Known<'t, 'a>,
    around: &Surroundings<'_, 't, 'a>,
    node: &Node<'_>,
) -> Result<Str, NoMemory> {
    match original(known.index, node.id) {
        Some(visit) if node.id != 0 => kept_inside(alloc, known, around, visit.node, node),
        _ => new_inside(alloc, known, around, node),
    }
}

/// Appends the inside of a block.
fn push_inside<'t, 'a>(
    alloc: Global,
    out: &mut Str,
    known: &Known<'t, 'a>,
    around: &Surroundings<'_, 't, 'a>,
    node: &Node<'_>,
) -> Result<(), NoMemory> {
    let source = inside_of(alloc, known, around, node)?;
    out.push_str(source.as_str())
}

/// Whether a child is a comment or an include tag of the page that goes with what holds it.
fn is_coming_mark(known: &Known<'_, '_>, child: &Node<'_>) -> bool {
    child.kind.is_mark() && child.id != 0 && !known.is_left(child.id)
}

/// Appends a comment or an include tag as it was in the page, with the line break after it where it has one.
fn push_mark(
    alloc: Global,
    out: &mut Str,
    known: &Known<'_, '_>,
    mark: &Node<'_>,
) -> Result<(), NoMemory> {
    let Some(visit) = original(known.index, mark.id) else {
        return Ok(());
    };
    let source = flat(alloc, visit.node)?;
    out.push_str(source.as_str())
}

/// Appends the line breaks before a block that a node holds: two in a cell between what one would join.
fn push_break(
    out: &mut Str,
    node: Kind,
    before: Option<&Node<'_>>,
    child: Kind,
) -> Result<(), NoMemory> {
    out.push_str("\n")?;
    match before {
        Some(before) if is_cell(node) && are_joined(before.kind, child) => out.push_str("\n"),
        _ => Ok(()),
    }
}

/// Whether one line break between two blocks would make them one.
fn are_joined(left: Kind, right: Kind) -> bool {
    let are_lists = is_list(left) && is_list(right);
    are_lists || !(is_lined(left) || is_lined(right))
}

/// Whether a new cell goes on in the line of the one before it, as those of the row beside do, in what is written so
/// far: that one holds no blocks, and its text ends with the blank before the signs where there is to be one.
fn goes_on(
    out: &Str,
    around: &Surroundings<'_, '_, '_>,
    before: Option<&Node<'_>>,
    cell: &Node<'_>,
) -> bool {
    let Some(before) = before else {
        return false;
    };
    around.style.is_one_line
        && cell.id == 0
        && is_cell(cell.kind)
        && same_kind(before.kind, cell.kind)
        && !have_block_part(before.children.as_slice())
        && !ends_with_sign(out, before)
        && (around.style.is_tight || ends_with_blank(out, before))
}

/// The first of the two signs of a cell that goes on in a line.
fn first_sign(cell: &Node<'_>) -> &'static str {
    if matches!(cell.kind, Kind::Th) {
        "!"
    } else {
        "|"
    }
}

/// Whether a cell has text that ends with the sign of a heading cell, in what is written so far or in what a template
/// gives: it would be read with the signs of the next one.
fn ends_with_sign(out: &Str, cell: &Node<'_>) -> bool {
    let is_heading_text = matches!(cell.kind, Kind::Th) && !inside(cell).is_empty();
    is_heading_text && (out.as_str().ends_with("!") || ends_with_given_sign(cell))
}

/// Appends the first sign of a cell that goes on in the line of the one before it, as both did with another kind; it
/// says whether it does.
pub fn push_if_in_line<'t, 'a>(
    alloc: Global,
    out: &mut Str,
    known: &Known<'t, 'a>,
    around: &Surroundings<'_, 't, 'a>,
    before: Option<&Node<'_>>,
    cell: &Node<'_>,
) -> Result<bool, NoMemory> {
    let Some(before) = before else {
        return Ok(false);
    };
    let is_in_line = around.keeps
        && shared_line(alloc, known, before, cell)?
        && !have_block_part(before.children.as_slice())
        && !ends_with_sign(out, before);
    if is_in_line {
        out.push_str(first_sign(cell))?;
    }
    Ok(is_in_line)
}

/// Whether a cell has text that ends with a blank, in what is written so far.
fn ends_with_blank(out: &Str, cell: &Node<'_>) -> bool {
    !inside(cell).is_empty() && out.as_str().ends_with(" ")
}

/// Appends what comes before a cell in the line of the one before it: the first of its two signs where it is new or both
/// had another kind, else nothing. It says whether the child goes on so.
fn push_in_line<'t, 'a>(
    alloc: Global,
    out: &mut Str,
    known: &Known<'t, 'a>,
    around: &Surroundings<'_, 't, 'a>,
    before: Option<&Node<'_>>,
    child: &Node<'_>,
) -> Result<bool, NoMemory> {
    if goes_on(out, around, before, child) {
        out.push_str(first_sign(child))?;
        return Ok(true);
    }
    if push_if_in_line(alloc, out, known, around, before, child)? {
        return Ok(true);
    }
    shares_line(alloc, known, before, child)
}

/// Appends all that a node holds after its inside, each on a line of its own but a cell that shared one, and the first
/// where it goes on in the line. After a comment or an include tag the line is the one that it leaves.
#[cycle(blocks)]
fn push_held<'t, 'a>(
    alloc: Global,
    out: &mut Str,
    known: &Known<'t, 'a>,
    around: &Surroundings<'_, 't, 'a>,
    node: &Node<'_>,
    goes_on: bool,
) -> Result<(), NoMemory> {
    let mut before = None;
    let mut is_begun = goes_on;
    let text = text_of(known.page, known.index, node).len();
    let mut at: usize = 0;
    for child in node.children.as_slice() {
        if is_written(child) {
            if !is_begun && !push_in_line(alloc, out, known, around, before, child)? {
                push_break(out, node.kind, before, child.kind)?;
                out.push_str(around.blanks_in(node.kind))?;
            }
            push_block(alloc, out, known, &around.within_kind(node.kind), child)?;
            before = Some(child);
            is_begun = false;
        } else if text <= at && is_coming_mark(known, child) {
            if !is_begun {
                push_break(out, node.kind, before, Kind::Para)?;
            }
            push_mark(alloc, out, known, child)?;
            is_begun = true;
        }
        at = at.saturating_add(1);
    }
    Ok(())
}

/// Whether a child is written as a block: it is one or a part of one, or a group that shows one.
fn is_written(child: &Node<'_>) -> bool {
    is_block_part(child.kind)
        || (matches!(child.kind, Kind::Group) && have_block_part(child.children.as_slice()))
}

fn have_block_part(nodes: &[Node<'_>]) -> bool {
    for node in nodes {
        if is_block_part(node.kind) {
            return true;
        }
    }
    false
}

/// Whether a source begins with these signs, and no other after them.
fn begins_with(source: &[u8], signs: &[u8]) -> bool {
    if !source.starts_with(signs) {
        return false;
    }
    match source.get(signs.len()) {
        None => true,
        Some(byte) => *byte != b'*' && *byte != b'#' && *byte != b':' && *byte != b';',
    }
}

// ---- blocks

/// The blank at each side of the text of a new heading: none in a page whose headings have none, unless the text would
/// join the signs.
fn blank_in_heading<'t, 'a>(
    known: &Known<'t, 'a>,
    around: &Surroundings<'_, 't, 'a>,
    inside: &str,
) -> &'static str {
    let joins = inside.is_empty() || inside.starts_with("=") || inside.ends_with("=");
    if around.keeps && known.has_tight_headings && !joins {
        ""
    } else {
        " "
    }
}

fn push_heading<'t, 'a>(
    alloc: Global,
    out: &mut Str,
    known: &Known<'t, 'a>,
    around: &Surroundings<'_, 't, 'a>,
    level: u8,
    node: &Node<'_>,
) -> Result<(), NoMemory> {
    let inside = inside_of(alloc, known, around, node)?;
    let blank = blank_in_heading(known, around, inside.as_str());
    push_heading_start(alloc, out, known, node.id, level, blank)?;
    out.push_str(inside.as_str())?;
    push_heading_end(alloc, out, known, node.id, level, blank)
}

/// Appends an item with its signs: as it was in the page, where it was there with these.
#[cycle(blocks)]
fn push_item<'t, 'a>(
    alloc: Global,
    out: &mut Str,
    known: &Known<'t, 'a>,
    around: &Surroundings<'_, 't, 'a>,
    node: &Node<'_>,
) -> Result<(), NoMemory> {
    if let Some(source) = source_standing(alloc, known, node)? {
        let source = source.as_str();
        if begins_with(source.as_bytes(), around.signs.as_bytes()) {
            return out.push_str(source);
        }
    }
    let inside = inside_of(alloc, known, around, node)?;
    let blank = around.style.blank_before(inside.as_str());
    push_signs(alloc, out, known, node, around.signs, blank)?;
    out.push_str(inside.as_str())?;
    push_held(alloc, out, known, around, node, false)
}

/// Where an item begins: with its list, on a line of its own, or in the line of the item before it, as a definition may.
#[derive(Clone, Copy)]
enum Beginning {
    OfList,
    OfLine,
    InLine,
}

/// Appends an item that goes on in a line, with the signs that it had there.
#[cycle(blocks)]
fn push_item_in_line<'t, 'a>(
    alloc: Global,
    out: &mut Str,
    known: &Known<'t, 'a>,
    around: &Surroundings<'_, 't, 'a>,
    item: &Node<'_>,
) -> Result<(), NoMemory> {
    push_opening(alloc, out, known, item, ":")?;
    push_inside(alloc, out, known, around, item)?;
    push_held(alloc, out, known, around, item, false)
}

/// The list of an item, and where the item begins.
#[derive(Clone, Copy)]
struct ItemPlace {
    list: Kind,
    beginning: Beginning,
}

/// Appends an item of a list that is in an item with these signs.
#[cycle(blocks)]
fn push_item_of<'t, 'a>(
    alloc: Global,
    out: &mut Str,
    known: &Known<'t, 'a>,
    around: &Surroundings<'_, 't, 'a>,
    place: ItemPlace,
    item: &Node<'_>,
) -> Result<(), NoMemory> {
    if matches!(item.kind, Kind::Group) {
        return push_block(alloc, out, known, around, item);
    }
    let mut signs = Str::copy_of(alloc, around.signs)?;
    signs.push_str(sign_of(place.list, item.kind))?;
    let own = Surroundings {
        keeps: around.keeps,
        signs: signs.as_str(),
        tail: None,
        style: around.style,
        blanks: "",
    };
    match place.beginning {
        Beginning::OfList => push_first_item(alloc, out, known, &own, item),
        Beginning::OfLine => push_item(alloc, out, known, &own, item),
        Beginning::InLine => push_item_in_line(alloc, out, known, &own, item),
    }
}

/// Whether an item is new, or had no line of its own in the page.
fn has_no_line(known: &Known<'_, '_>, item: &Node<'_>) -> bool {
    match original(known.index, item.id) {
        Some(visit) if item.id != 0 => visit.node.opening().is_empty(),
        _ => true,
    }
}

/// Whether an item that has no line of its own holds lists alone: its line may be that of their first item, too.
fn holds_lists_alone<'t, 'a>(
    known: &Known<'t, 'a>,
    around: &Surroundings<'_, 't, 'a>,
    item: &Node<'_>,
) -> bool {
    match item.children.as_slice().first() {
        Some(first) => around.keeps && is_list(first.kind) && has_no_line(known, item),
        None => false,
    }
}

/// Appends the first item of a list: where it has no line of its own and holds lists alone, they begin on its line.
#[cycle(blocks)]
fn push_first_item<'t, 'a>(
    alloc: Global,
    out: &mut Str,
    known: &Known<'t, 'a>,
    around: &Surroundings<'_, 't, 'a>,
    item: &Node<'_>,
) -> Result<(), NoMemory> {
    if holds_lists_alone(known, around, item) {
        push_held(alloc, out, known, around, item, true)
    } else {
        push_item(alloc, out, known, around, item)
    }
}

/// Where an item begins after this one of its list.
fn beginning_of(known: &Known<'_, '_>, before: Option<&Node<'_>>, item: &Node<'_>) -> Beginning {
    match before {
        None => Beginning::OfList,
        Some(before) if goes_on_behind(known, before, item) => Beginning::InLine,
        Some(_) => Beginning::OfLine,
    }
}

/// Appends the line break before an item or a row, unless its line is begun.
fn push_line(out: &mut Str, is_begun: bool) -> Result<(), NoMemory> {
    if is_begun {
        return Ok(());
    }
    out.push_str("\n")
}

/// How an item or a cell is written: as it was where the page has it with text after its sign, also with another kind;
/// else as the one beside it.
fn own_style<'t, 'a>(
    known: &Known<'t, 'a>,
    around: &Surroundings<'_, 't, 'a>,
    part: &Node<'_>,
) -> Style {
    match original(known.index, part.id) {
        Some(visit) if part.id != 0 && around.keeps && has_signed_text(visit.node) => {
            style_of(Some(visit.node))
        }
        _ => around.style,
    }
}

/// How the first item of a list is written: in an item as this one is.
fn style_of_first(around: &Surroundings<'_, '_, '_>) -> Style {
    if around.signs.is_empty() {
        USUAL
    } else {
        around.style
    }
}

/// Appends the items of a list, each on a line of its own; after a comment or an include tag on the one that it leaves, and
/// after a call that shows nothing in the line of this one.
#[cycle(blocks)]
fn push_items<'t, 'a>(
    alloc: Global,
    out: &mut Str,
    known: &Known<'t, 'a>,
    around: &Surroundings<'_, 't, 'a>,
    list: &Node<'_>,
) -> Result<(), NoMemory> {
    let mut before = None;
    let mut is_begun = true;
    let mut style = style_of_first(around);
    for item in list.children.as_slice() {
        if is_written(item) {
            let beginning = beginning_of(known, before, item);
            if !matches!(beginning, Beginning::InLine) {
                push_line(out, is_begun)?;
            }
            style = own_style(known, &around.styled(style), item);
            let place = ItemPlace {
                list: list.kind,
                beginning,
            };
            push_item_of(alloc, out, known, &around.styled(style), place, item)?;
            before = Some(item);
            is_begun = false;
        } else if is_coming_mark(known, item) {
            push_line(out, is_begun)?;
            push_mark(alloc, out, known, item)?;
            is_begun = true;
        } else if matches!(item.kind, Kind::Group) {
            push_line(out, is_begun)?;
            push_block(alloc, out, known, &around.in_table(), item)?;
            is_begun = true;
        }
    }
    Ok(())
}

/// Whether a row that holds cells has no sign of its own in the page, as the first one of a table may.
fn stands_without_sign(known: &Known<'_, '_>, row: &Node<'_>) -> bool {
    match original(known.index, row.id) {
        Some(visit) => {
            row.id != 0
                && matches!(row.kind, Kind::Tr)
                && matches!(visit.node.kind, Kind::Tr)
                && is_row_without_sign(visit.node)
                && have_block_part(row.children.as_slice())
        }
        None => false,
    }
}

/// Appends the rows of a table, each on a line of its own; after a comment or an include tag on the one that it leaves.
/// The first one has no sign where it had none.
#[cycle(blocks)]
fn push_rows<'t, 'a>(
    alloc: Global,
    out: &mut Str,
    known: &Known<'t, 'a>,
    around: &Surroundings<'_, 't, 'a>,
    node: &Node<'_>,
) -> Result<(), NoMemory> {
    let mut is_begun = true;
    let mut is_first = around.keeps;
    for child in node.children.as_slice() {
        if is_written(child) {
            push_line(out, is_begun)?;
            if is_first && stands_without_sign(known, child) {
                push_held(alloc, out, known, &around.in_table(), child, true)?;
            } else {
                push_block(alloc, out, known, &around.in_table(), child)?;
            }
            is_begun = false;
            is_first = false;
        } else if is_coming_mark(known, child) {
            push_line(out, is_begun)?;
            push_mark(alloc, out, known, child)?;
            is_begun = true;
        }
    }
    Ok(())
}

/// The blank after the sign of a new cell: none where a block is all that is in it.
fn blank_in(style: Style, node: &Node<'_>, inside: &str) -> &'static str {
    if inside.is_empty() && !node.children.as_slice().is_empty() {
        ""
    } else {
        style.blank_before(inside)
    }
}

#[cycle(blocks)]
fn push_cell<'t, 'a>(
    alloc: Global,
    out: &mut Str,
    known: &Known<'t, 'a>,
    around: &Surroundings<'_, 't, 'a>,
    sign: &str,
    node: &Node<'_>,
) -> Result<(), NoMemory> {
    let inside = inside_of(alloc, known, &around.in_table(), node)?;
    let mut opening = Str::copy_of(alloc, sign)?;
    opening.push_str(blank_in(own_style(known, around, node), node, inside.as_str()))?;
    push_opening(alloc, out, known, node, opening.as_str())?;
    out.push_str(inside.as_str())?;
    push_held(alloc, out, known, &around.in_table(), node, false)
}

/// Appends a table, or a row, with a line for each of its parts.
#[cycle(blocks)]
fn push_lines<'t, 'a>(
    alloc: Global,
    out: &mut Str,
    known: &Known<'t, 'a>,
    around: &Surroundings<'_, 't, 'a>,
    sign: &str,
    node: &Node<'_>,
) -> Result<(), NoMemory> {
    push_opening(alloc, out, known, node, sign)?;
    push_held(alloc, out, known, &around.in_table(), node, false)
}

/// Whether a node is a group of the page that begins with a row without a sign.
fn is_group_without_sign(known: &Known<'_, '_>, node: &Node<'_>) -> bool {
    match original(known.index, node.id) {
        Some(visit) => matches!(node.kind, Kind::Group) && is_row_without_sign(visit.node),
        None => false,
    }
}

/// Whether a node is a paragraph that went on in a line of the page, and would be another block at a line's start.
fn was_in_line(known: &Known<'_, '_>, node: &Node<'_>) -> bool {
    match original(known.index, node.id) {
        Some(visit) => is_paragraph_in_line(known.page, visit.node),
        None => false,
    }
}

/// Appends a block as it was in the page, where it was there as it is; it says whether it does. An item
/// is so only with its signs, a row with its sign, which a group gets that begins with a row without one.
fn push_if_standing<'t, 'a>(
    alloc: Global,
    out: &mut Str,
    known: &Known<'t, 'a>,
    around: &Surroundings<'_, 't, 'a>,
    node: &Node<'_>,
) -> Result<bool, NoMemory> {
    let is_of_list = is_list(node.kind) || is_item(node.kind);
    if is_of_list && !around.signs.is_empty() {
        return Ok(false);
    }
    let Some(source) = source_standing(alloc, known, node)? else {
        return Ok(false);
    };
    if matches!(node.kind, Kind::Tr) && !source.as_str().starts_with("|-") {
        return Ok(false);
    }
    if is_group_without_sign(known, node) {
        out.push_str("|-\n")?;
    }
    if begins_line(out) && was_in_line(known, node) {
        out.push_str("<nowiki/>")?;
    }
    push_begun(out, node.kind, source.as_str())?;
    Ok(true)
}

/// Appends a block without a line break at its end.
#[cycle(blocks)]
pub fn push_block<'t, 'a>(
    alloc: Global,
    out: &mut Str,
    known: &Known<'t, 'a>,
    around: &Surroundings<'_, 't, 'a>,
    node: &Node<'_>,
) -> Result<(), NoMemory> {
    if push_if_standing(alloc, out, known, around, node)? {
        return Ok(());
    }
    match node.kind {
        Kind::Para => push_inside(alloc, out, known, around, node),
        Kind::Heading(level) => push_heading(alloc, out, known, around, level, node),
        Kind::Rule => out.push_str("----"),
        Kind::Ul | Kind::Ol | Kind::Dl => push_items(alloc, out, known, around, node),
        Kind::Li | Kind::Dt | Kind::Dd => push_item(alloc, out, known, around, node),
        Kind::Table => {
            push_lines(alloc, out, known, around, "{|", node)?;
            push_line(out, begins_line(out))?;
            push_closing(alloc, out, known, node, "|}")
        }
        Kind::Tbody => push_rows(alloc, out, known, around, node),
        Kind::Tr => push_lines(alloc, out, known, around, "|-", node),
        Kind::Td => push_cell(alloc, out, known, around, "|", node),
        Kind::Th => push_cell(alloc, out, known, around, "!", node),
        Kind::Caption => push_cell(alloc, out, known, around, "|+", node),
        _ => Ok(()),
    }
}
