//! What is known of the page: its nodes by their numbers, the texts next to each, and its source.

use crate::closeness::{Closeness, closeness_of};
use std::alloc::Global;
use wt_checks::{Visit, original};
use wt_difference::is_block_part;
use wt_guards::{Role, Stretch};
use wt_original::{Kept, Page, page_of_block};
use wt_span::{NoMemory, Text};
use wt_tree::{Kind, Node};

// ---- texts beside nodes

/// The texts directly before and after a node of the page, and whether nothing comes after it in what holds it.
#[derive(Clone, Copy)]
pub struct Sides<'t, 'a> {
    pub before: Option<&'t Node<'a>>,
    pub behind: Option<&'t Node<'a>>,
    pub is_last: bool,
}

/// A node, where it is a text.
pub fn as_text<'t, 'a>(node: &'t Node<'a>) -> Option<&'t Node<'a>> {
    match node.kind {
        Kind::Text => Some(node),
        _ => None,
    }
}

/// The text with which nodes begin.
pub fn first_text<'t, 'a>(nodes: &'t [Node<'a>]) -> Option<&'t Node<'a>> {
    match nodes.first() {
        Some(node) => as_text(node),
        None => None,
    }
}

/// The text with which nodes end.
pub fn last_text<'t, 'a>(nodes: &'t [Node<'a>]) -> Option<&'t Node<'a>> {
    match nodes.last() {
        Some(node) => as_text(node),
        None => None,
    }
}

fn text_at<'t, 'a>(nodes: &'t [Node<'a>], at: usize) -> Option<&'t Node<'a>> {
    match nodes.get(at) {
        Some(node) => as_text(node),
        None => None,
    }
}

/// Appends the sides of all nodes with a number that these are and hold, in preorder.
fn push_sides<'t, 'a>(out: &mut Vec<Sides<'t, 'a>>, nodes: &'t [Node<'a>]) -> Result<(), NoMemory> {
    let mut before = None;
    for at in 0..nodes.len() {
        if nodes[at].id != 0 {
            let behind = text_at(nodes, at + 1);
            let is_last = at + 1 == nodes.len();
            out.push(Sides {
                before,
                behind,
                is_last,
            })?;
        }
        push_sides(out, nodes[at].children.as_slice())?;
        before = text_at(nodes, at);
    }
    Ok(())
}

// ---- a block

/// A block of the page, or its body: its nodes with their texts beside them, in preorder, the number of the
/// first, which is its own, where it and its inside start in the page, in bytes, and the last byte of its opening
/// delimiter (`last_byte`).
#[derive(Drop)]
pub struct Block<'t, 'a> {
    pub page: Page<'t, 'a>,
    pub sides: Vec<Sides<'t, 'a>>,
    pub first: u32,
    pub start: usize,
    pub inside: usize,
    pub before: u8,
}

fn length_of(texts: &[Text<'_>]) -> usize {
    let mut length: usize = 0;
    for text in texts {
        length = length.saturating_add(text.as_str().len());
    }
    length
}

/// The last byte of a delimiter; a space where there is none, and of a bar that isn't the one at its line's start (that
/// of `||`, and the one after attributes), after which any text may be.
fn last_byte(texts: &[Text<'_>]) -> u8 {
    let mut has_bar = false;
    let mut last = b' ';
    for text in texts {
        for byte in text.as_str().as_bytes() {
            has_bar = has_bar || last == b'|';
            last = *byte;
        }
    }
    if has_bar && last == b'|' { b' ' } else { last }
}

/// The sides of a node, which aren't asked for, and of all that it holds.
fn sides_in<'t, 'a>(alloc: Global, node: &'t Node<'a>) -> Result<Vec<Sides<'t, 'a>>, NoMemory> {
    let own: Sides<'t, 'a> = Sides {
        before: None,
        behind: None,
        is_last: false,
    };
    let mut sides = Vec::new(alloc);
    sides.push(own)?;
    push_sides(&mut sides, node.children.as_slice())?;
    Ok(sides)
}

/// The block as it is in the page.
pub fn block_of<'t, 'a>(alloc: Global, node: &'t Node<'a>) -> Result<Block<'t, 'a>, NoMemory> {
    let page = page_of_block(alloc, node)?;
    let sides = sides_in(alloc, node)?;
    let start = match node.ranges {
        Some(ranges) => ranges.start as usize,
        None => 0,
    };
    Ok(Block {
        page,
        sides,
        first: node.id,
        start,
        inside: start.saturating_add(length_of(node.opening())),
        before: last_byte(node.opening()),
    })
}

impl<'t, 'a> Block<'t, 'a> {
    /// The same where a blank is written before its inside.
    pub fn behind_blank(self) -> Block<'t, 'a> {
        let Block {
            page,
            sides,
            first,
            start,
            inside,
            before: _,
        } = self;
        Block {
            page,
            sides,
            first,
            start,
            inside,
            before: b' ',
        }
    }

    /// The block's node of this number, with its place in the page.
    fn find(&self, number: u32) -> Option<Kept<'t, 'a>> {
        let kept = self.page.find(number)?;
        Some(Kept {
            node: kept.node,
            role: kept.role,
            place: Stretch {
                start: kept.place.start.saturating_add(self.start),
                end: kept.place.end.saturating_add(self.start),
            },
        })
    }

    /// The same where the block is the whole page: the node comes from a block of its own.
    fn find_anywhere(&self, number: u32) -> Option<Kept<'t, 'a>> {
        let kept = self.find(number)?;
        match self.sides_of(number) {
            Some(sides) if sides.is_last => Some(Kept {
                node: kept.node,
                role: at_end(kept.role),
                place: kept.place,
            }),
            _ => Some(kept),
        }
    }

    /// The texts beside the block's node of this number.
    fn sides_of(&self, number: u32) -> Option<Sides<'t, 'a>> {
        let place = number.checked_sub(self.first)?;
        self.sides.get(place as usize).copied()
    }
}

/// A node that ended what held it may end a block again.
fn at_end(role: Role) -> Role {
    match role {
        Role::Group(mut group) => {
            group.ended_content = true;
            Role::Group(group)
        }
        other => other,
    }
}

// ---- the page

/// The page: its source, and its nodes by their numbers. Only where nodes of the edited page come from other
/// blocks, all of it as one block, and by their numbers which comments and include tags are left where the page has
/// them; whether it has a table; whether it has headings, none of them with a blank before its text; and how close its
/// blocks are.
#[derive(Drop)]
pub struct Known<'t, 'a> {
    pub page: &'t str,
    pub index: &'t [Visit<'t, 'a>],
    pub whole: Option<Block<'t, 'a>>,
    pub left: Vec<bool>,
    pub has_tables: bool,
    pub has_tight_headings: bool,
    pub closeness: Closeness,
}

fn has_tables(index: &[Visit<'_, '_>]) -> bool {
    for visit in index {
        if matches!(visit.node.kind, Kind::Table) {
            return true;
        }
    }
    false
}

fn ends_with_blank(texts: &[Text<'_>]) -> bool {
    matches!(last_byte(texts), b' ' | b'\t')
}

/// Whether the page has headings, and none of them has a blank before its text.
fn has_tight_headings(index: &[Visit<'_, '_>]) -> bool {
    let mut is_found = false;
    for visit in index {
        if matches!(visit.node.kind, Kind::Heading(_)) {
            if ends_with_blank(visit.node.opening()) {
                return false;
            }
            is_found = true;
        }
    }
    is_found
}

/// Whether the page's node of this number is a child of the node `holder`.
fn is_child_of(index: &[Visit<'_, '_>], holder: Option<u32>, number: u32) -> bool {
    match original(index, number) {
        Some(visit) => holder == Some(visit.parent),
        None => false,
    }
}

/// The number of what holds the children of a node; None of a new block.
fn holder_in(holder: Option<u32>, node: &Node<'_>) -> Option<u32> {
    if node.id != 0 {
        Some(node.id)
    } else if is_block_part(node.kind) {
        None
    } else {
        holder
    }
}

/// Whether an inline node among these, or in one of them, isn't where the page has it.
fn have_come(index: &[Visit<'_, '_>], holder: Option<u32>, nodes: &[Node<'_>]) -> bool {
    for node in nodes {
        let is_kept_inline = node.id != 0 && !is_block_part(node.kind);
        if is_kept_inline && !is_child_of(index, holder, node.id) {
            return true;
        }
        if have_come(index, holder_in(holder, node), node.children.as_slice()) {
            return true;
        }
    }
    false
}

/// Whether an inline node of the edited page isn't where the page has it.
pub fn takes_from_elsewhere(index: &[Visit<'_, '_>], edited: &Node<'_>) -> bool {
    have_come(index, Some(0), edited.children.as_slice())
}

fn whole_if<'t, 'a>(
    alloc: Global,
    body: &'t Node<'a>,
    is_needed: bool,
) -> Result<Option<Block<'t, 'a>>, NoMemory> {
    if !is_needed {
        return Ok(None);
    }
    let whole = block_of(alloc, body)?;
    Ok(Some(whole))
}

impl<'t, 'a> Known<'t, 'a> {
    /// What is known of the page of this body, where nodes come from other blocks (`is_whole`) or don't, and these
    /// comments and include tags are left where they are.
    pub fn of(
        alloc: Global,
        page: &'t str,
        index: &'t [Visit<'t, 'a>],
        body: &'t Node<'a>,
        is_whole: bool,
        left: Vec<bool>,
    ) -> Result<Known<'t, 'a>, NoMemory> {
        let whole = whole_if(alloc, body, is_whole)?;
        Ok(Known {
            page,
            index,
            whole,
            left,
            has_tables: has_tables(index),
            has_tight_headings: has_tight_headings(index),
            closeness: closeness_of(page, index),
        })
    }

    /// The texts beside the page's node of this number.
    fn sides_of(&self, block: &Option<Block<'t, 'a>>, number: u32) -> Option<Sides<'t, 'a>> {
        if number == 0 {
            return None;
        }
        if let Some(block) = block
            && let Some(sides) = block.sides_of(number)
        {
            return Some(sides);
        }
        match &self.whole {
            Some(whole) => whole.sides_of(number),
            None => None,
        }
    }

    /// The text after the page's node of this number.
    pub fn behind(&self, block: &Option<Block<'t, 'a>>, number: u32) -> Option<&'t Node<'a>> {
        match self.sides_of(block, number) {
            Some(sides) => sides.behind,
            None => None,
        }
    }

    /// The text before it.
    pub fn before(&self, block: &Option<Block<'t, 'a>>, number: u32) -> Option<&'t Node<'a>> {
        match self.sides_of(block, number) {
            Some(sides) => sides.before,
            None => None,
        }
    }

    /// The page's node of this number, with its place in the page: as its neighbours in the block see it, where
    /// it is there.
    pub fn find(&self, block: &Option<Block<'t, 'a>>, number: u32) -> Option<Kept<'t, 'a>> {
        if let Some(block) = block
            && let Some(kept) = block.find(number)
        {
            return Some(kept);
        }
        match &self.whole {
            Some(whole) => whole.find_anywhere(number),
            None => None,
        }
    }

    /// Whether the page's comment or include tag with this number is left where the page has it. It isn't written twice.
    pub fn is_left(&self, number: u32) -> bool {
        self.left.get(number as usize).copied().unwrap_or(false)
    }

    /// What is known of the groups of the page: of all, or of those in the block.
    pub fn groups<'k>(&'k self, block: &'k Option<Block<'t, 'a>>) -> Option<&'k Page<'t, 'a>> {
        match &self.whole {
            Some(whole) => Some(&whole.page),
            None => match block {
                Some(block) => Some(&block.page),
                None => None,
            },
        }
    }
}
