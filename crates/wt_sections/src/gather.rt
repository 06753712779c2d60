//! A body's children, gathered into sections from the last one on.

ghost use Rattle.std.specs.Prelude.{◌≡◌, ◌<◌, ◌^◌, ◌∷◌, [], IfOk, OnOk};
ghost use Rattle.wt_recut.specs.Recutting.{appended};
ghost use Rattle.wt_tree.specs.View.{view, views};
ghost use Rattle.wt_sections.specs.Gathering.{heading_count, headings_in, parts_view, section_if_any};
ghost use Rattle.wt_sections.specs.Sections.{before, ends, from, gathered, level_of, opens, part_trees, parts, put, with_lead, with_sections};

use crate::section::section_of;
use std::alloc::Global;
use wt_span::{List, NoMemory};
use wt_tree::Node;

/// A child of the body by itself, or a section with the level of the heading that opens it.
#[derive(Drop)]
pub struct Part<'a> {
    pub level: Option<u8>,
    pub node: Node<'a>,
}

/// Whether a part is a section of this level or a smaller one; any section, where no level is said.
fn ends(limit: Option<u8>, level: Option<u8>) -> bool
    ensures { result ≡ ends limit level }
{
    match (limit, level) {
        (_, None) => false,
        (None, Some(_)) => true,
        (Some(limit), Some(level)) => level <= limit,
    }
}

/// Takes the parts, of which the last is first, up to the first section of this level or a smaller one.
fn take_before<'a>(
    parts: &mut Vec<Part<'a>>,
    nodes: &mut Vec<Node<'a>>,
    limit: Option<u8>,
) -> Result<(), NoMemory>
    ensures taken { OnOk result (views nodes.new.items ≡ appended (views nodes.old.items) (before limit (parts_view parts.old.items))) }
    ensures left { OnOk result (parts_view parts.new.items ≡ from limit (parts_view parts.old.items)) }
{
    while let Some(part) = parts.pop() {
        if ends(limit, part.level) {
            parts.push(part)?;
            return Ok(());
        }
        nodes.push(part.node)?;
    }
    Ok(())
}

fn push_part<'a>(
    parts: &mut Vec<Part<'a>>,
    level: Option<u8>,
    node: Node<'a>,
) -> Result<(), NoMemory>
    ensures { OnOk result (parts_view parts.new.items ≡ record { level = level; tree = view node.entry } ∷ parts_view parts.old.items) }
{
    parts.push(Part { level, node })?;
    Ok(())
}

/// Puts the section of this number, which begins with a heading of this level, before the parts.
fn put_section<'a>(
    alloc: Global,
    parts: &mut Vec<Part<'a>>,
    number: u32,
    level: u8,
    heading: Node<'a>,
) -> Result<(), NoMemory>
    ensures { OnOk result (parts_view parts.new.items ≡ put number (Some level) (view heading.entry) (parts_view parts.old.items)) }
{
    let mut nodes = Vec::from_array(alloc, [heading])?;
    take_before(parts, &mut nodes, Some(level))?;
    push_part(parts, Some(level), section_of(number, nodes))
}

/// Puts a child of the body before the parts. A heading opens the section of this number.
fn put<'a>(
    alloc: Global,
    parts: &mut Vec<Part<'a>>,
    number: u32,
    node: Node<'a>,
) -> Result<(), NoMemory>
    ensures { OnOk result (parts_view parts.new.items ≡ put number (level_of (view node.entry)) (view node.entry) (parts_view parts.old.items)) }
{
    match node.kind.level() {
        None => push_part(parts, None, node),
        Some(level) => put_section(alloc, parts, number, level, node),
    }
}

/// How many sections a node opens.
fn opens(node: &Node<'_>) -> u32
    ensures { result ≡ opens (level_of (view node.now)) }
{
    match node.kind.level() {
        None => 0,
        Some(_) => 1,
    }
}

/// How many of these nodes are headings.
fn heading_count(nodes: &[Node<'_>]) -> u32
    requires { heading_count (views nodes.now) < 2 ^ 32 }
    ensures { result ≡ heading_count (views nodes.now) }
{
    let mut count = 0;
    for node in nodes {
        count += opens(node);
    }
    count
}

/// The parts of a body with these children, of which the last is first.
fn parts_of<'a>(alloc: Global, nodes: Vec<Node<'a>>) -> Result<Vec<Part<'a>>, NoMemory>
    requires { heading_count (views nodes.items) < 2 ^ 32 }
    ensures { IfOk result (λ ps. parts_view ps.items ≡ parts 1 (views nodes.entry.items)) }
{
    let mut number = heading_count(nodes.as_slice());
    let mut left = nodes;
    let mut parts = Vec::new(alloc);
    while let Some(node) = left.pop() {
        let opens = opens(&node);
        put(alloc, &mut parts, number, node)?;
        number -= opens;
    }
    Ok(parts)
}

/// Puts the lead, if there is one, after what is there.
fn push_lead<'a>(out: &mut Vec<Node<'a>>, nodes: Vec<Node<'a>>) -> Result<(), NoMemory>
    ensures { OnOk result (views out.new.items ≡ appended (views out.old.items) (section_if_any (views nodes.entry.items))) }
{
    if nodes.is_empty() {
        return Ok(());
    }
    out.push(section_of(0, nodes))?;
    Ok(())
}

/// Puts parts, of which the last is first, after what is there.
fn push_parts<'a>(out: &mut Vec<Node<'a>>, parts: Vec<Part<'a>>) -> Result<(), NoMemory>
    ensures { OnOk result (views out.new.items ≡ appended (views out.old.items) (part_trees (parts_view parts.entry.items))) }
{
    let mut left = parts;
    while let Some(part) = left.pop() {
        out.push(part.node)?;
    }
    Ok(())
}

fn gather<'a>(alloc: Global, nodes: List<Node<'a>>) -> Result<List<Node<'a>>, NoMemory>
    requires { heading_count (views nodes) < 2 ^ 32 }
    ensures { IfOk result (λ l. views l ≡ gathered (views nodes.entry)) }
{
    let mut parts = parts_of(alloc, nodes.into_vec())?;
    let mut lead = Vec::new(alloc);
    take_before(&mut parts, &mut lead, None)?;
    let mut out = Vec::new(alloc);
    push_lead(&mut out, lead)?;
    push_parts(&mut out, parts)?;
    Ok(List::from_vec(out))
}

/// The tree of a body with its sections: each heading among its children opens one, with numbers from 1,
/// which goes up to the next such heading of the same or a smaller level; what comes before the first,
/// if anything does, is section 0.
pub fn gather_sections<'a>(alloc: Global, body: Node<'a>) -> Result<Node<'a>, NoMemory>
    requires { headings_in (view body) < 2 ^ 32 }
    ensures { IfOk result (λ n. view n ≡ with_sections (view body.entry)) }
{
    let children = gather(alloc, body.children)?;
    Ok(Node { children, ..body })
}
