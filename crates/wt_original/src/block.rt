//! The block as it was in the page: its source, its visible items, and its nodes with numbers.

ghost use Rattle.std.specs.Prelude.{◌≡◌, [], ◌∷◌, ◌++◌, IfOk, OnOk, true, not, ◌&&◌, ◌<◌, length, slice_set};
ghost use Rattle.wt_tree.specs.Kinds.{is_leaf};
ghost use Rattle.wt_tree.specs.Source.{flat, flat_of_all};
ghost use Rattle.wt_tree.specs.View.{view, views, texts_of, label_of};
ghost use Rattle.wt_tree.specs.declared.node.Node.{out-Node};
ghost use Rattle.wt_tree.specs.EditShapes.{edit_shape};
ghost use Rattle.wt_original.specs.Kept.{characters, items, items_of_all, visible, is_visible, holds_kept, is_delimited};
ghost use Rattle.wt_original.specs.Gathered.{item_of, items_seen, bytes_so_far, seen_so_far, found_so_far, begun, ended, Adds, own_found, inside_found, all_found, list_found, IsGatheredOf};

use crate::gather::{Item, push_items};
use std::alloc::{AllocError, Global};
use wt_span::{List, NoMemory, Text};
use wt_tree::{ItemsOf, Kind, Node, flat};

/// Where a node is in its block: the bytes before it and up to its end, and the visible items
/// before it and up to its end.
#[derive(Clone, Copy, Debug)]
pub struct Extent {
    pub start: usize,
    pub end: usize,
    pub from: usize,
    pub to: usize,
}

/// A node with a number, and where it is in its block.
#[derive(Clone, Copy)]
pub struct KeptNode<'t, 'a> {
    pub node: &'t Node<'a>,
    pub extent: Extent,
}

/// What is gathered of a block from the left.
#[derive(Drop)]
pub struct Gathered<'t, 'a> {
    pub source: String,
    pub seen: Vec<Item>,
    pub found: List<KeptNode<'t, 'a>>,
}

fn is_delimited(items: ItemsOf) -> bool
    ensures { result ≡ is_delimited items }
{
    match items {
        ItemsOf::Delimited => true,
        ItemsOf::Characters | ItemsOf::Opaque | ItemsOf::Invisible | ItemsOf::Nodes => false,
    }
}

fn is_visible(item: Item) -> bool
    ensures { result ≡ is_visible (item_of item) }
{
    match item {
        Item::Character(_) => true,
        Item::Opaque => true,
        Item::Invisible => false,
    }
}

/// Appends those that are visible.
pub fn push_visible(out: &mut Vec<Item>, items: &[Item]) -> Result<(), AllocError>
    ensures { OnOk result (items_seen out.new.items ≡ items_seen out.old.items ++ visible (items_seen items.now)) }
{
    for item in items {
        if is_visible(*item) {
            out.push(*item)?;
        }
    }
    Ok(())
}

fn push_characters(out: &mut Vec<Item>, bytes: &[u8]) -> Result<(), AllocError>
    ensures { OnOk result (items_seen out.new.items ≡ items_seen out.old.items ++ characters bytes.now) }
{
    for byte in bytes {
        out.push(Item::Character(*byte))?;
    }
    Ok(())
}

fn gather_text(out: &mut Gathered<'_, '_>, text: &str) -> Result<(), AllocError>
    ensures { OnOk result (Adds out.old out.new text.now (characters text.now) []) }
{
    out.source.push_str(text)?;
    push_characters(&mut out.seen, text.as_bytes())?;
    Ok(())
}

/// Gathers a delimiter.
fn gather_texts(out: &mut Gathered<'_, '_>, texts: &[Text<'_>]) -> Result<(), AllocError>
    ensures { OnOk result (Adds out.old out.new (texts_of texts.now) (characters (texts_of texts.now)) []) }
{
    for text in texts {
        gather_text(out, text.as_str())?;
    }
    Ok(())
}

fn holds_kept(kind: Kind) -> bool
    ensures { result ≡ not (is_leaf kind) && is_delimited (edit_shape kind).items }
{
    !kind.is_leaf() && is_delimited(kind.edit_shape().items)
}

/// Gathers a node without numbers in it.
fn gather_leaf(alloc: Global, out: &mut Gathered<'_, '_>, node: &Node<'_>) -> Result<(), NoMemory>
    ensures { OnOk result (Adds out.old out.new (flat (view node.now)) (visible (items (view node.now))) []) }
{
    let source = flat(alloc, node)?;
    out.source.push_str(source.as_str())?;
    let mut items = Vec::new(alloc);
    push_items(&mut items, node)?;
    push_visible(&mut out.seen, items.as_slice())?;
    Ok(())
}

fn count(out: &Gathered<'_, '_>) -> usize
    ensures { result ≡ length (found_so_far out.now) }
{
    out.found.len()
}

fn byte_count(out: &Gathered<'_, '_>) -> usize
    ensures { result ≡ length (bytes_so_far out.now) }
{
    out.source.len()
}

fn item_count(out: &Gathered<'_, '_>) -> usize
    ensures { result ≡ length (seen_so_far out.now) }
{
    out.seen.len()
}

/// A node begins here.
fn begin(out: &Gathered<'_, '_>) -> Extent
    ensures { result ≡ begun out.now }
{
    let start = byte_count(out);
    let from = item_count(out);
    Extent {
        start,
        end: start,
        from,
        to: from,
    }
}

/// The node that began there ends here.
fn end(out: &Gathered<'_, '_>, extent: Extent) -> Extent
    ensures { result ≡ ended out.now extent }
{
    Extent {
        start: extent.start,
        end: byte_count(out),
        from: extent.from,
        to: item_count(out),
    }
}

fn push_found<'t, 'a>(
    out: &mut Gathered<'t, 'a>,
    node: &'t Node<'a>,
    extent: Extent,
) -> Result<(), NoMemory>
    ensures { OnOk result (Adds out.old out.new [] [] (record { node = view node.now; extent = extent } ∷ [])) }
{
    out.found.push(KeptNode { node, extent })?;
    Ok(())
}

#[tactic(auto, using(crate::proofs::Gathering::map_set))]
fn set_found<'t, 'a>(out: &mut Gathered<'t, 'a>, index: usize, node: &'t Node<'a>, extent: Extent)
    requires { index < length (found_so_far out.old) }
    ensures source { bytes_so_far out.new ≡ bytes_so_far out.old }
    ensures seen { seen_so_far out.new ≡ seen_so_far out.old }
    ensures found { found_so_far out.new ≡ slice_set (found_so_far out.old) index (record { node = view node.now; extent = extent }) }
{
    let _begun = out.found.replace(index, KeptNode { node, extent });
}

/// Gathers a node and all in it.
#[cycle(gathering)]
fn gather<'t, 'a>(
    alloc: Global,
    out: &mut Gathered<'t, 'a>,
    node: &'t Node<'a>,
) -> Result<(), NoMemory>
    ensures { OnOk result (Adds out.old out.new (flat (view node.now)) (visible (items (view node.now))) (all_found out.old (view node.now))) }
{
    if node.id == 0 {
        gather_inside(alloc, out, node)?;
    } else {
        gather_numbered(alloc, out, node)?;
    }
    Ok(())
}

/// Gathers a node with a number.
#[cycle(gathering)]
fn gather_numbered<'t, 'a>(
    alloc: Global,
    out: &mut Gathered<'t, 'a>,
    node: &'t Node<'a>,
) -> Result<(), NoMemory>
    ensures { OnOk result (Adds out.old out.new (flat (view node.now)) (visible (items (view node.now)))
        (own_found out.old (view node.now) ∷ inside_found out.old (label_of (out-Node node.now)) (views (out-Node node.now).children))) }
{
    let index = count(out);
    let extent = begin(out);
    push_found(out, node, extent)?;
    gather_inside(alloc, out, node)?;
    let extent = end(out, extent);
    set_found(out, index, node, extent);
    Ok(())
}

#[cycle(gathering)]
fn gather_inside<'t, 'a>(
    alloc: Global,
    out: &mut Gathered<'t, 'a>,
    node: &'t Node<'a>,
) -> Result<(), NoMemory>
    ensures { OnOk result (Adds out.old out.new (flat (view node.now)) (visible (items (view node.now)))
        (inside_found out.old (label_of (out-Node node.now)) (views (out-Node node.now).children))) }
{
    if holds_kept(node.kind) {
        gather_delimited(alloc, out, node)?;
    } else {
        gather_leaf(alloc, out, node)?;
    }
    Ok(())
}

#[cycle(gathering)]
fn gather_delimited<'t, 'a>(
    alloc: Global,
    out: &mut Gathered<'t, 'a>,
    node: &'t Node<'a>,
) -> Result<(), NoMemory>
    requires { holds_kept (label_of (out-Node node.now)) ≡ true }
    ensures { OnOk result (Adds out.old out.new (flat (view node.now)) (visible (items (view node.now)))
        (inside_found out.old (label_of (out-Node node.now)) (views (out-Node node.now).children))) }
{
    gather_texts(out, node.opening())?;
    gather_all(alloc, out, node.children.as_slice())?;
    gather_texts(out, node.closing())?;
    Ok(())
}

#[cycle(gathering)]
fn gather_all<'t, 'a>(
    alloc: Global,
    out: &mut Gathered<'t, 'a>,
    nodes: &'t [Node<'a>],
) -> Result<(), NoMemory>
    ensures { OnOk result (Adds out.old out.new (flat_of_all (views nodes.now)) (visible (items_of_all (views nodes.now)))
        (list_found out.old (views nodes.now))) }
{
    for node in nodes {
        gather(alloc, out, node)?;
    }
    Ok(())
}

/// What is gathered of a block.
pub fn gather_block<'t, 'a>(
    alloc: Global,
    block: &'t Node<'a>,
) -> Result<Gathered<'t, 'a>, NoMemory>
    ensures { IfOk result (IsGatheredOf (view block.now)) }
{
    let mut out = Gathered {
        source: String::new(alloc),
        seen: Vec::new(alloc),
        found: List::new(alloc),
    };
    gather(alloc, &mut out, block)?;
    Ok(out)
}
