//! What the block was in the page, gathered from the left: its source, its visible items, and its
//! nodes with numbers.

ghost use Rattle.std.specs.Prelude.{◌≡◌, [], ◌∷◌, ◌++◌, OnOk, string_bytes};
ghost use Rattle.wt_tree.specs.View.{view, views, texts_of, label_of};
ghost use Rattle.wt_tree.specs.declared.node.Node.{out-Node};
ghost use Rattle.wt_original.specs.Kept.{characters, items, items_of_all, items_by, shown, shown_in};
ghost use Rattle.wt_tree.specs.declared.edit_shape.ItemsOf.TheVariants as item;
ghost use Rattle.wt_original.specs.Gathered.{item_of, items_seen};

use std::alloc::{AllocError, Global};
use wt_span::Text;
use wt_tree::{ItemsOf, Node, Showing};

/// An item of the page: a character of one byte or a byte of a longer one; any other visible item,
/// and one that is neither a blank, a line break, an apostrophe nor `=`; or a mark.
#[derive(Clone, Copy, Debug)]
pub enum Item {
    Character(u8),
    Opaque,
    Invisible,
}

fn push_bytes(out: &mut Vec<Item>, bytes: &[u8]) -> Result<(), AllocError>
    ensures { OnOk result (items_seen out.new.items ≡ items_seen out.old.items ++ characters bytes.now) }
{
    for byte in bytes {
        out.push(Item::Character(*byte))?;
    }
    Ok(())
}

fn push_texts(out: &mut Vec<Item>, texts: &[Text<'_>]) -> Result<(), AllocError>
    ensures { OnOk result (items_seen out.new.items ≡ items_seen out.old.items ++ characters (texts_of texts.now)) }
{
    for text in texts {
        push_bytes(out, text.as_str().as_bytes())?;
    }
    Ok(())
}

fn push_item(out: &mut Vec<Item>, item: Item) -> Result<(), AllocError>
    ensures { OnOk result (items_seen out.new.items ≡ items_seen out.old.items ++ item_of item ∷ []) }
{
    out.push(item)?;
    Ok(())
}

/// Appends the items of a node that has delimiters round what it holds.
#[cycle(pushing)]
fn push_delimited(out: &mut Vec<Item>, node: &Node<'_>) -> Result<(), AllocError>
    ensures { OnOk result (items_seen out.new.items
        ≡ items_seen out.old.items ++ items_by item.Delimited (label_of (out-Node node.now)) (items_of_all (views (out-Node node.now).children))) }
{
    push_texts(out, node.opening())?;
    push_items_of_all(out, node.children.as_slice())?;
    push_texts(out, node.closing())?;
    Ok(())
}

/// Appends the items of a node: of a group those of the nodes that it shows.
#[cycle(pushing)]
pub fn push_items(out: &mut Vec<Item>, node: &Node<'_>) -> Result<(), AllocError>
    ensures { OnOk result (items_seen out.new.items ≡ items_seen out.old.items ++ items (view node.now)) }
{
    match node.kind.edit_shape().items {
        ItemsOf::Delimited => push_delimited(out, node)?,
        ItemsOf::Characters => push_texts(out, node.own())?,
        ItemsOf::Opaque => push_item(out, Item::Opaque)?,
        ItemsOf::Invisible => push_item(out, Item::Invisible)?,
        ItemsOf::Nodes => push_items_of_all(out, node.children.as_slice())?,
    }
    Ok(())
}

#[cycle(pushing)]
fn push_items_of_all(out: &mut Vec<Item>, nodes: &[Node<'_>]) -> Result<(), AllocError>
    ensures { OnOk result (items_seen out.new.items ≡ items_seen out.old.items ++ items_of_all (views nodes.now)) }
{
    for node in nodes {
        push_items(out, node)?;
    }
    Ok(())
}

/// Appends the characters that a node shows.
#[cycle(showing)]
pub fn push_shown(out: &mut String, node: &Node<'_>) -> Result<(), AllocError>
    ensures { OnOk result (string_bytes out.new ≡ string_bytes out.old ++ shown (view node.now)) }
{
    match node.kind.showing() {
        Showing::Characters => out.push_str(node.shown())?,
        Showing::Inside => push_shown_in(out, node.children.as_slice())?,
        Showing::Nothing => {}
        Showing::Element => push_shown_in(out, node.children.as_slice())?,
    }
    Ok(())
}

#[cycle(showing)]
fn push_shown_in(out: &mut String, nodes: &[Node<'_>]) -> Result<(), AllocError>
    ensures { OnOk result (string_bytes out.new ≡ string_bytes out.old ++ shown_in (views nodes.now)) }
{
    for node in nodes {
        push_shown(out, node)?;
    }
    Ok(())
}
