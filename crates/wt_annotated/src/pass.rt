//! One pass over a tree in which no node is a group: places and numbers are carried along, and texts
//! are cut anew.

ghost use Rattle.std.specs.Prelude.{◌≡◌, ◌+◌, ◌^◌, ◌<◌, true, false, IfOk};
ghost use Rattle.wt_span.specs.Items.{items};
ghost use Rattle.wt_tree.specs.Kinds.{is_leaf, texts_of_kind};
ghost use Rattle.wt_tree.specs.Tree.{tree};
ghost use Rattle.wt_tree.specs.View.{view, views};
ghost use Rattle.wt_inline.specs.ItemTree.{inner, forest, tree_items, held_by_all};
ghost use Rattle.wt_inline.specs.View.{head_of, item_tree, item_trees};
ghost use Rattle.wt_inline.specs.declared.tree.PieceTree.{out-PieceTree};
ghost use Rattle.wt_annotated.specs.Counted.{numbered, numbered_in_all};
ghost use Rattle.wt_annotated.specs.Labels.{width};
ghost use Rattle.wt_annotated.specs.Made.{IsMade, AreMade};
ghost use Rattle.wt_annotated.specs.CutTexts.{cut_as};
ghost use Rattle.wt_annotated.specs.PassNodes.{inner_label};

use crate::cursor::Cursor;
use crate::cut::cut_as;
use crate::held::own_pieces;
use crate::pass_node::{Delimiters, inner_node, leaf_node};
use crate::piece::width;
use std::alloc::Global;
use wt_inline::{NodeHead, PieceTree, with_room};
use wt_span::{List, NoMemory, Piece};
use wt_tree::Node;

/// A node, and where the pass comes after it.
#[derive(Drop)]
pub struct PassedNode<'a> {
    pub node: Node<'a>,
    pub behind: Cursor,
}

/// The children of a node, and where the pass comes after them.
#[derive(Drop)]
struct PassedNodes<'a> {
    nodes: List<Node<'a>>,
    behind: Cursor,
}

fn leaf<'a>(alloc: Global, tree: PieceTree<'a>, at: Cursor) -> Result<PassedNode<'a>, NoMemory>
    requires leaf { is_leaf (out-PieceTree tree).head.kind ≡ true }
    requires place { at.place + width (tree_items (item_tree tree)) < 2 ^ 32 }
    requires number { at.next + numbered (item_tree tree) < 2 ^ 32 }
    ensures { IfOk result (λ m. IsMade at.place at.next (item_tree tree.entry) (view m.node) m.behind.place m.behind.next) }
{
    let PieceTree {
        head,
        opening,
        children,
        closing,
    } = tree;
    let own = own_pieces(opening, children, closing)?;
    let behind = at.after(head.kind, width(own.as_slice()));
    let node = leaf_node(alloc, head, at, own.as_slice())?;
    Ok(PassedNode { node, behind })
}

/// A node round the children that are made.
fn node_round<'a>(
    alloc: Global,
    head: NodeHead<'a>,
    at: Cursor,
    opening: List<Piece<'a>>,
    children: PassedNodes<'a>,
    closing: List<Piece<'a>>,
) -> Result<PassedNode<'a>, NoMemory>
    requires opening { width (items opening) < 2 ^ 32 }
    requires closing { children.behind.place + width (items closing) < 2 ^ 32 }
    ensures node { IfOk result (λ m. view m.node
        ≡ tree (inner_label at.place at.next (head_of head.entry) (children.entry.behind.place + width (items closing.entry)) (items opening.entry)
        (items closing.entry)) (cut_as (texts_of_kind head.entry.kind) (views children.entry.nodes))) }
    ensures place { IfOk result (λ m. m.behind.place ≡ children.entry.behind.place + width (items closing.entry)) }
    ensures number { IfOk result (λ m. m.behind.next ≡ children.entry.behind.next) }
{
    let PassedNodes { nodes, behind } = children;
    let end = behind.place + width(closing.as_slice());
    let nodes = cut_as(alloc, head.kind, nodes)?;
    let delimiters = Delimiters {
        opening: opening.as_slice(),
        closing: closing.as_slice(),
    };
    let node = inner_node(alloc, head, at, end, delimiters, nodes)?;
    Ok(PassedNode {
        node,
        behind: Cursor {
            place: end,
            next: behind.next,
        },
    })
}

/// The nodes of trees that follow one another.
#[cycle(annotating)]
fn annotated_all<'a>(
    alloc: Global,
    trees: List<PieceTree<'a>>,
    at: Cursor,
) -> Result<PassedNodes<'a>, NoMemory>
    requires place { at.place + width (held_by_all (forest (item_trees trees))) < 2 ^ 32 }
    requires number { at.next + numbered_in_all (forest (item_trees trees)) < 2 ^ 32 }
    ensures { IfOk result (λ m. AreMade at.place at.next (forest (item_trees trees.entry)) (views m.nodes) m.behind.place m.behind.next) }
{
    let mut nodes = with_room(alloc, trees.len())?;
    let mut behind = at;
    for tree in trees.into_vec() {
        let made = annotated_node(alloc, tree, behind)?;
        behind = made.behind;
        nodes.push(made.node)?;
    }
    Ok(PassedNodes { nodes, behind })
}

/// The node of a tree that begins where the pass is.
#[cycle(annotating)]
pub fn annotated_node<'a>(
    alloc: Global,
    tree: PieceTree<'a>,
    at: Cursor,
) -> Result<PassedNode<'a>, NoMemory>
    requires place { at.place + width (tree_items (item_tree tree)) < 2 ^ 32 }
    requires number { at.next + numbered (item_tree tree) < 2 ^ 32 }
    ensures { IfOk result (λ m. IsMade at.place at.next (item_tree tree.entry) (view m.node) m.behind.place m.behind.next) }
{
    if tree.head.kind.is_leaf() {
        return leaf(alloc, tree, at);
    }
    let inside = at.after(tree.head.kind, width(tree.opening.as_slice()));
    let PieceTree {
        head,
        opening,
        children,
        closing,
    } = tree;
    let children = annotated_all(alloc, children, inside)?;
    node_round(alloc, head, at, opening, children, closing)
}
