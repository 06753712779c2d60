//! The nodes of groups: as they were expanded, without places.

ghost use Rattle.std.specs.Prelude.{◌≡◌, [], IfOk, None, true};
ghost use Rattle.wt_tree.specs.Kinds.{is_leaf};
ghost use Rattle.wt_tree.specs.Tree.{tree};
ghost use Rattle.wt_tree.specs.View.{view, views};
ghost use Rattle.wt_span.specs.Items.{items, sources};
ghost use Rattle.wt_inline.specs.ItemTree.{forest};
ghost use Rattle.wt_inline.specs.View.{head_of, item_tree, item_trees};
ghost use Rattle.wt_inline.specs.declared.tree.PieceTree.{out-PieceTree};
ghost use Rattle.wt_annotated.specs.Annotated.{unplaced, all_unplaced};
ghost use Rattle.wt_annotated.specs.Nodes.{node_label};

use crate::held::{own_pieces, source_texts};
use crate::node::{Sources, leaf_sources, unnumbered_node};
use std::alloc::Global;
use wt_inline::{NodeHead, PieceTree, with_room};
use wt_span::{List, NoMemory, Piece};
use wt_tree::{Node, Slices};

fn unplaced_leaf<'a>(alloc: Global, tree: PieceTree<'a>) -> Result<Node<'a>, NoMemory>
    requires { is_leaf (out-PieceTree tree).head.kind ≡ true }
    ensures { IfOk result (λ n. view n ≡ unplaced (item_tree tree.entry)) }
{
    let PieceTree {
        head,
        opening,
        children,
        closing,
    } = tree;
    let held = own_pieces(opening, children, closing)?;
    let own = source_texts(alloc, held.as_slice())?;
    unnumbered_node(alloc, head, None, leaf_sources(own), List::new(alloc))
}

/// A node round its children.
fn unplaced_inner<'a>(
    alloc: Global,
    head: NodeHead<'a>,
    opening: &[Piece<'a>],
    children: List<Node<'a>>,
    closing: &[Piece<'a>],
) -> Result<Node<'a>, NoMemory>
    ensures { IfOk result (λ n. view n ≡ tree (node_label (head_of head.entry) None (sources (items opening.now)) (sources (items closing.now)) [])
        (views children.entry)) }
{
    let sources = Sources {
        opening: source_texts(alloc, opening)?,
        closing: source_texts(alloc, closing)?,
        own: Slices::none(),
    };
    unnumbered_node(alloc, head, None, sources, children)
}

/// The nodes of trees in a group.
#[cycle(unplacing)]
pub fn unplaced_nodes<'a>(
    alloc: Global,
    trees: List<PieceTree<'a>>,
) -> Result<List<Node<'a>>, NoMemory>
    ensures { IfOk result (λ ns. views ns ≡ all_unplaced (forest (item_trees trees.entry))) }
{
    let mut nodes = with_room(alloc, trees.len())?;
    for tree in trees.into_vec() {
        let node = unplaced_node(alloc, tree)?;
        nodes.push(node)?;
    }
    Ok(nodes)
}

#[cycle(unplacing)]
fn unplaced_node<'a>(alloc: Global, tree: PieceTree<'a>) -> Result<Node<'a>, NoMemory>
    ensures { IfOk result (λ n. view n ≡ unplaced (item_tree tree.entry)) }
{
    if tree.head.kind.is_leaf() {
        return unplaced_leaf(alloc, tree);
    }
    let PieceTree {
        head,
        opening,
        children,
        closing,
    } = tree;
    let children = unplaced_nodes(alloc, children)?;
    unplaced_inner(
        alloc,
        head,
        opening.as_slice(),
        children,
        closing.as_slice(),
    )
}
