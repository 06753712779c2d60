//! Groups: one leaf for children that can be edited only together.

ghost use Rattle.std.specs.Prelude.{◌≡◌, ◌+◌, ◌^◌, ◌<◌, length, All, IfOk};
ghost use Rattle.wt_span.specs.Items.{items};
ghost use Rattle.wt_span.specs.Origins.{IsSoundCall};
ghost use Rattle.wt_tree.specs.Tree.{tree};
ghost use Rattle.wt_tree.specs.View.{texts_of, view, views};
ghost use Rattle.wt_inline.specs.ItemTree.{forest, held_by_all};
ghost use Rattle.wt_inline.specs.View.{item_trees};
ghost use Rattle.wt_annotated.specs.Annotated.{group_label};
ghost use Rattle.wt_runs.specs.Children.{nears_of};
ghost use Rattle.wt_annotated.specs.GroupData.{group_data};
ghost use Rattle.wt_ranges.specs.Kept.{NearsFit, group_start, trees_of};
ghost use Rattle.wt_annotated.specs.Pieces.{outer_calls};
ghost use Rattle.wt_annotated.specs.Seams.{text_from};
ghost use Rattle.wt_annotated.specs.Walked.{group_at, near_group};

use crate::carried::group_data;
use crate::group_word::group_attrs;
use std::alloc::Global;
use wt_annotated::{
    leaf_sources, page_texts, page_width, pieces_of_all, unnumbered_node, unplaced_nodes,
};
use wt_inline::{NodeHead, PieceTree, with_room};
use wt_runs::Child;
use wt_span::{List, NoMemory, Outer, Piece};
use wt_tree::{DataMw, Kind, Mark, More, Node, Ranges, Shown, Slices};

/// Where a group begins: after an item of which call, and at which byte of the page.
#[derive(Clone, Copy)]
struct Start {
    before: Option<u32>,
    byte: u32,
}

/// Where the first of these children begins.
fn group_start(children: &[Child<'_>]) -> Start
    ensures { result ≡ group_start children.now }
{
    match children {
        [] => Start {
            before: None,
            byte: 0,
        },
        [first, ..] => Start {
            before: first.before,
            byte: first.byte,
        },
    }
}

/// The trees of children.
fn trees_of<'a>(alloc: Global, children: List<Child<'a>>) -> Result<List<PieceTree<'a>>, NoMemory>
    ensures { IfOk result (λ ts. ts ≡ trees_of children.entry) }
{
    let mut trees = with_room(alloc, children.len())?;
    for child in children.into_vec() {
        trees.push(child.tree)?;
    }
    Ok(trees)
}

/// The leaf of a group from a byte on, with its source and data, that shows these nodes.
fn group_leaf<'a>(
    alloc: Global,
    byte: u32,
    width: u32,
    own: Slices<'a>,
    mw: Option<DataMw>,
    children: List<Node<'a>>,
) -> Result<Node<'a>, NoMemory>
    requires fits { byte + width < 2 ^ 32 }
    requires width { width ≡ length (texts_of own) }
    ensures { IfOk result (λ n. view n ≡ tree (group_label byte (texts_of own.entry) mw) (views children.entry)) }
{
    let attrs = group_attrs(alloc, &mw)?;
    let head = NodeHead {
        kind: Kind::Group,
        shown: Shown::none(),
        more: More::of(alloc, attrs, Mark::Nothing, mw)?,
    };
    let ranges = Ranges {
        start: byte,
        end: byte + width,
        open_w: 0,
        close_w: 0,
    };
    unnumbered_node(alloc, head, Some(ranges), leaf_sources(own), children)
}

/// A group of trees that begins there and holds these pieces.
fn group_of<'a>(
    alloc: Global,
    calls: &[Outer<'a>],
    start: Start,
    trees: List<PieceTree<'a>>,
    held: &[Piece<'a>],
) -> Result<Node<'a>, NoMemory>
    requires sound { All IsSoundCall (outer_calls calls.now) }
    requires held { items held.now ≡ held_by_all (forest (item_trees trees)) }
    requires fits { start.byte + length (text_from (outer_calls calls.now) start.before (items held.now)) < 2 ^ 32 }
    ensures { IfOk result (λ n. view n ≡ group_at (outer_calls calls.now) (group_data (outer_calls calls.now)) start.before start.byte
        (forest (item_trees trees.entry))) }
{
    let width = page_width(calls, start.before, held);
    let own = page_texts(alloc, calls, start.before, held)?;
    let mw = group_data(alloc, calls, start.before, held)?;
    let children = unplaced_nodes(alloc, trees)?;
    group_leaf(alloc, start.byte, width, own, mw, children)
}

/// The group of these children.
pub fn group_node<'a>(
    alloc: Global,
    calls: &[Outer<'a>],
    children: List<Child<'a>>,
) -> Result<Node<'a>, NoMemory>
    requires sound { All IsSoundCall (outer_calls calls.now) }
    requires fit { NearsFit (outer_calls calls.now) (nears_of (outer_calls calls.now) children) }
    ensures { IfOk result (λ n. view n ≡ near_group (outer_calls calls.now) (group_data (outer_calls calls.now))
        (nears_of (outer_calls calls.now) children.entry)) }
{
    let start = group_start(children.as_slice());
    let trees = trees_of(alloc, children)?;
    let held = pieces_of_all(alloc, trees.as_slice())?;
    group_of(alloc, calls, start, trees, held.as_slice())
}
