//! Nodes that are kept, with their places and sources on the page.

ghost use Rattle.std.specs.Prelude.{◌≡◌, ◌+◌, ◌-◌, ◌^◌, ◌<◌, ◌≤◌, [], IfOk, Some, true};
ghost use Rattle.wt_span.specs.Items.{items};
ghost use Rattle.wt_tree.specs.Kinds.{is_leaf};
ghost use Rattle.wt_tree.specs.Tree.{tree};
ghost use Rattle.wt_tree.specs.View.{texts_of, view, views};
ghost use Rattle.wt_inline.specs.View.{head_of};
ghost use Rattle.wt_inline.specs.declared.tree.PieceTree.{out-PieceTree};
ghost use Rattle.wt_runs.specs.Children.{near_of};
ghost use Rattle.wt_ranges.specs.Kept.{Fits, IsFrame};
ghost use Rattle.wt_annotated.specs.Nodes.{node_label};
ghost use Rattle.wt_annotated.specs.Pieces.{outer_calls};
ghost use Rattle.wt_annotated.specs.Seams.{text_from};

use std::alloc::Global;
use wt_annotated::{
    Sources, TreeProgress, first_call, leaf_ranges, leaf_sources, own_pieces, page_texts,
    page_width, unnumbered_node, walk_through,
};
use wt_inline::{NodeHead, PieceTree};
use wt_runs::Child;
use wt_span::{List, NoMemory, Outer};
use wt_tree::{Kind, Node, Ranges, Slices};

/// What a kept node takes from the page beside its children: its ranges and delimiters, and the
/// call before its first child, the byte at which that begins, and the call after its last.
#[derive(Drop)]
pub struct Frame<'a> {
    pub ranges: Ranges,
    pub sources: Sources<'a>,
    pub before: Option<u32>,
    pub byte: u32,
    pub after: Option<u32>,
}

/// A leaf that is kept.
pub fn kept_leaf<'a>(
    alloc: Global,
    calls: &[Outer<'a>],
    child: Child<'a>,
) -> Result<Node<'a>, NoMemory>
    requires leaf { is_leaf (out-PieceTree child.tree).head.kind ≡ true }
    requires fits { Fits (outer_calls calls.now) child }
    ensures { IfOk result (λ n. view n ≡ (near_of (outer_calls calls.now) child.entry).whole) }
{
    let Child {
        tree,
        before,
        byte,
        ..
    } = child;
    let PieceTree {
        head,
        opening,
        children,
        closing,
    } = tree;
    let held = own_pieces(opening, children, closing)?;
    let width = page_width(calls, before, held.as_slice());
    let own = page_texts(alloc, calls, before, held.as_slice())?;
    let ranges = leaf_ranges(head.kind, byte, width);
    unnumbered_node(
        alloc,
        head,
        Some(ranges),
        leaf_sources(own),
        List::new(alloc),
    )
}

/// The ranges of a node round its children that begins there, by a walk through it.
fn inner_ranges(byte: u32, walk: TreeProgress) -> Ranges
    requires fits { byte + walk.closed.width < 2 ^ 32 }
    requires order { walk.filled.width ≤ walk.closed.width }
    ensures { result ≡ record { start = byte; end = byte + walk.closed.width; open_w = walk.opened.width; close_w = walk.closed.width - walk.filled.width } }
{
    Ranges {
        start: byte,
        end: byte + walk.closed.width,
        open_w: walk.opened.width,
        close_w: walk.closed.width - walk.filled.width,
    }
}

fn inner_sources<'a>(
    alloc: Global,
    calls: &[Outer<'a>],
    child: &Child<'a>,
    filled: Option<u32>,
) -> Result<Sources<'a>, NoMemory>
    ensures opening { IfOk result (λ s. texts_of s.opening
        ≡ text_from (outer_calls calls.now) child.now.before (items (out-PieceTree child.now.tree).opening)) }
    ensures closing { IfOk result (λ s. texts_of s.closing ≡ text_from (outer_calls calls.now) filled (items (out-PieceTree child.now.tree).closing)) }
    ensures own { IfOk result (λ s. texts_of s.own ≡ []) }
{
    let opening = page_texts(alloc, calls, child.before, child.tree.opening.as_slice())?;
    let closing = page_texts(alloc, calls, filled, child.tree.closing.as_slice())?;
    Ok(Sources {
        opening,
        closing,
        own: Slices::none(),
    })
}

/// What a node round its children takes from the page.
pub fn inner_frame<'a>(
    alloc: Global,
    calls: &[Outer<'a>],
    child: &Child<'a>,
) -> Result<Frame<'a>, NoMemory>
    requires { Fits (outer_calls calls.now) child.now }
    ensures { IfOk result (λ f. IsFrame (outer_calls calls.now) child.now f) }
{
    let walk = walk_through(calls, child.before, &child.tree);
    let ranges = inner_ranges(child.byte, walk);
    let sources = inner_sources(alloc, calls, child, walk.filled.last)?;
    Ok(Frame {
        ranges,
        sources,
        before: walk.opened.last,
        byte: child.byte + walk.opened.width,
        after: first_call(child.tree.closing.as_slice(), child.after),
    })
}

/// The node round these children, in its frame.
pub fn kept_inner<'a>(
    alloc: Global,
    frame: Frame<'a>,
    head: NodeHead<'a>,
    children: List<Node<'a>>,
) -> Result<Node<'a>, NoMemory>
    ensures { IfOk result (λ n. view n ≡ tree (node_label (head_of head.entry) (Some frame.entry.ranges) (texts_of frame.entry.sources.opening)
        (texts_of frame.entry.sources.closing) (texts_of frame.entry.sources.own)) (views children.entry)) }
{
    unnumbered_node(alloc, head, Some(frame.ranges), frame.sources, children)
}
