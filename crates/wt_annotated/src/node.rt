//! Nodes of trees, made of their heads and texts.

ghost use Rattle.std.specs.Prelude.{◌≡◌, ◌+◌, ◌^◌, ◌<◌, [], IfOk};
ghost use Rattle.wt_tree.specs.Tree.{tree};
ghost use Rattle.wt_tree.specs.View.{texts_of, view, views};
ghost use Rattle.wt_inline.specs.View.{head_of};
ghost use Rattle.wt_annotated.specs.Labels.{leaf_open};
ghost use Rattle.wt_annotated.specs.Nodes.{node_label};

use std::alloc::Global;
use wt_inline::NodeHead;
use wt_span::{List, NoMemory};
use wt_tree::{Kind, Mark, Node, Ranges, Slices, Source, Writing};

/// What a node has of the page: its delimiters, or the source of a leaf.
#[derive(Drop)]
pub struct Sources<'a> {
    pub opening: Slices<'a>,
    pub closing: Slices<'a>,
    pub own: Slices<'a>,
}

/// A node without a number.
pub fn unnumbered_node<'a>(
    alloc: Global,
    head: NodeHead<'a>,
    ranges: Option<Ranges>,
    sources: Sources<'a>,
    children: List<Node<'a>>,
) -> Result<Node<'a>, NoMemory>
    ensures { IfOk result (λ n. view n ≡ tree (node_label (head_of head.entry) ranges (texts_of sources.entry.opening)
        (texts_of sources.entry.closing) (texts_of sources.entry.own)) (views children.entry)) }
{
    let Sources {
        opening,
        closing,
        own,
    } = sources;
    Ok(Node {
        kind: head.kind,
        id: 0,
        ranges,
        source: Source::of(alloc, opening, closing, own, head.shown)?,
        more: head.more.with_mark(alloc, Mark::Nothing)?,
        children,
    })
}

/// The sources of a leaf.
pub fn leaf_sources<'a>(own: Slices<'a>) -> Sources<'a>
    ensures { result ≡ record { opening = []; closing = []; own = own.entry } }
{
    Sources {
        opening: Slices::none(),
        closing: Slices::none(),
        own,
    }
}

/// The open width of a leaf with so many bytes.
fn leaf_open(kind: Kind, width: u32) -> u32
    ensures { result ≡ leaf_open kind width }
{
    if matches!(kind.writing(), Writing::AsText) || kind.is_group() {
        0
    } else {
        width
    }
}

/// The ranges of a leaf of so many bytes.
pub fn leaf_ranges(kind: Kind, start: u32, width: u32) -> Ranges
    requires { start + width < 2 ^ 32 }
    ensures { result ≡ record { start = start; end = start + width; open_w = leaf_open kind width; close_w = 0 } }
{
    Ranges {
        start,
        end: start + width,
        open_w: leaf_open(kind, width),
        close_w: 0,
    }
}
