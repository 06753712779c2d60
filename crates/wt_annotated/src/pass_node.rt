ghost use Rattle.std.specs.Prelude.{◌≡◌, ◌+◌, ◌^◌, ◌<◌, IfOk};
ghost use Rattle.wt_span.specs.Items.{items};
ghost use Rattle.wt_tree.specs.Tree.{tree, none};
ghost use Rattle.wt_tree.specs.View.{view, views};
ghost use Rattle.wt_inline.specs.View.{head_of};
ghost use Rattle.wt_annotated.specs.Labels.{width};
ghost use Rattle.wt_annotated.specs.PassNodes.{leaf_label, inner_label};

use crate::cursor::Cursor;
use crate::held::source_texts;
use crate::node::leaf_ranges;
use crate::piece::width;
use std::alloc::Global;
use wt_inline::NodeHead;
use wt_span::{List, NoMemory, Piece};
use wt_tree::{Mark, Node, Ranges, Slices, Source};

/// A leaf that holds these pieces.
#[tactic(auto, unfolding(crate::specs::Labels::label_at))]
pub fn leaf_node<'a>(
    alloc: Global,
    head: NodeHead<'a>,
    at: Cursor,
    own: &[Piece<'a>],
) -> Result<Node<'a>, NoMemory>
    requires { at.place + width (items own.now) < 2 ^ 32 }
    ensures { IfOk result (λ n. view n ≡ tree (leaf_label at.place at.next (head_of head.entry) (items own.now)) none) }
{
    Ok(Node {
        kind: head.kind,
        id: at.number(head.kind),
        ranges: Some(leaf_ranges(head.kind, at.place, width(own))),
        source: Source::leaf(source_texts(alloc, own)?, head.shown),
        more: head.more.with_mark(alloc, Mark::Nothing)?,
        children: List::new(alloc),
    })
}

/// What is before a node's children, and what is after them.
#[derive(Clone, Copy)]
pub struct Delimiters<'d, 'a> {
    pub opening: &'d [Piece<'a>],
    pub closing: &'d [Piece<'a>],
}

/// A node of these delimiters and children, which ends at a place.
pub fn inner_node<'a>(
    alloc: Global,
    head: NodeHead<'a>,
    at: Cursor,
    end: u32,
    delimiters: Delimiters<'_, 'a>,
    children: List<Node<'a>>,
) -> Result<Node<'a>, NoMemory>
    requires opening { width (items delimiters.opening.now) < 2 ^ 32 }
    requires closing { width (items delimiters.closing.now) < 2 ^ 32 }
    ensures { IfOk result (λ n. view n ≡ tree (inner_label at.place at.next (head_of head.entry) end
        (items delimiters.entry.opening.now) (items delimiters.entry.closing.now)) (views children.entry)) }
{
    let Delimiters { opening, closing } = delimiters;
    let ranges = Ranges {
        start: at.place,
        end,
        open_w: width(opening),
        close_w: width(closing),
    };
    let opening = source_texts(alloc, opening)?;
    let closing = source_texts(alloc, closing)?;
    Ok(Node {
        kind: head.kind,
        id: at.number(head.kind),
        ranges: Some(ranges),
        source: Source::of(alloc, opening, closing, Slices::none(), head.shown)?,
        more: head.more.with_mark(alloc, Mark::Nothing)?,
        children,
    })
}
