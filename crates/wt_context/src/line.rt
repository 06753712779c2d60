//! Lines, read.

ghost use Rattle.std.specs.Prelude.{◌≡◌, ◌<◌, ◌^◌, length, All, IfOk};
ghost use Rattle.wt_span.specs.Items.{items};
ghost use Rattle.wt_span.specs.Origins.{IsSoundPiece};
ghost use Rattle.wt_inline.specs.View.{item_trees};
ghost use Rattle.wt_inline.specs.Grown.{growth, Grows};
ghost use Rattle.wt_context.specs.Line.{line_parts, line_trees};

use crate::reading::with_context;
use std::alloc::Global;
use wt_inline::{Children, PieceTree};
use wt_span::{List, NoMemory, Piece};
use wt_tiles::{Context, MOST_PAIRS};

/// How many contexts may be one inside the other: a line, the text of a link, and pairs of tags.
const MOST_CONTEXTS: u32 = MOST_PAIRS + 2;

/// The children of a node with what is on a line, or in a cell.
#[tactic(auto, unfolding(crate::specs::Line::context_parts))]
pub fn with_line<'a>(
    alloc: Global,
    children: Children<'a>,
    pieces: &[Piece<'a>],
) -> Result<Children<'a>, NoMemory>
    requires sound { All IsSoundPiece pieces.now }
    requires few { length (items pieces.now) < 2 ^ 32 }
    ensures { IfOk result (λ c. Grows (growth children.entry) (line_parts (items pieces.now)) (growth c)) }
{
    with_context(alloc, children, MOST_CONTEXTS, Context::line(), pieces)
}

/// What is on a line, or in a cell, as the children of its node.
#[tactic(auto, unfolding(crate::specs::Line::line_trees))]
pub fn line_children<'a>(
    alloc: Global,
    pieces: &[Piece<'a>],
) -> Result<List<PieceTree<'a>>, NoMemory>
    requires sound { All IsSoundPiece pieces.now }
    requires few { length (items pieces.now) < 2 ^ 32 }
    ensures { IfOk result (λ l. item_trees l ≡ line_trees (items pieces.now)) }
{
    let children = with_line(alloc, Children::new(alloc), pieces)?;
    children.finish(alloc)
}
