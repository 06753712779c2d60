//! The tree of a page.

ghost use Rattle.std.specs.Prelude.{◌≡◌, ◌<◌, ◌≤◌, ◌^◌, All, length, IfOk};
ghost use Rattle.wt_span.specs.Items.{items, sources};
ghost use Rattle.wt_span.specs.Origins.{IsSoundPiece};
ghost use Rattle.wt_inline.specs.Grown.{growth};
ghost use Rattle.wt_inline.specs.View.{item_tree};
ghost use Rattle.wt_page.specs.Body.{meaning};
ghost use Rattle.wt_rows.specs.Unread.{left};
ghost use Rattle.wt_build.specs.Carrying.{Carries};

use crate::block::with_blocks;
use crate::text::plain_node;
use std::alloc::Global;
use wt_inline::{Children, Loose, PieceTree};
use wt_lines::MOST_TABLES;
use wt_rows::{Unread, next_portion};
use wt_span::{Items, List, NoMemory, Piece};
use wt_tree::Kind;

/// The meaning of a page as a tree of its pieces, before places, numbers and groups are given.
#[derive(Drop)]
pub struct Tree<'a> {
    body: PieceTree<'a>,
}

impl<'a> Tree<'a> {
    /// The body, which holds all other nodes.
    pub fn body(&self) -> &PieceTree<'a>
        ensures { result.now ≡ self.now.body }
    {
        &self.body
    }

    /// The body by itself.
    pub fn into_body(self) -> PieceTree<'a>
        ensures { result ≡ self.entry.body }
    {
        self.body
    }
}

/// The children of a body with the blocks of the next portion; and what is left after it.
fn with_portion<'p, 'a>(
    alloc: Global,
    children: Children<'a>,
    rest: Unread<'p, 'a>,
) -> Result<(Children<'a>, Unread<'p, 'a>), NoMemory>
    requires sound { All IsSoundPiece (left rest) }
    requires few { length (sources (items (left rest))) < 2 ^ 32 }
    requires some { 0 < length (left rest) }
    ensures grown { IfOk result (λ r. Carries (growth children.entry) (items (left rest.entry)) (growth r.0) (items (left r.1))) }
    ensures sound_after { IfOk result (λ r. All IsSoundPiece (left r.1)) }
    ensures few_after { IfOk result (λ r. length (sources (items (left r.1))) ≤ length (sources (items (left rest.entry)))) }
    ensures fewer { IfOk result (λ r. length (items (left r.1)) < length (items (left rest.entry))) }
{
    let (page, after) = next_portion(alloc, rest)?;
    let pieces = page.pieces.as_slice();
    let rows = page.rows.as_slice();
    let grown = with_blocks(alloc, children, pieces, rows, MOST_TABLES as usize)?;
    Ok((grown, after))
}

/// The children of a body with the empty lines that come next, or else with the next portion; and
/// what is left after.
fn with_next<'p, 'a>(
    alloc: Global,
    children: Children<'a>,
    rest: Unread<'p, 'a>,
) -> Result<(Children<'a>, Unread<'p, 'a>), NoMemory>
    requires sound { All IsSoundPiece (left rest) }
    requires few { length (sources (items (left rest))) < 2 ^ 32 }
    requires some { 0 < length (left rest) }
    ensures grown { IfOk result (λ r. Carries (growth children.entry) (items (left rest.entry)) (growth r.0) (items (left r.1))) }
    ensures sound_after { IfOk result (λ r. All IsSoundPiece (left r.1)) }
    ensures few_after { IfOk result (λ r. length (sources (items (left r.1))) ≤ length (sources (items (left rest.entry)))) }
    ensures fewer { IfOk result (λ r. length (items (left r.1)) < length (items (left rest.entry))) }
{
    match rest.split_breaks() {
        None => with_portion(alloc, children, rest),
        Some((breaks, after)) => {
            let grown = children.with_pieces(alloc, Loose::Sep, &[breaks])?;
            Ok((grown, after))
        }
    }
}

/// The meaning of pieces as a page: blocks with what is in them, and separators between them, by
/// MediaWiki's block pass in the profile's form. Joined, the sources of the tree are the texts of
/// the pieces.
pub fn build_pieces<'a>(alloc: Global, pieces: &[Piece<'a>]) -> Result<Tree<'a>, NoMemory>
    requires sound { All IsSoundPiece pieces.now }
    requires few { length (sources (items pieces.now)) < 2 ^ 32 }
    ensures { IfOk result (λ t. item_tree t.body ≡ meaning (items pieces.now)) }
{
    let mut children = Children::new(alloc);
    let mut rest = Unread::of(pieces);
    while !rest.is_empty() {
        let (grown, after) = with_next(alloc, children, rest)?;
        children = grown;
        rest = after;
    }
    let nodes = children.finish(alloc)?;
    Ok(Tree {
        body: plain_node(alloc, Kind::Body, List::new(alloc), nodes),
    })
}

/// The meaning of a page's items.
pub fn build<'a>(alloc: Global, items: &Items<'a>) -> Result<Tree<'a>, NoMemory>
    ensures { IfOk result (λ t. item_tree t.body ≡ meaning items.now.items) }
{
    build_pieces(alloc, items.pieces())
}
