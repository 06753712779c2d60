//! Stretches in code, and the nodes that are made round them.

ghost use Rattle.std.specs.Prelude.{◌≡◌, ◌<◌, ◌≤◌, ◌-◌, ◌^◌, [], ◌∷◌, ◌++◌, All, IfOk, length, take, drop, reverse};
ghost use Rattle.std.specs.List.{prefix_len};
ghost use Rattle.wt_span.specs.Items.{items};
ghost use Rattle.wt_span.specs.Origins.{IsSoundPiece};
ghost use Rattle.wt_inline.specs.View.{head_of, item_tree, item_trees};
ghost use Rattle.wt_inline.specs.ItemTree.{inner, forest};
ghost use Rattle.wt_inline.specs.Grown.{growth, made, Grows};
ghost use Rattle.wt_context.specs.Line.{line_parts};
ghost use Rattle.wt_page.specs.Stretches.{block, stretch_parts, stretches_parts, enclosed, opened_by};
ghost use Rattle.wt_rows.specs.Views.{stretch_view, stretches_view, is_gap_at, IsOpenedBy, IsBehindTree, IsBetween};

use crate::row::{RowAt, between};
use std::alloc::Global;
use wt_context::with_line;
use wt_inline::{Children, Loose, NodeHead, PieceTree};
use wt_span::{List, NoMemory, Piece};

/// A gap between two places of the pieces of a page, or a node.
#[derive(Drop)]
pub enum StretchAt<'a> {
    Gap { from: usize, to: usize },
    Tree(Box<PieceTree<'a>>),
}

fn is_gap(stretch: &StretchAt<'_>) -> bool
    ensures { result ≡ is_gap_at stretch.now }
{
    match stretch {
        StretchAt::Gap { .. } => true,
        StretchAt::Tree(_) => false,
    }
}

/// How many gaps are at the front.
fn front_len(stretches: &[StretchAt<'_>]) -> usize
    ensures value { result ≡ prefix_len is_gap_at stretches.now }
    ensures within { result ≤ length stretches.now }
{
    for (i, stretch) in stretches.iter().enumerate() {
        if !is_gap(stretch) {
            return i;
        }
    }
    stretches.len()
}

/// How many stretches there are up to the last node.
fn block_len(stretches: &[StretchAt<'_>]) -> usize
    ensures value { result ≡ length stretches.now - prefix_len is_gap_at (reverse stretches.now) }
    ensures within { result ≤ length stretches.now }
{
    let mut end = stretches.len();
    while end > 0 && is_gap(&stretches[end - 1]) {
        end -= 1;
    }
    end
}

/// The children of a node with a stretch.
fn with_stretch<'a>(
    alloc: Global,
    children: Children<'a>,
    pieces: &[Piece<'a>],
    stretch: StretchAt<'a>,
) -> Result<Children<'a>, NoMemory>
    ensures { IfOk result (λ c. Grows (growth children.entry) (stretch_parts (stretch_view pieces.now stretch.entry)) (growth c)) }
{
    match stretch {
        StretchAt::Gap { from, to } => children.with_pieces(
            alloc,
            Loose::Sep,
            between(pieces, from, to),
        ),
        StretchAt::Tree(tree) => children.with_tree(alloc, Box::into_inner(tree)),
    }
}

/// The children of a node with these stretches.
pub fn with_stretches<'a>(
    alloc: Global,
    children: Children<'a>,
    pieces: &[Piece<'a>],
    stretches: List<StretchAt<'a>>,
) -> Result<Children<'a>, NoMemory>
    ensures { IfOk result (λ c. Grows (growth children.entry) (stretches_parts (stretches_view pieces.now stretches.entry)) (growth c)) }
{
    let mut children = children;
    for stretch in stretches.into_vec() {
        children = with_stretch(alloc, children, pieces, stretch)?;
    }
    Ok(children)
}

/// A node, and stretches after it.
fn behind_tree<'a>(
    alloc: Global,
    tree: PieceTree<'a>,
    after: List<StretchAt<'a>>,
) -> Result<List<StretchAt<'a>>, NoMemory>
    ensures { IfOk result (λ l. IsBehindTree tree.entry after.entry l) }
{
    let node = Box::new(alloc, tree)?;
    before(alloc, StretchAt::Tree(node), after)
}

/// The first n stretches, and those after them.
fn split_at<'a>(
    stretches: List<StretchAt<'a>>,
    n: usize,
) -> Result<(List<StretchAt<'a>>, List<StretchAt<'a>>), NoMemory>
    requires { n ≤ length stretches }
    ensures front { IfOk result (λ r. r.0 ≡ take n stretches.entry) }
    ensures back { IfOk result (λ r. r.1 ≡ drop n stretches.entry) }
{
    let mut front = stretches.into_vec();
    let back = front.split_off(n)?;
    Ok((List::from_vec(front), List::from_vec(back)))
}

/// These stretches, and those after them.
fn joined<'a>(
    front: List<StretchAt<'a>>,
    back: List<StretchAt<'a>>,
) -> Result<List<StretchAt<'a>>, NoMemory>
    ensures { IfOk result (λ l. l ≡ front.entry ++ back.entry) }
{
    let mut front = front.into_vec();
    let mut back = back.into_vec();
    front.append(&mut back)?;
    Ok(List::from_vec(front))
}

/// A node with an open delimiter and an empty close delimiter.
fn ended_by_last<'a>(
    alloc: Global,
    head: NodeHead<'a>,
    opening: List<Piece<'a>>,
    children: List<PieceTree<'a>>,
) -> PieceTree<'a>
    ensures { item_tree result ≡ inner (head_of head.entry) (items opening.entry) (forest (item_trees children.entry)) [] }
{
    PieceTree {
        head,
        opening,
        children,
        closing: List::new(alloc),
    }
}

/// A node with an open delimiter that holds these children and then these stretches.
fn node_round<'a>(
    alloc: Global,
    head: NodeHead<'a>,
    opening: List<Piece<'a>>,
    children: Children<'a>,
    pieces: &[Piece<'a>],
    inside: List<StretchAt<'a>>,
) -> Result<PieceTree<'a>, NoMemory>
    ensures { IfOk result (λ t. item_tree t
        ≡ inner (head_of head.entry) (items opening.entry)
        (forest (made (growth children.entry) (stretches_parts (stretches_view pieces.now inside.entry)))) []) }
{
    let made = with_stretches(alloc, children, pieces, inside)?;
    let nodes = made.finish(alloc)?;
    let tree = ended_by_last(alloc, head, opening, nodes);
    Ok(tree)
}

/// A node with an open delimiter that holds these children and then these stretches up to the last
/// node; gaps at the end lie outside.
pub fn opened_by<'a>(
    alloc: Global,
    head: NodeHead<'a>,
    opening: List<Piece<'a>>,
    children: Children<'a>,
    pieces: &[Piece<'a>],
    stretches: List<StretchAt<'a>>,
) -> Result<List<StretchAt<'a>>, NoMemory>
    ensures { IfOk result (λ l. IsOpenedBy (head_of head.entry) (items opening.entry) (growth children.entry) (stretches_view pieces.now stretches.entry)
        (stretches_view pieces.now l)) }
{
    let n = block_len(stretches.as_slice());
    if n == 0 {
        let nodes = children.finish(alloc)?;
        let tree = ended_by_last(alloc, head, opening, nodes);
        return behind_tree(alloc, tree, stretches);
    }
    let (inside, after) = split_at(stretches, n)?;
    let tree = node_round(alloc, head, opening, children, pieces, inside)?;
    behind_tree(alloc, tree, after)
}

/// A node without delimiters round these stretches; gaps at both ends lie outside.
pub fn enclosed<'a>(
    alloc: Global,
    head: NodeHead<'a>,
    pieces: &[Piece<'a>],
    stretches: List<StretchAt<'a>>,
) -> Result<List<StretchAt<'a>>, NoMemory>
    ensures { IfOk result (λ l. stretches_view pieces.now l ≡ enclosed (head_of head.entry) (stretches_view pieces.now stretches.entry)) }
{
    let n = front_len(stretches.as_slice());
    let (front, rest) = split_at(stretches, n)?;
    let node = opened_by(
        alloc,
        head,
        List::new(alloc),
        Children::new(alloc),
        pieces,
        rest,
    )?;
    joined(front, node)
}

/// A stretch before others.
pub fn before<'a>(
    alloc: Global,
    stretch: StretchAt<'a>,
    others: List<StretchAt<'a>>,
) -> Result<List<StretchAt<'a>>, NoMemory>
    ensures { IfOk result (λ l. l ≡ stretch.entry ∷ others.entry) }
{
    let mut others = others.into_vec();
    let mut out = Vec::with_capacity(alloc, others.len() + 1)?;
    out.push(stretch)?;
    out.append(&mut others)?;
    Ok(List::from_vec(out))
}

/// A node with an open delimiter that holds what is on a line, or is left of it, and then
/// stretches up to the last node.
pub fn opened_line<'a>(
    alloc: Global,
    head: NodeHead<'a>,
    opening: List<Piece<'a>>,
    line: &[Piece<'a>],
    pieces: &[Piece<'a>],
    after: List<StretchAt<'a>>,
) -> Result<List<StretchAt<'a>>, NoMemory>
    requires sound { All IsSoundPiece line.now }
    requires few { length (items line.now) < 2 ^ 32 }
    ensures { IfOk result (λ l. stretches_view pieces.now l
        ≡ opened_by (head_of head.entry) (items opening.entry) (block (line_parts (items line.now)) ∷ stretches_view pieces.now after.entry)) }
{
    let children = with_line(alloc, Children::new(alloc), line)?;
    opened_by(alloc, head, opening, children, pieces, after)
}

/// A node between what comes before the first of its rows and what ends the last.
pub fn with_separators<'a>(
    alloc: Global,
    tree: PieceTree<'a>,
    first: RowAt,
    last: RowAt,
) -> Result<List<StretchAt<'a>>, NoMemory>
    ensures { IfOk result (λ l. IsBetween (item_tree tree.entry) first last l) }
{
    let node = Box::new(alloc, tree)?;
    let mut out = List::new(alloc);
    out.push(StretchAt::Gap {
        from: first.start,
        to: first.from,
    })?;
    out.push(StretchAt::Tree(node))?;
    out.push(StretchAt::Gap {
        from: last.to,
        to: last.end,
    })?;
    Ok(out)
}
