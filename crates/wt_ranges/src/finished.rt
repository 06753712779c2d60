//! Nodes with their numbers and their texts cut anew, once what they hold has these.

ghost use Rattle.std.specs.Prelude.{◌≡◌, ◌+◌, ◌^◌, ◌<◌, All, IfOk, Some, true};
ghost use Rattle.wt_span.specs.Origins.{IsSoundCall};
ghost use Rattle.wt_tree.specs.Kinds.{is_leaf, texts_of_kind};
ghost use Rattle.wt_tree.specs.Tree.{label, tree};
ghost use Rattle.wt_tree.specs.View.{texts_of, view, views};
ghost use Rattle.wt_inline.specs.View.{head_of};
ghost use Rattle.wt_inline.specs.declared.tree.PieceTree.{out-PieceTree};
ghost use Rattle.wt_annotated.specs.CutTexts.{cut_as};
ghost use Rattle.wt_annotated.specs.GroupData.{group_data};
ghost use Rattle.wt_annotated.specs.Nodes.{node_label};
ghost use Rattle.wt_annotated.specs.Numbering.{count, next_after};
ghost use Rattle.wt_annotated.specs.Pieces.{outer_calls};
ghost use Rattle.wt_annotated.specs.Walked.{near_group};
ghost use Rattle.wt_runs.specs.Children.{near_of, nears_of};
ghost use Rattle.wt_ranges.specs.Finished.{IsFinished, with_number};
ghost use Rattle.wt_ranges.specs.Kept.{Fits, NearsFit};

use crate::group_node::group_node;
use crate::kept::{Frame, kept_inner, kept_leaf};
use std::alloc::Global;
use wt_annotated::{cut_as, next_after, number_of};
use wt_inline::NodeHead;
use wt_runs::Child;
use wt_span::{List, NoMemory, Outer};
use wt_tree::Node;

/// A node with all its numbers, and the next number after it.
#[derive(Drop)]
pub struct Finished<'a> {
    pub node: Node<'a>,
    pub next: u32,
}

/// Nodes with all their numbers, and the next number after them.
#[derive(Drop)]
pub struct AllFinished<'a> {
    pub nodes: List<Node<'a>>,
    pub next: u32,
}

/// A node with a number of its own, where the next one is this.
#[tactic(auto, using(wt_tree::proofs::Views::view_out))]
fn with_number<'a>(node: Node<'a>, next: u32) -> Node<'a>
    ensures { view result ≡ with_number next (view node.entry) }
{
    let id = number_of(node.kind, next);
    Node { id, ..node }
}

/// A node without children that are numbered, with its number.
#[tactic(auto, using(wt_tree::proofs::Views::view_out))]
fn alone<'a>(node: Node<'a>, next: u32) -> Finished<'a>
    requires { next_after (label (view node)).kind next < 2 ^ 32 }
    ensures tree { view result.node ≡ with_number next (view node.entry) }
    ensures number { result.next ≡ next_after (label (view node.entry)).kind next }
{
    let behind = next_after(node.kind, next);
    Finished {
        node: with_number(node, next),
        next: behind,
    }
}

/// A leaf that is kept.
pub fn finished_leaf<'a>(
    alloc: Global,
    calls: &[Outer<'a>],
    child: Child<'a>,
    next: u32,
) -> Result<Finished<'a>, NoMemory>
    requires leaf { is_leaf (out-PieceTree child.tree).head.kind ≡ true }
    requires fits { Fits (outer_calls calls.now) child }
    requires number { next + count (near_of (outer_calls calls.now) child).whole < 2 ^ 32 }
    ensures { IfOk result (λ m. IsFinished next (near_of (outer_calls calls.now) child.entry).whole (view m.node) m.next) }
{
    let leaf = kept_leaf(alloc, calls, child)?;
    Ok(alone(leaf, next))
}

/// The group of these children.
pub fn finished_group<'a>(
    alloc: Global,
    calls: &[Outer<'a>],
    children: List<Child<'a>>,
    next: u32,
) -> Result<Finished<'a>, NoMemory>
    requires sound { All IsSoundCall (outer_calls calls.now) }
    requires fit { NearsFit (outer_calls calls.now) (nears_of (outer_calls calls.now) children) }
    requires number { next + count (near_group (outer_calls calls.now) (group_data (outer_calls calls.now))
        (nears_of (outer_calls calls.now) children)) < 2 ^ 32 }
    ensures { IfOk result (λ m. IsFinished next (near_group (outer_calls calls.now) (group_data (outer_calls calls.now))
        (nears_of (outer_calls calls.now) children.entry)) (view m.node) m.next) }
{
    let group = group_node(alloc, calls, children)?;
    Ok(alone(group, next))
}

/// A node that is kept, round children that are finished, in its frame.
pub fn finished_inner<'a>(
    alloc: Global,
    frame: Frame<'a>,
    head: NodeHead<'a>,
    inside: AllFinished<'a>,
    next: u32,
) -> Result<Finished<'a>, NoMemory>
    ensures tree { IfOk result (λ m. view m.node ≡ with_number next (tree (node_label (head_of head.entry) (Some frame.entry.ranges)
        (texts_of frame.entry.sources.opening) (texts_of frame.entry.sources.closing) (texts_of frame.entry.sources.own))
        (cut_as (texts_of_kind head.entry.kind) (views inside.entry.nodes)))) }
    ensures number { IfOk result (λ m. m.next ≡ inside.entry.next) }
{
    let nodes = cut_as(alloc, head.kind, inside.nodes)?;
    let node = kept_inner(alloc, frame, head, nodes)?;
    Ok(Finished {
        node: with_number(node, next),
        next: inside.next,
    })
}
