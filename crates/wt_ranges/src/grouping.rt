//! Grouping: from a tree over items to its tree with groups, places and numbers, its texts cut anew.

ghost use Rattle.std.specs.Prelude.{◌≡◌, ◌+◌, ◌^◌, ◌<◌, length, map, All, IfOk};
ghost use Rattle.std.specs.List.{AllByRecursion};
ghost use Rattle.wt_span.specs.Cuts.{page_of};
ghost use Rattle.wt_span.specs.Origins.{IsSoundCall};
ghost use Rattle.wt_tree.specs.Kinds.{is_leaf};
ghost use Rattle.wt_tree.specs.Tree.{trees};
ghost use Rattle.wt_tree.specs.View.{view, views};
ghost use Rattle.wt_inline.specs.ItemTree.{tree_items};
ghost use Rattle.wt_inline.specs.View.{item_tree};
ghost use Rattle.wt_inline.specs.declared.tree.PieceTree.{out-PieceTree};
ghost use Rattle.wt_annotated.specs.Annotated.{annotated};
ghost use Rattle.wt_runs.specs.Children.{near_of};
ghost use Rattle.wt_annotated.specs.Counted.{numbered};
ghost use Rattle.wt_annotated.specs.CutTexts.{cut_texts};
ghost use Rattle.wt_annotated.specs.GroupData.{group_data};
ghost use Rattle.wt_ranges.specs.Finished.{AreFinished, IsFinished};
ghost use Rattle.wt_ranges.specs.Kept.{Fits, RunFits};
ghost use Rattle.wt_annotated.specs.Labels.{width};
ghost use Rattle.wt_annotated.specs.Made.{annotated_at};
ghost use Rattle.wt_ranges.specs.OpenedChild.{IsOpened};
ghost use Rattle.wt_annotated.specs.Numbering.{count, count_all};
ghost use Rattle.wt_annotated.specs.NumbersNeeded.{numbers_needed};
ghost use Rattle.wt_annotated.specs.Pieces.{outer_calls};
ghost use Rattle.wt_runs.specs.RunTrees.{run_tree};

use crate::children::children;
use crate::finished::{AllFinished, Finished, finished_group, finished_inner, finished_leaf};
use crate::kept::{Frame, inner_frame};
use std::alloc::Global;
use wt_annotated::{Cursor, annotated_node, is_filled, next_after};
use wt_inline::{NodeHead, PieceTree, with_room};
use wt_runs::{Child, Run, cut_runs};
use wt_span::{List, NoMemory, Outer};
use wt_tree::Node;

/// A node that is kept and has an inside: its frame, its head, and its children in runs.
#[derive(Drop)]
struct Opened<'a> {
    frame: Frame<'a>,
    head: NodeHead<'a>,
    runs: List<Run<'a>>,
}

fn open_child<'a>(
    alloc: Global,
    calls: &[Outer<'a>],
    child: Child<'a>,
) -> Result<Opened<'a>, NoMemory>
    requires { Fits (outer_calls calls.now) child }
    ensures { IfOk result (λ o. IsOpened (outer_calls calls.now) child.entry o) }
{
    let Frame {
        ranges,
        sources,
        before,
        byte,
        after,
    } = inner_frame(alloc, calls, &child)?;
    let Child { tree, .. } = child;
    let PieceTree {
        head,
        opening: _,
        children: trees,
        closing: _,
    } = tree;
    let inside = children(alloc, calls, trees, before, byte, after)?;
    let runs = cut_runs(alloc, inside)?;
    let frame = Frame {
        ranges,
        sources,
        before,
        byte,
        after,
    };
    Ok(Opened { frame, head, runs })
}

fn is_leaf(child: &Child<'_>) -> bool
    ensures { result ≡ is_leaf (out-PieceTree child.now.tree).head.kind }
{
    child.tree.head.kind.is_leaf()
}

/// The nodes of runs of children, where the next number is this.
#[cycle(grouping)]
fn run_nodes<'a>(
    alloc: Global,
    calls: &[Outer<'a>],
    runs: List<Run<'a>>,
    next: u32,
) -> Result<AllFinished<'a>, NoMemory>
    requires sound { All IsSoundCall (outer_calls calls.now) }
    requires fit { AllByRecursion (RunFits (outer_calls calls.now)) runs }
    requires number { next + count_all (trees (map (run_tree (outer_calls calls.now)) runs)) < 2 ^ 32 }
    ensures { IfOk result (λ m. AreFinished next (trees (map (run_tree (outer_calls calls.now)) runs.entry)) (views m.nodes) m.next) }
{
    let mut nodes = with_room(alloc, runs.len())?;
    let mut behind = next;
    for run in runs.into_vec() {
        let made = run_node(alloc, calls, run, behind)?;
        behind = made.next;
        nodes.push(made.node)?;
    }
    Ok(AllFinished {
        nodes,
        next: behind,
    })
}

/// A clean child by itself, or a group.
#[cycle(grouping)]
fn run_node<'a>(
    alloc: Global,
    calls: &[Outer<'a>],
    run: Run<'a>,
    next: u32,
) -> Result<Finished<'a>, NoMemory>
    requires sound { All IsSoundCall (outer_calls calls.now) }
    requires fits { RunFits (outer_calls calls.now) run }
    requires number { next + count (run_tree (outer_calls calls.now) run) < 2 ^ 32 }
    ensures { IfOk result (λ m. IsFinished next (run_tree (outer_calls calls.now) run.entry) (view m.node) m.next) }
{
    match run {
        Run::Alone(child) => kept_node(alloc, calls, child, next),
        Run::Group(children) => finished_group(alloc, calls, children, next),
    }
}

/// A node that is kept, with its groups, its numbers and its texts cut anew.
#[cycle(grouping)]
fn kept_node<'a>(
    alloc: Global,
    calls: &[Outer<'a>],
    child: Child<'a>,
    next: u32,
) -> Result<Finished<'a>, NoMemory>
    requires sound { All IsSoundCall (outer_calls calls.now) }
    requires fits { Fits (outer_calls calls.now) child }
    requires number { next + count (near_of (outer_calls calls.now) child).whole < 2 ^ 32 }
    ensures { IfOk result (λ m. IsFinished next (near_of (outer_calls calls.now) child.entry).whole (view m.node) m.next) }
{
    if is_leaf(&child) {
        return finished_leaf(alloc, calls, child, next);
    }
    let Opened { frame, head, runs } = open_child(alloc, calls, child)?;
    let first = next_after(head.kind, next);
    let inside = run_nodes(alloc, calls, runs, first)?;
    finished_inner(alloc, frame, head, inside, next)
}

/// The annotated tree where some nodes may be groups.
fn with_groups<'a>(
    alloc: Global,
    calls: &[Outer<'a>],
    tree: PieceTree<'a>,
) -> Result<Node<'a>, NoMemory>
    requires sound { All IsSoundCall (outer_calls calls.now) }
    requires bytes { length (page_of (outer_calls calls.now) (tree_items (item_tree tree))) < 2 ^ 32 }
    requires numbers { 1 + numbers_needed (outer_calls calls.now) (item_tree tree) < 2 ^ 32 }
    ensures { IfOk result (λ n. view n ≡ annotated (outer_calls calls.now) (group_data (outer_calls calls.now)) (item_tree tree.entry)) }
{
    let body = Child {
        tree,
        before: None,
        after: None,
        byte: 0,
        free: true,
        clean: true,
    };
    let made = kept_node(alloc, calls, body, 1)?;
    Ok(made.node)
}

/// The annotated tree where no node is a group, in one pass.
fn without_groups<'a>(alloc: Global, tree: PieceTree<'a>) -> Result<Node<'a>, NoMemory>
    requires bytes { width (tree_items (item_tree tree)) < 2 ^ 32 }
    requires numbers { 1 + numbered (item_tree tree) < 2 ^ 32 }
    ensures { IfOk result (λ n. view n ≡ cut_texts (annotated_at 0 1 (item_tree tree.entry))) }
{
    let start = Cursor { place: 0, next: 1 };
    let made = annotated_node(alloc, tree, start)?;
    Ok(made.node)
}

/// The annotated tree of a tree over items, whose outermost calls these are.
pub fn group_tree<'a>(
    alloc: Global,
    calls: &[Outer<'a>],
    tree: PieceTree<'a>,
) -> Result<Node<'a>, NoMemory>
    requires sound { All IsSoundCall (outer_calls calls.now) }
    requires bytes { length (page_of (outer_calls calls.now) (tree_items (item_tree tree))) < 2 ^ 32 }
    requires numbers { 1 + numbers_needed (outer_calls calls.now) (item_tree tree) < 2 ^ 32 }
    ensures { IfOk result (λ n. view n ≡ annotated (outer_calls calls.now) (group_data (outer_calls calls.now)) (item_tree tree.entry)) }
{
    if is_filled(&tree) {
        return without_groups(alloc, tree);
    }
    with_groups(alloc, calls, tree)
}
