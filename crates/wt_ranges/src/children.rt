//! The children of a node that is kept: where each begins, whether the cut before it is free, and
//! whether it is clean.

ghost use Rattle.std.specs.Prelude.{
  ◌≡◌,
  ◌+◌,
  ◌^◌,
  ◌<◌,
  ◌&&◌,
  ◌||◌,
  length,
  map,
  reverse,
  true,
  IfOk,
};
ghost use Rattle.std.specs.List.{list_all};
ghost use Rattle.wt_tree.specs.Kinds.{is_leaf};
ghost use Rattle.wt_span.specs.Items.{items};
ghost use Rattle.wt_inline.specs.ItemTree.{forest, tree_items, held_by_all};
ghost use Rattle.wt_inline.specs.View.{item_tree, item_trees};
ghost use Rattle.wt_inline.specs.declared.tree.PieceTree.{out-PieceTree};
ghost use Rattle.wt_runs.specs.Children.{children_at, nears_of};
ghost use Rattle.wt_ranges.specs.Followers.{tree_after, trees_after};
ghost use Rattle.wt_annotated.specs.Clean.{is_body, is_page, own_by};
ghost use Rattle.wt_annotated.specs.Pieces.{outer_calls};
ghost use Rattle.wt_annotated.specs.Seams.{first_of, last_of, parted, text_from};
ghost use Rattle.wt_annotated.specs.TreeWalk.{HasLasts};
ghost use Rattle.wt_annotated.specs.Walked.{clean_at, free_places};

use crate::tree_seam::{are_trees_of_page, first_call_of, first_call_of_all, holds_page_item};
use std::alloc::Global;
use wt_annotated::{TreeProgress, are_of_page, first_call, is_parted, walk_through};
use wt_inline::{PieceTree, with_room};
use wt_runs::Child;
use wt_span::{List, NoMemory, Outer};
use wt_tree::Kind;

/// A tree with the call of the first item after it.
#[derive(Drop)]
struct Followed<'a> {
    tree: PieceTree<'a>,
    after: Option<u32>,
}

/// What is found of a child by reading what it holds: the call of the last item up to its end, how
/// many bytes of the page stand for it, whether the cut before it is free, and whether it is clean.
#[derive(Clone, Copy)]
struct Findings {
    last: Option<u32>,
    width: u32,
    free: bool,
    clean: bool,
}

/// Whether the four cuts of a node are free, which is between items of these calls.
fn has_free_places(
    before: Option<u32>,
    after: Option<u32>,
    tree: &PieceTree<'_>,
    walk: TreeProgress,
) -> bool
    requires { HasLasts before tree.now walk }
    ensures { result ≡ free_places before (items (out-PieceTree tree.now).opening)
        (held_by_all (forest (item_trees (out-PieceTree tree.now).children))) (items (out-PieceTree tree.now).closing) after }
{
    let behind_inside = first_call(tree.closing.as_slice(), after);
    let behind_opening = first_call_of_all(tree.children.as_slice(), behind_inside);
    let first = first_call(tree.opening.as_slice(), behind_opening);
    if !is_parted(before, first) || !is_parted(walk.opened.last, behind_opening) {
        return false;
    }
    is_parted(walk.filled.last, behind_inside) && is_parted(walk.closed.last, after)
}

/// Whether a node's own items are the page's: its delimiters, or all of a leaf.
fn has_own_of_page(tree: &PieceTree<'_>) -> bool
    ensures { result ≡ list_all is_page (own_by (is_leaf (out-PieceTree tree.now).head.kind) (items (out-PieceTree tree.now).opening)
        (held_by_all (forest (item_trees (out-PieceTree tree.now).children))) (items (out-PieceTree tree.now).closing)) }
{
    if tree.head.kind.is_leaf() && !are_trees_of_page(tree.children.as_slice()) {
        return false;
    }
    are_of_page(tree.opening.as_slice()) && are_of_page(tree.closing.as_slice())
}

fn is_body(kind: Kind) -> bool
    ensures { result ≡ is_body kind }
{
    match kind {
        Kind::Body => true,
        _ => false,
    }
}

/// Whether a node is clean that is between items of these calls.
fn is_clean(
    before: Option<u32>,
    after: Option<u32>,
    tree: &PieceTree<'_>,
    walk: TreeProgress,
) -> bool
    requires { HasLasts before tree.now walk }
    ensures { result ≡ clean_at before after (item_tree tree.now) }
{
    if !has_free_places(before, after, tree, walk) || !has_own_of_page(tree) {
        return false;
    }
    is_body(tree.head.kind) || holds_page_item(tree)
}

/// Reads what a child holds that is between items of these calls.
fn read_child<'a>(
    calls: &[Outer<'a>],
    tree: &PieceTree<'a>,
    before: Option<u32>,
    after: Option<u32>,
) -> Findings
    requires { length (text_from (outer_calls calls.now) before (tree_items (item_tree tree.now))) < 2 ^ 32 }
    ensures last { result.last ≡ last_of before (tree_items (item_tree tree.now)) }
    ensures width { result.width ≡ length (text_from (outer_calls calls.now) before (tree_items (item_tree tree.now))) }
    ensures free { result.free ≡ parted before (first_of (tree_items (item_tree tree.now)) after) }
    ensures clean { result.clean ≡ clean_at before after (item_tree tree.now) }
{
    let walk = walk_through(calls, before, tree);
    Findings {
        last: walk.closed.last,
        width: walk.closed.width,
        free: is_parted(before, first_call_of(tree, after)),
        clean: is_clean(before, after, tree, walk),
    }
}

/// Trees with the call of the first item after each, from the last tree to the first.
fn with_followers<'a>(
    alloc: Global,
    trees: List<PieceTree<'a>>,
    after: Option<u32>,
) -> Result<Vec<Followed<'a>>, NoMemory>
    ensures { IfOk result (λ fs. reverse (map tree_after fs.items) ≡ trees_after (item_trees trees.entry) after) }
{
    let mut trees = trees.into_vec();
    let mut followed = Vec::new(alloc);
    let mut after = after;
    while let Some(tree) = trees.pop() {
        let first = first_call_of(&tree, after);
        followed.push(Followed { tree, after })?;
        after = first;
    }
    Ok(followed)
}

/// The children of a node, of which the first begins after an item of the call `before` and at
/// `byte`, and the last ends before an item of the call `after`.
pub fn children<'a>(
    alloc: Global,
    calls: &[Outer<'a>],
    trees: List<PieceTree<'a>>,
    before: Option<u32>,
    byte: u32,
    after: Option<u32>,
) -> Result<List<Child<'a>>, NoMemory>
    requires { byte + length (text_from (outer_calls calls.now) before (held_by_all (forest (item_trees trees)))) < 2 ^ 32 }
    ensures { IfOk result (λ cs. nears_of (outer_calls calls.now) cs ≡ children_at (outer_calls calls.now) before byte after (item_trees trees.entry)) }
{
    let mut followed = with_followers(alloc, trees, after)?;
    let mut children = with_room(alloc, followed.len())?;
    let mut last = before;
    let mut at = byte;
    while let Some(Followed { tree, after }) = followed.pop() {
        let found = read_child(calls, &tree, last, after);
        let child = Child {
            tree,
            before: last,
            after,
            byte: at,
            free: found.free,
            clean: found.clean,
        };
        children.push(child)?;
        last = found.last;
        at += found.width;
    }
    Ok(children)
}
