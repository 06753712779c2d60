//! Trees read piece by piece, without a list of their pieces.

ghost use Rattle.std.specs.Prelude.{◌≡◌, ◌^◌, ◌<◌, length};
ghost use Rattle.wt_inline.specs.ItemTree.{forest, tree_items, held_by_all};
ghost use Rattle.wt_inline.specs.View.{item_tree, item_trees};
ghost use Rattle.wt_annotated.specs.Pieces.{outer_calls};
ghost use Rattle.wt_annotated.specs.Progress.{past};
ghost use Rattle.wt_annotated.specs.Seams.{text_from};
ghost use Rattle.wt_annotated.specs.TreeWalk.{HasLasts, HasWidths};

use crate::page_text::{Progress, outset, past_pieces};
use wt_inline::PieceTree;
use wt_span::Outer;

/// How far a walk through a tree has come: at the end of its opening, of its inside and of all.
#[derive(Clone, Copy)]
pub struct TreeProgress {
    pub opened: Progress,
    pub filled: Progress,
    pub closed: Progress,
}

/// How far a walk has come with a tree.
#[cycle(walking)]
fn past_tree<'a>(calls: &[Outer<'a>], from: Progress, tree: &PieceTree<'a>) -> Progress
    requires { (past (outer_calls calls.now) from (tree_items (item_tree tree.now))).width < 2 ^ 32 }
    ensures { result ≡ past (outer_calls calls.now) from (tree_items (item_tree tree.now)) }
{
    let opened = past_pieces(calls, from, tree.opening.as_slice());
    let filled = past_trees(calls, opened, tree.children.as_slice());
    past_pieces(calls, filled, tree.closing.as_slice())
}

/// How far a walk has come with more trees.
#[cycle(walking)]
fn past_trees<'a>(calls: &[Outer<'a>], from: Progress, trees: &[PieceTree<'a>]) -> Progress
    requires { (past (outer_calls calls.now) from (held_by_all (forest (item_trees trees.now)))).width < 2 ^ 32 }
    ensures { result ≡ past (outer_calls calls.now) from (held_by_all (forest (item_trees trees.now))) }
{
    let mut at = from;
    for tree in trees {
        at = past_tree(calls, at, tree);
    }
    at
}

/// A walk through a tree, after an item of the call `before`.
pub fn walk_through<'a>(
    calls: &[Outer<'a>],
    before: Option<u32>,
    tree: &PieceTree<'a>,
) -> TreeProgress
    requires { length (text_from (outer_calls calls.now) before (tree_items (item_tree tree.now))) < 2 ^ 32 }
    ensures lasts { HasLasts before tree.now result }
    ensures widths { HasWidths (outer_calls calls.now) before tree.now result }
{
    let opened = past_pieces(calls, outset(before), tree.opening.as_slice());
    let filled = past_trees(calls, opened, tree.children.as_slice());
    let closed = past_pieces(calls, filled, tree.closing.as_slice());
    TreeProgress {
        opened,
        filled,
        closed,
    }
}
