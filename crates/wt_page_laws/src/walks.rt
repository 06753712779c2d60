//! How far a walk through a tree has come.
ghost use Rattle.std.specs.Prelude.{◌≡◌, ℕ, List, ◌++◌, Option};
ghost use Rattle.wt_span.specs.Items.{Item, items};
ghost use Rattle.wt_span.specs.Origins.{OuterCall};
ghost use Rattle.wt_inline.specs.ItemTree.{forest, tree_items, held_by_all};
ghost use Rattle.wt_inline.specs.View.{item_tree, item_trees};
ghost use Rattle.wt_inline.specs.declared.tree.PieceTree.{PieceTree, out-PieceTree};
ghost use Rattle.wt_annotated.specs.declared.page_text.Progress.{Progress};
ghost use Rattle.wt_annotated.specs.Progress.{outset, past};
ghost use Rattle.wt_annotated.specs.TreeWalk.{HasLasts, HasWidths};
ghost use Rattle.wt_annotated.specs.declared.tree_walk.TreeProgress.{TreeProgress};

/// A walk through a tree has come as far as one over its items: those of its opening, of its opening and its
/// inside, and all. A walk over some items and then others is one over both.
pub fn walks_go_over_their_items()
    ensures opened { (calls : List OuterCall) → (o : Option ℕ) → (n : PieceTree) → (w : TreeProgress) → HasLasts o n w → HasWidths calls o n w → w.opened ≡ past calls (outset o) (items (out-PieceTree n).opening) }
    ensures filled { (calls : List OuterCall) → (o : Option ℕ) → (n : PieceTree) → (w : TreeProgress) → HasLasts o n w → HasWidths calls o n w → w.filled ≡ past calls (outset o) (items (out-PieceTree n).opening ++ held_by_all (forest (item_trees (out-PieceTree n).children))) }
    ensures closed { (calls : List OuterCall) → (o : Option ℕ) → (n : PieceTree) → (w : TreeProgress) → HasLasts o n w → HasWidths calls o n w → w.closed ≡ past calls (outset o) (tree_items (item_tree n)) }
    ensures joined { (calls : List OuterCall) → (p : Progress) → (xs ys : List Item) → past calls p (xs ++ ys) ≡ past calls (past calls p xs) ys }
{}
