//! Laws of what bodies show, which do nothing when they are called.

ghost use Rattle.std.specs.Prelude.{◌≡◌, ℕ, List, Option, None};
ghost use Rattle.wt_tree.specs.Plain.{Plain};
ghost use Rattle.wt_original.specs.Page.{TellsSame};
ghost use Rattle.wt_tree.specs.Tree.{Tree};
ghost use Rattle.wt_checks.specs.WithoutMarks.{unmarked};
ghost use Rattle.wt_visible.specs.Children.{IsFirstDiffering, differing, shown_children};
ghost use Rattle.wt_visible.specs.Restored.{restored_from};
ghost use Rattle.wt_visible.specs.SameNodes.{same_node};

/// There is a test that tells nodes of one kind with one plain view, and it can be computed.
#[tactic(auto, using(crate::proofs::SameTells::tells_same))]
pub fn nodes_are_told()
    ensures { TellsSame same_node }
{}

/// The first child in which two bodies differ can be computed; if there is none, they show the same.
pub fn differing_is_first()
    ensures told { (xs ys : List Plain) → (r : Option ℕ) → IsFirstDiffering xs ys r → r ≡ differing 1 xs ys }
    ensures same { (xs ys : List Plain) → differing 1 xs ys ≡ None → xs ≡ ys }
{}

/// Marks count for nothing in what an edited tree of a page shows.
pub fn marks_show_nothing()
    ensures { (page edited : Tree) → shown_children (restored_from page edited) ≡ shown_children (restored_from page (unmarked edited)) }
{}
