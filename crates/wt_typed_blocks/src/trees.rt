//! Laws of the trees of edits (`wt_selser`), in other words than the definitions that its contracts cite: what
//! is in leaves, and what is outside them.

ghost use Rattle.std.specs.Prelude.{◌≡◌, ◌↔◌, false};
ghost use Rattle.std.specs.List.{AllByRecursion};
ghost use Rattle.wt_checks.specs.PutBack.{is_frame};
ghost use Rattle.wt_selser.specs.Leaves.{HoldsNoFrame, LeavesHoldNoNumber};
ghost use Rattle.wt_tree.specs.Tree.{Tree, label, subtrees};
ghost use Rattle.wt_typed_blocks.specs.Below.{IsUnnumberedInside, below};

/// That leaves hold no number is said of each node of the tree by itself: if it is a leaf, each node below it
/// has the number 0.
pub fn leaves_are_told_one_by_one()
    ensures { (t : Tree) → (LeavesHoldNoNumber t) ↔ (AllByRecursion IsUnnumberedInside (subtrees t)) }
{}

/// That no frame is below the root is said of each node that is below it and in no leaf: it is neither
/// a body nor a section. Of the root itself nothing is said.
pub fn frames_are_told_one_by_one()
    ensures { (t : Tree) → (HoldsNoFrame t) ↔ (AllByRecursion (λ u. is_frame (label u).kind ≡ false) (below t)) }
{}
