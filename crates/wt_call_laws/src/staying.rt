//! Which edited children may stay (`may_stay` of `wt_places`), in other words than its definition.

ghost use Rattle.std.specs.Prelude.{◌≡◌, ℕ, true};
ghost use Rattle.std.specs.List.{AllByRecursion};
ghost use Rattle.wt_checks.specs.BareSections.{HasBareSections};
ghost use Rattle.wt_checks.specs.Kept.{children};
ghost use Rattle.wt_checks.specs.Places.{page_of, places};
ghost use Rattle.wt_difference.specs.Unedited.{AreUnedited};
ghost use Rattle.wt_places.specs.Turns.{may_stay, turns};
ghost use Rattle.wt_tree.specs.Opened.{opened};
ghost use Rattle.wt_tree.specs.Tiling.{InPreorder};
ghost use Rattle.wt_tree.specs.Tree.{Tree, label};
ghost use Rattle.wt_tree.specs.declared.kind.Kind.TheVariants as kind;
ghost use Rattle.wt_call_laws.specs.Sent.{IsOf, StaysThere, those_that_show};
ghost use Rattle.wt_call_laws.specs.Untouched.{AreNumbered};

/// Each node of a page that has a number may stay in the node that holds it, where it is sent with its number, kind and
/// attributes.
pub fn own_nodes_may_stay()
    ensures { (page : Tree) → (label page).kind ≡ kind.Body → InPreorder page → AllByRecursion (StaysThere (page_of page)) (places page) }
{}

/// Nothing else may stay.
pub fn only_own_nodes_may_stay()
    ensures { (page : Tree) (holder : ℕ) (v : Tree) → may_stay (page_of page) holder v ≡ true → IsOf (page_of page) holder v }
{}

/// Where the body's blocks are the page's own, each that shows something stays in its turn: nothing moved.
pub fn unmoved_blocks_stay()
    ensures { (page edited : Tree) → (label page).kind ≡ kind.Body → InPreorder page → HasBareSections page
        → AreNumbered (opened (children page)) → AreUnedited (opened (children page)) (children edited)
        → turns (page_of page) 0 0 (children edited) ≡ those_that_show (children edited) }
{}
