//! Laws of the places in which a page may be written anew (`wt_places`), in other words than their definitions. Here are
//! those of the edited children that stay in their turn (`turns`): as many as can, so that the fewest count as moved, and
//! of several choices of as many the one with the first children.

ghost use Rattle.std.specs.Prelude.{◌≡◌, ◌≤◌, ℕ, List, Bool};
ghost use Rattle.wt_checks.specs.Places.{Page};
ghost use Rattle.wt_places.specs.Turns.{turns};
ghost use Rattle.wt_tree.specs.Tree.{Trees};
ghost use Rattle.wt_call_laws.specs.Choices.{IsFirstOfMost, IsRising, TakesFirst, moved, taken, those_that_may_stay};

/// Each child that stays in its turn may stay, and their numbers rise.
pub fn turns_rise()
    ensures { (page : Page) (holder n : ℕ) (us : Trees) → IsRising page holder n (turns page holder n us) us }
{}

/// No choice of children that rises takes more than stay in their turn.
pub fn no_choice_takes_more()
    ensures { (page : Page) (holder n : ℕ) (choice : List Bool) (us : Trees) → IsRising page holder n choice us → taken choice ≤ taken (turns page holder n us) }
{}

/// So with no choice that rises fewer children count as moved. Where one child was moved up or down among others,
/// at most one counts as moved: the choice of all others rises.
pub fn fewest_count_as_moved()
    ensures { (page : Page) (holder n : ℕ) (choice : List Bool) (us : Trees) → IsRising page holder n choice us → moved page holder (turns page holder n us) us ≤ moved page holder choice us }
{}

/// Where the children that may stay rise already, all of them stay in their turn: nothing counts as moved where
/// nothing moved.
pub fn children_in_order_stay()
    ensures { (page : Page) (holder n : ℕ) (us : Trees) → IsRising page holder n (those_that_may_stay page holder us) us → turns page holder n us ≡ those_that_may_stay page holder us }
{}

/// At the first child in which another choice that rises and takes as many differs, this child stays in its turn,
/// and the other choice doesn't take it.
pub fn first_children_stay()
    ensures { (page : Page) (holder n : ℕ) (choice : List Bool) (us : Trees) → IsRising page holder n choice us → taken choice ≡ taken (turns page holder n us) → TakesFirst (turns page holder n us) choice }
{}

/// Nothing else is such a choice: one that rises, takes the most and of these the first is that of the children
/// that stay in their turn.
pub fn no_other_choice_is_first_of_most()
    ensures { (page : Page) (holder n : ℕ) (choice : List Bool) (us : Trees) → IsFirstOfMost page holder n choice us → choice ≡ turns page holder n us }
{}
