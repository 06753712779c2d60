//! That what was changed has a place (`places` of `wt_places`), in other words than its definition.

ghost use Rattle.std.specs.Prelude.{◌≡◌, ℕ, List, Some, false, slice_get, true};
ghost use Rattle.wt_checks.specs.Kept.{children};
ghost use Rattle.wt_checks.specs.Places.{page_of};
ghost use Rattle.wt_checks.specs.PutBack.{IsOneBody};
ghost use Rattle.wt_checks.specs.Unmarked.{is_compared};
ghost use Rattle.wt_difference.specs.Difference.{same_inside};
ghost use Rattle.wt_difference.specs.Insides.{behind_inside, is_block_part};
ghost use Rattle.wt_places.specs.Places.{partner, places};
ghost use Rattle.wt_places.specs.Turns.{turns};
ghost use Rattle.wt_tree.specs.Kinds.{showing};
ghost use Rattle.wt_tree.specs.Tree.{Tree, label, listed};
ghost use Rattle.wt_call_laws.specs.Changed.{HasPlaceAt, HasPlaceIn, IsAmong, IsGone, IsSectionedPage, LeadsTo, LiesInPlace, StaysBlock, inside_of};
ghost use Rattle.wt_call_laws.specs.Untouched.{IsWholePage};

/// The inside of a block that stays in its turn is a place, where it isn't as it was.
pub fn changed_insides_are_places()
    ensures { (page edited : Tree) → IsWholePage page → IsOneBody edited → (i : ℕ) (v : Tree) → StaysBlock (page_of page) edited i v
        → is_block_part (label v).kind ≡ true → same_inside (partner (page_of page) v) v ≡ false
        → IsAmong (inside_of (partner (page_of page) v)) (places page edited) }
{}

/// A block that shows something and doesn't stay in its turn, since it is new or moved, has a place between those that do.
pub fn what_comes_has_a_place()
    ensures { (page edited : Tree) → IsWholePage page → IsOneBody edited → (i : ℕ) (v : Tree) → slice_get (listed (children edited)) i ≡ Some v
        → slice_get (turns (page_of page) 0 0 (children edited)) i ≡ Some false → is_compared (showing (label v).kind) ≡ true
        → HasPlaceAt (page_of page) edited i (places page edited) }
{}

/// A block of the page that shows something and doesn't stay, since it was removed or counts as moved, lies in one place.
pub fn what_goes_lies_in_a_place()
    ensures { (page edited x : Tree) → IsSectionedPage page → IsOneBody edited → IsGone page edited x → LiesInPlace x (places page edited) }
{}

/// The same at any depth: the inside of an item, a term, a cell or another node that stays in its turn is a place, where
/// it isn't as it was and what holds it stays in its turn, too, and so on up to the body.
pub fn changed_insides_in_nodes_are_places()
    ensures { (page edited : Tree) → IsWholePage page → IsOneBody edited → (way : List ℕ) (p v : Tree) → LeadsTo (page_of page) page edited way p v
        → same_inside p v ≡ false → IsAmong (inside_of p) (places page edited) }
{}

/// In such a node, too, what shows something and doesn't stay in its turn there has a place between those children that
/// do: an item that comes into a list, a row into a table, a cell into a row, a block into an item or a cell.
pub fn what_comes_into_nodes_has_a_place()
    ensures { (page edited : Tree) → IsWholePage page → IsOneBody edited → (way : List ℕ) (p v : Tree) → LeadsTo (page_of page) page edited way p v
        → (i : ℕ) (c : Tree) → slice_get (listed (behind_inside v)) i ≡ Some c
        → slice_get (turns (page_of page) (label p).id 0 (behind_inside v)) i ≡ Some false → is_compared (showing (label c).kind) ≡ true
        → HasPlaceIn (page_of page) p v i (places page edited) }
{}
