//! What an edit without marks leaves alone, in other words than its places (`places` of `wt_places`): of which nodes of
//! the page no place has a byte.

ghost use Rattle.std.specs.Prelude.{◌≡◌, ℕ, List, Some, slice_get, true};
ghost use Rattle.wt_checks.specs.Kept.{children};
ghost use Rattle.wt_checks.specs.Places.{page_of};
ghost use Rattle.wt_checks.specs.PutBack.{IsOneBody};
ghost use Rattle.wt_difference.specs.Unedited.{IsUnedited};
ghost use Rattle.wt_places.specs.Places.{gap_end, partner, places};
ghost use Rattle.wt_places.specs.Rewritten.{IsRewritten};
ghost use Rattle.wt_places.specs.Turns.{turns};
ghost use Rattle.wt_splice.specs.Splice.{between};
ghost use Rattle.wt_tree.specs.Tiling.{end_of};
ghost use Rattle.wt_tree.specs.Tree.{Tree, label, listed};
ghost use Rattle.wt_call_laws.specs.Untouched.{HasBytes, IsNumberedBehind, IsUntouched, IsWholePage, StaysAt};

/// Where nothing was changed in a block of the body that stays in its turn, no place of the edit has a byte of it.
pub fn unedited_blocks_have_no_place()
    ensures { (page edited : Tree) → IsWholePage page → IsOneBody edited → (i : ℕ) (v : Tree) → slice_get (listed (children edited)) i ≡ Some v
        → slice_get (turns (page_of page) 0 0 (children edited)) i ≡ Some true → IsNumberedBehind (partner (page_of page) v)
        → IsUnedited (partner (page_of page) v) v → IsUntouched (places page edited) (partner (page_of page) v) }
{}

/// The same at any depth: of an item, a row or a cell that stays in its turn in a node that does, and so on up to the
/// body. Of a cell that is what comes after its sign.
pub fn unedited_nodes_have_no_place()
    ensures { (page edited : Tree) → IsWholePage page → IsOneBody edited → (way : List ℕ) (p v : Tree) → StaysAt (page_of page) page edited way p v
        → IsNumberedBehind p → IsUnedited p v → IsUntouched (places page edited) p }
{}

/// A page that is written anew in these places alone has the bytes of each node of which no place has a byte.
pub fn untouched_bytes_stay()
    ensures { (page new : List ℕ) (tree edited p : Tree) → IsRewritten page tree edited new → IsUntouched (places tree edited) p
        → HasBytes new (between (gap_end p) (end_of (label p).ranges) page) }
{}
