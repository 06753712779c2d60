//! Laws of nodes that are moved: what comes before a node changes its number and its place, and nothing else.

ghost use Rattle.std.specs.Prelude.{◌≡◌, ℕ, List};
ghost use Rattle.wt_span.specs.Items.{Item, sources};
ghost use Rattle.wt_tree.specs.Plain.{Plains, plain_before};
ghost use Rattle.wt_tree.specs.Source.{flat};
ghost use Rattle.wt_inline.specs.ItemTree.{ItemTree, tree_items};
ghost use Rattle.wt_annotated.specs.Annotated.{unplaced};
ghost use Rattle.wt_part_laws.specs.Standing.{IsOrdinary, standing};

/// A node of a page without calls shows the same whatever its number and its place are, and its source is that of
/// its items. If neither a body nor a section nor a group is among its nodes, none is at any other place either.
#[tactic(auto, using(crate::proofs::Moved::shows_the_same, crate::proofs::Ordinary::standing_ordinary, crate::proofs::Sources::standing_source))]
pub fn moved_nodes_stay_the_same()
    ensures shown { (n m : ℕ) (before after : List Item) (t : ItemTree) (rest : Plains)
        → plain_before (standing n before t) rest ≡ plain_before (standing m after t) rest }
    ensures ordinary { (n : ℕ) (before : List Item) (t : ItemTree) → IsOrdinary (unplaced t) → IsOrdinary (standing n before t) }
    ensures source { (n : ℕ) (before : List Item) (t : ItemTree) → flat (standing n before t) ≡ sources (tree_items t) }
{}
