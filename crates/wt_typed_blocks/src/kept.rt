//! Laws of the kept nodes of a block: where they lie in it, and what marks and groups are to their neighbours.

ghost use Rattle.std.specs.Prelude.{◌≡◌};
ghost use Rattle.std.specs.List.{AllByRecursion};
ghost use Rattle.wt_tree.specs.Tree.{Tree, label};
ghost use Rattle.wt_tree.specs.declared.edit_shape.Sort.TheVariants as sort;
ghost use Rattle.wt_tree.specs.EditShapes.{edit_shape};
ghost use Rattle.wt_original.specs.Kept.{KeptNode, found_from};
ghost use Rattle.wt_typed_blocks.specs.KeptPlaces.{LiesIn, IsToldMark, IsToldGroup};

/// Each node with a number that is found in a block lies in the block's source where it says, and in what is seen of it.
#[tactic(auto, using(crate::proofs::KeptPlaces::all_lie))]
pub fn kept_nodes_lie_in_their_block()
    ensures { (block : Tree) → AllByRecursion (LiesIn block) (found_from 0 0 block) }
{}

/// What a comment, an include tag or a group is to its neighbours is told by the source before it and after it: whether
/// it begins its line and whether it ends it. Of a group this also says what is seen of it: nothing, blanks alone, two
/// slashes, an apostrophe first or last; and whether it ends the block's content or is between equals signs.
#[tactic(auto, using(crate::proofs::KeptPlaces::mark_told, crate::proofs::GroupsTold::group_told))]
pub fn marks_and_groups_are_told_by_their_neighbours()
    ensures marks { (block : Tree) (f : KeptNode) (l : LiesIn block f) → (edit_shape (label f.node).kind).sort ≡ sort.Mark
        → IsToldMark block f l.before }
    ensures groups { (block : Tree) (f : KeptNode) (l : LiesIn block f) → (edit_shape (label f.node).kind).sort ≡ sort.Group
        → IsToldGroup block f l }
{}
