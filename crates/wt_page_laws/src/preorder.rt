//! In which order the nodes of a tree are.
ghost use Rattle.std.specs.Prelude.{◌≡◌, ◌∷◌};
ghost use Rattle.std.specs.List.{flat_map, AllByRecursion};
ghost use Rattle.wt_tree.specs.Tree.{Label, Tree, tree, Trees, listed, subtrees};
ghost use Rattle.wt_tree.specs.Look.{rows};
ghost use Rattle.wt_page_laws.specs.Preorder.{row_of, StandTogether};

/// The rows of a tree are its own and then those of its children, child after child; the rows of each node
/// in it are there all together.
pub fn rows_stand_in_preorder()
    ensures own { (l : Label) → (ts : Trees) → rows (tree l ts) ≡ row_of l ∷ flat_map rows (listed ts) }
    ensures together { (t : Tree) → AllByRecursion (λ u. StandTogether u t) (subtrees t) }
{}
