ghost use Rattle.std.specs.Prelude.{◌≡◌, ℕ, Option};
ghost use Rattle.wt_tree.specs.Forgets.{LikeLabels, ShowsNothing};
ghost use Rattle.wt_tree.specs.Plain.{Plains, joined, plain, plains_before};
ghost use Rattle.wt_tree.specs.Tree.{Label, Tree, tree, Trees, more};

/// Joining neighbouring texts and leaving out empty ones is done once and for all, and a plain view
/// is joined already.
pub fn joining_once()
    ensures again { (ps : Plains) → joined (joined ps) ≡ joined ps }
    ensures plain_view { (t : Tree) → joined (plain t) ≡ plain t }
{}

/// The plain view sees neither numbers, ranges, delimiters, sources and marks of edits, nor
/// separators, marks and skips.
pub fn plain_forgets()
    ensures labels { (l m : Label) (ts : Trees) → LikeLabels l m → plain (tree l ts) ≡ plain (tree m ts) }
    ensures leaves { (t : Tree) (ts : Trees) (rest : Plains) → ShowsNothing t → plains_before (more t ts) rest ≡ plains_before ts rest }
{}
