//! What holds of texts that are cut anew. The law does nothing; its clauses say what holds.

ghost use Rattle.std.specs.Prelude.{◌≡◌, false};
ghost use Rattle.wt_recut.specs.Cutting.{AreCut};
ghost use Rattle.wt_recut.specs.Recut.{joined_texts, recut};
ghost use Rattle.wt_tree.specs.Source.{flat_of_all};
ghost use Rattle.wt_tree.specs.Tree.{Trees};

/// Cutting texts and separators anew leaves the texts that they join to as they are, and so the
/// source; what is cut once stays so. Of all children that join to these texts, those alone are cut in
/// which every text and separator is as it should be.
pub fn recut_once()
    ensures joins { (ts : Trees) → joined_texts (recut ts) ≡ joined_texts ts }
    ensures again { (ts : Trees) → recut (recut ts) ≡ recut ts }
    ensures source { (ts : Trees) → flat_of_all (recut ts) ≡ flat_of_all ts }
    ensures cut { (ts : Trees) → AreCut false (recut ts) }
    ensures only { (ts rs : Trees) → AreCut false rs → joined_texts rs ≡ joined_texts ts → rs ≡ recut ts }
{}
