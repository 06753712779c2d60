//! What a folder was asked for.
ghost use Rattle.std.specs.Prelude.{◌≡◌, ◌⊎◌, ◌↔◌, ℕ, ◌≤◌, List, Option, Some, None, length, take};
ghost use Rattle.wt_transclusion.specs.Asked.{AreFirst, Asks, AsksAtMost};

/// Names that were asked are as they were in front of those that are asked later, and the most bytes
/// that were asked are those of before or at most the new ones. What is asked in two calls, one after the
/// other, is asked by both.
pub fn asked_names_stay()
    ensures told { (names all : List (List ℕ)) → (AreFirst (Some names) (Some all)) ↔ (take (length names) all ≡ names) }
    ensures untold { (all : Option (List (List ℕ))) → (AreFirst None all) ↔ (all ≡ None) }
    ensures most { (most before after : ℕ) → (AsksAtMost most (Some before) (Some after)) ↔ ((after ≤ before) ⊎ (after ≤ most)) }
    ensures joined { (a b c : Option (List (List ℕ))) → (m n o : Option ℕ) → Asks a b m n → Asks b c n o → Asks a c m o }
{}
