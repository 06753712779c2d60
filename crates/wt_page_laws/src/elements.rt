//! What elements show that stand for a plain view.
ghost use Rattle.std.specs.Prelude.{◌≡◌, ◌≤◌};
ghost use Rattle.wt_tree.specs.Elements.{as_elements, or_empty_span};
ghost use Rattle.wt_tree.specs.Plain.{Plains, ended};
ghost use Rattle.wt_page_laws.specs.Showing.{shown_of_all, count, AreElements};

/// A plain view written as elements alone shows the same characters in as many pieces, none of which is a
/// text; what has elements alone stays; and none is written as one that shows nothing.
pub fn elements_show_the_same()
    ensures elements { (ps : Plains) → AreElements (as_elements ps) }
    ensures characters { (ps : Plains) → shown_of_all (or_empty_span (as_elements ps)) ≡ shown_of_all ps }
    ensures count { (ps : Plains) → count (as_elements ps) ≡ count ps }
    ensures stay { (ps : Plains) → AreElements ps → as_elements ps ≡ ps }
    ensures some { (ps : Plains) → (count ps ≡ 0 → or_empty_span ps ≡ or_empty_span ended) × (1 ≤ count (or_empty_span ps)) }
{}
