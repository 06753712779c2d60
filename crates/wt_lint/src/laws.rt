ghost use Rattle.std.specs.Prelude.{◌≡◌, ℕ, Bool, List};
ghost use Rattle.std.specs.List.{AllByRecursion, list_any};
ghost use Rattle.std.specs.List.Sorted.{IsStrictlySortedBy};
ghost use Rattle.wt_annotated.specs.Reached.{AreReachedSlices};
ghost use Rattle.wt_tree.specs.Tree.{Tree};
ghost use Rattle.wt_lint.specs.Counting.{CountsBack};
ghost use Rattle.wt_lint.specs.Findings.{all_found, in_order, order_of};
ghost use Rattle.wt_lint.specs.Found.{KindAndRange};
ghost use Rattle.wt_lint.specs.Shapes.{IsShaped};
ghost use Rattle.wt_lint.specs.Within.{LiesIn};

/// What is put in order is so: each comes before those after it, by its start, its end and its kind, so
/// none is there twice; and it is the same: a test passes one of these exactly where it passes one of those.
pub fn each_once_in_order()
    ensures ordered { (fs : List KindAndRange) → IsStrictlySortedBy order_of (in_order fs) }
    ensures same { (test : KindAndRange → Bool) → (fs : List KindAndRange)
        → list_any test (in_order fs) ≡ list_any test fs }
{}

/// All that is found in the tree of a page lies in the page: its range is a slice of it, and what is
/// there is, by the kind, a run of braces, two brackets, the end of a table, or a tag.
pub fn findings_lie_in_the_page()
    ensures shape { (page : List ℕ) → (t : Tree) → AreReachedSlices page t
        → AllByRecursion (IsShaped page) (all_found page t) }
    ensures slices { (page : List ℕ) → (t : Tree) → AreReachedSlices page t
        → AllByRecursion (LiesIn page) (all_found page t) }
{}

/// The line and the column of a place lead back to it: before it are whole lines, one fewer than the
/// number of its line, and after these, on its own, a byte fewer than the number of its column.
pub fn line_counts_back()
    ensures { (page : List ℕ) → (at : ℕ) → CountsBack page at }
{}
