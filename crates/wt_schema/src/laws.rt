ghost use Rattle.std.specs.Prelude.{◌≡◌, ℕ, List, Some, None, Ok, Err};
ghost use Rattle.std.specs.List.{AllByRecursion};
ghost use Rattle.wt_tree.specs.Tree.{Tree};
ghost use Rattle.wt_html_grammar.specs.Markup.{Markup};
ghost use Rattle.wt_schema.specs.declared.why.FitWhy.{FitWhy};
ghost use Rattle.wt_schema.specs.declared.why.FitWhy.TheVariants as why;
ghost use Rattle.wt_schema.specs.Fit.{BodyElement, body_of, fit};
ghost use Rattle.wt_schema.specs.Misfits.{places_of_body, FitsAlone, FirstMisfit, sources_of_body, first_unsourced};
ghost use Rattle.wt_schema.specs.Unsourced.{unsourced};
ghost use Rattle.wt_schema.specs.Read.{Read, read, IsRead};

/// What is read by the machine is what the grammar says: an input is the page of the tree of elements
/// that it stands for, or that tree's first misfit, or it is refused at the place and for the reason
/// that the grammar gives, the first that holds there; and it is one of these only.
pub fn one_reading()
    ensures is_read { (bytes : List ℕ) → IsRead bytes (read bytes) }
    ensures only { (bytes : List ℕ) (r : Read) → IsRead bytes r → read bytes ≡ r }
{}

/// The misfit that is reported is the first: with all elements in a list, in document order, each with
/// its number and its parent's kind, every one before it fits by itself, and its reason is the first
/// that holds of it. Where none is reported, all fit. A document without a body of its own is reported as
/// such.
pub fn first_misfit()
    ensures told { (m : Markup) (f : BodyElement) (n : ℕ) (w : FitWhy) → body_of m ≡ Some f → fit m ≡ Err (n, w) → FirstMisfit (places_of_body f) n w }
    ensures only { (m : Markup) (f : BodyElement) (n : ℕ) (w : FitWhy) → body_of m ≡ Some f → FirstMisfit (places_of_body f) n w → fit m ≡ Err (n, w) }
    ensures all { (m : Markup) (f : BodyElement) (t : Tree) → body_of m ≡ Some f → fit m ≡ Ok t → AllByRecursion FitsAlone (places_of_body f) }
    ensures root { (m : Markup) → body_of m ≡ None → fit m ≡ Err (1, why.Root) }
{}

/// The element without a source that is reported is the first: in the list of the body and all elements
/// below it, in document order, each with its number and whether it has no source or has the mark of
/// an edit; of the body the mark alone counts.
pub fn first_without_source()
    ensures first { (m : Markup) (f : BodyElement) → body_of m ≡ Some f → unsourced m ≡ first_unsourced (sources_of_body f) }
    ensures root { (m : Markup) → body_of m ≡ None → unsourced m ≡ None }
{}
