//! What calls of pages that are there give.
ghost use Rattle.std.specs.Prelude.{◌≡◌, ◌∷◌, ℕ, List, Bool, Some, None, codes};
ghost use Rattle.wt_names.specs.declared.title.Title.{Title};
ghost use Rattle.wt_names.specs.Namespace.{full_name_of};
ghost use Rattle.wt_expand.specs.Work.{Pages};
ghost use Rattle.wt_expand.specs.Expansion.{Output, PartOutput, chars, page_output, page_reading, value_of, values_from, with_break};
ghost use Rattle.wt_page_laws.specs.PlainTemplates.{IsPlainLine, first_argument, unnamed};

/// A call whose page is a line of plain text gives its characters, whatever values it hands over; after a line break where they
/// begin with the sign of a list and the call isn't at the start of a line.
pub fn plain_pages_give_their_text()
    ensures { (pages : Pages) (at_start : Bool) (t : Title) (parts : List PartOutput) (line : List ℕ)
        → pages (full_name_of t) ≡ Some line → IsPlainLine line
        → (page_output (page_reading pages) at_start t parts).items ≡ with_break at_start (chars line) }
{}

/// A call whose page is `{{{1}}}` gives the first value that it hands over without a name, unless a later one has this number.
pub fn first_values_are_given()
    ensures { (pages : Pages) (at_start : Bool) (t : Title) (target : PartOutput) (value : Output) (parts : List PartOutput)
        → pages (full_name_of t) ≡ Some first_argument → value_of (codes "1") (values_from 2 parts) ≡ None
        → (page_output (page_reading pages) at_start t (target ∷ unnamed value ∷ parts)).items ≡ with_break at_start value.items }
{}
