//! Laws of what HTML is read as (`wt_schema`), in other words than the definitions that the reader follows.

ghost use Rattle.std.specs.Prelude.{◌≡◌, ℕ, List, Ok, Option};
ghost use Rattle.wt_tree.specs.Tree.{Tree};
ghost use Rattle.wt_html_grammar.specs.Markup.{Markup};
ghost use Rattle.wt_schema.specs.Fit.{fit};
ghost use Rattle.wt_schema.specs.Read.{page, read};
ghost use Rattle.wt_checks.specs.PutBack.{IsOneBody};
ghost use Rattle.wt_page_round_trip.specs.SameBodies.{IsSameDocument};
ghost use Rattle.wt_page_round_trip.specs.JoinedTexts.{FitsAlike, body_texts_joined};
ghost use Rattle.wt_page_round_trip.specs.OpenedBodies.{sections_opened};

/// A page that is read is one body: in it is neither another body nor a section, however deep, since
/// what a section holds is in its place.
pub fn what_is_read_is_one_body()
    ensures { (bytes : List ℕ) (t : Tree) (unsourced : Option ℕ) → read bytes ≡ page t unsourced → IsOneBody t }
{}

/// Two documents that are the same but for attributes of the sections in their bodies, the mark of an edit
/// apart, are the same page, or are refused at the same element for the same reason.
pub fn section_attributes_count_for_nothing()
    ensures { (m n : Markup) → IsSameDocument m n → fit m ≡ fit n }
{}

/// A document that is a page is the same page with its sections taken out, where what they held is in
/// their place.
pub fn sections_may_be_taken_out()
    ensures { (m : Markup) (t : Tree) → fit m ≡ Ok t → fit (sections_opened m) ≡ Ok t }
{}

/// Texts that come next to each other in the body, where a section's tag was between them, are one text in the
/// HTML without these sections. That document is a page with the same source, and it shows the same.
pub fn texts_side_by_side_are_one()
    ensures { (m : Markup) (t : Tree) → fit m ≡ Ok t → FitsAlike (fit (body_texts_joined m)) t }
{}
