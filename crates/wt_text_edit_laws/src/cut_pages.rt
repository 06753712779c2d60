//! Laws of pages that are cut by their items: each part is read by itself.

ghost use Rattle.std.specs.Prelude.{◌≡◌, ◌<◌, ℕ, false, List, ◌++◌, length};
ghost use Rattle.wt_span.specs.declared.form.Mode.TheVariants.{Page};
ghost use Rattle.wt_span.specs.Items.{Item, sources};
ghost use Rattle.wt_expand.specs.PageItems.{page_items};
ghost use Rattle.wt_page.specs.Rows.{Row};
ghost use Rattle.wt_part_laws.specs.Lexer.{lexer};
ghost use Rattle.wt_part_laws.specs.Scans.{Settles};
ghost use Rattle.wt_text_edit_laws.specs.BodyParagraphs.{IsBareParagraph, IsParagraphAt};
ghost use Rattle.wt_text_edit_laws.specs.TextBetween.{HasEndsBefore, StandsBehind};

/// Wherever a page is cut between two of its items, what is before the cut is read by itself as the items that it has in
/// the page; and so is what is behind it, unless a comment begins that, or follows the blanks that begin it.
#[tactic(auto, using(crate::proofs::Cuts::ItemCuts::front_alone, crate::proofs::Cuts::ItemCuts::behind_stands))]
pub fn parts_of_a_page_are_read_by_themselves()
    ensures front { (front behind : List ℕ) (xs ys : List Item) → page_items (front ++ behind) ≡ xs ++ ys → sources xs ≡ front → page_items front ≡ xs }
    ensures behind { (front behind : List ℕ) (xs ys : List Item) → page_items (front ++ behind) ≡ xs ++ ys → sources xs ≡ front → StandsBehind behind
        → page_items behind ≡ ys }
{}

/// Where every lexeme of a part is the same by itself as before the rest of a page, each comment and each hidden part that
/// begins in it ends in it, and so does each raw tag, or nothing in the page closes it.
#[tactic(auto, using(crate::proofs::Cuts::SettledEnds::settled_ends))]
pub fn settled_parts_have_ends()
    ensures { (part rest : List ℕ) → 0 < length rest → Settles (lexer Page) rest false 0 part → HasEndsBefore rest part }
{}

/// A paragraph of the body that a page means, by the blocks that the page's rows are cut into, is lines of text by itself,
/// and what these make is its node; before it and behind it is no other text, and no table is open there. So it is where it
/// begins and ends with lines of its own, and no mark is before one of these (`IsBareParagraph`).
#[tactic(auto, using(crate::proofs::Cuts::BodyParagraphs::page_paragraph_at))]
pub fn paragraphs_of_the_body_are_lines_of_text()
    ensures { (page : List ℕ) (r : Row) (rs : List Row) → IsBareParagraph (page_items page) r rs → IsParagraphAt (page_items page) r rs }
{}
