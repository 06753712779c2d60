//! Laws of paragraphs of the body as the page has them: their contents may be edited, and what is sent for them is taken.

ghost use Rattle.std.specs.Prelude.{◌≡◌, List, [], ◌∷◌, ℕ};
ghost use Rattle.wt_span.specs.Items.{sources};
ghost use Rattle.wt_expand.specs.PageItems.{page_items};
ghost use Rattle.wt_expand.specs.Work.{Pages};
ghost use Rattle.wt_lines.specs.Lines.{lines};
ghost use Rattle.wt_page.specs.Rows.{Row};
ghost use Rattle.wt_text_edit_laws.specs.BlockSpots.{spots_source};
ghost use Rattle.wt_text_edit_laws.specs.BodyParagraphs.{IsParagraphAt, spot_at, IsFreeParagraph};
ghost use Rattle.wt_text_edit_laws.specs.TextBlocks.{a_paragraph};
ghost use Rattle.wt_beside_laws.specs.Calm.{AreUtf8Nodes};
ghost use Rattle.wt_beside_laws.specs.Content.{AreKept};
ghost use Rattle.wt_beside_laws.specs.HeldLines.{AreHeldLines};
ghost use Rattle.wt_beside_laws.specs.PageSigns.{signs_of_lines};
ghost use Rattle.wt_beside_laws.specs.StyledIn.{IsStyledIn};
ghost use Rattle.wt_called_edit_laws.specs.CalledPages.{IsCalledPage};
ghost use Rattle.wt_called_edit_laws.specs.CalledTexts.{TakesTextsAmong};
ghost use Rattle.wt_called_edit_laws.specs.ContentsTaken.{TakesContents};

/// A page that calls nothing, and in which no node can only be kept as a whole, is one of those whose contents may be edited
/// (`IsCalledPage`), with any paragraph of its body (`IsParagraphAt`) that isn't tangled (`IsFreeParagraph`): whatever is in
/// the paragraph and round it, and whatever pages the folder has.
#[tactic(auto, using(crate::proofs::Cells::OwnParagraphs::body_called))]
pub fn paragraphs_of_the_body_may_be_edited()
    ensures { (pages : Pages) (page : List ℕ) (r : Row) (rs : List Row) (p : IsParagraphAt (page_items page) r rs) → IsFreeParagraph page p.own p.rest
        → IsCalledPage pages (spot_at p.before p.own ∷ []) (sources p.rest) }
{}

/// So in any such paragraph of such a page any text is taken in the place of all that it holds, and any content that may be sent for it: the new page
/// has it, as it is spelled, and every other byte is what it was; without marks, too (`TakesTextsAmong`, `TakesContents`).
pub fn paragraphs_of_the_body_are_edited()
    ensures whole { (page : List ℕ) (r : Row) (rs : List Row) (p : IsParagraphAt (page_items page) r rs)
        → spots_source (spot_at p.before p.own ∷ []) (sources p.rest) ≡ page }
    ensures texts { (pages : Pages) (page : List ℕ) (r : Row) (rs : List Row) (p : IsParagraphAt (page_items page) r rs) → IsFreeParagraph page p.own p.rest
        → TakesTextsAmong pages (spot_at p.before p.own ∷ []) (sources p.rest) }
    ensures contents { (pages : Pages) (page : List ℕ) (r : Row) (rs : List Row) (p : IsParagraphAt (page_items page) r rs) → IsFreeParagraph page p.own p.rest
        → TakesContents pages (spot_at p.before p.own ∷ []) (sources p.rest) }
{}

/// Where each form in its lines is a node (`AreHeldLines`) whose source stands whatever is written behind it (`AreKept`) and is UTF-8
/// (`AreUtf8Nodes`), its nodes may stay, in their order, with any texts between them, and its bold and italic (`IsStyledIn`): so these contents may be
/// sent, too (`Fits`).
#[tactic(auto, using(crate::proofs::Cells::TakenParagraphs::body_styled))]
pub fn nodes_of_paragraphs_of_the_body_stay()
    ensures { (page : List ℕ) (r : Row) (rs : List Row) (p : IsParagraphAt (page_items page) r rs) → IsFreeParagraph page p.own p.rest
        → AreHeldLines (lines p.own) → AreKept (signs_of_lines 0 (lines p.own)) → AreUtf8Nodes (signs_of_lines 0 (lines p.own))
        → IsStyledIn a_paragraph (sources p.own) }
{}
