//! Laws of edited trees: what was sent for a page is edited as the page's own nodes are, with the texts in its marked
//! blocks that were sent.

ghost use Rattle.std.specs.Prelude.{◌≡◌, ◌≤◌, ℕ, List, length, Bool, false, Option, None, Some};
ghost use Rattle.wt_span.specs.Origins.{Expanded};
ghost use Rattle.wt_span.specs.declared.limits.TheConstants.{HTML_BYTES, PAGE_BYTES};
ghost use Rattle.std.specs.List.{AllByRecursion};
ghost use Rattle.std.specs.Str.{IsUtf8};
ghost use Rattle.wt_span.specs.Items.{Item};
ghost use Rattle.wt_tree.specs.Opened.{without_sections};
ghost use Rattle.wt_tree.specs.Tree.{Tree};
ghost use Rattle.wt_link_spelling.specs.Spelling.{children_of};
ghost use Rattle.wt_checks.specs.Checked.{checked};
ghost use Rattle.wt_checks.specs.Places.{page_of};
ghost use Rattle.wt_expand.specs.PageCalls.{expanded_page};
ghost use Rattle.wt_expand.specs.Work.{Pages};
ghost use Rattle.wt_page_round_trip.specs.PageTree.{page_tree};
ghost use Rattle.wt_schema.specs.Read.{page as as_page, read};
ghost use Rattle.wt_visible.specs.SameNodes.{same_node};
ghost use Rattle.wt_slices.specs.BodySlices.{slices};
ghost use Rattle.wt_slices.specs.Changes.{marked, AllStay};
ghost use Rattle.wt_splice.specs.Splice.{spliced};
ghost use Rattle.wt_commands.specs.Answers.{refusal_of_page, done, remarked_of, html_answer, edit_of, edit_to};
ghost use Rattle.wt_schema.specs.Written.{unranged};
ghost use Rattle.wt_commands.specs.UnmarkedEdits.{DoneByEdit};
ghost use Rattle.wt_text_edit_laws.specs.TextBlocks.{TextBlock};
ghost use Rattle.wt_called_edit_laws.specs.CallingContents.{TakesContentsIn};
ghost use Rattle.wt_called_edit_laws.specs.ContentsTaken.{TakesContents};
ghost use Rattle.wt_called_edit_laws.specs.EditableNodes.{IsEditable};
ghost use Rattle.wt_called_edit_laws.specs.Groups.{called_tree};
ghost use Rattle.wt_called_edit_laws.specs.LinedAmong.{spots_of_lines, end_of_lines, IsLinedAmong};
ghost use Rattle.wt_called_edit_laws.specs.LinedCalling.{IsLinedCalling};
ghost use Rattle.wt_called_edit_laws.specs.PlacedLines.{LinedBlock};
ghost use Rattle.wt_inside_laws.specs.AsSent.{edits_of, IsPlainPage, IsReadFor, IsAlike, IsAsSent, IsSentOn};
ghost use Rattle.wt_inside_laws.specs.BesideEdits.{IsBesideEdit, IsBesideHtml};
ghost use Rattle.wt_inside_laws.specs.EditsWithCalls.{AreInTheirPieces, AreTextsAndCalls, IsMarkedEdit, IsMarkedDifference};
ghost use Rattle.wt_inside_laws.specs.HtmlEdits.{IsHtmlEdit};
ghost use Rattle.wt_inside_laws.specs.LocalTextEdits.{IsLocalTextEdit};
ghost use Rattle.wt_inside_laws.specs.RetypedPieces.{AreRead, AreUtf8};
ghost use Rattle.wt_inside_laws.specs.TextEdits.{IsRetyped, IsTextEdit};
ghost use Rattle.wt_inside_laws.specs.ToldEdits.{IsToldEdit, IsOrdinaryEdit, IsOrdinaryDifference};

/// Where the checks refuse nothing and no blocks come or go, what was sent for a page is edited as the page's own nodes
/// are (`edits_of`): each outside the marked blocks as it is, of a group the elements that are written for it, and in
/// these blocks those of the page, with the texts that were sent beside them. Other separators, marks and skips, and
/// sections, make no difference. Asked is that what was sent is as it is read, and that each marked block is told by
/// its pieces.
#[tactic(auto)]
pub fn edits_are_as_sent()
    ensures { (same : Tree → Tree → Bool) (t new : Tree) → IsPlainPage t → checked false t new ≡ None → AllStay new
        → IsReadFor t new → AllByRecursion (IsAlike same (page_of t)) (marked t new)
        → IsAsSent same t new (edits_of (without_sections t) new) }
{}

/// So a text edit of a page that isn't refused is answered as the edit of the page's own nodes, at the paths of the
/// marked blocks, whatever groups are in it and in these. Asked is that what was sent is as it is read from HTML.
#[tactic(auto)]
pub fn text_edits_are_sent_on_the_page()
    ensures { (pages : Pages) (page : List ℕ) (new : Tree) → IsUtf8 page → length page ≤ PAGE_BYTES
        → refusal_of_page pages page ≡ None
        → IsTextEdit same_node (expanded_page pages page) page (page_tree pages page) new
        → IsReadFor (page_tree pages page) new
        → AllByRecursion (λ p. AreRead (children_of p.new)) (marked (page_tree pages page) new)
        → IsSentOn pages page new (edits_of (called_tree pages page) new) }
{}

/// What HTML is read as is so, if the checks refuse nothing, and the page isn't longer than a page may be; and so is what
/// is sent in each retyped block.
#[tactic(auto)]
pub fn what_is_read_may_be_sent()
    ensures page { (pages : Pages) (page input : List ℕ) (new : Tree) (unsourced : Option ℕ) → IsUtf8 page
        → length page ≤ PAGE_BYTES → refusal_of_page pages page ≡ None → read input ≡ as_page new unsourced
        → checked false (page_tree pages page) new ≡ None → IsReadFor (page_tree pages page) new }
    ensures blocks { (same : Tree → Tree → Bool) (items : Expanded) (bytes : List ℕ) (pages : Pages) (page input : List ℕ)
        (new : Tree) (unsourced : Option ℕ) → IsUtf8 page → length page ≤ PAGE_BYTES → refusal_of_page pages page ≡ None
        → read input ≡ as_page new unsourced → checked false (page_tree pages page) new ≡ None
        → AllByRecursion (IsRetyped same items bytes) (marked (page_tree pages page) new)
        → AllByRecursion (λ p. AreRead (children_of p.new) × AreUtf8 (children_of p.new)) (marked (page_tree pages page) new) }
{}

/// So a text edit is done, and the new page is the old one with the insides of the marked blocks replaced by what was sent
/// for them, as it is spelled. Asked is that the lines of the expanded page tell the marked paragraphs and headings, which
/// call nothing (`IsLinedAmong`), that each is ordinary (`IsOrdinary`), and that what was sent is as it is read from HTML.
#[tactic(auto)]
pub fn text_edits_of_told_blocks_are_done()
    ensures { (pages : Pages) (page : List ℕ) (bs : List LinedBlock) (rest : List (List Item)) (new : Tree)
        → IsLinedAmong pages page bs rest
        → (c : TakesContents pages (spots_of_lines pages page bs) (end_of_lines pages page bs rest))
        → IsToldEdit pages page c.paths new
        → edit_to pages page new ≡ done (spliced page (slices same_node (page_tree pages page) new)) }
{}

/// So HTML that makes such an edit is answered by that page.
#[tactic(auto)]
pub fn text_edits_in_html_are_done()
    ensures { (pages : Pages) (page input : List ℕ) (bs : List LinedBlock) (rest : List (List Item)) (new : Tree)
        (unsourced : Option ℕ) → IsLinedAmong pages page bs rest
        → (c : TakesContents pages (spots_of_lines pages page bs) (end_of_lines pages page bs rest))
        → IsHtmlEdit pages page input c.paths new unsourced
        → edit_of pages (Some page) input ≡ done (spliced page (slices same_node (page_tree pages page) new)) }
{}

/// So it is where the marked blocks may hold calls, told by the lines of the expanded page (`IsLinedCalling`): each of them
/// calls nothing and is ordinary, or texts may be typed beside the calls in it (`IsBesideBlock`).
#[tactic(auto)]
pub fn text_edits_beside_calls_are_done()
    ensures tree { (pages : Pages) (page : List ℕ) (bs : List LinedBlock) (rest : List (List Item)) (new : Tree)
        → IsLinedCalling pages page bs rest
        → (c : TakesContentsIn pages (spots_of_lines pages page bs) (end_of_lines pages page bs rest))
        → IsBesideEdit pages page c.paths new
        → edit_to pages page new ≡ done (spliced page (slices same_node (page_tree pages page) new)) }
    ensures html { (pages : Pages) (page input : List ℕ) (bs : List LinedBlock) (rest : List (List Item)) (new : Tree)
        (unsourced : Option ℕ) → IsLinedCalling pages page bs rest
        → (c : TakesContentsIn pages (spots_of_lines pages page bs) (end_of_lines pages page bs rest))
        → IsBesideHtml pages page input c.paths new unsourced
        → edit_of pages (Some page) input ≡ done (spliced page (slices same_node (page_tree pages page) new)) }
{}

/// So each text edit is done of a page that isn't refused, where each marked block holds no call, is ordinary and none of
/// those that the lines of the expanded page don't tell (`IsExcepted`). The HTML of a page, given back unchanged, is such an
/// edit: it marks nothing.
#[tactic(auto)]
pub fn text_edits_are_done()
    ensures tree { (pages : Pages) (page input : List ℕ) (new : Tree) (unsourced : Option ℕ)
        → IsOrdinaryEdit pages page input new unsourced
        → edit_to pages page new ≡ done (spliced page (slices same_node (page_tree pages page) new)) }
    ensures html { (pages : Pages) (page input : List ℕ) (new : Tree) (unsourced : Option ℕ)
        → IsOrdinaryEdit pages page input new unsourced → length input ≤ HTML_BYTES
        → edit_of pages (Some page) input ≡ done (spliced page (slices same_node (page_tree pages page) new)) }
    ensures unchanged { (pages : Pages) (page bytes : List ℕ) → html_answer pages (Some page) ≡ done bytes
        → IsOrdinaryEdit pages page bytes (unranged (called_tree pages page)) None }
{}

/// So is each in which some of the marked blocks hold calls (`IsMarkedEdit`): the content of these may be edited with its
/// calls (`IsEditableNode`), as one in pieces or of texts and calls may, texts may be typed beside them, the others are
/// ordinary, and none is excepted for its lines or calls.
#[tactic(auto)]
pub fn text_edits_with_calls_are_done()
    ensures tree { (pages : Pages) (page input : List ℕ) (new : Tree) (unsourced : Option ℕ)
        → IsMarkedEdit pages page input new unsourced
        → edit_to pages page new ≡ done (spliced page (slices same_node (page_tree pages page) new)) }
    ensures html { (pages : Pages) (page input : List ℕ) (new : Tree) (unsourced : Option ℕ)
        → IsMarkedEdit pages page input new unsourced → length input ≤ HTML_BYTES
        → edit_of pages (Some page) input ≡ done (spliced page (slices same_node (page_tree pages page) new)) }
    ensures local { (pages : Pages) (page input : List ℕ) (new : Tree) (unsourced : Option ℕ)
        → IsMarkedEdit pages page input new unsourced → IsLocalTextEdit pages page new }
    ensures pieces { (pages : Pages) (k : TextBlock) (q : List ℕ) → AreInTheirPieces pages k q → IsEditable pages k q }
    ensures calls { (pages : Pages) (k : TextBlock) (q : List ℕ) → AreTextsAndCalls pages k q → IsEditable pages k q }
{}

/// So is each that is sent without marks: `edit` of its difference from the page is done (`DoneByEdit`).
#[tactic(auto)]
pub fn text_edits_without_marks_are_done()
    ensures tree { (pages : Pages) (page input : List ℕ) (new : Tree) (unsourced : Option ℕ)
        → IsOrdinaryDifference pages page input new unsourced → edit_to pages page (remarked_of pages page new)
        ≡ done (spliced page (slices same_node (page_tree pages page) (remarked_of pages page new))) }
    ensures html { (pages : Pages) (page input : List ℕ) (new : Tree) (unsourced : Option ℕ) (stands : Option (List ℕ))
        → IsOrdinaryDifference pages page input new unsourced → stands ≡ Some page → length input ≤ HTML_BYTES
        → DoneByEdit pages stands input }
    ensures calls { (pages : Pages) (page input : List ℕ) (new : Tree) (unsourced : Option ℕ) (stands : Option (List ℕ))
        → IsMarkedDifference pages page input new unsourced → stands ≡ Some page → length input ≤ HTML_BYTES
        → DoneByEdit pages stands input }
{}
