//! Laws of paragraphs and headings where they are in a page, by its items or by its lines: their contents may be edited.

ghost use Rattle.std.specs.Prelude.{◌≡◌, List, [], ◌∷◌, ℕ};
ghost use Rattle.wt_span.specs.Items.{Item, sources};
ghost use Rattle.wt_lines.specs.Lines.{full_lines};
ghost use Rattle.wt_expand.specs.PageItems.{page_items};
ghost use Rattle.wt_expand.specs.Work.{Pages};
ghost use Rattle.wt_text_edit_laws.specs.BlockSpots.{BlockSpot, spots_source};
ghost use Rattle.wt_text_edit_laws.specs.TextBlocks.{TextBlock, a_paragraph, a_heading};
ghost use Rattle.wt_text_edit_laws.specs.TypedHeadings.{Sides};
ghost use Rattle.wt_called_edit_laws.specs.CalledPages.{IsCalledPage};
ghost use Rattle.wt_called_edit_laws.specs.Covered.{IsEditablePage};
ghost use Rattle.wt_called_edit_laws.specs.EditableBlocks.{IsEditableWithCalls};
ghost use Rattle.wt_called_edit_laws.specs.LinedAmong.{spots_of_lines, end_of_lines, IsLinedAmong};
ghost use Rattle.wt_called_edit_laws.specs.LinedCalling.{IsLinedCalling};
ghost use Rattle.wt_called_edit_laws.specs.PlacedAmong.{IsPlacedAmong};
ghost use Rattle.wt_called_edit_laws.specs.PlacedCalling.{IsPlacedCalling};
ghost use Rattle.wt_called_edit_laws.specs.PlacedBlocks.{IsBlockIn, block_spot, IsFreeIn, IsHeadingOn, IsParagraphOn};
ghost use Rattle.wt_called_edit_laws.specs.PlacedLines.{LinedBlock, all_lines, spots_by, end_by, AreLined, IsLinedPage};
ghost use Rattle.wt_called_edit_laws.specs.PlacedSpots.{IsPlacedPage};

/// Some lines of a page are a paragraph of it, or one is a heading's, in the body, in a cell or in a caption: whatever they
/// hold and whatever is round them. Of a paragraph each line is text there, none has a mark before it, and no other text
/// is beside them. By its items in the page each is a block at its place (`IsBlockIn`).
pub fn lines_of_a_page_are_blocks_of_it()
    ensures headings { (page : List ℕ) (s : Sides) (q : List ℕ) → IsHeadingOn (page_items page) s q → IsBlockIn (page_items page) (a_heading s) q }
    ensures paragraphs { (page : List ℕ) (own : List Item) → IsParagraphOn (page_items page) own → IsBlockIn (page_items page) a_paragraph (sources own) }
{}

/// A page that calls nothing, and in which no node can only be kept as a whole, is one of those whose contents may be edited
/// (`IsCalledPage`), with any such paragraph or heading that isn't tangled (`IsFreeIn`).
pub fn blocks_at_their_places_may_be_edited()
    ensures whole { (page : List ℕ) (k : TextBlock) (q : List ℕ) (b : IsBlockIn (page_items page) k q)
        → spots_source (block_spot k q b.before ∷ []) (sources b.rest) ≡ page }
    ensures called { (pages : Pages) (page : List ℕ) (k : TextBlock) (q : List ℕ) (b : IsBlockIn (page_items page) k q) → IsFreeIn page k q b.rest
        → IsCalledPage pages (block_spot k q b.before ∷ []) (sources b.rest) }
{}

/// So with any number of them at once, at each of which the page's items are cut (`IsPlacedPage`).
#[tactic(auto, using(crate::proofs::Cells::PlacedSpots::spots_called))]
pub fn all_blocks_at_their_places_may_be_edited()
    ensures { (pages : Pages) (ss : List BlockSpot) (behind : List ℕ) → IsPlacedPage ss behind → IsCalledPage pages ss behind }
{}

/// Any number of paragraphs and headings may be told by the page's lines: those before each, its own, and those behind the
/// last (`AreLined`). The page's items are cut at each of them, so that this page may be edited with all of them.
pub fn lines_of_a_page_are_cut_at_its_blocks()
    ensures whole { (page : List ℕ) (ls : List LinedBlock) (behind : List (List Item)) → full_lines (page_items page) ≡ all_lines ls behind → AreLined ls behind
        → spots_source (spots_by [] ls) (end_by [] ls behind) ≡ page }
    ensures blocks { (page : List ℕ) (ls : List LinedBlock) (behind : List (List Item)) → IsLinedPage page ls behind
        → IsPlacedPage (spots_by [] ls) (end_by [] ls behind) }
    ensures called { (pages : Pages) (page : List ℕ) (ls : List LinedBlock) (behind : List (List Item)) → IsLinedPage page ls behind
        → IsCalledPage pages (spots_by [] ls) (end_by [] ls behind) }
{}

/// So with calls: a page whose items, where calls are characters, are cut at each of any number of paragraphs and headings that
/// call nothing, so that no call goes over the end of a part, may be edited with them, if by what the calls give each is at
/// such a place, none is tangled, and none holds a group or is in one (`IsPlacedAmong`).
pub fn all_blocks_among_calls_may_be_edited()
    ensures { (pages : Pages) (ss : List BlockSpot) (behind : List ℕ) → IsPlacedAmong pages ss behind → IsEditablePage pages ss behind }
{}

/// So with paragraphs and headings that hold calls, which may begin or end with one: a page whose items, where calls are characters, are cut
/// at each of them, may be edited with them, if each is a content in this folder, by what the calls give at such a place, and has a byte that no
/// group has (`IsPlacedCalling`).
pub fn all_blocks_that_call_may_be_edited()
    ensures { (pages : Pages) (ss : List BlockSpot) (behind : List ℕ) → IsPlacedCalling pages ss behind → IsEditableWithCalls pages ss behind }
{}

/// And these may be told by the lines of the expanded page: those before each, its own, which come from no call, and those
/// behind the last (`IsLinedAmong`). What is on the page for these lines are its parts: the page's items are cut at each
/// block, no call goes over the end of one, and each part is expanded to its lines. So this page may be edited with all of
/// them. A page that calls nothing, told by its lines (`IsLinedPage`), is one of these, whatever the folder has, and its
/// parts are the same.
pub fn lines_of_an_expanded_page_are_cut_at_its_blocks()
    ensures whole { (pages : Pages) (page : List ℕ) (ls : List LinedBlock) (behind : List (List Item)) → IsLinedAmong pages page ls behind
        → spots_source (spots_of_lines pages page ls) (end_of_lines pages page ls behind) ≡ page }
    ensures blocks { (pages : Pages) (page : List ℕ) (ls : List LinedBlock) (behind : List (List Item)) → IsLinedAmong pages page ls behind
        → IsPlacedAmong pages (spots_of_lines pages page ls) (end_of_lines pages page ls behind) }
    ensures editable { (pages : Pages) (page : List ℕ) (ls : List LinedBlock) (behind : List (List Item)) → IsLinedAmong pages page ls behind
        → IsEditablePage pages (spots_of_lines pages page ls) (end_of_lines pages page ls behind) }
    ensures calm { (pages : Pages) (page : List ℕ) (ls : List LinedBlock) (behind : List (List Item)) → IsLinedPage page ls behind
        → IsLinedAmong pages page ls behind }
    ensures parts { (pages : Pages) (page : List ℕ) (ls : List LinedBlock) (behind : List (List Item)) → full_lines (page_items page) ≡ all_lines ls behind
        → (spots_of_lines pages page ls ≡ spots_by [] ls) × (end_of_lines pages page ls behind ≡ end_by [] ls behind) }
{}

/// And so may be those that hold calls: of a block's lines, which may begin or end with what a call gives, is asked that its
/// source is what is on the page for them; the line breaks round them are the page's own (`IsLinedCalling`). So they are what the
/// block gives by itself.
pub fn lines_of_blocks_that_call_are_cut_at_these()
    ensures whole { (pages : Pages) (page : List ℕ) (ls : List LinedBlock) (behind : List (List Item)) → IsLinedCalling pages page ls behind
        → spots_source (spots_of_lines pages page ls) (end_of_lines pages page ls behind) ≡ page }
    ensures blocks { (pages : Pages) (page : List ℕ) (ls : List LinedBlock) (behind : List (List Item)) → IsLinedCalling pages page ls behind
        → IsPlacedCalling pages (spots_of_lines pages page ls) (end_of_lines pages page ls behind) }
    ensures editable { (pages : Pages) (page : List ℕ) (ls : List LinedBlock) (behind : List (List Item)) → IsLinedCalling pages page ls behind
        → IsEditableWithCalls pages (spots_of_lines pages page ls) (end_of_lines pages page ls behind) }
{}
