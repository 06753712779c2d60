//! Laws of paragraphs and headings of a page as it is: what is asked of those whose content is edited follows from the page.

ghost use Rattle.std.specs.Prelude.{◌≡◌, ℕ, false, List, [], ◌∷◌};
ghost use Rattle.std.specs.Str.{IsUtf8};
ghost use Rattle.wt_span.specs.Items.{sources};
ghost use Rattle.wt_expand.specs.PageItems.{page_items};
ghost use Rattle.wt_page.specs.Rows.{Row};
ghost use Rattle.wt_text_edit_laws.specs.BlockSpots.{BlockSpot, spots_source, AreRead};
ghost use Rattle.wt_text_edit_laws.specs.BodyParagraphs.{IsParagraphAt, spot_at, IsFreeParagraph};
ghost use Rattle.wt_text_edit_laws.specs.Contents.{IsContent};
ghost use Rattle.wt_text_edit_laws.specs.NoCalls.{CallsNothing};
ghost use Rattle.wt_text_edit_laws.specs.PageCuts.{AreCuts, AreFree, EndsClosed};
ghost use Rattle.wt_text_edit_laws.specs.TextBlocks.{TextBlock, block_items};
ghost use Rattle.wt_beside_laws.specs.EndedNodes.{AreEndedNodes};
ghost use Rattle.wt_beside_laws.specs.FlatBlocks.{signs_in};
ghost use Rattle.wt_beside_laws.specs.OpenEnds.{MarksEnd, ShownLast};
ghost use Rattle.wt_text_edit_laws.specs.Unclosed.{is_unclosed_item, last_of};
ghost use Rattle.wt_beside_laws.specs.StyledIn.{IsStyledIn};

/// Of a page that calls nothing, any paragraphs and headings that aren't tangled and hold nothing that can only be kept as
/// a whole are contents that are read by themselves (`IsContent`), whatever they hold, and the page is read part by part
/// (`AreRead`). Asked is that the page's own items are cut at these blocks: each is lines of text, or a heading's line, by
/// its items in the page, begins where the page or its line does, behind comments and include tags or none, or behind the
/// sign of a table's end or a rule (`IsLedTo`), and ends with its line; and that one which ends the page holds no comment
/// and no hidden part that nothing ends.
#[tactic(auto, using(crate::proofs::Derived::CutPages::cut_read))]
pub fn untangled_blocks_are_contents()
    ensures { (ss : List BlockSpot) (behind : List ℕ) → IsUtf8 (spots_source ss behind) → CallsNothing (page_items (spots_source ss behind))
        → AreCuts ss behind → AreFree ss → AreRead ss behind }
{}

/// So it is at each paragraph of the body that such a page means (`IsParagraphAt`), where that isn't tangled and holds
/// nothing that can only be kept as a whole (`IsFreeParagraph`): whatever is in it and in the page.
pub fn untangled_paragraphs_of_the_body_are_contents()
    ensures { (page : List ℕ) (r : Row) (rs : List Row) (p : IsParagraphAt (page_items page) r rs) → IsFreeParagraph page p.own p.rest
        → AreRead (spot_at p.before p.own ∷ []) (sources p.rest) }
{}

/// A content that is read by itself and calls nothing, as each of these is (`untangled_blocks_are_contents`), takes texts beside its
/// nodes, bold and italic (`IsStyledIn`): its lines are flat, the source of each node is UTF-8 and stands whatever is written behind
/// it, and none ends in an open tag. Asked is of each node that each tag of an extension and `<nowiki>` in its source has its closing
/// tag there (`AreEndedNodes`).
#[tactic(auto, using(crate::proofs::Own::Kept::content_styled))]
pub fn contents_read_by_themselves_take_styles()
    ensures { (k : TextBlock) (q : List ℕ) → IsContent k q → CallsNothing (block_items k q) → AreEndedNodes (signs_in k q)
        → IsStyledIn k q }
{}

/// A comment, an include tag and a hidden part of a page end with a `>`, and a line of comments with its line break; but one that
/// nothing ends, which is the page's last item.
#[tactic(auto, using(crate::proofs::Own::OpenEnds::page_marks))]
pub fn marks_of_a_page_end()
    ensures { (page : List ℕ) → MarksEnd (page_items page) }
{}

/// So where a page's last line shows something, and no comment and no hidden part is open at its end (`is_unclosed_item`), a line
/// break behind the page is read as one.
#[tactic(auto, using(crate::proofs::Own::OpenLast::closed_page))]
pub fn pages_whose_marks_end_may_go_on()
    ensures { (page : List ℕ) → ShownLast (page_items page) → is_unclosed_item (last_of (page_items page)) ≡ false → EndsClosed page [] }
{}
