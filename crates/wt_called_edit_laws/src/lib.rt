//! Laws of edits anywhere in a page: in paragraphs and headings in its body, in cells of tables and in captions, among calls, too, any text is
//! taken, and texts beside what stays in them, and nothing else is changed.
#![tactic(auto)]

ghost use Rattle.std.specs.Prelude.{ℕ, ◌<◌, List, [], ◌∷◌, ◌≡◌, Option, None, false};
ghost use Rattle.wt_expand.specs.Expansion.{page_work};
ghost use Rattle.wt_expand.specs.Work.{Pages, first_refusal};
ghost use Rattle.wt_text_edit_laws.specs.BlockSpots.{BlockSpot, AreRead, AreBlockSpots, spots_source};
ghost use Rattle.wt_called_edit_laws.specs.Parts.{AreCalled, IsByParts};
ghost use Rattle.wt_called_edit_laws.specs.Retyped.{AreRetyped, AreWrittenAnew, IsExpandedAgain};
ghost use Rattle.std.specs.Str.{IsUtf8};
ghost use Rattle.wt_span.specs.Items.{Item};
ghost use Rattle.wt_tree.specs.Tree.{Label, Tree};
ghost use Rattle.wt_checks.specs.Kept.{children};
ghost use Rattle.wt_expand.specs.PageItems.{page_items};
ghost use Rattle.wt_typed_blocks.specs.Edited.{Pieces, Edited, edited, Edits, page_node};
ghost use Rattle.wt_typed_blocks.specs.Sent.{paragraph};
ghost use Rattle.wt_text_edit_laws.specs.BlockEdits.{typed_as};
ghost use Rattle.wt_text_edit_laws.specs.Parts.{part_tree};
ghost use Rattle.wt_text_edit_laws.specs.TextBlocks.{TextBlock, a_paragraph, block_of, block_items, block_tree};
ghost use Rattle.wt_beside_laws.specs.FlatBlocks.{IsFlatEditOf};
ghost use Rattle.wt_beside_laws.specs.StyledIn.{IsFlatIn};
ghost use Rattle.wt_part_laws.specs.Standing.{standing};
ghost use Rattle.wt_text_edit_laws.specs.TypedPages.{IsTypedPage};
ghost use Rattle.wt_called_edit_laws.specs.AnyBlocks.{AreSpots, AllLead};
ghost use Rattle.wt_called_edit_laws.specs.AnyTexts.{TakesAnyTexts};
ghost use Rattle.wt_called_edit_laws.specs.ItemSpots.{AreContentSpots};
ghost use Rattle.wt_called_edit_laws.specs.CalledBlocks.{AreAmongCalls, counted, tree_by, StandAmongCalls};
ghost use Rattle.wt_called_edit_laws.specs.CellEdits.{CellPage, page_with, IsCellPage, IsCellEdit, LeadsFrom, TakesText, own_sents};
ghost use Rattle.wt_called_edit_laws.specs.HeadingsInCells.{IsHeadingInCell, HeadingStandsInCell};
ghost use Rattle.wt_called_edit_laws.specs.UnmarkedCells.{TakesUnmarked};
ghost use Rattle.wt_called_edit_laws.specs.InCells.{IsInCell, AreTextLines, StandsInCell};
ghost use Rattle.wt_expand.specs.PageCalls.{expanded_page};
ghost use Rattle.wt_called_edit_laws.specs.CalledPages.{IsCalledPage};
ghost use Rattle.wt_called_edit_laws.specs.FreeBlocks.{AreFreeFrom, NoTextCalls};
ghost use Rattle.wt_called_edit_laws.specs.Groups.{AreOutsideGroups, GroupsStayAmong, called_tree};
ghost use Rattle.wt_called_edit_laws.specs.Untangled.{AreUntangledFrom};
ghost use Rattle.wt_span.specs.Origins.{OuterCall};
ghost use Rattle.wt_inline.specs.ItemTree.{ItemTree, plain};
ghost use Rattle.wt_part_laws.specs.Frames.{Frames};
ghost use Rattle.wt_part_laws.specs.TreeFrames.{TreeFrames};
ghost use Rattle.wt_called_edit_laws.specs.Nodes.{block_at, NodesStayIn};
ghost use Rattle.wt_called_edit_laws.specs.PathsTo.{paths_to, PathsSend};
ghost use Rattle.wt_called_edit_laws.specs.Sends.{ContentsMake};
ghost use Rattle.wt_called_edit_laws.specs.Stand.{BlocksStand, BlocksAreFree};
ghost use Rattle.wt_called_edit_laws.specs.TreeEdits.{IsNumberedBody, HasOwnEdits, AreFoundApart};
ghost use Rattle.wt_called_edit_laws.specs.CalledTexts.{TakesTextsAmong};
ghost use Rattle.wt_called_edit_laws.specs.ChosenContents.{HasContentEdits};
ghost use Rattle.wt_called_edit_laws.specs.ContentsTaken.{TakesContents};
ghost use Rattle.wt_called_edit_laws.specs.EditsAt.{Fits, AllStand};
ghost use Rattle.wt_called_edit_laws.specs.Settled.{IsSettled};
ghost use Rattle.wt_called_edit_laws.specs.PartTexts.{AreTextsOfPage, HasItsText, HaveOwnSources};
ghost use Rattle.wt_called_edit_laws.specs.SettledAt.{BlocksAtPaths};
ghost use Rattle.wt_called_edit_laws.specs.SettledPages.{OnlyTextsAreOthers, OnlyBlocksAreOthers};
ghost use Rattle.wt_called_edit_laws.specs.Covered.{CleanWhereFree, IsEditablePage};
ghost use Rattle.wt_called_edit_laws.specs.CallingBlocks.{IsContentIn, IsNewContentIn, AreEdited, AreCallingBlocks, tree_with_calls, CallingBlocksStand};
ghost use Rattle.wt_called_edit_laws.specs.CallingGroups.{AreCallingOutside, CallingGroupsStay, CallingNodesStay, block_with_groups};
ghost use Rattle.wt_part_laws.specs.HeldCalls.{block_in, HoldsItsCalls, AllHold, block_of_pieces};
ghost use Rattle.wt_text_edit_laws.specs.Contents.{IsContent};
ghost use Rattle.wt_text_edit_laws.specs.NoCalls.{CallsNothing};
ghost use Rattle.wt_called_edit_laws.specs.Written.{AreReadThings, AreOwnParts, written_items, written_calls, written_work, IsWrittenAs};
ghost use Rattle.wt_guards.specs.Content.{ContentSign};
ghost use Rattle.wt_guards.specs.Guards.{Setting, spelled};
ghost use Rattle.wt_text_edit_laws.specs.ReadContents.{IsFirmlyRead};
ghost use Rattle.wt_beside_laws.specs.Content.{content_items};
ghost use Rattle.wt_part_laws.specs.Expanded.{part_items};
ghost use Rattle.wt_beside_laws.specs.Called.{items_with, owns_in, parts_with, called_shown, IsCalledIn};
ghost use Rattle.wt_called_edit_laws.specs.CalledContents.{tree_round};
ghost use Rattle.wt_tree.specs.declared.kind.Kind.TheVariants as kind;
ghost use Rattle.wt_tree.specs.Plain.{Plains, ended, along, element, plain_before};
ghost use Rattle.wt_annotated.specs.CutTexts.{cut_texts};
ghost use Rattle.wt_selser.specs.GroupFaults.{paragraph_face};
ghost use Rattle.wt_called_edit_laws.specs.WrittenAnew.{node_sources, StayButForOthers, IsWrittenBeside, HoldsAnywhere, EachHolds};

mod body_paragraphs;
mod called_edits;
mod calling_pages;
mod in_pieces;
mod placed_blocks;
mod spelled_beside;
mod told_lines;

pub use body_paragraphs::{
    nodes_of_paragraphs_of_the_body_stay, paragraphs_of_the_body_are_edited,
    paragraphs_of_the_body_may_be_edited,
};
pub use called_edits::{contents_beside_calls_are_made, styles_beside_calls_are_made};
pub use calling_pages::{
    blocks_that_call_are_untangled, blocks_that_call_stay_where_nothing_is_written,
    blocks_with_calls_are_whole, contents_beside_calls_are_taken,
    edits_of_blocks_that_call_are_apart, edits_of_blocks_that_call_make_the_page,
    pages_whose_blocks_call_are_such_again, pages_whose_blocks_call_are_told_by_bytes,
    paragraphs_have_nodes_beside_calls,
};
pub use in_pieces::{
    headings_in_pieces_may_be_edited, letters_may_be_typed_before_calls,
    paragraphs_in_pieces_may_be_edited, paragraphs_in_pieces_may_be_written_anew,
    paragraphs_of_the_page_take_texts_beside_calls, pieces_are_read_by_themselves,
    texts_and_calls_are_nodes_of_their_heading, texts_and_calls_are_nodes_of_their_paragraph,
    texts_beside_calls_can_be_read_by_themselves,
};
pub use placed_blocks::{
    all_blocks_among_calls_may_be_edited, all_blocks_at_their_places_may_be_edited,
    blocks_at_their_places_may_be_edited, lines_of_a_page_are_blocks_of_it,
    lines_of_a_page_are_cut_at_its_blocks, lines_of_an_expanded_page_are_cut_at_its_blocks,
};
pub use told_lines::{
    blocks_are_told_by_their_lines, headings_are_told_by_their_lines, nodes_of_told_blocks_stay,
    untangled_blocks_are_shut,
};

/// A page with blocks among calls, and with calls in them, none of which goes over the end of a part, is expanded part by
/// part: its items are those of what stands before, between and behind the blocks, and of the blocks, with the numbers that
/// their calls have in the page; its calls are those of these parts, with their places; and so is the work.
pub fn pages_with_blocks_are_expanded_by_their_parts()
    ensures { (pages : Pages) (ss : List BlockSpot) (behind : List ℕ) → AreCalled pages ss behind → IsByParts pages ss behind }
{}

/// Where new contents are written in the blocks of such a page, with some of the calls that were there, and in which no two
/// braces are left, it is such a page again, it is no more work, and it is refused only if it was refused before. So it is
/// where texts are typed, and where any contents are written that call nothing.
pub fn pages_with_typed_texts_are_expanded_again()
    ensures typed { (pages : Pages) (ss rs : List BlockSpot) → AreRetyped ss rs → AreWrittenAnew pages ss rs }
    ensures again { (pages : Pages) (ss rs : List BlockSpot) (behind : List ℕ) → AreCalled pages ss behind → AreWrittenAnew pages ss rs
        → IsExpandedAgain pages ss rs behind }
{}

/// A page that calls nothing is such a page.
#[tactic(auto, using(crate::proofs::Parts::NoCallsCalled::read_called))]
pub fn pages_without_calls_are_such()
    ensures { (pages : Pages) (ss : List BlockSpot) (behind : List ℕ) → AreRead ss behind → AreCalled pages ss behind }
{}

/// A content of text that is typed and nodes that stay, calls among them (`AreReadThings`), gives, as it is written, what its
/// signs give, one after the other: its items are those of the characters, of the nowikis that are put, and of each node by
/// itself, with the numbers that its calls have there; its calls are those of its nodes, but for their places; and so is the
/// work of expanding it. No two braces are left in it, so it is a part of any page. It is read the same whatever stands
/// behind it, unless a `}` is first.
pub fn written_contents_give_what_their_signs_give()
    ensures gives { (pages : Pages) (s : Setting) (signs : List ContentSign) → s.within ≡ false → AreReadThings signs → AreOwnParts pages signs
        → IsWrittenAs pages (spelled s signs) (λ i. written_items pages s i [] signs) (written_calls pages signs) (written_work pages signs) }
    ensures firm { (k : TextBlock) (s : Setting) (signs : List ContentSign) → s.within ≡ false → AreReadThings signs → IsFirmlyRead k (spelled s signs) }
    ensures alone { (s : Setting) (signs : List ContentSign) → s.within ≡ false → AreReadThings signs
        → page_items (spelled s signs) ≡ content_items s [] signs }
{}

/// A paragraph in a cell of a table, which may be in a cell of another table, is at a place of the page's tree that its
/// text doesn't move: whatever the text is, it is in the same nodes, and everything before it and behind it is as it
/// was. Whatever somebody types, each of its lines stays text there, however many tables are open.
#[tactic(auto, using(crate::proofs::Cells::Cells::stands_in_cell, crate::proofs::Cells::Cells::typed_stays_text))]
pub fn typed_paragraph_stands_in_its_cell()
    ensures stands { (xs tail : List Item) → IsInCell xs tail → StandsInCell xs tail }
    ensures typed { (n : ℕ) (q : List ℕ) → IsTypedPage q → AreTextLines n (page_items q) }
{}

/// And so is a heading in a cell, between any lines: whatever text was typed in it, or written by hand, and whatever its
/// level is, however many tables are open, its line is a heading.
#[tactic(auto, using(crate::proofs::Cells::HeadingCells::heading_in_cell))]
pub fn heading_stands_in_its_cell()
    ensures { (xs tail : List Item) → IsHeadingInCell xs tail → HeadingStandsInCell xs tail }
{}

/// Such a paragraph takes any text: there is a path at which it is in the page's tree, and an edit that sends it marked
/// `content`, with any text typed in it, and all else as it is in the page, is done; in the new page the paragraph is
/// its text as it is spelled, and every other byte is what it was; unless the new page is longer than a page may be.
/// There is such an edit with each text: the one that sends every other node without marks. The new page is such a page
/// again.
#[tactic(auto, using(crate::proofs::Cells::Takes::takes_any))]
pub fn typed_paragraph_in_a_cell_takes_any_text()
    ensures takes { (c : CellPage) → IsCellPage c → TakesText c }
    ensures edit { (c : CellPage) (path : List ℕ) (m : Label) (text : List ℕ) → IsCellPage c → LeadsFrom path (children (part_tree (page_with c c.text))) → IsUtf8 text
        → IsCellEdit c path text (own_sents path m text (children (part_tree (page_with c c.text)))) }
    ensures again { (c : CellPage) (text : List ℕ) → IsCellPage c → IsUtf8 text
        → IsCellPage (record { before = c.before; text = typed_as paragraph c.text text; behind = c.behind }) }
{}

/// Without marks, too, as a browser sends it: where the text that was typed is another one than what the paragraph held,
/// `edit` of the difference is done, whatever marks the paragraph and the body have.
#[tactic(auto, using(crate::proofs::Cells::CellsUnmarked::takes_unmarked))]
pub fn typed_paragraph_in_a_cell_takes_any_text_without_marks()
    ensures { (c : CellPage) → IsCellPage c → TakesUnmarked c }
{}

/// Any number of texts at once, in paragraphs and headings anywhere: in the body, in cells and in captions, typed or
/// written by hand. Each is at a path of the page's tree, and an edit that sends texts typed in any of them, and all else
/// as it is in the page, is done: the new page has these texts, as they are spelled, and every other byte is what it was;
/// unless it is longer than a page may be. Without marks, too. For any texts there is such an edit. The new page is such
/// a page again.
#[tactic(auto, using(crate::proofs::Cells::AnyPages::any_take))]
pub fn blocks_anywhere_take_any_texts()
    ensures { (ss : List BlockSpot) (behind : List ℕ) → AreSpots ss behind → TakesAnyTexts ss behind }
{}

/// Such a page is each page of the class of `wt_text_edit_laws`, in which the paragraphs and headings are in the body.
#[tactic(auto, using(crate::proofs::Cells::BodyPages::body_spots))]
pub fn pages_with_blocks_in_the_body_are_such()
    ensures { (ss : List BlockSpot) (behind : List ℕ) → AreBlockSpots ss behind → AreSpots ss behind }
{}

/// And so is each page with one typed paragraph in a cell (`IsCellPage`).
pub fn pages_with_a_paragraph_in_a_cell_are_such()
    ensures { (c : CellPage) → IsCellPage c → AreSpots (record { before = c.before; block = a_paragraph; text = c.text } ∷ []) c.behind }
{}

/// Such blocks may be among calls, too, where no call goes over the end of a part, and each block is a block of its own
/// by what the calls give: each is at a place of the page's tree that texts typed in them don't move, and all else is
/// the same. With such texts it is such a page again.
pub fn blocks_among_calls_stand_at_their_places()
    ensures stand { (pages : Pages) (ss : List BlockSpot) (behind : List ℕ) → AreAmongCalls pages ss behind → StandAmongCalls pages ss behind }
    ensures again { (pages : Pages) (ss rs : List BlockSpot) (behind : List ℕ) → AreAmongCalls pages ss behind → AreRetyped ss rs
        → AreAmongCalls pages rs behind }
{}

/// And such blocks may hold calls, too. By what their calls give, each is a block of its own, at a place of the page's tree;
/// what is written in them beside their calls doesn't move it, and all else is the same. With such contents it is such a
/// page again. A content that calls nothing is such a content in each folder, and a page whose blocks call nothing is such
/// a page.
pub fn blocks_with_calls_stand_at_their_places()
    ensures stand { (pages : Pages) (ss : List BlockSpot) (behind : List ℕ) → AreCallingBlocks pages ss behind → CallingBlocksStand pages ss behind }
    ensures again { (pages : Pages) (ss rs : List BlockSpot) (behind : List ℕ) → AreCallingBlocks pages ss behind → AreEdited pages ss rs
        → AreCallingBlocks pages rs behind }
    ensures content { (pages : Pages) (k : TextBlock) (q : List ℕ) → IsContent k q → CallsNothing (block_items k q) → IsContentIn pages k q }
    ensures calm { (pages : Pages) (ss : List BlockSpot) (behind : List ℕ) → AreAmongCalls pages ss behind → AreCallingBlocks pages ss behind }
{}

/// What is written for texts beside calls (`IsCalledIn` of `wt_beside_laws`) gives what these calls give, and between them the texts as they are spelled,
/// and as a paragraph it holds its calls, however many calls come before it in the page. In the page's tree what each call gives is a group by itself, and
/// it shows the texts that were typed, and between them what each call shows by itself.
pub fn written_paragraphs_hold_their_calls()
    ensures gives { (pages : Pages) (i : ℕ) (s : Setting) (signs : List ContentSign) → IsCalledIn pages s signs → AreReadThings signs → AreOwnParts pages signs
        → part_items pages i (spelled s signs) ≡ items_with s [] signs (owns_in pages i signs) }
    ensures holds { (pages : Pages) (i : ℕ) (s : Setting) (signs : List ContentSign) → IsCalledIn pages s signs → AreReadThings signs → AreOwnParts pages signs
        → HoldsItsCalls (tree_round a_paragraph (part_items pages i (spelled s signs))) }
    ensures block { (pages : Pages) (calls : List OuterCall) (i : ℕ) (s : Setting) (signs : List ContentSign) → IsCalledIn pages s signs → AreReadThings signs
        → AreOwnParts pages signs → block_in calls (tree_round a_paragraph (part_items pages i (spelled s signs)))
        ≡ block_of_pieces calls (plain kind.Para) [] (parts_with s [] signs (owns_in pages i signs)) [] }
    ensures shown { (pages : Pages) (calls : List OuterCall) (i : ℕ) (s : Setting) (signs : List ContentSign) (rest : Plains) → IsCalledIn pages s signs
        → AreReadThings signs → AreOwnParts pages signs → plain_before (cut_texts (block_in calls (tree_round a_paragraph (part_items pages i (spelled s signs))))) rest
        ≡ along (element paragraph_face (called_shown signs (owns_in pages i signs) ended)) rest }
{}

/// Such a paragraph is a content in a folder, as it is written, and is a new one in the place of any other such paragraph whose nodes it has, in their order:
/// each that calls stays, and any other may go (`StayButForOthers`). So any texts may be typed beside these calls.
pub fn paragraphs_beside_calls_may_be_written_anew()
    ensures content { (pages : Pages) (s : Setting) (signs : List ContentSign) → IsWrittenBeside pages s signs → IsContentIn pages a_paragraph (spelled s signs) }
    ensures anew { (pages : Pages) (s : Setting) (t : Setting) (olds signs : List ContentSign) → IsWrittenBeside pages s olds → IsWrittenBeside pages t signs
        → StayButForOthers pages (node_sources olds) (node_sources signs) → IsNewContentIn pages a_paragraph (spelled s olds) (spelled t signs) }
{}

/// Blocks of which each holds its calls, however many come before it (`EachHolds`), hold them in their page: such paragraphs do, and so do contents
/// that call nothing.
pub fn blocks_hold_their_calls_in_their_page()
    ensures all { (pages : Pages) (ss : List BlockSpot) → EachHolds pages ss → AllHold (tree_with_calls pages 0 ss) (counted ss) }
    ensures written { (pages : Pages) (s : Setting) (signs : List ContentSign) → IsWrittenBeside pages s signs
        → HoldsAnywhere pages a_paragraph (spelled s signs) }
    ensures calm { (pages : Pages) (k : TextBlock) (q : List ℕ) → IsContent k q → CallsNothing (block_items k q) → HoldsAnywhere pages k q }
{}

/// A page that calls nothing (`AreContentSpots`) is such a page, too.
pub fn pages_without_calls_are_among_these()
    ensures { (pages : Pages) (ss : List BlockSpot) (behind : List ℕ) → AreContentSpots ss behind → AreAmongCalls pages ss behind }
{}

/// Where texts are typed in paragraphs and headings among calls, and no node round one of them is in a group, the page's
/// tree has the same groups and the same other nodes, whatever the texts are: but for numbers and places it is one tree
/// with these blocks at places in it. With such texts it is such a page again.
pub fn groups_stay_round_typed_texts()
    ensures again { (pages : Pages) (ss rs : List BlockSpot) (behind : List ℕ) → AreOutsideGroups pages ss behind → AreRetyped ss rs
        → AreOutsideGroups pages rs behind }
    ensures stay { (pages : Pages) (ss : List BlockSpot) (behind : List ℕ) → AreOutsideGroups pages ss behind → GroupsStayAmong pages ss behind }
{}

/// And so it is where the blocks hold calls (`AreCallingOutside`): whatever is written in them beside their calls, the page's
/// tree has the same groups round them and the same other nodes; each call of a block is a group in it. With such contents it
/// is such a page again.
pub fn groups_stay_round_blocks_that_call()
    ensures stay { (pages : Pages) (ss : List BlockSpot) (behind : List ℕ) → AreCallingOutside pages ss behind → CallingGroupsStay pages ss behind }
    ensures nodes { (pages : Pages) (ss : List BlockSpot) (behind : List ℕ) → AreCallingOutside pages ss behind → CallingNodesStay pages ss behind }
    ensures again { (pages : Pages) (ss rs : List BlockSpot) (behind : List ℕ) → AreCallingOutside pages ss behind → AreEdited pages ss rs
        → AllHold (tree_with_calls pages 0 rs) (counted rs) → AreCallingOutside pages rs behind }
{}

/// No call of such a page that is text shares a byte with one of the blocks.
#[tactic(auto, using(crate::proofs::FreeBlocks::blocks_free))]
pub fn text_calls_touch_no_block()
    ensures { (pages : Pages) (ss : List BlockSpot) (behind : List ℕ) → AreAmongCalls pages ss behind
        → AreFreeFrom (expanded_page pages (spots_source ss behind)).text_calls 0 ss }
{}

/// So it is of blocks that hold calls, if none of these is text itself.
#[tactic(auto, using(crate::proofs::FreeBlocks::calls_free))]
pub fn text_calls_touch_no_block_that_calls()
    ensures { (pages : Pages) (ss : List BlockSpot) (behind : List ℕ) → AreCalled pages ss behind → NoTextCalls pages ss
        → AreFreeFrom (expanded_page pages (spots_source ss behind)).text_calls 0 ss }
{}

/// So none of these blocks is tangled where it is in the page's tree: it can be read by itself.
#[tactic(auto, using(crate::proofs::Untangled::blocks_untangled))]
pub fn blocks_among_calls_are_untangled()
    ensures { (pages : Pages) (ss : List BlockSpot) (behind : List ℕ) → AreAmongCalls pages ss behind
        → AreUntangledFrom (expanded_page pages (spots_source ss behind)) (spots_source ss behind) (block_at (tree_by ss)) 0 ss }
{}

/// A page that calls nothing, and of which no node can only be kept as a whole (`AreContentSpots`), is such a page, whatever
/// its paragraphs and headings hold, and whatever pages the folder has. They may hold texts (`AreSpots`).
pub fn pages_without_calls_are_called_pages()
    ensures called { (pages : Pages) (ss : List BlockSpot) (behind : List ℕ) → AreContentSpots ss behind → IsCalledPage pages ss behind }
    ensures texts { (ss : List BlockSpot) (behind : List ℕ) → AreSpots ss behind → AreContentSpots ss behind }
{}

/// A page with calls, with places for paragraphs and headings in its body and in the cells and captions of its tables.
/// Where no node round a place is in a group, all other nodes stay the same but for numbers and places, the texts and
/// separators between the blocks, too.
#[tactic(auto, using(crate::proofs::CutFrames::nodes_stay))]
pub fn nodes_stay_round_blocks()
    ensures { (calls : List OuterCall) (fs : Frames) (t : ℕ → ItemTree) → NodesStayIn calls fs t }
{}

/// What is sent for such nodes, where the contents of some of the blocks are edited and all else stays, makes the same
/// nodes with the new blocks: this is their source in the new page, and what they show.
pub fn edited_contents_make_the_nodes()
    ensures { (fs : TreeFrames) (o : ℕ → Option Edited) (b c : ℕ → Tree) (es : Edits) → ContentsMake fs o b c es }
{}

/// Where nodes tile a page, and each range of one that is outside groups is a slice of the page (so it is of each page's
/// annotated tree), each block of them whose content is edited says where it is.
pub fn edited_blocks_say_where_they_are()
    ensures { (page : List ℕ) (from to : ℕ) (es : Edits) → BlocksStand page from to es }
{}

/// The paths of the places hang on no contents (`paths_to`). Where contents are edited at these paths, and all else
/// stays, what is sent for the blocks at the places are these edits.
pub fn edits_at_paths_are_sent_for_the_blocks()
    ensures { (fs : TreeFrames) (o : ℕ → Option Edited) (b : ℕ → Tree) (es : Edits) → PathsSend fs o b es }
{}

/// What holds blocks whose contents are edited is neither a leaf nor a group.
pub fn edited_blocks_are_outside_groups()
    ensures { (fs : TreeFrames) (o : ℕ → Option Edited) (b : ℕ → Tree) (es : Edits) → BlocksAreFree fs o b es }
{}

/// Whatever texts are chosen for the blocks at the places, there is an edit that types them: the one that sends every
/// other node as it is, without marks, and for a group the elements that are written for it.
pub fn any_texts_may_be_typed_at_paths()
    ensures { (t : Tree) (ss : List BlockSpot) (fs : TreeFrames) → IsNumberedBody t → AllLead ss (paths_to fs) t → HasOwnEdits t ss (paths_to fs) }
{}

/// Where no bold and no italic is in what a block holds (`IsFlatIn` of `wt_beside_laws`), any nodes of it may stay, in
/// their order, and any texts be between them: so much is asked of what is sent (`Fits`), and no more.
pub fn any_nodes_may_stay_without_styles()
    ensures { (k : TextBlock) (q : List ℕ) (n : ℕ) (before : List Item) (l m : Label) (ps : Pieces) → IsFlatIn k q → 0 < n
        → page_node (edited (block_of k) l m ps) ≡ standing n before (block_tree k q) → IsFlatEditOf k (standing n before (block_tree k q)) ps
        → Fits k q (edited (block_of k) l m ps) }
{}

/// And whatever contents that may be sent (`Fits`) are chosen for the blocks at the places, of which nodes each stays as
/// it is or is gone, there is an edit that sends these: every other node is sent so, too.
#[tactic(auto, using(crate::proofs::OwnContents::own_contents))]
pub fn any_contents_may_be_sent_at_paths()
    ensures { (t : Tree) (ss : List BlockSpot) (fs : TreeFrames) → IsNumberedBody t → AllStand ss (paths_to fs) t → HasContentEdits t ss (paths_to fs) }
{}

/// Without marks, too: where each content that was sent shows something else than what its block held, the difference
/// finds what was edited.
#[tactic(auto, using(crate::proofs::NodesTold::found_apart))]
pub fn edited_contents_at_places_are_told_apart()
    ensures { (t : Tree) (fs : TreeFrames) (o : ℕ → Option Edited) (b : ℕ → Tree) (es : Edits) → AreFoundApart t fs o b es }
{}

/// The contents of any number of paragraphs and headings at once, which are among any calls and which no group holds, in
/// the body, in cells and in captions. Each is at a path of the page's tree. An edit may put one text in the place of all
/// that a block holds; in a block whose content is read so (`IsStyledIn` of `wt_beside_laws`), it may also type texts beside
/// the nodes that it holds, delete and change texts, and delete nodes; so it may in bold and italic, which may also be new
/// (`Fits`). It is done: the new page has these contents, as they are spelled, and every other byte is what it was; unless
/// it is longer than a page may be. Without marks, too, where each edited block shows something else. For any such contents
/// there is such an edit. The new page is such a page again.
#[tactic(auto, using(crate::proofs::CallsTake::contents_taken))]
pub fn contents_among_calls_are_taken()
    ensures { (pages : Pages) (ss : List BlockSpot) (behind : List ℕ) → IsCalledPage pages ss behind → TakesContents pages ss behind }
{}

/// So any number of texts at once, in the places of all that such blocks hold. Each is at a path of the page's tree, and an edit that sends texts typed in any of them, and
/// all else as it is in the page, is done: the new page has these texts, as they are spelled, and every other byte is what
/// it was; unless it is longer than a page may be. Without marks, too. For any texts there is such an edit. The new page
/// is such a page again.
#[tactic(auto, using(crate::proofs::TextsTaken::texts_taken))]
pub fn texts_among_calls_are_taken()
    ensures { (pages : Pages) (ss : List BlockSpot) (behind : List ℕ) → IsCalledPage pages ss behind → TakesTextsAmong pages ss behind }
{}

/// The numbers and places of the tree of each page, without its sections, are those that the rest of it leaves: the nodes
/// count in preorder, and each begins where what comes before it ends.
#[tactic(auto, using(crate::proofs::PagesSettled::called_settled))]
pub fn numbers_and_places_hang_on_the_rest()
    ensures { (pages : Pages) (page : List ℕ) → IsSettled (called_tree pages page) }
{}

/// Whatever texts are typed in paragraphs and headings among calls, no node round one of which is in a group, nothing else
/// of the page's tree is another one: it is the tree of the same nodes, groups among them, with these blocks at their
/// places, its numbers and places counted anew.
#[tactic(auto, using(crate::proofs::SettledPages::only_texts))]
pub fn only_typed_texts_among_calls_are_others()
    ensures { (pages : Pages) (ss : List BlockSpot) (behind : List ℕ) → IsCalledPage pages ss behind → OnlyTextsAreOthers pages ss behind }
{}

/// So it is where these blocks hold calls: each is at its place with its groups.
#[tactic(auto, using(crate::proofs::SettledPages::only_blocks))]
pub fn only_blocks_that_call_are_others()
    ensures { (pages : Pages) (ss : List BlockSpot) (behind : List ℕ) → AreCallingOutside pages ss behind → OnlyBlocksAreOthers pages ss behind }
{}

/// Each of these blocks is at a path of the page's tree, with its groups, and with the number and the place that the rest of
/// the page leaves it.
#[tactic(auto, using(crate::proofs::SettledAt::blocks_at_paths))]
pub fn blocks_that_call_are_at_paths()
    ensures { (pages : Pages) (ss : List BlockSpot) (behind : List ℕ) → AreCallingOutside pages ss behind → BlocksAtPaths pages ss behind }
{}

/// What is on the page for the items of each of these blocks is the block, whatever calls come before it.
#[tactic(auto, using(crate::proofs::PartTexts::block_texts))]
pub fn blocks_are_on_the_page_for_their_items()
    ensures { (pages : Pages) (ss : List BlockSpot) (behind : List ℕ) → AreCalled pages ss behind → AreTextsOfPage pages ss behind }
{}

/// And the source of a block that holds its calls, with the groups in it, is that.
#[tactic(auto, using(crate::proofs::BlockTexts::block_flat))]
pub fn blocks_that_call_have_their_texts()
    ensures { (calls : List OuterCall) (t : ItemTree) → HasItsText calls t }
{}

/// So each block of such a page has its source in the page's tree, with the groups in it.
#[tactic(auto, using(crate::proofs::SpotSources::blocks_have))]
pub fn blocks_that_call_have_their_sources()
    ensures { (pages : Pages) (ss : List BlockSpot) (behind : List ℕ) → AreCallingOutside pages ss behind
        → first_refusal pages (spots_source ss behind) (page_work pages (spots_source ss behind)) ≡ None
        → HaveOwnSources (block_with_groups pages ss behind) ss }
{}

/// A page with calls, with places for blocks in its body and in the cells and captions of its tables. Where each of these
/// blocks has a byte that no group of its tree has, each node round them is clean: so groups stay what they are,
/// whatever the blocks are.
#[tactic(auto, using(crate::proofs::FreePlaces::clean_where_free))]
pub fn nodes_round_free_blocks_are_clean()
    ensures { (calls : List OuterCall) (fs : Frames) (t : ℕ → ItemTree) → CleanWhereFree calls fs t }
{}

/// So a page whose paragraphs and headings are among calls, none of which a group of its tree has, and that isn't refused
/// with what the folder has, is one of those of which edits are taken; and each of those is such a page.
pub fn pages_with_blocks_in_no_group_are_called_pages()
    ensures called { (pages : Pages) (ss : List BlockSpot) (behind : List ℕ) → IsEditablePage pages ss behind → IsCalledPage pages ss behind }
    ensures editable { (pages : Pages) (ss : List BlockSpot) (behind : List ℕ) → IsCalledPage pages ss behind → IsEditablePage pages ss behind }
{}
