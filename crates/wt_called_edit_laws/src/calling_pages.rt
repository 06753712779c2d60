//! Laws of pages of which blocks that hold calls may be edited beside these calls.

ghost use Rattle.std.specs.Prelude.{◌≡◌, ℕ, Option, None, List};
ghost use Rattle.wt_span.specs.Origins.{OuterCall};
ghost use Rattle.wt_annotated.specs.CutTexts.{cut_texts};
ghost use Rattle.wt_checks.specs.Kept.{children};
ghost use Rattle.wt_expand.specs.Expansion.{page_work};
ghost use Rattle.wt_expand.specs.PageCalls.{expanded_page};
ghost use Rattle.wt_expand.specs.Work.{Pages, first_refusal};
ghost use Rattle.wt_part_laws.specs.Expanded.{part_items};
ghost use Rattle.wt_part_laws.specs.HeldCalls.{block_in};
ghost use Rattle.wt_typed_blocks.specs.Edited.{Edited, Edits, page_nodes};
ghost use Rattle.wt_typed_blocks.specs.EditedPage.{LieAt, AreApart};
ghost use Rattle.wt_text_edit_laws.specs.BlockSpots.{BlockSpot, spots_source};
ghost use Rattle.wt_text_edit_laws.specs.TextBlocks.{a_paragraph};
ghost use Rattle.wt_called_edit_laws.specs.CalledContents.{tree_round};
ghost use Rattle.wt_called_edit_laws.specs.CalledTexts.{spots_tree};
ghost use Rattle.wt_called_edit_laws.specs.CallingBlocks.{AreEdited};
ghost use Rattle.wt_called_edit_laws.specs.CallingContents.{TakesContentsIn};
ghost use Rattle.wt_called_edit_laws.specs.CallingEdits.{AllTakeLetters, IsCallingPage, StaysAt, IsSentFor, MakesPage};
ghost use Rattle.wt_called_edit_laws.specs.CallingGroups.{AreCallingOutside, block_with_groups, CallingNodesStay};
ghost use Rattle.wt_called_edit_laws.specs.Covered.{IsEditablePage};
ghost use Rattle.wt_called_edit_laws.specs.EditableBlocks.{IsEditableWithCalls};
ghost use Rattle.wt_called_edit_laws.specs.FreeBlocks.{NoTextCalls};
ghost use Rattle.wt_called_edit_laws.specs.Sends.{AllSend};
ghost use Rattle.wt_called_edit_laws.specs.Settled.{settled};
ghost use Rattle.wt_called_edit_laws.specs.Uncalled.{SomeNoGroup};
ghost use Rattle.wt_called_edit_laws.specs.Untangled.{AreUntangledFrom, AreWhole};
ghost use Rattle.wt_called_edit_laws.specs.WholeContents.{EachWhole, IsWholeIn};
ghost use Rattle.wt_called_edit_laws.specs.WrittenAnew.{EachHolds, HoldsAnywhere};

/// With other contents beside the calls of its blocks (`AreEdited`), each of which holds its calls, takes letters before them and can be read by
/// itself (`IsWholeIn`), such a page is one again: it is expanded, and its nodes stay.
#[tactic(auto, using(crate::proofs::CallingPages::calling_again))]
pub fn pages_whose_blocks_call_are_such_again()
    ensures { (pages : Pages) (ss rs : List BlockSpot) (behind : List ℕ) → IsCallingPage pages ss behind → AreEdited pages ss rs → EachHolds pages rs
        → AllTakeLetters pages rs → NoTextCalls pages rs → EachWhole pages rs → IsCallingPage pages rs behind }
{}

/// Then a block in which nothing else is written is the same, with its groups.
#[tactic(auto, using(crate::proofs::CallingPages::block_stays))]
pub fn blocks_that_call_stay_where_nothing_is_written()
    ensures { (pages : Pages) (ss rs : List BlockSpot) (behind : List ℕ) (n : ℕ) → IsCallingPage pages ss behind → AreEdited pages ss rs → StaysAt ss rs n
        → block_with_groups pages ss behind n ≡ block_with_groups pages rs behind n }
{}

/// Where each block calls nothing, or holds text and nodes of the page beside calls that give what may be groups, and no node of it ends in an open tag
/// (`IsWholeIn`), each can be read by itself where it is in the page's tree: no tag is open in it, and no group in it has a fault (`AreWhole`).
#[tactic(auto, using(crate::proofs::Whole::Blocks::blocks_whole))]
pub fn blocks_with_calls_are_whole()
    ensures { (pages : Pages) (ss : List BlockSpot) (behind : List ℕ) → AreCallingOutside pages ss behind
        → first_refusal pages (spots_source ss behind) (page_work pages (spots_source ss behind)) ≡ None → EachWhole pages ss
        → AreWhole (expanded_page pages (spots_source ss behind)) (block_with_groups pages ss behind) 0 ss }
{}

/// None of these blocks is tangled where it is in the page's tree: it can be read by itself.
#[tactic(auto, using(crate::proofs::CallingApart::calling_untangled))]
pub fn blocks_that_call_are_untangled()
    ensures { (pages : Pages) (ss : List BlockSpot) (behind : List ℕ) → IsCallingPage pages ss behind
        → AreUntangledFrom (expanded_page pages (spots_source ss behind)) (spots_source ss behind) (block_with_groups pages ss behind) 0 ss }
{}

/// So where contents are edited at the places of the page's nodes, and nowhere else, none of these is refused since its block is tangled.
#[tactic(auto, using(crate::proofs::CallingApart::calling_apart))]
pub fn edits_of_blocks_that_call_are_apart()
    ensures { (pages : Pages) (ss : List BlockSpot) (behind : List ℕ) (f : CallingNodesStay pages ss behind) (o : ℕ → Option Edited) (es : Edits)
        → IsCallingPage pages ss behind → AllSend o f.nodes es → page_nodes es ≡ children (spots_tree pages ss behind) → LieAt 0 es
        → AreApart (expanded_page pages (spots_source ss behind)) (spots_source ss behind) es }
{}

/// And where each content that is sent makes its block with the groups in it (`IsSentFor`), what is sent makes the new page: its bytes, and what it
/// shows (`MakesPage`).
#[tactic(auto, using(crate::proofs::CallingSent::page_made))]
pub fn edits_of_blocks_that_call_make_the_page()
    ensures { (pages : Pages) (ss rs : List BlockSpot) (behind : List ℕ) (f : CallingNodesStay pages ss behind) (o : ℕ → Option Edited) (es : Edits)
        → IsCallingPage pages ss behind → AreEdited pages ss rs → EachHolds pages rs → IsSentFor pages ss rs behind f o es → MakesPage pages rs behind es }
{}

/// The contents of any number of these blocks at once, of those that hold calls and of those that call nothing. Each is at a path of the page's tree with
/// its groups. Where a block calls nothing, an edit may send for it what it may send in any such block; where it holds calls, texts may be
/// typed, changed and deleted beside these, and other nodes deleted, in a paragraph that isn't calls alone, and in bold and italic, too, which may be new,
/// with what calls give in it, if that has none of its own (`FitsIn`). It is done: the new page has these contents, as they are spelled, and every other
/// byte is what it was; unless it is longer than a page may be. Without marks, too, where each edited block shows something else. For any such contents
/// there is such an edit. The new page is such a page again.
#[tactic(auto, using(crate::proofs::CallingTaken::contents_taken))]
pub fn contents_beside_calls_are_taken()
    ensures { (pages : Pages) (ss : List BlockSpot) (behind : List ℕ) → IsCallingPage pages ss behind → TakesContentsIn pages ss behind }
{}

/// Such a page is told by its bytes: where each of its blocks, which call nothing or hold calls that give what may be groups, has a byte that no group of its tree has, and
/// the page isn't refused (`IsEditableWithCalls`), it is one. Each page of those whose blocks call nothing (`IsEditablePage`) is told so, too.
pub fn pages_whose_blocks_call_are_told_by_bytes()
    ensures calling { (pages : Pages) (ss : List BlockSpot) (behind : List ℕ) → IsEditableWithCalls pages ss behind → IsCallingPage pages ss behind }
    ensures calm { (pages : Pages) (ss : List BlockSpot) (behind : List ℕ) → IsEditablePage pages ss behind → IsEditableWithCalls pages ss behind }
{}

/// A paragraph that holds its calls, and can be read by itself, has a node that is no group, whatever the calls give: something in it is the page's own.
#[tactic(auto)]
pub fn paragraphs_have_nodes_beside_calls()
    ensures { (pages : Pages) (calls : List OuterCall) (n s i : ℕ) (q : List ℕ) → HoldsAnywhere pages a_paragraph q → IsWholeIn pages a_paragraph q
        → SomeNoGroup (children (settled n s (cut_texts (block_in calls (tree_round a_paragraph (part_items pages i q)))))) }
{}
