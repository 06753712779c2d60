//! Laws of paragraphs and headings of the page that hold calls, cut in pieces: other texts are written beside what stays.

ghost use Rattle.std.specs.Prelude.{◌≡◌, ◌<◌, ℕ, false, List, []};
ghost use Rattle.wt_tree.specs.Tree.{Tree};
ghost use Rattle.wt_span.specs.Origins.{OuterCall};
ghost use Rattle.wt_annotated.specs.CutTexts.{cut_texts};
ghost use Rattle.wt_guards.specs.Content.{ContentSign, Thing};
ghost use Rattle.wt_guards.specs.Guards.{Setting, spelled};
ghost use Rattle.wt_expand.specs.PageCalls.{expanded_page};
ghost use Rattle.wt_expand.specs.Work.{Pages};
ghost use Rattle.wt_part_laws.specs.Expanded.{part_items};
ghost use Rattle.wt_part_laws.specs.HeldCalls.{block_in};
ghost use Rattle.wt_text_edit_laws.specs.TextBlocks.{a_paragraph, a_heading, source_of};
ghost use Rattle.wt_text_edit_laws.specs.TypedHeadings.{Sides};
ghost use Rattle.wt_called_edit_laws.specs.CalledContents.{tree_round};
ghost use Rattle.wt_called_edit_laws.specs.CalledEdits.{page_things, IsBesideCalls};
ghost use Rattle.wt_called_edit_laws.specs.CallingBlocks.{IsContentIn, IsNewContentIn};
ghost use Rattle.wt_called_edit_laws.specs.CallingEdits.{TakesLetters};
ghost use Rattle.wt_called_edit_laws.specs.EditableBlocks.{HoldsCalls};
ghost use Rattle.wt_called_edit_laws.specs.InPieces.{pieces_source, AreInPieces, AreReadApart};
ghost use Rattle.wt_beside_laws.specs.Called.{HasUncalled};
ghost use Rattle.wt_beside_laws.specs.Lines.{AreCharacters};
ghost use Rattle.wt_beside_laws.specs.Stood.{things};
ghost use Rattle.wt_called_edit_laws.specs.PageThings.{AllMeetLater, ArePageThings, ThingsStay, thing_sources};
ghost use Rattle.wt_called_edit_laws.specs.PiecedParagraphs.{AreCallsApart, IsInPieces, IsHeadingInPieces, IsTextAndCalls, IsHeadingOfCalls};
ghost use Rattle.wt_called_edit_laws.specs.PartTexts.{AreSourcesAt};
ghost use Rattle.wt_called_edit_laws.specs.Settled.{settled};
ghost use Rattle.wt_called_edit_laws.specs.WholeContents.{HoldsGroups};
ghost use Rattle.wt_called_edit_laws.specs.WrittenAnew.{node_sources, StayButForOthers, IsWrittenBeside};

/// A paragraph of the page, whatever it is, may be cut in pieces (`AreInPieces`): texts, calls and other nodes, of which each gives what it gives by
/// itself. A paragraph of texts beside some of these pieces, in their order, each that calls among them, is a new content in its place.
pub fn paragraphs_in_pieces_may_be_written_anew()
    ensures { (pages : Pages) (bs : List (List ℕ)) (s : Setting) (signs : List ContentSign) → AreInPieces pages bs → IsWrittenBeside pages s signs
        → StayButForOthers pages bs (node_sources signs) → IsNewContentIn pages a_paragraph (pieces_source bs) (spelled s signs) }
{}

/// A paragraph is cut so where it is read as its pieces are (`AreReadApart`): texts without braces, and calls that are parts of the page by themselves.
pub fn pieces_are_read_by_themselves()
    ensures { (pages : Pages) (bs : List (List ℕ)) → AreReadApart pages bs → AreInPieces pages bs }
{}

/// So any texts may be typed beside the calls and the other nodes of a paragraph of the page (`ArePageThings`): the calls give what may be a group, each node
/// stays what it is beside text, and no two that the page has side by side join. Each that calls stays, any other may go, and something is written that is no call: a text, another node, or `<nowiki/>`.
pub fn paragraphs_of_the_page_take_texts_beside_calls()
    ensures beside { (pages : Pages) (olds : List Thing) (s : Setting) (signs : List ContentSign) → s.within ≡ false → AreCharacters signs → HasUncalled s [] signs
        → ArePageThings pages olds → ThingsStay pages olds (things signs) → IsWrittenBeside pages s signs }
    ensures anew { (pages : Pages) (bs : List (List ℕ)) (olds : List Thing) (s : Setting) (signs : List ContentSign) → AreInPieces pages bs
        → StayButForOthers pages bs (thing_sources olds) → ArePageThings pages olds → s.within ≡ false → AreCharacters signs → HasUncalled s [] signs
        → ThingsStay pages olds (things signs) → IsNewContentIn pages a_paragraph (pieces_source bs) (spelled s signs) }
{}

/// What is written so can be read by itself, wherever it is in a page (`HoldsGroups`): in its block no tag is open, and no group has a fault.
pub fn texts_beside_calls_can_be_read_by_themselves()
    ensures { (pages : Pages) (s : Setting) (signs : List ContentSign) → IsWrittenBeside pages s signs → HoldsGroups pages a_paragraph (spelled s signs) }
{}

/// In the place of such a paragraph two contents may be written that are the same but for their first letter (`TakesLetters`); and so they may in the
/// place of what was written for it.
pub fn letters_may_be_typed_before_calls()
    ensures page { (pages : Pages) (bs : List (List ℕ)) (olds : List Thing) → AreInPieces pages bs → StayButForOthers pages bs (thing_sources olds)
        → ArePageThings pages olds → TakesLetters pages a_paragraph (pieces_source bs) }
    ensures again { (pages : Pages) (s : Setting) (signs : List ContentSign) → IsWrittenBeside pages s signs → ArePageThings pages (things signs)
        → TakesLetters pages a_paragraph (spelled s signs) }
{}

/// So a paragraph of the page, whoever wrote it, is one of which texts may be typed beside its calls (`IsInPieces`): it is a content in this folder,
/// and holds its calls.
pub fn paragraphs_in_pieces_may_be_edited()
    ensures content { (pages : Pages) (q : List ℕ) → IsInPieces pages q → IsContentIn pages a_paragraph q }
    ensures calls { (pages : Pages) (q : List ℕ) → IsInPieces pages q → HoldsCalls pages a_paragraph q }
{}

/// And so is a heading of the page in pieces (`IsHeadingInPieces`).
pub fn headings_in_pieces_may_be_edited()
    ensures content { (pages : Pages) (s : Sides) (q : List ℕ) → IsHeadingInPieces pages s q → IsContentIn pages (a_heading s) q }
    ensures calls { (pages : Pages) (s : Sides) (q : List ℕ) → IsHeadingInPieces pages s q → HoldsCalls pages (a_heading s) q }
{}

/// Where a paragraph is texts and calls alone (`IsTextAndCalls`), it is such a one, and its node in the page's tree is one of which texts are typed beside
/// the calls (`IsBesideCalls`), wherever it is and whatever calls come before it: a text for each text, and a group for each call. Where two calls are side by side, what they give must be such as may meet (`AllMeetLater`); it is so where a text is behind each call, or nothing (`AreCallsApart`).
pub fn texts_and_calls_are_nodes_of_their_paragraph()
    ensures pieces { (pages : Pages) (q : List ℕ) → IsTextAndCalls pages q → IsInPieces pages q }
    ensures nodes { (pages : Pages) (q : List ℕ) (block : Tree) (n at i : ℕ) (calls : List OuterCall) → 0 < n
        → block ≡ settled n at (cut_texts (block_in calls (tree_round a_paragraph (part_items pages i q))))
        → AreSourcesAt calls i (expanded_page pages q).outer → IsTextAndCalls pages q → AllMeetLater pages (page_things block)
        → IsBesideCalls pages a_paragraph q block }
    ensures apart { (pages : Pages) (q : List ℕ) (block : Tree) (n at i : ℕ) (calls : List OuterCall) → 0 < n
        → block ≡ settled n at (cut_texts (block_in calls (tree_round a_paragraph (part_items pages i q))))
        → (h : IsTextAndCalls pages q) → AreCallsApart pages h.pieces → AllMeetLater pages (page_things block) }
{}

/// And where a heading is texts and such calls (`IsHeadingOfCalls`), so is its node, by the calls of the whole heading.
pub fn texts_and_calls_are_nodes_of_their_heading()
    ensures pieces { (pages : Pages) (s : Sides) (q : List ℕ) → IsHeadingOfCalls pages s q → IsHeadingInPieces pages s q }
    ensures nodes { (pages : Pages) (s : Sides) (q : List ℕ) (block : Tree) (n at i : ℕ) (calls : List OuterCall) → 0 < n
        → block ≡ settled n at (cut_texts (block_in calls (tree_round (a_heading s) (part_items pages i q))))
        → AreSourcesAt calls i (expanded_page pages (source_of (a_heading s) q)).outer → IsHeadingOfCalls pages s q
        → AllMeetLater pages (page_things block) → IsBesideCalls pages (a_heading s) q block }
    ensures apart { (pages : Pages) (s : Sides) (q : List ℕ) (block : Tree) (n at i : ℕ) (calls : List OuterCall) → 0 < n
        → block ≡ settled n at (cut_texts (block_in calls (tree_round (a_heading s) (part_items pages i q))))
        → (h : IsHeadingOfCalls pages s q) → AreCallsApart pages h.pieces → AllMeetLater pages (page_things block) }
{}
