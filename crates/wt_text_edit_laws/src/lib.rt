//! Laws of text edits: a page takes any text that somebody types in its paragraphs and headings.
#![tactic(auto)]

ghost use Rattle.std.specs.Prelude.{◌≡◌, ◌≤◌, ◌+◌, ◌*◌, ℕ, List, length, Option, false, None, Some, ◌++◌, ◌∷◌, map};
ghost use Rattle.std.specs.List.{flat_map};
ghost use Rattle.std.specs.Str.{IsUtf8};
ghost use Rattle.wt_span.specs.declared.limits.TheConstants.{HTML_BYTES, PAGE_BYTES};
ghost use Rattle.wt_span.specs.Items.{Item, char};
ghost use Rattle.wt_span.specs.Origins.{Expanded};
ghost use Rattle.wt_isolation.specs.GroupItems.{empty_nowiki};
ghost use Rattle.wt_isolation.specs.OpenTags.{before, touches_open_tag};
ghost use Rattle.wt_isolation.specs.TextCalls.{touches_text_call};
ghost use Rattle.wt_selser.specs.Edits.{is_tangled};
ghost use Rattle.wt_selser.specs.GroupFaults.{is_faulty};
ghost use Rattle.wt_span.specs.declared.form.Mode.TheVariants.{Page};
ghost use Rattle.wt_tree.specs.Tree.{Label, Trees, tree};
ghost use Rattle.wt_tree.specs.declared.edit_shape.Place.TheVariants as place;
ghost use Rattle.wt_inline.specs.Carried.{shown_item};
ghost use Rattle.wt_devices.specs.Device.{Pages};
ghost use Rattle.wt_guards.specs.Content.{letters};
ghost use Rattle.wt_guards.specs.Guards.{Setting, spelled};
ghost use Rattle.wt_inline.specs.declared.loose.Loose.TheVariants.{Text};
ghost use Rattle.wt_inline.specs.Parts.{parts};
ghost use Rattle.wt_tiles.specs.declared.context.Context.{Context};
ghost use Rattle.wt_checks.specs.Kept.{children};
ghost use Rattle.wt_sections.specs.Sections.{with_sections};
ghost use Rattle.wt_expand.specs.PageCalls.{expanded_page};
ghost use Rattle.wt_expand.specs.PageItems.{page_items};
ghost use Rattle.wt_context.specs.Line.{within};
ghost use Rattle.wt_part_laws.specs.Lexer.{lexer};
ghost use Rattle.wt_part_laws.specs.Scans.{Settles};
ghost use Rattle.wt_annotated.specs.CutTexts.{cut_texts};
ghost use Rattle.wt_annotated.specs.WithoutCalls.{annotated};
ghost use Rattle.wt_schema.specs.Read.{page as as_page, read};
ghost use Rattle.wt_visible.specs.Children.{shown_children};
ghost use Rattle.wt_part_laws.specs.Placeless.{all_placeless, by_themselves};
ghost use Rattle.wt_page.specs.Body.{meaning};
ghost use Rattle.wt_content.specs.Content.{has_break};
ghost use Rattle.wt_page_round_trip.specs.PageTree.{page_tree};
ghost use Rattle.wt_edit.specs.Edits.{refusal_of_page};
ghost use Rattle.wt_commands.specs.Answers.{answer_told, done, edit_of, edit_to};
ghost use Rattle.wt_commands.specs.Words.{command_of};
ghost use Rattle.wt_commands.specs.declared.command.Command.TheVariants.{Edit};
ghost use Rattle.wt_commands.specs.UnmarkedEdits.{DoneByEdit};
ghost use Rattle.wt_text_edit_laws.specs.LoneEdits.{sent, typed_in};
ghost use Rattle.wt_text_edit_laws.specs.LonePages.{lone_page, of_items, one_shown};
ghost use Rattle.wt_text_edit_laws.specs.PlainTexts.{IsPlainText};
ghost use Rattle.wt_text_edit_laws.specs.StillItems.{StillItems};
ghost use Rattle.wt_text_edit_laws.specs.TypedPages.{IsTypedPage};
ghost use Rattle.wt_text_edit_laws.specs.ProsePages.{Passage, prose, AreProse, IsProsePage};
ghost use Rattle.wt_text_edit_laws.specs.ProseTrees.{prose_page};
ghost use Rattle.wt_text_edit_laws.specs.ProseUnmarked.{unmarked_prose, IsUnmarkedEdit};
ghost use Rattle.wt_text_edit_laws.specs.ProseEdits.{PassageEdit, old_passages, new_passages, sent_prose, IsProseEdit};
ghost use Rattle.wt_text_edit_laws.specs.ProseChanges.{ProseChange, passages_before, changed_prose, passages_changed, IsProseChange};
ghost use Rattle.wt_text_edit_laws.specs.UnmarkedChanges.{unmarked_change, IsUnmarkedChange};
ghost use Rattle.wt_text_edit_laws.specs.NoCalls.{CallsNothing};
ghost use Rattle.wt_text_edit_laws.specs.PlainGroups.{IsPlainLine, AreOneText, HavePlainGroups};
ghost use Rattle.wt_text_edit_laws.specs.ReadContents.{BeginsUnclosed};
ghost use Rattle.wt_text_edit_laws.specs.SignParts.{AreSigned};
ghost use Rattle.wt_text_edit_laws.specs.TextBetween.{AreWholeLines, AreEnded, HasEndsBefore, BeginsShown, StandsBefore, StandsBehind};
ghost use Rattle.wt_text_edit_laws.specs.Paragraphs.{IsParagraph};
ghost use Rattle.wt_text_edit_laws.specs.ParagraphBetween.{EndsApart, EndsParagraph, blocks_in, body_round, AreClosed, before_marks, body_with};
ghost use Rattle.wt_text_edit_laws.specs.TypedHeadings.{Sides, AreSides, heading_line, heading_with, IsHeadingText, IsOfLevel, StandsApart, EndsLine};
ghost use Rattle.wt_text_edit_laws.specs.Parts.{part_tree};
ghost use Rattle.wt_text_edit_laws.specs.BlockSpots.{BlockSpot, spots_source, page_blocks, AreBlockSpots, SameRound, AreBlocks, AsAWhole};
ghost use Rattle.wt_text_edit_laws.specs.BlockEdits.{BlockEdit, new_spots, old_page, new_page, sent_page, IsBlockEdit};
ghost use Rattle.wt_text_edit_laws.specs.OwnNodes.{TypedSpot, spots_of, AreTypedSpots, own_edit};
ghost use Rattle.wt_text_edit_laws.specs.UnmarkedBlocks.{unmarked_page, IsUnmarkedBlockEdit};

mod cut_pages;

pub use cut_pages::{
    paragraphs_of_the_body_are_lines_of_text, parts_of_a_page_are_read_by_themselves,
    settled_parts_have_ends,
};

// ---- a typed text, and a page that is one paragraph

/// Text of a paragraph, a heading, an item or a cell, whatever somebody typed there, calls nothing: as a
/// page of its own it has no calls and no arguments, nothing is fetched for it, and nothing refuses it.
#[tactic(auto, using(crate::proofs::Texts::TypedText::typed_expanded, crate::proofs::Texts::TypedText::typed_unrefused))]
pub fn typed_text_calls_nothing()
    ensures expanded { (pages : Pages) (s : Setting) (text : List ℕ) → IsUtf8 text
        → expanded_page pages (spelled s (letters text)) ≡ of_items (page_items (spelled s (letters text))) }
    ensures unrefused { (pages : Pages) (s : Setting) (text : List ℕ) → IsUtf8 text → refusal_of_page pages (spelled s (letters text)) ≡ None }
{}

/// What somebody types, whatever it is, is characters, references and nowikis among which nothing begins,
/// and these show the text.
#[tactic(auto, using(crate::proofs::Texts::TypedItems::typed_still, crate::proofs::Texts::TypedItems::typed_shows))]
pub fn typed_text_is_still()
    ensures still { (s : Setting) (text : List ℕ) → StillItems (page_items (spelled s (letters text))) }
    ensures shows { (s : Setting) (text : List ℕ) → IsUtf8 text → flat_map shown_item (page_items (spelled s (letters text))) ≡ text }
{}

/// Plain text is spelled as it is: `edit` puts no `<nowiki/>` into it and writes no character as a
/// reference, whatever the source of its paragraph was.
#[tactic(auto, using(crate::proofs::Texts::PlainSpelling::plain_spelled))]
pub fn plain_text_stands()
    ensures { (source text : List ℕ) → IsPlainText text
        → spelled (record { within = false; place = place.Paragraph; source = source }) (letters text) ≡ text }
{}

/// A page that is plain text is one paragraph that holds one text, whatever the folder has: its tree is
/// that, and nothing refuses its expansion.
#[tactic(auto, using(crate::proofs::Texts::TakesText::tree_of_plain, crate::proofs::Texts::TakesText::plain_unrefused_page))]
pub fn plain_page_is_one_paragraph()
    ensures tree { (pages : Pages) (page : List ℕ) → IsPlainText page → page_tree pages page ≡ lone_page page }
    ensures unrefused { (pages : Pages) (page : List ℕ) → IsPlainText page → refusal_of_page pages page ≡ None }
{}

/// A page that is one paragraph of plain text takes any other plain text: an edit that sends its
/// paragraph marked `content` with this text in it is done, and the new page is this text. So it is, too,
/// for each input that is read as such a tree, and so the command `edit` answers, over a folder that has
/// the page.
#[tactic(auto, using(crate::proofs::Texts::TakesText::takes_text, crate::proofs::Texts::TakesText::edit_takes_text, crate::proofs::Texts::TakesText::command_takes_text))]
pub fn lone_paragraph_takes_text()
    ensures tree { (pages : Pages) (page text : List ℕ) (b p t : Label) → IsPlainText page → IsPlainText text → length text ≤ PAGE_BYTES
        → edit_to pages page (sent b p t text) ≡ done text }
    ensures edit { (pages : Pages) (page text input : List ℕ) (b p t : Label) (unsourced : Option ℕ) → IsPlainText page → IsPlainText text
        → length page ≤ PAGE_BYTES → length text ≤ PAGE_BYTES → length input ≤ HTML_BYTES → read input ≡ as_page (sent b p t text) unsourced
        → edit_of pages (Some page) input ≡ done text }
    ensures command { (pages : Pages) (words : List (List ℕ)) (title page text input : List ℕ) (b p t : Label) (unsourced : Option ℕ)
        → command_of words ≡ Some (Edit title) → pages title ≡ Some page → IsPlainText page → IsPlainText text
        → length page ≤ PAGE_BYTES → length text ≤ PAGE_BYTES → length input ≤ HTML_BYTES → read input ≡ as_page (sent b p t text) unsourced
        → answer_told (Some pages) (Some input) words ≡ Some (done text) }
{}

/// Characters, references and nowikis among which nothing begins stay in every context as they are: no
/// link, tag, style or switch is made of them.
#[tactic(auto, using(crate::proofs::Texts::StillLines::still_within))]
pub fn still_text_is_text()
    ensures { (n : ℕ) (cx : Context) (xs : List Item) → StillItems xs → within n cx xs ≡ parts Text xs }
{}

/// What somebody types, whatever it is, is spelled as UTF-8, in at most 15 bytes for each byte of it and
/// nine more, and as a page of its own it is one paragraph that shows the text.
#[tactic(auto, using(crate::proofs::Texts::SpelledUtf8::spelled_utf8, crate::proofs::Texts::SpelledLength::spelled_length, crate::proofs::Texts::TypedPages::typed_tree_shows))]
pub fn typed_text_is_shown()
    ensures utf8 { (s : Setting) (text : List ℕ) → IsUtf8 text → IsUtf8 (spelled s (letters text)) }
    ensures length { (s : Setting) (text : List ℕ) → IsUtf8 text → length (spelled s (letters text)) ≤ 15 * length text + 9 }
    ensures shows { (pages : Pages) (s : Setting) (text : List ℕ) → IsUtf8 text → s.within ≡ false
        → shown_children (page_tree pages (spelled s (letters text))) ≡ one_shown text }
{}

/// A page that somebody typed as one paragraph takes any text, whatever somebody types, with whatever line
/// breaks, or none at all: an edit that sends its paragraph marked `content` with this text in it is done,
/// and the new page is the text as it is spelled, unless that is longer than a page may be. So it is, too,
/// for each input that is read as such a tree, and so the command `edit` answers, over a folder that has
/// the page. Plain text is such a page, and each new page is one again.
#[tactic(auto, using(crate::proofs::Texts::TakesAnyText::takes_any, crate::proofs::Texts::TakesAnyText::edit_takes_any, crate::proofs::Texts::TakesAnyText::command_takes_any, crate::proofs::Texts::TakesAnyText::plain_typed, crate::proofs::Texts::TakesAnyText::typed_again))]
pub fn lone_paragraph_takes_any_text()
    ensures tree { (pages : Pages) (page text : List ℕ) (b p t : Label) → IsTypedPage page → IsUtf8 text → length (typed_in page text) ≤ PAGE_BYTES
        → edit_to pages page (sent b p t text) ≡ done (typed_in page text) }
    ensures edit { (pages : Pages) (page text input : List ℕ) (b p t : Label) (unsourced : Option ℕ) → IsTypedPage page → IsUtf8 text
        → length page ≤ PAGE_BYTES → length (typed_in page text) ≤ PAGE_BYTES → length input ≤ HTML_BYTES
        → read input ≡ as_page (sent b p t text) unsourced → edit_of pages (Some page) input ≡ done (typed_in page text) }
    ensures command { (pages : Pages) (words : List (List ℕ)) (title page text input : List ℕ) (b p t : Label) (unsourced : Option ℕ)
        → command_of words ≡ Some (Edit title) → pages title ≡ Some page → IsTypedPage page → IsUtf8 text
        → length page ≤ PAGE_BYTES → length (typed_in page text) ≤ PAGE_BYTES → length input ≤ HTML_BYTES
        → read input ≡ as_page (sent b p t text) unsourced
        → answer_told (Some pages) (Some input) words ≡ Some (done (typed_in page text)) }
    ensures plain { (page : List ℕ) → IsPlainText page → IsTypedPage page }
    ensures again { (page text : List ℕ) → IsUtf8 text → IsTypedPage (typed_in page text) }
{}

// ---- typed paragraphs with empty lines between them

/// Prose calls nothing: it has no calls and no arguments, whatever the folder has, nothing is fetched for it,
/// and nothing refuses it.
#[tactic(auto, using(crate::proofs::Prose::ProseReading::prose_expanded, crate::proofs::Prose::ProseReading::prose_unrefused))]
pub fn prose_calls_nothing()
    ensures expanded { (pages : Pages) (ps : List Passage) → AreProse ps → expanded_page pages (prose ps) ≡ of_items (page_items (prose ps)) }
    ensures unrefused { (pages : Pages) (ps : List Passage) → AreProse ps → refusal_of_page pages (prose ps) ≡ None }
{}

/// Its tree is a section that holds each of its paragraphs, whatever was typed in it, as one paragraph, and one
/// separator for the line breaks after it.
#[tactic(auto, using(crate::proofs::Prose::ProseTakes::page_is))]
pub fn prose_is_paragraphs()
    ensures { (pages : Pages) (ps : List Passage) → AreProse ps → page_tree pages (prose ps) ≡ prose_page ps }
{}

/// Prose takes any texts: an edit that sends any of its paragraphs marked `content`, each with any text typed in
/// it, and the others as they are, is done, and in the new page each of these paragraphs is its text as it is
/// spelled, and every other byte is what it was; unless the new page is longer than a page may be. So it is, too,
/// for each input that is read as such a tree, and so the command `edit` answers, over a folder that has the page.
/// A page that was typed as one paragraph is prose, and each new page is prose again.
#[tactic(auto, using(crate::proofs::Prose::ProseTakes::takes_texts, crate::proofs::Prose::ProseTakes::edit_takes_texts, crate::proofs::Prose::ProseTakes::command_takes_texts, crate::proofs::Prose::ProseTakes::lone_prose, crate::proofs::Prose::ProseTakes::again))]
pub fn prose_takes_any_texts()
    ensures tree { (pages : Pages) (es : List PassageEdit) (b : Label) → IsProseEdit es → length (prose (new_passages es)) ≤ PAGE_BYTES
        → edit_to pages (prose (old_passages es)) (sent_prose b es) ≡ done (prose (new_passages es)) }
    ensures edit { (pages : Pages) (es : List PassageEdit) (input : List ℕ) (b : Label) (unsourced : Option ℕ) → IsProseEdit es
        → length (prose (old_passages es)) ≤ PAGE_BYTES → length (prose (new_passages es)) ≤ PAGE_BYTES → length input ≤ HTML_BYTES
        → read input ≡ as_page (sent_prose b es) unsourced
        → edit_of pages (Some (prose (old_passages es))) input ≡ done (prose (new_passages es)) }
    ensures command { (pages : Pages) (es : List PassageEdit) (words : List (List ℕ)) (title input : List ℕ) (b : Label) (unsourced : Option ℕ)
        → command_of words ≡ Some (Edit title) → pages title ≡ Some (prose (old_passages es)) → IsProseEdit es
        → length (prose (old_passages es)) ≤ PAGE_BYTES → length (prose (new_passages es)) ≤ PAGE_BYTES → length input ≤ HTML_BYTES
        → read input ≡ as_page (sent_prose b es) unsourced
        → answer_told (Some pages) (Some input) words ≡ Some (done (prose (new_passages es))) }
    ensures lone { (page : List ℕ) → IsTypedPage page → IsProsePage page }
    ensures again { (es : List PassageEdit) → IsProseEdit es → IsProsePage (prose (new_passages es)) }
{}

/// Without marks, too, as a browser sends it: where each text that was typed is another one than what its paragraph
/// held, `edit` of the difference is done, whatever marks the input has. So `selser`, which is never refused then
/// (`run` promises that), takes it.
#[tactic(auto, using(crate::proofs::Prose::ProseUnmarked::unmarked_done))]
pub fn unmarked_prose_is_taken()
    ensures { (pages : Pages) (es : List PassageEdit) (stands : Option (List ℕ)) (input : List ℕ) (b : Label) (unsourced : Option ℕ)
        → IsUnmarkedEdit es → stands ≡ Some (prose (old_passages es)) → length (prose (old_passages es)) ≤ PAGE_BYTES
        → length (prose (new_passages es)) ≤ PAGE_BYTES → length input ≤ HTML_BYTES
        → read input ≡ as_page (unmarked_prose b es) unsourced → DoneByEdit pages stands input }
{}

/// Paragraphs come into prose and go from it: an edit that sends the body marked `children`, some of its paragraphs as
/// they are, in their order, and any number of new ones with any texts before, between and after these, is done, unless
/// the new page is longer than a page may be. In the new page two line breaks are before each new paragraph, and so many
/// as the page had, or one more, after those that are side by side; what isn't sent is gone, but for the line breaks
/// after it; and every other byte is what it was. Asked is that the new page begins with a paragraph: the first one stays,
/// or a new one is before it. So it is, too, for each input that is read as such a tree, and so the command `edit`
/// answers, over a folder that has the page. The new page is prose again.
#[tactic(auto, using(crate::proofs::Prose::ChangesTaken::takes_changes, crate::proofs::Prose::ChangesTaken::edit_takes_changes, crate::proofs::Prose::ChangesTaken::command_takes_changes, crate::proofs::Prose::ChangesTaken::changed_again))]
pub fn paragraphs_come_and_go()
    ensures tree { (pages : Pages) (c : ProseChange) (b : Label) → IsProseChange c → length (prose (passages_changed c)) ≤ PAGE_BYTES
        → edit_to pages (prose (passages_before c.changes)) (changed_prose b c) ≡ done (prose (passages_changed c)) }
    ensures edit { (pages : Pages) (c : ProseChange) (input : List ℕ) (b : Label) (unsourced : Option ℕ) → IsProseChange c
        → length (prose (passages_before c.changes)) ≤ PAGE_BYTES → length (prose (passages_changed c)) ≤ PAGE_BYTES
        → length input ≤ HTML_BYTES → read input ≡ as_page (changed_prose b c) unsourced
        → edit_of pages (Some (prose (passages_before c.changes))) input ≡ done (prose (passages_changed c)) }
    ensures command { (pages : Pages) (c : ProseChange) (words : List (List ℕ)) (title input : List ℕ) (b : Label) (unsourced : Option ℕ)
        → command_of words ≡ Some (Edit title) → pages title ≡ Some (prose (passages_before c.changes)) → IsProseChange c
        → length (prose (passages_before c.changes)) ≤ PAGE_BYTES → length (prose (passages_changed c)) ≤ PAGE_BYTES
        → length input ≤ HTML_BYTES → read input ≡ as_page (changed_prose b c) unsourced
        → answer_told (Some pages) (Some input) words ≡ Some (done (prose (passages_changed c))) }
    ensures again { (c : ProseChange) → IsProseChange c → IsProsePage (prose (passages_changed c)) }
{}

/// Without marks, too, as a browser sends it: where a paragraph comes or goes, `edit` of the difference is done, whatever
/// mark is on the body. So `selser`, which is never refused then (`run` promises that), takes it.
#[tactic(auto, using(crate::proofs::Prose::ChangesUnmarked::unmarked_done))]
pub fn unmarked_changes_of_prose_are_taken()
    ensures { (pages : Pages) (c : ProseChange) (stands : Option (List ℕ)) (input : List ℕ) (b : Label) (unsourced : Option ℕ)
        → IsUnmarkedChange c → stands ≡ Some (prose (passages_before c.changes)) → length (prose (passages_before c.changes)) ≤ PAGE_BYTES
        → length (prose (passages_changed c)) ≤ PAGE_BYTES → length input ≤ HTML_BYTES
        → read input ≡ as_page (unmarked_change b c) unsourced → DoneByEdit pages stands input }
{}

// ---- braces that make no call

/// A page in which no two opening braces side by side come before two closing ones calls nothing, whatever the folder
/// has: it has no calls and no arguments, nothing is fetched for it, and nothing refuses it. Braces inside of comments,
/// nowikis and tags of extensions don't count.
#[tactic(auto, using(crate::proofs::Between::NoCalls::calm_expanded, crate::proofs::Between::NoCalls::calm_unrefused))]
pub fn unpaired_braces_call_nothing()
    ensures expanded { (pages : Pages) (page : List ℕ) → CallsNothing (page_items page) → expanded_page pages page ≡ of_items (page_items page) }
    ensures unrefused { (pages : Pages) (page : List ℕ) → CallsNothing (page_items page) → refusal_of_page pages page ≡ None }
{}

// ---- groups of plain text

/// A group that shows a line of plain text, as a call gave it, has no fault: read alone it is one paragraph of this text,
/// none of its apostrophes switches a style, and none of its texts could go on. So a block whose groups are such, in its
/// bold and italic nodes, too, and that touches no text call and no open tag, isn't tangled.
#[tactic(auto, using(crate::proofs::PlainGroups::no_fault, crate::proofs::PlainGroups::untangled))]
pub fn groups_of_plain_text_have_no_fault()
    ensures group { (call : Option ℕ) (text : List ℕ) (ts : Trees) → IsPlainLine text → AreOneText ts text
        → is_faulty (empty_nowiki ∷ map (char call) text) ts ≡ false }
    ensures block { (page : Expanded) (bytes : List ℕ) (l : Label) (ts : Trees) → HavePlainGroups page ts
        → touches_text_call page.text_calls l.ranges ≡ false → touches_open_tag (before bytes l.ranges) (tree l ts) ≡ false
        → is_tangled page bytes (tree l ts) ≡ false }
{}

// ---- a text between two other parts of a page

/// Of lines in which each comment, raw tag and hidden part ends that begins in them, every lexeme is read of them
/// alone, whatever follows them: none goes over their end. So it is where a raw tag has no closing tag, neither in
/// them nor in what follows, and where comments or tags come after the last line break, before what doesn't begin with
/// a line of comments and blanks. Where the sign of a table's end or a rule comes last, or the end of a call on whose last line
/// no `<` is behind the last `>`, what follows on its line is read by itself, if it doesn't begin with a `}`.
#[tactic(auto, using(crate::proofs::Between::LineForms::lines_settle, crate::proofs::Between::LineForms::marks_settle, crate::proofs::Blocks::SignReading::signed_items))]
pub fn lines_end_lexemes()
    ensures lines { (rest q : List ℕ) → AreWholeLines q → HasEndsBefore rest q → Settles (lexer Page) rest false 0 q }
    ensures marks { (rest q : List ℕ) → AreEnded q → HasEndsBefore rest q → BeginsShown rest → Settles (lexer Page) rest false 0 q }
    ensures signs { (rest q : List ℕ) → AreSigned q → HasEndsBefore rest q → BeginsUnclosed rest → page_items (q ++ rest) ≡ page_items q ++ page_items rest }
{}

/// Whatever somebody types between two parts of a page, the items of the page are those of the part before, of the
/// text and of the part after, each read as a page of its own. Where the two parts call nothing with no text between
/// them, nothing is called, and nothing refuses the page.
#[tactic(auto, using(crate::proofs::Between::TextReads::items_between, crate::proofs::Between::TextReads::expanded_between, crate::proofs::Between::TextReads::unrefused_between))]
pub fn texts_are_read_between()
    ensures items { (before text behind : List ℕ) → StandsBefore before → IsTypedPage text → StandsBehind behind
        → page_items (before ++ (text ++ behind)) ≡ page_items before ++ (page_items text ++ page_items behind) }
    ensures expanded { (pages : Pages) (before text behind : List ℕ) → StandsBefore before → IsTypedPage text → StandsBehind behind
        → CallsNothing (page_items before ++ page_items behind) → expanded_page pages (before ++ (text ++ behind)) ≡ of_items (page_items (before ++ (text ++ behind))) }
    ensures unrefused { (pages : Pages) (before text behind : List ℕ) → StandsBefore before → IsTypedPage text → StandsBehind behind
        → CallsNothing (page_items before ++ page_items behind) → refusal_of_page pages (before ++ (text ++ behind)) ≡ None }
{}

// ---- a typed paragraph among any other blocks

/// A typed paragraph after lines that leave no table open and don't end with text, or at the page's start, and before
/// something else than text, or the page's end, is a paragraph of the body. The body's other children are those that
/// what comes before it and what comes after it make by themselves, whatever its text is.
#[tactic(auto, using(crate::proofs::Paragraphs::Paragraphs::stands_between))]
pub fn typed_paragraph_stands_by_itself()
    ensures { (xs : List Item) (q : List ℕ) (tail : List Item) → EndsApart xs → IsParagraph q → EndsParagraph tail
        → meaning (xs ++ (page_items q ++ tail)) ≡ body_round (blocks_in xs) (page_items q) (blocks_in tail) }
{}

// ---- a heading with a text among any other blocks

/// A heading with a text on a line by itself, with blanks or none beside the text, and blanks, comments and include
/// tags or nothing after the last `=`, after whole lines that leave no table open, and lines of comments or none, is a
/// heading of the body, of as many `=` as it has. The body's other children are
/// those that what comes before it and what comes after it make by themselves, whatever its text is.
#[tactic(auto, using(crate::proofs::Headings::HeadingRows::heading_stands))]
pub fn heading_stands_by_itself()
    ensures { (xs : List Item) (s : Sides) (own tail : List Item) → AreClosed (before_marks xs) → AreSides s → IsHeadingText own → IsOfLevel s own → EndsLine tail
        → meaning (xs ++ (heading_line s own ++ tail)) ≡ body_with (blocks_in xs ++ heading_with s own ∷ blocks_in tail) }
{}

/// Any text on one line, as the content of a heading spells it, is such a text, and neither begins nor ends with a `=`
/// that would belong to the delimiters, whatever blanks are beside it, or none.
pub fn typed_texts_are_heading_texts()
    ensures text { (s : Setting) (text : List ℕ) → s.within ≡ false → s.place ≡ place.Heading → IsUtf8 text → has_break text ≡ false
        → IsHeadingText (page_items (spelled s (letters text))) }
    ensures apart { (s : Setting) (text : List ℕ) (sides : Sides) → s.within ≡ false → s.place ≡ place.Heading → IsUtf8 text
        → has_break text ≡ false → AreSides sides → StandsApart sides (page_items (spelled s (letters text))) }
{}

// ---- pages of typed paragraphs and headings among any other blocks

/// A page of typed paragraphs and headings among any other blocks has what each of its parts makes as a page by
/// itself, and these paragraphs and headings between; its tree is that with numbers and places in order. It calls
/// nothing, whatever the folder has, and nothing refuses it. With any other texts in them it is such a page again,
/// where these pair no braces of the page and close none of its tags, as no typed text does.
#[tactic(auto, using(crate::proofs::Blocks::BlocksRead::spots_expanded, crate::proofs::Blocks::BlocksRead::spots_unrefused, crate::proofs::Blocks::BlockMeaning::spots_meaning, crate::proofs::Blocks::BlockTrees::tree_of_spots, crate::proofs::Blocks::BlocksAgain::spots_utf8, crate::proofs::Blocks::BlocksAgain::spots_again))]
pub fn blocks_stand_round_typed_texts()
    ensures expanded { (pages : Pages) (ss : List BlockSpot) (behind : List ℕ) → AreBlockSpots ss behind
        → expanded_page pages (spots_source ss behind) ≡ of_items (page_items (spots_source ss behind)) }
    ensures unrefused { (pages : Pages) (ss : List BlockSpot) (behind : List ℕ) → AreBlockSpots ss behind
        → refusal_of_page pages (spots_source ss behind) ≡ None }
    ensures means { (ss : List BlockSpot) (behind : List ℕ) → AreBlockSpots ss behind
        → meaning (page_items (spots_source ss behind)) ≡ body_with (page_blocks ss behind) }
    ensures tree { (ss : List BlockSpot) (behind : List ℕ) → AreBlockSpots ss behind
        → part_tree (spots_source ss behind) ≡ cut_texts (annotated (body_with (page_blocks ss behind))) }
    ensures utf8 { (ss : List BlockSpot) (behind : List ℕ) → AreBlockSpots ss behind → IsUtf8 (spots_source ss behind) }
    ensures again { (ss rs : List BlockSpot) (behind : List ℕ) → AreBlockSpots ss behind → SameRound ss rs → AreBlocks rs
        → AsAWhole rs behind → AreBlockSpots rs behind }
{}

/// Such a page takes any texts in them, in a heading any on one line: an edit that sends any of these paragraphs and
/// headings marked `content`, each with any text typed in it, and all else as it is, is done, and in the new page
/// each of them has its text as its block's content spells it, between the same delimiters, and every other byte is
/// what it was; unless the new page is longer than a page may be. So it is, too, for each input that is read as such
/// a tree, and so the command `edit` answers, over a folder that has the page. The new page is such a page again.
#[tactic(auto, using(crate::proofs::Blocks::BlocksTake::page_is, crate::proofs::Blocks::BlocksTake::takes_texts, crate::proofs::Blocks::BlocksTake::edit_takes_texts, crate::proofs::Blocks::BlocksTake::command_takes_texts, crate::proofs::Blocks::BlocksTake::again))]
pub fn typed_blocks_take_any_texts()
    ensures page { (pages : Pages) (ss : List BlockSpot) (behind : List ℕ) → AreBlockSpots ss behind
        → page_tree pages (spots_source ss behind) ≡ with_sections (part_tree (spots_source ss behind)) }
    ensures tree { (pages : Pages) (e : BlockEdit) (b : Label) → IsBlockEdit e → length (new_page e) ≤ PAGE_BYTES
        → edit_to pages (old_page e) (sent_page b e) ≡ done (new_page e) }
    ensures edit { (pages : Pages) (e : BlockEdit) (input : List ℕ) (b : Label) (unsourced : Option ℕ) → IsBlockEdit e
        → length (old_page e) ≤ PAGE_BYTES → length (new_page e) ≤ PAGE_BYTES → length input ≤ HTML_BYTES
        → read input ≡ as_page (sent_page b e) unsourced → edit_of pages (Some (old_page e)) input ≡ done (new_page e) }
    ensures command { (pages : Pages) (e : BlockEdit) (words : List (List ℕ)) (title input : List ℕ) (b : Label) (unsourced : Option ℕ)
        → command_of words ≡ Some (Edit title) → pages title ≡ Some (old_page e) → IsBlockEdit e
        → length (old_page e) ≤ PAGE_BYTES → length (new_page e) ≤ PAGE_BYTES → length input ≤ HTML_BYTES
        → read input ≡ as_page (sent_page b e) unsourced → answer_told (Some pages) (Some input) words ≡ Some (done (new_page e)) }
    ensures again { (e : BlockEdit) → IsBlockEdit e → AreBlockSpots (new_spots e.spots) e.behind }
{}

/// There is such an edit of each such page, with any texts: the one that sends every other node as it is in the page,
/// without marks.
pub fn pages_have_such_edits()
    ensures { (l : Label) (rs : List TypedSpot) (behind : List ℕ) → AreBlockSpots (spots_of rs) behind → AreTypedSpots rs
        → IsBlockEdit (own_edit l rs behind) }
{}

/// Without marks, too, as a browser sends it: where each text that was typed is another one than what its paragraph
/// or heading held, `edit` of the difference is done, whatever marks the input has. So `selser`, which is never
/// refused then (`run` promises that), takes it.
#[tactic(auto, using(crate::proofs::Blocks::BlocksUnmarked::unmarked_done))]
pub fn unmarked_blocks_are_taken()
    ensures { (pages : Pages) (e : BlockEdit) (stands : Option (List ℕ)) (input : List ℕ) (b : Label) (unsourced : Option ℕ)
        → IsUnmarkedBlockEdit e → stands ≡ Some (old_page e) → length (old_page e) ≤ PAGE_BYTES → length (new_page e) ≤ PAGE_BYTES
        → length input ≤ HTML_BYTES → read input ≡ as_page (unmarked_page b e) unsourced → DoneByEdit pages stands input }
{}

/// And no other block becomes another one: numbers and places aside, the tree of such a page has, one after the
/// other, what each of its blocks is by itself, and of these only the typed paragraphs and headings are others in the
/// new page.
#[tactic(auto, using(crate::proofs::Blocks::OtherBlocks::blocks_alone))]
pub fn other_blocks_stay_the_same()
    ensures { (ss : List BlockSpot) (behind : List ℕ) → AreBlockSpots ss behind
        → all_placeless (children (part_tree (spots_source ss behind))) ≡ by_themselves (page_blocks ss behind) }
{}
