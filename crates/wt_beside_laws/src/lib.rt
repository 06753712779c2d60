//! Laws of texts that are typed beside nodes that stay: how such a content is read, and that edits which type them are done.
#![tactic(auto)]

ghost use Rattle.std.specs.Prelude.{◌≡◌, ◌≤◌, ◌<◌, ℕ, ◌+◌, Bool, false, Some, None, List, [], ◌∷◌, ◌++◌, length, map, Option};
ghost use Rattle.wt_span.specs.Items.{Item};
ghost use Rattle.wt_guards.specs.Content.{ContentSign};
ghost use Rattle.wt_guards.specs.Guards.{Setting, spelled};
ghost use Rattle.std.specs.Str.{IsUtf8};
ghost use Rattle.wt_expand.specs.PageItems.{page_items};
ghost use Rattle.wt_expand.specs.PageCalls.{expanded_page};
ghost use Rattle.wt_expand.specs.Work.{Pages, first_refusal};
ghost use Rattle.wt_expand.specs.Expansion.{page_work};
ghost use Rattle.wt_text_edit_laws.specs.LonePages.{of_items};
ghost use Rattle.wt_beside_laws.specs.Calm.{AreCalm, AreUtf8Nodes};
ghost use Rattle.wt_lines.specs.Lines.{lines};
ghost use Rattle.wt_isolation.specs.OpenTags.{any_ends_open};
ghost use Rattle.wt_inline.specs.ItemTree.{forest};
ghost use Rattle.wt_inline.specs.Parts.{children};
ghost use Rattle.wt_annotated.specs.WithoutCalls.{AllNonEmpty};
ghost use Rattle.wt_context.specs.Line.{line_parts};
ghost use Rattle.wt_page.specs.Body.{meaning};
ghost use Rattle.wt_page.specs.Rows.{rows};
ghost use Rattle.wt_page.specs.Texts.{para};
ghost use Rattle.wt_text_edit_laws.specs.ParagraphParts.{joined_parts, para_with};
ghost use Rattle.wt_text_edit_laws.specs.ParagraphBetween.{AreClosed, before_marks, EndsApart, EndsParagraph, blocks_in, body_with};
ghost use Rattle.wt_text_edit_laws.specs.ReadContents.{BeginsUnjoined};
ghost use Rattle.wt_text_edit_laws.specs.TextBetween.{StandsBehind};
ghost use Rattle.wt_tiles.specs.declared.glyph.Glyph.{Glyph as Sign};
ghost use Rattle.wt_tiles.specs.declared.shape.Shape.{Shape as Tile};
ghost use Rattle.wt_tiles.specs.Contexts.{in_line};
ghost use Rattle.wt_tiles.specs.Glyphs.{glyph_of, first_is};
ghost use Rattle.wt_tiles.specs.Links.{link_at};
ghost use Rattle.wt_tiles.specs.Tiles.{size, cuts};
ghost use Rattle.wt_tiles.specs.Urls.{scheme_len, ext_link_at, bare_url_at};
ghost use Rattle.wt_beside_laws.specs.Beginnings.{IsApart};
ghost use Rattle.wt_beside_laws.specs.Content.{AreKept, content_items};
ghost use Rattle.wt_beside_laws.specs.Cuts.{IsFree, content_cut};
ghost use Rattle.wt_beside_laws.specs.Flat.{AreFlat, IsFlatContent, content_parts, line_content, IsReadIn};
ghost use Rattle.wt_beside_laws.specs.Glyphs.{content_glyphs, IsPast, AllAvoid};
ghost use Rattle.wt_beside_laws.specs.InHeadings.{IsHeadingContent, KeepsLevel, heading_of};
ghost use Rattle.wt_page.specs.Headings.{heading};
ghost use Rattle.wt_text_edit_laws.specs.TypedHeadings.{Sides, AreSides, heading_line, IsOfLevel, IsHeadingInside, EndsLine};
ghost use Rattle.wt_beside_laws.specs.Led.{BeginsUnled, AreMarksLed};
ghost use Rattle.wt_beside_laws.specs.Lines.{AreCharacters, AreUnbroken, line_items, content_lines, AreLinesOfText};
ghost use Rattle.wt_beside_laws.specs.Nodes.{AreNodes, AllStayOpen, NoneOpensPair, AllMeet};
ghost use Rattle.wt_beside_laws.specs.Shown.{parts_shown_at, content_shown};
ghost use Rattle.wt_tree.specs.Plain.{Plains};
ghost use Rattle.wt_beside_laws.specs.PageSigns.{signs_of_lines, AreFlatLines};
ghost use Rattle.wt_tree.specs.EditShapes.{edit_shape};
ghost use Rattle.wt_tree.specs.Tree.{Label, Tree as Block, tree, Trees, label};
ghost use Rattle.wt_content.specs.Content.{is_paragraph, bad_content};
ghost use Rattle.wt_typed_blocks.specs.Edited.{Pieces, page_pieces, sent_pieces, PiecesStay, pieces_before};
ghost use Rattle.wt_tree.specs.declared.edit_shape.Place.{Place as Where};
ghost use Rattle.wt_tree.specs.declared.edit_shape.Place.TheVariants as place;
ghost use Rattle.wt_original.specs.Page.{Page as Known, page_of, TellsSame};
ghost use Rattle.wt_link_spelling.specs.Spelling.{signs_of_all, children_of};
ghost use Rattle.wt_beside_laws.specs.OwnSigns.{own_signs, IsFlatBlock};
ghost use Rattle.wt_beside_laws.specs.PageBlocks.{AreUnstyled, AreShut, ShowSources, IsBlockOfLines};
ghost use Rattle.wt_beside_laws.specs.SentNodes.{AreSent, numbers};
ghost use Rattle.wt_beside_laws.specs.SentPieces.{OnlyTextsGo, HaveNoStyle, TextsFit, PiecesShow};
ghost use Rattle.wt_beside_laws.specs.Stood.{AreStood, AreAt, things};
ghost use Rattle.wt_beside_laws.specs.Tiles.{IsPlainLink, IsPastUrl};
ghost use Rattle.wt_span.specs.declared.limits.TheConstants.{HTML_BYTES, PAGE_BYTES};
ghost use Rattle.wt_schema.specs.Read.{page as as_page, read};
ghost use Rattle.wt_commands.specs.UnmarkedEdits.{DoneByEdit};
ghost use Rattle.wt_commands.specs.Answers.{done, edit_to};
ghost use Rattle.wt_beside_laws.specs.FlatPages.{IsFlatPage, IsFlatEdit, sent_flat, new_flat, IsUnmarkedFlatEdit, bare_flat};
ghost use Rattle.wt_part_laws.specs.Standing.{standing};
ghost use Rattle.wt_text_edit_laws.specs.Contents.{IsContent};
ghost use Rattle.wt_text_edit_laws.specs.TextBlocks.{TextBlock, block_tree};
ghost use Rattle.wt_beside_laws.specs.ContentEdits.{new_content, MakesContent};
ghost use Rattle.wt_beside_laws.specs.FlatBlocks.{IsFlatEditOf};
ghost use Rattle.wt_beside_laws.specs.StyledIn.{IsFlatIn, IsStyledEditOf};
ghost use Rattle.wt_tiles.specs.declared.glyph.GlyphClass.TheVariants as class;

mod called;
mod styles;
mod untangled;

pub use called::{
    groups_of_what_calls_give_have_no_fault, lines_with_calls_have_even_toggles,
    nothing_that_is_typed_joins_a_group, styles_beside_calls_are_one_paragraph,
    texts_beside_calls_are_one_paragraph, texts_beside_calls_are_shown,
    texts_beside_calls_are_such_in_a_folder, texts_beside_calls_hold_these,
    texts_beside_calls_may_be_in_headings, what_a_call_gives_is_each_by_itself,
};
pub use styles::{
    blocks_with_styles_have_their_nodes, contents_sent_with_styles_are_such,
    contents_with_styles_are_such_again, contents_with_styles_may_take_their_place,
    lines_of_comments_begin_lines, lines_with_styles_have_even_toggles,
    nodes_of_the_page_stay_in_styles, styled_contents_are_made, styles_that_nest_are_read,
    texts_in_styles_are_one_paragraph, texts_in_styles_are_shown,
    texts_in_styles_may_be_in_headings, texts_in_styles_stand_between_lines,
    texts_sent_in_styles_are_such, typed_texts_make_nothing_else,
};
pub use untangled::{
    contents_read_by_themselves_take_styles, marks_of_a_page_end, pages_whose_marks_end_may_go_on,
    untangled_blocks_are_contents, untangled_paragraphs_of_the_body_are_contents,
};

/// A content of text that is typed and of nodes that stay, as it is spelled, makes no lexeme over the border of a text and
/// a node: its items are those of each node by itself, the characters and references of the text, and the nowikis that
/// are put between. So they are before whatever stands behind the content, if that begins with nothing that goes on with a
/// reference, which a URL at its end may begin (`BeginsUnjoined`).
#[tactic(auto, using(crate::proofs::Marks::Commented::content_alone, crate::proofs::Marks::Commented::content_before))]
pub fn texts_beside_nodes_make_no_lexeme()
    ensures alone { (s : Setting) (signs : List ContentSign) → IsReadIn s signs → page_items (spelled s signs) ≡ content_items s [] signs }
    ensures before { (s : Setting) (signs : List ContentSign) (rest : List ℕ) → IsReadIn s signs → StandsBehind rest → BeginsUnjoined rest
        → page_items (spelled s signs ++ rest) ≡ content_items s [] signs ++ page_items rest }
{}

/// A link to a page or a category that ends where some items end is the same tile whatever is read behind them, unless
/// that begins with a letter that joins it; an external link in any case; and a bare URL unless an item of a URL is
/// first behind it.
#[tactic(auto, using(crate::proofs::LinkTiles::link_stays, crate::proofs::UrlTiles::ext_stays, crate::proofs::UrlTiles::bare_stays))]
pub fn links_and_urls_stay()
    ensures link { (a b : Sign) (gs rest : List Sign) (w : Tile) → IsPlainLink gs → first_is class.Trail rest ≡ false → size w ≤ 2 + length gs
        → link_at (a ∷ b ∷ gs) ≡ Some w → link_at (a ∷ b ∷ (gs ++ rest)) ≡ Some w }
    ensures external { (a : Sign) (gs rest : List Sign) (w : Tile) → size w ≤ 1 + length gs → ext_link_at (a ∷ gs) ≡ Some w → ext_link_at (a ∷ (gs ++ rest)) ≡ Some w }
    ensures bare { (gs rest : List Sign) (w : Tile) → IsPastUrl rest → bare_url_at false gs ≡ Some w → bare_url_at false (gs ++ rest) ≡ Some w }
{}

/// At no character that is typed does a URL begin, whatever nodes stay beside the text, where none of these begins with a
/// character with which the beginning of a URL goes on, and none of these is behind the content.
#[tactic(auto, using(crate::proofs::TypedTiles::scheme_none))]
pub fn no_url_begins_in_typed_text()
    ensures { (s : Setting) (before after : List ContentSign) (rest : List Sign) (g : Sign) → AllAvoid after → IsPast rest
        → scheme_len (g ∷ content_glyphs s before after rest) ≡ 0 }
{}

/// The tiles of such a content in a line are those of its signs, one after the other: each node that stays is its own tile,
/// each reference and each nowiki that is put is one, and the characters between them are runs. So they are before what is
/// behind the content, if that joins no node, begins neither what goes on with a URL nor a switch, and is read so whatever
/// comes before it. Nodes between which nothing is put are to stand as they may stand in a page, and none is a tag that opens a
/// pair without its closing tag (`NoneOpensPair`): more would close it on its line alone.
#[tactic(auto, using(crate::proofs::Marks::Tiles::tiles_alone, crate::proofs::NodesBegin::tiles_before))]
pub fn texts_beside_nodes_make_no_tile()
    ensures alone { (s : Setting) (signs : List ContentSign) → IsReadIn s signs → NoneOpensPair signs → AllMeet s [] signs []
        → cuts in_line false 0 (map glyph_of (page_items (spelled s signs))) ≡ content_cut in_line s [] signs (0, []) }
    ensures before { (s : Setting) (signs : List ContentSign) (rest : List Sign) → AreNodes signs → NoneOpensPair signs → AllMeet s [] signs rest → IsApart rest
        → IsFree in_line rest → cuts in_line false 0 (content_glyphs s [] signs rest) ≡ content_cut in_line s [] signs (cuts in_line false 0 rest) }
{}

/// The nodes that a content has of a page stay, and meet as they may: where each is read in the page as a form that takes all
/// of its items (`AreStood`) and has its place there (`AreAt`), whatever is typed between them, each is what its role says
/// (`AreNodes`), and between two of which one is not parted from the other nothing joins them (`AllMeet`): they stood so in
/// the page, or the table of signs that may not be next to each other has no pair for them. Where a node is a tag that opens a
/// pair, none in what is behind it on its line is to close it (`AllStayOpen`).
#[tactic(auto, using(crate::proofs::PageNodes::nodes_stay, crate::proofs::PageNodes::nodes_meet))]
pub fn nodes_of_the_page_stay()
    ensures nodes { (olds signs : List ContentSign) → AreStood false olds → things signs ≡ things olds → AreNodes signs }
    ensures meet { (s : Setting) (olds signs : List ContentSign) (at : ℕ) → AreStood false olds → AreAt at olds → things signs ≡ things olds
        → AllStayOpen s [] signs → AllMeet s [] signs [] }
{}

/// So the nodes of lines of a page stay, by the tiles of these lines (`signs_of_lines`), whatever is typed between them: the source of
/// each form is read by itself as the items that it has there (`AreFlatLines`).
#[tactic(auto, using(crate::proofs::PageSigns::flat_nodes, crate::proofs::PageSigns::flat_meet))]
pub fn nodes_of_flat_lines_stay()
    ensures nodes { (ls : List (List Item)) (at : ℕ) (signs : List ContentSign) → AreFlatLines ls → things signs ≡ things (signs_of_lines at ls)
        → AreNodes signs }
    ensures meet { (s : Setting) (ls : List (List Item)) (at : ℕ) (signs : List ContentSign) → AreFlatLines ls
        → things signs ≡ things (signs_of_lines at ls) → AllStayOpen s [] signs → AllMeet s [] signs [] }
{}

/// A block of the page without groups and styles (`IsFlatBlock`) has, as it is sent back, the signs that it has there: the characters
/// of its texts, and its nodes, each with its source, its place and what it is to its neighbours (`own_signs`). Each of its nodes
/// is one that is sent as it is.
pub fn blocks_of_the_page_have_their_signs()
    ensures signs { (same : Block → Block → Bool) (block : Block) (pl : Where) → TellsSame same → IsFlatBlock block
        → signs_of_all (page_of same block) pl (children_of block) ≡ own_signs block (length (label block).opening) (length (label block).opening) (children_of block) }
    ensures sent { (same : Block → Block → Bool) (block : Block) → TellsSame same → IsFlatBlock block → AreSent (page_of same block) (children_of block) }
{}

/// The nodes of a content that is sent with texts between them are those of the page: where each node has the number of one of the
/// page, of the same kind and with the same plain view (`AreSent`), and the numbers are those of the page's content in their order,
/// the signs of both contents have the same nodes.
#[tactic(auto, using(crate::proofs::SentNodes::same_nodes))]
pub fn nodes_sent_are_those_of_the_page()
    ensures { (p : Known) (pl : Where) (olds news : Trees) → AreSent p olds → AreSent p news → numbers news ≡ numbers olds
        → things (signs_of_all p pl news) ≡ things (signs_of_all p pl olds) }
{}

/// A content of the nodes of flat lines of a page (`AreFlatLines`), with any texts between them, is one that is read sign by sign
/// (`IsFlatContent`), if the source of each node stands whatever is written behind it, and a line begins where a line of comments stands
/// (`AreMarksLed`), and none on its line closes a tag that opens a pair (`AllStayOpen`).
#[tactic(auto, using(crate::proofs::FlatContents::flat_content))]
pub fn texts_beside_nodes_of_the_page_are_flat()
    ensures { (s : Setting) (ls : List (List Item)) (at : ℕ) (signs : List ContentSign) → s.within ≡ false → AreFlatLines ls
        → AreKept (signs_of_lines at ls) → AreCharacters signs → AreMarksLed s.place signs → things signs ≡ things (signs_of_lines at ls) → AllStayOpen s [] signs
        → IsFlatContent s signs }
{}

/// A paragraph or a heading of the page that its lines make (`IsBlockOfLines`), none of which has a style (`AreUnstyled`) or a form that
/// doesn't stay (`AreFlatLines`), has no style and no group in it, its numbers count up, and its nodes are those of the lines: as it is
/// sent back, and by their tiles.
pub fn blocks_of_flat_lines_have_their_nodes()
    ensures flat { (ls : List (List Item)) (block : Block) → AreFlatLines ls → AreUnstyled ls → IsBlockOfLines ls block → IsFlatBlock block }
    ensures nodes { (ls : List (List Item)) (block : Block) → AreFlatLines ls → AreUnstyled ls → IsBlockOfLines ls block
        → things (own_signs block (length (label block).opening) (length (label block).opening) (children_of block))
        ≡ things (signs_of_lines (length (label block).opening) ls) }
{}

/// Where none of its sources ends in an open tag (`AreShut`), no node of such a block does, and so no tag in it goes on behind it.
#[tactic(auto, using(crate::proofs::BlockSigns::block_shut))]
pub fn blocks_of_flat_lines_end_no_open_tag()
    ensures { (ls : List (List Item)) (block : Block) (at : ℕ) → AreFlatLines ls → AreUnstyled ls → IsBlockOfLines ls block → AreShut (signs_of_lines at ls)
        → any_ends_open (children_of block) ≡ false }
{}

/// Where no node of its lines is empty, none is of a content of the same nodes with any texts between them.
#[tactic(auto, using(crate::proofs::PlainContents::content_plain))]
pub fn contents_of_nodes_have_none_empty()
    ensures { (s : Setting) (ls : List (List Item)) (at : ℕ) (signs : List ContentSign) → AreFlatLines ls → AreUnstyled ls
        → things signs ≡ things (signs_of_lines at ls) → AllNonEmpty (forest (children (joined_parts ls))) → AllNonEmpty (forest (children (content_parts s [] signs))) }
{}

/// Each node of such a block shows, wherever it is, what its source shows by itself (`ShowsItsSource`).
pub fn nodes_of_flat_lines_show_their_sources()
    ensures { (same : Block → Block → Bool) (ls : List (List Item)) (block : Block) → AreFlatLines ls → AreUnstyled ls → IsBlockOfLines ls block
        → ShowSources (page_of same block) (children_of block) }
{}

/// What is sent for such a block, with its nodes as they are and any texts between them, is a content that is read sign by sign
/// (`IsFlatContent`): each node has the number of the page's, in the page's order, and is of the same kind and plain view (`AreSent`).
/// Asked of the page is that the source of each node stands whatever is written behind it (`AreKept`), and of what is sent that a line begins
/// where a line of comments stands (`AreMarksLed`), and none on its line closes a tag that opens a pair (`AllStayOpen`).
pub fn texts_sent_beside_nodes_are_flat()
    ensures { (same : Block → Block → Bool) (s : Setting) (pl : Where) (ls : List (List Item)) (block : Block) (news : Trees) → TellsSame same → s.within ≡ false
        → AreFlatLines ls → AreUnstyled ls → IsBlockOfLines ls block → AreKept (signs_of_lines (length (label block).opening) ls)
        → AreSent (page_of same block) news → numbers news ≡ numbers (children_of block) → AreCharacters (signs_of_all (page_of same block) pl news)
        → AreMarksLed s.place (signs_of_all (page_of same block) pl news) → AllStayOpen s [] (signs_of_all (page_of same block) pl news) → IsFlatContent s (signs_of_all (page_of same block) pl news) }
{}

/// What is written for such a content is again lines of a page of which the content may be: its lines are flat (`AreFlatLines`), no
/// style is in them, and the source of each of their nodes stands, where references and the nowikis that are put are nodes, too.
pub fn contents_beside_nodes_are_flat_again()
    ensures lines { (s : Setting) (signs : List ContentSign) → IsFlatContent s signs → AreFlatLines (content_lines s signs) }
    ensures unstyled { (s : Setting) (signs : List ContentSign) → IsFlatContent s signs → AreUnstyled (content_lines s signs) }
    ensures kept { (at : ℕ) (s : Setting) (signs : List ContentSign) → IsFlatContent s signs → AreKept (signs_of_lines at (content_lines s signs)) }
    ensures shut { (at : ℕ) (s : Setting) (signs : List ContentSign) → IsFlatContent s signs → AreShut signs → AreShut (signs_of_lines at (content_lines s signs)) }
{}

/// The lines of such a content are cut where a line break is typed, and each is a line of text, in a table too: nothing that
/// is typed, and no node, makes it a heading, a list, a rule, preformatted text or a part of a table, and none is blank.
pub fn texts_beside_nodes_are_lines_of_text()
    ensures lines { (s : Setting) (signs : List ContentSign) → IsReadIn s signs → AreUnbroken signs → lines (page_items (spelled s signs)) ≡ content_lines s signs }
    ensures text { (tables : ℕ) (s : Setting) (signs : List ContentSign) → s.within ≡ false → BeginsUnled place.Paragraph signs → AreCharacters signs → AreNodes signs
        → AreLinesOfText tables (content_lines s signs) }
{}

/// A content without styles is one paragraph. On each of its lines, and in the paragraph, characters, references and the
/// nowikis that are put are what they are anywhere, and each node is what its source is on a line by itself. So it is for the
/// rows that its lines make, and as a page of its own.
#[tactic(auto, using(crate::proofs::LineParts::line_parts_are, crate::proofs::Styled::Plain::para_is, crate::proofs::Styled::Plain::meaning_is))]
pub fn texts_beside_nodes_are_one_paragraph()
    ensures line { (s : Setting) (before signs : List ContentSign) → AreNodes signs → AreFlat signs → AllMeet s before signs []
        → line_parts (line_items s before signs) ≡ line_content s before signs }
    ensures paragraph { (s : Setting) (signs : List ContentSign) → s.place ≡ place.Paragraph → IsFlatContent s signs
        → para (rows (page_items (spelled s signs))) ≡ para_with (content_parts s [] signs) }
    ensures page { (s : Setting) (signs : List ContentSign) → s.place ≡ place.Paragraph → IsFlatContent s signs
        → meaning (page_items (spelled s signs)) ≡ body_with (para_with (content_parts s [] signs) ∷ []) }
{}

/// Wherever such a paragraph is, and whatever the numbers of its nodes, its inside shows the texts that were typed, as they were
/// typed, and between them each node as its source shows by itself: the references and the nowikis that are put leave no trace.
#[tactic(auto, using(crate::proofs::Styled::Plain::content_is_shown))]
pub fn texts_beside_nodes_are_shown()
    ensures { (n : ℕ) (before : List Item) (s : Setting) (signs : List ContentSign) (rest : Plains) → IsFlatContent s signs
        → parts_shown_at n before (content_parts s [] signs) rest ≡ content_shown signs rest }
{}

/// In a heading such a content, of which no line break is typed, is between the heading's delimiters as its signs, too: what is first
/// and last in it is no blank, and where its level is that of its delimiters (`IsOfLevel`), these end where they should. The level
/// stays whatever is typed, unless a bare URL that ends with a `=` is directly before the closing delimiter (`KeepsLevel`).
pub fn texts_beside_nodes_may_be_in_headings()
    ensures inside { (s : Setting) (signs : List ContentSign) → IsHeadingContent s signs → IsHeadingInside (page_items (spelled s signs)) }
    ensures level { (s : Setting) (signs : List ContentSign) (sides : Sides) → IsHeadingContent s signs → AreSides sides → KeepsLevel sides signs
        → IsOfLevel sides (page_items (spelled s signs)) }
    ensures heading { (s : Setting) (signs : List ContentSign) (sides : Sides) → IsHeadingContent s signs → AreSides sides
        → IsOfLevel sides (page_items (spelled s signs))
        → heading (heading_line sides (page_items (spelled s signs))) ≡ heading_of sides (content_parts s [] signs) }
{}

/// Between other lines of a page such a content is one paragraph of the body, or a heading: the body's other children are
/// those that what is before it and what is behind it make by themselves, whatever is typed in it.
#[tactic(auto, using(crate::proofs::Styled::Plain::paragraph_stands, crate::proofs::Styled::Plain::heading_stands))]
pub fn texts_beside_nodes_stand_between_lines()
    ensures paragraph { (before : List Item) (s : Setting) (signs : List ContentSign) (tail : List Item) → EndsApart before → s.place ≡ place.Paragraph
        → IsFlatContent s signs → EndsParagraph tail
        → meaning (before ++ (page_items (spelled s signs) ++ tail))
        ≡ body_with (blocks_in before ++ para_with (content_parts s [] signs) ∷ blocks_in tail) }
    ensures heading { (before : List Item) (s : Setting) (signs : List ContentSign) (sides : Sides) (tail : List Item)
        → AreClosed (before_marks before) → AreSides sides → IsHeadingContent s signs → IsOfLevel sides (page_items (spelled s signs)) → EndsLine tail
        → meaning (before ++ (heading_line sides (page_items (spelled s signs)) ++ tail))
        ≡ body_with (blocks_in before ++ heading_of sides (content_parts s [] signs) ∷ blocks_in tail) }
{}

/// Where all nodes of a flat block stay (`PiecesStay` of `wt_typed_blocks`) and only texts go and come (`OnlyTextsGo`), the nodes are
/// sent as they are, with the numbers of the page's in their order. So `nodes_sent_are_those_of_the_page` holds of such a content.
pub fn nodes_that_stay_are_sent()
    ensures sent { (same : Block → Block → Bool) (block : Block) (ps : Pieces) → TellsSame same → IsFlatBlock block
        → page_pieces ps ≡ children_of block → PiecesStay ps → HaveNoStyle ps → AreSent (page_of same block) (sent_pieces ps) }
    ensures numbers { (block : Block) (ps : Pieces) → page_pieces ps ≡ children_of block → PiecesStay ps → OnlyTextsGo ps
        → numbers (sent_pieces ps) ≡ numbers (children_of block) }
{}

/// Nothing is wrong in a content of nodes that are sent as they are, and of texts, which in a heading have no line break
/// (`TextsFit`): it isn't refused.
#[tactic(auto, using(crate::proofs::NoFaults::no_fault))]
pub fn contents_of_such_nodes_have_no_fault()
    ensures { (same : Block → Block → Bool) (block : Block) (m : Label) (us : Trees) → AreSent (page_of same block) us
        → TextsFit (is_paragraph (edit_shape (label block).kind).form) us → bad_content same block (tree m us) ≡ None }
{}

/// What is written for such a content shows what was sent: the texts as they were typed, and between them what the page shows for
/// each node that stays, if the page's node shows what its source shows by itself (`PiecesShow`).
#[tactic(auto, using(crate::proofs::SentShown::pieces_shown))]
pub fn what_is_sent_is_what_is_shown()
    ensures { (p : Known) (pl : Where) (ps : Pieces) (rest : Plains) → PiecesStay ps → AreSent p (sent_pieces ps) → PiecesShow p ps
        → content_shown (signs_of_all p pl (sent_pieces ps)) rest ≡ pieces_before ps rest }
{}

/// Such a content is UTF-8 if the source of each node is (`AreUtf8Nodes`); and as a page it calls nothing, whatever the folder has, if also
/// no two braces are side by side in it, outside of its lexemes (`AreCalm`): nothing is expanded in it, and nothing refuses it.
#[tactic(auto, using(crate::proofs::CalmContents::content_utf8, crate::proofs::CalmContents::content_expanded, crate::proofs::CalmContents::content_unrefused))]
pub fn texts_beside_nodes_call_nothing()
    ensures utf8 { (s : Setting) (signs : List ContentSign) → AreCharacters signs → AreUtf8Nodes signs → IsUtf8 (spelled s signs) }
    ensures expanded { (pages : Pages) (s : Setting) (signs : List ContentSign) → IsReadIn s signs → AreCalm signs
        → expanded_page pages (spelled s signs) ≡ of_items (page_items (spelled s signs)) }
    ensures unrefused { (pages : Pages) (s : Setting) (signs : List ContentSign) → IsReadIn s signs → AreCalm signs
        → first_refusal pages (spelled s signs) (page_work pages (spelled s signs)) ≡ None }
{}

/// A page whose lines are text is one paragraph: what its lines are, with a line break between each two (`joined_parts`).
#[tactic(auto, using(crate::proofs::FlatLines::lines_meaning))]
pub fn lines_of_text_are_one_paragraph()
    ensures { (q : List ℕ) → AreLinesOfText 0 (lines (page_items q))
        → meaning (page_items q) ≡ body_with (para_with (joined_parts (lines (page_items q))) ∷ []) }
{}

/// A page that is one paragraph of text and of nodes (`IsFlatPage`) takes any texts beside its nodes: an edit that sends the
/// paragraph with its nodes as they are, in their order, and any texts between them (`IsFlatEdit`) is done, and the new page
/// is what was sent, as it is spelled, unless that is longer than a page may be. Without marks, too, as a browser sends it,
/// `edit` of the difference is done, where the content is another one than that of the page's paragraph, and what stays in
/// it is inline.
pub fn flat_pages_take_texts_beside_nodes()
    ensures takes { (pages : Pages) (b m : Label) (q : List ℕ) (ps : Pieces) → IsFlatPage q → IsFlatEdit q ps → length (new_flat q ps) ≤ PAGE_BYTES
        → edit_to pages q (sent_flat b m q ps) ≡ done (new_flat q ps) }
    ensures unmarked { (pages : Pages) (b m : Label) (q : List ℕ) (ps : Pieces) (stands : Option (List ℕ)) (input : List ℕ) (unsourced : Option ℕ)
        → IsFlatPage q → IsUnmarkedFlatEdit m q ps → stands ≡ Some q → length q ≤ PAGE_BYTES → length (new_flat q ps) ≤ PAGE_BYTES
        → length input ≤ HTML_BYTES → read input ≡ as_page (bare_flat b m q ps) unsourced → DoneByEdit pages stands input }
{}

/// The new page is such a page again, so of a chain of such edits none is refused: the nodes beside which texts are typed next are the same, and the
/// references and nowikis that were put.
pub fn flat_pages_are_such_again()
    ensures { (q : List ℕ) (ps : Pieces) → IsFlatPage q → IsFlatEdit q ps → IsFlatPage (new_flat q ps) }
{}

/// A paragraph or a heading of flat lines without bold and italic (`IsFlatIn`), wherever it is in a page, takes any texts beside its nodes, which
/// stay (`IsFlatEditOf`); in a heading they are on one line. Its content is one that is read by itself (`IsContent`), and what is sent for it is
/// what may be sent for one with bold and italic (`IsStyledEditOf`). So it is taken, what is written for it may stand in the place of the old
/// content and shows what was sent (`MakesContent`), and it is such a block again.
pub fn flat_contents_are_made()
    ensures content { (k : TextBlock) (q : List ℕ) → IsFlatIn k q → IsContent k q }
    ensures edit { (k : TextBlock) (q : List ℕ) (n : ℕ) (before : List Item) (block : Block) (ps : Pieces) → IsFlatIn k q → 0 < n
        → children_of block ≡ children_of (standing n before (block_tree k q)) → IsFlatEditOf k block ps → IsStyledEditOf k block ps }
    ensures made { (k : TextBlock) (q : List ℕ) (n : ℕ) (before : List Item) (block : Block) (m : Label) (ps : Pieces) → IsFlatIn k q → 0 < n
        → block ≡ standing n before (block_tree k q) → IsFlatEditOf k block ps → MakesContent k q block m ps }
    ensures again { (k : TextBlock) (q : List ℕ) (n : ℕ) (before : List Item) (block : Block) (m : Label) (ps : Pieces) → IsFlatIn k q → 0 < n
        → block ≡ standing n before (block_tree k q) → IsFlatEditOf k block ps → IsFlatIn k (new_content k block m ps) }
{}
