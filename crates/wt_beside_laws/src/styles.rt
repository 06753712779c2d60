//! Laws of texts that are typed beside and inside of bold and italic: how such a content is read.

ghost use Rattle.std.specs.Prelude.{◌≡◌, ℕ, ◌+◌, ◌<◌, Bool, true, false, List, [], ◌∷◌, ◌++◌, length};
ghost use Rattle.wt_span.specs.Items.{Item};
ghost use Rattle.wt_tree.specs.declared.edit_shape.Place.{Place as Where};
ghost use Rattle.wt_tree.specs.declared.edit_shape.Place.TheVariants as place;
ghost use Rattle.wt_tree.specs.Plain.{Plains, plains_before};
ghost use Rattle.wt_tree.specs.Tree.{Label, Tree, Trees, label};
ghost use Rattle.wt_guards.specs.Content.{ContentSign};
ghost use Rattle.wt_guards.specs.Guards.{Setting, spelled};
ghost use Rattle.wt_original.specs.Kept.{kept_nodes};
ghost use Rattle.wt_original.specs.Page.{Page as Known, page_of};
ghost use Rattle.wt_link_spelling.specs.Spelling.{children_of, signs_of_all};
ghost use Rattle.wt_expand.specs.PageItems.{page_items};
ghost use Rattle.wt_quotes.specs.Toggles.{is_odd, toggles_by_length, toggles_of};
ghost use Rattle.wt_tiles.specs.Contexts.{in_line};
ghost use Rattle.wt_context.specs.Chunks.{chunks};
ghost use Rattle.wt_context.specs.Line.{context_parts, line_parts};
ghost use Rattle.wt_context.specs.Nodes.{segments};
ghost use Rattle.wt_context.specs.Styled.{with_styles};
ghost use Rattle.wt_page.specs.Headings.{heading};
ghost use Rattle.wt_page.specs.Body.{meaning};
ghost use Rattle.wt_page.specs.Rows.{rows};
ghost use Rattle.wt_page.specs.Texts.{para};
ghost use Rattle.wt_part_laws.specs.Standing.{standing};
ghost use Rattle.wt_typed_blocks.specs.Edited.{Pieces};
ghost use Rattle.wt_text_edit_laws.specs.Contents.{IsContent, IsNewContent};
ghost use Rattle.wt_text_edit_laws.specs.NoCalls.{CallsNothing};
ghost use Rattle.wt_text_edit_laws.specs.ParagraphBetween.{AreClosed, before_marks, EndsApart, EndsParagraph, blocks_in, body_with};
ghost use Rattle.wt_text_edit_laws.specs.ParagraphParts.{para_with};
ghost use Rattle.wt_text_edit_laws.specs.TextBlocks.{TextBlock, a_paragraph, block_items, block_tree};
ghost use Rattle.wt_text_edit_laws.specs.TypedHeadings.{Sides, AreSides, heading_line, IsOfLevel, IsHeadingInside, EndsLine};
ghost use Rattle.wt_beside_laws.specs.Calm.{AreUtf8Nodes};
ghost use Rattle.wt_beside_laws.specs.Content.{AreKept};
ghost use Rattle.wt_beside_laws.specs.ContentEdits.{new_content, MakesContent};
ghost use Rattle.wt_beside_laws.specs.FlatBlocks.{lines_in, signs_in as signs_of};
ghost use Rattle.wt_beside_laws.specs.HeldLines.{AreHeldLines};
ghost use Rattle.wt_beside_laws.specs.InHeadings.{KeepsLevel, heading_of};
ghost use Rattle.wt_beside_laws.specs.Led.{AreMarksLed};
ghost use Rattle.wt_beside_laws.specs.Lines.{AreCharacters, line_items, content_lines};
ghost use Rattle.wt_beside_laws.specs.Nests.{Nest, nest_segments, nest_parts, IsNest};
ghost use Rattle.wt_beside_laws.specs.Nodes.{AreNodes, AllStayOpen, AllMeet};
ghost use Rattle.wt_beside_laws.specs.OwnLed.{AreOwnLed, begin_marked};
ghost use Rattle.wt_beside_laws.specs.PageBlocks.{AreShut, IsBlockOfLines};
ghost use Rattle.wt_beside_laws.specs.PageSigns.{signs_of_lines, AreFlatLines};
ghost use Rattle.wt_beside_laws.specs.SentStyled.{sent_content, AreStyledSent, HasNoDelimiter, AllNest, AllShow};
ghost use Rattle.wt_beside_laws.specs.Shown.{parts_shown_at};
ghost use Rattle.wt_beside_laws.specs.Styled.{StyledContent, signs_in, AreNested, IsStyledContent, styled_parts};
ghost use Rattle.wt_beside_laws.specs.StyledBlocks.{all_numbers, things_with, AreSomeOf};
ghost use Rattle.wt_beside_laws.specs.StyledHeadings.{IsStyledHeading};
ghost use Rattle.wt_beside_laws.specs.SpelledApart.{IsSpelledApart};
ghost use Rattle.wt_beside_laws.specs.StyledIn.{IsStyledIn, IsStyledFor, IsStyledEditOf};
ghost use Rattle.wt_beside_laws.specs.StyledNodes.{AreSomeAndPut, AreUrlsApart};
ghost use Rattle.wt_beside_laws.specs.StyledShown.{styled_shown};
ghost use Rattle.wt_beside_laws.specs.Stood.{things};

/// Segments among which styles nest, each between delimiters of its own, are read as these styles, whatever the other segments are: each
/// style is a node round what is inside it. No run is exchanged: the toggles are those by the lengths of the runs, and the numbers of bold
/// and of italic ones are even.
pub fn styles_that_nest_are_read()
    ensures read { (n : Nest) → IsNest false false n [] → with_styles (nest_segments n []) ≡ nest_parts n }
    ensures toggles { (n : Nest) → IsNest false false n []
        → toggles_of (chunks (nest_segments n [])) ≡ toggles_by_length (chunks (nest_segments n [])) }
    ensures bold { (n : Nest) → IsNest false false n [] → is_odd (λ t. t.bold) (toggles_of (chunks (nest_segments n []))) ≡ false }
    ensures italic { (n : Nest) → IsNest false false n [] → is_odd (λ t. t.italic) (toggles_of (chunks (nest_segments n []))) ≡ false }
{}

/// On each line of a content with styles, as it is spelled, the numbers of bold and of italic toggles are even, whatever is typed: the
/// toggles are the delimiters of its styles, and no apostrophe that is typed is one.
pub fn lines_with_styles_have_even_toggles()
    ensures bold { (s : Setting) (before : List ContentSign) (t : StyledContent) → AreNodes (signs_in t) → AreNested false false t → AllMeet s before (signs_in t) []
        → is_odd (λ t. t.bold) (toggles_of (chunks (segments context_parts in_line (line_items s before (signs_in t))))) ≡ false }
    ensures italic { (s : Setting) (before : List ContentSign) (t : StyledContent) → AreNodes (signs_in t) → AreNested false false t → AllMeet s before (signs_in t) []
        → is_odd (λ t. t.italic) (toggles_of (chunks (segments context_parts in_line (line_items s before (signs_in t))))) ≡ false }
{}

/// A content with styles is one paragraph: each style is a node round what is inside it, and everything else is what it is in a content
/// without styles (`texts_beside_nodes_are_one_paragraph`). So it is for the rows that its lines make, and as a page of its own.
pub fn texts_in_styles_are_one_paragraph()
    ensures line { (s : Setting) (before : List ContentSign) (t : StyledContent) → AreNodes (signs_in t) → AreNested false false t → AllMeet s before (signs_in t) []
        → line_parts (line_items s before (signs_in t)) ≡ styled_parts true s before t [] }
    ensures paragraph { (s : Setting) (t : StyledContent) → s.place ≡ place.Paragraph → IsStyledContent s t
        → para (rows (page_items (spelled s (signs_in t)))) ≡ para_with (styled_parts false s [] t []) }
    ensures page { (s : Setting) (t : StyledContent) → s.place ≡ place.Paragraph → IsStyledContent s t
        → meaning (page_items (spelled s (signs_in t))) ≡ body_with (para_with (styled_parts false s [] t []) ∷ []) }
{}

/// Wherever such a paragraph is, and whatever the numbers of its nodes, its inside shows the texts that were typed, beside and inside of
/// bold and italic, and each node as its source shows by itself.
#[tactic(auto, using(crate::proofs::Styled::StyledShown::styled_is_shown))]
pub fn texts_in_styles_are_shown()
    ensures { (n : ℕ) (before : List Item) (s : Setting) (t : StyledContent) (rest : Plains) → IsStyledContent s t
        → parts_shown_at n before (styled_parts false s [] t []) rest ≡ styled_shown t rest }
{}

/// Between other lines of a page such a content is one paragraph of the body, or a heading: the body's other children are those that what is
/// before it and what is behind it make by themselves, whatever is typed in it.
pub fn texts_in_styles_stand_between_lines()
    ensures paragraph { (before : List Item) (s : Setting) (t : StyledContent) (tail : List Item) → EndsApart before → s.place ≡ place.Paragraph → IsStyledContent s t
        → EndsParagraph tail
        → meaning (before ++ (page_items (spelled s (signs_in t)) ++ tail))
        ≡ body_with (blocks_in before ++ para_with (styled_parts false s [] t []) ∷ blocks_in tail) }
    ensures heading { (before : List Item) (s : Setting) (t : StyledContent) (sides : Sides) (tail : List Item) → AreClosed (before_marks before)
        → AreSides sides → IsStyledHeading s t → IsOfLevel sides (page_items (spelled s (signs_in t))) → EndsLine tail
        → meaning (before ++ (heading_line sides (page_items (spelled s (signs_in t))) ++ tail))
        ≡ body_with (blocks_in before ++ heading_of sides (styled_parts false s [] t []) ∷ blocks_in tail) }
{}

/// In a heading such a content, of which no line break is typed, is between the heading's delimiters, too: what is first and last in it is no
/// blank, and where its level is that of its delimiters (`IsOfLevel`), these end where they should. The level stays whatever is typed, unless a
/// bare URL that ends with a `=` is directly before the closing delimiter (`KeepsLevel`).
pub fn texts_in_styles_may_be_in_headings()
    ensures inside { (s : Setting) (t : StyledContent) → IsStyledHeading s t → IsHeadingInside (page_items (spelled s (signs_in t))) }
    ensures level { (s : Setting) (t : StyledContent) (sides : Sides) → IsStyledHeading s t → AreSides sides → KeepsLevel sides (signs_in t)
        → IsOfLevel sides (page_items (spelled s (signs_in t))) }
    ensures heading { (s : Setting) (t : StyledContent) (sides : Sides) → IsStyledHeading s t → AreSides sides
        → IsOfLevel sides (page_items (spelled s (signs_in t)))
        → heading (heading_line sides (page_items (spelled s (signs_in t)))) ≡ heading_of sides (styled_parts false s [] t []) }
{}

/// A content with styles of nodes of flat lines of a page (`AreFlatLines`), any of them in their order, with any texts between them and styles
/// round them, is one that is read sign by sign, if the source of each node stands whatever is written behind it. The delimiters, and the nowikis of
/// empty styles, may be anywhere among these nodes (`AreSomeAndPut`). A bare URL that is directly before a delimiter in the page ends with no apostrophe,
/// where a line of comments stands a line begins (`AreMarksLed`), and none on its line closes a tag that opens a pair (`AllStayOpen`).
pub fn nodes_of_the_page_stay_in_styles()
    ensures { (s : Setting) (ls : List (List Item)) (at : ℕ) (t : StyledContent) → s.within ≡ false → AreFlatLines ls → AreKept (signs_of_lines at ls)
        → AreCharacters (signs_in t) → AreNested false false t → AreMarksLed s.place (signs_in t) → AreSomeAndPut (things (signs_in t)) (things (signs_of_lines at ls))
        → AreUrlsApart (things (signs_in t)) → AllStayOpen s [] (signs_in t) → IsStyledContent s t }
{}

/// What an editor sends of such a paragraph, with its nodes as they are in the page, any texts beside them and inside of bold and italic,
/// and bold and italic wherever it is, is written as such a content (`sent_content`), in which `<nowiki/>` is what is inside an empty style. Its
/// styles nest where those that are sent do, and no text in one has a line break; and it shows what was sent, where each node shows its source.
pub fn contents_sent_with_styles_are_such()
    ensures signs { (p : Known) (pl : Where) (us : Trees) → AreStyledSent p us → signs_of_all p pl us ≡ signs_in (sent_content p us) }
    ensures nested { (p : Known) (us : Trees) → HasNoDelimiter p → AllNest false false us → AreNested false false (sent_content p us) }
    ensures shown { (p : Known) (us : Trees) (rest : Plains) → AreStyledSent p us → AllShow p us → styled_shown (sent_content p us) rest ≡ plains_before us rest }
{}

/// What is written for such a content is again lines of a page of which the content may be: its lines are flat (`AreFlatLines`), and the source of
/// each of their nodes stands, where references and the nowikis that are put are nodes, too.
pub fn contents_with_styles_are_such_again()
    ensures lines { (s : Setting) (t : StyledContent) → IsStyledContent s t → AreFlatLines (content_lines s (signs_in t)) }
    ensures kept { (at : ℕ) (s : Setting) (t : StyledContent) → IsStyledContent s t → AreKept (signs_of_lines at (content_lines s (signs_in t))) }
    ensures shut { (at : ℕ) (s : Setting) (t : StyledContent) → IsStyledContent s t → AreShut (signs_in t) → AreShut (signs_of_lines at (content_lines s (signs_in t))) }
{}

/// A paragraph or a heading of the page that flat lines make (`IsBlockOfLines`, `AreFlatLines`), with bold and italic or without, has as its nodes
/// those of its lines by their tiles: each is found in the block by its number, those in its styles among them (`all_numbers`), with its source,
/// its place, and what it is to its neighbours.
#[tactic(auto, using(crate::proofs::Styled::BlockStyles::styled_nodes))]
pub fn blocks_with_styles_have_their_nodes()
    ensures { (ls : List (List Item)) (block : Tree) → AreFlatLines ls → IsBlockOfLines ls block
        → things_with (kept_nodes block) (all_numbers (children_of block)) ≡ things (signs_of_lines (length (label block).opening) ls) }
{}

/// What an editor sends of such a block is such a content, whatever is typed: nodes with numbers of the block's own, any of them in their order,
/// directly in it or in bold and italic, which may be others than the block's, and which nest (`AllNest`). It is asked that the source of each node
/// of the block stands, that no bare URL that is directly before a delimiter in the page ends with an apostrophe, and that none on its line closes
/// a tag that opens a pair (`AllStayOpen`).
pub fn texts_sent_in_styles_are_such()
    ensures { (same : Tree → Tree → Bool) (s : Setting) (ls : List (List Item)) (block : Tree) (us : Trees) → s.within ≡ false → AreFlatLines ls
        → IsBlockOfLines ls block → AreKept (signs_of_lines (length (label block).opening) ls) → AllNest false false us
        → AreMarksLed s.place (signs_in (sent_content (page_of same block) us)) → AreSomeOf (all_numbers us) (all_numbers (children_of block)) → AreCharacters (signs_in (sent_content (page_of same block) us))
        → AreUrlsApart (things (signs_in (sent_content (page_of same block) us))) → AllStayOpen s [] (signs_in (sent_content (page_of same block) us))
        → IsStyledContent s (sent_content (page_of same block) us) }
{}

/// A content that is read by itself (`IsContent`) and calls nothing is such a one with bold and italic or without (`IsStyledIn`) where the source of
/// each form of its lines stands whatever is written behind it (`AreKept`) and is UTF-8 (`AreUtf8Nodes`), and each is a node (`AreHeldLines`). So
/// each is read by itself as it is in its line, and none ends in an open tag.
#[tactic(auto, using(crate::proofs::Styled::OldShut::content_styled))]
pub fn contents_of_nodes_that_stay_take_styles()
    ensures { (k : TextBlock) (q : List ℕ) → IsContent k q → CallsNothing (block_items k q) → AreHeldLines (lines_in k q)
        → AreKept (signs_of k q) → AreUtf8Nodes (signs_of k q) → IsStyledIn k q }
{}

/// A paragraph or a heading with bold and italic (`IsStyledIn`) holds a content that is read by itself, whatever is round it; and what is written
/// for such a content, with nodes that it had, in their order, and any texts and styles (`IsStyledFor`), may stand in its place, and is one again.
pub fn contents_with_styles_may_take_their_place()
    ensures content { (k : TextBlock) (q : List ℕ) → IsStyledIn k q → IsContent k q }
    ensures new { (k : TextBlock) (q : List ℕ) (s : Setting) (t : StyledContent) → IsStyledIn k q → IsStyledFor k q s t
        → IsNewContent k q (spelled s (signs_in t)) }
    ensures again { (k : TextBlock) (q : List ℕ) (s : Setting) (t : StyledContent) → IsStyledIn k q → IsStyledFor k q s t
        → IsStyledIn k (spelled s (signs_in t)) }
{}

/// Such a paragraph or heading (`IsStyledIn`), wherever it is in a page, takes any texts beside its nodes, bold and italic ones among them, and in
/// these, which stay or are new (`IsStyledEditOf`). What is sent for it is taken, what is written for it may stand in the place of the old content
/// and shows what was sent (`MakesContent`), and it is such a block again.
pub fn styled_contents_are_made()
    ensures made { (k : TextBlock) (q : List ℕ) (n : ℕ) (before : List Item) (block : Tree) (m : Label) (ps : Pieces) → IsStyledIn k q → 0 < n
        → block ≡ standing n before (block_tree k q) → IsStyledEditOf k block ps → MakesContent k q block m ps }
    ensures again { (k : TextBlock) (q : List ℕ) (n : ℕ) (before : List Item) (block : Tree) (m : Label) (ps : Pieces) → IsStyledIn k q → 0 < n
        → block ≡ standing n before (block_tree k q) → IsStyledEditOf k block ps → IsStyledIn k (new_content k block m ps) }
{}

/// In such a paragraph or heading of the page a line of comments stands only where a line of it begins (`AreOwnLed`): behind a line break or behind
/// another such line, not at its start, and in no bold or italic node. And a paragraph begins with no mark.
pub fn lines_of_comments_begin_lines()
    ensures led { (k : TextBlock) (q : List ℕ) (n : ℕ) (before : List Item) (block : Tree) → IsStyledIn k q → 0 < n
        → block ≡ standing n before (block_tree k q) → AreOwnLed block (0 + length (label block).opening) false (children_of block) }
    ensures unmarked { (q : List ℕ) (n : ℕ) (before : List Item) (block : Tree) → IsStyledIn a_paragraph q → 0 < n
        → block ≡ standing n before (block_tree a_paragraph q) → begin_marked (children_of block) ≡ false }
{}

/// What is written for such a paragraph or heading makes no lexeme but those of the nodes that stay, the references of what is typed, and the nowikis
/// that are put. On each of its lines the numbers of bold and of italic toggles are even, whatever is typed. And read again, as a block of its kind,
/// it shows what was sent (`IsSpelledApart`).
#[tactic(auto)]
pub fn typed_texts_make_nothing_else()
    ensures { (k : TextBlock) (q : List ℕ) (n : ℕ) (before : List Item) (block : Tree) (m : Label) (ps : Pieces) → IsStyledIn k q → 0 < n
        → block ≡ standing n before (block_tree k q) → IsStyledEditOf k block ps → IsSpelledApart k block m ps }
{}
