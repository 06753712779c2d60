//! Laws of texts that are typed beside calls: what such a content is in the page's tree.

ghost use Rattle.std.specs.Prelude.{◌≡◌, ℕ, Bool, true, false, Some, List, [], ◌∷◌, ◌++◌, All};
ghost use Rattle.wt_tree.specs.declared.kind.Kind.TheVariants as kind;
ghost use Rattle.wt_tree.specs.Plain.{Plains, ended, along, element, plain_before};
ghost use Rattle.wt_span.specs.Items.{Item};
ghost use Rattle.wt_span.specs.Origins.{OuterCall};
ghost use Rattle.wt_guards.specs.declared.role.Role.TheVariants.{Group};
ghost use Rattle.wt_guards.specs.declared.role.Transclusion.{Transclusion};
ghost use Rattle.wt_guards.specs.declared.side.Side.TheVariants as side;
ghost use Rattle.wt_guards.specs.Content.{ContentSign, side_of};
ghost use Rattle.wt_guards.specs.Guards.{Setting, left_side};
ghost use Rattle.wt_guards.specs.Table.{hazard};
ghost use Rattle.wt_expand.specs.Work.{Pages};
ghost use Rattle.wt_lines.specs.Lines.{lines};
ghost use Rattle.std.specs.List.{AllByRecursion};
ghost use Rattle.wt_inline.specs.ItemTree.{plain, forest};
ghost use Rattle.wt_inline.specs.Parts.{children};
ghost use Rattle.wt_tiles.specs.declared.glyph.Glyph.{Glyph};
ghost use Rattle.wt_tiles.specs.Urls.{is_word};
ghost use Rattle.wt_context.specs.Line.{line_parts};
ghost use Rattle.wt_page.specs.Body.{meaning};
ghost use Rattle.wt_annotated.specs.Annotated.{all_unplaced};
ghost use Rattle.wt_annotated.specs.CutTexts.{cut_texts};
ghost use Rattle.wt_isolation.specs.GroupItems.{with_break_anew, empty_nowiki};
ghost use Rattle.wt_selser.specs.GroupFaults.{paragraph_face, is_faulty};
ghost use Rattle.wt_part_laws.specs.HeldCalls.{block_in, HoldsItsCalls, block_of_pieces};
ghost use Rattle.wt_part_laws.specs.CallPieces.{group_of_call};
ghost use Rattle.wt_text_edit_laws.specs.ParagraphBetween.{EndsApart, EndsParagraph, blocks_in, body_with};
ghost use Rattle.wt_text_edit_laws.specs.ParagraphParts.{joined_parts, para_with};
ghost use Rattle.wt_text_edit_laws.specs.LonePages.{page_chars};
ghost use Rattle.wt_text_edit_laws.specs.TypedHeadings.{Sides, AreSides, opening, closing_items, heading_round, IsHeadingInside, IsOfLevel};
ghost use Rattle.wt_beside_laws.specs.Called.{items_with, owns_in, parts_with, IsCalledContent, IsCalledHeading, called_shown, IsCalledIn};
ghost use Rattle.wt_beside_laws.specs.Given.{GivenSign, given_items, AreGivenSigns, LastMay, GivenContent, signs_of, given_parts, AreNestedGiven, ends_with_url, GivesSigns, IsGroup};
ghost use Rattle.wt_beside_laws.specs.Glyphs.{letter_glyphs};
ghost use Rattle.wt_beside_laws.specs.Lines.{IsLineOfText};
ghost use Rattle.wt_beside_laws.specs.Shown.{parts_shown_at};
ghost use Rattle.wt_beside_laws.specs.SpelledApart.{HasEvenToggles};
ghost use Rattle.wt_beside_laws.specs.Styled.{StyledContent, signs_in};
ghost use Rattle.wt_beside_laws.specs.StyledCalls.{IsStyledCalled, IsStyledCalledHeading, styled_called_shown, styled_with};

/// Texts beside calls, and beside nodes that stay, are one paragraph, whatever is typed: each line is text wherever it is in tables, and what is in
/// the paragraph is in the order of the signs (`parts_with`): what each call gives is what it is on a line by itself. Between other lines of a page
/// it is a paragraph of the body, and the body's other children are those that what is before it and what is behind it make by themselves.
pub fn texts_beside_calls_are_one_paragraph()
    ensures lines { (tables : ℕ) (s : Setting) (signs : List ContentSign) (owns : List (List Item)) → IsCalledContent s signs owns
        → All (IsLineOfText tables) (lines (items_with s [] signs owns)) }
    ensures parts { (s : Setting) (signs : List ContentSign) (owns : List (List Item)) → IsCalledContent s signs owns
        → joined_parts (lines (items_with s [] signs owns)) ≡ parts_with s [] signs owns }
    ensures stands { (before : List Item) (s : Setting) (signs : List ContentSign) (owns : List (List Item)) (tail : List Item) → EndsApart before
        → IsCalledContent s signs owns → EndsParagraph tail
        → meaning (before ++ (items_with s [] signs owns ++ tail)) ≡ body_with (blocks_in before ++ para_with (parts_with s [] signs owns) ∷ blocks_in tail) }
{}

/// Such a paragraph holds its calls (`HoldsItsCalls`), wherever it is and whatever is typed in it: in the page's tree what each call gives is a
/// group by itself, and everything else is itself.
pub fn texts_beside_calls_hold_these()
    ensures holds { (s : Setting) (signs : List ContentSign) (owns : List (List Item)) → IsCalledContent s signs owns
        → HoldsItsCalls (para_with (joined_parts (lines (items_with s [] signs owns)))) }
    ensures block { (calls : List OuterCall) (s : Setting) (signs : List ContentSign) (owns : List (List Item)) → IsCalledContent s signs owns
        → block_in calls (para_with (joined_parts (lines (items_with s [] signs owns)))) ≡ block_of_pieces calls (plain kind.Para) [] (parts_with s [] signs owns) [] }
{}

/// So in a heading, where texts are typed on one line, and which may begin and end with calls: it is on one line, begins and ends with no blank,
/// keeps its level, and holds its calls between its delimiters.
pub fn texts_beside_calls_may_be_in_headings()
    ensures inside { (s : Setting) (signs : List ContentSign) (owns : List (List Item)) → IsCalledHeading s signs owns
        → IsHeadingInside (items_with s [] signs owns) }
    ensures level { (s : Setting) (signs : List ContentSign) (owns : List (List Item)) (sides : Sides) → IsCalledHeading s signs owns → AreSides sides
        → IsOfLevel sides (items_with s [] signs owns) }
    ensures holds { (s : Setting) (signs : List ContentSign) (owns : List (List Item)) (sides : Sides) → IsCalledHeading s signs owns → AreSides sides
        → HoldsItsCalls (heading_round sides (items_with s [] signs owns)) }
    ensures block { (calls : List OuterCall) (s : Setting) (signs : List ContentSign) (owns : List (List Item)) (sides : Sides) → IsCalledHeading s signs owns
        → AreSides sides → block_in calls (heading_round sides (items_with s [] signs owns))
        ≡ block_of_pieces calls (plain (kind.Heading sides.level)) (page_chars (opening sides)) (parts_with s [] signs owns) (closing_items sides) }
{}

/// It shows the texts that were typed, and between them each node, and what each call gives, as its items show by themselves (`called_shown`). So does
/// the group of a call.
pub fn texts_beside_calls_are_shown()
    ensures shown { (calls : List OuterCall) (s : Setting) (signs : List ContentSign) (owns : List (List Item)) (rest : Plains) → IsCalledContent s signs owns
        → plain_before (cut_texts (block_in calls (para_with (joined_parts (lines (items_with s [] signs owns)))))) rest
        ≡ along (element paragraph_face (called_shown signs owns ended)) rest }
    ensures group { (calls : List OuterCall) (g : Transclusion) (j : ℕ) (own : List Item) (rest : Plains) → IsGroup g j own
        → plain_before (cut_texts (group_of_call calls j (forest (children (line_parts own))))) rest ≡ parts_shown_at 0 [] (line_parts own) rest }
{}

/// Bold and italic beside calls, round texts, nodes and calls that give none of its kind (`IsStyledCalled`), are one paragraph with these texts and calls,
/// whatever is typed beside them and in them: each style is a node round what is inside it (`styled_with`). It holds its calls: in the page's tree what
/// each call gives is a group by itself. And it shows the texts, each in its bold or italic, and each node as its items show by themselves.
pub fn styles_beside_calls_are_one_paragraph()
    ensures parts { (s : Setting) (t : StyledContent) (owns : List (List Item)) → IsStyledCalled s t owns
        → joined_parts (lines (items_with s [] (signs_in t) owns)) ≡ styled_with false s [] t [] owns }
    ensures holds { (s : Setting) (t : StyledContent) (owns : List (List Item)) → IsStyledCalled s t owns
        → HoldsItsCalls (para_with (joined_parts (lines (items_with s [] (signs_in t) owns)))) }
    ensures block { (calls : List OuterCall) (s : Setting) (t : StyledContent) (owns : List (List Item)) → IsStyledCalled s t owns
        → block_in calls (para_with (joined_parts (lines (items_with s [] (signs_in t) owns))))
        ≡ block_of_pieces calls (plain kind.Para) [] (styled_with false s [] t [] owns) [] }
    ensures shown { (calls : List OuterCall) (s : Setting) (t : StyledContent) (owns : List (List Item)) (rest : Plains) → IsStyledCalled s t owns
        → plain_before (cut_texts (block_in calls (para_with (joined_parts (lines (items_with s [] (signs_in t) owns)))))) rest
        ≡ along (element paragraph_face (styled_called_shown t owns ended)) rest }
{}

/// So in a heading, which may begin and end with calls and styles (`IsStyledCalledHeading`): it is on one line, begins and ends with no blank, keeps its level,
/// and holds its calls between its delimiters.
pub fn styles_beside_calls_may_be_in_headings()
    ensures inside { (s : Setting) (t : StyledContent) (owns : List (List Item)) → IsStyledCalledHeading s t owns → IsHeadingInside (items_with s [] (signs_in t) owns) }
    ensures level { (s : Setting) (t : StyledContent) (owns : List (List Item)) (sides : Sides) → IsStyledCalledHeading s t owns → AreSides sides
        → IsOfLevel sides (items_with s [] (signs_in t) owns) }
    ensures holds { (s : Setting) (t : StyledContent) (owns : List (List Item)) (sides : Sides) → IsStyledCalledHeading s t owns → AreSides sides
        → HoldsItsCalls (heading_round sides (items_with s [] (signs_in t) owns)) }
    ensures block { (calls : List OuterCall) (s : Setting) (t : StyledContent) (owns : List (List Item)) (sides : Sides) → IsStyledCalledHeading s t owns
        → AreSides sides → block_in calls (heading_round sides (items_with s [] (signs_in t) owns))
        ≡ block_of_pieces calls (plain (kind.Heading sides.level)) (page_chars (opening sides)) (styled_with false s [] t [] owns) (closing_items sides) }
{}

/// The group of what a call gives has no fault (`is_faulty`): read alone, behind a `<nowiki/>`, it shows the same, its line has even toggles, and no
/// text in it could go on after it. So `edit` doesn't refuse to read a paragraph by itself that holds it.
pub fn groups_of_what_calls_give_have_no_fault()
    ensures { (calls : List OuterCall) (j : ℕ) (own : List Item) → GivesSigns j own
        → is_faulty (empty_nowiki ∷ with_break_anew calls own) (all_unplaced (forest (children (line_parts own)))) ≡ false }
{}

/// In a folder where each call gives what may be in a group (`IsCalledIn`), and however many calls come before it in the page, the content is one,
/// by what its calls give (`owns_in`).
pub fn texts_beside_calls_are_such_in_a_folder()
    ensures { (pages : Pages) (i : ℕ) (s : Setting) (signs : List ContentSign) → IsCalledIn pages s signs → IsCalledContent s signs (owns_in pages i signs) }
{}

/// What a call gives, characters and forms in any order, such as links, URLs and references (`AreGivenSigns`), and bold and italic round some
/// (`AreNestedGiven`), is on a line what each of these is by itself: a link beside words of the same call is the link that it is alone, and what is between
/// two delimiters of the call is in this style, as in `''{{{2}}}''` with words.
pub fn what_a_call_gives_is_each_by_itself()
    ensures { (j : ℕ) (t : GivenContent) → AreGivenSigns false (signs_of j t) → AreNestedGiven false false t
        → line_parts (given_items j (signs_of j t)) ≡ given_parts j t }
{}

/// Where `<nowiki/>` isn't put between a group and text, nothing joins a form of the group: behind it is what may follow its last form, where the group
/// of one that ends with a URL shows `//`, and before it is no letter, digit or `_`.
pub fn nothing_that_is_typed_joins_a_group()
    ensures behind { (g : Transclusion) (word : Bool) (signs : List GivenSign) (escaped : Bool) (c : ℕ) (more : List Glyph) → AreGivenSigns word signs
        → (ends_with_url signs ≡ true → g.slashes ≡ true) → hazard (left_side (Group g)) (side.Text c) ≡ false → LastMay signs (letter_glyphs escaped c ++ more) }
    ensures before { (g : Transclusion) (c : ℕ) → hazard (side.Text c) (side_of (Group g)) ≡ false → is_word c ≡ false }
{}

/// On each line of such contents, in a paragraph or a heading, with styles or without, the numbers of bold and of italic toggles are even, those that calls
/// give among them, whatever is typed: so no run of apostrophes is exchanged.
pub fn lines_with_calls_have_even_toggles()
    ensures texts { (s : Setting) (signs : List ContentSign) (owns : List (List Item)) → IsCalledContent s signs owns
        → AllByRecursion HasEvenToggles (lines (items_with s [] signs owns)) }
    ensures headings { (s : Setting) (signs : List ContentSign) (owns : List (List Item)) → IsCalledHeading s signs owns
        → AllByRecursion HasEvenToggles (lines (items_with s [] signs owns)) }
    ensures styles { (s : Setting) (t : StyledContent) (owns : List (List Item)) → IsStyledCalled s t owns
        → AllByRecursion HasEvenToggles (lines (items_with s [] (signs_in t) owns)) }
    ensures styled_headings { (s : Setting) (t : StyledContent) (owns : List (List Item)) → IsStyledCalledHeading s t owns
        → AllByRecursion HasEvenToggles (lines (items_with s [] (signs_in t) owns)) }
{}
