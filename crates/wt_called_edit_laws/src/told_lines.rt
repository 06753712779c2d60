//! Laws of paragraphs and headings that are told by nothing but the page's lines: what has to be known of each follows from
//! the page.

ghost use Rattle.std.specs.Prelude.{◌≡◌, ◌≤◌, ◌⊎◌, false, None, List, [], ◌∷◌, ◌++◌, ℕ, length, map};
ghost use Rattle.std.specs.List.{AllByRecursion};
ghost use Rattle.std.specs.Str.{IsUtf8};
ghost use Rattle.wt_span.specs.Items.{Item, sources};
ghost use Rattle.wt_span.specs.Origins.{Expanded};
ghost use Rattle.wt_tree.specs.Tree.{Tree, label};
ghost use Rattle.wt_lines.specs.Lines.{content, full_lines};
ghost use Rattle.wt_page.specs.Lines.{ending};
ghost use Rattle.wt_tables.specs.Parts.{joined};
ghost use Rattle.wt_commands.specs.Answers.{refusal_of_page};
ghost use Rattle.wt_expand.specs.PageCalls.{expanded_page};
ghost use Rattle.wt_expand.specs.PageItems.{page_items};
ghost use Rattle.wt_expand.specs.Work.{Pages};
ghost use Rattle.wt_selser.specs.Edits.{is_tangled};
ghost use Rattle.wt_text_edit_laws.specs.BlockSpots.{BlockSpot};
ghost use Rattle.wt_text_edit_laws.specs.NoCalls.{CallsNothing};
ghost use Rattle.wt_text_edit_laws.specs.PageCuts.{AreBlockItems, EndsClosed};
ghost use Rattle.wt_text_edit_laws.specs.TextBlocks.{TextBlock, a_heading, block_tree};
ghost use Rattle.wt_text_edit_laws.specs.TypedHeadings.{Sides};
ghost use Rattle.wt_beside_laws.specs.EndedNodes.{AreEndedNodes};
ghost use Rattle.wt_beside_laws.specs.FlatBlocks.{signs_in};
ghost use Rattle.wt_beside_laws.specs.StyledIn.{IsStyledIn};
ghost use Rattle.wt_called_edit_laws.specs.AllTold.{AllBlocksTold, IsExcepted, IsExceptedAt};
ghost use Rattle.wt_called_edit_laws.specs.CalledPages.{IsCalledPage};
ghost use Rattle.wt_called_edit_laws.specs.CallingTogether.{EachEditable, TakeThere};
ghost use Rattle.wt_called_edit_laws.specs.CallingTold.{IsOnLines, IsExceptedByLines, IsNoBreakOfCall, IsExceptedSigned, IsExceptedCalling};
ghost use Rattle.wt_called_edit_laws.specs.EditsAt.{IsStanding, AllStand};
ghost use Rattle.wt_called_edit_laws.specs.Groups.{called_tree};
ghost use Rattle.wt_called_edit_laws.specs.LinedAmong.{IsLinedAmong};
ghost use Rattle.wt_called_edit_laws.specs.LinedHeadings.{sides_of, text_of, IsLinedHeading};
ghost use Rattle.wt_called_edit_laws.specs.PlacedLines.{spots_by, end_by, IsLinedPage};
ghost use Rattle.wt_called_edit_laws.specs.PlacedSpots.{IsShut, AreShut, AllUntangled};
ghost use Rattle.wt_called_edit_laws.specs.RowBlocks.{IsTextBlock, IsReachedAt, StandsIn, opened_len, StandsOnRows, StandsOnLines};
ghost use Rattle.wt_called_edit_laws.specs.ToldAmong.{IsToldAmong};
ghost use Rattle.wt_called_edit_laws.specs.ToldLines.{Told, lined, IsToldPage};
ghost use Rattle.wt_called_edit_laws.specs.ToldTogether.{AreAllTold};

/// A heading's line is told by itself. Where one of a page's lines, behind the marks that begin it, is of a heading's kind and
/// begins with `=` (`IsLinedHeading`), it is the line of a heading with the sides and the text that its delimiters give it, and no
/// others are a line's; the text may be empty. Where the line ends the page, it holds no comment and no hidden part that nothing
/// ends.
pub fn headings_are_told_by_their_lines()
    ensures told { (page : List ℕ) (before : List (List Item)) (marks : List Item) (l : List Item) (behind : List (List Item)) (n : ℕ)
        → EndsClosed (sources (content l)) (sources (ending l ++ joined behind)) → 1 ≤ length l → full_lines (page_items page) ≡ before ++ (marks ++ l) ∷ behind → IsLinedHeading n l
        → AreBlockItems (a_heading (sides_of (content l))) (text_of (content l)) (content l) }
    ensures only { (s : Sides) (q : List ℕ) (line : List Item) → AreBlockItems (a_heading s) q line → (sides_of line ≡ s) × (text_of line ≡ q) }
{}

/// So any number of paragraphs and headings of a page that calls nothing, and in which no node can only be kept as a whole, are
/// told by nothing but their lines (`IsToldPage`): the page may be edited with all of them. In a page that calls they are told
/// by the lines of the expanded page (`IsToldAmong`).
pub fn blocks_are_told_by_their_lines()
    ensures lined { (page : List ℕ) (ts : List Told) (behind : List (List Item)) → IsToldPage page ts behind → IsLinedPage page (map lined ts) behind }
    ensures called { (pages : Pages) (page : List ℕ) (ts : List Told) (behind : List (List Item)) → IsToldPage page ts behind
        → IsCalledPage pages (spots_by [] (map lined ts)) (end_by [] (map lined ts) behind) }
    ensures among { (pages : Pages) (page : List ℕ) (ts : List Told) (behind : List (List Item)) → IsToldAmong pages page ts behind
        → IsLinedAmong pages page (map lined ts) behind }
{}

/// The nodes of each of them may stay, in their order, with any texts between them, and so may its bold and italic (`IsStyledIn`):
/// asked is only that the source of each node ends what it begins (`AreEndedNodes`). So it is of each block among calls that calls
/// nothing.
pub fn nodes_of_told_blocks_stay()
    ensures told { (page : List ℕ) (ts : List Told) (t : Told) (us : List Told) (behind : List (List Item)) → IsToldPage page (ts ++ t ∷ us) behind
        → AreEndedNodes (signs_in (lined t).block (lined t).text) → IsStyledIn (lined t).block (lined t).text }
    ensures called { (pages : Pages) (ss : List BlockSpot) (s : BlockSpot) (rs : List BlockSpot) (behind : List ℕ) → IsCalledPage pages (ss ++ s ∷ rs) behind
        → AreEndedNodes (signs_in s.block s.text) → IsStyledIn s.block s.text }
{}

/// Where a node of a page's tree is such a block and isn't tangled there, no tag is open at the end of a node in it (`IsShut`).
/// So it is of all blocks at their paths.
pub fn untangled_blocks_are_shut()
    ensures node { (k : TextBlock) (q : List ℕ) (items : Expanded) (page : List ℕ) (t : Tree) → IsStanding (block_tree k q) t → is_tangled items page t ≡ false
        → IsShut k q }
    ensures paths { (ss : List BlockSpot) (paths : List (List ℕ)) (items : Expanded) (page : List ℕ) (t : Tree) → AllStand ss paths t
        → AllUntangled items page paths t → AreShut ss }
{}

/// Each paragraph and each heading of a page's tree, wherever it is outside of groups, is made of the rows of the expanded page:
/// of text with no other text beside it, or of a heading's; and it begins where these do. So it is made of whole lines, or its
/// first line begins with the sign of a table's end or a rule.
pub fn each_block_stands_on_lines()
    ensures rows { (pages : Pages) (page p : List ℕ) (t : Tree) → IsUtf8 page → refusal_of_page pages page ≡ None
        → IsReachedAt p (called_tree pages page) t → IsTextBlock (label t).kind → StandsOnRows pages page t }
    ensures lines { (pages : Pages) (page p : List ℕ) (t : Tree) → IsUtf8 page → refusal_of_page pages page ≡ None
        → IsReachedAt p (called_tree pages page) t → IsTextBlock (label t).kind → StandsOnLines pages page t }
{}

/// All paragraphs and headings that the lines of an expanded page tell are told at once (`AreAllTold`).
pub fn told_blocks_are_told_together()
    ensures all { (pages : Pages) (page : List ℕ) → IsUtf8 page → refusal_of_page pages page ≡ None → AreAllTold pages page }
{}

/// So each paragraph and heading of such a page's tree that is outside of groups, holds none and isn't tangled, and holds no mark
/// that nothing ends, may be edited at its path, which is one of those of blocks that the lines tell; but for these: text on
/// the line of a rule, or text that begins with `}` behind a table's end; a block for which a call gives the line break behind it,
/// or which is directly behind a call, if it begins with a `}` or the call has a `<` on its last line that no `>` follows (`beside_a_call`); one in which
/// a function is kept (`holds_a_function`); and the others of `IsExceptedIn`.
pub fn each_block_is_told_or_excepted()
    ensures all { (pages : Pages) (page : List ℕ) → IsUtf8 page → refusal_of_page pages page ≡ None → AllBlocksTold pages page }
{}

/// On a page that calls nothing no block is excepted for a call, a function or braces: those that aren't told there are as
/// `IsExceptedAt` names them. So it is with blocks that may hold calls, where no call gives a line break or a mark, by
/// `IsExceptedSigned`.
pub fn calls_except_no_block_where_there_are_none()
    ensures calm { (pages : Pages) (page : List ℕ) (t : Tree) → CallsNothing (page_items page) → IsExcepted pages page t
        → (s : StandsIn pages page t) × IsExceptedAt (full_lines (expanded_page pages page).items) (opened_len s.before) }
    ensures words { (pages : Pages) (page : List ℕ) (t : Tree)
        → AllByRecursion IsNoBreakOfCall (expanded_page pages page).items → IsExceptedCalling pages page t
        → (s : StandsIn pages page t) × IsExceptedSigned (full_lines (expanded_page pages page).items) (opened_len s.before) }
{}

/// Each paragraph and each heading of a page's tree that is outside of groups, with calls in it or without, is on
/// lines of the expanded page (`IsOnLines`): these stand as a block does, and where by them it may be edited with its calls
/// (`IsLinedCalling`), it is at its path that it may be. Excepted is what `IsExceptedByLines` names.
pub fn each_block_is_on_its_lines()
    ensures on { (pages : Pages) (page p : List ℕ) (t : Tree) → IsUtf8 page → refusal_of_page pages page ≡ None → IsReachedAt p (called_tree pages page) t
        → IsTextBlock (label t).kind → IsOnLines pages page p t ⊎ IsExceptedByLines pages page t }
{}

/// So with any number of them at once, by what each is alone: those at some paths, none of which is excepted or tangled, and
/// whose contents may be edited, with their calls or without (`IsEditableAt`), are told by lines of the expanded page, one
/// behind the other, and may be edited at these paths (`TakeThere`).
pub fn blocks_are_on_their_lines_together()
    ensures together { (pages : Pages) (page : List ℕ) (ps : List (List ℕ)) → IsUtf8 page → refusal_of_page pages page ≡ None
        → 1 ≤ length ps → EachEditable pages page ps → TakeThere pages page ps }
{}
