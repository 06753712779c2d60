// Laws of calls that send edited contents and texts typed in a page: what `run` of `wt_pagetool` promises is enough for them to be taken.

ghost use Rattle.std.specs.Prelude.{ℕ};
ghost use Rattle.wt_commands.specs.Calls.{Call};
ghost use Rattle.wt_pagetool.specs.Promises.{Ends, EndsAsEdit};
ghost use Rattle.wt_program.specs.AnyCalls.{TakesTextsAnywhere};
ghost use Rattle.wt_program.specs.CalledCalls.{TakesTextsAmongCalls};
ghost use Rattle.wt_program.specs.Calls.{TakesTexts};
ghost use Rattle.wt_program.specs.CellCalls.{TakesTextsInCells};
ghost use Rattle.wt_program.specs.ContentCalls.{TakesContentsAmongCalls};
ghost use Rattle.wt_program.specs.EditCalls.{TakesTextEdits, TakesToldEdits};
ghost use Rattle.wt_program.specs.PlacedCalls.{TakesContentsAtPlaces, TakesTextsAtPlaces, TakesContentsInLines, TakesTextsInLines};
ghost use Rattle.wt_program.specs.ProseCalls.{TakesChangedProse};

/// Every call that keeps what `run` of `wt_pagetool` promises (`Ends`, `EndsAsEdit`) takes edited contents of paragraphs
/// and headings among calls, of those that hold calls, too (`IsEditableWithCalls`): `edit` has written the new page and no line, and `selser` is done; or a
/// device failed, or memory ran out. Where no device failed, only want of memory may come in the place of the new page.
#[tactic(auto, using(crate::proofs::AmongCalls::calls_take))]
pub fn calls_take_contents_among_calls()
    ensures { (c : Call) (ended : ℕ) → Ends c ended → EndsAsEdit c ended → TakesContentsAmongCalls c ended }
{}

/// Where a call takes edited contents, it takes texts typed in the places of all that blocks hold which call nothing
/// (`IsEditablePage`), told by what is sent for each node (`Sents`): these are such contents.
#[tactic(auto, using(crate::proofs::TextCalls::texts_so))]
pub fn texts_among_calls_are_taken_so()
    ensures { (c : Call) (ended : ℕ) → TakesContentsAmongCalls c ended → TakesTextsAmongCalls c ended }
{}

/// So every such call takes these texts.
#[tactic(auto, using(crate::proofs::TextCalls::calls_take_texts))]
pub fn calls_take_texts_among_calls()
    ensures { (c : Call) (ended : ℕ) → Ends c ended → EndsAsEdit c ended → TakesTextsAmongCalls c ended }
{}

/// Where a call takes texts on pages with calls, it takes those on pages without calls, too: these are such pages.
#[tactic(auto, using(crate::proofs::CalmCalls::anywhere_so))]
pub fn texts_on_pages_without_calls_are_taken_so()
    ensures { (c : Call) (ended : ℕ) → TakesTextsAmongCalls c ended → TakesTextsAnywhere c ended }
{}

/// And so it takes a text in a typed paragraph in a cell of a table (`IsCellPage`), on such a page.
#[tactic(auto, using(crate::proofs::CellsCalls::cells_so))]
pub fn texts_in_cells_are_taken_so()
    ensures { (c : Call) (ended : ℕ) → TakesTextsAnywhere c ended → TakesTextsInCells c ended }
{}

/// The same of pages that call nothing (`AreSpots`), whatever the folder has.
#[tactic(auto, using(crate::proofs::CalmCalls::any_calls))]
pub fn calls_take_texts_anywhere()
    ensures { (c : Call) (ended : ℕ) → Ends c ended → EndsAsEdit c ended → TakesTextsAnywhere c ended }
{}

/// The same of pages with these paragraphs and headings in their body, where the edit is told by what is sent for each
/// part of the page (`IsBlockEdit`).
#[tactic(auto, using(crate::proofs::BlocksCalls::takes))]
pub fn calls_take_texts()
    ensures { (c : Call) (ended : ℕ) → Ends c ended → EndsAsEdit c ended → TakesTexts c ended }
{}

/// The same of a text typed in one typed paragraph in a cell of a table (`IsCellPage`).
#[tactic(auto, using(crate::proofs::CellsCalls::takes_in_cells))]
pub fn calls_take_texts_in_cells()
    ensures { (c : Call) (ended : ℕ) → Ends c ended → EndsAsEdit c ended → TakesTextsInCells c ended }
{}

/// Where a call takes contents on pages with calls, it takes those of paragraphs and headings that aren't tangled, at their
/// places in a page that calls nothing and in which no node can only be kept as a whole (`IsPlacedPage`): whatever they
/// hold and whatever is round them, in the body, in cells and in captions. So it takes texts. The same is said of any page,
/// with calls and without, by the lines of the expanded page (`IsLinedAmong`), of those whose lines come from no call.
pub fn contents_at_their_places_are_taken_so()
    ensures contents { (c : Call) (ended : ℕ) → TakesContentsAmongCalls c ended → TakesContentsAtPlaces c ended }
    ensures texts { (c : Call) (ended : ℕ) → TakesContentsAmongCalls c ended → TakesTextsAtPlaces c ended }
    ensures contents_in_lines { (c : Call) (ended : ℕ) → TakesContentsAmongCalls c ended → TakesContentsInLines c ended }
    ensures texts_in_lines { (c : Call) (ended : ℕ) → TakesContentsAmongCalls c ended → TakesTextsInLines c ended }
{}

/// So every call that keeps what `run` of `wt_pagetool` promises takes these contents and texts.
pub fn calls_take_contents_in_lines()
    ensures contents { (c : Call) (ended : ℕ) → Ends c ended → EndsAsEdit c ended → TakesContentsInLines c ended }
    ensures texts { (c : Call) (ended : ℕ) → Ends c ended → EndsAsEdit c ended → TakesTextsInLines c ended }
{}

/// Every such call takes paragraphs that come into a page of typed paragraphs and go from it (`IsProseChange`): `edit` has
/// written the page with those that stay and the new ones, and no line, and `selser` is done; or a device failed, or
/// memory ran out.
#[tactic(auto, using(crate::proofs::ProseCalls::calls_take_changes))]
pub fn calls_take_changed_prose()
    ensures { (c : Call) (ended : ℕ) → Ends c ended → EndsAsEdit c ended → TakesChangedProse c ended }
{}

/// Every such call takes HTML that is a text edit of a page, where the marked blocks are ordinary or may hold calls
/// (`IsMarkedEdit` of `wt_inside_laws`), and where the lines of the expanded page are said to tell them: `edit` has written
/// the page with their insides replaced by what was sent, as it is spelled, and no line; or a device failed, or memory ran
/// out. Where HTML without marks differs by such an edit, `selser` is done; or a device failed, or memory ran out.
#[tactic(auto, using(crate::proofs::EditCalls::calls_take_edits))]
pub fn calls_take_text_edits()
    ensures { (c : Call) (ended : ℕ) → Ends c ended → EndsAsEdit c ended → TakesTextEdits c ended }
{}

/// The same of blocks that call nothing and that the lines of the expanded page tell (`IsLinedAmong`), which are at paths of
/// the page's tree, and any of which may be edited at once.
#[tactic(auto, using(crate::proofs::EditCalls::calls_take_told))]
pub fn calls_take_told_edits()
    ensures { (c : Call) (ended : ℕ) → Ends c ended → TakesToldEdits c ended }
{}
