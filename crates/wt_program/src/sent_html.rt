// Laws of the HTML that an editor sends: each edit of contents that can be written as HTML has its HTML, and can be sent.

ghost use Rattle.std.specs.Prelude.{◌≡◌, ◌⊎◌, ◌<◌, ◌≤◌, ◌^◌, ℕ, Some, None, List, [], ◌∷◌, codes, length};
ghost use Rattle.std.specs.Str.{IsUtf8};
ghost use Rattle.wt_span.specs.declared.limits.TheConstants.{PAGE_BYTES};
ghost use Rattle.wt_checks.specs.Kept.{children};
ghost use Rattle.wt_expand.specs.Expansion.{page_work};
ghost use Rattle.wt_expand.specs.Work.{Pages, first_refusal};
ghost use Rattle.wt_commands.specs.Calls.{Call};
ghost use Rattle.wt_commands.specs.Statuses.{code, IsFaultOrNoMemory};
ghost use Rattle.wt_commands.specs.declared.status.Status.TheVariants as status;
ghost use Rattle.wt_pagetool.specs.Promises.{Ends, EndsAsEdit};
ghost use Rattle.wt_program.specs.Calls.{WroteNewPage};
ghost use Rattle.wt_typed_blocks.specs.Edited.{Edits, page_nodes, AreEdited};
ghost use Rattle.wt_text_edit_laws.specs.BlockSpots.{BlockSpot, spots_source};
ghost use Rattle.wt_called_edit_laws.specs.Covered.{IsEditablePage};
ghost use Rattle.wt_called_edit_laws.specs.Groups.{called_tree};
ghost use Rattle.wt_program.specs.EditsSent.{AnyCanBeSent, CanBeSent, HasHtml};
ghost use Rattle.wt_program.specs.SentHtml.{AreRead};
ghost use Rattle.wt_program.specs.WorkedCall.{marked_html, plain_html, stored_page, written_page};

/// An edit of contents of any page, in which what stays is sent as it is read of the page's HTML, in which no two texts are
/// side by side and nothing is new but texts (`AreRead`), has its HTML. Without marks this is the HTML that `html` would
/// write of the page with these contents in its blocks (`edited_html`), and some HTML is read as the edit with its marks.
pub fn edits_have_their_html()
    ensures { (pages : Pages) (page : List ℕ) (es : Edits) → IsUtf8 page → length page < 2 ^ 30
        → first_refusal pages page (page_work pages page) ≡ None → page_nodes es ≡ children (called_tree pages page) → AreEdited es → AreRead es
        → HasHtml (called_tree pages page) es }
{}

/// So each such edit can be sent: there is an input with which every call of `edit` of this page sends it (`SendsFor`), and
/// with the HTML without marks every call of `selser` does.
pub fn edits_can_be_sent()
    ensures { (pages : Pages) (page : List ℕ) (es : Edits) → IsUtf8 page → length page ≤ PAGE_BYTES
        → first_refusal pages page (page_work pages page) ≡ None → page_nodes es ≡ children (called_tree pages page) → AreEdited es → AreRead es
        → CanBeSent pages page es }
{}

/// The blocks of a page of the class that call nothing themselves (`IsEditablePage`) are at paths of its tree, and whatever
/// such contents are chosen for them (`AreChosenRead`), there is an edit with these, and it can be sent. Every call that
/// keeps what `run` of `wt_pagetool` promises, to which its input is given, has written the page with these contents, and no
/// line; or a device failed, or memory ran out.
pub fn chosen_contents_can_be_sent()
    ensures { (pages : Pages) (ss : List BlockSpot) (behind : List ℕ) → IsEditablePage pages ss behind
        → length (spots_source ss behind) ≤ PAGE_BYTES → AnyCanBeSent pages ss behind }
{}

/// A worked call, told whole: the words are `edit A`, the folder has the page `A`, of a line, a heading and another line, and
/// the input is its HTML with another text in the first line. Every such call that keeps what `run` of `wt_pagetool`
/// promises has written the page with this text, byte for byte, and no line; or a device failed, or memory ran out. Without
/// the mark, `selser` is done.
pub fn worked_edit_is_written()
    ensures edit { (c : Call) (ended : ℕ) (pages : Pages) → Ends c ended → EndsAsEdit c ended
        → c.words ≡ codes "edit" ∷ codes "A" ∷ [] → c.folder.pages_before ≡ Some pages → pages (codes "A") ≡ Some stored_page
        → c.input.left_before ≡ Some marked_html → WroteNewPage c ended written_page ⊎ IsFaultOrNoMemory ended }
    ensures selser { (c : Call) (ended : ℕ) (pages : Pages) → Ends c ended → EndsAsEdit c ended
        → c.words ≡ codes "selser" ∷ codes "A" ∷ [] → c.folder.pages_before ≡ Some pages → pages (codes "A") ≡ Some stored_page
        → c.input.left_before ≡ Some plain_html → (ended ≡ code status.Done) ⊎ IsFaultOrNoMemory ended }
{}
