//! Text edits are local: what a page means outside of the marked blocks stays as it was.

ghost use Rattle.std.specs.Prelude.{ℕ, List, Option};
ghost use Rattle.std.specs.List.{AllByRecursion};
ghost use Rattle.wt_span.specs.Items.{Item};
ghost use Rattle.wt_tree.specs.Tree.{Tree};
ghost use Rattle.wt_expand.specs.Work.{Pages};
ghost use Rattle.wt_page_round_trip.specs.PageTree.{page_tree};
ghost use Rattle.wt_slices.specs.BodySlices.{slices};
ghost use Rattle.wt_slices.specs.Changes.{marked};
ghost use Rattle.wt_splice.specs.Splice.{spliced};
ghost use Rattle.wt_visible.specs.SameNodes.{same_node};
ghost use Rattle.wt_called_edit_laws.specs.CallingContents.{TakesContentsIn};
ghost use Rattle.wt_called_edit_laws.specs.LinedAmong.{spots_of_lines, end_of_lines};
ghost use Rattle.wt_called_edit_laws.specs.LinedCalling.{IsLinedCalling};
ghost use Rattle.wt_called_edit_laws.specs.LocalChange.{ExpandsAlike};
ghost use Rattle.wt_called_edit_laws.specs.PlacedLines.{LinedBlock};
ghost use Rattle.wt_inside_laws.specs.BesideEdits.{IsBesideEdit};
ghost use Rattle.wt_inside_laws.specs.EditsWithCalls.{IsMarkedEdit};
ghost use Rattle.wt_inside_laws.specs.LocalTextEdits.{IsLocalTextEdit};
ghost use Rattle.wt_inside_laws.specs.ToldEdits.{IsOrdinaryEdit};
ghost use Rattle.wt_inside_laws.specs.TypedApart.{IsTypedApart};
ghost use Rattle.wt_inside_laws.specs.TypedBeside.{IsTypedIn};

/// Each text edit that `text_edits_are_done` speaks of is local (`IsLocalChange` of `wt_called_edit_laws`). In the new page
/// each node that holds no marked block has the kind, attributes, delimiters and source that it had, and its range is moved
/// by the bytes that were added before it. A node that holds marked blocks is the same, too, but for its end, which is moved
/// by what was added in it as well. The marked blocks keep their kind and delimiters. The page has the same calls, each of
/// which gives what it gave, and the expansion is the same work, so it costs the same (`ExpandsAlike`).
#[tactic(auto)]
pub fn text_edits_are_local()
    ensures nodes { (pages : Pages) (page input : List ℕ) (new : Tree) (unsourced : Option ℕ)
        → IsOrdinaryEdit pages page input new unsourced → IsLocalTextEdit pages page new }
    ensures calls { (pages : Pages) (page input : List ℕ) (new : Tree) (unsourced : Option ℕ)
        → IsOrdinaryEdit pages page input new unsourced
        → ExpandsAlike pages page (spliced page (slices same_node (page_tree pages page) new)) }
{}

/// So is each that `text_edits_beside_calls_are_done` speaks of, where the marked blocks may hold calls: the page has the same
/// calls, and the expansion is the same work, or some of it.
#[tactic(auto)]
pub fn text_edits_beside_calls_are_local()
    ensures { (pages : Pages) (page : List ℕ) (bs : List LinedBlock) (rest : List (List Item)) (new : Tree)
        → IsLinedCalling pages page bs rest
        → (c : TakesContentsIn pages (spots_of_lines pages page bs) (end_of_lines pages page bs rest))
        → IsBesideEdit pages page c.paths new → IsLocalTextEdit pages page new }
{}

/// What `edit` writes for each marked block of such an edit is what was sent, as it is spelled, and makes nothing but that
/// (`IsSpelledApart` of `wt_beside_laws`): no lexeme but those of the nodes that stay, the references of what was typed and
/// the nowikis that are put; on each of its lines even numbers of bold and of italic toggles; and read again, as a block of
/// its kind, it shows what was sent.
#[tactic(auto)]
pub fn marked_blocks_make_nothing_else()
    ensures { (pages : Pages) (page input : List ℕ) (new : Tree) (unsourced : Option ℕ)
        → IsOrdinaryEdit pages page input new unsourced → AllByRecursion IsTypedApart (marked (page_tree pages page) new) }
{}

/// So is each of an edit that `text_edits_with_calls_are_done` speaks of, where the marked blocks may hold calls
/// (`IsSpelledBeside` of `wt_called_edit_laws`): its items are what its calls give, too, however many calls come before it.
#[tactic(auto)]
pub fn marked_blocks_with_calls_make_nothing_else()
    ensures { (pages : Pages) (page input : List ℕ) (new : Tree) (unsourced : Option ℕ)
        → IsMarkedEdit pages page input new unsourced → AllByRecursion (IsTypedIn pages) (marked (page_tree pages page) new) }
{}
