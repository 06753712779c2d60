//! The program's call: `run` answers the words of a command line, and takes edits of contents and of texts, and paragraphs that come and go; and the
//! laws by which it does; and laws of the HTML that an editor sends for an edit.
#![tactic(auto)]

ghost use Rattle.std.specs.Prelude.{◌≡◌, ◌+◌};
ghost use Rattle.wt_transclusion.specs.Asked.{AsksAtMost};
ghost use Rattle.wt_commands.specs.Asked.{names_told};
ghost use Rattle.wt_commands.specs.Calls.{call};
ghost use Rattle.wt_commands.specs.Devices.{read_from, fetched_from, written_to};
ghost use Rattle.wt_pagetool.specs.Promises.{AsksFor, Ends, EndsAsEdit, GivesBack, ReadsAtMost, Waits, Wrote};
ghost use Rattle.wt_commands.specs.Words.{command_of, Fetches, Reads};
ghost use Rattle.wt_program.specs.ContentCalls.{TakesContentsAmongCalls};
ghost use Rattle.wt_program.specs.EditCalls.{TakesTextEdits};
ghost use Rattle.wt_program.specs.PlacedCalls.{TakesContentsInLines};
ghost use Rattle.wt_program.specs.ProseCalls.{TakesChangedProse};

mod laws;
mod sent_html;

pub use laws::{
    calls_take_changed_prose, calls_take_contents_among_calls, calls_take_contents_in_lines,
    calls_take_text_edits, calls_take_texts, calls_take_texts_among_calls,
    calls_take_texts_anywhere, calls_take_texts_in_cells, calls_take_told_edits,
    contents_at_their_places_are_taken_so, texts_among_calls_are_taken_so,
    texts_in_cells_are_taken_so, texts_on_pages_without_calls_are_taken_so,
};
pub use sent_html::{
    chosen_contents_can_be_sent, edits_can_be_sent, edits_have_their_html, worked_edit_is_written,
};
use std::alloc::Global;
use wt_devices::{Folder, Sink, Source};
pub use wt_pagetool::tell_no_memory;
use wt_span::{List, PAGE_BYTES, Str};

/// Answers the words of a command line, without the program's name, and gives the number to end with
/// (`Status::code` of `wt_pagetool`). This is `run` of `wt_pagetool`, which says what each command does, with all
/// that it promises and four promises more, which follow from that and from the laws of edits
/// (`takes_contents_among_calls`, `takes_contents_in_lines`, `takes_text_edits`, `takes_changed_prose`).
#[tactic(auto, using(crate::proofs::AmongCalls::calls_take, crate::proofs::PlacedCalls::calls_take_in_lines, crate::proofs::EditCalls::calls_take_edits, crate::proofs::ProseCalls::calls_take_changes))]
pub fn run<S: Source, F: Folder, W: Sink, E: Sink>(
    alloc: Global,
    words: &List<Str>,
    input: &mut S,
    folder: &mut F,
    out: &mut W,
    err: &mut E,
) -> u8
    // Edited contents of paragraphs and headings of a page with calls are taken, wherever these are outside the page's
    // groups, in the body, in cells and in captions, in any number of them at once. In the place of all that one holds
    // that calls nothing may be any text, and where its content is read so any texts beside its nodes. In one that holds
    // calls all of these stay, and any texts may be beside them, also where it begins or ends with one,
    // and bold and italic. Where a call sends such an edit of a page (`IsEditableWithCalls` of `wt_called_edit_laws`), it is done, and with
    // `edit` the page with these contents was written, and no line; or a device failed, or memory ran out. Nothing but
    // these blocks is another one in the new page.
    ensures takes_contents_among_calls { TakesContentsAmongCalls (call words.now (read_from S.Source input.old input.new)
        (fetched_from F.Folder folder.old folder.new) (written_to W.Sink out.old out.new)
        (written_to E.Sink err.old err.new)) result }

    // On any page that isn't refused, with calls or without, these blocks are told by the lines of the expanded page
    // (`IsLinedAmong`): any paragraphs and headings in the body, in cells and in captions whose lines come from no call and
    // hold no function that is kept, that aren't tangled, hold no group and no mark that nothing ends and are in no group,
    // whatever calls are before, between and behind them. Edited contents of any are taken so.
    ensures takes_contents_in_lines { TakesContentsInLines (call words.now (read_from S.Source input.old input.new)
        (fetched_from F.Folder folder.old folder.new) (written_to W.Sink out.old out.new)
        (written_to E.Sink err.old err.new)) result }

    // Each text edit is taken, on any page that isn't refused, with calls or without: where a call sends HTML in which texts
    // of any paragraphs and headings were typed anew (`IsMarkedEdit` of `wt_inside_laws`), `edit` has written the page with
    // the insides of these replaced by what was sent, as it is spelled, and no line; or a device failed, or memory ran out.
    // Each of them holds no group, is ordinary and is told by the lines of the expanded page (`IsOrdinaryOn`), or it may be
    // edited with its calls and texts may be typed beside these (`MayHoldCalls`). So it is where the lines of the expanded
    // page are said to tell them (`IsLinedCalling`). Nothing but the marked blocks is another one in the new page
    // (`IsLocalTextEdit`), and what is written for each of these makes nothing but what was typed, beside its calls and the
    // nodes that stay (`IsTypedIn`). Where HTML without marks differs from the page by such an edit (`IsMarkedDifference`),
    // `selser` is done, or a device failed, or memory ran out.
    ensures takes_text_edits { TakesTextEdits (call words.now (read_from S.Source input.old input.new)
        (fetched_from F.Folder folder.old folder.new) (written_to W.Sink out.old out.new)
        (written_to E.Sink err.old err.new)) result }

    // Paragraphs that come and go are taken, on a page of typed paragraphs with empty lines between them: where a call sends
    // some of these as they are, in their order, and any number of new ones with any texts (`IsProseChange` of
    // `wt_text_edit_laws`), it is done, and with `edit` the page with these was written, and no line; or a device failed, or
    // memory ran out.
    ensures takes_changed_prose { TakesChangedProse (call words.now (read_from S.Source input.old input.new)
        (fetched_from F.Folder folder.old folder.new) (written_to W.Sink out.old out.new)
        (written_to E.Sink err.old err.new)) result }

    // All that `run` of `wt_pagetool` promises, in the same words.
    ensures wrote { Wrote (call words.now (read_from S.Source input.old input.new)
        (fetched_from F.Folder folder.old folder.new) (written_to W.Sink out.old out.new)
        (written_to E.Sink err.old err.new)) result }
    ensures gives_back { GivesBack (call words.now (read_from S.Source input.old input.new)
        (fetched_from F.Folder folder.old folder.new) (written_to W.Sink out.old out.new)
        (written_to E.Sink err.old err.new)) result }
    ensures ends_as_edit { EndsAsEdit (call words.now (read_from S.Source input.old input.new)
        (fetched_from F.Folder folder.old folder.new) (written_to W.Sink out.old out.new)
        (written_to E.Sink err.old err.new)) result }
    ensures ends { Ends (call words.now (read_from S.Source input.old input.new)
        (fetched_from F.Folder folder.old folder.new) (written_to W.Sink out.old out.new)
        (written_to E.Sink err.old err.new)) result }
    ensures asks_for { AsksFor (names_told (F.pages folder.old) (S.left input.old) words.now) result
        (F.answered folder.old) (F.answered folder.new) }
    ensures asks_most { AsksAtMost (PAGE_BYTES + 1) (F.most_asked folder.old) (F.most_asked folder.new) }
    ensures reads { ReadsAtMost (call words.now (read_from S.Source input.old input.new)
        (fetched_from F.Folder folder.old folder.new) (written_to W.Sink out.old out.new)
        (written_to E.Sink err.old err.new)) result }
    ensures waits { Waits (command_of words.now) (F.pages folder.old) input.old input.new }
    ensures pages_kept { F.pages folder.new ≡ F.pages folder.old }
    ensures unread { ¬ Reads (command_of words.now) → input.new ≡ input.old }
    ensures unasked { ¬ Fetches (command_of words.now) → folder.new ≡ folder.old }
{
    wt_pagetool::run(alloc, words, input, folder, out, err)
}
