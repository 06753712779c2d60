ghost use Rattle.std.specs.Prelude.{◌≡◌, ◌+◌, IfSome};
ghost use Rattle.wt_transclusion.specs.Asked.{Asks, AsksAtMost};
ghost use Rattle.wt_commands.specs.Asked.{names_told, AsksNames};
ghost use Rattle.wt_commands.specs.Calls.{call};
ghost use Rattle.wt_commands.specs.Devices.{read_from, fetched_from, written_to};
ghost use Rattle.wt_pagetool.specs.Found.{CountsFaults, FindsAnswer, ReadsInput};
ghost use Rattle.wt_pagetool.specs.Promises.{AsksFor, Ends, EndsAsEdit, GivesBack, ReadsAtMost, Waits, Wrote};
ghost use Rattle.wt_commands.specs.Words.{command_of, Fetches, Reads};

use crate::answers::{edit_answer, page_answer, selser_answer};
use std::alloc::Global;
use wt_commands::{
    Command, Output, Refusal, command_of, counts_of_made, expansion_of_title, report,
    wikitext_of_input,
};
use wt_devices::{Folder, Sink, Source};
use wt_span::{List, PAGE_BYTES, Str};

/// What the words ask for, or why it can't be had. The records of the clauses are in `specs/Found.antt`.
#[tactic(auto, using(wt_commands::proofs::GenLaws::few_sections), unfolding(wt_commands::specs::Answers::answer_told, wt_commands::specs::Asked::names_told))]
fn find_answer<S: Source, F: Folder>(
    alloc: Global,
    words: &List<Str>,
    input: &mut S,
    folder: &mut F,
) -> Result<Output, Refusal>
    ensures finds { FindsAnswer words.now (read_from S.Source input.old input.new)
        (fetched_from F.Folder folder.old folder.new) result }
    ensures counts { CountsFaults words.now (read_from S.Source input.old input.new)
        (fetched_from F.Folder folder.old folder.new) result }
    ensures asks { Asks (F.answered folder.old) (F.answered folder.new) (F.most_asked folder.old)
        (F.most_asked folder.new) }
    ensures names { IfSome (names_told (F.pages folder.old) (S.left input.old) words.now)
        (λ names. AsksNames names (F.answered folder.old) (F.answered folder.new) result) }
    ensures reads { ReadsInput words.now (read_from S.Source input.old input.new) result }
    ensures waits { Waits (command_of words.now) (F.pages folder.old) input.old input.new }
    ensures pages_kept { F.pages folder.new ≡ F.pages folder.old }
    ensures unread { ¬ Reads (command_of words.now) → input.new ≡ input.old }
    ensures unasked { ¬ Fetches (command_of words.now) → folder.new ≡ folder.old }
{
    match command_of(alloc, words)? {
        Some(Command::Page(command, title)) => page_answer(alloc, command, &title, folder),
        Some(Command::Expand(title)) => expansion_of_title(alloc, title.as_str(), folder),
        Some(Command::Edit(title)) => edit_answer(alloc, &title, input, folder),
        Some(Command::Selser(title)) => selser_answer(alloc, &title, input, folder),
        Some(Command::Gen(count)) => counts_of_made(alloc, count),
        Some(Command::Wikitext) => wikitext_of_input(alloc, input),
        None => Err(Refusal::Usage),
    }
}

/// Answers the words of a command line, without the program's name, and gives the number to end with
/// (`Status::code`).
///
/// `html TITLE` writes to `out` the HTML of the page that `folder` has under the title, with its
/// templates, which are pages of `folder`, too, and its functions expanded; `ranges TITLE` a line for
/// each of its nodes that has a number, `mwN KIND START END OPEN CLOSE`, in bytes; `lint TITLE` a line
/// for each doubtful place, `KIND LINE COLUMN START END`; `expand TITLE` the items of the expanded page.
/// `gen N` makes a page of N sections and its HTML, reads this back and writes what it counted.
/// `wikitext` reads the HTML of `input` to its end and writes to `out` the source of the page that it
/// stands for. `edit TITLE` reads the HTML of `input`, in which some elements of the page's HTML are
/// marked as edited, and writes the new page: the inside of each marked block is written anew, blocks and
/// items come and go where their parent is marked so, and nothing else is changed. `selser TITLE` reads
/// such HTML without marks, finds what was changed, and writes a new page that shows what the HTML shows.
/// Nothing goes to `out` before the whole answer is known, and each refusal has its one line on `err`.
///
/// A title here means its full name. The records that the clauses name are in `specs/Promises.antt`.
/// What is said of a device's pages or bytes holds where the contracts can name them (`IfSome`), as those of
/// devices in memory. Of the directory and the standard streams of the program they name none, and `run` is
/// the same code over them. What is said of a device's count of faults always holds.
pub fn run<S: Source, F: Folder, W: Sink, E: Sink>(
    alloc: Global,
    words: &List<Str>,
    input: &mut S,
    folder: &mut F,
    out: &mut W,
    err: &mut E,
) -> u8
    // What each command wrote, when it is done.
    ensures wrote { Wrote (call words.now (read_from S.Source input.old input.new)
        (fetched_from F.Folder folder.old folder.new) (written_to W.Sink out.old out.new)
        (written_to E.Sink err.old err.new)) result }

    // A page is given back where its HTML comes unchanged, or changed only in what isn't compared.
    ensures gives_back { GivesBack (call words.now (read_from S.Source input.old input.new)
        (fetched_from F.Folder folder.old folder.new) (written_to W.Sink out.old out.new)
        (written_to E.Sink err.old err.new)) result }

    // `selser` is done where `edit` is, and is refused for its cause.
    ensures ends_as_edit { EndsAsEdit (call words.now (read_from S.Source input.old input.new)
        (fetched_from F.Folder folder.old folder.new) (written_to W.Sink out.old out.new)
        (written_to E.Sink err.old err.new)) result }

    // How a call ends: with the status of its answer, or with that of a fault or of want of memory; and what
    // it then wrote to `out` and to `err`. A fault is reported only where a device failed, once, and a call that
    // is done or refused changed no device's count of faults.
    ensures ends { Ends (call words.now (read_from S.Source input.old input.new)
        (fetched_from F.Folder folder.old folder.new) (written_to W.Sink out.old out.new)
        (written_to E.Sink err.old err.new)) result }

    // Of the names that the command needs the folder answered the first ones, in their order and no others. A
    // fetch that failed was in its turn. (Of `selser`, which may read three new pages, no names are known.)
    ensures asks_for { AsksFor (names_told (F.pages folder.old) (S.left input.old) words.now) result
        (F.answered folder.old) (F.answered folder.new) }

    // No page was asked for with more than one byte more than it may have.
    ensures asks_most { AsksAtMost (PAGE_BYTES + 1) (F.most_asked folder.old) (F.most_asked folder.new) }

    // No more of the input was read than the longest HTML and one piece, and before it failed no more than
    // the longest HTML.
    ensures reads { ReadsAtMost (call words.now (read_from S.Source input.old input.new)
        (fetched_from F.Folder folder.old folder.new) (written_to W.Sink out.old out.new)
        (written_to E.Sink err.old err.new)) result }

    // `edit` and `selser` leave the input alone where there is no text under the title.
    ensures waits { Waits (command_of words.now) (F.pages folder.old) input.old input.new }

    // The folder keeps its pages. A command that doesn't read (`html`, `ranges`, `expand`, `gen`, `lint`)
    // leaves the input as it was, and one that doesn't fetch (`wikitext`, `gen`) the folder; words that are
    // no command leave both.
    ensures pages_kept { F.pages folder.new ≡ F.pages folder.old }
    ensures unread { ¬ Reads (command_of words.now) → input.new ≡ input.old }
    ensures unasked { ¬ Fetches (command_of words.now) → folder.new ≡ folder.old }
{
    let found = find_answer(alloc, words, input, folder);
    report(alloc, found, out, err).code()
}
