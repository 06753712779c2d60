//! What each command that has a page answers, for its title as the words have it.

ghost use Rattle.std.specs.Prelude.{◌≡◌, ◌+◌, IfSome, IfErr, OnOk};
ghost use Rattle.std.specs.Io.KnownBytes.{IsAtEnd};
ghost use Rattle.wt_devices.specs.Device.{Rose};
ghost use Rattle.wt_transclusion.specs.Asked.{Asks};
ghost use Rattle.wt_commands.specs.Answers.{edit_told, made, selser_told, title_answer, IsNoText};
ghost use Rattle.wt_commands.specs.Asked.{edit_names, names_of, title_work, work_done, AsksNames};
ghost use Rattle.wt_commands.specs.Causes.{found_status, Answered, FailsAlone, IsKept, IsOfEdit, IsOfTitle};
ghost use Rattle.wt_commands.specs.Inputs.{GivesAtMost, StopsWithin};
ghost use Rattle.wt_pagetool.specs.Selser.{AnswersSelser};

use crate::selser_command::selser_page;
use std::alloc::Global;
use wt_commands::{Output, PIECE, PageCommand, Refusal, edited_page, output_of_title};
use wt_devices::{Folder, Source};
use wt_edit::Readings;
use wt_span::{HTML_BYTES, Str};

/// What `html`, `ranges` or `lint` writes of the page under a title.
pub fn page_answer<F: Folder>(
    alloc: Global,
    command: PageCommand,
    title: &Str,
    folder: &mut F,
) -> Result<Output, Refusal>
    ensures answered { IfSome (F.pages folder.old)
        (λ pages. Answered (title_answer (pages title.now) (made command pages)) result) }
    ensures of_title { IfErr result (IsOfTitle (F.fault_count folder.old) (F.fault_count folder.new)) }
    ensures count { IsKept result (F.fault_count folder.old) (F.fault_count folder.new) }
    ensures kept { F.pages folder.new ≡ F.pages folder.old }
    ensures asks { Asks (F.answered folder.old) (F.answered folder.new) (F.most_asked folder.old)
        (F.most_asked folder.new) }
    ensures asked { IfSome (F.pages folder.old)
        (λ pages. AsksNames (names_of title.now (title_work (pages title.now) (work_done pages)))
        (F.answered folder.old) (F.answered folder.new) result) }
{
    output_of_title(alloc, command, title.as_str(), folder)
}

/// The page under a title, changed as its HTML, which is the input, was.
pub fn edit_answer<S: Source, F: Folder>(
    alloc: Global,
    title: &Str,
    input: &mut S,
    folder: &mut F,
) -> Result<Output, Refusal>
    ensures answered { IfSome (edit_told (F.pages folder.old) (S.left input.old) title.now)
        (λ a. Answered a result) }
    ensures asks { Asks (F.answered folder.old) (F.answered folder.new) (F.most_asked folder.old)
        (F.most_asked folder.new) }
    ensures asked { IfSome (edit_names (F.pages folder.old) (S.left input.old) title.now)
        (λ names. AsksNames names (F.answered folder.old) (F.answered folder.new) result) }
    ensures waits { IfSome (F.pages folder.old) (λ pages. IsNoText (pages title.now) → input.new ≡ input.old) }
    ensures of_edit { IfErr result (IsOfEdit (Rose (S.fault_count input.old) (S.fault_count input.new))
        (Rose (F.fault_count folder.old) (F.fault_count folder.new))) }
    ensures ended { OnOk result (IsAtEnd (S.left input.new)) }
    ensures input_kept { IsKept result (S.fault_count input.old) (S.fault_count input.new) }
    ensures takes { GivesAtMost (HTML_BYTES + PIECE) (S.left input.old) (S.left input.new) }
    ensures stops { IfErr result (StopsWithin (S.left input.old) (S.left input.new)) }
    ensures alone { FailsAlone (found_status result) (S.fault_count input.old) (S.fault_count input.new)
        (F.fault_count folder.old) (F.fault_count folder.new) }
    ensures folder_kept { IsKept result (F.fault_count folder.old) (F.fault_count folder.new) }
    ensures kept { F.pages folder.new ≡ F.pages folder.old }
{
    edited_page(alloc, title.as_str(), input, folder)
}

/// The same by the difference of the two alone: marks count for nothing.
pub fn selser_answer<S: Source, F: Folder>(
    alloc: Global,
    title: &Str,
    input: &mut S,
    folder: &mut F,
) -> Result<Output, Refusal>
    ensures answered { IfSome (selser_told (F.pages folder.old) (S.left input.old) title.now)
        (λ a. Answered a result) }
    ensures found { IfSome (F.pages folder.old) (λ pages. IfSome (S.left input.old)
        (λ bytes. AnswersSelser pages (pages title.now) bytes result)) }
    ensures waits { IfSome (F.pages folder.old) (λ pages. IsNoText (pages title.now) → input.new ≡ input.old) }
    ensures asks { Asks (F.answered folder.old) (F.answered folder.new) (F.most_asked folder.old)
        (F.most_asked folder.new) }
    ensures of_edit { IfErr result (IsOfEdit (Rose (S.fault_count input.old) (S.fault_count input.new))
        (Rose (F.fault_count folder.old) (F.fault_count folder.new))) }
    ensures ended { OnOk result (IsAtEnd (S.left input.new)) }
    ensures input_kept { IsKept result (S.fault_count input.old) (S.fault_count input.new) }
    ensures takes { GivesAtMost (HTML_BYTES + PIECE) (S.left input.old) (S.left input.new) }
    ensures stops { IfErr result (StopsWithin (S.left input.old) (S.left input.new)) }
    ensures alone { FailsAlone (found_status result) (S.fault_count input.old) (S.fault_count input.new)
        (F.fault_count folder.old) (F.fault_count folder.new) }
    ensures folder_kept { IsKept result (F.fault_count folder.old) (F.fault_count folder.new) }
    ensures kept { F.pages folder.new ≡ F.pages folder.old }
{
    let mut readings = Readings::none();
    selser_page(alloc, title.as_str(), input, folder, &mut readings)
}
