ghost use Rattle.std.specs.Prelude.{◌≡◌, ◌≤◌, length, Some, IfSome, IfErr};
ghost use Rattle.wt_expand.specs.Work.{Pages, names_asked};
ghost use Rattle.wt_transclusion.specs.Asked.{Asks};
ghost use Rattle.wt_commands.specs.Answers.{title_answer, expansion_of};
ghost use Rattle.wt_commands.specs.Asked.{AsksNames, names_of, title_work, work_done};
ghost use Rattle.wt_commands.specs.Causes.{Answered, IsOfTitle, IsKept};

use crate::fetch::fetched_page;
use crate::output::Output;
use crate::page::text_of_page;
use crate::refusal::Refusal;
use bumpalo::Bump;
use std::alloc::Global;
use wt_devices::Folder;
use wt_span::PAGE_BYTES;
use wt_template_stack::expanded_text;

/// What a page that is text shows with its templates expanded.
fn output_of_text<F: Folder>(alloc: Global, page: &str, folder: &mut F) -> Result<Output, Refusal>
    requires room { length page.now ≤ PAGE_BYTES }
    ensures answered { (pages : Pages) → F.pages folder.old ≡ Some pages
        → Answered (expansion_of pages page.now) result }
    ensures of_title { IfErr result (IsOfTitle (F.fault_count folder.old) (F.fault_count folder.new)) }
    ensures count { IsKept result (F.fault_count folder.old) (F.fault_count folder.new) }
    ensures kept { F.pages folder.new ≡ F.pages folder.old }
    ensures asks { Asks (F.answered folder.old) (F.answered folder.new) (F.most_asked folder.old)
        (F.most_asked folder.new) }
    ensures asked { (pages : Pages) → F.pages folder.old ≡ Some pages
        → AsksNames (names_asked (work_done pages page.now)) (F.answered folder.old)
        (F.answered folder.new) result }
{
    let arena = Bump::new(alloc);
    let text = expanded_text(alloc, page, &arena, folder)?;
    Ok(Output::Text(text))
}

/// What the page under a title shows with its templates expanded.
pub fn expansion_of_title<F: Folder>(
    alloc: Global,
    title: &str,
    folder: &mut F,
) -> Result<Output, Refusal>
    ensures answered { IfSome (F.pages folder.old)
        (λ pages. Answered (title_answer (pages title.now) (expansion_of pages)) result) }
    ensures of_title { IfErr result (IsOfTitle (F.fault_count folder.old) (F.fault_count folder.new)) }
    ensures count { IsKept result (F.fault_count folder.old) (F.fault_count folder.new) }
    ensures kept { F.pages folder.new ≡ F.pages folder.old }
    ensures asks { Asks (F.answered folder.old) (F.answered folder.new) (F.most_asked folder.old)
        (F.most_asked folder.new) }
    ensures asked { IfSome (F.pages folder.old)
        (λ pages. AsksNames (names_of title.now (title_work (pages title.now) (work_done pages)))
        (F.answered folder.old) (F.answered folder.new) result) }
{
    let page = fetched_page(alloc, title, folder)?;
    let text = text_of_page(page.as_slice())?;
    output_of_text(alloc, text, folder)
}
