ghost use Rattle.std.specs.Prelude.{◌≡◌, ◌≤◌, length, IfOk, IfSome, IfErr, Some};
ghost use Rattle.wt_annotated.specs.Reached.{AreReachedSlices};
ghost use Rattle.wt_expand.specs.Work.{Pages, names_asked};
ghost use Rattle.wt_lint.specs.Lines.{findings};
ghost use Rattle.wt_lint.specs.Report.{finding_lines};
ghost use Rattle.wt_schema.specs.Html.{html_text};
ghost use Rattle.wt_tree.specs.View.{view};
ghost use Rattle.wt_transclusion.specs.Asked.{Asks};
ghost use Rattle.wt_commands.specs.Answers.{html_within, made_of_tree, made, title_answer};
ghost use Rattle.wt_commands.specs.Asked.{AsksNames, names_of, title_work, work_done};
ghost use Rattle.wt_commands.specs.Causes.{Answered, IsOfPage, IsOfTitle, IsKept};

use crate::command::PageCommand;
use crate::fetch::fetched_page;
use crate::output::Output;
use crate::page::{text_of_page, tree_of_text};
use crate::refusal::Refusal;
use bumpalo::Bump;
use std::alloc::Global;
use wt_devices::Folder;
use wt_html_out::{LengthRefusal, html_bytes_within};
use wt_lint::{finding_lines, lint};
use wt_listing::listing;
use wt_span::{HTML_BYTES, List, NoMemory, PAGE_BYTES};
use wt_tree::Annotated;

/// The HTML of a page, if it is no longer than it may be. The writer stops at the longest HTML, so no
/// page takes more memory than this does.
fn html_within(alloc: Global, tree: &Annotated<'_>) -> Result<Output, Refusal>
    ensures answered { Answered (html_within (html_text (view tree.now.body))) result }
    ensures of_page { IfErr result IsOfPage }
{
    match html_bytes_within(alloc, tree, HTML_BYTES) {
        Ok(bytes) => Ok(Output::Bytes(bytes)),
        Err(LengthRefusal::TooLong) => Err(Refusal::HtmlTooLong),
        Err(LengthRefusal::NoMemory) => Err(Refusal::NoMemory),
    }
}

/// The lines of the doubtful places of a page of this tree.
fn findings_of(alloc: Global, page: &str, tree: &Annotated<'_>) -> Result<List<u8>, NoMemory>
    requires room { length page.now ≤ PAGE_BYTES }
    requires slices { AreReachedSlices page.now (view tree.now.body) }
    ensures { IfOk result (λ bytes. bytes ≡ finding_lines (findings page.now (view tree.now.body))) }
{
    let findings = lint(alloc, page, tree)?;
    finding_lines(alloc, findings.as_slice())
}

/// What a command makes of a page of this tree.
fn output_of_tree(
    alloc: Global,
    command: PageCommand,
    page: &str,
    tree: &Annotated<'_>,
) -> Result<Output, Refusal>
    requires room { length page.now ≤ PAGE_BYTES }
    requires slices { AreReachedSlices page.now (view tree.now.body) }
    ensures answered { Answered (made_of_tree command page.now (view tree.now.body)) result }
    ensures of_page { IfErr result IsOfPage }
{
    match command {
        PageCommand::Html => html_within(alloc, tree),
        PageCommand::Ranges => Ok(Output::Bytes(listing(alloc, tree.body())?)),
        PageCommand::Lint => Ok(Output::Bytes(findings_of(alloc, page, tree)?)),
    }
}

/// What a command makes of a page that is text.
fn output_of_text<F: Folder>(
    alloc: Global,
    command: PageCommand,
    page: &str,
    folder: &mut F,
) -> Result<Output, Refusal>
    requires room { length page.now ≤ PAGE_BYTES }
    ensures answered { (pages : Pages) → F.pages folder.old ≡ Some pages
        → Answered (made command pages page.now) result }
    ensures of_title { IfErr result (IsOfTitle (F.fault_count folder.old) (F.fault_count folder.new)) }
    ensures count { IsKept result (F.fault_count folder.old) (F.fault_count folder.new) }
    ensures kept { F.pages folder.new ≡ F.pages folder.old }
    ensures asks { Asks (F.answered folder.old) (F.answered folder.new) (F.most_asked folder.old)
        (F.most_asked folder.new) }
    ensures asked { (pages : Pages) → F.pages folder.old ≡ Some pages
        → AsksNames (names_asked (work_done pages page.now)) (F.answered folder.old)
        (F.answered folder.new) result }
{
    let arena = Bump::new(alloc);
    let tree = tree_of_text(alloc, page, &arena, folder)?;
    output_of_tree(alloc, command, page, &tree)
}

/// What a command makes of the page under a title.
pub fn output_of_title<F: Folder>(
    alloc: Global,
    command: PageCommand,
    title: &str,
    folder: &mut F,
) -> Result<Output, Refusal>
    ensures answered { IfSome (F.pages folder.old)
        (λ pages. Answered (title_answer (pages title.now) (made command pages)) result) }
    ensures of_title { IfErr result (IsOfTitle (F.fault_count folder.old) (F.fault_count folder.new)) }
    ensures count { IsKept result (F.fault_count folder.old) (F.fault_count folder.new) }
    ensures kept { F.pages folder.new ≡ F.pages folder.old }
    ensures asks { Asks (F.answered folder.old) (F.answered folder.new) (F.most_asked folder.old)
        (F.most_asked folder.new) }
    ensures asked { IfSome (F.pages folder.old)
        (λ pages. AsksNames (names_of title.now (title_work (pages title.now) (work_done pages)))
        (F.answered folder.old) (F.answered folder.new) result) }
{
    let page = fetched_page(alloc, title, folder)?;
    let text = text_of_page(page.as_slice())?;
    output_of_text(alloc, command, text, folder)
}
