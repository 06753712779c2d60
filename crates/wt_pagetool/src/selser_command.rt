//! The command that changes a page as its HTML was changed, without marks.

ghost use Rattle.std.specs.Prelude.{◌≡◌, ◌≤◌, ◌+◌, ℕ, List, length, Some, IfSome, IfErr, OnOk};
ghost use Rattle.std.specs.Io.KnownBytes.{IsAtEnd};
ghost use Rattle.wt_checks.specs.Checked.{nodes_checked};
ghost use Rattle.wt_difference.specs.Difference.{are_none, difference};
ghost use Rattle.wt_difference.specs.Remarked.{remarked};
ghost use Rattle.wt_expand.specs.Work.{Pages};
ghost use Rattle.wt_expansion.specs.Known.{HoldsPages};
ghost use Rattle.wt_schema.specs.Read.{read};
ghost use Rattle.wt_html_in.specs.Feeding.{IsFed};
ghost use Rattle.wt_devices.specs.Device.{Rose};
ghost use Rattle.wt_transclusion.specs.Asked.{Asks};
ghost use Rattle.wt_tree.specs.Tree.{label};
ghost use Rattle.wt_tree.specs.View.{view};
ghost use Rattle.wt_tree.specs.declared.kind.Kind.TheVariants as kind;
ghost use Rattle.wt_selser.specs.Borders.{page_text};
ghost use Rattle.wt_slices.specs.Borders.{HasBorders};
ghost use Rattle.wt_commands.specs.Answers.{input_answer, nodes_answer, selser_told, taken_answer, taken_to, IsNoText};
ghost use Rattle.wt_commands.specs.Causes.{found_status, Answered, FailsAlone, IsKept, IsOfEdit};
ghost use Rattle.wt_commands.specs.Inputs.{GivesAtMost, StopsWithin};
ghost use Rattle.wt_pagetool.specs.Selser.{AnswersSelser, Finds, FindsFor, FindsNew, OrFound};
ghost use Rattle.wt_unmarked_edit.specs.Tried.{KnowsOf};

use bumpalo::Bump;
use std::alloc::Global;
use wt_commands::{Output, PIECE, Refusal, fetched_page, read_all, text_of_page};
use wt_devices::{Folder, Source};
use wt_edit::{KnownPage, MOST_READINGS, Readings, known_page};
use wt_html_in::Reader;
use wt_span::{HTML_BYTES, PAGE_BYTES};
use wt_template_stack::Expansion;
use wt_tree::Node;
use wt_unmarked_edit::{Memory, selser};

/// The new page of a page that was expanded, by the tree to which it was edited.
fn page_of_known<'a, F: Folder>(
    page: &str,
    known: KnownPage<'a>,
    edited: Node<'a>,
    memory: Memory<'a>,
    folder: &mut F,
    readings: &mut Readings,
) -> Result<Output, Refusal>
    requires body { (label (view known.annotated.tree.body)).kind ≡ kind.Body }
    requires places { HasBorders page.now (view known.annotated.tree.body) }
    requires text { page_text known.annotated.items ≡ page.now }
    requires known { HoldsPages known.expansion }
    requires unread { readings.old ≡ 0 }
    ensures answered { (pages : Pages) → F.pages folder.old ≡ Some pages → KnowsOf pages known.entry.expansion
        → let t = view known.entry.annotated.tree.body in
        OrFound (nodes_answer page.now (nodes_checked t (remarked t (view edited.entry))))
        (FindsNew pages known.entry.annotated.items page.now t (remarked t (view edited.entry))
        (are_none (difference t (view edited.entry))) result) result }
    ensures asks { Asks (F.answered folder.old) (F.answered folder.new) (F.most_asked folder.old)
        (F.most_asked folder.new) }
    ensures of_edit { IfErr result (IsOfEdit ⊥ (Rose (F.fault_count folder.old) (F.fault_count folder.new))) }
    ensures count { IsKept result (F.fault_count folder.old) (F.fault_count folder.new) }
    ensures kept { F.pages folder.new ≡ F.pages folder.old }
    ensures few { readings.new ≤ MOST_READINGS }
{
    let new = selser(page, known, edited, memory, folder, readings)?;
    Ok(Output::Text(new))
}

/// The new page of a page that is text, by the tree to which it was edited.
fn page_to<'a, F: Folder>(
    page: &'a str,
    edited: Node<'a>,
    memory: Memory<'a>,
    folder: &mut F,
    readings: &mut Readings,
) -> Result<Output, Refusal>
    requires room { length page.now ≤ PAGE_BYTES }
    requires unread { readings.old ≡ 0 }
    ensures answered { (pages : Pages) → F.pages folder.old ≡ Some pages
        → OrFound (taken_to pages page.now (view edited.entry)) (Finds pages page.now (view edited.entry) result)
        result }
    ensures asks { Asks (F.answered folder.old) (F.answered folder.new) (F.most_asked folder.old)
        (F.most_asked folder.new) }
    ensures of_edit { IfErr result (IsOfEdit ⊥ (Rose (F.fault_count folder.old) (F.fault_count folder.new))) }
    ensures count { IsKept result (F.fault_count folder.old) (F.fault_count folder.new) }
    ensures kept { F.pages folder.new ≡ F.pages folder.old }
    ensures few { readings.new ≤ MOST_READINGS }
{
    let expansion = Expansion::new(memory.alloc, memory.arena);
    let found = known_page(memory.alloc, page, memory.arena, folder, expansion)?;
    page_of_known(page, found, edited, memory, folder, readings)
}

/// The new page of a page that is text, by the HTML that was fed.
fn page_of_read<'a, F: Folder>(
    page: &'a str,
    reader: Reader<'a>,
    memory: Memory<'a>,
    folder: &mut F,
    readings: &mut Readings,
) -> Result<Output, Refusal>
    requires room { length page.now ≤ PAGE_BYTES }
    requires unread { readings.old ≡ 0 }
    ensures answered { (pages : Pages) (bytes : List ℕ) → F.pages folder.old ≡ Some pages
        → IsFed reader.entry bytes
        → OrFound (taken_answer pages page.now (read bytes)) (FindsFor pages page.now (read bytes) result)
        result }
    ensures asks { Asks (F.answered folder.old) (F.answered folder.new) (F.most_asked folder.old)
        (F.most_asked folder.new) }
    ensures of_edit { IfErr result (IsOfEdit ⊥ (Rose (F.fault_count folder.old) (F.fault_count folder.new))) }
    ensures count { IsKept result (F.fault_count folder.old) (F.fault_count folder.new) }
    ensures kept { F.pages folder.new ≡ F.pages folder.old }
    ensures few { readings.new ≤ MOST_READINGS }
{
    let edited = reader.finish()?;
    let body = edited.into_body();
    page_to(page, body, memory, folder, readings)
}

/// The new page of a page that is text, by the HTML that the input gives, which is read to its end first.
fn page_of_text<S: Source, F: Folder>(
    alloc: Global,
    page: &str,
    input: &mut S,
    folder: &mut F,
    readings: &mut Readings,
) -> Result<Output, Refusal>
    requires room { length page.now ≤ PAGE_BYTES }
    requires unread { readings.old ≡ 0 }
    ensures answered { (pages : Pages) → F.pages folder.old ≡ Some pages → IfSome (S.left input.old)
        (λ bytes. OrFound (input_answer (taken_answer pages page.now) bytes)
        (FindsFor pages page.now (read bytes) result) result) }
    ensures asks { Asks (F.answered folder.old) (F.answered folder.new) (F.most_asked folder.old)
        (F.most_asked folder.new) }
    ensures of_edit { IfErr result (IsOfEdit (Rose (S.fault_count input.old) (S.fault_count input.new))
        (Rose (F.fault_count folder.old) (F.fault_count folder.new))) }
    ensures ended { OnOk result (IsAtEnd (S.left input.new)) }
    ensures input_kept { IsKept result (S.fault_count input.old) (S.fault_count input.new) }
    ensures takes { GivesAtMost (HTML_BYTES + PIECE) (S.left input.old) (S.left input.new) }
    ensures stops { IfErr result (StopsWithin (S.left input.old) (S.left input.new)) }
    ensures alone { FailsAlone (found_status result) (S.fault_count input.old) (S.fault_count input.new)
        (F.fault_count folder.old) (F.fault_count folder.new) }
    ensures folder_kept { IsKept result (F.fault_count folder.old) (F.fault_count folder.new) }
    ensures kept { F.pages folder.new ≡ F.pages folder.old }
    ensures few { readings.new ≤ MOST_READINGS }
{
    let arena = Bump::new(alloc);
    let reader = read_all(alloc, &arena, input)?;
    let memory = Memory {
        alloc,
        arena: &arena,
    };
    page_of_read(page, reader, memory, folder, readings)
}

/// The page under a title, changed as its HTML, which is the input, was changed: by the difference of the two,
/// whatever marks the HTML has. It counts the new pages that it reads back.
pub fn selser_page<S: Source, F: Folder>(
    alloc: Global,
    title: &str,
    input: &mut S,
    folder: &mut F,
    readings: &mut Readings,
) -> Result<Output, Refusal>
    requires unread { readings.old ≡ 0 }
    ensures answered { IfSome (selser_told (F.pages folder.old) (S.left input.old) title.now)
        (λ a. Answered a result) }
    ensures found { IfSome (F.pages folder.old) (λ pages. IfSome (S.left input.old)
        (λ bytes. AnswersSelser pages (pages title.now) bytes result)) }
    ensures waits { IfSome (F.pages folder.old) (λ pages. IsNoText (pages title.now) → input.new ≡ input.old) }
    ensures asks { Asks (F.answered folder.old) (F.answered folder.new) (F.most_asked folder.old)
        (F.most_asked folder.new) }
    ensures of_edit { IfErr result (IsOfEdit (Rose (S.fault_count input.old) (S.fault_count input.new))
        (Rose (F.fault_count folder.old) (F.fault_count folder.new))) }
    ensures ended { OnOk result (IsAtEnd (S.left input.new)) }
    ensures input_kept { IsKept result (S.fault_count input.old) (S.fault_count input.new) }
    ensures takes { GivesAtMost (HTML_BYTES + PIECE) (S.left input.old) (S.left input.new) }
    ensures stops { IfErr result (StopsWithin (S.left input.old) (S.left input.new)) }
    ensures alone { FailsAlone (found_status result) (S.fault_count input.old) (S.fault_count input.new)
        (F.fault_count folder.old) (F.fault_count folder.new) }
    ensures folder_kept { IsKept result (F.fault_count folder.old) (F.fault_count folder.new) }
    ensures kept { F.pages folder.new ≡ F.pages folder.old }
    ensures few { readings.new ≤ MOST_READINGS }
{
    let page = fetched_page(alloc, title, folder)?;
    let text = text_of_page(page.as_slice())?;
    page_of_text(alloc, text, input, folder, readings)
}
