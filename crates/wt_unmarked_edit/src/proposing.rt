//! The new pages that are tried for an edited tree, one after another, each by reading it back.

ghost use Rattle.std.specs.Prelude.{◌≡◌, ◌≤◌, ◌<◌, ◌+◌, Some, Ok, Err, IfOk};
ghost use Rattle.wt_checks.specs.Places.{page_of};
ghost use Rattle.wt_checks.specs.View.{indexed};
ghost use Rattle.wt_expand.specs.Work.{Pages};
ghost use Rattle.wt_expansion.specs.Known.{HoldsPages};
ghost use Rattle.wt_transclusion.specs.Asked.{Asks};
ghost use Rattle.wt_tree.specs.Tiling.{InPreorder};
ghost use Rattle.wt_tree.specs.Tree.{label};
ghost use Rattle.wt_tree.specs.View.{view};
ghost use Rattle.wt_tree.specs.declared.kind.Kind.TheVariants as kind;
ghost use Rattle.wt_selser.specs.Edits.{edit_answer, AnswersEdit};
ghost use Rattle.wt_selser.specs.Borders.{page_text};
ghost use Rattle.wt_slices.specs.Borders.{HasBorders};
ghost use Rattle.wt_visible.specs.SameNodes.{same_node};
ghost use Rattle.wt_unmarked_edit.specs.Counts.{IsCounted, IsCountedRead};
ghost use Rattle.wt_unmarked_edit.specs.Found.{FindsNew, late_refusal, refusal_of_fault};
ghost use Rattle.wt_unmarked_edit.specs.Tried.{FirstFailed, HoldsTried, KnowsOf, TriedFirst, TriedMarks, TriedPage, TriedProposal};

use crate::reading_back::read_back;
use wt_devices::Folder;
use wt_edit::{MOST_READINGS, Readings, SelserRefusal};
use wt_new_page::{EditedPage, Fault, ReadBack, Tried, marked, proposal_for};
use wt_proposal::Keeping;
use wt_selser::{EditRefusal, edit as edit_by_marks};
use wt_span::Str;
use wt_template_stack::Expansion;

/// Why a fault refuses an edit.
fn refusal_of(fault: Fault) -> SelserRefusal
    ensures { result ≡ refusal_of_fault fault }
{
    match fault {
        Fault::TooLong => SelserRefusal::NewPageTooLong,
        Fault::Expansion => SelserRefusal::NewExpansion,
        Fault::Block(child) => SelserRefusal::Unspelled(child),
    }
}

/// Why an edit is refused whose marks `edit` refuses: what the content can't be, or else the fault of the first
/// new page.
fn late_refusal(refusal: EditRefusal, fault: Fault) -> SelserRefusal
    ensures { result ≡ late_refusal (Err refusal) fault }
{
    match refusal {
        EditRefusal::Check(_) => refusal_of(fault),
        EditRefusal::BadContent(node, why) => SelserRefusal::BadContent(node, why),
        EditRefusal::Tangled(_) => refusal_of(fault),
        EditRefusal::NewPageTooLong => SelserRefusal::NewPageTooLong,
        EditRefusal::NoMemory => SelserRefusal::NoMemory,
    }
}

// ---- one new page

/// Tries this page.
fn tried_page<'a, F: Folder>(
    new: Str,
    edit: &EditedPage<'_, 'a>,
    folder: &mut F,
    expansion: Expansion<'a>,
    readings: &mut Readings,
) -> Result<Tried<'a>, SelserRefusal>
    requires body { (label (view edit.now.tree.now)).kind ≡ kind.Body }
    requires numbered { ∥ InPreorder (view edit.now.tree.now) ∥₁ }
    requires known { HoldsPages expansion }
    requires left { readings.old < MOST_READINGS }
    ensures tried { (pages : Pages) → F.pages folder.old ≡ Some pages → KnowsOf pages expansion.entry
        → IfOk result (TriedPage pages (view edit.now.tree.now) (view edit.now.edited.now) new) }
    ensures holds { IfOk result HoldsTried }
    ensures asks { Asks (F.answered folder.old) (F.answered folder.new) (F.most_asked folder.old)
        (F.most_asked folder.new) }
    ensures count { IsCountedRead (F.fault_count folder.old) (F.fault_count folder.new) result }
    ensures kept { F.pages folder.new ≡ F.pages folder.old }
    ensures counted { readings.new ≤ readings.old + 1 }
{
    let back = read_back(new.as_str(), edit, folder, expansion, readings)?;
    match back {
        ReadBack::Shows(_) => Ok(Tried::Stands(new)),
        ReadBack::Fails(fault, expansion) => Ok(Tried::Fails(fault, expansion)),
    }
}

/// Tries this page, which has to keep the comments and include tags that the edited tree still has.
fn tried_marks<'a, F: Folder>(
    new: Str,
    edit: &EditedPage<'_, 'a>,
    folder: &mut F,
    expansion: Expansion<'a>,
    readings: &mut Readings,
) -> Result<Tried<'a>, SelserRefusal>
    requires body { (label (view edit.now.tree.now)).kind ≡ kind.Body }
    requires numbered { ∥ InPreorder (view edit.now.tree.now) ∥₁ }
    requires index { indexed edit.now.index.now ≡ page_of (view edit.now.tree.now) }
    requires known { HoldsPages expansion }
    requires left { readings.old < MOST_READINGS }
    ensures tried { (pages : Pages) → F.pages folder.old ≡ Some pages → KnowsOf pages expansion.entry
        → IfOk result (TriedMarks pages (view edit.now.tree.now) (view edit.now.edited.now) new) }
    ensures holds { IfOk result HoldsTried }
    ensures asks { Asks (F.answered folder.old) (F.answered folder.new) (F.most_asked folder.old)
        (F.most_asked folder.new) }
    ensures count { IsCountedRead (F.fault_count folder.old) (F.fault_count folder.new) result }
    ensures kept { F.pages folder.new ≡ F.pages folder.old }
    ensures counted { readings.new ≤ readings.old + 1 }
{
    let back = read_back(new.as_str(), edit, folder, expansion, readings)?;
    match back {
        ReadBack::Shows(found) => {
            let tried = marked(new, found, edit)?;
            Ok(tried)
        }
        ReadBack::Fails(fault, expansion) => Ok(Tried::Fails(fault, expansion)),
    }
}

/// Tries what is proposed, where texts keep their bytes as this says.
fn tried_proposal<'a, F: Folder>(
    keeping: Keeping,
    edit: &EditedPage<'_, 'a>,
    folder: &mut F,
    expansion: Expansion<'a>,
    readings: &mut Readings,
) -> Result<Tried<'a>, SelserRefusal>
    requires body { (label (view edit.now.tree.now)).kind ≡ kind.Body }
    requires numbered { ∥ InPreorder (view edit.now.tree.now) ∥₁ }
    requires index { indexed edit.now.index.now ≡ page_of (view edit.now.tree.now) }
    requires known { HoldsPages expansion }
    requires left { readings.old < MOST_READINGS }
    ensures tried { (pages : Pages) → F.pages folder.old ≡ Some pages → KnowsOf pages expansion.entry
        → IfOk result (TriedProposal pages edit.now.page.now (view edit.now.tree.now) (view edit.now.edited.now)) }
    ensures holds { IfOk result HoldsTried }
    ensures asks { Asks (F.answered folder.old) (F.answered folder.new) (F.most_asked folder.old)
        (F.most_asked folder.new) }
    ensures count { IsCountedRead (F.fault_count folder.old) (F.fault_count folder.new) result }
    ensures kept { F.pages folder.new ≡ F.pages folder.old }
    ensures counted { readings.new ≤ readings.old + 1 }
{
    let proposed = proposal_for(edit, keeping)?;
    match proposed {
        Some(new) => tried_marks(new, edit, folder, expansion, readings),
        None => Ok(Tried::Fails(Fault::Block(0), expansion)),
    }
}

/// Tries the first new page: the page itself, where nothing differs, or what is proposed.
fn tried_first<'a, F: Folder>(
    edit: &EditedPage<'_, 'a>,
    folder: &mut F,
    expansion: Expansion<'a>,
    readings: &mut Readings,
) -> Result<Tried<'a>, SelserRefusal>
    requires body { (label (view edit.now.tree.now)).kind ≡ kind.Body }
    requires numbered { ∥ InPreorder (view edit.now.tree.now) ∥₁ }
    requires index { indexed edit.now.index.now ≡ page_of (view edit.now.tree.now) }
    requires known { HoldsPages expansion }
    requires left { readings.old < MOST_READINGS }
    ensures tried { (pages : Pages) → F.pages folder.old ≡ Some pages → KnowsOf pages expansion.entry
        → IfOk result (TriedFirst pages edit.now.items.now edit.now.page.now (view edit.now.tree.now) (view edit.now.edited.now) edit.now.same) }
    ensures holds { IfOk result HoldsTried }
    ensures asks { Asks (F.answered folder.old) (F.answered folder.new) (F.most_asked folder.old)
        (F.most_asked folder.new) }
    ensures count { IsCountedRead (F.fault_count folder.old) (F.fault_count folder.new) result }
    ensures kept { F.pages folder.new ≡ F.pages folder.old }
    ensures counted { readings.new ≤ readings.old + 1 }
{
    let same = edit.same;
    if same {
        let page = Str::copy_of(edit.memory.alloc, edit.page)?;
        return tried_page(page, edit, folder, expansion, readings);
    }
    tried_proposal(Keeping::Everywhere, edit, folder, expansion, readings)
}

// ---- the last new page

/// The new page that `edit` makes, where it reads back.
fn page_of_edit<'a, F: Folder>(
    new: Str,
    fault: Fault,
    edit: &EditedPage<'_, 'a>,
    folder: &mut F,
    expansion: Expansion<'a>,
    readings: &mut Readings,
) -> Result<Str, SelserRefusal>
    requires body { (label (view edit.now.tree.now)).kind ≡ kind.Body }
    requires numbered { ∥ InPreorder (view edit.now.tree.now) ∥₁ }
    requires known { HoldsPages expansion }
    requires left { readings.old < MOST_READINGS }
    requires edited { edit_answer same_node edit.now.items.now edit.now.page.now (view edit.now.tree.now) (view edit.now.edited.now) ≡ Ok new }
    ensures found { (pages : Pages) → F.pages folder.old ≡ Some pages → KnowsOf pages expansion.entry
        → FirstFailed pages edit.now.page.now (view edit.now.tree.now) (view edit.now.edited.now) edit.now.same fault
        → FindsNew pages edit.now.items.now edit.now.page.now (view edit.now.tree.now)
        (view edit.now.edited.now) edit.now.same result }
    ensures asks { Asks (F.answered folder.old) (F.answered folder.new) (F.most_asked folder.old)
        (F.most_asked folder.new) }
    ensures count { IsCounted (F.fault_count folder.old) (F.fault_count folder.new) result }
    ensures kept { F.pages folder.new ≡ F.pages folder.old }
    ensures few { readings.new ≤ MOST_READINGS }
{
    let tried = tried_page(new, edit, folder, expansion, readings)?;
    match tried {
        Tried::Stands(new) => Ok(new),
        Tried::Fails(_, _) => Err(refusal_of(fault)),
    }
}

/// The new page that is proposed with `edit`'s own spelling, where `edit` itself is refused.
fn page_of_refused<'a, F: Folder>(
    refusal: EditRefusal,
    fault: Fault,
    edit: &EditedPage<'_, 'a>,
    folder: &mut F,
    expansion: Expansion<'a>,
    readings: &mut Readings,
) -> Result<Str, SelserRefusal>
    requires body { (label (view edit.now.tree.now)).kind ≡ kind.Body }
    requires numbered { ∥ InPreorder (view edit.now.tree.now) ∥₁ }
    requires index { indexed edit.now.index.now ≡ page_of (view edit.now.tree.now) }
    requires known { HoldsPages expansion }
    requires left { readings.old < MOST_READINGS }
    requires edited { AnswersEdit (edit_answer same_node edit.now.items.now edit.now.page.now (view edit.now.tree.now) (view edit.now.edited.now)) (Err refusal) }
    ensures found { (pages : Pages) → F.pages folder.old ≡ Some pages → KnowsOf pages expansion.entry
        → FirstFailed pages edit.now.page.now (view edit.now.tree.now) (view edit.now.edited.now) edit.now.same fault
        → FindsNew pages edit.now.items.now edit.now.page.now (view edit.now.tree.now)
        (view edit.now.edited.now) edit.now.same result }
    ensures asks { Asks (F.answered folder.old) (F.answered folder.new) (F.most_asked folder.old)
        (F.most_asked folder.new) }
    ensures count { IsCounted (F.fault_count folder.old) (F.fault_count folder.new) result }
    ensures kept { F.pages folder.new ≡ F.pages folder.old }
    ensures few { readings.new ≤ MOST_READINGS }
{
    let tried = tried_proposal(Keeping::Nowhere, edit, folder, expansion, readings)?;
    match tried {
        Tried::Stands(new) => Ok(new),
        Tried::Fails(_, _) => Err(late_refusal(refusal, fault)),
    }
}

/// The last new page: what `edit` makes of the marks, or, where it is refused, what is proposed with its
/// spelling. The fault is that of the first new page.
fn last_page<'a, F: Folder>(
    fault: Fault,
    edit: &EditedPage<'_, 'a>,
    folder: &mut F,
    expansion: Expansion<'a>,
    readings: &mut Readings,
) -> Result<Str, SelserRefusal>
    requires body { (label (view edit.now.tree.now)).kind ≡ kind.Body }
    requires numbered { ∥ InPreorder (view edit.now.tree.now) ∥₁ }
    requires index { indexed edit.now.index.now ≡ page_of (view edit.now.tree.now) }
    requires places { HasBorders edit.now.page.now (view edit.now.tree.now) }
    requires text { page_text edit.now.items.now ≡ edit.now.page.now }
    requires known { HoldsPages expansion }
    requires left { readings.old < MOST_READINGS }
    ensures found { (pages : Pages) → F.pages folder.old ≡ Some pages → KnowsOf pages expansion.entry
        → FirstFailed pages edit.now.page.now (view edit.now.tree.now) (view edit.now.edited.now) edit.now.same fault
        → FindsNew pages edit.now.items.now edit.now.page.now (view edit.now.tree.now)
        (view edit.now.edited.now) edit.now.same result }
    ensures asks { Asks (F.answered folder.old) (F.answered folder.new) (F.most_asked folder.old)
        (F.most_asked folder.new) }
    ensures count { IsCounted (F.fault_count folder.old) (F.fault_count folder.new) result }
    ensures kept { F.pages folder.new ≡ F.pages folder.old }
    ensures few { readings.new ≤ MOST_READINGS }
{
    let made = edit_by_marks(
        edit.memory.alloc,
        edit.items,
        edit.page,
        edit.tree,
        edit.edited,
    );
    match made {
        Ok(new) => page_of_edit(new, fault, edit, folder, expansion, readings),
        Err(refusal) => page_of_refused(refusal, fault, edit, folder, expansion, readings),
    }
}

// ---- one after another

/// The new page with the spelling of `edit` in this block alone, or else the last one.
fn page_but_in<'a, F: Folder>(
    block: usize,
    edit: &EditedPage<'_, 'a>,
    folder: &mut F,
    expansion: Expansion<'a>,
    readings: &mut Readings,
) -> Result<Str, SelserRefusal>
    requires body { (label (view edit.now.tree.now)).kind ≡ kind.Body }
    requires numbered { ∥ InPreorder (view edit.now.tree.now) ∥₁ }
    requires index { indexed edit.now.index.now ≡ page_of (view edit.now.tree.now) }
    requires places { HasBorders edit.now.page.now (view edit.now.tree.now) }
    requires text { page_text edit.now.items.now ≡ edit.now.page.now }
    requires known { HoldsPages expansion }
    requires left { readings.old + 2 ≤ MOST_READINGS }
    ensures found { (pages : Pages) → F.pages folder.old ≡ Some pages → KnowsOf pages expansion.entry
        → FirstFailed pages edit.now.page.now (view edit.now.tree.now) (view edit.now.edited.now) edit.now.same (Fault.Block block)
        → FindsNew pages edit.now.items.now edit.now.page.now (view edit.now.tree.now)
        (view edit.now.edited.now) edit.now.same result }
    ensures asks { Asks (F.answered folder.old) (F.answered folder.new) (F.most_asked folder.old)
        (F.most_asked folder.new) }
    ensures count { IsCounted (F.fault_count folder.old) (F.fault_count folder.new) result }
    ensures kept { F.pages folder.new ≡ F.pages folder.old }
    ensures few { readings.new ≤ MOST_READINGS }
{
    let tried = tried_proposal(Keeping::ButIn(block), edit, folder, expansion, readings)?;
    match tried {
        Tried::Stands(new) => Ok(new),
        Tried::Fails(_, expansion) => {
            last_page(Fault::Block(block), edit, folder, expansion, readings)
        }
    }
}

/// The new page after the first, which had this fault.
fn other_page<'a, F: Folder>(
    fault: Fault,
    edit: &EditedPage<'_, 'a>,
    folder: &mut F,
    expansion: Expansion<'a>,
    readings: &mut Readings,
) -> Result<Str, SelserRefusal>
    requires body { (label (view edit.now.tree.now)).kind ≡ kind.Body }
    requires numbered { ∥ InPreorder (view edit.now.tree.now) ∥₁ }
    requires index { indexed edit.now.index.now ≡ page_of (view edit.now.tree.now) }
    requires places { HasBorders edit.now.page.now (view edit.now.tree.now) }
    requires text { page_text edit.now.items.now ≡ edit.now.page.now }
    requires known { HoldsPages expansion }
    requires left { readings.old + 2 ≤ MOST_READINGS }
    ensures found { (pages : Pages) → F.pages folder.old ≡ Some pages → KnowsOf pages expansion.entry
        → FirstFailed pages edit.now.page.now (view edit.now.tree.now) (view edit.now.edited.now) edit.now.same fault
        → FindsNew pages edit.now.items.now edit.now.page.now (view edit.now.tree.now)
        (view edit.now.edited.now) edit.now.same result }
    ensures asks { Asks (F.answered folder.old) (F.answered folder.new) (F.most_asked folder.old)
        (F.most_asked folder.new) }
    ensures count { IsCounted (F.fault_count folder.old) (F.fault_count folder.new) result }
    ensures kept { F.pages folder.new ≡ F.pages folder.old }
    ensures few { readings.new ≤ MOST_READINGS }
{
    match fault {
        Fault::Block(block) if block != 0 => page_but_in(block, edit, folder, expansion, readings),
        _ => last_page(fault, edit, folder, expansion, readings),
    }
}

/// The new page of an edited page. At most three are read back: in the first, texts that weren't changed keep
/// their bytes; in the second the block in which it differed is spelled as `edit` spells; the third is what
/// `edit` answers to the marks of the difference.
pub fn new_page<'a, F: Folder>(
    edit: &EditedPage<'_, 'a>,
    folder: &mut F,
    expansion: Expansion<'a>,
    readings: &mut Readings,
) -> Result<Str, SelserRefusal>
    requires body { (label (view edit.now.tree.now)).kind ≡ kind.Body }
    requires numbered { ∥ InPreorder (view edit.now.tree.now) ∥₁ }
    requires index { indexed edit.now.index.now ≡ page_of (view edit.now.tree.now) }
    requires places { HasBorders edit.now.page.now (view edit.now.tree.now) }
    requires text { page_text edit.now.items.now ≡ edit.now.page.now }
    requires known { HoldsPages expansion }
    requires unread { readings.old ≡ 0 }
    ensures found { (pages : Pages) → F.pages folder.old ≡ Some pages → KnowsOf pages expansion.entry
        → FindsNew pages edit.now.items.now edit.now.page.now (view edit.now.tree.now)
        (view edit.now.edited.now) edit.now.same result }
    ensures asks { Asks (F.answered folder.old) (F.answered folder.new) (F.most_asked folder.old)
        (F.most_asked folder.new) }
    ensures count { IsCounted (F.fault_count folder.old) (F.fault_count folder.new) result }
    ensures kept { F.pages folder.new ≡ F.pages folder.old }
    ensures few { readings.new ≤ MOST_READINGS }
{
    let tried = tried_first(edit, folder, expansion, readings)?;
    match tried {
        Tried::Stands(new) => Ok(new),
        Tried::Fails(fault, expansion) => other_page(fault, edit, folder, expansion, readings),
    }
}
