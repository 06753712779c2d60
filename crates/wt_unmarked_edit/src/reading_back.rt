//! A new page that is read back, beside the tree to which the page was edited.

ghost use Rattle.std.specs.Prelude.{◌≡◌, ◌≤◌, ◌<◌, ◌+◌, [], length, Some, IfOk};
ghost use Rattle.wt_expand.specs.Work.{Pages};
ghost use Rattle.wt_expansion.specs.Known.{HoldsPages};
ghost use Rattle.wt_expansion.specs.Walks.{IsFree};
ghost use Rattle.wt_transclusion.specs.Asked.{Asks};
ghost use Rattle.wt_tree.specs.Tiling.{InPreorder};
ghost use Rattle.wt_tree.specs.Tree.{label};
ghost use Rattle.wt_tree.specs.View.{view};
ghost use Rattle.wt_tree.specs.declared.kind.Kind.TheVariants as kind;
ghost use Rattle.wt_unmarked_edit.specs.Counts.{IsCountedRead};
ghost use Rattle.wt_unmarked_edit.specs.Tried.{device_fault, HoldsRead, KnowsOf, ReadAs};

use bumpalo::Bump;
use std::alloc::Global;
use wt_devices::Folder;
use wt_edit::{MOST_READINGS, Readings, SelserRefusal, known_page};
use wt_new_page::{EditedPage, Fault, Memory, ReadBack, compared};
use wt_span::PAGE_BYTES;
use wt_template_stack::Expansion;
use wt_transclusion::ExpandRefusal;

/// The fault of the folder, or the want of memory, for which there is no expansion; None where the page that
/// is expanded is refused.
fn device_fault(refusal: &ExpandRefusal) -> Option<SelserRefusal>
    ensures { result ≡ device_fault refusal.now }
{
    match refusal {
        ExpandRefusal::FolderFault => Some(SelserRefusal::FolderFault),
        ExpandRefusal::NoMemory => Some(SelserRefusal::NoMemory),
        ExpandRefusal::BracesTooDeep { .. } => None,
        ExpandRefusal::TooLarge => None,
        ExpandRefusal::TemplateNotUtf8 { .. } => None,
        ExpandRefusal::TemplateTooLong { .. } => None,
    }
}

/// An expansion that knows nothing yet.
pub fn new_expansion<'a>(alloc: Global, arena: &'a Bump<Global>) -> Expansion<'a>
    ensures known { HoldsPages result }
    ensures free { (pages : Pages) → IsFree pages [] result }
{
    let expansion = Expansion::new(alloc, arena);
    expansion
}

/// Reads a new page back that is text.
fn read_text<'a, F: Folder>(
    new: &'a str,
    edit: &EditedPage<'_, 'a>,
    folder: &mut F,
    expansion: Expansion<'a>,
) -> Result<ReadBack<'a>, SelserRefusal>
    requires room { length new.now ≤ PAGE_BYTES }
    requires body { (label (view edit.now.tree.now)).kind ≡ kind.Body }
    requires numbered { ∥ InPreorder (view edit.now.tree.now) ∥₁ }
    requires known { HoldsPages expansion }
    ensures read { (pages : Pages) → F.pages folder.old ≡ Some pages → KnowsOf pages expansion.entry
        → IfOk result (ReadAs pages (view edit.now.tree.now) (view edit.now.edited.now) new.entry.now) }
    ensures holds { IfOk result HoldsRead }
    ensures asks { Asks (F.answered folder.old) (F.answered folder.new) (F.most_asked folder.old)
        (F.most_asked folder.new) }
    ensures count { IsCountedRead (F.fault_count folder.old) (F.fault_count folder.new) result }
    ensures kept { F.pages folder.new ≡ F.pages folder.old }
{
    let Memory { alloc, arena } = edit.memory;
    match known_page(alloc, new, arena, folder, expansion) {
        Ok(found) => {
            let back = compared(found, edit)?;
            Ok(back)
        }
        Err(refusal) => match device_fault(&refusal) {
            Some(fault) => Err(fault),
            None => Ok(ReadBack::Fails(Fault::Expansion, new_expansion(alloc, arena))),
        },
    }
}

/// Reads a new page back, and counts that. What the expansion knows isn't fetched again.
pub fn read_back<'a, F: Folder>(
    new: &str,
    edit: &EditedPage<'_, 'a>,
    folder: &mut F,
    expansion: Expansion<'a>,
    readings: &mut Readings,
) -> Result<ReadBack<'a>, SelserRefusal>
    requires body { (label (view edit.now.tree.now)).kind ≡ kind.Body }
    requires numbered { ∥ InPreorder (view edit.now.tree.now) ∥₁ }
    requires known { HoldsPages expansion }
    requires left { readings.old < MOST_READINGS }
    ensures read { (pages : Pages) → F.pages folder.old ≡ Some pages → KnowsOf pages expansion.entry
        → IfOk result (ReadAs pages (view edit.now.tree.now) (view edit.now.edited.now) new.now) }
    ensures holds { IfOk result HoldsRead }
    ensures asks { Asks (F.answered folder.old) (F.answered folder.new) (F.most_asked folder.old)
        (F.most_asked folder.new) }
    ensures count { IsCountedRead (F.fault_count folder.old) (F.fault_count folder.new) result }
    ensures kept { F.pages folder.new ≡ F.pages folder.old }
    ensures counted { readings.new ≡ readings.old + 1 }
{
    readings.count();
    let text = edit.memory.arena.try_alloc_str(new)?;
    if text.len() > PAGE_BYTES {
        return Ok(ReadBack::Fails(Fault::TooLong, expansion));
    }
    read_text(text, edit, folder, expansion)
}
