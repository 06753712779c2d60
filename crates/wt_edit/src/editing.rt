//! The edit of a page.

ghost use Rattle.std.specs.Prelude.{◌≡◌, ◌≤◌, ◌⊎◌, ℕ, List, None, Ok, Some, IfOk, IfErr, OnOk, length};
ghost use Rattle.wt_expand.specs.Work.{Pages, fetches, firsts_after};
ghost use Rattle.wt_expansion.specs.Known.{HoldsPages};
ghost use Rattle.wt_expansion.specs.Walks.{IsFree};
ghost use Rattle.wt_visible.specs.Children.{IsFirstDiffering, shown_children};
ghost use Rattle.wt_visible.specs.Restored.{restored_from};
ghost use Rattle.wt_visible.specs.SameNodes.{same_node};
ghost use Rattle.wt_selser.specs.Borders.{page_text};
ghost use Rattle.wt_selser.specs.Edits.{edit_answer};
ghost use Rattle.wt_slices.specs.Borders.{HasBorders};
ghost use Rattle.wt_transclusion.specs.Asked.{Asks};
ghost use Rattle.wt_tree.specs.Tree.{label};
ghost use Rattle.wt_tree.specs.View.{view};
ghost use Rattle.wt_tree.specs.declared.kind.Kind.TheVariants as kind;
ghost use Rattle.wt_edit.specs.Asked.{AsksNames, RanOutFirst, new_work, work_done};
ghost use Rattle.wt_edit.specs.Edits.{Answers, IsCounted, IsPage, Refuses, answer_by, new_answer, refusal_of_new};

use crate::known::{KnownPage, known_page};
use crate::refusal::EditRefusal;
use bumpalo::Bump;
use std::alloc::Global;
use wt_devices::Folder;
use wt_ranges::Annotated;
use wt_selser::{edit as splice, first_differing};
use wt_span::{NoMemory, PAGE_BYTES, Str};
use wt_template_stack::Expansion;
use wt_transclusion::ExpandRefusal;
use wt_tree::Node;

/// Why a new page is refused, by the refusal of its expansion.
fn new_refusal(refusal: ExpandRefusal) -> EditRefusal
    ensures { result ≡ refusal_of_new refusal }
{
    match refusal {
        ExpandRefusal::BracesTooDeep { title, place } => {
            EditRefusal::NewExpansion(ExpandRefusal::BracesTooDeep { title, place })
        }
        ExpandRefusal::TooLarge => EditRefusal::NewExpansion(ExpandRefusal::TooLarge),
        ExpandRefusal::FolderFault => EditRefusal::FolderFault,
        ExpandRefusal::TemplateNotUtf8 { title, place } => {
            EditRefusal::NewExpansion(ExpandRefusal::TemplateNotUtf8 { title, place })
        }
        ExpandRefusal::TemplateTooLong { title } => {
            EditRefusal::NewExpansion(ExpandRefusal::TemplateTooLong { title })
        }
        ExpandRefusal::NoMemory => EditRefusal::NoMemory,
    }
}

/// A page that was edited.
#[derive(Clone, Copy)]
struct Revision<'r, 'a> {
    /// The page as it is stored.
    page: &'r str,
    /// Its tree with its items.
    annotated: &'r Annotated<'a>,
    /// The body that was read.
    edited: &'r Node<'a>,
}

/// The number, from 1, of the first child in which what was found of the new page differs from what the edited
/// tree shows, where groups are those of the page; or None.
fn differing_child<'a>(
    alloc: Global,
    found: KnownPage<'a>,
    revision: Revision<'_, 'a>,
) -> Result<Option<usize>, NoMemory>
    requires body { (label (view revision.annotated.now.tree.body)).kind ≡ kind.Body }
    ensures { IfOk result (IsFirstDiffering (shown_children (view found.entry.annotated.tree.body))
        (shown_children (restored_from (view revision.entry.annotated.now.tree.body)
        (view revision.entry.edited.now)))) }
{
    let tree = revision.annotated.body();
    first_differing(alloc, found.annotated.body(), tree, revision.edited)
}

/// Refuses a new page that doesn't show what the edited tree shows, where groups are those of the page. What the
/// expansion of the page knows isn't fetched again.
fn check_meaning<'a, F: Folder>(
    alloc: Global,
    new_page: &'a str,
    revision: Revision<'_, 'a>,
    arena: &'a Bump<Global>,
    folder: &mut F,
    expansion: Expansion<'a>,
) -> Result<(), EditRefusal>
    requires body { (label (view revision.annotated.now.tree.body)).kind ≡ kind.Body }
    requires known { HoldsPages expansion }
    requires room { length new_page.now ≤ PAGE_BYTES }
    ensures meant { (pages : Pages) (met : List (List ℕ)) → F.pages folder.old ≡ Some pages
        → IsFree pages met expansion.entry
        → OnOk result (new_answer pages (view revision.entry.annotated.now.tree.body)
        (view revision.entry.edited.now) new_page.entry.now ≡ Ok new_page.entry.now) }
    ensures refused { (pages : Pages) (met : List (List ℕ)) → F.pages folder.old ≡ Some pages
        → IsFree pages met expansion.entry
        → IfErr result (λ e. Refuses e
        (new_answer pages (view revision.entry.annotated.now.tree.body) (view revision.entry.edited.now)
        new_page.entry.now)) }
    ensures asks { Asks (F.answered folder.old) (F.answered folder.new) (F.most_asked folder.old)
        (F.most_asked folder.new) }
    ensures asked { (pages : Pages) (met : List (List ℕ)) → F.pages folder.old ≡ Some pages
        → IsFree pages met expansion.entry
        → AsksNames (firsts_after met (fetches (work_done pages new_page.entry.now)))
        (F.answered folder.old) (F.answered folder.new) result }
    ensures count { IsCounted (F.fault_count folder.old) (F.fault_count folder.new) result }
    ensures kept { F.pages folder.new ≡ F.pages folder.old }
{
    match known_page(alloc, new_page, arena, folder, expansion) {
        Ok(found) => match differing_child(alloc, found, revision)? {
            Some(child) => Err(EditRefusal::Unspelled(child)),
            None => Ok(()),
        },
        Err(refusal) => Err(new_refusal(refusal)),
    }
}

/// The new page of a page of this tree, by what its expansion knows.
fn edit_of_known<'a, F: Folder>(
    alloc: Global,
    revision: Revision<'_, 'a>,
    expansion: Expansion<'a>,
    arena: &'a Bump<Global>,
    folder: &mut F,
) -> Result<Str, EditRefusal>
    requires body { (label (view revision.annotated.now.tree.body)).kind ≡ kind.Body }
    requires places { HasBorders revision.page.now (view revision.annotated.now.tree.body) }
    requires text { page_text revision.annotated.now.items ≡ revision.page.now }
    requires known { HoldsPages expansion }
    ensures answered { (pages : Pages) (met : List (List ℕ)) → F.pages folder.old ≡ Some pages
        → IsFree pages met expansion.entry
        → Answers (answer_by pages (view revision.entry.annotated.now.tree.body)
        (view revision.entry.edited.now)
        (edit_answer same_node revision.entry.annotated.now.items revision.entry.page.now
        (view revision.entry.annotated.now.tree.body) (view revision.entry.edited.now))) result }
    ensures page { IfOk result IsPage }
    ensures new_page { (new : List ℕ)
        → edit_answer same_node revision.entry.annotated.now.items revision.entry.page.now
        (view revision.entry.annotated.now.tree.body) (view revision.entry.edited.now) ≡ Ok new
        → IsPage new ⊎ RanOutFirst (F.answered folder.old) (F.answered folder.new) result }
    ensures asks { Asks (F.answered folder.old) (F.answered folder.new) (F.most_asked folder.old)
        (F.most_asked folder.new) }
    ensures asked { (pages : Pages) (met : List (List ℕ)) → F.pages folder.old ≡ Some pages
        → IsFree pages met expansion.entry
        → AsksNames (firsts_after met (fetches (new_work pages (edit_answer same_node
        revision.entry.annotated.now.items revision.entry.page.now
        (view revision.entry.annotated.now.tree.body) (view revision.entry.edited.now)))))
        (F.answered folder.old) (F.answered folder.new) result }
    ensures count { IsCounted (F.fault_count folder.old) (F.fault_count folder.new) result }
    ensures kept { F.pages folder.new ≡ F.pages folder.old }
{
    let tree = revision.annotated.body();
    let items = revision.annotated.items();
    let changed = splice(alloc, items, revision.page, tree, revision.edited)?;
    let text = arena.try_alloc_str(changed.as_str())?;
    check_meaning(alloc, text, revision, arena, folder, expansion)?;
    Ok(changed)
}

/// The new page of a page that was changed to the edited tree: its marked nodes are spelled anew, every other
/// byte stays, and the new page, read again, shows what the edited tree shows. `known` is the page's tree with
/// its items, and what its expansion knows, as `known_page` gives them: no template that it knows is fetched
/// again for the new page. `edited` is the body that was read. The texts of the new page's templates lie in the
/// arena.
///
/// # Errors
///
/// The first refusal in the order of `EditRefusal`, and of one kind the first in preorder.
pub fn edit<'a, F: Folder>(
    alloc: Global,
    page: &str,
    known: KnownPage<'a>,
    edited: &Node<'a>,
    arena: &'a Bump<Global>,
    folder: &mut F,
) -> Result<Str, EditRefusal>
    requires body { (label (view known.annotated.tree.body)).kind ≡ kind.Body }
    requires places { HasBorders page.now (view known.annotated.tree.body) }
    requires text { page_text known.annotated.items ≡ page.now }
    requires known { HoldsPages known.expansion }
    ensures answered { (pages : Pages) (met : List (List ℕ)) → F.pages folder.old ≡ Some pages
        → IsFree pages met known.entry.expansion
        → Answers (answer_by pages (view known.entry.annotated.tree.body) (view edited.now)
        (edit_answer same_node known.entry.annotated.items page.now (view known.entry.annotated.tree.body)
        (view edited.now))) result }
    ensures page { IfOk result IsPage }
    ensures new_page { (new : List ℕ) → edit_answer same_node known.entry.annotated.items page.now
        (view known.entry.annotated.tree.body) (view edited.now) ≡ Ok new
        → IsPage new ⊎ RanOutFirst (F.answered folder.old) (F.answered folder.new) result }
    ensures asks { Asks (F.answered folder.old) (F.answered folder.new) (F.most_asked folder.old)
        (F.most_asked folder.new) }
    ensures asked { (pages : Pages) (met : List (List ℕ)) → F.pages folder.old ≡ Some pages
        → IsFree pages met known.entry.expansion
        → AsksNames (firsts_after met (fetches (new_work pages (edit_answer same_node known.entry.annotated.items
        page.now (view known.entry.annotated.tree.body) (view edited.now)))))
        (F.answered folder.old) (F.answered folder.new) result }
    ensures count { IsCounted (F.fault_count folder.old) (F.fault_count folder.new) result }
    ensures kept { F.pages folder.new ≡ F.pages folder.old }
{
    let KnownPage {
        annotated,
        expansion,
    } = known;
    let revision = Revision {
        page,
        annotated: &annotated,
        edited,
    };
    edit_of_known(alloc, revision, expansion, arena, folder)
}
