//! The tree of a page with its templates expanded.

ghost use Rattle.std.specs.Prelude.{◌≡◌, ◌≤◌, ℕ, List, length, OnOk, IfOk, IfErr, Some, None};
ghost use Rattle.wt_annotated.specs.Reached.{AreReachedSlices};
ghost use Rattle.wt_expand.specs.PageCalls.{expanded_page};
ghost use Rattle.wt_expand.specs.Work.{Pages, names_asked};
ghost use Rattle.wt_page_round_trip.specs.PageTree.{page_tree};
ghost use Rattle.wt_transclusion.specs.Asked.{Asks};
ghost use Rattle.wt_tree.specs.View.{view};
ghost use Rattle.wt_commands.specs.Answers.{refused, refusal_of_page, title_answer, Answer, IsText};
ghost use Rattle.wt_commands.specs.Asked.{AsksNames, work_done};
ghost use Rattle.wt_commands.specs.Causes.{RefusesTitle, RefusesExpansion, IsOfPage, IsOfTitle, IsKept};

use crate::refusal::Refusal;
use bumpalo::Bump;
use std::alloc::Global;
use wt_devices::Folder;
use wt_edit::annotated_of_items;
use wt_expansion::expand;
use wt_ranges::Annotated;
use wt_span::PAGE_BYTES;
use wt_tree::Annotated as Tree;
use wt_utf8::read_text;

/// The tree of a page that is text, with its templates, which are taken from the folder, expanded; and the
/// items that it comes from. The texts of the templates lie in the arena.
pub fn annotated_of_text<'a, F: Folder>(
    alloc: Global,
    page: &'a str,
    arena: &'a Bump<Global>,
    folder: &mut F,
) -> Result<Annotated<'a>, Refusal>
    requires room { length page.now ≤ PAGE_BYTES }
    ensures slices { IfOk result (λ a. AreReachedSlices page.entry.now (view a.tree.body)) }
    ensures tree { (pages : Pages) → F.pages folder.old ≡ Some pages
        → IfOk result (λ a. view a.tree.body ≡ page_tree pages page.entry.now) }
    ensures items { (pages : Pages) → F.pages folder.old ≡ Some pages
        → IfOk result (λ a. a.items ≡ expanded_page pages page.entry.now) }
    ensures refused { (pages : Pages) → F.pages folder.old ≡ Some pages
        → IfErr result (RefusesExpansion (refusal_of_page pages page.entry.now)) }
    ensures of_title { IfErr result (IsOfTitle (F.fault_count folder.old) (F.fault_count folder.new)) }
    ensures count { IsKept result (F.fault_count folder.old) (F.fault_count folder.new) }
    ensures kept { F.pages folder.new ≡ F.pages folder.old }
    ensures whole { (pages : Pages) → F.pages folder.old ≡ Some pages
        → OnOk result (refusal_of_page pages page.entry.now ≡ None) }
    ensures asks { Asks (F.answered folder.old) (F.answered folder.new) (F.most_asked folder.old)
        (F.most_asked folder.new) }
    ensures asked { (pages : Pages) → F.pages folder.old ≡ Some pages
        → AsksNames (names_asked (work_done pages page.entry.now)) (F.answered folder.old)
        (F.answered folder.new) result }
{
    let items = expand(alloc, page, arena, folder)?;
    let tree = annotated_of_items(alloc, items)?;
    Ok(tree)
}

/// The tree of a page that is text, with its templates, which are taken from the folder, expanded. The
/// texts of the templates lie in the arena.
pub fn tree_of_text<'a, F: Folder>(
    alloc: Global,
    page: &'a str,
    arena: &'a Bump<Global>,
    folder: &mut F,
) -> Result<Tree<'a>, Refusal>
    requires room { length page.now ≤ PAGE_BYTES }
    ensures slices { IfOk result (λ tree. AreReachedSlices page.entry.now (view tree.body)) }
    ensures tree { (pages : Pages) → F.pages folder.old ≡ Some pages
        → IfOk result (λ tree. view tree.body ≡ page_tree pages page.entry.now) }
    ensures refused { (pages : Pages) → F.pages folder.old ≡ Some pages
        → IfErr result (RefusesExpansion (refusal_of_page pages page.entry.now)) }
    ensures of_title { IfErr result (IsOfTitle (F.fault_count folder.old) (F.fault_count folder.new)) }
    ensures count { IsKept result (F.fault_count folder.old) (F.fault_count folder.new) }
    ensures kept { F.pages folder.new ≡ F.pages folder.old }
    ensures whole { (pages : Pages) → F.pages folder.old ≡ Some pages
        → OnOk result (refusal_of_page pages page.entry.now ≡ None) }
    ensures asks { Asks (F.answered folder.old) (F.answered folder.new) (F.most_asked folder.old)
        (F.most_asked folder.new) }
    ensures asked { (pages : Pages) → F.pages folder.old ≡ Some pages
        → AsksNames (names_asked (work_done pages page.entry.now)) (F.answered folder.old)
        (F.answered folder.new) result }
{
    let annotated = annotated_of_text(alloc, page, arena, folder)?;
    Ok(annotated.into_tree())
}

/// The text of a page that is neither too long nor anything but UTF-8.
pub fn text_of_page(page: &[u8]) -> Result<&str, Refusal>
    ensures text { IfOk result (λ text. text.now ≡ page.entry.now) }
    ensures room { IfOk result (λ text. length text.now ≤ PAGE_BYTES) }
    ensures answered { OnOk result (IsText page.entry.now) }
    ensures refused { IfErr result (RefusesTitle (Some page.entry.now)) }
    ensures exact { IfErr result (λ r. (made : List ℕ → Answer)
        → title_answer (Some page.entry.now) made ≡ refused r) }
    ensures of_page { IfErr result IsOfPage }
{
    if page.len() > PAGE_BYTES {
        return Err(Refusal::TooLong);
    }
    match read_text(page) {
        Ok(text) => Ok(text),
        Err(place) => Err(Refusal::NotUtf8(place as u32)),
    }
}
