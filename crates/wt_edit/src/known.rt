//! The tree of a page some of whose templates are known already.

ghost use Rattle.std.specs.Prelude.{◌≡◌, ◌+◌, ◌≤◌, ◌<◌, ◌^◌, ℕ, List, length, OnOk, IfOk, IfErr, Some, None};
ghost use Rattle.wt_annotated.specs.NumbersNeeded.{numbers_needed};
ghost use Rattle.wt_expand.specs.Expansion.{page_work};
ghost use Rattle.wt_expand.specs.PageCalls.{expanded_page};
ghost use Rattle.wt_expand.specs.Work.{Pages};
ghost use Rattle.wt_expansion.specs.Known.{HoldsPages, KnowsMore};
ghost use Rattle.wt_expansion.specs.Walks.{IsFree};
ghost use Rattle.wt_inline.specs.ItemTree.{tree_items};
ghost use Rattle.wt_page.specs.Body.{meaning};
ghost use Rattle.wt_page_round_trip.specs.PageTree.{expanded_tree, page_tree};
ghost use Rattle.wt_span.specs.Cuts.{page_of};
ghost use Rattle.wt_tree.specs.View.{view};
ghost use Rattle.wt_transclusion.specs.Answers.{IsCounted, IsRefused};
ghost use Rattle.wt_transclusion.specs.Asked.{Asks};
ghost use Rattle.wt_transclusion.specs.Stops.{Stops};
ghost use Rattle.wt_selser.specs.Borders.{page_text};
ghost use Rattle.wt_slices.specs.Borders.{HasBorders};
ghost use Rattle.wt_edit.specs.Edits.{refusal_of_page};

use bumpalo::Bump;
use std::alloc::Global;
use wt_build::build;
use wt_devices::Folder;
use wt_expansion::expand_knowing;
use wt_ranges::{Annotated, group};
use wt_span::{Items, NoMemory, PAGE_BYTES};
use wt_template_stack::Expansion;
use wt_transclusion::ExpandRefusal;

/// The tree of a page with its items, and the expansion that knows the page's templates.
#[derive(Drop)]
pub struct KnownPage<'a> {
    /// The tree and its items.
    pub annotated: Annotated<'a>,
    /// What was fetched for the page, and what was known before it.
    pub expansion: Expansion<'a>,
}

/// The tree of an expanded page, with its items.
pub fn annotated_of_items<'a>(alloc: Global, items: Items<'a>) -> Result<Annotated<'a>, NoMemory>
    requires bytes { length (page_of items.outer (tree_items (meaning items.items))) < 2 ^ 32 }
    requires numbers { 1 + numbers_needed items.outer (meaning items.items) < 2 ^ 32 }
    ensures tree { IfOk result (λ a. view a.tree.body ≡ expanded_tree items.entry) }
    ensures items { IfOk result (λ a. a.items ≡ items.entry) }
{
    let meaning = build(alloc, &items)?;
    group(alloc, items, meaning.into_body())
}

/// The tree of a page that is text, with its templates expanded: those that the expansion knows are taken as
/// it knows them, and the others from the folder.
pub fn known_page<'a, F: Folder>(
    alloc: Global,
    page: &'a str,
    arena: &'a Bump<Global>,
    folder: &mut F,
    expansion: Expansion<'a>,
) -> Result<KnownPage<'a>, ExpandRefusal>
    requires room { length page.now ≤ PAGE_BYTES }
    requires known { HoldsPages expansion }
    ensures tree { (pages : Pages) (met : List (List ℕ)) → F.pages folder.old ≡ Some pages
        → IsFree pages met expansion.entry
        → IfOk result (λ found. view found.annotated.tree.body ≡ page_tree pages page.entry.now) }
    ensures items { (pages : Pages) (met : List (List ℕ)) → F.pages folder.old ≡ Some pages
        → IsFree pages met expansion.entry
        → IfOk result (λ found. found.annotated.items ≡ expanded_page pages page.entry.now) }
    ensures refused { (pages : Pages) (met : List (List ℕ)) → F.pages folder.old ≡ Some pages
        → IsFree pages met expansion.entry
        → IfErr result (IsRefused (refusal_of_page pages page.entry.now)) }
    ensures whole { (pages : Pages) (met : List (List ℕ)) → F.pages folder.old ≡ Some pages
        → IsFree pages met expansion.entry
        → OnOk result (refusal_of_page pages page.entry.now ≡ None) }
    ensures named { (pages : Pages) (met : List (List ℕ)) → F.pages folder.old ≡ Some pages
        → IsFree pages met expansion.entry
        → IfOk result (λ found. KnowsMore pages met (page_work pages page.entry.now) found.expansion
        (F.answered folder.old) (F.answered folder.new)) }
    ensures stops { (pages : Pages) (met : List (List ℕ)) → F.pages folder.old ≡ Some pages
        → IsFree pages met expansion.entry
        → IfErr result (Stops pages page.entry.now 0 met (page_work pages page.entry.now) (F.answered folder.old)
        (F.answered folder.new)) }
    ensures asks { Asks (F.answered folder.old) (F.answered folder.new) (F.most_asked folder.old)
        (F.most_asked folder.new) }
    ensures known { IfOk result (λ found. HoldsPages found.expansion) }
    ensures some { IfOk result
        (λ found. (pages : Pages) × (view found.annotated.tree.body ≡ page_tree pages page.entry.now)) }
    ensures places { IfOk result (λ found. HasBorders page.entry.now (view found.annotated.tree.body)) }
    ensures text { IfOk result (λ found. page_text found.annotated.items ≡ page.entry.now) }
    ensures count { IsCounted (F.fault_count folder.old) (F.fault_count folder.new) result }
    ensures kept { F.pages folder.new ≡ F.pages folder.old }
{
    let expanded = expand_knowing(alloc, page, arena, folder, expansion)?;
    let annotated = annotated_of_items(alloc, expanded.items)?;
    Ok(KnownPage {
        annotated,
        expansion: expanded.expansion,
    })
}
