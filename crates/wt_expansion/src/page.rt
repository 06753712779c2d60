//! A page with its templates expanded.
ghost use Rattle.std.specs.Prelude.{◌≡◌, ◌<◌, ◌^◌, ◌++◌, [], ℕ, List, Some, None, IfErr, IfOk, OnOk, length, option_map};
ghost use Rattle.wt_expand.specs.Expansion.{page_work};
ghost use Rattle.wt_expand.specs.PageCalls.{expanded_page};
ghost use Rattle.wt_expand.specs.Work.{Pages, first_refusal, names_asked};
ghost use Rattle.wt_transclusion.specs.Answers.{IsCounted, IsRefused};
ghost use Rattle.wt_transclusion.specs.Asked.{Asks};
ghost use Rattle.wt_transclusion.specs.Stops.{Stops};
ghost use Rattle.wt_expansion.specs.Known.{HoldsPages, KnowsMore};
ghost use Rattle.wt_expansion.specs.Walks.{IsFree};

use crate::walk::PageWalk;
use bumpalo::Bump;
use std::alloc::Global;
use wt_devices::Folder;
use wt_span::{Items, List};
use wt_template_stack::{Expansion, Reader, read_page};
use wt_transclusion::ExpandRefusal;

/// A page with its templates expanded, and the expansion that knows its templates and those that were known before
/// it.
#[derive(Drop)]
pub struct ExpandedPage<'a> {
    /// The items of the page.
    pub items: Items<'a>,
    /// The expansion, with the pages that were fetched.
    pub expansion: Expansion<'a>,
}

/// The items of a page with its templates expanded, its outermost calls and arguments, and its text
/// calls. The templates that the expansion knows already are taken as it knows them, and the others from a
/// folder, each once; their texts are kept in the expansion's arena.
///
/// The machine's stack grows by the templates that are expanded one inside another, and by the
/// targets of the page that are one inside another.
///
/// # Errors
///
/// The first refusal in the order of the work; a fault of the folder; want of memory. Where a fetch failed,
/// nothing of the work before it is refused.
pub fn expand_knowing<'a, F: Folder>(
    alloc: Global,
    page: &'a str,
    arena: &'a Bump<Global>,
    folder: &mut F,
    expansion: Expansion<'a>,
) -> Result<ExpandedPage<'a>, ExpandRefusal>
    requires short { length page.now < 2 ^ 30 }
    requires known { HoldsPages expansion }
    ensures items { (pages : Pages) (met : List (List ℕ)) → F.pages folder.old ≡ Some pages → IsFree pages met expansion.entry
        → IfOk result (λ found. found.items ≡ expanded_page pages page.entry.now) }
    ensures some { IfOk result (λ found. (pages : Pages) × (found.items ≡ expanded_page pages page.entry.now)
        × (first_refusal pages page.entry.now (page_work pages page.entry.now) ≡ None)) }
    ensures whole { (pages : Pages) (met : List (List ℕ)) → F.pages folder.old ≡ Some pages → IsFree pages met expansion.entry
        → OnOk result (first_refusal pages page.entry.now (page_work pages page.entry.now) ≡ None) }
    ensures named { (pages : Pages) (met : List (List ℕ)) → F.pages folder.old ≡ Some pages → IsFree pages met expansion.entry
        → IfOk result (λ found. KnowsMore pages met (page_work pages page.entry.now) found.expansion (F.answered folder.old) (F.answered folder.new)) }
    ensures known { IfOk result (λ found. HoldsPages found.expansion) }
    ensures refused { (pages : Pages) (met : List (List ℕ)) → F.pages folder.old ≡ Some pages → IsFree pages met expansion.entry
        → IfErr result (IsRefused (first_refusal pages page.entry.now (page_work pages page.entry.now))) }
    ensures stops { (pages : Pages) (met : List (List ℕ)) → F.pages folder.old ≡ Some pages → IsFree pages met expansion.entry
        → IfErr result (Stops pages page.entry.now 0 met (page_work pages page.entry.now) (F.answered folder.old) (F.answered folder.new)) }
    ensures kept { F.pages folder.new ≡ F.pages folder.old }
    ensures asks { Asks (F.answered folder.old) (F.answered folder.new) (F.most_asked folder.old) (F.most_asked folder.new) }
    ensures count { IsCounted (F.fault_count folder.old) (F.fault_count folder.new) result }
{
    let text = read_page(alloc, page, arena)?;
    let mut expansion = expansion;
    expansion.spent = 0;
    let mut walk = PageWalk::new(alloc, expansion);
    walk.stretch(folder, Reader::start(text), page.len() as u32)?;
    let PageWalk {
        alloc: _,
        expansion,
        found,
    } = walk;
    let pieces = List::from_vec(found.pieces);
    let outer = List::from_vec(found.outer);
    let text_calls = List::from_vec(found.text_calls);
    let items = Items::new(pieces, outer, text_calls);
    Ok(ExpandedPage { items, expansion })
}

/// The items of a page with its templates expanded, its outermost calls and arguments, and its text
/// calls. The templates are taken from a folder, each once, and their texts are kept in the arena.
///
/// The machine's stack grows by the templates that are expanded one inside another, and by the
/// targets of the page that are one inside another.
///
/// # Errors
///
/// The first refusal in the order of the work; a fault of the folder; want of memory. Where a fetch failed,
/// nothing of the work before it is refused.
pub fn expand<'a, F: Folder>(
    alloc: Global,
    page: &'a str,
    arena: &'a Bump<Global>,
    folder: &mut F,
) -> Result<Items<'a>, ExpandRefusal>
    requires { length page.now < 2 ^ 30 }
    ensures items { (pages : Pages) → F.pages folder.old ≡ Some pages → IfOk result (λ items. items ≡ expanded_page pages page.entry.now) }
    ensures some { IfOk result (λ items. (pages : Pages) × (items ≡ expanded_page pages page.entry.now)
        × (first_refusal pages page.entry.now (page_work pages page.entry.now) ≡ None)) }
    ensures whole { (pages : Pages) → F.pages folder.old ≡ Some pages
        → OnOk result (first_refusal pages page.entry.now (page_work pages page.entry.now) ≡ None) }
    ensures named { (pages : Pages) → F.pages folder.old ≡ Some pages
        → OnOk result (F.answered folder.new
        ≡ option_map (λ names. names ++ names_asked (page_work pages page.entry.now)) (F.answered folder.old)) }
    ensures refused { (pages : Pages) → F.pages folder.old ≡ Some pages
        → IfErr result (IsRefused (first_refusal pages page.entry.now (page_work pages page.entry.now))) }
    ensures stops { (pages : Pages) → F.pages folder.old ≡ Some pages
        → IfErr result (Stops pages page.entry.now 0 [] (page_work pages page.entry.now) (F.answered folder.old) (F.answered folder.new)) }
    ensures kept { F.pages folder.new ≡ F.pages folder.old }
    ensures asks { Asks (F.answered folder.old) (F.answered folder.new) (F.most_asked folder.old) (F.most_asked folder.new) }
    ensures count { IsCounted (F.fault_count folder.old) (F.fault_count folder.new) result }
{
    let expansion = Expansion::new(alloc, arena);
    let expanded = expand_knowing(alloc, page, arena, folder, expansion)?;
    Ok(expanded.items)
}
