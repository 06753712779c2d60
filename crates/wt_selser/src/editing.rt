//! The new page of an edited page.

ghost use Rattle.std.specs.Prelude.{◌≡◌, Bool, IfOk, length, nat_lt};
ghost use Rattle.wt_tree.specs.Tiling.{InPreorder};
ghost use Rattle.wt_tree.specs.Tree.{Tree, label};
ghost use Rattle.wt_tree.specs.View.{view};
ghost use Rattle.wt_tree.specs.declared.kind.Kind.TheVariants as kind;
ghost use Rattle.wt_original.specs.Page.{TellsSame};
ghost use Rattle.wt_checks.specs.Places.{page_of};
ghost use Rattle.wt_checks.specs.View.{indexed};
ghost use Rattle.wt_isolation.specs.Passes.{AreOf};
ghost use Rattle.wt_slices.specs.BodySlices.{slices};
ghost use Rattle.wt_slices.specs.Borders.{HasBorders};
ghost use Rattle.wt_selser.specs.Borders.{HaveOldBorders, page_text};
ghost use Rattle.wt_slices.specs.Changes.{marked};
ghost use Rattle.wt_splice.specs.Splice.{AreAtBorders, spliced};
ghost use Rattle.wt_selser.specs.Edits.{AnswersEdit, bad_pair, refused_pairs, edit_answer, if_short, pairs_answer, first_of, most_bytes, tangled_pair, why_bad};
ghost use Rattle.wt_splice.specs.Views.{changes_view};
ghost use Rattle.wt_slices.specs.Views.{pair_of, pairs_of};

use crate::refusal::EditRefusal;
use crate::tangled_block::is_tangled;
use std::alloc::Global;
use wt_checks::{NodeNumber, Visit, check, is_children, is_content, numbered_nodes};
use wt_content::{ContentWhy, bad_children, bad_content};
use wt_isolation::Passes;
use wt_slices::{Pair, marked_pairs, slices};
use wt_span::{Items, NoMemory, PAGE_BYTES, Str};
use wt_splice::{Change, spliced};
use wt_tree::Node;

/// Why what is in a marked node can't be written.
fn why_bad(alloc: Global, pair: Pair<'_, '_>) -> Result<Option<ContentWhy>, NoMemory>
    ensures { (same : Tree → Tree → Bool) → TellsSame same → IfOk result (λ w. w ≡ why_bad same (pair_of pair.entry)) }
{
    if is_children(pair.new.mark()) {
        return bad_children(alloc, pair.new);
    }
    bad_content(alloc, pair.old, pair.new)
}

fn bad_pair(alloc: Global, pair: Pair<'_, '_>) -> Result<Option<EditRefusal>, NoMemory>
    ensures { (same : Tree → Tree → Bool) → TellsSame same → IfOk result (λ r. r ≡ bad_pair same (pair_of pair.entry)) }
{
    let found = why_bad(alloc, pair)?;
    match found {
        Some(why) => Ok(Some(EditRefusal::BadContent(NodeNumber::new(pair.new.id), why))),
        None => Ok(None),
    }
}

fn first_bad(alloc: Global, pairs: &[Pair<'_, '_>]) -> Result<Option<EditRefusal>, NoMemory>
    ensures { (same : Tree → Tree → Bool) → TellsSame same → IfOk result (λ r. r ≡ first_of (bad_pair same) (pairs_of pairs.now)) }
{
    for pair in pairs {
        let found = bad_pair(alloc, *pair)?;
        if let Some(refusal) = found {
            return Ok(Some(refusal));
        }
    }
    Ok(None)
}

/// Whether a content can't be read by itself.
fn tangled_pair(
    alloc: Global,
    items: &Items<'_>,
    page: &[u8],
    passes: &mut Passes,
    pair: Pair<'_, '_>,
) -> Result<Option<EditRefusal>, NoMemory>
    requires passes { AreOf items.now page.now passes.old }
    requires borders { HasBorders (page_text items.now) (view pair.old.now) }
    ensures value { IfOk result (λ r. r ≡ tangled_pair items.now page.now (pair_of pair.entry)) }
    ensures passes { AreOf items.now page.now passes.new }
{
    if !is_content(pair.new.mark()) {
        return Ok(None);
    }
    let tangled = is_tangled(alloc, items, page, passes, pair.old)?;
    if tangled {
        return Ok(Some(EditRefusal::Tangled(NodeNumber::new(pair.new.id))));
    }
    Ok(None)
}

/// The pairs are in the page's order, so the page and its text calls are gone through once.
fn first_tangled(
    alloc: Global,
    items: &Items<'_>,
    page: &[u8],
    pairs: &[Pair<'_, '_>],
) -> Result<Option<EditRefusal>, NoMemory>
    requires { HaveOldBorders (page_text items.now) (pairs_of pairs.now) }
    ensures { IfOk result (λ r. r ≡ first_of (tangled_pair items.now page.now) (pairs_of pairs.now)) }
{
    let mut passes = Passes::start();
    for pair in pairs {
        let found = tangled_pair(alloc, items, page, &mut passes, *pair)?;
        if let Some(refusal) = found {
            return Ok(Some(refusal));
        }
    }
    Ok(None)
}

fn refused_pairs(
    alloc: Global,
    items: &Items<'_>,
    page: &[u8],
    pairs: &[Pair<'_, '_>],
) -> Result<Option<EditRefusal>, NoMemory>
    requires { HaveOldBorders (page_text items.now) (pairs_of pairs.now) }
    ensures { (same : Tree → Tree → Bool) → TellsSame same
        → IfOk result (λ r. r ≡ refused_pairs same items.now page.now (pairs_of pairs.now)) }
{
    let bad = first_bad(alloc, pairs)?;
    if let Some(refusal) = bad {
        return Ok(Some(refusal));
    }
    let tangled = first_tangled(alloc, items, page, pairs)?;
    Ok(tangled)
}

/// Whether a page is longer than a page may be.
#[tactic(auto, unfolding(crate::specs::Edits::most_bytes))]
fn is_too_long(page: &str) -> bool
    ensures { result ≡ nat_lt most_bytes (length page.now) }
{
    page.len() > PAGE_BYTES
}

/// The page with these slices replaced, where it isn't too long.
fn new_page(alloc: Global, page: &str, changes: &[Change]) -> Result<Str, EditRefusal>
    requires { AreAtBorders page.now (changes_view changes.now) }
    ensures { AnswersEdit (if_short (spliced page.now (changes_view changes.now))) result }
{
    let new = spliced(alloc, page, changes)?;
    let long = is_too_long(new.as_str());
    if long {
        return Err(EditRefusal::NewPageTooLong);
    }
    Ok(new)
}

/// The new page of an edit that the checks let through. `index` are the body and the nodes of the page with
/// numbers.
fn checked_edit<'t, 'a>(
    alloc: Global,
    items: &Items<'a>,
    page: &str,
    index: &[Visit<'t, 'a>],
    tree: &'t Node<'a>,
    edited: &'t Node<'a>,
) -> Result<Str, EditRefusal>
    requires index { indexed index.now ≡ page_of (view tree.now) }
    requires places { HasBorders page.now (view tree.now) }
    requires text { page_text items.now ≡ page.now }
    ensures { (same : Tree → Tree → Bool) → TellsSame same
        → AnswersEdit (pairs_answer same items.now page.now (marked (view tree.now) (view edited.now))
        (slices same (view tree.now) (view edited.now))) result }
{
    let pairs = marked_pairs(alloc, index, edited)?;
    let refused = refused_pairs(alloc, items, page.as_bytes(), pairs.as_slice())?;
    if let Some(refusal) = refused {
        return Err(refusal);
    }
    let changes = slices(alloc, index, tree, edited)?;
    new_page(alloc, page, changes.as_slice())
}

/// The new page of an edited page: the page with the insides of nodes marked `content` spelled anew, and
/// with the blocks and items that come and go where a node is marked `children`. `items` are
/// the page's items with its templates expanded, `tree` is its tree with its numbers from 1 in preorder and its
/// places between characters, `edited` the tree that was read.
///
/// # Errors
///
/// The first refusal in the order of `EditRefusal`, and of one kind the first in preorder.
pub fn edit<'t, 'a>(
    alloc: Global,
    items: &Items<'a>,
    page: &str,
    tree: &'t Node<'a>,
    edited: &'t Node<'a>,
) -> Result<Str, EditRefusal>
    requires body { (label (view tree.now)).kind ≡ kind.Body }
    requires numbered { ∥ InPreorder (view tree.now) ∥₁ }
    requires places { HasBorders page.now (view tree.now) }
    requires text { page_text items.now ≡ page.now }
    ensures { (same : Tree → Tree → Bool) → TellsSame same
        → AnswersEdit (edit_answer same items.now page.now (view tree.now) (view edited.now)) result }
{
    let refused = check(alloc, tree, edited, false)?;
    if let Some(refusal) = refused {
        return Err(EditRefusal::Check(refusal));
    }
    let index = numbered_nodes(alloc, tree)?;
    checked_edit(alloc, items, page, index.as_slice(), tree, edited)
}
