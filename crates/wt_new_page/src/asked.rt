//! What is asked of a new page.

ghost use Rattle.std.specs.Prelude.{◌≡◌, IfOk, IfSome};
ghost use Rattle.wt_checks.specs.Places.{page_of};
ghost use Rattle.wt_checks.specs.View.{indexed};
ghost use Rattle.wt_new_page.specs.NewPages.{ComparedAs, MarkedAs};
ghost use Rattle.wt_places.specs.Rewritten.{IsRewritten};
ghost use Rattle.wt_tree.specs.Tiling.{InPreorder};
ghost use Rattle.wt_tree.specs.Tree.{label};
ghost use Rattle.wt_tree.specs.View.{view};
ghost use Rattle.wt_tree.specs.declared.kind.Kind.TheVariants as kind;
ghost use Rattle.wt_visible.specs.Children.{IsFirstDiffering, shown_children};
ghost use Rattle.wt_visible.specs.Restored.{restored_from};

use crate::page::EditedPage;
use wt_edit::KnownPage;
use wt_proposal::{Keeping, proposal};
use wt_selser::first_differing;
use wt_span::{NoMemory, Str};
use wt_template_stack::Expansion;
use wt_visible::keeps_marks;

/// Why a new page isn't the answer.
#[derive(Clone, Copy)]
pub enum Fault {
    /// It is longer than a page may be.
    TooLong,
    /// Its expansion is refused.
    Expansion,
    /// It shows something else than the edited tree, first in this child of the body, counted from 1. With 0 it
    /// shows the same, but has lost a comment or an include tag; or none was proposed.
    Block(usize),
}

/// What reading a new page back says.
#[derive(Drop)]
pub enum ReadBack<'a> {
    /// It shows what the edited tree shows. Here are its tree, and what is known after it.
    Shows(KnownPage<'a>),
    /// It isn't the answer, for this reason. Here is the expansion for what is read next.
    Fails(Fault, Expansion<'a>),
}

/// A new page that was tried.
#[derive(Drop)]
pub enum Tried<'a> {
    /// It is the answer.
    Stands(Str),
    /// It isn't, for this reason. Here is the expansion for what is read next.
    Fails(Fault, Expansion<'a>),
}

/// What is proposed for the edited tree, where texts keep their bytes as `keeping` says. None where no new page was found.
pub fn proposal_for(edit: &EditedPage<'_, '_>, keeping: Keeping) -> Result<Option<Str>, NoMemory>
    requires { indexed edit.now.index.now ≡ page_of (view edit.now.tree.now) }
    ensures { IfOk result (λ o. IfSome o (λ new. IsRewritten edit.now.page.now (view edit.now.tree.now) (view edit.now.edited.now) new)) }
{
    let new = proposal(
        edit.memory.alloc,
        edit.page,
        edit.index,
        edit.tree,
        edit.edited,
        keeping,
    )?;
    Ok(new)
}

/// The number, from 1, of the first child in which what was found of a new page differs from what the edited tree
/// shows, where groups are those of the page; or None.
fn differing_child<'a>(
    found: &KnownPage<'a>,
    edit: &EditedPage<'_, 'a>,
) -> Result<Option<usize>, NoMemory>
    requires body { (label (view edit.now.tree.now)).kind ≡ kind.Body }
    requires numbered { ∥ InPreorder (view edit.now.tree.now) ∥₁ }
    ensures { IfOk result (IsFirstDiffering (shown_children (view found.now.annotated.tree.body))
        (shown_children (restored_from (view edit.now.tree.now) (view edit.now.edited.now)))) }
{
    first_differing(
        edit.memory.alloc,
        found.annotated.body(),
        edit.tree,
        edit.edited,
    )
}

/// Compares what was found of a new page with the edited tree.
pub fn compared<'a>(
    found: KnownPage<'a>,
    edit: &EditedPage<'_, 'a>,
) -> Result<ReadBack<'a>, NoMemory>
    requires body { (label (view edit.now.tree.now)).kind ≡ kind.Body }
    requires numbered { ∥ InPreorder (view edit.now.tree.now) ∥₁ }
    ensures { IfOk result (ComparedAs found.entry (view edit.now.tree.now) (view edit.now.edited.now)) }
{
    let child = differing_child(&found, edit)?;
    match child {
        None => Ok(ReadBack::Shows(found)),
        Some(child) => Ok(ReadBack::Fails(Fault::Block(child), found.expansion)),
    }
}

/// Asks what was found of a new page for the comments and include tags that the edited tree still has.
pub fn marked<'a>(
    new: Str,
    found: KnownPage<'a>,
    edit: &EditedPage<'_, 'a>,
) -> Result<Tried<'a>, NoMemory>
    requires index { indexed edit.now.index.now ≡ page_of (view edit.now.tree.now) }
    ensures { IfOk result (MarkedAs found.entry (view edit.now.tree.now) (view edit.now.edited.now) new) }
{
    let keeps = keeps_marks(
        edit.memory.alloc,
        found.annotated.body(),
        edit.tree,
        edit.index,
        edit.edited,
    )?;
    if keeps {
        return Ok(Tried::Stands(new));
    }
    Ok(Tried::Fails(Fault::Block(0), found.expansion))
}
