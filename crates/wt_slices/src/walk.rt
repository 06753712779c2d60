//! The slices of the page that an edit replaces, in the order of the page: a walk over the edited tree.

ghost use Rattle.std.specs.Prelude.{◌≡◌, ◌++◌, Bool, IfOk, OnOk};
ghost use Rattle.wt_tree.specs.Tree.{Tree};
ghost use Rattle.wt_tree.specs.View.{view, views};
ghost use Rattle.wt_original.specs.Page.{TellsSame};
ghost use Rattle.wt_checks.specs.View.{indexed};
ghost use Rattle.wt_checks.specs.Places.{page_of};
ghost use Rattle.wt_slices.specs.BodySlices.{all_child_slices, slices, slices_of};
ghost use Rattle.wt_splice.specs.Views.{changes_view};
ghost use Rattle.wt_slices.specs.Views.{child_views};

use crate::body::{push_body, push_child};
use crate::child::{Child, opened_children};
use crate::steps::steps_along;
use std::alloc::Global;
use wt_checks::{Visit, is_children};
use wt_content::Holder;
use wt_span::NoMemory;
use wt_splice::Change;
use wt_tree::Node;

/// Appends the slices of the children of a body that keeps all of them.
fn push_children<'t, 'a>(
    alloc: Global,
    found: &mut Vec<Change>,
    index: &[Visit<'t, 'a>],
    nodes: &'t [Node<'a>],
) -> Result<(), NoMemory>
    ensures { (same : Tree → Tree → Bool) → TellsSame same → OnOk result (changes_view found.new.items
        ≡ changes_view found.old.items ++ all_child_slices same (indexed index.now) (views nodes.now)) }
{
    for node in nodes {
        push_child(alloc, found, index, node)?;
    }
    Ok(())
}

/// Appends the slices of a page of these nodes, edited to a body that has these.
fn push_slices<'t, 'a>(
    alloc: Global,
    found: &mut Vec<Change>,
    index: &[Visit<'t, 'a>],
    old: &[Child<'t, 'a>],
    edited: &'t Node<'a>,
) -> Result<(), NoMemory>
    ensures { (same : Tree → Tree → Bool) → TellsSame same → OnOk result (changes_view found.new.items
        ≡ changes_view found.old.items ++ slices_of same (indexed index.now) (child_views old.now) (view edited.now)) }
{
    let new = edited.children.as_slice();
    if !is_children(edited.mark()) {
        push_children(alloc, found, index, new)?;
        return Ok(());
    }
    let steps = steps_along(alloc, Holder::Body, old, new)?;
    push_body(alloc, found, index, steps.as_slice())?;
    Ok(())
}

/// The slices of a page that an edit replaces, in the order of the page. `index` are the body and the nodes
/// of the page with numbers.
pub fn slices<'t, 'a>(
    alloc: Global,
    index: &[Visit<'t, 'a>],
    page: &'t Node<'a>,
    edited: &'t Node<'a>,
) -> Result<Vec<Change>, NoMemory>
    requires { indexed index.now ≡ page_of (view page.now) }
    ensures { (same : Tree → Tree → Bool) → TellsSame same
        → IfOk result (λ cs. changes_view cs.items ≡ slices same (view page.now) (view edited.now)) }
{
    let old = opened_children(alloc, page)?;
    let mut found = Vec::new(alloc);
    push_slices(alloc, &mut found, index, old.as_slice(), edited)?;
    Ok(found)
}
