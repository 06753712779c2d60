//! The first child of two bodies in which their plain views differ.

ghost use Rattle.std.specs.Prelude.{◌≡◌, IfOk};
ghost use Rattle.wt_tree.specs.declared.kind.Kind.TheVariants as kind;
ghost use Rattle.wt_tree.specs.Tiling.{InPreorder};
ghost use Rattle.wt_tree.specs.Tree.{label};
ghost use Rattle.wt_tree.specs.View.{view};
ghost use Rattle.wt_checks.specs.View.{indexed};
ghost use Rattle.wt_visible.specs.Children.{IsFirstDiffering, shown_children};
ghost use Rattle.wt_visible.specs.Restored.{restored, restored_from};

use std::alloc::Global;
use wt_checks::{Visit, numbered_nodes};
use wt_span::NoMemory;
use wt_tree::Node;
use wt_visible::{first_of_children, held_nodes, shown_nodes};

/// The number, from 1, of the first child in which a new body differs from an edited one, or None where they show
/// the same. In the edited one a group shows what the page's group of its number does: `index` has the page's
/// nodes by their numbers.
pub fn first_differing_indexed<'t, 'a>(
    alloc: Global,
    new: &Node<'_>,
    index: &[Visit<'t, 'a>],
    edited: &'t Node<'a>,
) -> Result<Option<usize>, NoMemory>
    ensures { IfOk result (IsFirstDiffering (shown_children (view new.now)) (shown_children (restored (indexed index.now) (view edited.now)))) }
{
    let left = shown_nodes(alloc, &[], new.children.as_slice())?;
    let right = held_nodes(alloc, index, edited)?;
    let found = first_of_children(alloc, left.as_slice(), right.as_slice())?;
    Ok(found)
}

/// The same of a page without its index.
pub fn first_differing<'t, 'a>(
    alloc: Global,
    new: &Node<'_>,
    page: &'t Node<'a>,
    edited: &'t Node<'a>,
) -> Result<Option<usize>, NoMemory>
    requires body { (label (view page.now)).kind ≡ kind.Body }
    requires numbered { ∥ InPreorder (view page.now) ∥₁ }
    ensures { IfOk result (IsFirstDiffering (shown_children (view new.now)) (shown_children (restored_from (view page.now) (view edited.now)))) }
{
    let index = numbered_nodes(alloc, page)?;
    let found = first_differing_indexed(alloc, new, index.as_slice(), edited)?;
    Ok(found)
}
