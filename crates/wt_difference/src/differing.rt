//! Whether a node of the page, or of the edited tree, is as it was: the tests that the difference is made of.

ghost use Rattle.std.specs.Prelude.{◌≡◌, IfOk, if◌then◌else◌, option_map};
ghost use Rattle.std.specs.Str.{bytes_eq};
ghost use Rattle.wt_tree.specs.View.{view, views};
ghost use Rattle.wt_tree.specs.declared.node.Node.{out-Node};
ghost use Rattle.wt_checks.specs.View.{indexed, seen};
ghost use Rattle.wt_difference.specs.Difference.{
  is_partner,
  numbers,
  numbers_in,
  same_children,
  same_inside,
  stays_in,
};
ghost use Rattle.wt_difference.specs.Views.{child_views};

use crate::insides::{Child, held, inside};
use crate::tokens::are_same;
use std::alloc::Global;
use wt_checks::{Visit, is_compared, original, same_attrs, same_kind};
use wt_span::NoMemory;
use wt_tree::Node;

// ---- pairs

fn is_partner(holder: u32, node: &Node<'_>, original: Option<Visit<'_, '_>>) -> bool
    ensures { result ≡ is_partner holder (view node.now) (option_map seen original.entry) }
{
    match original {
        None => false,
        Some(visit) => {
            if node.id == 0 || visit.parent != holder {
                return false;
            }
            same_kind(visit.node.kind, node.kind) && same_attrs(visit.node.attrs(), node.attrs())
        }
    }
}

/// Whether a node of the edited tree is a child of the page's node with the number `holder` (0: the body), as
/// it was but for what it holds.
pub fn stays_in(index: &[Visit<'_, '_>], holder: u32, node: &Node<'_>) -> bool
    ensures { result ≡ stays_in (indexed index.now) holder (view node.now) }
{
    is_partner(holder, node, original(index, node.id))
}

// ---- a list of children

fn numbers(alloc: Global, children: &[Child<'_, '_>]) -> Result<Vec<u32>, NoMemory>
    ensures { IfOk result (λ ns. ns.items ≡ numbers (child_views children.now)) }
{
    let mut out = Vec::new(alloc);
    for child in children {
        if is_compared(child.node.kind) {
            out.push(child.node.id)?;
        }
    }
    Ok(out)
}

fn number_in(index: &[Visit<'_, '_>], holder: u32, node: &Node<'_>) -> u32
    ensures { result ≡ (if stays_in (indexed index.now) holder (view node.now) then (out-Node node.now).id else 0) }
{
    if stays_in(index, holder, node) {
        node.id
    } else {
        0
    }
}

fn numbers_in(
    alloc: Global,
    index: &[Visit<'_, '_>],
    holder: u32,
    children: &[Child<'_, '_>],
) -> Result<Vec<u32>, NoMemory>
    ensures { IfOk result (λ ns. ns.items ≡ numbers_in (indexed index.now) holder (child_views children.now)) }
{
    let mut out = Vec::new(alloc);
    for child in children {
        if is_compared(child.node.kind) {
            out.push(number_in(index, holder, child.node))?;
        }
    }
    Ok(out)
}

fn are_equal(left: &[u32], right: &[u32]) -> bool
    ensures { result ≡ bytes_eq left.now right.now }
{
    left == right
}

// ---- one node

/// Whether the inside of a node is as it was.
pub fn same_inside(alloc: Global, old: &Node<'_>, new: &Node<'_>) -> Result<bool, NoMemory>
    ensures { IfOk result (λ same. same ≡ same_inside (view old.now) (view new.now)) }
{
    are_same(alloc, inside(old), inside(new))
}

/// Whether a node holds the same children after its inside, each by its number.
pub fn same_children(
    alloc: Global,
    index: &[Visit<'_, '_>],
    old: &Node<'_>,
    new: &Node<'_>,
) -> Result<bool, NoMemory>
    ensures { IfOk result (λ same. same ≡ same_children (indexed index.now) (view old.now) (view new.now)) }
{
    let before = held(alloc, old)?;
    let after = held(alloc, new)?;
    let before = numbers(alloc, before.as_slice())?;
    let after = numbers_in(alloc, index, new.id, after.as_slice())?;
    Ok(are_equal(before.as_slice(), after.as_slice()))
}
