//! The children of a node whose children come and go, as they are in the page and as they were edited to,
//! step by step in the order of the new page.

ghost use Rattle.std.specs.Prelude.{◌≡◌, ◌≤◌, ◌++◌, ◌∷◌, [], length, take, drop, OnOk, IfOk};
ghost use Rattle.wt_tree.specs.Tree.{Trees, more, label};
ghost use Rattle.wt_tree.specs.View.{view, views};
ghost use Rattle.wt_slices.specs.Steps.{behind_first, from_number, kept_first, passed, passed_one, passed_up_to, steps};
ghost use Rattle.wt_slices.specs.Views.{child_views, steps_view};

use crate::child::Child;
use std::alloc::Global;
use wt_content::{Holder, is_child};
use wt_span::NoMemory;
use wt_tree::Node;

/// A step along children.
#[derive(Clone, Copy)]
pub enum Step<'t, 'a> {
    /// What is between the children of the page and stays.
    Stays(&'t Node<'a>),
    /// A child of the page that is missing.
    Goes(&'t Node<'a>),
    /// A child of the page, and what it was edited to.
    Kept(&'t Node<'a>, &'t Node<'a>),
    /// A new child.
    Comes(&'t Node<'a>),
}

/// The place of the first node with this number, or the end.
pub fn place_of(nodes: &[Child<'_, '_>], number: u32) -> usize
    ensures fits { result ≤ length nodes.now }
    ensures behind { child_views (drop result nodes.now) ≡ from_number number (child_views nodes.now) }
    ensures before { (h : Holder) → passed h (child_views (take result nodes.now)) ≡ passed_up_to h number (child_views nodes.now) }
{
    for at in 0..nodes.len() {
        if nodes[at].node.id == number {
            return at;
        }
    }
    nodes.len()
}

fn push_passed_one<'t, 'a>(
    out: &mut Vec<Step<'t, 'a>>,
    holder: Holder,
    node: &'t Node<'a>,
) -> Result<(), NoMemory>
    ensures { OnOk result (steps_view out.new.items ≡ steps_view out.old.items ++ passed_one holder (view node.now) ∷ []) }
{
    if is_child(holder, node.kind) {
        out.push(Step::Goes(node))?;
    } else {
        out.push(Step::Stays(node))?;
    }
    Ok(())
}

/// Passes nodes of the page.
fn push_passed<'t, 'a>(
    out: &mut Vec<Step<'t, 'a>>,
    holder: Holder,
    nodes: &[Child<'t, 'a>],
) -> Result<(), NoMemory>
    ensures { OnOk result (steps_view out.new.items ≡ steps_view out.old.items ++ passed holder (child_views nodes.now)) }
{
    for child in nodes {
        push_passed_one(out, holder, child.node)?;
    }
    Ok(())
}

/// Passes the nodes of the page up to the one that a kept child is, and that one; it gives how many
/// nodes these are.
fn push_kept<'t, 'a>(
    out: &mut Vec<Step<'t, 'a>>,
    holder: Holder,
    old: &[Child<'t, 'a>],
    child: &'t Node<'a>,
) -> Result<usize, NoMemory>
    ensures fits { IfOk result (λ n. n ≤ length old.now) }
    ensures behind { IfOk result (λ n. child_views (drop n old.now) ≡ behind_first (from_number (label (view child.now)).id (child_views old.now))) }
    ensures pushed { OnOk result (steps_view out.new.items ≡ steps_view out.old.items
        ++ (passed_up_to holder (label (view child.now)).id (child_views old.now)
        ++ kept_first (from_number (label (view child.now)).id (child_views old.now)) (view child.now))) }
{
    let at = place_of(old, child.id);
    push_passed(out, holder, &old[..at])?;
    match old.get(at) {
        None => Ok(at),
        Some(kept) => {
            out.push(Step::Kept(kept.node, child))?;
            Ok(at + 1)
        }
    }
}

/// Takes the step to a child of the edited tree, with these nodes of the page still to come; it gives how
/// many of them are passed then.
fn push_child<'t, 'a>(
    out: &mut Vec<Step<'t, 'a>>,
    holder: Holder,
    old: &[Child<'t, 'a>],
    child: &'t Node<'a>,
) -> Result<usize, NoMemory>
    ensures fits { IfOk result (λ n. n ≤ length old.now) }
    ensures goes_on { (us : Trees) → IfOk result (λ n. steps_view out.new.items ++ steps holder (child_views (drop n old.now)) us
        ≡ steps_view out.old.items ++ steps holder (child_views old.now) (more (view child.now) us)) }
{
    if !is_child(holder, child.kind) {
        return Ok(0);
    }
    if child.id == 0 {
        out.push(Step::Comes(child))?;
        return Ok(0);
    }
    push_kept(out, holder, old, child)
}

/// The steps along these nodes of the page, which were edited to those.
pub fn steps_along<'t, 'a>(
    alloc: Global,
    holder: Holder,
    old: &[Child<'t, 'a>],
    new: &'t [Node<'a>],
) -> Result<Vec<Step<'t, 'a>>, NoMemory>
    ensures { IfOk result (λ ss. steps_view ss.items ≡ steps holder (child_views old.now) (views new.now)) }
{
    let mut steps = Vec::new(alloc);
    let mut from = 0;
    for child in new {
        let passed = push_child(&mut steps, holder, &old[from..], child)?;
        from += passed;
    }
    push_passed(&mut steps, holder, &old[from..])?;
    Ok(steps)
}
