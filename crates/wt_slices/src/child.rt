//! The children of a node of the page.

ghost use Rattle.std.specs.Prelude.{◌≡◌, ◌++◌, OnOk, IfOk};
ghost use Rattle.wt_tree.specs.Opened.{opened, opened_before};
ghost use Rattle.wt_tree.specs.Tree.{listed, none};
ghost use Rattle.wt_tree.specs.View.{view, views};
ghost use Rattle.wt_tree.specs.declared.node.Node.{out-Node};
ghost use Rattle.wt_slices.specs.Views.{child_trees, child_views};

use std::alloc::Global;
use wt_span::NoMemory;
use wt_tree::Node;

/// A child of a node of the page.
#[derive(Clone, Copy)]
pub struct Child<'t, 'a> {
    pub node: &'t Node<'a>,
}

/// The children of a node.
pub fn children_of<'t, 'a>(
    alloc: Global,
    node: &'t Node<'a>,
) -> Result<Vec<Child<'t, 'a>>, NoMemory>
    ensures { IfOk result (λ cs. child_views cs.items ≡ views (out-Node node.now).children) }
{
    let mut out = Vec::new(alloc);
    for child in node.children.as_slice() {
        out.push(Child { node: child })?;
    }
    Ok(out)
}

/// Appends a node, or of a section what it holds.
#[tactic(auto, using(crate::proofs::Opening::pushed_other))]
fn push_opened<'t, 'a>(out: &mut Vec<Child<'t, 'a>>, node: &'t Node<'a>) -> Result<(), NoMemory>
    ensures { OnOk result (child_trees out.new.items ≡ child_trees out.old.items ++ listed (opened_before (view node.now) none)) }
{
    if !node.kind.is_section() {
        out.push(Child { node })?;
        return Ok(());
    }
    for child in node.children.as_slice() {
        push_opened(out, child)?;
    }
    Ok(())
}

/// The children of a body: those that are in it, and those that are in its sections.
pub fn opened_children<'t, 'a>(
    alloc: Global,
    body: &'t Node<'a>,
) -> Result<Vec<Child<'t, 'a>>, NoMemory>
    ensures { IfOk result (λ cs. child_views cs.items ≡ opened (views (out-Node body.now).children)) }
{
    let mut out = Vec::new(alloc);
    for child in body.children.as_slice() {
        push_opened(&mut out, child)?;
    }
    Ok(out)
}
