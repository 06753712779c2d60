ghost use Rattle.std.specs.Prelude.{◌≡◌, ◌++◌, ◌||◌, OnOk, IfOk};
ghost use Rattle.wt_tree.specs.View.{view};
ghost use Rattle.wt_checks.specs.Places.{placed, places, parent_below, is_content};
ghost use Rattle.wt_tree.specs.declared.node.Node.{out-Node};
ghost use Rattle.wt_checks.specs.View.{all_seen};

use std::alloc::Global;
use wt_span::NoMemory;
use wt_tree::{Mark, Node};

/// A node in preorder, with the number of its kept parent (0 for the body) and whether it is
/// inside a node that is marked `content`.
#[derive(Clone, Copy)]
pub struct Visit<'t, 'a> {
    pub node: &'t Node<'a>,
    pub parent: u32,
    pub in_content: bool,
}

fn push_visits<'t, 'a>(
    out: &mut Vec<Visit<'t, 'a>>,
    node: &'t Node<'a>,
    parent: u32,
    in_content: bool,
) -> Result<(), NoMemory>
    ensures { OnOk result (all_seen out.new.items ≡ all_seen out.old.items ++ placed parent in_content (view node.now)) }
{
    out.push(Visit {
        node,
        parent,
        in_content,
    })?;
    let below = parent_below(node, parent);
    let inside = is_inside(node, in_content);
    for child in node.children.as_slice() {
        push_visits(out, child, below, inside)?;
    }
    Ok(())
}

fn is_inside(node: &Node<'_>, in_content: bool) -> bool
    ensures { result ≡ in_content || is_content (out-Node node.now).more.mark }
{
    in_content || is_content(node.mark())
}

fn parent_below(node: &Node<'_>, parent: u32) -> u32
    ensures { result ≡ parent_below parent (out-Node node.now).id }
{
    if node.id == 0 { parent } else { node.id }
}

/// Whether the mark says that the content is new.
pub fn is_content(mark: Mark) -> bool
    ensures { result ≡ is_content mark }
{
    match mark {
        Mark::Content => true,
        Mark::Nothing | Mark::Children | Mark::Other => false,
    }
}

/// All nodes of a tree in preorder; its root is the body.
pub fn preorder<'t, 'a>(alloc: Global, root: &'t Node<'a>) -> Result<Vec<Visit<'t, 'a>>, NoMemory>
    ensures { IfOk result (λ vs. all_seen vs.items ≡ places (view root.now)) }
{
    let mut out = Vec::new(alloc);
    push_visits(&mut out, root, 0, false)?;
    Ok(out)
}
