ghost use Rattle.std.specs.Prelude.{◌≡◌, ◌++◌, OnOk, IfOk};
ghost use Rattle.wt_tree.specs.Tree.{subtrees};
ghost use Rattle.wt_tree.specs.Look.{Finds, rows};
ghost use Rattle.wt_tree.specs.View.{view};

use crate::kind::{Kind, Ranges};
use crate::node::Node;
use std::alloc::Global;
use wt_span::{List, NoMemory};

/// The first node in preorder with this number, the root among them, or None where none has it.
pub fn find<'t, 'a>(n: &'t Node<'a>, id: u32) -> Option<&'t Node<'a>>
    ensures { Finds (λ m. view m.now) id (subtrees (view n.now)) result }
{
    if n.id == id {
        return Some(n);
    }
    for child in n.children.as_slice() {
        if let Some(found) = find(child, id) {
            return Some(found);
        }
    }
    None
}

fn push_rows(out: &mut List<(u32, Kind, Option<Ranges>)>, n: &Node<'_>) -> Result<(), NoMemory>
    ensures { OnOk result (out.new ≡ out.old ++ rows (view n.now)) }
{
    out.push((n.id, n.kind, n.ranges))?;
    for child in n.children.as_slice() {
        push_rows(out, child)?;
    }
    Ok(())
}

/// The number (0 where it has none), the kind and the ranges of each node, in preorder.
pub fn walk(alloc: Global, n: &Node<'_>) -> Result<List<(u32, Kind, Option<Ranges>)>, NoMemory>
    ensures { IfOk result (λ l. l ≡ rows (view n.now)) }
{
    let mut out = List::new(alloc);
    push_rows(&mut out, n)?;
    Ok(out)
}
