//! The walk over a tree.

ghost use Rattle.std.specs.Prelude.{◌≡◌, IfOk, OnOk};
ghost use Rattle.std.specs.List.{AllByRecursion};
ghost use Rattle.wt_annotated.specs.Reached.{AreReachedSlices, reached_in_all};
ghost use Rattle.wt_annotated.specs.Slices.{IsSlice};
ghost use Rattle.wt_tree.specs.View.{view, views};
ghost use Rattle.wt_lint.specs.Findings.{all_found};
ghost use Rattle.wt_lint.specs.Found.{each};
ghost use Rattle.wt_lint.specs.Nodes.{nodes, nodes_in_all};
ghost use Rattle.wt_lint.specs.Search.{Takes};

use crate::bare_finding::BareFinding;
use crate::met::Titles;
use crate::node::push_of_node;
use crate::place::{Place, below, is_group, sort_of, top};
use crate::search::Search;
use std::alloc::Global;
use wt_span::NoMemory;
use wt_tree::Node;

/// Takes what is doubtful at a node and below it. What is in a group isn't looked at.
#[cycle(walk)]
fn push_of_tree(
    alloc: Global,
    search: &mut Search,
    page: &[u8],
    place: Place,
    node: &Node<'_>,
) -> Result<(), NoMemory>
    requires { AreReachedSlices page.now (view node.now) }
    ensures { OnOk result (Takes page.now (nodes place (view node.now)) search.old search.new) }
{
    let Some(range) = node.ranges else {
        return Ok(());
    };
    push_of_node(alloc, search, page, place, node, range)?;
    if is_group(node.kind) {
        return Ok(());
    }
    let inside = below(place, sort_of(node.kind), range.start);
    push_of_all(alloc, search, page, inside, node.children.as_slice())?;
    Ok(())
}

#[cycle(walk)]
fn push_of_all(
    alloc: Global,
    search: &mut Search,
    page: &[u8],
    place: Place,
    nodes: &[Node<'_>],
) -> Result<(), NoMemory>
    requires { AllByRecursion (IsSlice page.now) (reached_in_all (views nodes.now)) }
    ensures { OnOk result (Takes page.now (nodes_in_all place (views nodes.now)) search.old search.new) }
{
    for node in nodes {
        push_of_tree(alloc, search, page, place, node)?;
    }
    Ok(())
}

/// All that is found in a tree.
pub fn spots_in(alloc: Global, page: &[u8], body: &Node<'_>) -> Result<Vec<BareFinding>, NoMemory>
    requires { AreReachedSlices page.now (view body.now) }
    ensures { IfOk result (λ found. each found.items ≡ all_found page.now (view body.now)) }
{
    let mut search = Search {
        found: Vec::new(alloc),
        titles: Titles::new(alloc),
    };
    push_of_tree(alloc, &mut search, page, top(), body)?;
    Ok(search.found)
}
