ghost use Rattle.std.specs.Prelude.{◌≡◌, ◌<◌, All, length, IfOk};
ghost use Rattle.wt_tree.specs.Tiling.{InPreorder};
ghost use Rattle.wt_tree.specs.Tree.{label};
ghost use Rattle.wt_tree.specs.View.{view};
ghost use Rattle.wt_tree.specs.declared.kind.Kind.TheVariants as kind;
ghost use Rattle.wt_tree.specs.declared.node.Node.{out-Node};
ghost use Rattle.wt_checks.specs.Places.{page_of};
ghost use Rattle.wt_checks.specs.Checked.{refused, checked, nodes_refused, nodes_checked};
ghost use Rattle.wt_checks.specs.View.{all_seen, indexed};

use crate::groups::first_in_template;
use crate::ids::{first_moved, first_repeated, first_unknown};
use crate::index::index_of;
use crate::marks::first_wrongly_marked;
use crate::number::NodeNumber;
use crate::refusal::TreeRefusal;
use crate::unmarked::first_unmarked_change;
use crate::visit::{Visit, preorder};
use std::alloc::Global;
use wt_span::NoMemory;
use wt_tree::Node;

fn check_visits(
    alloc: Global,
    values: bool,
    index: &[Visit<'_, '_>],
    edited: &[Visit<'_, '_>],
) -> Result<Option<TreeRefusal>, NoMemory>
    requires some { 0 < length index.now }
    requires parents { All (λ v. (out-Node v.node.now).id < length index.now) edited.now → All (λ v. v.parent < length index.now) edited.now }
    ensures { IfOk result (λ r. r ≡ refused values (indexed index.now) (all_seen edited.now)) }
{
    if let Some(number) = first_unknown(index, edited) {
        return Ok(Some(TreeRefusal::UnknownId(NodeNumber::new(number))));
    }
    if let Some(number) = first_repeated(alloc, index.len(), edited)? {
        return Ok(Some(TreeRefusal::RepeatedId(NodeNumber::new(number))));
    }
    if let Some(number) = first_moved(alloc, index, edited)? {
        return Ok(Some(TreeRefusal::Moved(NodeNumber::new(number))));
    }
    if let Some(number) = first_in_template(alloc, values, index, edited)? {
        return Ok(Some(TreeRefusal::InTemplate(NodeNumber::new(number))));
    }
    if let Some(number) = first_wrongly_marked(index, edited) {
        return Ok(Some(TreeRefusal::NotEditable(NodeNumber::new(number))));
    }
    if let Some(number) = first_unmarked_change(index, edited) {
        return Ok(Some(TreeRefusal::UnmarkedChange(NodeNumber::new(number))));
    }
    Ok(None)
}

/// The body, and after it the page's nodes with numbers: a node is at its number.
pub fn numbered_nodes<'t, 'a>(
    alloc: Global,
    page: &'t Node<'a>,
) -> Result<Vec<Visit<'t, 'a>>, NoMemory>
    requires body { (label (view page.now)).kind ≡ kind.Body }
    requires numbered { ∥ InPreorder (view page.now) ∥₁ }
    ensures same { IfOk result (λ vs. indexed vs.items ≡ page_of (view page.now)) }
    ensures some { IfOk result (λ vs. 0 < length vs.items) }
{
    let all = preorder(alloc, page)?;
    let index = index_of(alloc, all.as_slice())?;
    Ok(index)
}

/// Compares an edited tree with the page's, whose numbers count from 1 in preorder: the first refusal
/// of the order of `TreeRefusal`, at the first node in preorder, or None where there is none. Where
/// `values` is true, the values of template parameters may have been edited, and the `data-mw` of
/// groups isn't compared.
pub fn check(
    alloc: Global,
    page: &Node<'_>,
    edited: &Node<'_>,
    values: bool,
) -> Result<Option<TreeRefusal>, NoMemory>
    requires body { (label (view page.now)).kind ≡ kind.Body }
    requires numbered { ∥ InPreorder (view page.now) ∥₁ }
    ensures { IfOk result (λ r. r ≡ checked values (view page.now) (view edited.now)) }
{
    let index = numbered_nodes(alloc, page)?;
    let edited = preorder(alloc, edited)?;
    let refusal = check_visits(alloc, values, index.as_slice(), edited.as_slice())?;
    Ok(refusal)
}

fn check_visits_alone(
    alloc: Global,
    index: &[Visit<'_, '_>],
    edited: &[Visit<'_, '_>],
) -> Result<Option<TreeRefusal>, NoMemory>
    requires { 0 < length index.now }
    ensures { IfOk result (λ r. r ≡ nodes_refused (indexed index.now) (all_seen edited.now)) }
{
    if let Some(number) = first_unknown(index, edited) {
        return Ok(Some(TreeRefusal::UnknownId(NodeNumber::new(number))));
    }
    if let Some(number) = first_repeated(alloc, index.len(), edited)? {
        return Ok(Some(TreeRefusal::RepeatedId(NodeNumber::new(number))));
    }
    if let Some(number) = first_in_template(alloc, false, index, edited)? {
        return Ok(Some(TreeRefusal::InTemplate(NodeNumber::new(number))));
    }
    Ok(None)
}

/// Compares the nodes of an edited tree with the page's, each alone: the first unknown or repeated number,
/// or group that is marked or changed, or None where there is none. Where nodes are doesn't count, and
/// neither do marks and changes outside groups.
pub fn check_nodes(
    alloc: Global,
    page: &Node<'_>,
    edited: &Node<'_>,
) -> Result<Option<TreeRefusal>, NoMemory>
    requires body { (label (view page.now)).kind ≡ kind.Body }
    requires numbered { ∥ InPreorder (view page.now) ∥₁ }
    ensures { IfOk result (λ r. r ≡ nodes_checked (view page.now) (view edited.now)) }
{
    let index = numbered_nodes(alloc, page)?;
    let edited = preorder(alloc, edited)?;
    let refusal = check_visits_alone(alloc, index.as_slice(), edited.as_slice())?;
    Ok(refusal)
}
