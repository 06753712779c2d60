//! What may be among the children of a node whose children come and go: kept ones, and new blocks or
//! items.

ghost use Rattle.std.specs.Prelude.{◌≡◌, ◌++◌, Bool, List, [], IfOk, OnOk};
ghost use Rattle.wt_tree.specs.Tree.{Tree, label};
ghost use Rattle.wt_tree.specs.View.{view, views};
ghost use Rattle.wt_tree.specs.EditShapes.{edit_shape};
ghost use Rattle.wt_original.specs.Page.{TellsSame};
ghost use Rattle.wt_original.specs.PageViews.{IsPageOf};
ghost use Rattle.wt_content.specs.Children.{all_child_faults, any_kept_child, bad_children, child_faults, empty_fault, holder_of, if_any_held, inside_faults, is_child, is_rule, is_kept_child, is_mark, is_separator, is_space, may_come, new_faults};
ghost use Rattle.wt_content.specs.Content.{if_any};
ghost use Rattle.wt_content.specs.Views.{HasFaults};

use crate::content::{Faults, outermost, visit_all};
use crate::reason::ContentWhy;
use std::alloc::Global;
use wt_original::{Page, no_page};
use wt_span::NoMemory;
use wt_tree::{BlockForm, Kind, Node};

/// What holds children that come and go.
#[derive(Clone, Copy)]
pub enum Holder {
    /// The body of a page, with its blocks.
    Body,
    /// A list, with its items.
    List,
}

// ---- children and what is between them

/// Whether a node is white space between others.
pub fn is_space(kind: Kind) -> bool
    ensures { result ≡ is_space kind }
{
    match kind {
        Kind::Sep => true,
        _ => false,
    }
}

/// Whether a node is a comment or an include tag.
pub fn is_mark(kind: Kind) -> bool
    ensures { result ≡ is_mark kind }
{
    match kind {
        Kind::Comment | Kind::Include => true,
        _ => false,
    }
}

/// Whether a node is between children: white space and marks.
pub fn is_separator(kind: Kind) -> bool
    ensures { result ≡ is_separator kind }
{
    is_space(kind) || is_mark(kind)
}

/// Whether a node of this kind comes and goes: in a body everything but white space, in a list its items.
pub fn is_child(holder: Holder, kind: Kind) -> bool
    ensures { result ≡ is_child holder kind }
{
    match holder {
        Holder::Body => !is_space(kind),
        Holder::List => !is_separator(kind),
    }
}

/// Whether a node is a child that is in the page.
pub fn is_kept_child(holder: Holder, node: &Node<'_>) -> bool
    ensures { result ≡ is_kept_child holder (view node.now) }
{
    is_child(holder, node.kind) && node.id != 0
}

// ---- new children

fn may_come(holder: Holder, form: BlockForm) -> bool
    ensures { result ≡ may_come holder form }
{
    match form {
        BlockForm::Paragraph | BlockForm::Heading(_) | BlockForm::Rule => match holder {
            Holder::Body => true,
            Holder::List => false,
        },
        BlockForm::Item => match holder {
            Holder::Body => false,
            Holder::List => true,
        },
        BlockForm::NoBlock => false,
    }
}

/// What is wrong with a rule that holds these nodes.
fn if_any_held(nodes: &[Node<'_>]) -> Option<ContentWhy>
    ensures { if_any result ≡ if_any_held (views nodes.now) }
{
    match nodes.first() {
        None => None,
        Some(_) => Some(ContentWhy::Element),
    }
}

fn is_rule(form: BlockForm) -> bool
    ensures { result ≡ is_rule form }
{
    match form {
        BlockForm::Rule => true,
        BlockForm::Paragraph | BlockForm::Heading(_) | BlockForm::Item | BlockForm::NoBlock =>
            false,
    }
}

/// Adds what is wrong inside a new block.
fn visit_inside(
    alloc: Global,
    page: &Page<'_, '_>,
    form: BlockForm,
    node: &Node<'_>,
    found: &mut Faults,
) -> Result<(), NoMemory>
    requires { IsPageOf [] [] page.now }
    ensures { (same : Tree → Tree → Bool) → TellsSame same → OnOk result ((ws : List ContentWhy) → HasFaults found.old ws
        → HasFaults found.new (ws ++ inside_faults same form (view node.now))) }
{
    let children = node.children.as_slice();
    if is_rule(form) {
        found.add_any(if_any_held(children));
        return Ok(());
    }
    visit_all(alloc, page, outermost(node), children, found)?;
    Ok(())
}

/// Adds what is wrong with a new child.
fn visit_new(
    alloc: Global,
    page: &Page<'_, '_>,
    holder: Holder,
    node: &Node<'_>,
    found: &mut Faults,
) -> Result<(), NoMemory>
    requires { IsPageOf [] [] page.now }
    ensures { (same : Tree → Tree → Bool) → TellsSame same → OnOk result ((ws : List ContentWhy) → HasFaults found.old ws
        → HasFaults found.new (ws ++ new_faults same holder (edit_shape (label (view node.now)).kind).form (view node.now))) }
{
    let form = node.kind.edit_shape().form;
    if !may_come(holder, form) {
        found.add(ContentWhy::Element);
        return Ok(());
    }
    visit_inside(alloc, page, form, node, found)?;
    Ok(())
}

/// Adds what is wrong with a child; white space and kept children aren't looked into.
fn visit_child(
    alloc: Global,
    page: &Page<'_, '_>,
    holder: Holder,
    node: &Node<'_>,
    found: &mut Faults,
) -> Result<(), NoMemory>
    requires { IsPageOf [] [] page.now }
    ensures { (same : Tree → Tree → Bool) → TellsSame same → OnOk result ((ws : List ContentWhy) → HasFaults found.old ws
        → HasFaults found.new (ws ++ child_faults same holder (view node.now))) }
{
    if is_space(node.kind) || node.id != 0 {
        return Ok(());
    }
    visit_new(alloc, page, holder, node, found)?;
    Ok(())
}

// ---- all children

fn any_kept_child(holder: Holder, nodes: &[Node<'_>]) -> bool
    ensures { result ≡ any_kept_child holder (views nodes.now) }
{
    for node in nodes {
        if is_kept_child(holder, node) {
            return true;
        }
    }
    false
}

/// What is wrong where no item of a list is left.
fn empty_fault(holder: Holder, nodes: &[Node<'_>]) -> Option<ContentWhy>
    ensures { if_any result ≡ empty_fault holder (views nodes.now) }
{
    match holder {
        Holder::Body => None,
        Holder::List => {
            if any_kept_child(Holder::List, nodes) {
                None
            } else {
                Some(ContentWhy::EmptyList)
            }
        }
    }
}

/// What holds children that come and go: the body, or else a list.
pub fn holder_of(kind: Kind) -> Holder
    ensures { result ≡ holder_of kind }
{
    match kind {
        Kind::Body => Holder::Body,
        _ => Holder::List,
    }
}

/// Adds what is wrong with children.
fn visit_children(
    alloc: Global,
    page: &Page<'_, '_>,
    holder: Holder,
    nodes: &[Node<'_>],
    found: &mut Faults,
) -> Result<(), NoMemory>
    requires { IsPageOf [] [] page.now }
    ensures { (same : Tree → Tree → Bool) → TellsSame same → OnOk result ((ws : List ContentWhy) → HasFaults found.old ws
        → HasFaults found.new (ws ++ all_child_faults same holder (views nodes.now))) }
{
    for node in nodes {
        visit_child(alloc, page, holder, node, found)?;
    }
    Ok(())
}

/// Why the children of `new` can't be written, a node whose children come and go. What kept children
/// hold isn't looked into.
#[tactic(auto, unfolding(crate::specs::Children::bad_children))]
pub fn bad_children(alloc: Global, new: &Node<'_>) -> Result<Option<ContentWhy>, NoMemory>
    ensures { (same : Tree → Tree → Bool) → TellsSame same → IfOk result (λ why. why ≡ bad_children same (view new.now)) }
{
    let page = no_page(alloc);
    let holder = holder_of(new.kind);
    let mut found = Faults::none();
    visit_children(alloc, &page, holder, new.children.as_slice(), &mut found)?;
    found.add_any(empty_fault(holder, new.children.as_slice()));
    Ok(found.first())
}
