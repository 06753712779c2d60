//! Whether an edited node has the kind and the plain view of its page's node, where each group of the
//! edited tree shows what the page's group with its number shows.

ghost use Rattle.std.specs.Prelude.{◌≡◌, [], ◌∷◌, ◌++◌, OnOk, IfOk, Bool, List, map, option_map};
ghost use Rattle.std.specs.Bool.{Decides};
ghost use Rattle.wt_tree.specs.Plain.{plain, face};
ghost use Rattle.wt_tree.specs.Stream.{signs, signs_of_all, byte, bracket, opens, closes};
ghost use Rattle.wt_tree.specs.Tree.{Tree, tree, label};
ghost use Rattle.wt_tree.specs.View.{view, views, label_of};
ghost use Rattle.wt_tree.specs.declared.node.Node.{out-Node};
ghost use Rattle.wt_original.specs.Gathered.{kept_view};
ghost use Rattle.wt_original.specs.Page.{TellsSame, node_or, restored, restored_all, is_unchanged};
ghost use Rattle.wt_original.specs.PageViews.{kept_in, page_view, face_of, mark_of, marks_of};

use crate::kept::Kept;
use crate::page::Page;
use std::alloc::{AllocError, Global};
use wt_tree::{Attr, DataMw, Kind, Node, Showing, same_attrs, same_data, same_kind};

/// An element's kind with its attributes, and what an extension has beside.
#[derive(Clone, Copy)]
pub struct Face<'n> {
    pub kind: Kind,
    pub attrs: &'n [Attr],
    pub mw: Option<&'n DataMw>,
}

/// A plain view as it is read from left to right: a byte of its characters, and where an element
/// opens or closes.
#[derive(Clone, Copy)]
pub enum Shown<'n> {
    Byte(u8),
    Open(Face<'n>),
    Close,
}

fn face_in<'n>(node: &'n Node<'_>) -> Face<'n>
    ensures { face_of result ≡ face (label_of (out-Node node.now)) }
{
    Face {
        kind: node.kind,
        attrs: node.attrs(),
        mw: node.mw(),
    }
}

fn push_bytes(out: &mut Vec<Shown<'_>>, bytes: &[u8]) -> Result<(), AllocError>
    ensures { OnOk result (marks_of out.new.items ≡ marks_of out.old.items ++ map byte bytes.now) }
{
    for byte in bytes {
        out.push(Shown::Byte(*byte))?;
    }
    Ok(())
}

fn open<'n>(out: &mut Vec<Shown<'n>>, node: &'n Node<'_>) -> Result<(), AllocError>
    ensures { OnOk result (marks_of out.new.items ≡ marks_of out.old.items ++ bracket (opens (face (label_of (out-Node node.now)))) ∷ []) }
{
    let face = face_in(node);
    out.push(Shown::Open(face))?;
    Ok(())
}

fn close(out: &mut Vec<Shown<'_>>) -> Result<(), AllocError>
    ensures { OnOk result (marks_of out.new.items ≡ marks_of out.old.items ++ bracket closes ∷ []) }
{
    out.push(Shown::Close)?;
    Ok(())
}

/// Appends what a node of the page shows.
#[cycle(show)]
fn show<'n>(out: &mut Vec<Shown<'n>>, node: &'n Node<'_>) -> Result<(), AllocError>
    ensures { OnOk result (marks_of out.new.items ≡ marks_of out.old.items ++ signs (view node.now)) }
{
    match node.kind.showing() {
        Showing::Characters => push_bytes(out, node.shown().as_bytes())?,
        Showing::Inside => show_all(out, node.children.as_slice())?,
        Showing::Nothing => {}
        Showing::Element => {
            open(out, node)?;
            show_all(out, node.children.as_slice())?;
            close(out)?;
        }
    }
    Ok(())
}

#[cycle(show)]
fn show_all<'n>(out: &mut Vec<Shown<'n>>, nodes: &'n [Node<'_>]) -> Result<(), AllocError>
    ensures { OnOk result (marks_of out.new.items ≡ marks_of out.old.items ++ signs_of_all (views nodes.now)) }
{
    for node in nodes {
        show(out, node)?;
    }
    Ok(())
}

/// The node of the page, where there is one.
fn show_either<'n>(
    out: &mut Vec<Shown<'n>>,
    kept: Option<Kept<'n, '_>>,
    node: &'n Node<'_>,
) -> Result<(), AllocError>
    ensures { OnOk result (marks_of out.new.items ≡ marks_of out.old.items ++ signs (node_or (view node.now) (option_map kept_view kept.entry))) }
{
    match kept {
        Some(kept) => show(out, kept.node)?,
        None => show(out, node)?,
    }
    Ok(())
}

/// Appends what a node of the edited tree shows, its groups by the page.
#[cycle(restore)]
fn show_restored<'n>(
    out: &mut Vec<Shown<'n>>,
    page: &'n Page<'_, '_>,
    node: &'n Node<'_>,
) -> Result<(), AllocError>
    ensures { OnOk result (marks_of out.new.items ≡ marks_of out.old.items ++ signs (restored (kept_in page.now) (view node.now))) }
{
    if node.kind.is_group() {
        show_either(out, page.find(node.id), node)?;
    } else {
        show_restored_inside(out, page, node)?;
    }
    Ok(())
}

/// The same of a node that is no group.
#[cycle(restore)]
fn show_restored_inside<'n>(
    out: &mut Vec<Shown<'n>>,
    page: &'n Page<'_, '_>,
    node: &'n Node<'_>,
) -> Result<(), AllocError>
    ensures { OnOk result (marks_of out.new.items
        ≡ marks_of out.old.items ++ signs (tree (label_of (out-Node node.now)) (restored_all (kept_in page.now) (views (out-Node node.now).children)))) }
{
    match node.kind.showing() {
        Showing::Characters => push_bytes(out, node.shown().as_bytes())?,
        Showing::Inside => show_all_restored(out, page, node.children.as_slice())?,
        Showing::Nothing => {}
        Showing::Element => {
            open(out, node)?;
            show_all_restored(out, page, node.children.as_slice())?;
            close(out)?;
        }
    }
    Ok(())
}

#[cycle(restore)]
fn show_all_restored<'n>(
    out: &mut Vec<Shown<'n>>,
    page: &'n Page<'_, '_>,
    nodes: &'n [Node<'_>],
) -> Result<(), AllocError>
    ensures { OnOk result (marks_of out.new.items ≡ marks_of out.old.items ++ signs_of_all (restored_all (kept_in page.now) (views nodes.now))) }
{
    for node in nodes {
        show_restored(out, page, node)?;
    }
    Ok(())
}

// ---- two plain views

fn same_face(a: Face<'_>, b: Face<'_>) -> bool
    ensures { Decides result (face_of a.entry ≡ face_of b.entry) }
{
    if !same_kind(a.kind, b.kind) {
        return false;
    }
    if !same_attrs(a.attrs, b.attrs) {
        return false;
    }
    same_data(a.mw, b.mw)
}

fn same_byte(a: u8, b: u8) -> bool
    ensures { Decides result (a ≡ b) }
{
    a == b
}

fn same_mark(a: Shown<'_>, b: Shown<'_>) -> bool
    ensures { Decides result (mark_of a.entry ≡ mark_of b.entry) }
{
    match (a, b) {
        (Shown::Byte(a), Shown::Byte(b)) => same_byte(a, b),
        (Shown::Open(a), Shown::Open(b)) => same_face(a, b),
        (Shown::Close, Shown::Close) => true,
        (Shown::Byte(_), Shown::Open(_)) => false,
        (Shown::Byte(_), Shown::Close) => false,
        (Shown::Open(_), Shown::Byte(_)) => false,
        (Shown::Open(_), Shown::Close) => false,
        (Shown::Close, Shown::Byte(_)) => false,
        (Shown::Close, Shown::Open(_)) => false,
    }
}

fn same_marks(a: &[Shown<'_>], b: &[Shown<'_>]) -> bool
    ensures { Decides result (marks_of a.now ≡ marks_of b.now) }
{
    if a.len() != b.len() {
        return false;
    }
    for at in 0..a.len() {
        if !same_mark(a[at], b[at]) {
            return false;
        }
    }
    true
}

/// What a node of the page shows.
fn shown_of<'n>(alloc: Global, node: &'n Node<'_>) -> Result<Vec<Shown<'n>>, AllocError>
    ensures { IfOk result (λ v. marks_of v.items ≡ signs (view node.now)) }
{
    let mut out = Vec::new(alloc);
    show(&mut out, node)?;
    Ok(out)
}

/// What a node of the edited tree shows, its groups by the page.
fn restored_of<'n>(
    alloc: Global,
    page: &'n Page<'_, '_>,
    node: &'n Node<'_>,
) -> Result<Vec<Shown<'n>>, AllocError>
    ensures { IfOk result (λ v. marks_of v.items ≡ signs (restored (kept_in page.now) (view node.now))) }
{
    let mut out = Vec::new(alloc);
    show_restored(&mut out, page, node)?;
    Ok(out)
}

/// Whether the plain views are the same.
fn same_plain(
    alloc: Global,
    page: &Page<'_, '_>,
    node: &Node<'_>,
    old: &Node<'_>,
) -> Result<bool, AllocError>
    ensures { IfOk result (λ same. Decides same (plain (restored (kept_in page.now) (view node.now)) ≡ plain (view old.now))) }
{
    let left = restored_of(alloc, page, node)?;
    let right = shown_of(alloc, old)?;
    let a = left.as_slice();
    let b = right.as_slice();
    let same = same_marks(a, b);
    Ok(same)
}

/// The kind of the page's node where the node is a group.
fn restored_kind(page: &Page<'_, '_>, node: &Node<'_>) -> Kind
    ensures { result ≡ (label (restored (kept_in page.now) (view node.now))).kind }
{
    if !node.kind.is_group() {
        return node.kind;
    }
    match page.find(node.id) {
        Some(kept) => kept.node.kind,
        None => node.kind,
    }
}

fn same_kinds(page: &Page<'_, '_>, node: &Node<'_>, old: &Node<'_>) -> bool
    ensures { Decides result ((label (restored (kept_in page.now) (view node.now))).kind ≡ (label (view old.now)).kind) }
{
    let kind = restored_kind(page, node);
    let same = same_kind(kind, old.kind);
    same
}

/// Whether the kind and the plain view are the same.
fn is_same(
    alloc: Global,
    page: &Page<'_, '_>,
    node: &Node<'_>,
    old: &Node<'_>,
) -> Result<bool, AllocError>
    ensures { IfOk result (λ same. Decides same
        (((label (restored (kept_in page.now) (view node.now))).kind ≡ (label (view old.now)).kind) ×
        (plain (restored (kept_in page.now) (view node.now)) ≡ plain (view old.now)))) }
{
    if !same_kinds(page, node, old) {
        return Ok(false);
    }
    let same = same_plain(alloc, page, node, old)?;
    Ok(same)
}

/// Whether a node of the edited tree is as its page's node was: it is a group, or has the same kind
/// and the same plain view. It takes time in the size of both nodes.
pub fn is_unchanged(
    alloc: Global,
    page: &Page<'_, '_>,
    old: Kept<'_, '_>,
    node: &Node<'_>,
) -> Result<bool, AllocError>
    ensures { (same : Tree → Tree → Bool) → TellsSame same
        → IfOk result (λ answer. answer ≡ is_unchanged (page_view same page.now) (kept_view old.entry) (view node.now)) }
{
    if old.node.kind.is_group() {
        return Ok(true);
    }
    let answer = is_same(alloc, page, node, old.node)?;
    Ok(answer)
}
