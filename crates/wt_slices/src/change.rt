//! The insides of marked nodes that an edit replaces.

ghost use Rattle.std.specs.Prelude.{◌≡◌, ◌++◌, Bool, option_map, OnOk, IfOk};
ghost use Rattle.wt_tree.specs.Tree.{Tree, label};
ghost use Rattle.std.specs.List.{flat_map};
ghost use Rattle.wt_tree.specs.Tiling.{InPreorder};
ghost use Rattle.wt_tree.specs.View.{view, views};
ghost use Rattle.wt_tree.specs.declared.kind.Kind.TheVariants as kind;
ghost use Rattle.wt_original.specs.Page.{TellsSame};
ghost use Rattle.wt_checks.specs.Places.{page_of, places};
ghost use Rattle.wt_checks.specs.View.{all_seen, indexed, seen};
ghost use Rattle.wt_slices.specs.Changes.{all_insides, change_with, inside_of, insides, is_edited, marked, pair_at, place_in};
ghost use Rattle.wt_splice.specs.Views.{changes_view};
ghost use Rattle.wt_slices.specs.Views.{pair_of, pairs_of};

use std::alloc::Global;
use wt_checks::{Visit, is_children, is_content, original, preorder};
use wt_escape::spell_inline;
use wt_span::{NoMemory, Str};
use wt_splice::Change;
use wt_tree::{Kind, Mark, Node, Place, Ranges};

/// A marked node as it was in the page, and what it was edited to.
#[derive(Clone, Copy)]
pub struct Pair<'t, 'a> {
    pub old: &'t Node<'a>,
    pub new: &'t Node<'a>,
}

/// In what the content of a node of this kind is written.
pub fn place_in(kind: Kind) -> Place
    ensures { result ≡ place_in kind }
{
    kind.edit_shape().place
}

/// Whether a mark says that what a node holds was edited: its content, or which children it has.
fn is_edited(mark: Mark) -> bool
    ensures { result ≡ is_edited mark }
{
    is_content(mark) || is_children(mark)
}

fn push_pair<'t, 'a>(
    pairs: &mut Vec<Pair<'t, 'a>>,
    index: &[Visit<'t, 'a>],
    visit: Visit<'t, 'a>,
) -> Result<(), NoMemory>
    ensures { OnOk result (pairs_of pairs.new.items ≡ pairs_of pairs.old.items ++ pair_at (indexed index.now) (seen visit.entry)) }
{
    if !is_edited(visit.node.mark()) {
        return Ok(());
    }
    if let Some(old) = original(index, visit.node.id) {
        pairs.push(Pair {
            old: old.node,
            new: visit.node,
        })?;
    }
    Ok(())
}

fn pairs_in<'t, 'a>(
    alloc: Global,
    index: &[Visit<'t, 'a>],
    edited: &[Visit<'t, 'a>],
) -> Result<Vec<Pair<'t, 'a>>, NoMemory>
    ensures { IfOk result (λ ps. pairs_of ps.items ≡ flat_map (pair_at (indexed index.now)) (all_seen edited.now)) }
{
    let mut pairs = Vec::new(alloc);
    for visit in edited {
        push_pair(&mut pairs, index, *visit)?;
    }
    Ok(pairs)
}

/// The marked nodes of an edited tree in preorder, each with the page's node of its number.
pub fn marked_pairs<'t, 'a>(
    alloc: Global,
    index: &[Visit<'t, 'a>],
    edited: &'t Node<'a>,
) -> Result<Vec<Pair<'t, 'a>>, NoMemory>
    ensures { IfOk result (λ ps. pairs_of ps.items ≡ flat_map (pair_at (indexed index.now)) (places (view edited.now))) }
{
    let edited = preorder(alloc, edited)?;
    pairs_in(alloc, index, edited.as_slice())
}

/// Appends the inside of a node with these ranges, by what is written for it.
fn push_inside(found: &mut Vec<Change>, ranges: Option<Ranges>, by: Str) -> Result<(), NoMemory>
    ensures { OnOk result (changes_view found.new.items ≡ changes_view found.old.items ++ change_with ranges by) }
{
    let Some(ranges) = ranges else {
        return Ok(());
    };
    found.push(Change {
        start: ranges.start as usize + ranges.open_w as usize,
        end: ranges.end.saturating_sub(ranges.close_w) as usize,
        by,
    })?;
    Ok(())
}

/// Appends the inside of a node of the page, spelled as it was edited.
fn push_inside_of(
    alloc: Global,
    found: &mut Vec<Change>,
    old: Option<Visit<'_, '_>>,
    new: &Node<'_>,
) -> Result<(), NoMemory>
    ensures { (same : Tree → Tree → Bool) → TellsSame same
        → OnOk result (changes_view found.new.items ≡ changes_view found.old.items ++ inside_of same (option_map seen old.entry) (view new.now)) }
{
    match old {
        None => Ok(()),
        Some(visit) => {
            let old = visit.node;
            let by = spell_inline(alloc, old, new, place_in(old.kind))?;
            push_inside(found, old.ranges, by)?;
            Ok(())
        }
    }
}

/// Appends the insides of the nodes marked `content` in a tree.
#[cycle(walking)]
pub fn push_insides(
    alloc: Global,
    found: &mut Vec<Change>,
    index: &[Visit<'_, '_>],
    node: &Node<'_>,
) -> Result<(), NoMemory>
    ensures { (same : Tree → Tree → Bool) → TellsSame same
        → OnOk result (changes_view found.new.items ≡ changes_view found.old.items ++ insides same (indexed index.now) (view node.now)) }
{
    if is_content(node.mark()) {
        push_inside_of(alloc, found, original(index, node.id), node)?;
        return Ok(());
    }
    push_all_insides(alloc, found, index, node.children.as_slice())?;
    Ok(())
}

#[cycle(walking)]
fn push_all_insides(
    alloc: Global,
    found: &mut Vec<Change>,
    index: &[Visit<'_, '_>],
    nodes: &[Node<'_>],
) -> Result<(), NoMemory>
    ensures { (same : Tree → Tree → Bool) → TellsSame same
        → OnOk result (changes_view found.new.items ≡ changes_view found.old.items ++ all_insides same (indexed index.now) (views nodes.now)) }
{
    for node in nodes {
        push_insides(alloc, found, index, node)?;
    }
    Ok(())
}
