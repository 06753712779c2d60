//! Nodes of the page that are as they were, or show something else where they can't be written anew.

use crate::nowiki::nowiki_round;
use std::alloc::Global;
use wt_guards::{Role, Stretch, Thing, Unit};
use wt_known::{Block, Known};
use wt_original::{Kept, is_unchanged, shown_text};
use wt_span::{NoMemory, Str};
use wt_text_proposal::{role_in_line, source_of};
use wt_tree::{Kind, Node, flat};

/// Appends a node with what it writes.
pub fn push_thing(
    out: &mut Vec<Unit<'_>>,
    role: Role,
    source: Str,
    place: Option<Stretch>,
) -> Result<(), NoMemory> {
    out.push(Unit::Thing(Thing {
        role,
        source,
        place,
    }))?;
    Ok(())
}

/// Where a node is in the page; None of one that isn't there.
pub fn place_of(kept: &Option<Kept<'_, '_>>) -> Option<Stretch> {
    match kept {
        Some(kept) => Some(kept.place),
        None => None,
    }
}

/// Appends a node as it was in the page.
fn push_as_it_stood(
    alloc: Global,
    out: &mut Vec<Unit<'_>>,
    keeps: bool,
    old: Kept<'_, '_>,
) -> Result<(), NoMemory> {
    let source = flat(alloc, old.node)?;
    let role = if keeps {
        role_in_line(old.role, old.node, out.as_slice().last(), old.place)
    } else {
        old.role
    };
    push_thing(out, role, source, Some(old.place))
}

/// Whether what was appended last goes on in its line.
fn is_within_line(out: &[Unit<'_>]) -> bool {
    match out.last() {
        Some(unit) => source_of(unit).last() != Some(&b'\n'),
        None => false,
    }
}

/// Whether a node of the page is a comment that had a line of its own there, and is in the line of something else now.
fn loses_line(out: &[Unit<'_>], old: &Kept<'_, '_>) -> bool {
    matches!(
        old.role,
        Role::Mark {
            ends_line: true,
            ..
        }
    ) && is_within_line(out)
}

/// Appends such a comment, without its line break and the blanks that it had beside it.
fn push_in_line(
    alloc: Global,
    out: &mut Vec<Unit<'_>>,
    old: &Kept<'_, '_>,
) -> Result<(), NoMemory> {
    let line = flat(alloc, old.node)?;
    let source = Str::copy_of(alloc, line.as_str().trim())?;
    let role = Role::Mark {
        ends_line: false,
        began_line: true,
    };
    push_thing(out, role, source, Some(old.place))
}

/// Appends a node of the page, if it was there. What a link skips is no part of its text.
pub fn push_kept(
    alloc: Global,
    out: &mut Vec<Unit<'_>>,
    keeps: bool,
    kept: &Option<Kept<'_, '_>>,
    kind: Kind,
) -> Result<(), NoMemory> {
    match kept {
        Some(_) if matches!(kind, Kind::Skip) => Ok(()),
        Some(old) if keeps && loses_line(out.as_slice(), old) => push_in_line(alloc, out, old),
        Some(old) => push_as_it_stood(alloc, out, keeps, *old),
        None => Ok(()),
    }
}

/// Appends a node as it was in the page, where it shows what it showed; it says whether it does.
pub fn push_if_unchanged<'t, 'a>(
    alloc: Global,
    out: &mut Vec<Unit<'_>>,
    known: &Known<'t, 'a>,
    block: &Option<Block<'t, 'a>>,
    keeps: bool,
    kept: &Option<Kept<'_, '_>>,
    node: &Node<'_>,
) -> Result<bool, NoMemory> {
    let Some(old) = kept else {
        return Ok(false);
    };
    let Some(groups) = known.groups(block) else {
        return Ok(false);
    };
    if !is_unchanged(alloc, groups, *old, node)? {
        return Ok(false);
    }
    push_as_it_stood(alloc, out, keeps, *old)?;
    Ok(true)
}

/// Appends a `nowiki` or a reference as it was in the page, or what it shows now: of a `nowiki` between its tags.
pub fn push_shown<'t, 'a>(
    alloc: Global,
    out: &mut Vec<Unit<'_>>,
    known: &Known<'t, 'a>,
    block: &Option<Block<'t, 'a>>,
    keeps: bool,
    kept: &Option<Kept<'_, '_>>,
    node: &Node<'_>,
) -> Result<(), NoMemory> {
    if push_if_unchanged(alloc, out, known, block, keeps, kept, node)? {
        return Ok(());
    }
    if keeps
        && let Some(old) = kept
        && let Some(source) = nowiki_round(alloc, known, block, old.node, node)?
    {
        return push_thing(out, old.role, source, Some(old.place));
    }
    let text = shown_text(alloc, node)?;
    if !text.is_empty() {
        out.push(Unit::Copied(Str::from_string(text)))?;
    }
    Ok(())
}
