//! Comments, include tags, calls and islands that an edited tree still has, looked for in a new page, in which no
//! other may be.

ghost use Rattle.std.specs.Prelude.{◌≡◌, ◌≤◌, ◌↔◌, ◌∷◌, ◌++◌, ℕ, List, drop, length, map, option_map, take, IfOk, OnOk};
ghost use Rattle.std.specs.Bool.{Decides};
ghost use Rattle.wt_tree.specs.View.{view};
ghost use Rattle.wt_checks.specs.Places.{page_of, places};
ghost use Rattle.wt_checks.specs.View.{all_seen, indexed, seen};
ghost use Rattle.wt_visible.specs.KeptMarks.{is_mark, is_own, mark_at, marks, source_at, sources, still, still_at, there, HasNoMore, IsWithin, Keeps, KeepsEach, KeepsInOrder, KeepsKind, KeepsMarks, KeepsOrder};
ghost use Rattle.wt_visible.specs.Tally.{trimmed, StandAmong};

use crate::tally::{Tally, trimmed};
use std::alloc::Global;
use wt_checks::{Visit, original, preorder, same_kind};
use wt_span::{NoMemory, Str};
use wt_tree::{Kind, Node, flat};

/// Whether a node is of this kind and is outside groups.
fn is_own(kind: Kind, visit: Visit<'_, '_>) -> bool
    ensures { result ≡ is_own kind (seen visit.entry) }
{
    visit.node.id != 0 && same_kind(visit.node.kind, kind)
}

/// Appends the source of a node that is of this kind.
fn push_source(
    alloc: Global,
    out: &mut Vec<Str>,
    kind: Kind,
    visit: Visit<'_, '_>,
) -> Result<(), NoMemory>
    ensures { OnOk result (out.new.items ≡ out.old.items ++ source_at kind (seen visit.entry)) }
{
    if !is_own(kind, visit) {
        return Ok(());
    }
    let source = flat(alloc, visit.node)?;
    out.push(source)?;
    Ok(())
}

/// Appends the source of the page's node of this kind that an edited one is.
fn push_there(
    alloc: Global,
    out: &mut Vec<Str>,
    kind: Kind,
    original: Option<Visit<'_, '_>>,
) -> Result<(), NoMemory>
    ensures { OnOk result (out.new.items ≡ out.old.items ++ there kind (option_map seen original.entry)) }
{
    match original {
        None => Ok(()),
        Some(visit) => {
            push_source(alloc, out, kind, visit)?;
            Ok(())
        }
    }
}

fn push_still(
    alloc: Global,
    out: &mut Vec<Str>,
    kind: Kind,
    index: &[Visit<'_, '_>],
    visit: Visit<'_, '_>,
) -> Result<(), NoMemory>
    ensures { OnOk result (out.new.items ≡ out.old.items ++ still_at kind (indexed index.now) (seen visit.entry)) }
{
    if !is_own(kind, visit) {
        return Ok(());
    }
    push_there(alloc, out, kind, original(index, visit.node.id))?;
    Ok(())
}

/// The sources of a page's nodes of this kind.
fn sources(alloc: Global, kind: Kind, page: &[Visit<'_, '_>]) -> Result<Vec<Str>, NoMemory>
    ensures { IfOk result (λ xs. xs.items ≡ sources kind (all_seen page.now)) }
{
    let mut out = Vec::new(alloc);
    for visit in page {
        push_source(alloc, &mut out, kind, *visit)?;
    }
    Ok(out)
}

/// The sources of the page's nodes of this kind that an edited tree still has.
fn still(
    alloc: Global,
    kind: Kind,
    index: &[Visit<'_, '_>],
    edited: &[Visit<'_, '_>],
) -> Result<Vec<Str>, NoMemory>
    ensures { IfOk result (λ xs. xs.items ≡ still kind (indexed index.now) (all_seen edited.now)) }
{
    let mut out = Vec::new(alloc);
    for visit in edited {
        push_still(alloc, &mut out, kind, index, *visit)?;
    }
    Ok(out)
}

/// Whether two sources are the same.
fn is_same(source: &Str, other: &Str) -> bool
    ensures { Decides result (source.now ≡ other.now) }
{
    source.as_str() == other.as_str()
}

/// Whether two sources are the same, without the white space at their ends.
fn is_alike(source: &Str, other: &Str) -> bool
    ensures { Decides result (trimmed source.now ≡ trimmed other.now) }
{
    trimmed(source) == trimmed(other)
}

/// Whether two lists have the same sources in the same order, without the white space at their ends.
fn are_alike(sources: &[Str], others: &[Str]) -> bool
    ensures { Decides result (map trimmed sources.now ≡ map trimmed others.now) }
{
    if sources.len() != others.len() {
        return false;
    }
    for at in 0..sources.len() {
        let alike = is_alike(&sources[at], &others[at]);
        if !alike {
            return false;
        }
    }
    true
}

/// How many of the first texts of two lists are the same.
fn same_at_start(texts: &[Str], others: &[Str]) -> usize
    ensures texts { result ≤ length texts.now }
    ensures others { result ≤ length others.now }
    ensures same { take result texts.now ≡ take result others.now }
{
    for at in 0..texts.len() {
        if at >= others.len() {
            return at;
        }
        let same = is_same(&texts[at], &others[at]);
        if !same {
            return at;
        }
    }
    texts.len()
}

/// Whether each of these texts, trimmed, is among the others at least as often. Those at the start of both
/// lists aren't counted: mostly that is all of them.
fn stand_among(alloc: Global, texts: &[Str], others: &[Str]) -> Result<bool, NoMemory>
    ensures { IfOk result (λ among. Decides among (StandAmong (map trimmed texts.now) (map trimmed others.now))) }
{
    let same = same_at_start(texts, others);
    let among = are_counted(alloc, &texts[same..], &others[same..])?;
    Ok(among)
}

/// Whether each of these texts, trimmed, is among the others at least as often: all are counted.
fn are_counted(alloc: Global, texts: &[Str], others: &[Str]) -> Result<bool, NoMemory>
    ensures { IfOk result (λ among. Decides among (StandAmong (map trimmed texts.now) (map trimmed others.now))) }
{
    let mut tally = Tally::of(alloc, others)?;
    for text in texts {
        let taken = tally.take(trimmed(text))?;
        if !taken {
            return Ok(false);
        }
    }
    Ok(true)
}

/// How many of them are found, where so many were before this one.
fn found_with(kept: &[Str], found: usize, source: &Str) -> usize
    requires { found ≤ length kept.now }
    ensures within { result ≤ length kept.now }
    ensures same { (rest : List (List ℕ)) → IsWithin (drop found kept.now) (source.now ∷ rest) ↔ IsWithin (drop result kept.now) rest }
{
    if found == kept.len() {
        return found;
    }
    if kept[found].as_str() == source.as_str() {
        return found + 1;
    }
    found
}

/// Whether the first list is left of the second one where some members are left out.
fn is_within(kept: &[Str], there: &[Str]) -> bool
    ensures { Decides result (IsWithin kept.now there.now) }
{
    let mut found = 0;
    for source in there {
        found = found_with(kept, found, source);
    }
    found == kept.len()
}

fn keeps(
    alloc: Global,
    kind: Kind,
    index: &[Visit<'_, '_>],
    edited: &[Visit<'_, '_>],
    new: &[Visit<'_, '_>],
) -> Result<bool, NoMemory>
    ensures { IfOk result (λ kept. Decides kept (Keeps kind (indexed index.now) (all_seen edited.now) (all_seen new.now))) }
{
    let kept = still(alloc, kind, index, edited)?;
    let there = sources(alloc, kind, new)?;
    let among = stand_among(alloc, kept.as_slice(), there.as_slice())?;
    Ok(among)
}

fn has_no_more(
    alloc: Global,
    kind: Kind,
    old: &[Visit<'_, '_>],
    new: &[Visit<'_, '_>],
) -> Result<bool, NoMemory>
    ensures { IfOk result (λ none. Decides none (HasNoMore kind (all_seen old.now) (all_seen new.now))) }
{
    let there = sources(alloc, kind, new)?;
    let were = sources(alloc, kind, old)?;
    let among = stand_among(alloc, there.as_slice(), were.as_slice())?;
    Ok(among)
}

/// Whether a new page has the nodes of this kind that the edited tree still has, and no others.
fn keeps_kind(
    alloc: Global,
    kind: Kind,
    index: &[Visit<'_, '_>],
    old: &[Visit<'_, '_>],
    edited: &[Visit<'_, '_>],
    new: &[Visit<'_, '_>],
) -> Result<bool, NoMemory>
    ensures { IfOk result (λ kept. Decides kept (KeepsKind kind (indexed index.now) (all_seen old.now) (all_seen edited.now) (all_seen new.now))) }
{
    let kept = keeps(alloc, kind, index, edited, new)?;
    if !kept {
        return Ok(false);
    }
    let no_more = has_no_more(alloc, kind, old, new)?;
    Ok(no_more)
}

fn keeps_order(
    alloc: Global,
    index: &[Visit<'_, '_>],
    edited: &[Visit<'_, '_>],
    new: &[Visit<'_, '_>],
) -> Result<bool, NoMemory>
    ensures { IfOk result (λ kept. Decides kept (KeepsOrder (indexed index.now) (all_seen edited.now) (all_seen new.now))) }
{
    let kept = still(alloc, Kind::Include, index, edited)?;
    let there = sources(alloc, Kind::Include, new)?;
    Ok(is_within(kept.as_slice(), there.as_slice()))
}

/// Whether a new page has the nodes of this kind that the edited tree still has, in its order, and no others.
fn keeps_in_order(
    alloc: Global,
    kind: Kind,
    index: &[Visit<'_, '_>],
    edited: &[Visit<'_, '_>],
    new: &[Visit<'_, '_>],
) -> Result<bool, NoMemory>
    ensures { IfOk result (λ kept. Decides kept (KeepsInOrder kind (indexed index.now) (all_seen edited.now) (all_seen new.now))) }
{
    let kept = still(alloc, kind, index, edited)?;
    let there = sources(alloc, kind, new)?;
    Ok(are_alike(kept.as_slice(), there.as_slice()))
}

fn keeps_each(
    alloc: Global,
    index: &[Visit<'_, '_>],
    old: &[Visit<'_, '_>],
    edited: &[Visit<'_, '_>],
    new: &[Visit<'_, '_>],
) -> Result<bool, NoMemory>
    ensures { IfOk result (λ kept. Decides kept (KeepsEach (indexed index.now) (all_seen old.now) (all_seen edited.now) (all_seen new.now))) }
{
    let comments = keeps_kind(alloc, Kind::Comment, index, old, edited, new)?;
    if !comments {
        return Ok(false);
    }
    let tags = keeps_kind(alloc, Kind::Include, index, old, edited, new)?;
    if !tags {
        return Ok(false);
    }
    let calls = keeps_in_order(alloc, Kind::Group, index, edited, new)?;
    if !calls {
        return Ok(false);
    }
    let islands = keeps_in_order(alloc, Kind::Island, index, edited, new)?;
    if !islands {
        return Ok(false);
    }
    let order = keeps_order(alloc, index, edited, new)?;
    Ok(order)
}

/// Whether a node is one of those that are looked for.
fn is_mark(visit: Visit<'_, '_>) -> bool
    ensures { result ≡ is_mark (seen visit.entry) }
{
    is_own(Kind::Comment, visit)
        || is_own(Kind::Include, visit)
        || is_own(Kind::Group, visit)
        || is_own(Kind::Island, visit)
}

/// Appends a node that is looked for.
fn push_mark<'t, 'a>(out: &mut Vec<Visit<'t, 'a>>, visit: Visit<'t, 'a>) -> Result<(), NoMemory>
    ensures { OnOk result (all_seen out.new.items ≡ all_seen out.old.items ++ mark_at (seen visit.entry)) }
{
    if !is_mark(visit) {
        return Ok(());
    }
    out.push(visit)?;
    Ok(())
}

/// Those of some nodes that are looked for.
fn marks_among<'t, 'a>(
    alloc: Global,
    visits: &[Visit<'t, 'a>],
) -> Result<Vec<Visit<'t, 'a>>, NoMemory>
    ensures { IfOk result (λ vs. all_seen vs.items ≡ marks (all_seen visits.now)) }
{
    let mut out = Vec::new(alloc);
    for visit in visits {
        push_mark(&mut out, *visit)?;
    }
    Ok(out)
}

/// Those of a tree's nodes that are looked for, in preorder.
fn marks_of<'t, 'a>(alloc: Global, root: &'t Node<'a>) -> Result<Vec<Visit<'t, 'a>>, NoMemory>
    ensures { IfOk result (λ vs. all_seen vs.items ≡ marks (places (view root.now))) }
{
    let visits = preorder(alloc, root)?;
    let marks = marks_among(alloc, visits.as_slice())?;
    Ok(marks)
}

/// Whether a new page keeps what an edited tree shows least of: the comments, include tags, calls and islands of
/// the page that it still has by their numbers. The calls and islands of the new page are these, in the order of
/// the edited tree and with the page's sources, without the white space round them. Each comment and tag is
/// there as often as in the edited tree, the tags in its order, and none more often than in the page. `index` has
/// the page's nodes by their numbers.
pub fn keeps_marks(
    alloc: Global,
    new: &Node<'_>,
    page: &Node<'_>,
    index: &[Visit<'_, '_>],
    edited: &Node<'_>,
) -> Result<bool, NoMemory>
    requires index { indexed index.now ≡ page_of (view page.now) }
    ensures { IfOk result (λ kept. Decides kept (KeepsMarks (view new.now) (view page.now) (view edited.now))) }
{
    let old = marks_of(alloc, page)?;
    let edited = marks_of(alloc, edited)?;
    let new = marks_of(alloc, new)?;
    let kept = keeps_each(
        alloc,
        index,
        old.as_slice(),
        edited.as_slice(),
        new.as_slice(),
    )?;
    Ok(kept)
}
