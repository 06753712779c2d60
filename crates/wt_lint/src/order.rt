//! The findings of a page in their order.

ghost use Rattle.std.specs.Prelude.{◌≡◌, ◌≤◌, ℕ, List, length, map, IfOk, OnOk};
ghost use Rattle.std.specs.BTreeSet.{insert_key};
ghost use Rattle.wt_annotated.specs.Reached.{AreReachedSlices};
ghost use Rattle.wt_span.specs.declared.limits.TheConstants.{PAGE_BYTES};
ghost use Rattle.wt_tree.specs.View.{view};
ghost use Rattle.wt_lint.specs.Cursors.{IsAt};
ghost use Rattle.wt_lint.specs.Findings.{in_order, order_of};
ghost use Rattle.wt_lint.specs.Found.{each, seen};
ghost use Rattle.wt_lint.specs.Lines.{as_located, findings, located};

use crate::bare_finding::BareFinding;
use crate::cursor::Cursor;
use crate::finding::Finding;
use crate::walk::spots_in;
use std::alloc::Global;
use std::collections::BTreeSet;
use wt_span::{List, NoMemory, PAGE_BYTES, Range};
use wt_tree::Annotated;

fn put(set: &mut BTreeSet<BareFinding>, spot: BareFinding) -> Result<(), NoMemory>
    ensures { OnOk result (each set.new.keys ≡ insert_key order_of (each set.old.keys) (seen spot)) }
{
    set.insert(spot)?;
    Ok(())
}

/// These in their order, each once.
fn in_order(alloc: Global, found: &[BareFinding]) -> Result<BTreeSet<BareFinding>, NoMemory>
    ensures { IfOk result (λ set. each set.keys ≡ in_order (each found.now)) }
{
    let mut set = BTreeSet::new(alloc);
    for spot in found {
        put(&mut set, *spot)?;
    }
    Ok(set)
}

/// A finding, where the cursor is at its start.
fn finding_at(cursor: Cursor, spot: BareFinding) -> Finding
    ensures { (page : List ℕ) → IsAt page spot.start cursor → as_located result ≡ located page (seen spot) }
{
    Finding {
        kind: spot.kind,
        at: Range {
            start: spot.start,
            end: spot.end,
        },
        line: cursor.line,
        column: cursor.column,
    }
}

/// These with their lines and columns.
fn with_lines(
    alloc: Global,
    page: &[u8],
    spots: BTreeSet<BareFinding>,
) -> Result<List<Finding>, NoMemory>
    requires { length page.now ≤ PAGE_BYTES }
    ensures { IfOk result (λ fs. map as_located fs ≡ map (located page.now) (each spots.keys)) }
{
    let mut spots = spots;
    let mut findings = List::new(alloc);
    let mut cursor = Cursor::first();
    while let Some(spot) = spots.pop_first() {
        cursor = cursor.moved(page, spot.start);
        findings.push(finding_at(cursor, spot))?;
    }
    Ok(findings)
}

/// The doubtful places of a page, by its tree: exactly those that `specs/Findings.antt` defines, each
/// once, in the order of their starts, then of their ends, then of their kinds as `Kind` lists them. What
/// a template gives isn't looked at.
///
/// `tree` has to be a tree of `page`, which has at most `PAGE_BYTES` bytes: the range of each node but
/// those in groups is a slice of it.
pub fn lint(alloc: Global, page: &str, tree: &Annotated<'_>) -> Result<List<Finding>, NoMemory>
    requires room { length page.now ≤ PAGE_BYTES }
    requires slices { AreReachedSlices page.now (view tree.now.body) }
    ensures { IfOk result (λ fs. map as_located fs ≡ findings page.now (view tree.now.body)) }
{
    let found = spots_in(alloc, page.as_bytes(), tree.body())?;
    let ordered = in_order(alloc, found.as_slice())?;
    with_lines(alloc, page.as_bytes(), ordered)
}
