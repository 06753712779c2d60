//! The new page of an edit.

ghost use Rattle.std.specs.Prelude.{◌≡◌, ◌++◌, drop, OnOk, IfOk};
ghost use Rattle.std.specs.Str.{IsCharBoundary};
ghost use Rattle.wt_splice.specs.Splice.{between, spliced, AreAtBorders};
ghost use Rattle.wt_splice.specs.Views.{changes_view};

use std::alloc::Global;
use wt_span::{NoMemory, Str};

/// A slice of the page, in bytes: its first byte and the byte after its last one, and what is in its place.
#[derive(Drop)]
pub struct Change {
    pub start: usize,
    pub end: usize,
    pub by: Str,
}

/// What is in the page between two places of it; nothing where the second isn't behind the first.
fn slice_between(page: &str, from: usize, to: usize) -> &str
    requires from { IsCharBoundary page.now from }
    requires to { IsCharBoundary page.now to }
    ensures { result.now ≡ between from to page.entry.now }
{
    if from >= to {
        return "";
    }
    &page[from..to]
}

/// Appends what is in the page between two places.
fn push_between(out: &mut Str, page: &str, from: usize, to: usize) -> Result<(), NoMemory>
    requires from { IsCharBoundary page.now from }
    requires to { IsCharBoundary page.now to }
    ensures { OnOk result (out.new ≡ out.old ++ between from to page.now) }
{
    out.push_str(slice_between(page, from, to))
}

/// Appends what is in the page from a place on.
#[tactic(auto, using(crate::proofs::Splicing::between_rest))]
fn push_rest(out: &mut Str, page: &str, from: usize) -> Result<(), NoMemory>
    requires { IsCharBoundary page.now from }
    ensures { OnOk result (out.new ≡ out.old ++ drop from page.now) }
{
    push_between(out, page, from, page.len())
}

/// The page with these slices replaced, which lie in it one after the other, each between two places of it
/// between its characters.
#[tactic(auto, unfolding(crate::specs::Splice::spliced))]
pub fn spliced(alloc: Global, page: &str, changes: &[Change]) -> Result<Str, NoMemory>
    requires { AreAtBorders page.now (changes_view changes.now) }
    ensures { IfOk result (λ new. new ≡ spliced page.now (changes_view changes.now)) }
{
    let mut out = Str::new(alloc);
    let mut at = 0;
    for change in changes {
        push_between(&mut out, page, at, change.start)?;
        out.push_str(change.by.as_str())?;
        at = change.end;
    }
    push_rest(&mut out, page, at)?;
    Ok(out)
}
