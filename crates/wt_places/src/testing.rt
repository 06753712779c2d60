//! Whether slices of a page that are written anew lie in it one after the other, each in one of the places that may
//! be written anew.

ghost use Rattle.std.specs.Prelude.{◌≡◌, ◌≤◌, length, true, IfOk, IfSome};
ghost use Rattle.std.specs.List.{AllByRecursion};
ghost use Rattle.std.specs.Str.{IsCharBoundary};
ghost use Rattle.wt_splice.specs.Splice.{AreApart, AreAtBorders};
ghost use Rattle.wt_splice.specs.Views.{change_view, changes_view};
ghost use Rattle.wt_places.specs.Rewritten.{IsRewrittenIn, LiesIn, LiesInOne};

use crate::slot::Slot;
use std::alloc::Global;
use wt_span::{NoMemory, Str};
use wt_splice::{Change, spliced};

/// The first of the places from this one on that reaches up to `end`.
fn place_up_to(places: &[Slot], from: usize, end: usize) -> usize {
    let mut at = from;
    while at < places.len() && places[at].end < end {
        at += 1;
    }
    at
}

fn lies_in(place: Slot, change: &Change) -> bool
    ensures { result ≡ true → LiesIn place (change_view change.now) }
{
    place.start <= change.start && change.end <= place.end
}

/// Whether it lies in the place with this index.
fn lies_at(places: &[Slot], at: usize, change: &Change) -> bool
    ensures { result ≡ true → LiesInOne places.now (change_view change.now) }
{
    at < places.len() && lies_in(places[at], change)
}

/// Whether it comes after this place, and doesn't end before it begins.
fn stands_behind(at: usize, change: &Change) -> bool
    ensures from { result ≡ true → at ≤ (change_view change.now).start }
    ensures whole { result ≡ true → (change_view change.now).start ≤ (change_view change.now).end }
{
    at <= change.start && change.start <= change.end
}

/// Whether these slices of a page of `size` bytes lie in it one after the other, each in one of the places. The
/// places are in the order of the page, so each is looked at once; where they aren't, some that would do are refused.
fn are_within(changes: &[Change], places: &[Slot], size: usize) -> bool
    ensures apart { result ≡ true → AreApart 0 (changes_view changes.now) size }
    ensures within { result ≡ true → AllByRecursion (LiesInOne places.now) (changes_view changes.now) }
{
    let mut at = 0;
    let mut from = 0;
    for change in changes {
        from = place_up_to(places, from, change.end);
        if !stands_behind(at, change) || !lies_at(places, from, change) {
            return false;
        }
        at = change.end;
    }
    at <= size
}

/// Whether both ends of a slice are places of the page between its characters.
fn is_at_borders(page: &str, change: &Change) -> bool
    ensures start { result ≡ true → IsCharBoundary page.now (change_view change.now).start }
    ensures end { result ≡ true → IsCharBoundary page.now (change_view change.now).end }
{
    page.is_char_boundary(change.start) && page.is_char_boundary(change.end)
}

fn are_at_borders(page: &str, changes: &[Change]) -> bool
    ensures { result ≡ true → AreAtBorders page.now (changes_view changes.now) }
{
    for change in changes {
        if !is_at_borders(page, change) {
            return false;
        }
    }
    true
}

/// The page with these slices written anew, where they lie in it one after the other, each in one of the places and
/// between its characters.
pub fn tested(
    alloc: Global,
    page: &str,
    changes: &[Change],
    places: &[Slot],
) -> Result<Option<Str>, NoMemory>
    ensures { IfOk result (λ o. IfSome o (λ new. IsRewrittenIn page.now places.now new)) }
{
    if !are_within(changes, places, page.len()) || !are_at_borders(page, changes) {
        return Ok(None);
    }
    let new = spliced(alloc, page, changes)?;
    Ok(Some(new))
}
