//! What is doubtful in a text.

ghost use Rattle.std.specs.Prelude.{◌≡◌, ◌≤◌, ◌<◌, ◌^◌, ◌+◌, ◌-◌, ◌++◌, ◌&&◌, [], ◌∷◌};
ghost use Rattle.std.specs.Prelude.{true, false, not, length, IfOk, OnOk};
ghost use Rattle.wt_lint.specs.declared.finding.Kind.TheVariants as kind;
ghost use Rattle.wt_lint.specs.Found.{each, as_all};
ghost use Rattle.wt_lint.specs.Texts.{end_at, ends_table, is_front, pairs, run_at, runs};
ghost use Rattle.wt_lint.specs.Texts.{stands_first, table_ends, when};

use crate::bare_finding::BareFinding;
use crate::bytes::{blanks_behind, byte_at, run_len, slice};
use crate::finding::Kind;
use crate::push::push_spot;
use wt_span::{NoMemory, rest_of};

/// Takes the run of a byte that begins a text, where it has two or more of them.
fn push_run(
    found: &mut Vec<BareFinding>,
    kind: Kind,
    byte: u8,
    start: u32,
    bytes: &[u8],
) -> Result<(), NoMemory>
    requires { start + length bytes.now < 2 ^ 32 }
    ensures { OnOk result (each found.new.items ≡ each found.old.items
        ++ as_all kind (run_at byte start bytes.now)) }
{
    let count = run_len(byte, bytes);
    if count > 1 {
        push_spot(found, kind, start, start + count as u32)?;
    }
    Ok(())
}

/// Takes each whole run of two or more of a byte.
pub fn push_runs(
    found: &mut Vec<BareFinding>,
    kind: Kind,
    byte: u8,
    start: u32,
    bytes: &[u8],
) -> Result<(), NoMemory>
    requires { start + length bytes.now < 2 ^ 32 }
    ensures { OnOk result (each found.new.items ≡ each found.old.items
        ++ as_all kind (runs byte start false bytes.now)) }
{
    let mut behind = false;
    for at in 0..bytes.len() {
        if !behind {
            push_run(found, kind, byte, start + at as u32, rest_of(bytes, at))?;
        }
        behind = bytes[at] == byte;
    }
    Ok(())
}

/// Takes the two bytes of which the second is at this place, where both are of a pair: the one before is
/// the first of one (`held`) and this one is such a byte. Says whether this one is the first of a pair.
fn push_pair(
    found: &mut Vec<BareFinding>,
    kind: Kind,
    held: bool,
    is_such: bool,
    place: u32,
) -> Result<bool, NoMemory>
    requires few { place + 1 < 2 ^ 32 }
    requires behind { held ≡ true → 0 < place }
    ensures taken { OnOk result (each found.new.items ≡ each found.old.items
        ++ as_all kind (when (held && is_such) ((place - 1, place + 1) ∷ []))) }
    ensures held { IfOk result (λ next. next ≡ (is_such && not held)) }
{
    if !is_such {
        return Ok(false);
    }
    if held {
        push_spot(found, kind, place - 1, place + 1)?;
    }
    Ok(!held)
}

/// Takes each two of a byte that are side by side, from the left.
pub fn push_pairs(
    found: &mut Vec<BareFinding>,
    kind: Kind,
    byte: u8,
    start: u32,
    bytes: &[u8],
) -> Result<(), NoMemory>
    requires { start + length bytes.now < 2 ^ 32 }
    ensures { OnOk result (each found.new.items ≡ each found.old.items
        ++ as_all kind (pairs byte start bytes.now)) }
{
    let mut held = false;
    for at in 0..bytes.len() {
        let place = start + at as u32;
        held = push_pair(found, kind, held, bytes[at] == byte, place)?;
    }
    Ok(())
}

/// Whether only spaces and tabs come after the last line break, or in the whole text where it has none.
fn is_front(bytes: &[u8]) -> bool
    ensures { result ≡ is_front bytes.now }
{
    let blanks = blanks_behind(bytes);
    blanks == bytes.len() || bytes[bytes.len() - 1 - blanks] == b'\n'
}

/// Whether `|}` begins a text.
fn ends_table(bytes: &[u8]) -> bool
    ensures value { result ≡ ends_table bytes.now }
    ensures long { result ≡ true → 2 ≤ length bytes.now }
{
    byte_at(bytes, 0) == b'|' && byte_at(bytes, 1) == b'}'
}

/// Whether a place is the first of its line, blanks apart, or of the paragraph that begins at `from`.
fn stands_first(page: &[u8], from: u32, at: u32) -> bool
    requires { at ≤ length page.now }
    ensures { result ≡ stands_first page.now from at }
{
    is_front(slice(page, from, at))
}

/// Takes the `|}` that begins a text, where it is first on its line.
fn push_table_end(
    found: &mut Vec<BareFinding>,
    page: &[u8],
    from: u32,
    start: u32,
    bytes: &[u8],
) -> Result<(), NoMemory>
    requires few { start + length bytes.now < 2 ^ 32 }
    requires within { start + length bytes.now ≤ length page.now }
    ensures { OnOk result (each found.new.items ≡ each found.old.items
        ++ as_all kind.StrayTableEnd (end_at page.now from start bytes.now)) }
{
    if ends_table(bytes) && stands_first(page, from, start) {
        push_spot(found, Kind::StrayTableEnd, start, start + 2)?;
    }
    Ok(())
}

/// Takes each `|}` of a text that is first on its line of the paragraph that begins at `from`.
pub fn push_table_ends(
    found: &mut Vec<BareFinding>,
    page: &[u8],
    from: u32,
    start: u32,
    bytes: &[u8],
) -> Result<(), NoMemory>
    requires few { start + length bytes.now < 2 ^ 32 }
    requires within { start + length bytes.now ≤ length page.now }
    ensures { OnOk result (each found.new.items ≡ each found.old.items
        ++ as_all kind.StrayTableEnd (table_ends page.now from start bytes.now)) }
{
    for at in 0..bytes.len() {
        push_table_end(found, page, from, start + at as u32, rest_of(bytes, at))?;
    }
    Ok(())
}
