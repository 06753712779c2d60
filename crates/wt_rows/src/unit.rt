//! Units: a row of the outer level, or all rows of a table inside.

ghost use Rattle.std.specs.Prelude.{ℕ, suc, ◌≡◌, ◌<◌, ◌≤◌, ◌+◌, map, ◌^◌, length, drop, MatchOption, IfSome};
ghost use Rattle.wt_tables.specs.Extents.{inner_len};
ghost use Rattle.wt_tables.specs.Parts.{begins_part};
ghost use Rattle.wt_rows.specs.Units.{kind_at, after_kind, unit_len, plain_count};

use crate::row::RowAt;
use wt_lines::LineKind;
use wt_span::rest_of;

/// How many further tables are open after a row of this kind; none where it ends the table.
fn depth_behind(depth: usize, kind: LineKind) -> Option<usize>
    requires { depth < 2 ^ 63 }
    ensures next { MatchOption result ((go : ℕ → ℕ) → after_kind kind depth go ≡ 1) (λ d. (go : ℕ → ℕ) → after_kind kind depth go ≡ suc (go d)) }
    ensures within { IfSome result (λ d. d ≤ depth + 1) }
{
    match kind {
        LineKind::TableOpen => Some(depth + 1),
        LineKind::TableEnd => depth.checked_sub(1),
        _ => Some(depth),
    }
}

/// How many of these rows, which follow the one that opens a table, belong to the table.
fn inner_len(rows: &[RowAt]) -> usize
    ensures value { result ≡ inner_len (map kind_at rows.now) }
    ensures within { result ≤ length rows.now }
{
    let mut depth = 0;
    for (i, row) in rows.iter().enumerate() {
        let Some(next) = depth_behind(depth, row.kind) else {
            return i + 1;
        };
        depth = next;
    }
    rows.len()
}

/// How many rows the first unit has: a row, or all rows of the table that it opens.
pub fn unit_len(rows: &[RowAt]) -> usize
    requires { 0 < length rows.now }
    ensures value { result ≡ unit_len (map kind_at rows.now) }
    ensures some { 0 < result }
    ensures within { result ≤ length rows.now }
{
    match rows[0].kind {
        LineKind::TableOpen => 1 + inner_len(rest_of(rows, 1)),
        _ => 1,
    }
}

/// Whether a row of this kind begins a caption, a row of a table or cells.
pub fn begins_part(kind: LineKind) -> bool
    ensures { result ≡ begins_part kind }
{
    matches!(
        kind,
        LineKind::Caption | LineKind::Row | LineKind::Cell | LineKind::Header
    )
}

/// How many rows come before the first unit that begins a caption, a row of a table or cells.
pub fn plain_len(rows: &[RowAt]) -> usize
    ensures value { result ≡ plain_count 0 (map kind_at rows.now) }
    ensures within { result ≤ length rows.now }
{
    let mut at = 0;
    while at < rows.len() {
        if begins_part(rows[at].kind) {
            return at;
        }
        at += unit_len(rest_of(rows, at));
    }
    at
}
