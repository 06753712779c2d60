//! How many tables are open.

ghost use Rattle.std.specs.Prelude.{◌≡◌, ◌≤◌};
ghost use Rattle.wt_lines.specs.declared.kind.TheConstants.{MOST_TABLES};
ghost use Rattle.wt_tables.specs.Extents.{behind};

use wt_lines::LineKind;

/// How many tables are open after a line of this kind, at which `tables` are.
pub fn behind(tables: u32, kind: LineKind) -> u32
    requires { tables ≤ MOST_TABLES }
    ensures { result ≡ behind tables kind }
{
    match kind {
        LineKind::TableOpen => tables + 1,
        LineKind::TableEnd => tables.saturating_sub(1),
        _ => tables,
    }
}
