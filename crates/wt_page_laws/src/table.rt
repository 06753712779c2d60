//! Where the lines of a table are.
ghost use Rattle.std.specs.Prelude.{List};
ghost use Rattle.wt_lines.specs.declared.kind.LineKind.{LineKind as Kind};
ghost use Rattle.wt_tables.specs.Parts.{table_of};
ghost use Rattle.wt_page_laws.specs.TableLayout.{IsLaidOut};

/// The lines of a table are laid out in its parts: in a delimiter is no line that begins a part,
/// captions come before any row or cell, each part has one line that begins it, and each row but the
/// first begins with its line.
pub fn parts_of_tables<L>()
    ensures { (kind_of : L → Kind) (first : L) (inside : List L)
        → IsLaidOut kind_of first inside (table_of kind_of first inside) }
{}
