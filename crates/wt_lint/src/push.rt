//! What was found, before it is put in order.

ghost use Rattle.std.specs.Prelude.{◌≡◌, ◌≤◌, ◌++◌, [], ◌∷◌, OnOk};
ghost use Rattle.wt_lint.specs.Findings.{whole};
ghost use Rattle.wt_lint.specs.Found.{as_all, as_found, each};

use crate::bare_finding::BareFinding;
use crate::finding::Kind;
use wt_span::NoMemory;
use wt_tree::Ranges;

/// Takes one more.
pub fn push_spot(
    found: &mut Vec<BareFinding>,
    kind: Kind,
    start: u32,
    end: u32,
) -> Result<(), NoMemory>
    requires { start ≤ end }
    ensures { OnOk result (each found.new.items ≡ each found.old.items ++ as_found kind (start, end) ∷ []) }
{
    found.push(BareFinding { start, end, kind })?;
    Ok(())
}

/// Takes a whole node, where it is so.
pub fn push_whole(
    found: &mut Vec<BareFinding>,
    is_found: bool,
    kind: Kind,
    range: Ranges,
) -> Result<(), NoMemory>
    requires { range.start ≤ range.end }
    ensures { OnOk result (each found.new.items ≡ each found.old.items
        ++ as_all kind (whole is_found range)) }
{
    if is_found {
        push_spot(found, kind, range.start, range.end)?;
    }
    Ok(())
}
