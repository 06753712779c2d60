ghost use Rattle.std.specs.Prelude.{◌≡◌, ◌++◌, IfOk, OnOk};
ghost use Rattle.wt_replies.specs.Indexes.{entries_of};
ghost use Rattle.wt_replies.specs.Tables.{missing_name, missing_names};

use crate::index::Index;
use std::alloc::Global;
use wt_span::{List, NoMemory, Str};

/// Appends a name, with a zero byte after it, where the table has no entry of it.
fn add_missing(index: &Index, name: &str, out: &mut List<u8>) -> Result<(), NoMemory>
    ensures { OnOk result (out.new ≡ out.old ++ missing_name (entries_of index.now) name.now) }
{
    if index.entry(name.as_bytes()).is_none() {
        out.extend_from_slice(name.as_bytes())?;
        out.push(0)?;
    }
    Ok(())
}

/// Those of these names that the table hasn't, each with a zero byte after it.
pub fn missing_names(alloc: Global, index: &Index, names: &[Str]) -> Result<List<u8>, NoMemory>
    ensures { IfOk result (λ bytes. bytes ≡ missing_names (entries_of index.now) names.now) }
{
    let mut out = List::new(alloc);
    for name in names {
        add_missing(index, name.as_str(), &mut out)?;
    }
    Ok(out)
}
