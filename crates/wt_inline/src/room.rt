//! Room for lists whose length is known: a list that grows takes the room of four for its first
//! member.

ghost use Rattle.std.specs.Prelude.{◌≡◌, [], IfOk};

use std::alloc::Global;
use wt_span::{List, NoMemory};

/// An empty list with room for so many members.
pub fn with_room<T>(alloc: Global, count: usize) -> Result<List<T>, NoMemory>
    ensures { IfOk result (λ l. l ≡ []) }
{
    let items = Vec::with_capacity(alloc, count)?;
    Ok(List::from_vec(items))
}
