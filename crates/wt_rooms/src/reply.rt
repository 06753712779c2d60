//! What a caller gets of a run.

ghost use Rattle.std.specs.Prelude.{◌≡◌};
ghost use Rattle.wt_rooms.specs.Rooms.{told_by};
ghost use Rattle.wt_rooms.specs.ReplyView.{told_of};

use std::alloc::Global;
use wt_span::List;

/// The status of a call for which a room is too small.
pub const SHORT: u8 = 100;

/// The status of a call that asked for pages which the table hasn't.
pub const MISSING: u8 = 101;

/// What a call hands back.
#[derive(Debug, Drop)]
pub struct Reply {
    /// The status of the command, or `MISSING`.
    pub status: u8,
    /// The answer.
    pub out: List<u8>,
    /// The line of a refusal.
    pub line: List<u8>,
    /// The names that the table hasn't, each with a zero byte after it.
    pub missing: List<u8>,
}

/// What the caller gets of a run that ended so, by the names that its table hasn't.
pub fn told_by(alloc: Global, status: u8, out: List<u8>, line: List<u8>, missing: List<u8>) -> Reply
    ensures { told_of result ≡ told_by status out line missing }
{
    if missing.as_slice().is_empty() {
        return Reply {
            status,
            out,
            line,
            missing,
        };
    }
    Reply {
        status: MISSING,
        out: List::new(alloc),
        line: List::new(alloc),
        missing,
    }
}
