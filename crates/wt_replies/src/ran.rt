ghost use Rattle.wt_replies.specs.Indexes.{entries_of};
ghost use Rattle.wt_replies.specs.Runs.{Answers};
ghost use Rattle.wt_replies.specs.Tables.{pages_of};

use crate::folder::TableFolder;
use crate::index::Index;
use crate::source::BufferSource;
use crate::written::Written;
use std::alloc::Global;
use wt_pagetool::run;
use wt_span::{List, Str};

/// What a call of `run` over buffers and a table came to.
#[derive(Drop)]
pub struct Ran<'i, 'p> {
    /// The number with which it ended.
    pub status: u8,
    /// The table with the names that it was asked for.
    pub folder: TableFolder<'i, 'p>,
    /// The answer.
    pub out: Written,
    /// The line of a refusal.
    pub line: Written,
}

/// Calls `run` over a buffer and the pages of a table.
pub fn run_over<'i, 'p>(
    alloc: Global,
    words: &List<Str>,
    input: &[u8],
    index: &'i Index<'p>,
) -> Ran<'i, 'p>
    ensures { Answers words.now input.now (pages_of (entries_of index.entry.now)) result.status
        result.out.bytes result.line.bytes result.folder.answered }
{
    let mut source = BufferSource::new(input);
    let mut folder = TableFolder::new(alloc, index);
    let mut out = Written::new(alloc);
    let mut line = Written::new(alloc);
    let status = run(alloc, words, &mut source, &mut folder, &mut out, &mut line);
    Ran {
        status,
        folder,
        out,
        line,
    }
}
