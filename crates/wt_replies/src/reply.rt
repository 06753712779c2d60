ghost use Rattle.std.specs.Prelude.{◌≡◌, IfOk};
ghost use Rattle.wt_replies.specs.Indexes.{entries_of};
ghost use Rattle.wt_replies.specs.Replies.{IsTold, IsToldOver};
ghost use Rattle.wt_rooms.specs.ReplyView.{told_of};

use crate::index::Index;
use crate::missing::missing_names;
use crate::ran::run_over;
use crate::table::Page;
use crate::words::{Word, words_of};
use std::alloc::Global;
use wt_rooms::{Reply, told_by};
use wt_span::{List, NoMemory, Str};

/// Answers the words over a buffer and the pages of a table that has its index.
fn reply_over(
    alloc: Global,
    words: &List<Str>,
    input: &[u8],
    index: &Index,
) -> Result<Reply, NoMemory>
    ensures { IfOk result (λ reply. IsToldOver words.now input.now (entries_of index.now) (told_of reply)) }
{
    let ran = run_over(alloc, words, input, index);
    let missing = missing_names(alloc, index, ran.folder.answered())?;
    Ok(told_by(alloc, ran.status, ran.out.bytes, ran.line.bytes, missing))
}

/// Answers the words over a buffer and the pages of a table.
pub fn reply_to(
    alloc: Global,
    words: &[Word],
    input: &[u8],
    pages: &[Page],
) -> Result<Reply, NoMemory>
    ensures { IfOk result (λ reply. IsTold words.now input.now pages.now (told_of reply)) }
{
    let words = words_of(alloc, words)?;
    let index = Index::of(alloc, pages)?;
    reply_over(alloc, &words, input, &index)
}
