//! The commands of `wt_pagetool` over buffers of a caller and a table of pages.
#![tactic(auto)]

ghost use Rattle.wt_replies.specs.Replies.{IsAnswered};
ghost use Rattle.wt_rooms.specs.Rooms.{room};

mod folder;
mod index;
mod missing;
mod ran;
mod reply;
mod source;
mod table;
mod words;
mod written;

use crate::reply::reply_to;
use std::alloc::Global;
pub use table::Page;
pub use words::Word;
use wt_pagetool::Status;
use wt_rooms::{hand_back, hand_nothing};

/// Answers the words of a command over the bytes of `input` and the pages of a table.
///
/// What `run` of `wt_pagetool` writes to its two sinks is put into `out` and `line`, and the result is its
/// status. Where it asked for pages that the table hasn't, these are put into `missing` instead, each name
/// with a zero byte after it, and the result is `MISSING`. The three lengths are those of the three
/// texts; where one is longer than its room, nothing is put anywhere, and the result is `SHORT`. Want of
/// memory may be the answer to any call; where it comes before or after `run`, the lengths are 0.
pub fn answer(
    alloc: Global,
    words: &[Word],
    input: &[u8],
    pages: &[Page],
    out: &mut [u8],
    out_length: &mut usize,
    line: &mut [u8],
    line_length: &mut usize,
    missing: &mut [u8],
    missing_length: &mut usize,
) -> u8
    ensures { IsAnswered words.now input.now pages.now (room out.old out.new out_length.new)
        (room line.old line.new line_length.new) (room missing.old missing.new missing_length.new) result }
{
    match reply_to(alloc, words, input, pages) {
        Ok(reply) => hand_back(
            &reply,
            out,
            out_length,
            line,
            line_length,
            missing,
            missing_length,
        ),
        Err(_) => {
            hand_nothing(out_length, line_length, missing_length);
            Status::NoMemory.code()
        }
    }
}
