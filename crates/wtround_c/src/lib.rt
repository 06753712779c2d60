//! The call that the C library exports.
#![tactic(auto)]

ghost use Rattle.wt_replies.specs.Replies.{IsAnswered};
ghost use Rattle.wt_rooms.specs.Rooms.{room};

use std::alloc::Global;
use wt_replies::{Page, Word, answer};

/// Answers the words of a command over the bytes of `input` and the pages of a table: `answer` of
/// `wt_replies`, which says what each place is for.
#[unsafe(no_mangle)]
pub extern "C" fn wtround_proved_answer(
    alloc: Global,
    words: &[Word],
    input: &[u8],
    pages: &[Page],
    out: &mut [u8],
    out_length: &mut usize,
    line: &mut [u8],
    line_length: &mut usize,
    missing: &mut [u8],
    missing_length: &mut usize,
) -> u8
    ensures { IsAnswered words.now input.now pages.now (room out.old out.new out_length.new)
        (room line.old line.new line_length.new) (room missing.old missing.new missing_length.new) result }
{
    answer(
        alloc,
        words,
        input,
        pages,
        out,
        out_length,
        line,
        line_length,
        missing,
        missing_length,
    )
}
