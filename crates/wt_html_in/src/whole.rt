ghost use Rattle.std.specs.Prelude.{◌≤◌, length};
ghost use Rattle.wt_html_in.specs.Answers.{Answers};
ghost use Rattle.wt_span.specs.declared.limits.TheConstants.{HTML_BYTES};

use crate::edited::Edited;
use crate::reader::Reader;
use crate::refusal::HtmlRefusal;
use bumpalo::Bump;
use std::alloc::Global;

/// What the whole input is: an edited page, or the reason why it is none. The nodes' texts lie in
/// the arena.
pub fn read_html<'a>(
    alloc: Global,
    input: &'a [u8],
    arena: &'a Bump<Global>,
) -> Result<Edited<'a>, HtmlRefusal>
    requires { length input.now ≤ HTML_BYTES }
    ensures { Answers result input.now }
{
    let mut reader = Reader::new(alloc, arena)?;
    reader.feed(input)?;
    reader.finish()
}
