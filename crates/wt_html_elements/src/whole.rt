ghost use Rattle.std.specs.Prelude.{◌<◌, ◌^◌, length};
ghost use Rattle.wt_html_elements.specs.Answer.{Answers};

use crate::content::Content;
use crate::reader::Reader;
use std::alloc::Global;
use wt_html_reasons::HtmlRefusal;

/// The root element that the whole input stands for, or the place and the reason of its first
/// fault.
pub fn read_elements(alloc: Global, input: &[u8]) -> Result<Content, HtmlRefusal>
    requires { length input.now < 2 ^ 32 }
    ensures { Answers result input.now }
{
    let mut reader = Reader::new(alloc);
    reader.feed(alloc, input)?;
    reader.finish()
}
