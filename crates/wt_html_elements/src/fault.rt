//! For what a byte is refused.

ghost use Rattle.std.specs.Prelude.{◌≡◌};
ghost use Rattle.wt_html_elements.specs.Faults.{mended_why};

use crate::signs::begins_character;
use wt_html_grammar::HtmlWhy;

/// A byte that continues no UTF-8 is refused for that.
pub fn mended(byte: u8, why: HtmlWhy) -> HtmlWhy
    ensures { result ≡ mended_why byte why }
{
    if begins_character(byte) {
        why
    } else {
        HtmlWhy::NotUtf8
    }
}
