ghost use Rattle.std.specs.Prelude.{◌≡◌};

use wt_html_grammar::HtmlWhy;
use wt_schema::FitWhy;
use wt_span::NoMemory;

/// Why an input is no page.
///
/// - `Html`: it isn't well-formed; `place` is the length in bytes of its longest prefix with which
///   some well-formed input begins.
/// - `Unfit`: the first element that doesn't fit, by its number, and the first reason for it. The
///   elements are counted from 1 in document order.
/// - `NoMemory`: no memory was found. It is answered too where one text has 2^32 - 1 bytes or more.
#[derive(Clone, Copy, Debug, PartialEq, Eq)]
pub enum HtmlRefusal {
    Html { place: u32, why: HtmlWhy },
    Unfit { element: u32, why: FitWhy },
    NoMemory,
}

impl From<NoMemory> for HtmlRefusal {
    ghost use Rattle.wt_html_in.specs.declared.refusal.HtmlRefusal.TheVariants as refusals;

    ghost from_gives = { λ _ e. e ≡ refusals.NoMemory };

    fn from(_e: NoMemory) -> HtmlRefusal {
        HtmlRefusal::NoMemory
    }
}
