//! What is answered where a byte isn't taken, and which byte an end tag takes next.

ghost use Rattle.std.specs.Prelude.{◌≡◌};
ghost use Rattle.wt_html_reasons.specs.Refusals.{goes_on, refusal_of};

use wt_html_grammar::HtmlWhy;

/// Why HTML is refused: the input isn't well-formed, and `place` is the length in bytes of its
/// longest prefix with which some well-formed input begins; or no memory was found.
#[derive(Clone, Copy, Debug, PartialEq, Eq)]
pub enum HtmlRefusal {
    Html { place: u32, why: HtmlWhy },
    NoMemory,
}

/// Why a piece isn't taken.
#[derive(Clone, Copy)]
pub enum Fault {
    Html(HtmlWhy),
    NoMemory,
}

/// What is answered where the byte at this place isn't taken.
pub fn refusal_of(place: u32, fault: Fault) -> HtmlRefusal
    ensures { result ≡ refusal_of place fault }
{
    match fault {
        Fault::Html(why) => HtmlRefusal::Html { place, why },
        Fault::NoMemory => HtmlRefusal::NoMemory,
    }
}

/// Takes a byte of an end tag where the name of the element that is open has this letter.
pub fn follow_name(letter: u8, byte: u8) -> Result<(), HtmlWhy>
    ensures { result ≡ goes_on letter byte }
{
    if byte == letter {
        Ok(())
    } else {
        Err(HtmlWhy::EndTag)
    }
}
