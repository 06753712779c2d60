ghost use Rattle.std.specs.Prelude.{◌≡◌};

use wt_span::NoMemory;

/// Why the HTML of a page is not given: it has more bytes than were allowed, or there was no memory
/// for it.
#[derive(Clone, Copy, Debug, PartialEq, Eq)]
pub enum LengthRefusal {
    TooLong,
    NoMemory,
}

impl From<NoMemory> for LengthRefusal {
    ghost use Rattle.wt_html_out.specs.declared.refusal.LengthRefusal.TheVariants.{NoMemory};

    ghost from_gives = { λ _ r. r ≡ NoMemory };

    fn from(_refusal: NoMemory) -> LengthRefusal {
        LengthRefusal::NoMemory
    }
}
