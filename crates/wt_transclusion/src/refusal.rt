//! Why a page isn't expanded.
ghost use Rattle.std.specs.Prelude.{◌≡◌};

use wt_span::{NoMemory, Str};

/// Why a page isn't expanded. Of several causes the first in the order of the work is the answer.
#[derive(Debug, Drop)]
pub enum ExpandRefusal {
    /// Some call or argument of a text has a hundred others round it. The text is the page's own,
    /// or what is taken of the page of this full name; the place is the first byte of the leftmost
    /// such call, in that text.
    BracesTooDeep { title: Option<Str>, place: u32 },
    /// The expansion costs more than 8,388,608: 1 for each call and argument, and the bytes that it
    /// gives.
    TooLarge,
    /// The folder failed, and its count of faults rose.
    FolderFault,
    /// The page of this full name is no UTF-8: the place of the first byte that continues none.
    TemplateNotUtf8 { title: Str, place: u32 },
    /// The page of this full name has more than 2,097,152 bytes.
    TemplateTooLong { title: Str },
    /// No memory was found.
    NoMemory,
}

impl From<NoMemory> for ExpandRefusal {
    ghost use Rattle.wt_transclusion.specs.declared.refusal.ExpandRefusal.TheVariants as answers;

    ghost from_gives = { λ _ e. e ≡ answers.NoMemory };

    fn from(_e: NoMemory) -> ExpandRefusal {
        ExpandRefusal::NoMemory
    }
}
