ghost use Rattle.std.specs.Prelude.{◌≡◌};
ghost use Rattle.wt_lint.specs.Kinds.{word};

use wt_span::Range;

/// What is doubtful. What each kind is exactly found for, and with which range, is the definition `found`
/// in `specs/Findings.antt`, and with an example `docs/profile.md`.
#[derive(Clone, Copy, Debug, PartialEq, Eq, PartialOrd, Ord)]
pub enum Kind {
    /// Bold or italic text that no apostrophes close, or that holds nothing.
    OpenStyle,
    /// A table without `|}`.
    OpenTable,
    /// `|}` at the front of a line of a paragraph.
    StrayTableEnd,
    /// A tag that no tag closes.
    OpenTag,
    /// A closing tag that closes nothing.
    StrayTag,
    /// `{{` in text.
    OpenBraces,
    /// `}}` in text.
    StrayBraces,
    /// `[[` in text.
    OpenLink,
    /// `]]` in text.
    StrayLinkEnd,
    /// A heading whose signs differ in number.
    UnequalHeading,
    /// A category that the page was put into before.
    RepeatedCategory,
}

impl Kind {
    /// The name of the kind, as it is printed.
    #[tactic(auto, unfolding(crate::specs::Kinds::word))]
    pub fn word(self) -> &'static [u8]
        ensures { result.now ≡ word self }
    {
        match self {
            Kind::OpenStyle => b"OpenStyle",
            Kind::OpenTable => b"OpenTable",
            Kind::StrayTableEnd => b"StrayTableEnd",
            Kind::OpenTag => b"OpenTag",
            Kind::StrayTag => b"StrayTag",
            Kind::OpenBraces => b"OpenBraces",
            Kind::StrayBraces => b"StrayBraces",
            Kind::OpenLink => b"OpenLink",
            Kind::StrayLinkEnd => b"StrayLinkEnd",
            Kind::UnequalHeading => b"UnequalHeading",
            Kind::RepeatedCategory => b"RepeatedCategory",
        }
    }
}

/// A doubtful place of a page: what it is, its range in bytes, and where that begins, by its line and the
/// byte of that line, both counted from 1.
#[derive(Clone, Copy, Debug)]
pub struct Finding {
    pub kind: Kind,
    pub at: Range,
    pub line: u32,
    pub column: u32,
}
