ghost use Rattle.std.specs.Prelude.{◌≡◌};
ghost use Rattle.wt_inline.specs.Parts.{same_loose, loose_kind};

use wt_tree::Kind;

/// Of which leaves the characters are that are by themselves: of texts, or of separators between
/// blocks.
#[derive(Clone, Copy, Debug, PartialEq, Eq)]
pub enum Loose {
    Text,
    Sep,
}

impl Loose {
    /// The kind of the leaf.
    pub fn kind(self) -> Kind
        ensures { result ≡ loose_kind self }
    {
        match self {
            Loose::Text => Kind::Text,
            Loose::Sep => Kind::Sep,
        }
    }

    pub fn is_same(self, other: Loose) -> bool
        ensures { result ≡ same_loose self other }
    {
        match self {
            Loose::Text => matches!(other, Loose::Text),
            Loose::Sep => matches!(other, Loose::Sep),
        }
    }
}
