//! Where a list of items is.

ghost use Rattle.std.specs.Prelude.{◌≡◌, ◌<◌};
ghost use Rattle.wt_tiles.specs.Contexts.{in_line, in_text, in_pair};
ghost use Rattle.wt_tiles.specs.declared.read.TheConstants.{MOST_PAIRS};

/// What is known of the items that are cut. A line and a cell are contexts, and so is the text of a
/// link and the inside of a pair of tags: each is cut by itself.
#[derive(Clone, Copy, Debug)]
pub struct Context {
    /// The items are in the text of a link, where only tags, switches, atoms and marks count.
    pub in_link: bool,
    /// How many pairs of tags are open round the items. Where `MOST_PAIRS` are, a further one is an island.
    pub pairs: u32,
}

impl Context {
    /// A line or a cell.
    pub fn line() -> Context
        ensures { result ≡ in_line }
    {
        Context {
            in_link: false,
            pairs: 0,
        }
    }

    /// The text of a link that is here.
    pub fn link_text(self) -> Context
        ensures { result ≡ in_text self }
    {
        Context {
            in_link: true,
            pairs: self.pairs,
        }
    }

    /// The inside of a pair of tags that is here.
    pub fn inside_pair(self) -> Context
        requires { self.pairs < MOST_PAIRS }
        ensures { result ≡ in_pair self }
    {
        Context {
            in_link: self.in_link,
            pairs: self.pairs + 1,
        }
    }
}
