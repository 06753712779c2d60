//! One pass over the page, which says of the blocks one after the other whether they are in an open tag.

ghost use Rattle.std.specs.Prelude.{◌≡◌, ◌<◌, ◌≤◌, ◌+◌, ◌^◌, ℕ, List, length, slice_index, take};
ghost use Rattle.wt_isolation.specs.OpenTags.{before, ends_open};
ghost use Rattle.wt_isolation.specs.Passes.{IsReadTo, ending_of};

use crate::ending::Ending;
use wt_tree::Ranges;

/// A place up to which the page was read, and how what comes before it ends.
#[derive(Clone, Copy)]
pub struct TagPass {
    place: usize,
    ending: Ending,
}

impl TagPass {
    /// At the page's beginning.
    pub fn start() -> TagPass
        ensures page { (page : List ℕ) → IsReadTo page result }
        ensures place { result.place ≡ 0 }
    {
        TagPass {
            place: 0,
            ending: Ending::start(),
        }
    }

    /// At the page's beginning, if this place lies before the one up to which the page was read.
    fn not_past(self, place: usize) -> TagPass
        ensures page { (page : List ℕ) → IsReadTo page self → IsReadTo page result }
        ensures before { result.place ≤ place }
    {
        if place < self.place {
            return TagPass::start();
        }
        self
    }

    /// One byte further.
    fn with(self, byte: u8) -> TagPass
        requires { self.place + 1 < 2 ^ 64 }
        ensures place { result.place ≡ self.place + 1 }
        ensures page { (page : List ℕ) → IsReadTo page self → self.place < length page → byte ≡ slice_index page self.place → IsReadTo page result }
    {
        TagPass {
            place: self.place + 1,
            ending: self.ending.with(byte),
        }
    }

    /// At this place, or at the page's end.
    fn at(self, page: &[u8], place: usize) -> TagPass
        requires { IsReadTo page.now self }
        ensures page { IsReadTo page.now result }
        ensures ending { result.ending ≡ ending_of (take place page.now) }
    {
        let mut pass = self.not_past(place);
        let first = pass.place;
        for i in first..place.min(page.len()) {
            pass = pass.with(page[i]);
        }
        pass
    }

    /// Whether what comes before a node ends in an open tag. Goes on to the node, from the page's beginning
    /// if it was past it.
    pub fn is_in_tag(&mut self, page: &[u8], ranges: Option<Ranges>) -> bool
        requires { IsReadTo page.now self.old }
        ensures value { result ≡ ends_open (before page.now ranges) }
        ensures page { IsReadTo page.now self.new }
    {
        let Some(ranges) = ranges else {
            return false;
        };
        let pass = self.at(page, ranges.start as usize);
        *self = pass;
        pass.ending.is_in_tag()
    }
}
