//! Titles of categories that were met.

ghost use Rattle.std.specs.Prelude.{◌≡◌, [], IfOk, OnOk};
ghost use Rattle.wt_lint.specs.Categories.{is_among, noted};
ghost use Rattle.wt_lint.specs.Titles.{names};

use crate::met::Titles;
use std::alloc::Global;
use std::collections::BTreeSet;
use wt_span::NoMemory;

impl Titles {
    pub fn new(alloc: Global) -> Titles
        ensures { names result ≡ [] }
    {
        Titles {
            met: BTreeSet::new(alloc),
        }
    }

    /// Notes a title, and says whether it was noted before.
    pub fn note(&mut self, alloc: Global, title: &[u8]) -> Result<bool, NoMemory>
        ensures repeated { IfOk result (λ repeated. repeated ≡ is_among title.now (names self.old)) }
        ensures noted { OnOk result (names self.new ≡ noted title.now (names self.old)) }
    {
        let title = Vec::from_slice(alloc, title)?;
        let is_new = self.met.insert(title)?;
        Ok(!is_new)
    }
}
