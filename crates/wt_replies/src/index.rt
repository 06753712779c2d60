ghost use Rattle.std.specs.Prelude.{◌≡◌, ℕ, List, None, IfOk, OnOk, option_map};
ghost use Rattle.wt_replies.specs.Indexes.{entries_of};
ghost use Rattle.wt_replies.specs.Tables.{entry_of, or_else};

use crate::table::Page;
use std::alloc::Global;
use std::collections::BTreeMap;
use wt_span::NoMemory;

/// The entries of a table by their names, in the order of their bytes.
#[derive(Drop)]
pub struct Index<'a> {
    pages: BTreeMap<&'a [u8], Page<'a>>,
}

impl<'a> Index<'a> {
    /// An index of no entries.
    fn new(alloc: Global) -> Index<'a>
        ensures { (name : List ℕ) → entries_of result name ≡ None }
    {
        Index {
            pages: BTreeMap::new(alloc),
        }
    }

    /// Adds an entry, if there is none of its name.
    fn add(&mut self, page: &Page<'a>) -> Result<(), NoMemory>
        ensures { OnOk result ((name : List ℕ)
            → entries_of self.new name ≡ or_else (entries_of self.old) page.now name) }
    {
        if !self.pages.contains_key(page.name) {
            self.pages.insert(page.name, *page)?;
        }
        Ok(())
    }

    /// The index of a table: of each name its first entry.
    pub fn of(alloc: Global, pages: &[Page<'a>]) -> Result<Index<'a>, NoMemory>
        ensures { IfOk result (λ index. entries_of index ≡ entry_of pages.now) }
    {
        let mut index = Index::new(alloc);
        for page in pages {
            index.add(page)?;
        }
        Ok(index)
    }

    /// The entry of this name.
    pub fn entry(&self, name: &[u8]) -> Option<&Page<'a>>
        ensures { option_map (λ page. page.now) result ≡ entries_of self.now name.now }
    {
        self.pages.get(name)
    }
}
