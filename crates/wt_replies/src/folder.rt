ghost use Rattle.std.specs.Prelude.{◌≡◌, [], ◌∷◌, ◌++◌, Some, max, option_map, take, IfOk, OnOk, OnErr};
ghost use Rattle.wt_devices.specs.Device.{page_of};
ghost use Rattle.wt_replies.specs.Indexes.{entries_of};
ghost use Rattle.wt_replies.specs.Tables.{pages_of, stands};

use crate::index::Index;
use std::alloc::Global;
use wt_devices::{FetchRefusal, Fetched, Folder};
use wt_span::{List, NoMemory, Str, front_of};

/// A folder of the pages of a table. A name that the table hasn't is an absent page.
#[derive(Drop)]
pub struct TableFolder<'i, 'p> {
    alloc: Global,
    index: &'i Index<'p>,
    pub answered: List<Str>,
    most_asked: u32,
    faults: u64,
}

/// The first `most` bytes of a page.
fn front(alloc: Global, page: &[u8], most: usize) -> Result<List<u8>, NoMemory>
    ensures { IfOk result (λ bytes. bytes ≡ take most page.now) }
{
    let count = page.len().min(most);
    Ok(List::from_vec(Vec::from_slice(alloc, front_of(page, count))?))
}

impl<'i, 'p> TableFolder<'i, 'p> {
    /// The folder of a table.
    pub fn new(alloc: Global, index: &'i Index<'p>) -> TableFolder<'i, 'p>
        ensures pages { ⟦<TableFolder<'i, 'p> as Folder>⟧.pages result
            ≡ Some (pages_of (entries_of index.entry.now)) }
        ensures answered { ⟦<TableFolder<'i, 'p> as Folder>⟧.answered result ≡ Some [] }
        ensures most_asked { ⟦<TableFolder<'i, 'p> as Folder>⟧.most_asked result ≡ Some 0 }
        ensures faults { ⟦<TableFolder<'i, 'p> as Folder>⟧.fault_count result ≡ 0 }
    {
        TableFolder {
            alloc,
            index,
            answered: List::new(alloc),
            most_asked: 0,
            faults: 0,
        }
    }

    /// The names that it has answered, in order.
    pub fn answered(&self) -> &[Str]
        ensures { ⟦<TableFolder<'i, 'p> as Folder>⟧.answered self.now ≡ Some result.now }
    {
        self.answered.as_slice()
    }

    /// What is under a name, cut to its first `most` bytes.
    fn look(&self, alloc: Global, name: &str, most: usize) -> Result<Fetched, FetchRefusal>
        ensures { IfOk result (λ f. page_of f
            ≡ option_map (take most) (pages_of (entries_of self.now.index.now) name.now)) }
    {
        let Some(page) = self.index.entry(name.as_bytes()) else {
            return Ok(Fetched::Absent);
        };
        match page.state {
            0 => Ok(Fetched::Absent),
            1 => match front(alloc, page.text, most) {
                Ok(text) => Ok(Fetched::Found(text)),
                Err(_) => Err(FetchRefusal::NoMemory),
            },
            _ => Err(FetchRefusal::Failed),
        }
    }
}

impl Folder for TableFolder<'_, '_> {
    ghost pages = { λ f. Some (pages_of (entries_of f.index.now)) };

    ghost answered = { λ f. Some f.answered };

    ghost most_asked = { λ f. Some f.most_asked };

    ghost fault_count = { λ f. f.faults };

    fn fetch(&mut self, alloc: Global, name: &str, most: u32) -> Result<Fetched, FetchRefusal> {
        match self.look(alloc, name, most as usize) {
            Ok(found) => {
                let Ok(entry) = Str::copy_of(self.alloc, name) else {
                    return Err(FetchRefusal::NoMemory);
                };
                if self.answered.push(entry).is_err() {
                    return Err(FetchRefusal::NoMemory);
                }
                self.most_asked = self.most_asked.max(most);
                Ok(found)
            }
            Err(FetchRefusal::Failed) => {
                self.faults = self.faults.saturating_add(1);
                Err(FetchRefusal::Failed)
            }
            Err(FetchRefusal::NoMemory) => Err(FetchRefusal::NoMemory),
        }
    }

    fn faults(&self) -> u64 {
        self.faults
    }
}
