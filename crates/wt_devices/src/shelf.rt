ghost use Rattle.std.specs.Prelude.{◌≡◌, ◌≢◌, ◌∷◌, [], ◌++◌, Some, max, AllPairs, IfOk, OnOk, OnErr, option_map, take};
ghost use Rattle.wt_devices.specs.Device.{page_of};
ghost use Rattle.wt_devices.specs.Shelf.{look_up, ArePagesOf};

use crate::calls::Calls;
use crate::device::{FetchRefusal, Fetched, Folder};
use std::alloc::Global;
use wt_span::{List, NoMemory, Str, front_of};

/// Pages in memory, each with its name, the names that were answered, and the most bytes that such a call
/// asked for.
#[derive(Debug, Drop)]
struct Shelf {
    alloc: Global,
    entries: List<(Str, List<u8>)>,
    answered: List<Str>,
    most_asked: u32,
}

/// The page of the first entry of this name.
fn find_page<'a>(entries: &'a [(Str, List<u8>)], name: &str) -> Option<&'a List<u8>>
    ensures { option_map (λ page. page.now) result ≡ look_up entries.now name.now }
{
    for (title, page) in entries {
        if title.as_str() == name {
            return Some(page);
        }
    }
    None
}

/// The first `most` bytes of a page.
fn front(alloc: Global, page: &[u8], most: usize) -> Result<List<u8>, NoMemory>
    ensures { IfOk result (λ bytes. bytes ≡ take most page.now) }
{
    let count = page.len().min(most);
    Ok(List::from_vec(Vec::from_slice(alloc, front_of(page, count))?))
}

impl Shelf {
    fn new(alloc: Global, entries: List<(Str, List<u8>)>) -> Shelf
        ensures entries { result.entries ≡ entries }
        ensures answered { result.answered ≡ [] }
        ensures most_asked { result.most_asked ≡ 0 }
    {
        Shelf {
            alloc,
            entries,
            answered: List::new(alloc),
            most_asked: 0,
        }
    }

    fn look(&self, alloc: Global, name: &str, most: usize) -> Result<Fetched, NoMemory>
        ensures { IfOk result (λ f. page_of f ≡ option_map (take most) (look_up self.now.entries name.now)) }
    {
        match find_page(self.entries.as_slice(), name) {
            Some(page) => Ok(Fetched::Found(front(alloc, page.as_slice(), most)?)),
            None => Ok(Fetched::Absent),
        }
    }

    fn fetch(&mut self, alloc: Global, name: &str, most: u32) -> Result<Fetched, NoMemory>
        ensures page { IfOk result (λ f. page_of f ≡ option_map (take most) (look_up self.old.entries name.now)) }
        ensures kept { self.new.entries ≡ self.old.entries }
        ensures named { OnOk result (self.new.answered ≡ self.old.answered ++ name.now ∷ []) }
        ensures asked { OnOk result (self.new.most_asked ≡ max self.old.most_asked most) }
        ensures unnamed { OnErr result (self.new.answered ≡ self.old.answered) }
        ensures unasked { OnErr result (self.new.most_asked ≡ self.old.most_asked) }
    {
        let found = self.look(alloc, name, most as usize)?;
        let entry = Str::copy_of(self.alloc, name)?;
        self.answered.push(entry)?;
        self.most_asked = self.most_asked.max(most);
        Ok(found)
    }
}

/// A folder in memory, which fails at the calls that `failing` numbers.
#[derive(Debug, Drop)]
pub struct MemFolder {
    shelf: Shelf,
    calls: Calls,
}

impl MemFolder {
    /// A folder of these pages, by their full names. The first call has the number 1.
    pub fn new(alloc: Global, pages: List<(Str, List<u8>)>, failing: List<u64>) -> MemFolder
        requires { AllPairs (λ a b. a.0 ≢ b.0) pages }
        ensures pages { ⟦<MemFolder as Folder>⟧.pages result ≡ Some (look_up pages) }
        ensures map { ArePagesOf pages (look_up pages) }
        ensures answered { ⟦<MemFolder as Folder>⟧.answered result ≡ Some [] }
        ensures most_asked { ⟦<MemFolder as Folder>⟧.most_asked result ≡ Some 0 }
        ensures faults { ⟦<MemFolder as Folder>⟧.fault_count result ≡ 0 }
    {
        MemFolder {
            shelf: Shelf::new(alloc, pages),
            calls: Calls::new(failing),
        }
    }

    /// The names that it has answered, in order.
    pub fn answered(&self) -> &[Str]
        ensures { ⟦<MemFolder as Folder>⟧.answered self.now ≡ Some result.now }
    {
        self.shelf.answered.as_slice()
    }

    /// The most bytes that a call asked for which it answered, 0 before the first.
    pub fn most_asked(&self) -> u32
        ensures { ⟦<MemFolder as Folder>⟧.most_asked self.now ≡ Some result }
    {
        self.shelf.most_asked
    }
}

impl Folder for MemFolder {
    ghost pages = { λ f. Some (look_up f.shelf.entries) };

    ghost answered = { λ f. Some f.shelf.answered };

    ghost most_asked = { λ f. Some f.shelf.most_asked };

    ghost fault_count = { λ f. f.calls.faults };

    fn fetch(&mut self, alloc: Global, name: &str, most: u32) -> Result<Fetched, FetchRefusal> {
        if self.calls.begin().is_err() {
            return Err(FetchRefusal::Failed);
        }
        match self.shelf.fetch(alloc, name, most) {
            Ok(found) => Ok(found),
            Err(_) => Err(FetchRefusal::NoMemory),
        }
    }

    fn faults(&self) -> u64 {
        self.calls.faults()
    }
}

/// A folder in memory that never fails.
#[derive(Debug, Drop)]
pub struct NeverFailsFolder {
    shelf: Shelf,
}

impl NeverFailsFolder {
    /// A folder of these pages, by their full names.
    pub fn new(alloc: Global, pages: List<(Str, List<u8>)>) -> NeverFailsFolder
        requires { AllPairs (λ a b. a.0 ≢ b.0) pages }
        ensures pages { ⟦<NeverFailsFolder as Folder>⟧.pages result ≡ Some (look_up pages) }
        ensures map { ArePagesOf pages (look_up pages) }
        ensures answered { ⟦<NeverFailsFolder as Folder>⟧.answered result ≡ Some [] }
        ensures most_asked { ⟦<NeverFailsFolder as Folder>⟧.most_asked result ≡ Some 0 }
    {
        NeverFailsFolder {
            shelf: Shelf::new(alloc, pages),
        }
    }
}

impl Folder for NeverFailsFolder {
    ghost pages = { λ f. Some (look_up f.shelf.entries) };

    ghost answered = { λ f. Some f.shelf.answered };

    ghost most_asked = { λ f. Some f.shelf.most_asked };

    ghost fault_count = { λ _. 0 };

    fn fetch(&mut self, alloc: Global, name: &str, most: u32) -> Result<Fetched, FetchRefusal> {
        match self.shelf.fetch(alloc, name, most) {
            Ok(found) => Ok(found),
            Err(_) => Err(FetchRefusal::NoMemory),
        }
    }

    fn faults(&self) -> u64 {
        0
    }
}
