//! The attributes of a tag after the first few.
ghost use Rattle.std.specs.Prelude.{map};
ghost use Rattle.wt_html_elements.specs.Later.{AreNames};

use crate::content::Attribute;
use std::alloc::Global;
use std::collections::BTreeSet;
use std::mem;
use wt_span::NoMemory;

/// Attributes in their order, and their names once more in the order of their bytes. So a name is found in steps
/// with the logarithm of their number, whatever the names are that somebody chose.
#[derive(Drop)]
pub struct Later {
    pub all: Vec<Attribute>,
    pub names: BTreeSet<Vec<u8>>,
    ghost known: { AreNames (map (λ k. k.items) names.keys) (map (λ a. (a.name.items, a.value.items)) all.items) },
}

impl Later {
    ghost use Rattle.std.specs.Prelude.{◌≡◌, ◌++◌, ◌∷◌, [], ◌↔◌, IsTrue, length, IfOk, OnOk};
    ghost use Rattle.wt_html_grammar.specs.Signs.{is_among};
    ghost use Rattle.wt_html_elements.specs.Built.{pairs};

    pub fn new(alloc: Global) -> Later
        ensures { result.all.items ≡ [] }
    {
        Later {
            all: Vec::new(alloc),
            names: BTreeSet::new(alloc),
        }
    }

    pub fn clear(&mut self)
        ensures { self.new.all.items ≡ [] }
    {
        self.all.clear();
        self.names.clear();
    }

    pub fn is_empty(&self) -> bool
        ensures { IsTrue result ↔ (length self.now.all.items ≡ 0) }
    {
        self.all.as_slice().is_empty()
    }

    /// Whether one of them has this name.
    pub fn contains(&self, name: &[u8]) -> bool
        ensures { result ≡ is_among name.now (map (λ p. p.0) (pairs self.now.all.items)) }
    {
        self.names.contains(name)
    }

    /// These and one more.
    fn with(self, alloc: Global, name: Vec<u8>, value: Vec<u8>) -> Result<Later, NoMemory>
        ensures { IfOk result (λ more. pairs more.all.items ≡ pairs self.all.items ++ (name.items, value.items) ∷ []) }
    {
        let Later { mut all, mut names } = self;
        let own = Vec::from_slice(alloc, name.as_slice())?;
        names.insert(own)?;
        all.push(Attribute { name, value })?;
        Ok(Later { all, names })
    }

    /// Takes one more. None is left where it fails.
    pub fn add(&mut self, alloc: Global, name: Vec<u8>, value: Vec<u8>) -> Result<(), NoMemory>
        ensures { OnOk result (pairs self.new.all.items ≡ pairs self.old.all.items ++ (name.items, value.items) ∷ []) }
    {
        let old = mem::replace(self, Later::new(alloc));
        *self = old.with(alloc, name, value)?;
        Ok(())
    }

    /// Moves them all out.
    pub fn take_all(&mut self, alloc: Global) -> Vec<Attribute>
        ensures all { result.items ≡ self.old.all.items }
        ensures none { self.new.all.items ≡ [] }
    {
        let old = mem::replace(self, Later::new(alloc));
        old.all
    }
}
