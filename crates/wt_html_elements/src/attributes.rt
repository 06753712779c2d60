ghost use Rattle.std.specs.Prelude.{◌≡◌, ◌++◌, [], ◌∷◌, map, false, OnOk, IfOk};
ghost use Rattle.wt_html_grammar.specs.Signs.{is_among};
ghost use Rattle.wt_html_elements.specs.Attributes.{pairs_in, rest_pairs};
ghost use Rattle.wt_html_elements.specs.Built.{pairs};

use crate::content::Attribute;
use crate::later::Later;
use std::alloc::Global;
use std::mem;
use wt_span::NoMemory;

/// So many attributes are looked through for a name. The names of more are kept in order.
const LOOKED_THROUGH: usize = 8;

/// The whole attributes of a tag in their order, each name once: the first, as a tag has few, and the rest,
/// found by their names in order, so that a tag with many attributes is read nearly as fast as others.
#[derive(Drop)]
pub struct Attributes {
    pub first: Vec<Attribute>,
    pub rest: Later,
}

/// Whether one of these has this name.
fn is_among(name: &[u8], attributes: &[Attribute]) -> bool
    ensures { result ≡ is_among name.now (map (λ p. p.0) (pairs attributes.now)) }
{
    for attribute in attributes {
        if name == attribute.name.as_slice() {
            return true;
        }
    }
    false
}

/// These and the rest after them.
fn with_rest(first: Vec<Attribute>, rest: Vec<Attribute>) -> Result<Vec<Attribute>, NoMemory>
    ensures { IfOk result (λ all. pairs all.items ≡ pairs first.items ++ pairs rest.items) }
{
    let mut all = first;
    let mut rest = rest;
    all.append(&mut rest)?;
    Ok(all)
}

impl Attributes {
    pub fn new(alloc: Global) -> Attributes
        ensures { pairs_in result ≡ [] }
    {
        Attributes {
            first: Vec::new(alloc),
            rest: Later::new(alloc),
        }
    }

    pub fn clear(&mut self)
        ensures { pairs_in self.new ≡ [] }
    {
        self.first.clear();
        self.rest.clear();
    }

    /// Whether one of them has this name.
    pub fn contains(&self, name: &[u8]) -> bool
        ensures { result ≡ is_among name.now (map (λ p. p.0) (pairs_in self.now)) }
    {
        is_among(name, self.first.as_slice()) || self.rest.contains(name)
    }

    /// Takes one more.
    pub fn push(&mut self, alloc: Global, name: Vec<u8>, value: Vec<u8>) -> Result<(), NoMemory>
        requires { is_among name.items (map (λ p. p.0) (pairs_in self.old)) ≡ false }
        ensures { OnOk result (pairs_in self.new ≡ pairs_in self.old ++ (name.items, value.items) ∷ []) }
    {
        if self.rest.is_empty() && self.first.len() < LOOKED_THROUGH {
            self.first.push(Attribute { name, value })?;
        } else {
            self.rest.add(alloc, name, value)?;
        }
        Ok(())
    }

    /// Moves them all out.
    pub fn take_all(&mut self, alloc: Global) -> Result<Vec<Attribute>, NoMemory>
        ensures all { IfOk result (λ all. pairs all.items ≡ pairs_in self.old) }
        ensures none { OnOk result (pairs_in self.new ≡ []) }
    {
        let first = mem::replace(&mut self.first, Vec::new(alloc));
        if self.rest.is_empty() {
            return Ok(first);
        }
        let rest = self.rest.take_all(alloc);
        let all = with_rest(first, rest)?;
        Ok(all)
    }
}
