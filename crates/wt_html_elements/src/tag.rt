ghost use Rattle.std.specs.Prelude.{◌≡◌, ◌++◌, ◌∷◌, [], true, not, map, encode_utf8, OnOk, IfOk};
ghost use Rattle.wt_html_grammar.specs.Signs.{is_among};
ghost use Rattle.wt_html_elements.specs.Attributes.{pairs_in};
ghost use Rattle.wt_html_elements.specs.Built.{pairs, IsEmptyTag};

use crate::attributes::Attributes;
use crate::content::Attribute;
use std::alloc::Global;
use std::mem;
use wt_span::NoMemory;

/// The start tag that is read: its name, its whole attributes, and the name and the value of the
/// attribute that is read. Nothing else holds bytes of it.
#[derive(Drop)]
pub struct OpenTag {
    pub name: Vec<u8>,
    pub attributes: Attributes,
    pub key: Vec<u8>,
    pub value: Vec<u8>,
}

impl OpenTag {
    pub fn new(alloc: Global) -> OpenTag
        ensures { IsEmptyTag result }
    {
        OpenTag {
            name: Vec::new(alloc),
            attributes: Attributes::new(alloc),
            key: Vec::new(alloc),
            value: Vec::new(alloc),
        }
    }

    /// Nothing is left of it.
    pub fn clear(&mut self)
        ensures { IsEmptyTag self.new }
    {
        self.name.clear();
        self.attributes.clear();
        self.key.clear();
        self.value.clear();
    }

    /// A tag begins.
    pub fn begin_name(&mut self, byte: u8) -> Result<(), NoMemory>
        ensures name { OnOk result (self.new.name.items ≡ byte ∷ []) }
        ensures attributes { OnOk result (pairs_in self.new.attributes ≡ []) }
        ensures key { self.new.key ≡ self.old.key }
        ensures value { self.new.value ≡ self.old.value }
    {
        self.name.clear();
        self.name.push(byte)?;
        self.attributes.clear();
        Ok(())
    }

    /// An attribute begins.
    pub fn begin_key(&mut self, byte: u8) -> Result<(), NoMemory>
        ensures key { OnOk result (self.new.key.items ≡ byte ∷ []) }
        ensures name { self.new.name ≡ self.old.name }
        ensures attributes { self.new.attributes ≡ self.old.attributes }
        ensures value { self.new.value ≡ self.old.value }
    {
        self.key.clear();
        self.key.push(byte)?;
        Ok(())
    }

    /// A character more of the value.
    pub fn value_char(&mut self, character: char) -> Result<(), NoMemory>
        ensures value { OnOk result (self.new.value.items ≡ self.old.value.items ++ encode_utf8 character) }
        ensures name { self.new.name ≡ self.old.name }
        ensures attributes { self.new.attributes ≡ self.old.attributes }
        ensures key { self.new.key ≡ self.old.key }
    {
        let mut bytes = [0_u8; 4];
        let encoded = character.encode_utf8(&mut bytes);
        self.value.extend_from_slice(encoded.as_bytes())?;
        Ok(())
    }

    /// The attribute that is read is whole, and moves to the others.
    pub fn end_value(&mut self, alloc: Global) -> Result<(), NoMemory>
        requires { not (is_among self.old.key.items (map (λ p. p.0) (pairs_in self.old.attributes))) ≡ true }
        ensures attributes { OnOk result (pairs_in self.new.attributes ≡ pairs_in self.old.attributes ++ (self.old.key.items, self.old.value.items) ∷ []) }
        ensures name { self.new.name ≡ self.old.name }
        ensures key { OnOk result (self.new.key.items ≡ []) }
        ensures value { OnOk result (self.new.value.items ≡ []) }
    {
        let name = mem::replace(&mut self.key, Vec::new(alloc));
        let value = mem::replace(&mut self.value, Vec::new(alloc));
        self.attributes.push(alloc, name, value)
    }

    /// Moves its name and its attributes out. Nothing is left of it.
    pub fn take(&mut self, alloc: Global) -> Result<(Vec<u8>, Vec<Attribute>), NoMemory>
        ensures name { IfOk result (λ r. r.0.items ≡ self.old.name.items) }
        ensures attributes { IfOk result (λ r. pairs r.1.items ≡ pairs_in self.old.attributes) }
        ensures left { OnOk result (IsEmptyTag self.new) }
    {
        let name = mem::replace(&mut self.name, Vec::new(alloc));
        let attributes = self.attributes.take_all(alloc)?;
        self.key.clear();
        self.value.clear();
        Ok((name, attributes))
    }
}
