//! The values that a call hands over to a template.
ghost use Rattle.std.specs.Prelude.{◌≡◌, ◌∷◌, ◌++◌, [], OnOk, option_map, string_bytes};
ghost use Rattle.wt_span.specs.Items.{items};
ghost use Rattle.wt_expand.specs.Expansion.{Frame, value_of};
ghost use Rattle.wt_values.specs.Frames.{AreValues};

use std::alloc::Global;
use std::collections::BTreeMap;
use wt_span::{List, NoMemory, Piece};

/// Values by their names.
#[derive(Drop)]
pub struct Values<'a> {
    named: BTreeMap<String, List<Piece<'a>>>,
}

impl<'a> Values<'a> {
    /// No values.
    pub fn new(alloc: Global) -> Values<'a>
        ensures { AreValues result [] }
    {
        Values {
            named: BTreeMap::new(alloc),
        }
    }

    /// One more value. Of several values of a name the last counts.
    pub fn put(&mut self, name: String, value: List<Piece<'a>>) -> Result<(), NoMemory>
        ensures { OnOk result ((frame : Frame) → AreValues self.old frame → AreValues self.new (frame ++ (string_bytes name, items value.entry) ∷ [])) }
    {
        match self.named.insert(name, value) {
            Ok(_) => Ok(()),
            Err(_) => Err(NoMemory),
        }
    }

    /// The value of a name.
    pub fn get(&self, name: &str) -> Option<&[Piece<'a>]>
        ensures { (frame : Frame) → AreValues self.now frame → option_map (λ v. items v.now) result ≡ value_of name.now frame }
    {
        match self.named.get(name) {
            Some(value) => Some(value.as_slice()),
            None => None,
        }
    }
}
