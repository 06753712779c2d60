//! The values that a call hands over, part by part.
ghost use Rattle.std.specs.Prelude.{◌≡◌, ◌<◌, ◌^◌, ◌+◌, ◌∷◌, ◌++◌, [], None, Some, OnOk, string_bytes};
ghost use Rattle.wt_span.specs.Items.{items};
ghost use Rattle.wt_expand.specs.Texts.{name_text};
ghost use Rattle.wt_expand.specs.Expansion.{Frame, Output as Gives, values_from};
ghost use Rattle.wt_values.specs.Frames.{AreValues};

use crate::trim::trimmed_items;
use std::alloc::Global;
use wt_span::{List, NoMemory, Piece};
use wt_values::Values;

/// Values so far, and the number of the next one without a name.
#[derive(Drop)]
pub struct Handed<'a> {
    pub values: Values<'a>,
    pub number: usize,
}

impl<'a> Handed<'a> {
    /// No values.
    pub fn new(alloc: Global) -> Handed<'a>
        ensures values { AreValues result.values [] }
        ensures number { result.number ≡ 1 }
    {
        Handed {
            values: Values::new(alloc),
            number: 1,
        }
    }

    /// One more value, of a part that has a name.
    pub fn put_named(
        &mut self,
        alloc: Global,
        name: String,
        value: &[Piece<'a>],
    ) -> Result<(), NoMemory>
        ensures values { OnOk result ((frame : Frame) (name_given value_given all : Gives)
            → AreValues self.old.values frame → string_bytes name ≡ name_text name_given.items
            → items value.now ≡ value_given.items → AreValues self.new.values
            (frame
            ++ values_from self.old.number (record { name = Some name_given; value = value_given; all = all } ∷ []))) }
        ensures number { OnOk result (self.new.number ≡ self.old.number) }
    {
        let value = trimmed_items(alloc, value)?;
        self.values.put(name, value)?;
        Ok(())
    }

    /// One more value, of a part without a name.
    pub fn put_numbered(&mut self, alloc: Global, value: List<Piece<'a>>) -> Result<(), NoMemory>
        ensures values { OnOk result ((frame : Frame) (value_given all : Gives) → AreValues self.old.values frame
            → items value.entry ≡ value_given.items → AreValues self.new.values
            (frame ++ values_from self.old.number (record { name = None; value = value_given; all = all } ∷ []))) }
        ensures number { OnOk result (self.old.number + 1 < 2 ^ 64 → self.new.number ≡ self.old.number + 1) }
    {
        let Ok(name) = format!(in alloc; "{}", self.number) else {
            return Err(NoMemory);
        };
        self.values.put(name, value)?;
        self.number = self.number.saturating_add(1);
        Ok(())
    }
}
