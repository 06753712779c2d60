//! What holds of the attributes of any text.

ghost use Rattle.std.specs.Prelude.{◌≡◌, ◌++◌, ℕ, List, Some, true, Bool};
ghost use Rattle.wt_attributes.specs.Attributes.{Named, attribute_at, readings};
ghost use Rattle.wt_attributes.specs.Spelled.{Spelled, IsSpelled, spell, meaning, AreReadings};

/// An attribute is read at the front of a text exactly where one is written there, and nothing else
/// is read.
pub fn spelled_attributes()
    ensures read { (s : Spelled) (rest : List ℕ) → IsSpelled s rest → attribute_at (spell s ++ rest) ≡ Some (meaning s, rest) }
    ensures written { (bs : List ℕ) (a : Named) (rest : List ℕ) → attribute_at bs ≡ Some (a, rest)
        → (s : Spelled) × IsSpelled s rest × (bs ≡ spell s ++ rest) × (a ≡ meaning s) }
{}

/// The attributes of a text are those that come one after the other, each the first one at the text's start or
/// after a blank; and no other list is so.
pub fn one_reading()
    ensures are { (bs : List ℕ) → AreReadings true (readings true 0 bs) bs }
    ensures only { (rs : List Named) (bs : List ℕ) → AreReadings true rs bs → rs ≡ readings true 0 bs }
{}
