//! What the parts of a group are on the page.
ghost use Rattle.std.specs.Prelude.{◌≡◌, ◌-◌, ℕ, suc, List};
ghost use Rattle.std.specs.List.{flat_map};
ghost use Rattle.wt_span.specs.Items.{Item};
ghost use Rattle.wt_span.specs.Origins.{OuterCall};
ghost use Rattle.wt_span.specs.Cuts.{text_between};
ghost use Rattle.wt_annotated.specs.GroupParts.{parts};
ghost use Rattle.wt_page_laws.specs.ReadingPlaces.{IsFirst, IsLast};
ghost use Rattle.wt_page_laws.specs.GroupTexts.{AreItsCalls, AreParted, Begins, calls_among, page_text};

/// The parts of a group, joined, are what is on the page from its first call to the end of its last.
/// The calls among them are those that begin in the group, in order; between two of them is at most one text,
/// which isn't empty, and there is none before the first or after the last.
pub fn parts_of_groups()
    ensures joined { (calls : List OuterCall) → (all : List Item) → (from : ℕ) → (size : ℕ)
        → (first : ℕ) → (last : ℕ)
        → IsFirst (Begins all from size) first → IsLast (Begins all from size) last
        → flat_map (page_text calls) (parts calls all from size)
        ≡ text_between calls all first (suc (last - first)) }
    ensures calls { (calls : List OuterCall) → (all : List Item) → (from : ℕ) → (size : ℕ)
        → AreItsCalls all from size (calls_among (parts calls all from size)) }
    ensures parted { (calls : List OuterCall) → (all : List Item) → (from : ℕ) → (size : ℕ)
        → AreParted (parts calls all from size) }
{}
