//! Which elements are one group.
ghost use Rattle.std.specs.Prelude.{List, false};
ghost use Rattle.wt_schema.specs.Groups.{Piece as Sibling, gathered};
ghost use Rattle.wt_page_laws.specs.Gathering.{AreGathered, IsPlaced};

/// The first element of a group and the further ones that come after it, up to the first sibling that
/// is none, are one node; each other sibling is a node by itself.
pub fn groups_by_places()
    ensures { (siblings : List Sibling) → IsPlaced false siblings → AreGathered siblings (gathered siblings) }
{}
