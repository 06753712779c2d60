//! What holds of any parts and of any items.

ghost use Rattle.std.specs.Prelude.{◌≡◌, List};
ghost use Rattle.wt_span.specs.Items.{Item, sources};
ghost use Rattle.wt_inline.specs.Inside.{opened_all};
ghost use Rattle.wt_inline.specs.ItemTree.{ItemTree, forest, held_by_all};
ghost use Rattle.wt_inline.specs.Parts.{Part, held_parts, children, AreChildren};

/// The children of a node are its parts, cut where neighbours make no one leaf, and nothing else
/// is.
pub fn children_are_runs()
    ensures are { (ps : List Part) → AreChildren (children ps) ps }
    ensures only { (ts : List ItemTree) (ps : List Part) → AreChildren ts ps → ts ≡ children ps }
{}

/// What the children hold, joined, is what the parts hold, joined.
pub fn children_hold_their_parts()
    ensures { (ps : List Part) → held_by_all (forest (children ps)) ≡ held_parts ps }
{}

/// Opened items have the source of the items.
pub fn opened_items_keep_their_source()
    ensures { (xs : List Item) → sources (opened_all xs) ≡ sources xs }
{}
