//! Which nodes may be where.
ghost use Rattle.std.specs.Prelude.{◌≡◌, ◌↔◌, List, true, false};
ghost use Rattle.wt_tree.specs.Kinds.{may_hold};
ghost use Rattle.wt_tree.specs.declared.kind.Kind.{Kind};
ghost use Rattle.wt_page_laws.specs.Homes.{stands_in, follow, AreInTwo};

/// What may be in a node, said by the node that is in it: by a list of the places that each kind may have.
pub fn kinds_have_their_places()
    ensures { (parent k : Kind) → may_hold parent k ≡ stands_in k parent }
{}

/// Children may follow one another exactly where they are some without a block or a list, and then some
/// without anything inline.
pub fn children_come_in_two()
    ensures { (ks : List Kind) → (follow false ks ≡ true) ↔ (AreInTwo ks) }
{}
