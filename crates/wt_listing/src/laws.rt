ghost use Rattle.std.specs.Prelude.{◌≡◌, ◌++◌, List};
ghost use Rattle.std.specs.List.{flat_map};
ghost use Rattle.wt_tree.specs.Tree.{Label, Tree, tree, trees};
ghost use Rattle.wt_listing.specs.Listing.{line_of, listing};

/// A listing is the line of the root, and then the listings of its children.
pub fn line_before_children()
    ensures { (l : Label) (ts : List Tree) → listing (tree l (trees ts)) ≡ line_of (l.id, l.kind, l.ranges) ++ flat_map listing ts }
{}
