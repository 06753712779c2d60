//! What `gen` counts.
ghost use Rattle.std.specs.Prelude.{◌≡◌, ℕ, ◌+◌};
ghost use Rattle.wt_tree.specs.Look.{rows};
ghost use Rattle.wt_tree.specs.Tiling.{ids};
ghost use Rattle.wt_tree.specs.Tree.{Tree};
ghost use Rattle.wt_commands.specs.Gen.{number_count};
ghost use Rattle.wt_call_laws.specs.Uses.{others_than_zero};

/// The nodes that `gen` counts are those whose number isn't 0, of all nodes of the tree.
pub fn counts_are_of_numbers()
    ensures { (t : Tree) → number_count (rows t) ≡ others_than_zero (ids t) }
{}
