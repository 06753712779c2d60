//! How a block meets what is beside it.
ghost use Rattle.std.specs.Prelude.{List, ℕ};
ghost use Rattle.wt_inside_laws.specs.Edges.{MeetsPlainly};
ghost use Rattle.wt_inside_laws.specs.Joints.{Joints};

/// What was typed in place of a block meets what comes before and after it only at bytes of a short list,
/// is never empty, and begins with no blank, line break or `}`, nor with a `-` after a `-`.
pub fn blocks_meet_plainly()
    ensures { (before old new behind : List ℕ) → Joints before old new behind → MeetsPlainly before new behind }
{}
