//! What holds of the definitions.

ghost use Rattle.std.specs.Prelude.{ℕ, ◌≡◌, ◌<◌, ◌≤◌, ◌+◌, ◌-◌, ◌++◌, [], false, List, All, length, map, slice_index};
ghost use Rattle.wt_span.specs.Bytes.{is_blank};
ghost use Rattle.wt_span.specs.Items.{Item, sign};
ghost use Rattle.wt_blocks.specs.ListTree.{ListTree, forest};
ghost use Rattle.wt_blocks.specs.Nesting.{IsPrefix, numbered, nested};
ghost use Rattle.wt_blocks.specs.Starts.{rows_of_all, begun};
ghost use Rattle.wt_blocks.specs.Headings.{core, level, opening, inside, closing};
ghost use Rattle.wt_blocks.specs.HeadingEnds.{StandAtEnds, IsOpening, IsClosing};

/// Neighbouring lines alone decide the nest: two of them share as many lists as their prefixes have
/// signs in common. In preorder, the nodes of the lists are those that begin at each line in turn:
/// an item of the innermost list where the whole prefix is in common with the line before, and else
/// a list with an item for each further sign. No other lists have these nodes.
pub fn nested_by_neighbours()
    ensures are { (ps : List (List ℕ)) → All IsPrefix ps → rows_of_all 0 (forest (nested ps)) ≡ begun 0 [] (numbered 0 ps) }
    ensures only { (ts : List ListTree) (ps : List (List ℕ)) → All IsPrefix ps → rows_of_all 0 (forest ts) ≡ begun 0 [] (numbered 0 ps) → ts ≡ nested ps }
{}

/// A heading, from its first visible item on, is its open delimiter, what is in it, and its
/// close delimiter. The level is the greatest number, up to six, of `=` that are at both ends with
/// something between them. The open delimiter is so many `=` and blanks, and no blank follows; the
/// close delimiter is blanks, so many `=`, and blanks and marks, and no blank comes before it.
pub fn heading_is_its_parts()
    ensures joined { (xs : List Item) → opening xs ++ (inside xs ++ closing xs) ≡ xs }
    ensures stands { (xs : List Item) → 0 < length (core (map sign xs)) → StandAtEnds (level xs) (core (map sign xs)) }
    ensures greatest { (xs : List Item) (n : ℕ) → n ≤ 6 → StandAtEnds n (core (map sign xs)) → n ≤ level xs }
    ensures at_most_six { (xs : List Item) → level xs ≤ 6 }
    ensures opens { (xs : List Item) → 0 < level xs → IsOpening (level xs) (map sign (opening xs)) }
    ensures closes { (xs : List Item) → 0 < level xs → IsClosing (level xs) (map sign (closing xs)) }
    ensures begins { (xs : List Item) → 0 < level xs → is_blank (slice_index (map sign xs) (length (opening xs))) ≡ false }
    ensures ends { (xs : List Item) → 0 < length (inside xs) → is_blank (slice_index (map sign xs) (length (opening xs) + length (inside xs) - 1)) ≡ false }
{}
