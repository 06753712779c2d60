//! What holds of the lines of any items.

ghost use Rattle.std.specs.Prelude.{◌≡◌, ◌++◌, List, map};
ghost use Rattle.wt_span.specs.Items.{Item};
ghost use Rattle.wt_lines.specs.Lines.{lines, full_lines, content, empty_end, AreLines};

/// With a line break between each two, the lines of items join to the items, none holds a line
/// break, and no other list of lists is so.
pub fn one_split()
    ensures are { (xs : List Item) → AreLines (lines xs) xs }
    ensures only { (ls : List (List Item)) (xs : List Item) → AreLines ls xs → ls ≡ lines xs }
{}

/// The lines with their line breaks, these taken away, are the lines, but for the empty one after a
/// last line break.
pub fn one_set_of_lines()
    ensures { (xs : List Item) → lines xs ≡ map content (full_lines xs) ++ empty_end xs }
{}
