//! Laws of bodies, lists and tables (`wt_page`), in other words than their definitions.

ghost use Rattle.std.specs.Prelude.{◌≡◌, ◌==◌, ℕ, Bool, false, Some, None, List, [], ◌∷◌, All, codes, length, map, replicate, take};
ghost use Rattle.std.specs.List.{AllByRecursion};
ghost use Rattle.wt_span.specs.Bytes.{begins};
ghost use Rattle.wt_span.specs.Items.{Item, sign};
ghost use Rattle.wt_span.specs.Characters as byte;
ghost use Rattle.wt_blocks.specs.Nesting.{IsPrefix, numbered};
ghost use Rattle.wt_blocks.specs.Starts.{begun};
ghost use Rattle.wt_tables.specs.Cells.{Cell, cells_from};
ghost use Rattle.wt_tiles.specs.Contexts.{in_line};
ghost use Rattle.wt_tiles.specs.Tiles.{tiles};
ghost use Rattle.wt_inline.specs.ItemTree.{forest};
ghost use Rattle.wt_inline.specs.Parts.{children};
ghost use Rattle.wt_page.specs.Rows.{Row};
ghost use Rattle.wt_page.specs.Stretches.{Stretch, stretches_parts};
ghost use Rattle.wt_page.specs.Lists.{prefix_of, term_len, line_item, prefixes, lists};
ghost use Rattle.wt_page.specs.Tables.{Reading, cell_stretches};
ghost use Rattle.wt_page.specs.Texts.{pre};
ghost use Rattle.wt_page.specs.Body.{meaning};
ghost use Rattle.wt_page_laws.specs.Delimiters.{begins_blank, delimiter_of, AreDelimiters};
ghost use Rattle.wt_page_laws.specs.Ends.{IsTight};
ghost use Rattle.wt_page_laws.specs.ListNodes.{list_nodes_of_all, AreNamed};
ghost use Rattle.wt_page_laws.specs.Members.{of_each, cells_among, cell_name, skipped_among, children_of, opening_of};
ghost use Rattle.wt_page_laws.specs.Places.{IsHoused};
ghost use Rattle.wt_page_laws.specs.Terms.{HidesColons, IsFirstColon};

/// No list and no body of a table begins or ends with a separator or a mark, no row of one ends with
/// them, no item or cell ends with a separator, and none is in a paragraph, a heading or
/// preformatted text.
pub fn separators_stand_between()
    ensures { (xs : List Item) → IsTight (meaning xs) }
{}

/// The lists and items in the trees of lists, in preorder with the number of those round each, are
/// those that begin at each line in turn, by neighbouring lines alone: `*` makes `ul` with `li`,
/// `#` makes `ol` with `li`, `;` and `:` make `dl` with `dt` and `dd`. A term may have a definition
/// after it on its line.
pub fn lists_are_named_by_signs()
    ensures { (rs : List Row) → All IsPrefix (prefixes rs) → AreNamed (begun 0 [] (numbered 0 (prefixes rs)))
        (list_nodes_of_all 0 (forest (children (stretches_parts (lists rs))))) }
{}

/// The cells of a line, whatever follows them, are as many as the line is cut into, and all of one
/// kind: `caption` of a caption, else `th` where the line begins with `!`, and else `td`.
pub fn cells_are_named_by_their_line()
    ensures { (read : Reading) (caption : Bool) (r : Row) (rs : List Row)
        → cells_among (forest (children (stretches_parts (cell_stretches read caption (r ∷ rs)))))
        ≡ replicate (length (cells_from caption r.items)) (cell_name caption (begins (codes "!") (map sign r.items))) }
{}

/// The first item of each line of preformatted text, which is a space, is no text of it: that of the
/// first line is the open delimiter, and that of each later line a leaf by itself that is skipped.
pub fn spaces_are_skipped()
    ensures first { (r : Row) (rs : List Row) → opening_of (pre (r ∷ rs)) ≡ take 1 r.items }
    ensures later { (r : Row) (rs : List Row) → skipped_among (children_of (pre (r ∷ rs))) ≡ map (λ (s : Row). take 1 s.items) rs }
{}

/// A term ends at the first `:` among the characters of its line: before it are other characters,
/// and tiles (links, tags, atoms, marks) with whatever colons in them. Where there is none among
/// characters it doesn't end, and nor does anything after another sign than `;`.
pub fn terms_end_at_the_first_colon()
    ensures first { (xs : List Item) (n : ℕ) → term_len 59 xs ≡ Some n → IsFirstColon n (tiles in_line xs) }
    ensures none { (xs : List Item) → term_len 59 xs ≡ None → AllByRecursion HidesColons (tiles in_line xs) }
    ensures others { (s : ℕ) (xs : List Item) → (s == byte.semicolon) ≡ false → term_len s xs ≡ None }
{}

/// Each node of a list or a table is where it belongs: items in lists alone, and lists in items,
/// cells, captions and the body; rows in a body of a table, cells in rows, captions and such bodies in
/// a table; and paragraphs, headings and the like, lists and tables in the body, cells and captions.
/// Separators, marks and what is on a line may be beside them.
pub fn members_stand_in_their_own()
    ensures { (xs : List Item) → IsHoused (meaning xs) }
{}

/// The open delimiter of the item that a line begins is the line's prefix with all blanks after it,
/// and that of a definition after a term one sign with all after that, so that no text of theirs
/// begins with a blank; nor does that of a cell.
pub fn delimiters_take_the_blanks()
    ensures items { (s : ℕ) (r : Row) (ss : List Stretch) → AreDelimiters (prefix_of r.items) r.items
        (of_each delimiter_of (forest (children (stretches_parts (line_item s r ss))))) }
    ensures cells { (caption : Bool) (xs : List Item)
        → AllByRecursion (λ (c : Cell). begins_blank (map sign c.rest) ≡ false) (cells_from caption xs) }
{}
