//! What holds of the meaning of any items.

ghost use Rattle.std.specs.Prelude.{◌≡◌, List};
ghost use Rattle.wt_span.specs.Items.{Item, sources};
ghost use Rattle.wt_inline.specs.Inside.{opened_all};
ghost use Rattle.wt_inline.specs.ItemTree.{ItemTree, tree_items};
ghost use Rattle.wt_inline.specs.Parts.{held_parts};
ghost use Rattle.wt_page.specs.Rows.{Row as RowOf, all_items, rows};
ghost use Rattle.wt_page.specs.Body.{body_parts, meaning, IsMeaning};

/// The rows of a page join to its items.
pub fn rows_join()
    ensures { (xs : List Item) → all_items (rows xs) ≡ xs }
{}

/// What is in a body, or in a cell, holds the items of its rows in their order, but that a
/// `nowiki` may be opened in it. This holds of any rows.
pub fn blocks_hold_their_rows()
    ensures { (rs : List RowOf) → opened_all (held_parts (body_parts rs)) ≡ opened_all (all_items rs) }
{}

/// The meaning of items holds them in their order, but that a `nowiki` may be opened in it; joined,
/// its sources are theirs.
pub fn meaning_holds_its_items()
    ensures items { (xs : List Item) → opened_all (tree_items (meaning xs)) ≡ opened_all xs }
    ensures source { (xs : List Item) → sources (tree_items (meaning xs)) ≡ sources xs }
{}

/// The meaning is found by cuts that exist, into lines, units of rows, blocks and leaves, and no
/// other tree is.
pub fn meaning_is_cut_by_lines()
    ensures are { (xs : List Item) → IsMeaning (meaning xs) xs }
    ensures only { (t : ItemTree) (xs : List Item) → IsMeaning t xs → t ≡ meaning xs }
{}
