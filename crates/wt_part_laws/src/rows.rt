//! Laws of the rows of a page (`wt_page`), in other words than their definitions: kinds of lines and units by
//! counts, blocks by cases.

ghost use Rattle.std.specs.Prelude.{◌≡◌, ◌≤◌, List, [], ◌∷◌, length};
ghost use Rattle.std.specs.List.{AllByRecursion, flat_map};
ghost use Rattle.wt_span.specs.Items.{Item};
ghost use Rattle.wt_lines.specs.declared.kind.LineKind.TheVariants as kind;
ghost use Rattle.wt_lines.specs.declared.kind.TheConstants.{MOST_TABLES};
ghost use Rattle.wt_tables.specs.Parts.{units, table_of};
ghost use Rattle.wt_inline.specs.ItemTree.{ItemTree};
ghost use Rattle.wt_page.specs.Rows.{Row, kind_of, rows_from};
ghost use Rattle.wt_page.specs.Tables.{Reading};
ghost use Rattle.wt_page.specs.Body.{blocks_by, meaning};
ghost use Rattle.wt_part_laws.specs.Counts.{KindIsCounted};
ghost use Rattle.wt_part_laws.specs.Units.{IsUnit, AreUnits, HoldsUnits};
ghost use Rattle.wt_part_laws.specs.Cells.{CellsHoldBlocks};
ghost use Rattle.wt_part_laws.specs.Blocks.{Block, AreBlocks, BeginOtherwise, block_parts, IsMeaningByCases};
ghost use Rattle.wt_part_laws.specs.Slots.{Slot, AreInCells, AreApart, AreFew, PlacesStand};
ghost use Rattle.wt_part_laws.specs.Rounds.{TableRound, AreContent, IsTableRound, EndOtherwise, ParagraphStands, HeadingStands};

/// The kind of a line is that at which so many tables are open as the rows before it have opened, less
/// those that they have ended.
pub fn kinds_are_counted()
    ensures { (ls : List (List Item)) (l : List Item) (ms : List (List Item)) → KindIsCounted ls l ms }
{}

/// The rows of a page are units: rows that neither open nor end a table, and whole tables, each of which
/// goes up to and with the row that brings its count back. No rows are cut into units in another way.
pub fn units_are_counted()
    ensures are { (ls : List (List Item)) → AreUnits (units kind_of (rows_from 0 ls)) (rows_from 0 ls) }
    ensures only { (us : List (List Row)) (rs : List Row) → AreUnits us rs → us ≡ units kind_of rs }
{}

/// Tables nest: between the row that opens a table and the one that ends it are whole units, so of two
/// tables the later one lies after the other or within it.
pub fn tables_hold_units()
    ensures { (r : Row) (rs : List Row) → r.kind ≡ kind.TableOpen → IsUnit (r ∷ rs) → HoldsUnits rs }
{}

/// Rows that are blocks one after the other, by the cases of their kinds, are read as what these make,
/// however cells are read.
pub fn blocks_are_read_by_cases()
    ensures { (read : Reading) (bs : List Block) (rs : List Row) → AreBlocks bs rs
        → blocks_by read rs ≡ flat_map (block_parts read) bs }
{}

/// In a table whose inside is whole units, what comes after each line of cells or of a caption is blocks,
/// defined by cases of their rows.
pub fn cells_hold_blocks()
    ensures { (first : Row) (inside : List Row) → AreUnits (units kind_of inside) inside
        → CellsHoldBlocks (table_of kind_of first inside) }
{}

/// The meaning of a page is the one tree that is found by blocks which are defined by cases of their rows.
pub fn meaning_is_read_by_cases()
    ensures are { (xs : List Item) → IsMeaningByCases (meaning xs) xs }
    ensures only { (t : ItemTree) (xs : List Item) → IsMeaningByCases t xs → t ≡ meaning xs }
{}

/// A paragraph in a cell of a table, which may be in a cell of another one, and so on, is at a place in the tree that
/// its text doesn't move: whatever rows of text it is made of, the same nodes are round it, with the same children
/// before it and behind it.
#[tactic(auto, using(crate::proofs::InCells::paragraph_stands))]
pub fn paragraphs_stand_in_cells()
    ensures { (ts : List TableRound) (xs ys : List Row) (lead ending : List Item) → AllByRecursion IsTableRound ts → length ts ≤ MOST_TABLES
        → AreContent xs → AreContent ys → EndOtherwise kind.Text xs → BeginOtherwise kind.Text ys → ParagraphStands ts xs ys lead ending }
{}

/// And so is a heading there, whatever it is: no other row is part of it, so it may stand between any rows of a cell.
#[tactic(auto, using(crate::proofs::HeadingsInCells::heading_stands))]
pub fn headings_stand_in_cells()
    ensures { (ts : List TableRound) (xs ys : List Row) (lead ending : List Item) → AllByRecursion IsTableRound ts → length ts ≤ MOST_TABLES
        → AreContent xs → AreContent ys → HeadingStands ts xs ys lead ending }
{}

/// The same of any number of paragraphs and headings at once, in the body and in cells and captions of tables.
#[tactic(auto, using(crate::proofs::Places::places_stand))]
pub fn blocks_stand_at_their_places()
    ensures { (ss : List Slot) → AreInCells [] ss → AreApart ss → AreFew MOST_TABLES [] ss → PlacesStand ss }
{}
