//! What holds of any tables and any lines of cells.

ghost use Rattle.std.specs.Prelude.{◌≡◌, ℕ, Bool, List, ◌∷◌, true, false};
ghost use Rattle.std.specs.List.{flat_map};
ghost use Rattle.wt_span.specs.Items.{Item};
ghost use Rattle.wt_lines.specs.declared.kind.LineKind.{LineKind as Kind};
ghost use Rattle.wt_lines.specs.declared.kind.LineKind.TheVariants as kind;
ghost use Rattle.wt_lines.specs.Kinds.{line_kind};
ghost use Rattle.wt_tables.specs.declared.scan.Splits.{Splits as By};
ghost use Rattle.wt_tables.specs.Cells.{parts, cells, whole, from_sign, begins_cell};
ghost use Rattle.wt_tables.specs.CutLaws.{AreCut, has_cells};
ghost use Rattle.wt_tables.specs.Parts.{table_of, table_lines};

/// The cells of a line cut it, from its sign on, before each sign of a further cell from the left,
/// and nothing else is such a cut.
pub fn one_cut_of_cells()
    ensures are { (by : By) (n : ℕ) (xs : List Item) → AreCut by n (parts by n xs) xs }
    ensures only { (by : By) (n : ℕ) (ps : List (List Item)) (xs : List Item) → AreCut by n ps xs → ps ≡ parts by n xs }
{}

/// The cells of a line join to what it has from its first sign on.
pub fn cells_join()
    ensures { (caption : Bool) (xs : List Item) → flat_map whole (cells caption xs) ≡ from_sign xs }
{}

/// Lines of cells, header cells and captions have what `cells` asks for.
pub fn lines_of_cells()
    ensures cells { (n : ℕ) (xs : List Item) → has_cells (line_kind n xs) ≡ true → begins_cell false xs ≡ true }
    ensures captions { (n : ℕ) (xs : List Item) → line_kind n xs ≡ kind.Caption → begins_cell true xs ≡ true }
{}

/// The parts of a table join to its lines.
pub fn parts_join<L>()
    ensures { (kind_of : L → Kind) (first : L) (inside : List L) → table_lines (table_of kind_of first inside) ≡ first ∷ inside }
{}
