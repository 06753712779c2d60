//! How pieces of lines are parted.
ghost use Rattle.std.specs.Prelude.{◌↔◌, ℕ, List};
ghost use Rattle.wt_lines.specs.Pieces.{AllParted, AreLeadingMarks};
ghost use Rattle.wt_span.specs.declared.form.Piece.{Piece};
ghost use Rattle.wt_page_laws.specs.Fronts.{AreMarksInFront, BreaksStandAlone};

/// Of parted pieces there are as many line breaks as line breaks among their items, each of them one item,
/// and none is empty.
pub fn breaks_are_pieces()
    ensures { (ps : List Piece) → AllParted ps → BreaksStandAlone ps }
{}

/// The marks at the front are so many pieces exactly where all that these hold are marks, and what follows
/// begins with none.
pub fn marks_stand_in_front()
    ensures { (ps : List Piece) → (n : ℕ) → (AreLeadingMarks ps n) ↔ (AreMarksInFront ps n) }
{}
