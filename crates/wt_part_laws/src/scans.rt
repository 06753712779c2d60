//! Laws of scanners: what is read of a text in two parts.

ghost use Rattle.std.specs.Prelude.{◌≡◌, ℕ, Bool, List, ◌++◌};
ghost use Rattle.wt_span.specs.declared.form.Mode.{Mode as TextMode};
ghost use Rattle.wt_span.specs.Lexemes.{cuts};
ghost use Rattle.wt_tiles.specs.declared.glyph.Glyph.{Glyph as Sign};
ghost use Rattle.wt_tiles.specs.declared.context.Context.{Context};
ghost use Rattle.wt_tiles.specs.Tiles.{cuts as tile_cuts};
ghost use Rattle.wt_part_laws.specs.Lexer.{lexer};
ghost use Rattle.wt_part_laws.specs.Tiler.{tiler};
ghost use Rattle.wt_part_laws.specs.Scans.{Scanner, scan, after_all, onto, Settles, Passes, HasFronts};

/// What is read of a list whose front settles is what is read of the front alone, and after it what is
/// read of the rest alone.
#[tactic(auto, using(crate::proofs::Joins::scan_joins))]
pub fn fronts_join<A, W>()
    ensures { (s : Scanner A W) (rest q : List A) (after : Bool) (n : ℕ) → Settles s rest after n q
        → scan s after n (q ++ rest) ≡ onto s after n q (scan s (after_all s after q) 0 rest) }
{}

/// Where no form goes over the end of a front, the front settles.
#[tactic(auto, using(crate::proofs::Joins::passes_settle))]
pub fn uncrossed_fronts_settle<A, W>()
    ensures { (s : Scanner A W) (rest q : List A) (after : Bool) (n : ℕ) → HasFronts s → Passes s rest after n q → Settles s rest after n q }
{}

/// The lexemes of a text whose front settles are those of the front, and after them those of the rest.
#[tactic(auto, using(crate::proofs::Parted::cuts_join))]
pub fn lexemes_join()
    ensures { (mode : TextMode) (a : Bool) (n : ℕ) (q rest : List ℕ) → Settles (lexer mode) rest a n q
        → cuts mode a n (q ++ rest) ≡ onto (lexer mode) a n q (cuts mode (after_all (lexer mode) a q) 0 rest) }
{}

/// A lexeme that fits into a front of a text is read of the front alone, and where none begins the text, none
/// begins a front. So the lexemes of a text that is cut where no lexeme goes over the cut are those of its two
/// parts.
#[tactic(auto, using(crate::proofs::LexemeFronts::lexemes_front, crate::proofs::LexemeFronts::uncrossed_join))]
pub fn lexemes_have_fronts()
    ensures fronts { (mode : TextMode) → HasFronts (lexer mode) }
    ensures uncrossed { (mode : TextMode) (a : Bool) (n : ℕ) (q rest : List ℕ) → Passes (lexer mode) rest a n q
        → cuts mode a n (q ++ rest) ≡ onto (lexer mode) a n q (cuts mode (after_all (lexer mode) a q) 0 rest) }
{}

/// The tiles of a context whose front settles are those of the front, and after them those of the rest.
#[tactic(auto, using(crate::proofs::PartedTiles::cuts_join))]
pub fn tiles_join()
    ensures { (cx : Context) (a : Bool) (n : ℕ) (q rest : List Sign) → Settles (tiler cx) rest a n q
        → tile_cuts cx a n (q ++ rest) ≡ onto (tiler cx) a n q (tile_cuts cx (after_all (tiler cx) a q) 0 rest) }
{}
