//! Laws of what tangles a block, which do nothing when they are called.

ghost use Rattle.std.specs.Prelude.{◌≡◌, ◌↔◌, ℕ, List, [], true};
ghost use Rattle.wt_span.specs.Origins.{Span};
ghost use Rattle.wt_tree.specs.declared.kind.Ranges.{Ranges};
ghost use Rattle.wt_tree.specs.Tree.{Trees};
ghost use Rattle.wt_tiles.specs.declared.glyph.Glyph.{Glyph};
ghost use Rattle.wt_isolation.specs.OpenTags.{EndsOpen, ends_open};
ghost use Rattle.wt_isolation.specs.OpenTexts.{has_open_text, holds_open};
ghost use Rattle.wt_isolation.specs.TangledLaws.{AreLines, AreRuns, HasOpenText, HoldsOpen, SharesByte};
ghost use Rattle.wt_isolation.specs.TextCalls.{share_byte};
ghost use Rattle.wt_isolation.specs.Toggles.{lines, quote_runs};

/// A call and a block share a byte exactly where one byte of the page lies in both.
#[tactic(auto, using(crate::proofs::SharedBytes::shared))]
pub fn calls_share_bytes()
    ensures { (s : Span) (r : Ranges) → (share_byte s r ≡ true) ↔ SharesByte s r }
{}

/// A text holds the beginning of a tag or of a link exactly where it can be cut before one.
#[tactic(auto, using(crate::proofs::HeldOpen::held_open))]
pub fn open_texts_are_cut()
    ensures { (text : List ℕ) → (holds_open text ≡ true) ↔ HoldsOpen text }
{}

/// The lines of items are those that give the items where line breaks are between them, and hold none.
#[tactic(auto, using(crate::proofs::LinesJoined::lines_joined))]
pub fn lines_are_joined()
    ensures { (ls : List (List Glyph)) (gs : List Glyph) → AreLines ls gs ↔ (ls ≡ lines gs) }
{}

/// The lengths of the runs of apostrophes are those that give the items where one other item is between each two.
#[tactic(auto, using(crate::proofs::RunsJoined::runs_joined))]
pub fn runs_are_joined()
    ensures { (ns : List ℕ) (gs : List Glyph) → AreRuns ns gs ↔ (ns ≡ quote_runs 0 gs) }
{}

/// Nodes have a text that could go on exactly where such texts are among them, one directly after the other, or in a bold or an
/// italic node.
#[tactic(auto, using(crate::proofs::StandingOpen::standing_open))]
pub fn open_texts_stand()
    ensures { (ts : Trees) → (has_open_text [] ts ≡ true) ↔ HasOpenText ts }
{}

/// A text ends in an open tag exactly where a `<` with an ASCII letter after it is in it, and from
/// there on no `<`, `>` or line break.
pub fn open_tags()
    ensures { (text : List ℕ) → (ends_open text ≡ true) ↔ EndsOpen text }
{}
