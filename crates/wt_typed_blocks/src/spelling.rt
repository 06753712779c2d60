//! Laws of the spelling, in the words of a reader of wikitext.

ghost use Rattle.std.specs.Prelude.{◌≡◌, ℕ, List, Some, true, false, codes};
ghost use Rattle.std.specs.List.{All};
ghost use Rattle.std.specs.Str.{IsUtf8};
ghost use Rattle.wt_span.specs.declared.form.Mode.{Mode};
ghost use Rattle.wt_guards.specs.Content.{letters};
ghost use Rattle.wt_guards.specs.Guards.{Setting, spelled};
ghost use Rattle.wt_expand.specs.PageItems.{page_items};
ghost use Rattle.wt_lines.specs.Kinds.{line_kind};
ghost use Rattle.wt_lines.specs.Lines.{lines};
ghost use Rattle.wt_lines.specs.declared.kind.LineKind.TheVariants as kind;
ghost use Rattle.wt_typed_blocks.specs.Reading.{read_text, stands};

/// A text alone, whatever it is, is spelled to wikitext whose lexemes are characters, `=`, character
/// references and empty nowikis, and they show the text.
#[tactic(auto, using(crate::proofs::TextReads::text_reads_back))]
pub fn text_reads_back()
    ensures { (mode : Mode) (s : Setting) (text : List ℕ) → IsUtf8 text → read_text mode (spelled s (letters text)) ≡ Some text }
{}

/// Nor has it two apostrophes beside each other, two `_`, or a `://`, with which styles, switches and
/// links without brackets begin.
#[tactic(auto, using(crate::proofs::Signs::no_styles, crate::proofs::Signs::no_switches, crate::proofs::Signs::no_addresses))]
pub fn text_has_no_signs()
    ensures styles { (s : Setting) (text : List ℕ) → stands (codes "''") (spelled s (letters text)) ≡ false }
    ensures switches { (s : Setting) (text : List ℕ) → stands (codes "__") (spelled s (letters text)) ≡ false }
    ensures addresses { (s : Setting) (text : List ℕ) → stands (codes "://") (spelled s (letters text)) ≡ false }
{}

/// Outside links and tags, each of its lines is text, in tables too: no line is empty, and none begins
/// another block than a paragraph.
#[tactic(auto, using(crate::proofs::TextKinds::lines_are_text))]
pub fn lines_stay_text()
    ensures { (s : Setting) (text : List ℕ) (tables : ℕ) → IsUtf8 text → s.within ≡ false
        → All (λ line. line_kind tables line ≡ kind.Text) (lines (page_items (spelled s (letters text)))) }
{}
