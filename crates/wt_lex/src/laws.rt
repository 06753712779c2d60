ghost use Rattle.std.specs.Prelude.{◌≡◌, ℕ, Bool, List, All, Some, false, take};
ghost use Rattle.wt_span.specs.declared.form.Mode.{Mode as TextMode};
ghost use Rattle.wt_span.specs.declared.form.LexKind.{LexKind as WordKind};
ghost use Rattle.wt_span.specs.Lexemes.{Word, form_at, words};
ghost use Rattle.wt_lex.specs.Reading.{AreLexemes};
ghost use Rattle.wt_lex.specs.SignWidths.{HasSignWidth};
ghost use Rattle.wt_lex.specs.WholeWords.{IsWholeWord};

/// The lexemes of a text join to it, each is the first form that begins at its place or a run of
/// characters at none of which a form begins, no two such runs are neighbours, and no other list
/// of lexemes is so.
pub fn one_reading()
    ensures are { (mode : TextMode) (bs : List ℕ) → AreLexemes mode false (words mode bs) bs }
    ensures only { (mode : TextMode) (ws : List Word) (bs : List ℕ) → AreLexemes mode false ws bs → ws ≡ words mode bs }
{}

/// A form that is cut out of its text, a page or a template, is whole by itself: what makes an
/// item of it.
pub fn whole_forms()
    ensures { (mode : TextMode) (after : Bool) (kind : WordKind) (n : ℕ) (bs : List ℕ)
        → form_at mode after bs ≡ Some (kind, n) → IsWholeWord mode kind (take n bs) }
{}

/// Among the lexemes of a text runs of braces have two bytes or more, and `|` and `=` have one.
pub fn sign_widths()
    ensures { (mode : TextMode) (bs : List ℕ) → All HasSignWidth (words mode bs) }
{}
