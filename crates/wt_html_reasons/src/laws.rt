ghost use Rattle.std.specs.Prelude.{◌≡◌, ℕ, true, List, ◌++◌};
ghost use Rattle.std.specs.Str.{IsUtf8};
ghost use Rattle.wt_html_grammar.specs.Grammar.{Well, Front};
ghost use Rattle.wt_html_grammar.specs.Places.{IsPlace, Refused};
ghost use Rattle.wt_html_grammar.specs.declared.why.HtmlWhy.{HtmlWhy};
ghost use Rattle.wt_html_reasons.specs.Reasons.{Holds, comes_before};

/// The reason of a refusal is the first that holds at its place.
pub fn first_reason()
    ensures holds { (bytes : List ℕ) (place : ℕ) (w : HtmlWhy) → Refused bytes place w → Holds w bytes place }
    ensures first { (bytes : List ℕ) (place : ℕ) (v w : HtmlWhy) → Refused bytes place w → comes_before v w ≡ true → Holds v bytes place → ⊥ }
    ensures only { (bytes : List ℕ) (place : ℕ) (w : HtmlWhy) → IsPlace bytes place → Holds w bytes place
        → ((v : HtmlWhy) → comes_before v w ≡ true → Holds v bytes place → ⊥) → Refused bytes place w }
{}

/// An input is refused at one place, for one reason.
pub fn one_reason()
    ensures { (bytes : List ℕ) (m n : ℕ) (v w : HtmlWhy) → Refused bytes m v → Refused bytes n w → (m ≡ n) × (v ≡ w) }
{}

/// What is well-formed is in UTF-8, and what begins it begins a text in UTF-8.
pub fn in_utf8()
    ensures well { (bytes : List ℕ) → Well bytes → IsUtf8 bytes }
    ensures front { (bytes : List ℕ) → Front bytes → (more : List ℕ) × IsUtf8 (bytes ++ more) }
{}
