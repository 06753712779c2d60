//! What a reader of elements answers, and what it knows of what it was fed.
ghost use Rattle.std.specs.Prelude.{◌≡◌, ◌++◌, ℕ, List, length, Ok, Some, None};
ghost use Rattle.wt_html_grammar.specs.Grammar.{Well};
ghost use Rattle.wt_html_grammar.specs.declared.why.HtmlWhy.{HtmlWhy};
ghost use Rattle.wt_html_elements.specs.Answer.{Answers, IsFed, IsIll, RefusedFor};
ghost use Rattle.wt_html_elements.specs.Built.{view_content};
ghost use Rattle.wt_html_elements.specs.declared.content.Content.{Content};
ghost use Rattle.wt_html_reasons.specs.declared.refusal.HtmlRefusal.{HtmlRefusal};
ghost use Rattle.wt_html_reasons.specs.declared.refusal.HtmlRefusal.TheVariants as refusals;
ghost use Rattle.wt_html_elements.specs.declared.reader.Reader.{Reader};
ghost use Rattle.wt_page_laws.specs.Pieces.{GoOnAlike};

/// Bytes are answered by one tree at most, and are refused at one place and for one reason at most, and
/// never both.
pub fn element_answers_are_one()
    ensures tree { (bytes : List ℕ) → (a b : Content) → Answers (Ok a) bytes → Answers (Ok b) bytes → view_content a ≡ view_content b }
    ensures refused { (bytes : List ℕ) → (a : Content) → (r : HtmlRefusal) → Answers (Ok a) bytes → RefusedFor bytes r → r ≡ refusals.NoMemory }
    ensures place { (bytes : List ℕ) → (m n : ℕ) → (v w : HtmlWhy) → RefusedFor bytes (refusals.Html m v) → RefusedFor bytes (refusals.Html n w) → (m ≡ n) × (v ≡ w) }
{}

/// Input that was refused because it can't be well-formed doesn't become well-formed by anything that follows.
pub fn ill_input_stays_ill()
    ensures { (bytes more : List ℕ) → (place : ℕ) → (w : HtmlWhy) → IsIll bytes (refusals.Html place w) → Well (bytes ++ more) → ⊥ }
{}

/// A reader that goes on was fed as many bytes as it counts, and all bytes that it may have been fed are made
/// well-formed by the same; one that has failed for what it was fed is right whatever follows.
pub fn readers_know_what_may_follow()
    ensures count { (r : Reader) → (bytes : List ℕ) → r.failed ≡ None → IsFed r bytes → r.taken ≡ length bytes }
    ensures alike { (r : Reader) → (bytes others : List ℕ) → r.failed ≡ None → IsFed r bytes → IsFed r others → GoOnAlike bytes others }
    ensures failed { (r : Reader) → (bytes more : List ℕ) → (place : ℕ) → (w : HtmlWhy) → r.failed ≡ Some (refusals.Html place w) → IsFed r bytes → RefusedFor (bytes ++ more) (refusals.Html place w) }
{}
