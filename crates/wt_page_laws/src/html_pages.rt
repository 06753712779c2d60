//! What a reader of pages answers, and what it knows of what it was fed.
ghost use Rattle.std.specs.Prelude.{◌≡◌, ◌⊎◌, ◌↔◌, ◌++◌, ℕ, List, Ok, Option, Some, None};
ghost use Rattle.wt_tree.specs.Tree.{Tree};
ghost use Rattle.wt_html_grammar.specs.declared.why.HtmlWhy.{HtmlWhy};
ghost use Rattle.wt_schema.specs.Read.{IsRead, page, read};
ghost use Rattle.wt_html_in.specs.Answers.{Answers, RefusedFor, body_of, unsourced_of};
ghost use Rattle.wt_html_in.specs.Feeding.{IsFed, IsIll, failed_of};
ghost use Rattle.wt_html_in.specs.declared.edited.Edited.{Edited};
ghost use Rattle.wt_html_in.specs.declared.reader.Reader.{Reader};
ghost use Rattle.wt_html_in.specs.declared.refusal.HtmlRefusal.{HtmlRefusal};
ghost use Rattle.wt_html_in.specs.declared.refusal.HtmlRefusal.TheVariants as refusals;
ghost use Rattle.wt_page_laws.specs.Pieces.{GoOnAlike};

/// Bytes are answered by one page at most, and refused in one way at most, and never both: want of memory
/// alone may be beside another answer.
pub fn page_answers_are_one()
    ensures page { (bytes : List ℕ) → (a b : Edited) → Answers (Ok a) bytes → Answers (Ok b) bytes → (body_of a ≡ body_of b) × (unsourced_of a ≡ unsourced_of b) }
    ensures refused { (bytes : List ℕ) → (a : Edited) → (r : HtmlRefusal) → Answers (Ok a) bytes → RefusedFor bytes r → r ≡ refusals.NoMemory }
    ensures one { (bytes : List ℕ) → (r s : HtmlRefusal) → RefusedFor bytes r → RefusedFor bytes s → (r ≡ refusals.NoMemory) ⊎ ((s ≡ refusals.NoMemory) ⊎ (r ≡ s)) }
{}

/// A page is answered exactly where the bytes stand for a tree of elements that is this page. What can't be
/// HTML isn't made a page by anything that follows.
pub fn page_answers_are_in_the_grammar()
    ensures page { (bytes : List ℕ) → (a : Edited) → (Answers (Ok a) bytes) ↔ (IsRead bytes (page (body_of a) (unsourced_of a))) }
    ensures ill { (bytes more : List ℕ) → (place : ℕ) → (w : HtmlWhy) → (t : Tree) → (u : Option ℕ) → IsIll bytes (refusals.Html place w) → read (bytes ++ more) ≡ page t u → ⊥ }
{}

/// All bytes that a reader of pages may have been fed, if it goes on, are made well-formed by the same.
pub fn pages_know_what_may_follow()
    ensures { (r : Reader) → (bytes others : List ℕ) → failed_of r ≡ None → IsFed r bytes → IsFed r others → GoOnAlike bytes others }
{}
