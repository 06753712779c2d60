//! The page that `gen` makes.
ghost use Rattle.std.specs.Prelude.{◌≡◌, ◌≤◌, ℕ, codes};
ghost use Rattle.wt_page_laws.specs.MadePages.{lines_with};
ghost use Rattle.wt_gen.specs.Gen.{sections};

/// The page that is made with a number has as many headings of level 2, paragraphs, items and calls: so many lines begin
/// as each of these does.
pub fn made_pages_have_their_sections()
    ensures headings { (n : ℕ) → n ≤ 10000 → lines_with (codes "== Section ") (sections n) ≡ n }
    ensures paragraphs { (n : ℕ) → n ≤ 10000 → lines_with (codes "Word ''") (sections n) ≡ n }
    ensures items { (n : ℕ) → n ≤ 10000 → lines_with (codes "* item ") (sections n) ≡ n }
    ensures calls { (n : ℕ) → n ≤ 10000 → lines_with (codes "{{T}}") (sections n) ≡ n }
{}
