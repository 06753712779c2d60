ghost use Rattle.std.specs.Prelude.{◌≡◌, ℕ, ◌≤◌, true, Ok, Err, List, [], ◌∷◌, ◌++◌, encode_utf8};
ghost use lib.Utf8.{scalar};
ghost use Rattle.wt_html_grammar.specs.Signs.{Follows, follow, IsGap};
ghost use Rattle.wt_html_grammar.specs.Grammar.{Well, Front};
ghost use Rattle.wt_html_grammar.specs.Machine.{State, start, inside, run};
ghost use Rattle.wt_html_grammar.specs.Places.{IsPlace};
ghost use Rattle.wt_html_grammar.specs.Markup.{Markup, Stands, more, empty};
ghost use Rattle.wt_html_grammar.specs.Events.{built, calm};
ghost use Rattle.wt_html_grammar.specs.declared.why.HtmlWhy.{HtmlWhy};

/// The machine reads the grammar: it comes after the root exactly where the bytes are well-formed,
/// and it goes on exactly while they begin a well-formed input.
pub fn exact_reading()
    ensures read { (bytes : List ℕ) → Well bytes → run start bytes ≡ Ok (inside []) }
    ensures well { (bytes : List ℕ) → run start bytes ≡ Ok (inside []) → Well bytes }
    ensures front { (bytes : List ℕ) (s : State) → run start bytes ≡ Ok s → Front bytes }
    ensures stopped { (bytes : List ℕ) (w : HtmlWhy) → run start bytes ≡ Err w → Front bytes → ⊥ }
{}

/// Every prefix of bytes that begin a well-formed input begins one too.
pub fn fronts_of_fronts()
    ensures { (bytes others : List ℕ) → Front (bytes ++ others) → Front bytes }
{}

/// An input is refused at one place only.
pub fn one_place()
    ensures { (bytes : List ℕ) (m n : ℕ) → IsPlace bytes m → IsPlace bytes n → m ≡ n }
{}

/// White space before and after a well-formed input leaves it well-formed.
pub fn white_space()
    ensures before { (gap bytes : List ℕ) → IsGap gap → Well bytes → Well (gap ++ bytes) }
    ensures behind { (gap bytes : List ℕ) → IsGap gap → Well bytes → Well (bytes ++ gap) }
{}

/// The table of first bytes has the characters past ASCII, and no others.
pub fn characters_in_table()
    ensures sound { (b : ℕ) (bs : List ℕ) → Follows (follow b) bs → (c : ℕ) × (scalar c ≡ true) × (encode_utf8 c ≡ b ∷ bs) }
    ensures whole { (c : ℕ) → scalar c ≡ true → 128 ≤ c → (b : ℕ) × (bs : List ℕ) × (encode_utf8 c ≡ b ∷ bs) × Follows (follow b) bs }
{}

/// What the events of the bytes build is the tree that they stand for; they stand for one at most.
pub fn built_from_spelling()
    ensures built { (bytes : List ℕ) (t : Markup) → Stands bytes t → built bytes ≡ calm [] (more t empty) }
    ensures one_tree { (bytes : List ℕ) (t u : Markup) → Stands bytes t → Stands bytes u → t ≡ u }
{}
