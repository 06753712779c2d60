//! Where lexemes begin and end.
ghost use Rattle.std.specs.Prelude.{◌≡◌, ◌↔◌, ℕ, ◌+◌, ◌-◌, List, [], ◌∷◌, ◌++◌, take, drop};
ghost use Rattle.std.specs.Str.{IsUtf8};
ghost use Rattle.wt_lex.specs.Places.{AtBorders, Follow};
ghost use Rattle.wt_lex.specs.declared.lexeme.Lexeme.{Lexeme};
ghost use Rattle.wt_page_laws.specs.Sides.{starts, ends, width};

/// Lexemes follow one another from a place to another exactly where the places at which they begin, and
/// the last place, are the first place and those at which they end. They have as many bytes as lie
/// between.
pub fn lexemes_begin_where_others_end()
    ensures sides { (from to : ℕ) → (xs : List Lexeme) → (Follow from xs to) ↔ (starts xs ++ to ∷ [] ≡ from ∷ ends xs) }
    ensures width { (from to : ℕ) → (xs : List Lexeme) → Follow from xs to → from + width xs ≡ to }
{}

/// What is cut out of a text at the borders of a lexeme is a text.
pub fn lexemes_are_cut_out()
    ensures { (text : List ℕ) → (x : Lexeme) → IsUtf8 text → AtBorders text x → IsUtf8 (take (x.at.end - x.at.start) (drop x.at.start text)) }
{}
