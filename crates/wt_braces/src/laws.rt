ghost use Rattle.std.specs.Prelude.{◌≡◌, ℕ, List, map};
ghost use Rattle.wt_span.specs.declared.form.Mode.{Mode as TextMode};
ghost use Rattle.wt_span.specs.Lexemes.{Word, words};
ghost use Rattle.wt_span.specs.Braces.{Members, members, parts_of, reduced, width_of_all, calls, nesting, IsCall, listed};
ghost use Rattle.wt_lex.specs.declared.lexeme.Lexeme.{Lexeme as LexemeAt};
ghost use Rattle.wt_lex.specs.Places.{Follow};
ghost use Rattle.wt_braces.specs.Alone.{AreAlone, IsOneCall};
ghost use Rattle.wt_braces.specs.Depth.{depths_of_all};
ghost use Rattle.wt_braces.specs.Found.{AreAdjacent};
ghost use Rattle.wt_braces.specs.PartMembers.{part_members, placed, rejoined};
ghost use Rattle.wt_braces.specs.Rewriting.{as_members, HaveBraces, IsOnlyEnd};
ghost use Rattle.wt_braces.specs.Words.{total_width};

/// The reduced text is reached by single rewritings of the leftmost closing run that has a partner,
/// with the nearest one, no further rewriting is possible there, and no other end is reached.
pub fn one_end()
    ensures { (ws : List Word) → HaveBraces ws → IsOnlyEnd (as_members ws) (reduced ws) }
{}

/// The lexemes of a text are such that `one_end` speaks of them.
pub fn lexemes_have_braces()
    ensures { (mode : TextMode) (bs : List ℕ) → HaveBraces (words mode bs) }
{}

/// How many calls and arguments contain one, by their places, is how many lie round it in the
/// reduced text.
pub fn nesting_is_depth()
    ensures { (at : ℕ) (ws : List Word) → map (nesting (calls at ws)) (calls at ws) ≡ depths_of_all 0 (members (reduced ws)) }
{}

/// The members of the reduced text take as many bytes as its lexemes.
pub fn widths_stay()
    ensures { (ws : List Word) → width_of_all (members (reduced ws)) ≡ total_width ws }
{}

/// The widths of the members of a call's parts, of each name and each value, are the parts'
/// places.
/// And these members, with the bars between the parts, are all members of the call.
pub fn members_have_places()
    ensures places { (from : ℕ) (ms : Members) → parts_of from ms ≡ placed from (part_members from ms) }
    ensures joined { (from : ℕ) (ms : Members) → rejoined (part_members from ms) ≡ listed ms }
{}

/// The bytes of each call of a text, read by themselves, are this very call and nothing else: what
/// is round a call has no part in how it is read. So a call of some text is a call of its own
/// bytes alone.
pub fn calls_are_alone()
    ensures alone { (mode : TextMode) (text : List ℕ) → AreAlone mode text 0 (members (reduced (words mode text))) }
    ensures one_call { (mode : TextMode) (bs : List ℕ) → IsCall mode bs → IsOneCall mode bs }
{}

/// Lexemes that follow one another, as `lex` gives them, are what `match_braces` asks for.
pub fn lexemes_are_adjacent()
    ensures { (xs : List LexemeAt) (from to : ℕ) → Follow from xs to → AreAdjacent xs }
{}
