//! Laws of the spelling, which do nothing when they are called.

ghost use Rattle.std.specs.Prelude.{◌≡◌, [], ℕ, List};
ghost use Rattle.std.specs.List.{flat_map};
ghost use Rattle.std.specs.Str.{chars};
ghost use Rattle.wt_guards.specs.Content.{ContentSign, letters};
ghost use Rattle.wt_guards.specs.Guards.{Setting, spelled};
ghost use Rattle.wt_guards.specs.WrittenLaws.{itself, breaks, IsQuiet, Pieces};

/// Where no guard holds and no character is written as a reference, the content is written as it
/// is: each node by its source and each character by itself.
#[tactic(auto, using(crate::proofs::SpellingLaws::quiet_from))]
pub fn quiet_content_stays()
    ensures { (s : Setting) (signs : List ContentSign) → IsQuiet s [] signs → spelled s signs ≡ flat_map itself signs }
{}

/// Text alone is written of `<nowiki/>`, of references, and of characters other than `[`, `]`, `{`,
/// `}`, `|` and `>`, and these stand for its characters in their order.
#[tactic(auto, using(crate::proofs::SpellingLaws::text_pieces))]
pub fn text_is_harmless()
    ensures { (s : Setting) (text : List ℕ) → Pieces (chars text) (spelled s (letters text)) }
{}

/// As many line breaks are written as the nodes' sources and the texts have.
#[tactic(auto, using(crate::proofs::Breaks::same_breaks))]
pub fn line_breaks_stay()
    ensures { (s : Setting) (signs : List ContentSign) → breaks (spelled s signs) ≡ breaks (flat_map itself signs) }
{}
