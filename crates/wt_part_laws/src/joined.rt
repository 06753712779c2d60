//! Laws of texts with calls that stand side by side: what each of them calls and gives, it does beside the other one, too.

ghost use Rattle.std.specs.Prelude.{◌≡◌, ◌++◌, false, ℕ, Bool, List};
ghost use Rattle.wt_span.specs.declared.form.Mode.TheVariants.{Page};
ghost use Rattle.wt_span.specs.Braces.{reduced};
ghost use Rattle.wt_span.specs.declared.form.Mode.{Mode};
ghost use Rattle.wt_span.specs.Lexemes.{cuts, words};
ghost use Rattle.wt_expand.specs.Expansion.{Reading};
ghost use Rattle.wt_expand.specs.Work.{Pages};
ghost use Rattle.wt_part_laws.specs.Lexer.{lexer};
ghost use Rattle.wt_part_laws.specs.Scans.{after_all, Settles};
ghost use Rattle.wt_part_laws.specs.Apart.{AreMet, AreReadApart, GivesBoth};
ghost use Rattle.wt_part_laws.specs.Expanded.{GivesAnywhere, BeginsPlain, AreParts, ExpandsBoth};

/// Two texts of which each is read as it is by itself, and where no two braces that open in the first one are closed in
/// the second one: their items and calls are those of the first and those of the second one, and so is the work of
/// expanding them.
#[tactic(auto, using(crate::proofs::ApartStretches::gives_both))]
pub fn texts_side_by_side_give_both()
    ensures { (r : Reading) (at : ℕ) (start : Bool) (bs cs : List ℕ) → AreReadApart r.mode bs cs → GivesBoth r at start bs cs }
{}

/// A text that begins with no call gives the same where a line begins and where none does; and so do two texts side by
/// side that give the same, each by itself.
pub fn texts_give_the_same_anywhere()
    ensures plain { (pages : Pages) (bs : List ℕ) → BeginsPlain (reduced (words Page bs)) → GivesAnywhere pages bs }
    ensures both { (pages : Pages) (bs cs : List ℕ) → AreReadApart Page bs cs → GivesAnywhere pages bs → GivesAnywhere pages cs
        → GivesAnywhere pages (bs ++ cs) }
{}

/// So a page of two such parts, of which the second gives the same wherever it begins, is expanded part by part: its
/// items are those of the first one and those of the second one, where the calls of the first come before; its calls, and
/// those that are text, are those of both, with their places; and so is the work of expanding it.
pub fn parts_of_pages_expand_by_themselves()
    ensures { (pages : Pages) (bs cs : List ℕ) → AreParts pages bs cs → ExpandsBoth pages bs cs }
{}

/// Two texts of which the first is read the same before the second (`Settles`), and the second the same behind it, are
/// read so: their lexemes are those of both, where a run of characters that goes on in the second one is one run.
#[tactic(auto, using(crate::proofs::MetWords::words_meet))]
pub fn lexemes_of_parts_meet()
    ensures { (mode : Mode) (bs cs : List ℕ) → Settles (lexer mode) cs false 0 bs → cuts mode (after_all (lexer mode) false bs) 0 cs ≡ cuts mode false 0 cs
        → AreMet (words mode bs) (words mode cs) (words mode (bs ++ cs)) }
{}
