ghost use Rattle.std.specs.Prelude.{[], map, IfOk};
ghost use Rattle.wt_span.specs.Braces.{reduced_onto, calls};
ghost use Rattle.wt_lex.specs.Places.{word_of};
ghost use Rattle.wt_braces.specs.Found.{first_place, AreAdjacent, AnswersCalls};
ghost use Rattle.wt_braces.specs.Reading.{AllRead};

use crate::call::{BraceRefusal, Call};
use crate::matching::Matching;
use crate::nesting::in_order;
use std::alloc::Global;
use wt_lex::Lexeme;
use wt_span::{List, NoMemory};

/// Reads all lexemes.
fn read_all(alloc: Global, lexemes: &[Lexeme]) -> Result<Matching, NoMemory>
    requires { AreAdjacent lexemes.now }
    ensures { IfOk result (λ m. AllRead (first_place lexemes.now) (reduced_onto [] (map word_of lexemes.now)) m) }
{
    let mut matching = Matching::new(alloc);
    for lexeme in lexemes {
        matching.read(alloc, *lexeme)?;
    }
    Ok(matching)
}

/// The calls and arguments of lexemes that follow one another, in the order of their first bytes.
/// Places are those of the lexemes.
pub fn match_braces(alloc: Global, lexemes: &List<Lexeme>) -> Result<List<Call>, BraceRefusal>
    requires { AreAdjacent lexemes.now }
    ensures { AnswersCalls (calls (first_place lexemes.now) (map word_of lexemes.now)) result }
{
    match read_all(alloc, lexemes.as_slice()) {
        Ok(matching) => in_order(alloc, matching.into_closed()),
        Err(NoMemory) => Err(BraceRefusal::NoMemory),
    }
}
