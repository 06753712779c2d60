//! Texts as they are read: their lexemes and their calls, kept in the arena.
ghost use Rattle.std.specs.Prelude.{◌≡◌, ◌<◌, ◌^◌, All, length, map, IfOk};
ghost use Rattle.wt_braces.specs.Views.{call_of};
ghost use Rattle.wt_transclusion.specs.Reads.{braces_of, AnswersText};
ghost use Rattle.wt_transclusion.specs.Targets.{HasTarget};

use crate::read::{Braces, ReadText};
use bumpalo::Bump;
use std::alloc::Global;
use wt_braces::{BraceRefusal, Call, match_braces};
use wt_lex::{Lexeme, lex};
use wt_span::{List, Mode, NoMemory};

fn kept_call<'a>(arena: &'a Bump<Global>, call: &Call) -> Result<Braces<'a>, NoMemory>
    requires { HasTarget call.now }
    ensures { IfOk result (λ b. braces_of b ≡ call_of call.now) }
{
    let parts = arena.try_alloc_slice_copy(call.parts.as_slice())?;
    Ok(Braces {
        argument: call.argument,
        at: call.at,
        parts,
        parent: call.parent,
    })
}

fn kept_calls<'a>(
    alloc: Global,
    arena: &'a Bump<Global>,
    calls: &[Call],
) -> Result<List<Braces<'a>>, NoMemory>
    requires { All HasTarget calls.now }
    ensures { IfOk result (λ bs. map braces_of bs ≡ map call_of calls.now) }
{
    let mut kept = List::new(alloc);
    for call in calls {
        kept.push(kept_call(arena, call)?)?;
    }
    Ok(kept)
}

fn in_arena<'a>(
    alloc: Global,
    arena: &'a Bump<Global>,
    text: &'a str,
    lexemes: &[Lexeme],
    calls: &[Call],
) -> Result<ReadText<'a>, NoMemory>
    requires few { length text.now < 2 ^ 32 }
    requires targets { All HasTarget calls.now }
    ensures text { IfOk result (λ r. r.text.now ≡ text.entry.now) }
    ensures lexemes { IfOk result (λ r. r.lexemes.now ≡ lexemes.now) }
    ensures calls { IfOk result (λ r. map braces_of r.calls.now ≡ map call_of calls.now) }
{
    let kept = kept_calls(alloc, arena, calls)?;
    let calls = arena.try_alloc_slice_copy(kept.as_slice())?;
    let lexemes = arena.try_alloc_slice_copy(lexemes)?;
    Ok(ReadText {
        text,
        lexemes,
        calls,
    })
}

/// A text with its lexemes and its calls; or the place of the leftmost call that has a hundred
/// others round it.
pub fn read_in<'a>(
    alloc: Global,
    arena: &'a Bump<Global>,
    text: &'a str,
    mode: Mode,
) -> Result<ReadText<'a>, BraceRefusal>
    requires { length text.now < 2 ^ 32 }
    ensures { AnswersText mode text.entry.now result }
{
    let Ok(lexemes) = lex(alloc, text, mode) else {
        return Err(BraceRefusal::NoMemory);
    };
    match match_braces(alloc, &lexemes) {
        Ok(calls) => match in_arena(alloc, arena, text, lexemes.as_slice(), calls.as_slice()) {
            Ok(read) => Ok(read),
            Err(_) => Err(BraceRefusal::NoMemory),
        },
        Err(refusal) => Err(refusal),
    }
}
