//! What calls and arguments give, from what was read of them.
ghost use Rattle.std.specs.Prelude.{◌≡◌, ◌<◌, ◌∷◌, ◌++◌, [], None, IfOk, codes, length};
ghost use Rattle.wt_span.specs.Items.{char, items, items_of};
ghost use Rattle.wt_span.specs.Characters as byte;
ghost use Rattle.wt_expand.specs.Expansion.{chars, with_break};

use crate::item::piece_of;
use crate::line_start::opens_block;
use std::alloc::Global;
use wt_span::{ItemForm, List, NoMemory, Piece, Text};

/// A copy of a value.
pub fn copied<'a>(alloc: Global, pieces: &[Piece<'a>]) -> Result<List<Piece<'a>>, NoMemory>
    ensures { IfOk result (λ ps. ps ≡ pieces.now) }
{
    let mut copy = List::new(alloc);
    copy.extend_from_slice(pieces)?;
    Ok(copy)
}

/// A piece of one line break, which stands for itself.
fn line_break() -> Piece<'static>
    ensures { items_of result ≡ char None byte.line_break ∷ [] }
{
    piece_of(Text::new("\n", 0), ItemForm::Chars)
}

/// Pieces after a line break.
fn behind_break<'a>(alloc: Global, pieces: &[Piece<'a>]) -> Result<List<Piece<'a>>, NoMemory>
    ensures { IfOk result (λ ps. items ps ≡ char None byte.line_break ∷ items pieces.now) }
{
    let mut out = List::new(alloc);
    out.push(line_break())?;
    out.extend_from_slice(pieces)?;
    Ok(out)
}

/// What a page gives to the call that is at the start of a line or doesn't: with a line break
/// before what only counts there.
pub fn with_break<'a>(
    alloc: Global,
    at_start: bool,
    pieces: List<Piece<'a>>,
) -> Result<List<Piece<'a>>, NoMemory>
    ensures { IfOk result (λ ps. items ps ≡ with_break at_start (items pieces.entry)) }
{
    if at_start || !opens_block(pieces.as_slice()) {
        return Ok(pieces);
    }
    behind_break(alloc, pieces.as_slice())
}

/// Three braces of one kind.
fn braces(text: &'static str) -> Piece<'static>
    requires { length text.now < 4 }
    ensures { items_of result ≡ chars text.now }
{
    piece_of(Text::new(text, 0), ItemForm::Chars)
}

/// An argument without a value and without a default: its own spelling, with its name as it was
/// expanded.
pub fn spelled<'a>(alloc: Global, name: &[Piece<'a>]) -> Result<List<Piece<'a>>, NoMemory>
    ensures { IfOk result (λ ps. items ps ≡ chars (codes "{{{") ++ (items name.now ++ chars (codes "}}}"))) }
{
    let mut out = List::new(alloc);
    out.push(braces("{{{"))?;
    out.extend_from_slice(name)?;
    out.push(braces("}}}"))?;
    Ok(out)
}
