//! The text and the source of pieces.

ghost use Rattle.std.specs.Prelude.{◌≡◌, ◌++◌, OnOk, IfOk};
ghost use Rattle.wt_span.specs.Items.{items, items_of, sources};
ghost use Rattle.wt_context.specs.Heads.{text_of, visible_source};

use std::alloc::Global;
use wt_inline::push_shown;
use wt_lines::is_mark;
use wt_span::{NoMemory, Piece, Str};

/// The text of pieces: characters, and the characters that entities stand for.
pub fn text_of(alloc: Global, pieces: &[Piece<'_>]) -> Result<Str, NoMemory>
    ensures { IfOk result (λ s. s ≡ text_of (items pieces.now)) }
{
    let mut text = Str::new(alloc);
    for piece in pieces {
        push_shown(&mut text, piece)?;
    }
    Ok(text)
}

/// The source of pieces.
pub fn source_of(alloc: Global, pieces: &[Piece<'_>]) -> Result<Str, NoMemory>
    ensures { IfOk result (λ s. s ≡ sources (items pieces.now)) }
{
    let mut source = Str::new(alloc);
    for piece in pieces {
        source.push_str(piece.text.as_str())?;
    }
    Ok(source)
}

fn push_visible(out: &mut Str, piece: &Piece<'_>) -> Result<(), NoMemory>
    ensures { OnOk result (out.new ≡ out.old ++ visible_source (items_of piece.now)) }
{
    if is_mark(piece) {
        return Ok(());
    }
    out.push_str(piece.text.as_str())
}

/// The source of pieces, marks left out.
pub fn visible_source(alloc: Global, pieces: &[Piece<'_>]) -> Result<Str, NoMemory>
    ensures { IfOk result (λ s. s ≡ visible_source (items pieces.now)) }
{
    let mut source = Str::new(alloc);
    for piece in pieces {
        push_visible(&mut source, piece)?;
    }
    Ok(source)
}
