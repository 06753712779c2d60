ghost use Rattle.std.specs.Prelude.{◌≡◌, ◌<◌, ◌^◌, [], All, length, IfOk};
ghost use Rattle.wt_lex.specs.Places.{AtBorders};
ghost use Rattle.wt_expand.specs.PageItems.{page_items};
ghost use Rattle.wt_expand.specs.Made.{AreMade};

use crate::piece::piece_of;
use std::alloc::Global;
use wt_lex::{Lexeme, lex};
use wt_span::{Items, List, Mode, NoMemory, Piece, Text};

/// The lexemes of a page as pieces.
fn pieces_of<'a>(
    alloc: Global,
    page: &'a str,
    lexemes: &[Lexeme],
) -> Result<List<Piece<'a>>, NoMemory>
    requires fits { length page.now < 2 ^ 32 }
    requires borders { All (AtBorders page.now) lexemes.now }
    ensures { IfOk result (λ ps. AreMade page.entry.now ps lexemes.now) }
{
    let text = Text::new(page, 0);
    let mut pieces = List::new(alloc);
    for lexeme in lexemes {
        pieces.push(piece_of(text, *lexeme))?;
    }
    Ok(pieces)
}

/// The items of a page, read as one that has no calls: runs of braces, pipes and the like are
/// characters. Comments, raw tags, include tags, hidden parts and entities are one item each.
pub fn page_items<'a>(alloc: Global, page: &'a str) -> Result<Items<'a>, NoMemory>
    requires { length page.now < 2 ^ 31 }
    ensures items { IfOk result (λ it. it.items ≡ page_items page.entry.now) }
    ensures outer { IfOk result (λ it. it.outer ≡ []) }
    ensures text_calls { IfOk result (λ it. it.text_calls ≡ []) }
{
    let lexemes = lex(alloc, page, Mode::Page)?;
    let pieces = pieces_of(alloc, page, lexemes.as_slice())?;
    Ok(Items::new(pieces, List::new(alloc), List::new(alloc)))
}
