//! What the items of a page show.
ghost use Rattle.std.specs.Prelude.{◌≡◌, ◌++◌, IfOk, OnOk};
ghost use Rattle.wt_span.specs.Items.{is_mark_form, items, items_of};
ghost use Rattle.wt_expand.specs.Texts.{shown_text};

use std::alloc::Global;
use wt_span::{ItemForm, Items, NoMemory, Piece, Str};

/// Whether a form is an invisible mark.
fn is_mark(form: ItemForm) -> bool
    ensures { result ≡ is_mark_form form }
{
    match form {
        ItemForm::Chars
        | ItemForm::Entity(_)
        | ItemForm::Nowiki
        | ItemForm::Extension
        | ItemForm::Function => false,
        ItemForm::Comment | ItemForm::Include | ItemForm::Hidden | ItemForm::EmptyCall => true,
    }
}

/// Appends what a piece shows.
fn push_shown(text: &mut Str, piece: &Piece<'_>) -> Result<(), NoMemory>
    ensures { OnOk result (text.new ≡ text.old ++ shown_text (items_of piece.now)) }
{
    if is_mark(piece.form) {
        return Ok(());
    }
    text.push_str(piece.text.as_str())?;
    Ok(())
}

/// The text that pieces show: their characters, entities and other atoms by their source, and nothing
/// for marks.
pub fn text_shown(alloc: Global, pieces: &[Piece<'_>]) -> Result<Str, NoMemory>
    ensures { IfOk result (λ text. text ≡ shown_text (items pieces.now)) }
{
    let mut text = Str::new(alloc);
    for piece in pieces {
        push_shown(&mut text, piece)?;
    }
    Ok(text)
}

/// The text of an expanded page: what its pieces show.
pub fn expanded(alloc: Global, page: &Items<'_>) -> Result<Str, NoMemory>
    ensures { IfOk result (λ text. text ≡ shown_text page.now.items) }
{
    text_shown(alloc, page.pieces())
}
