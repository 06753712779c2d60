ghost use Rattle.std.specs.Prelude.{◌≡◌, ◌++◌, OnOk, IfOk, string_bytes};
ghost use Rattle.std.specs.List.{flat_map};
ghost use Rattle.wt_span.specs.Items.{items, items_of};
ghost use Rattle.wt_attributes.specs.Characters.{characters, text_of};

use std::alloc::Global;
use wt_span::{ItemForm, NoMemory, Piece};

/// Appends what a piece gives: characters themselves, an entity the character that it stands for,
/// and anything else nothing.
fn push_characters(out: &mut String, piece: &Piece<'_>) -> Result<(), NoMemory>
    ensures { OnOk result (string_bytes out.new ≡ string_bytes out.old ++ flat_map characters (items_of piece.now)) }
{
    match piece.form {
        ItemForm::Chars => out.push_str(piece.text.as_str())?,
        ItemForm::Entity(character) => out.push(character)?,
        _ => {}
    }
    Ok(())
}

/// The text in which the attributes of these pieces are read.
pub fn text_of(alloc: Global, pieces: &[Piece<'_>]) -> Result<String, NoMemory>
    ensures { IfOk result (λ s. string_bytes s ≡ text_of (items pieces.now)) }
{
    let mut out = String::new(alloc);
    for piece in pieces {
        push_characters(&mut out, piece)?;
    }
    Ok(out)
}
