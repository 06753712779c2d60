//! The texts of names.
ghost use Rattle.std.specs.Prelude.{◌≡◌, IfOk, string_bytes};
ghost use Rattle.wt_span.specs.Items.{items};
ghost use Rattle.wt_expand.specs.Texts.{name_text};

use crate::blanks::trimmed;
use std::alloc::Global;
use wt_expand::text_shown;
use wt_span::{NoMemory, Piece};

/// The name that a part's name or an argument's target says, as it was expanded: the text that it
/// shows, without the blanks and line breaks at its ends.
#[tactic(auto, unfolding(wt_expand::specs::Texts::name_text))]
pub fn name_text(alloc: Global, pieces: &[Piece<'_>]) -> Result<String, NoMemory>
    ensures { IfOk result (λ name. string_bytes name ≡ name_text (items pieces.now)) }
{
    let text = text_shown(alloc, pieces)?;
    Ok(String::from_str(alloc, trimmed(text.as_str()))?)
}
