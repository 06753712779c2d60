//! The pieces that lexemes give.
ghost use Rattle.std.specs.Prelude.{◌≡◌, None};
ghost use Rattle.wt_span.specs.Slice.{bytes_of};
ghost use Rattle.wt_span.specs.Items.{items_by, items_of};
ghost use Rattle.wt_expand.specs.Expansion.{is_removed, lexeme_items};
ghost use Rattle.wt_transclusion.specs.Given.{option_items};

use wt_expand::form_of;
use wt_span::{ItemForm, LexKind, Mode, Origin, Piece, Text};

/// Whether a lexeme is removed: include tags and hidden parts of a template.
fn is_removed(mode: Mode, kind: LexKind) -> bool
    ensures { result ≡ is_removed mode kind }
{
    match mode {
        Mode::Page => false,
        Mode::Template => match kind {
            LexKind::Include | LexKind::Hidden => true,
            LexKind::Chars
            | LexKind::CommentLine
            | LexKind::Comment
            | LexKind::Raw
            | LexKind::Entity(_)
            | LexKind::Opens
            | LexKind::Closes
            | LexKind::LinkOpen
            | LexKind::LinkClose
            | LexKind::Pipe
            | LexKind::Equals => false,
        },
    }
}

/// A piece of this form, from the text itself.
pub fn piece_of<'a>(text: Text<'a>, form: ItemForm) -> Piece<'a>
    ensures items { items_of result ≡ items_by form None (bytes_of text.entry) }
    ensures text { bytes_of result.text ≡ bytes_of text.entry }
{
    Piece {
        text,
        form,
        origin: Origin::Page(text.range()),
    }
}

/// The piece that a lexeme's bytes give, where they give one.
pub fn lexeme_piece<'a>(mode: Mode, kind: LexKind, text: Text<'a>) -> Option<Piece<'a>>
    ensures { option_items result ≡ lexeme_items mode kind (bytes_of text.entry) }
{
    if is_removed(mode, kind) {
        return None;
    }
    Some(piece_of(text, form_of(kind, text.as_str())))
}
