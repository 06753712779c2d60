ghost use Rattle.std.specs.Prelude.{◌≡◌, ◌-◌, ◌≤◌};
ghost use Rattle.std.specs.Str.{IsCharBoundary};
ghost use Rattle.wt_span.specs.Slice.{bytes_of, start_of, end_of};
ghost use Rattle.wt_expand.specs.PageItems.{raw_form, form_of};
ghost use Rattle.wt_expand.specs.Made.{IsMade};

use wt_lex::{Lexeme, is_same_name, opening_tag};
use wt_span::{ItemForm, LexKind, Origin, Piece, Text};

/// The form of a raw tag: a nowiki or an extension.
fn raw_form(bytes: &[u8]) -> ItemForm
    ensures { result ≡ raw_form bytes.now }
{
    match opening_tag(bytes) {
        Some(tag) if is_same_name(tag.name, b"nowiki") => ItemForm::Nowiki,
        _ => ItemForm::Extension,
    }
}

/// The form that a lexeme has as an item, of the page or of a template.
pub fn form_of(kind: LexKind, text: &str) -> ItemForm
    ensures { result ≡ form_of kind text.now }
{
    match kind {
        LexKind::Chars
        | LexKind::Opens
        | LexKind::Closes
        | LexKind::LinkOpen
        | LexKind::LinkClose
        | LexKind::Pipe
        | LexKind::Equals => ItemForm::Chars,
        LexKind::CommentLine | LexKind::Comment => ItemForm::Comment,
        LexKind::Raw => raw_form(text.as_bytes()),
        LexKind::Include => ItemForm::Include,
        LexKind::Hidden => ItemForm::Hidden,
        LexKind::Entity(character) => ItemForm::Entity(character),
    }
}

/// A lexeme of the page as a piece.
pub fn piece_of<'a>(page: Text<'a>, lexeme: Lexeme) -> Piece<'a>
    requires at_start { start_of page ≡ 0 }
    requires within { lexeme.at.end ≤ end_of page }
    requires start_border { IsCharBoundary (bytes_of page) lexeme.at.start }
    requires end_border { IsCharBoundary (bytes_of page) lexeme.at.end }
    ensures { IsMade (bytes_of page.entry) result lexeme }
{
    let text = page.slice(lexeme.at);
    Piece {
        text,
        form: form_of(lexeme.kind, text.as_str()),
        origin: Origin::Page(text.range()),
    }
}
