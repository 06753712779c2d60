ghost use Rattle.std.specs.Prelude.{◌≡◌, [], nat_lt, if◌then◌else◌};
ghost use Rattle.std.specs.Option.{unwrap_or};
ghost use Rattle.wt_span.specs.Items.{items};
ghost use Rattle.wt_lines.specs.declared.kind.LineKind.TheVariants as kind;
ghost use Rattle.wt_lines.specs.Kinds.{is_heading, is_list, is_idle, past, first_of, open_kind, table_rows, text_rows, line_kind};
ghost use Rattle.wt_lines.specs.Signs.{left, right};

use crate::back::BackSigns;
use crate::sign::Signs;
use wt_span::Piece;

/// What a line is, as MediaWiki's block pass and table pass tell it by the line's first and last
/// signs. In the profile's order: the first kind that fits is taken.
#[derive(Clone, Copy, Debug, PartialEq, Eq)]
pub enum LineKind {
    /// Nothing visible but spaces and tabs.
    Blank,
    /// `{|` opens a table.
    TableOpen,
    /// `|}` ends one.
    TableEnd,
    /// `|+` begins a caption.
    Caption,
    /// `|-` begins a row.
    Row,
    /// `|` begins a cell.
    Cell,
    /// `!` begins a header cell.
    Header,
    /// `=` at both ends.
    Heading,
    /// Four `-` or more.
    Rule,
    /// Begins with `*`, `#`, `:` or `;`.
    List,
    /// Begins with a space.
    Pre,
    Text,
}

/// How many tables may be open, one inside another.
pub const MOST_TABLES: u32 = 16;

fn is_list(first: Signs<'_, '_>) -> bool
    ensures { result ≡ is_list (left first.entry) }
{
    first.begins(b"*") || first.begins(b"#") || first.begins(b":") || first.begins(b";")
}

fn is_heading(first: Signs<'_, '_>, line: BackSigns<'_, '_>) -> bool
    ensures { result ≡ is_heading (left first.entry) (past is_idle (right line.entry)) }
{
    first.begins(b"=")
        && line.before_idle().ends_with(b'=')
        && !(first.is_alone(b"=") || first.is_alone(b"=="))
}

/// The kind of a line that begins with `{|`.
fn open_kind(tables: u32) -> LineKind
    ensures { result ≡ open_kind tables }
{
    if tables < MOST_TABLES {
        LineKind::TableOpen
    } else {
        LineKind::Text
    }
}

/// The kind of a line where it is in a table that tells it, by what the line has from its first
/// visible item on that is no blank.
fn table_kind(sign: Signs<'_, '_>, tables: u32) -> Option<LineKind>
    ensures { result ≡ first_of (if nat_lt 0 tables then table_rows (left sign.entry) else []) }
{
    if tables == 0 {
        None
    } else if sign.begins(b"|}") {
        Some(LineKind::TableEnd)
    } else if sign.begins(b"|+") {
        Some(LineKind::Caption)
    } else if sign.begins(b"|-") {
        Some(LineKind::Row)
    } else if sign.begins(b"|") {
        Some(LineKind::Cell)
    } else if sign.begins(b"!") {
        Some(LineKind::Header)
    } else {
        None
    }
}

/// The kind of a line that no table tells.
fn text_kind(first: Signs<'_, '_>, line: BackSigns<'_, '_>) -> LineKind
    ensures { result ≡ unwrap_or (first_of (text_rows (left first.entry) (past is_idle (right line.entry)))) kind.Text }
{
    if is_heading(first, line) {
        LineKind::Heading
    } else if first.begins(b"----") {
        LineKind::Rule
    } else if is_list(first) {
        LineKind::List
    } else if first.begins(b" ") {
        LineKind::Pre
    } else {
        LineKind::Text
    }
}

/// The kind of the line that these pieces are, at which `tables` tables are open, by MediaWiki's rules
/// in the profile's form. In a table means that `tables` isn't 0; where `MOST_TABLES` are open, a line
/// that begins with `{|`, after blanks or not, is text.
/// The call takes no memory, and reads the line's ends: it stops at the first and the last visible
/// item that decide the kind.
pub fn kind_of_pieces(pieces: &[Piece<'_>], tables: u32) -> LineKind
    ensures { result ≡ line_kind tables (items pieces.now) }
{
    let all = Signs::of(pieces);
    let sign = all.past_idle();
    if sign.is_empty() {
        return LineKind::Blank;
    }
    if sign.begins(b"{|") {
        return open_kind(tables);
    }
    match table_kind(sign, tables) {
        Some(kind) => kind,
        None => text_kind(all.past_marks(), BackSigns::of(pieces)),
    }
}
