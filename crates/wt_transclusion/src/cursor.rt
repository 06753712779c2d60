//! Where a text is read.
ghost use Rattle.std.specs.Prelude.{◌≡◌, ◌<◌, ◌≤◌, ℕ, List, true, drop, length, map, nat_lt, nat_le};
ghost use Rattle.std.specs.Bool.{OnTrue};
ghost use Rattle.std.specs.List.{prefix_len};
ghost use Rattle.wt_span.specs.declared.form.Mode.{Mode as TextMode};
ghost use Rattle.wt_transclusion.specs.Reads.{braces_of, IsRead};
ghost use Rattle.wt_transclusion.specs.declared.read.ReadText.{ReadText as TextRead};
ghost use Rattle.wt_span.specs.Braces.{Member as TextMember};
ghost use Rattle.wt_transclusion.specs.Stretch.{IsLimit};
ghost use Rattle.wt_transclusion.specs.Steps.{IsCharacters, MayFollow, IsStretchOf, AnswersNext};
ghost use Rattle.wt_transclusion.specs.Cursors.{IsAt, IsOn, starts};

use crate::read::{Braces, ReadText};
use crate::target::byte_at;
use wt_lex::Lexeme;
use wt_span::{LexKind, rest_of};

/// A place of a text, with the first lexeme that ends after it and the first call that begins there
/// or after it, by their numbers.
#[derive(Clone, Copy, Debug)]
pub struct Cursor {
    pub at: u32,
    /// Whether the text begins there, or a line break comes before it.
    pub at_start: bool,
    lexeme: usize,
    call: usize,
}

/// What is at a place.
#[derive(Clone, Copy, Debug)]
pub enum Next<'a> {
    /// Bytes of one lexeme, or of several that are characters, up to a place; the kind is the first's.
    Chunk { kind: LexKind, to: u32 },
    /// A call.
    Call(Braces<'a>),
}

/// How many lexemes end up to a place.
fn lexemes_before(lexemes: &[Lexeme], to: u32) -> usize
    ensures value { result ≡ prefix_len (λ x. nat_le x.at.end to) lexemes.now }
    ensures within { result ≤ length lexemes.now }
{
    for (i, lexeme) in lexemes.iter().enumerate() {
        if to < lexeme.at.end {
            return i;
        }
    }
    lexemes.len()
}

/// How many calls begin in front of a place.
fn calls_before(calls: &[Braces<'_>], to: u32) -> usize
    ensures value { result ≡ prefix_len (λ x. nat_lt x.at.start to) calls.now }
    ensures within { result ≤ length calls.now }
{
    for (i, call) in calls.iter().enumerate() {
        if to <= call.at.start {
            return i;
        }
    }
    calls.len()
}

/// Whether a line break comes before a place after the first byte.
fn starts_line(text: &str, at: u32) -> bool
    ensures { result ≡ starts text.now at }
{
    byte_at(text.as_bytes(), (at as usize).saturating_sub(1)) == b'\n'
}

/// The place where the call of a number begins, or `end` where none begins in front of that.
fn limit_at(calls: &[Braces<'_>], call: usize, end: u32) -> u32
    ensures limit { IsLimit (drop call (map braces_of calls.now)) end result }
    ensures there { result < end → call < length calls.now }
{
    if call < calls.len() {
        calls[call].at.start.min(end)
    } else {
        end
    }
}

/// Whether each byte of a lexeme of this kind is a character by itself.
fn is_characters(kind: LexKind) -> bool
    ensures { OnTrue result (IsCharacters kind) }
{
    match kind {
        LexKind::Chars
        | LexKind::Opens
        | LexKind::Closes
        | LexKind::LinkOpen
        | LexKind::LinkClose
        | LexKind::Pipe
        | LexKind::Equals => true,
        LexKind::CommentLine
        | LexKind::Comment
        | LexKind::Raw
        | LexKind::Include
        | LexKind::Hidden
        | LexKind::Entity(_) => false,
    }
}

/// Up to where the bytes of a lexeme, which ends before the others, may be taken as one chunk: its end; or, if it
/// is characters, the end of the last of those after it that are characters, too, and begin before the limit.
fn chunk_end(first: Lexeme, others: &[Lexeme], limit: u32) -> u32
    ensures { MayFollow first.kind limit first.at.end others.now result }
{
    let mut to = first.at.end;
    if !is_characters(first.kind) {
        return to;
    }
    for lexeme in others {
        if limit <= to || !is_characters(lexeme.kind) {
            return to;
        }
        to = lexeme.at.end;
    }
    to
}

impl Cursor {
    /// The start of a text.
    pub fn start() -> Cursor
        ensures at { (mode : TextMode) (bytes : List ℕ) (text : TextRead) → IsRead mode bytes text → IsAt text 0 result }
        ensures on { (text : TextRead) → IsOn text result }
        ensures at_start { result.at_start ≡ true }
    {
        Cursor {
            at: 0,
            at_start: true,
            lexeme: 0,
            call: 0,
        }
    }

    /// A later place.
    pub fn seek(self, text: ReadText<'_>, to: u32) -> Cursor
        requires { IsOn text self }
        ensures at { (p : ℕ) → IsAt text.entry p self → p ≤ to → IsAt text.entry to result }
        ensures place { result.at ≡ to }
        ensures at_start { result.at_start ≡ starts text.entry.text.now to }
        ensures on { IsOn text.entry result }
    {
        let lexemes = rest_of(text.lexemes, self.lexeme);
        let calls = rest_of(text.calls, self.call);
        Cursor {
            at: to,
            at_start: starts_line(text.text, to),
            lexeme: text.lexemes.len() - (lexemes.len() - lexemes_before(lexemes, to)),
            call: text.calls.len() - (calls.len() - calls_before(calls, to)),
        }
    }

    /// What is here, before the place `end`: the next call; or the bytes of the lexeme, up to its end, the next
    /// call or `end`, and those of the lexemes after it, if all are characters.
    pub fn next<'a>(self, text: ReadText<'a>, end: u32) -> Next<'a>
        requires { self.at < end }
        ensures { (mode : TextMode) (bytes : List ℕ) (xs : List TextMember) → IsRead mode bytes text.entry
            → IsAt text.entry self.at self → IsStretchOf mode bytes self.at end xs
            → AnswersNext mode bytes self.at end xs result }
    {
        let limit = limit_at(text.calls, self.call, end);
        if limit == self.at {
            let call = self.call;
            return Next::Call(text.calls[call]);
        }
        if self.lexeme < text.lexemes.len() {
            let lexeme = text.lexemes[self.lexeme];
            let to = chunk_end(lexeme, rest_of(text.lexemes, self.lexeme + 1), limit);
            return Next::Chunk {
                kind: lexeme.kind,
                to: to.min(limit),
            };
        }
        Next::Chunk {
            kind: LexKind::Chars,
            to: limit,
        }
    }
}
