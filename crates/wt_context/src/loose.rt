//! Characters that follow one another, cut into apostrophes and the stretches between them.

ghost use Rattle.std.specs.Prelude.{◌≡◌, ◌<◌, ◌≤◌, ◌==◌, ◌++◌, length, map, take, drop, All, IfOk, OnOk, Some, None, true, [], slice_index};
ghost use Rattle.std.specs.List.{list_all, prefix_len};
ghost use Rattle.std.specs.Str.{IsCharBoundary};
ghost use Rattle.wt_span.specs.Slice.{bytes_of};
ghost use Rattle.wt_span.specs.Items.{items, items_of, char, call_of_origin};
ghost use Rattle.wt_context.specs.Segments.{are_plain, loose_segments};
ghost use Rattle.wt_context.specs.Loosened.{is_alike, loosened, IsLoosened};
ghost use Rattle.wt_context.specs.Tokens.{segments_of};

use crate::stretch::{Quotes, Stretch};
use crate::token::Token;
use std::alloc::Global;
use wt_lines::{chars_piece, is_chars};
use wt_span::{List, NoMemory, Origin, Piece, Text};

/// Whether the byte is an apostrophe.
fn is_quote(byte: u8) -> bool
    ensures { result ≡ (byte == 39) }
{
    byte == b'\''
}

/// How many bytes are first that are apostrophes, or else that are none.
fn alike_len(quotes: bool, bytes: &[u8]) -> usize
    ensures value { result ≡ prefix_len (is_alike quotes) bytes.now }
    ensures within { result ≤ length bytes.now }
{
    for (i, byte) in bytes.iter().enumerate() {
        if is_quote(*byte) != quotes {
            return i;
        }
    }
    bytes.len()
}

/// Apostrophes or other characters that begin a text, and what follows them.
#[derive(Clone, Copy, Debug)]
struct Alike<'a> {
    quotes: bool,
    front: Text<'a>,
    after: Text<'a>,
}

/// Whether apostrophes begin a text, and how many bytes they or the other characters have.
fn lead(text: &str) -> (bool, usize)
    requires { 0 < length text.now }
    ensures some { 0 < result.1 }
    ensures within { result.1 ≤ length text.now }
    ensures alike { list_all (is_alike result.0) (take result.1 text.now) ≡ true }
    ensures border { IsCharBoundary text.now result.1 }
{
    let bytes = text.as_bytes();
    let quotes = is_quote(bytes[0]);
    (quotes, alike_len(quotes, bytes))
}

fn split_alike<'a>(text: Text<'a>) -> Alike<'a>
    requires { 0 < length (bytes_of text) }
    ensures joined { bytes_of text.entry ≡ bytes_of result.front ++ bytes_of result.after }
    ensures some { 0 < length (bytes_of result.front) }
    ensures alike { list_all (is_alike result.quotes) (bytes_of result.front) ≡ true }
{
    let (quotes, len) = lead(text.as_str());
    let (front, after) = text.split_at(text.range().start + len as u32);
    Alike {
        quotes,
        front,
        after,
    }
}

/// Tokens, and the stretch after them, which may go on.
#[derive(Drop)]
struct Loosening<'a> {
    tokens: List<Token<'a>>,
    stretch: Stretch<'a>,
}

impl<'a> Loosening<'a> {
    ghost use Rattle.wt_context.specs.Loosened.{loosened, IsLoosened};

    /// The tokens, the stretch made one, where nothing more of it follows.
    fn closed(self) -> Result<List<Token<'a>>, NoMemory>
        ensures { IfOk result (λ ts. segments_of ts ≡ loosened self.entry []) }
    {
        let Loosening {
            mut tokens,
            stretch,
        } = self;
        if stretch.pieces.as_slice().is_empty() {
            return Ok(tokens);
        }
        tokens.push(Token::Stretch(stretch))?;
        Ok(tokens)
    }

    /// These and a piece that goes on in the stretch.
    fn with_plain(self, piece: Piece<'a>) -> Result<Loosening<'a>, NoMemory>
        requires plain { are_plain (items_of piece) ≡ true }
        requires some { 0 < length (items_of piece) }
        ensures { IfOk result (λ l. IsLoosened self.entry (items_of piece.entry) l) }
    {
        let Loosening { tokens, stretch } = self;
        Ok(Loosening {
            tokens,
            stretch: stretch.with(piece)?,
        })
    }

    /// These and apostrophes.
    fn with_quotes(self, alloc: Global, quotes: Quotes<'a>) -> Result<Loosening<'a>, NoMemory>
        ensures { IfOk result (λ l. IsLoosened self.entry (items_of quotes.entry.piece) l) }
    {
        let mut tokens = self.closed()?;
        tokens.push(Token::Quotes(quotes))?;
        Ok(Loosening {
            tokens,
            stretch: Stretch::new(alloc),
        })
    }

    /// These and characters, apostrophes alone or none.
    fn with_alike(
        self,
        alloc: Global,
        quotes: bool,
        text: Text<'a>,
        origin: Origin,
    ) -> Result<Loosening<'a>, NoMemory>
        requires some { 0 < length (bytes_of text) }
        requires alike { list_all (is_alike quotes) (bytes_of text) ≡ true }
        ensures { IfOk result (λ l. IsLoosened self.entry (map (char (call_of_origin origin)) (bytes_of text.entry)) l) }
    {
        if quotes {
            self.with_quotes(alloc, Quotes::of(text, origin))
        } else {
            self.with_plain(chars_piece(text, origin))
        }
    }

    /// These and characters.
    fn with_text(
        self,
        alloc: Global,
        text: Text<'a>,
        origin: Origin,
    ) -> Result<Loosening<'a>, NoMemory>
        ensures { IfOk result (λ l. IsLoosened self.entry (map (char (call_of_origin origin)) (bytes_of text.entry)) l) }
    {
        let mut now = self;
        let mut rest = text;
        while !rest.as_str().is_empty() {
            let alike = split_alike(rest);
            now = now.with_alike(alloc, alike.quotes, alike.front, origin)?;
            rest = alike.after;
        }
        Ok(now)
    }

    fn with_piece(self, alloc: Global, piece: Piece<'a>) -> Result<Loosening<'a>, NoMemory>
        ensures { IfOk result (λ l. IsLoosened self.entry (items_of piece.entry) l) }
    {
        if is_chars(piece.form) {
            self.with_text(alloc, piece.text, piece.origin)
        } else {
            self.with_plain(piece)
        }
    }
}

/// The tokens of these pieces after others.
pub fn with_loose<'a>(
    alloc: Global,
    tokens: List<Token<'a>>,
    pieces: &[Piece<'a>],
) -> Result<List<Token<'a>>, NoMemory>
    ensures { IfOk result (λ ts. segments_of ts ≡ segments_of tokens.entry ++ loose_segments (items pieces.now)) }
{
    let mut now = Loosening {
        tokens,
        stretch: Stretch::new(alloc),
    };
    for piece in pieces {
        now = now.with_piece(alloc, *piece)?;
    }
    now.closed()
}
