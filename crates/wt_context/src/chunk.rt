//! The chunks of a context, by its tokens.

ghost use Rattle.std.specs.Prelude.{◌≡◌, ◌<◌, ◌≤◌, ◌+◌, ◌^◌, ◌++◌, ◌∷◌, [], length, false, IfOk};
ghost use Rattle.wt_span.specs.Items.{items};
ghost use Rattle.wt_context.specs.Chunks.{chunks};
ghost use Rattle.wt_context.specs.Tokens.{token_segments, segments_of};

use crate::seen::Seen;
use crate::token::Token;
use std::alloc::Global;
use wt_quotes::Chunk;
use wt_span::{List, NoMemory, Piece};

/// Chunks, the visible items since the last run, and the apostrophes after them, which may go on.
#[derive(Debug, Drop)]
struct Chunking {
    chunks: List<Chunk>,
    seen: Seen,
    quotes: u32,
}

impl Chunking {
    ghost use Rattle.wt_context.specs.Segments.{Segment};
    ghost use Rattle.wt_context.specs.Chunking.{IsOther, IsRunOn, IsChunked, IsClosed};

    /// A segment that is no run after these, with what was seen up to it.
    fn with_other(self, seen: Seen) -> Result<Chunking, NoMemory>
        ensures { IfOk result (λ c. IsOther self seen c) }
    {
        let Chunking { mut chunks, .. } = self;
        chunks.push(Chunk::Text {
            bytes: 1,
            last: seen.last,
            before: seen.before,
        })?;
        Ok(Chunking {
            chunks,
            seen,
            quotes: 0,
        })
    }

    /// A run after these.
    fn with_run(self, quotes: u32) -> Result<Chunking, NoMemory>
        ensures { IfOk result (λ c. IsRunOn self quotes c) }
    {
        let Chunking { mut chunks, .. } = self;
        chunks.push(Chunk::Run(quotes))?;
        Ok(Chunking {
            chunks,
            seen: Seen::nothing(),
            quotes: 0,
        })
    }

    /// The apostrophes made a chunk, where no more of them follow.
    fn closed(self) -> Result<Chunking, NoMemory>
        ensures { IfOk result (λ c. IsClosed self c) }
    {
        let quotes = self.quotes;
        if quotes >= 2 {
            return self.with_run(quotes);
        }
        if quotes == 0 {
            return Ok(self);
        }
        let seen = self.seen.with(Some('\''));
        self.with_other(seen)
    }

    /// A segment of these pieces that is no apostrophe after these.
    fn with_pieces(self, pieces: &[Piece<'_>]) -> Result<Chunking, NoMemory>
        ensures none { IfOk result (λ c. c.quotes ≡ 0) }
        ensures value { IfOk result (λ c. (u : Segment) → u.quote ≡ false → u.items ≡ items pieces.now → IsChunked self (u ∷ []) c) }
    {
        let closed = self.closed()?;
        let seen = closed.seen.with_pieces(pieces);
        closed.with_other(seen)
    }

    /// So many apostrophes after these.
    fn with_quotes(self, n: u32) -> Chunking
        requires { self.quotes + n < 2 ^ 32 }
        ensures chunks { result.chunks ≡ self.chunks }
        ensures seen { result.seen ≡ self.seen }
        ensures quotes { result.quotes ≡ self.quotes + n }
    {
        let Chunking {
            chunks,
            seen,
            quotes,
        } = self;
        Chunking {
            chunks,
            seen,
            quotes: quotes + n,
        }
    }

    fn with_token(self, token: &Token<'_>) -> Result<Chunking, NoMemory>
        requires { self.quotes + length (token_segments token.now) < 2 ^ 32 }
        ensures value { IfOk result (λ c. IsChunked self (token_segments token.now) c) }
        ensures few { IfOk result (λ c. c.quotes ≤ self.quotes + length (token_segments token.now)) }
    {
        match token {
            Token::Quotes(quotes) => Ok(self.with_quotes(quotes.len() as u32)),
            Token::Stretch(stretch) => self.with_pieces(stretch.pieces.as_slice()),
            Token::Tile(tile) => self.with_pieces(tile.pieces.as_slice()),
        }
    }
}

/// How many segments tokens are.
pub fn segment_count(tokens: &[Token<'_>]) -> u32
    requires { length (segments_of tokens.now) < 2 ^ 32 }
    ensures { result ≡ length (segments_of tokens.now) }
{
    let mut count = 0_u32;
    for token in tokens {
        count += token.len() as u32;
    }
    count
}

/// The chunks of a context.
pub fn chunks(alloc: Global, tokens: &[Token<'_>]) -> Result<List<Chunk>, NoMemory>
    requires { length (segments_of tokens.now) < 2 ^ 32 }
    ensures { IfOk result (λ cs. cs ≡ chunks (segments_of tokens.now)) }
{
    let mut now = Chunking {
        chunks: List::new(alloc),
        seen: Seen::nothing(),
        quotes: 0,
    };
    for token in tokens {
        now = now.with_token(token)?;
    }
    let Chunking { chunks, .. } = now.closed()?;
    Ok(chunks)
}
