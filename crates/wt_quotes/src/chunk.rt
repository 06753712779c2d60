//! The chunks of a context, which the layer above makes: text, runs of apostrophes and tiles.

ghost use Rattle.std.specs.Prelude.{◌≡◌, ◌<◌, ◌^◌};
ghost use Rattle.wt_quotes.specs.Runs.{chunk_bytes, bytes_of, run_length, last_of, before_of, chunk_before};

/// A piece of a context: plain text, a maximal run of apostrophes, or a tile (a link, a tag, an
/// entity or whatever else is no plain text). `bytes` is its length, and the number of a run its
/// apostrophes. In the chunk directly before a run `last` is the last visible item since the run
/// before, and `before` the one before that: `None` where there is none, or where it is no
/// character. In other chunks the two say nothing.
#[derive(Clone, Copy, Debug, PartialEq, Eq)]
pub enum Chunk {
    Text {
        bytes: u32,
        last: Option<char>,
        before: Option<char>,
    },
    Run(u32),
    Tile {
        bytes: u32,
        last: Option<char>,
        before: Option<char>,
    },
}

pub fn chunk_bytes(chunk: &Chunk) -> u32
    ensures { result ≡ chunk_bytes chunk.now }
{
    match *chunk {
        Chunk::Run(n) => n,
        Chunk::Text { bytes, .. } | Chunk::Tile { bytes, .. } => bytes,
    }
}

/// How many apostrophes it has: 0 where it is no run.
pub fn run_length(chunk: Option<Chunk>) -> u32
    ensures { result ≡ run_length chunk }
{
    match chunk {
        Some(Chunk::Run(n)) => n,
        _ => 0,
    }
}

/// The last two visible items before a run, the last one first.
pub fn items_before(chunk: Option<Chunk>) -> (Option<char>, Option<char>)
    ensures last { result.0 ≡ last_of chunk }
    ensures before { result.1 ≡ before_of chunk }
{
    match chunk {
        Some(Chunk::Text { last, before, .. } | Chunk::Tile { last, before, .. }) => (last, before),
        _ => (None, None),
    }
}

pub fn chunk_before(chunks: &[Chunk], at: usize) -> Option<Chunk>
    ensures { result ≡ chunk_before chunks.now at }
{
    if at == 0 {
        None
    } else {
        chunks.get(at - 1).copied()
    }
}

/// The bytes of a context.
pub fn total_bytes(chunks: &[Chunk]) -> u32
    requires { bytes_of chunks.now < 2 ^ 32 }
    ensures { result ≡ bytes_of chunks.now }
{
    let mut total = 0u32;
    for at in 0..chunks.len() {
        total += chunk_bytes(&chunks[at]);
    }
    total
}
