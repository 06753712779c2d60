ghost use Rattle.std.specs.Prelude.{◌≡◌, ◌<◌, ◌^◌, IfOk, Ok};
ghost use Rattle.wt_datamw.specs.Sync.{sync_text};
ghost use Rattle.wt_datamw.specs.SyncRead.{IsSmall, sync_told};

use crate::sync_write::push_sync;
use crate::texts::{check_text, check_text_if_any, text_of};
use std::alloc::Global;
use wt_span::{NoMemory, Str};
use wt_tree::Ranges;

/// What `data-parsoid` says of an element: where it is in the page, its delimiters, and of a
/// leaf or a group its source. This is what Parsoid calls `dsr`, with the source beside it.
#[derive(Debug, Drop)]
pub struct Sync {
    pub dsr: Ranges,
    pub opening: Str,
    pub closing: Str,
    pub src: Option<Str>,
}

/// A place, which is below 2^32 as every `u32` is.
fn place(n: u32) -> u32
    ensures same { result ≡ n }
    ensures below { n < 2 ^ 32 }
{
    n
}

/// The places of an element.
pub fn places_of(sync: &Sync) -> Ranges
    ensures { IsSmall sync.now }
{
    Ranges {
        start: place(sync.dsr.start),
        end: place(sync.dsr.end),
        open_w: place(sync.dsr.open_w),
        close_w: place(sync.dsr.close_w),
    }
}

/// The text of `data-parsoid`, as compact JSON with its keys in byte order. (It is not escaped for
/// the attribute.)
#[tactic(auto, using(crate::proofs::SyncUtf8::sync_utf8, crate::proofs::SyncTold::sync_read))]
pub fn sync_to_text(alloc: Global, s: &Sync) -> Result<Str, NoMemory>
    ensures text { IfOk result (λ text. text ≡ sync_text s.now) }
    // it reads back as the same value, and so two values have two texts
    ensures back { IfOk result (λ text. sync_told text ≡ Ok s.now) }
{
    let _places = places_of(s);
    check_text(&s.opening);
    check_text(&s.closing);
    check_text_if_any(&s.src);
    let mut bytes = Vec::new(alloc);
    push_sync(&mut bytes, s)?;
    Ok(text_of(bytes))
}
