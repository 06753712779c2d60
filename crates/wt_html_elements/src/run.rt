//! Where a run of bytes that stand for themselves ends, looked for sixteen bytes at a time.
ghost use Rattle.std.specs.Prelude.{◌≡◌, ◌+◌, ◌≤◌, true, length, take, drop, map};
ghost use Rattle.std.specs.List.{list_all, prefix_len};
ghost use Rattle.std.specs.Simd.Lanes.{mask_l};
ghost use Rattle.wt_html_grammar.specs.Signs.{in_text, in_value};
ghost use Rattle.wt_html_grammar.specs.Machine.{is_plain};
ghost use Rattle.wt_html_elements.specs.Runs.{ends_run};

use crate::signs::is_plain_value;
use std::simd::prelude::*;

/// How many bytes are looked at at once.
const LANES: usize = 16;

/// A bit for each of these bytes at which a run in this quote ends.
fn ends(quote: u8, bytes: u8x16) -> u64
    ensures { result ≡ mask_l (map (ends_run quote) bytes) }
{
    (bytes.simd_eq(u8x16::splat(quote))
        | bytes.simd_eq(u8x16::splat(b'&'))
        | bytes.simd_ge(u8x16::splat(128))).to_bitmask()
}

/// Where a run in this quote ends that goes on at `from`, looked for byte by byte.
fn run_end(quote: u8, bytes: &[u8], from: usize) -> usize
    requires { from ≤ length bytes.now }
    ensures { result ≡ from + prefix_len (is_plain (in_value quote)) (drop from bytes.now) }
{
    let mut i = from;
    while i < bytes.len() && is_plain_value(quote, bytes[i]) {
        i += 1;
    }
    i
}

/// How many bytes the run in this quote has that begins at the front.
fn run_len(quote: u8, bytes: &[u8]) -> usize
    ensures value { result ≡ prefix_len (is_plain (in_value quote)) bytes.now }
    ensures within { result ≤ length bytes.now }
{
    let mut i = 0;
    while bytes.len() - i >= LANES {
        let found = ends(quote, u8x16::from_slice(&bytes[i..]));
        if found != 0 {
            return i + found.trailing_zeros() as usize;
        }
        i += LANES;
    }
    run_end(quote, bytes, i)
}

/// How many bytes at the front stand for themselves in a text: as many as in a value in the quote `<`.
pub fn text_run_len(bytes: &[u8]) -> usize
    ensures run { list_all (is_plain in_text) (take result bytes.now) ≡ true }
    ensures within { result ≤ length bytes.now }
{
    run_len(b'<', bytes)
}

/// How many bytes at the front stand for themselves in a value in this quote.
pub fn value_run_len(quote: u8, bytes: &[u8]) -> usize
    ensures run { list_all (is_plain (in_value quote)) (take result bytes.now) ≡ true }
    ensures within { result ≤ length bytes.now }
{
    run_len(quote, bytes)
}
