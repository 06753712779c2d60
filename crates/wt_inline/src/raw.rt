//! The three parts of a raw tag: its opening tag, its inside and its closing tag.

ghost use Rattle.std.specs.Prelude.{◌≡◌, ◌<◌, ◌≤◌, ◌+◌, length, slice_index};
ghost use Rattle.std.specs.Str.{IsCharBoundary};
ghost use Rattle.wt_span.specs.Bytes.{lower};
ghost use Rattle.wt_span.specs.Slice.{bytes_of};
ghost use Rattle.wt_span.specs.Tags.{opening_tag};
ghost use Rattle.wt_span.specs.Characters as byte;
ghost use Rattle.wt_inline.specs.RawTag.{before_closing, len_of, name_of, is_alone, opening_len, opening_of, inside_of, closing_of};

use wt_lex::{closing_len, opening_tag};
use wt_span::{Text, rest_of};

/// How many bytes come before the next closing tag of this name; all where there is none.
fn before_closing(name: &[u8], bytes: &[u8]) -> usize
    ensures value { result ≡ before_closing (lower name.now) bytes.now }
    ensures within { result ≤ length bytes.now }
    ensures sign { result < length bytes.now → slice_index bytes.now result ≡ byte.less_than }
{
    for at in 0..bytes.len() {
        if closing_len(name, rest_of(bytes, at)).is_some() {
            return at;
        }
    }
    bytes.len()
}

/// What a raw tag needs of the opening tag that begins a text; nothing where none does.
#[derive(Clone, Copy)]
struct FrontTag<'a> {
    name: &'a [u8],
    alone: bool,
    len: usize,
}

fn front_tag(text: &str) -> FrontTag<'_>
    ensures name { lower result.name.now ≡ name_of (opening_tag text.entry.now) }
    ensures alone { result.alone ≡ is_alone (opening_tag text.entry.now) }
    ensures len { result.len ≡ opening_len text.entry.now }
    ensures within { result.len ≤ length text.entry.now }
    ensures border { IsCharBoundary text.entry.now result.len }
{
    match opening_tag(text.as_bytes()) {
        Some(tag) => FrontTag {
            name: tag.name,
            alone: tag.alone,
            len: tag.len,
        },
        None => FrontTag {
            name: &[],
            alone: false,
            len: 0,
        },
    }
}

/// How many bytes come before the next closing tag of this name.
fn inside_len(name: &[u8], text: &str) -> usize
    ensures value { result ≡ before_closing (lower name.now) text.now }
    ensures within { result ≤ length text.now }
    ensures border { IsCharBoundary text.now result }
{
    before_closing(name, text.as_bytes())
}

/// A raw tag: the name of its opening tag as it is written, whether this closes itself, and its
/// source in three.
#[derive(Clone, Copy, Debug)]
pub struct RawTag<'a> {
    pub name: &'a [u8],
    pub alone: bool,
    pub opening: Text<'a>,
    pub inside: Text<'a>,
    pub closing: Text<'a>,
}

impl<'a> RawTag<'a> {
    /// The parts of a text that is a raw tag.
    pub fn of(text: Text<'a>) -> RawTag<'a>
        ensures name { lower result.name.now ≡ name_of (opening_tag (bytes_of text.entry)) }
        ensures alone { result.alone ≡ is_alone (opening_tag (bytes_of text.entry)) }
        ensures opening { bytes_of result.opening ≡ opening_of (bytes_of text.entry) }
        ensures inside { bytes_of result.inside ≡ inside_of (bytes_of text.entry) }
        ensures closing { bytes_of result.closing ≡ closing_of (bytes_of text.entry) }
    {
        let tag = front_tag(text.as_str());
        let (opening, behind) = text.split_at(text.range().start + tag.len as u32);
        let len = inside_len(tag.name, behind.as_str());
        let (inside, closing) = behind.split_at(behind.range().start + len as u32);
        RawTag {
            name: tag.name,
            alone: tag.alone,
            opening,
            inside,
            closing,
        }
    }
}
