ghost use Rattle.std.specs.Prelude.{◌≡◌, ◌+◌, ◌-◌, ◌^◌, ◌<◌, ◌≤◌, length, drop, IfSome, slice_index};
ghost use Rattle.std.specs.Option.{option_map};
ghost use Rattle.std.specs.Str.{bytes_eq};
ghost use Rattle.wt_span.specs.Bytes.{lower};
ghost use Rattle.wt_span.specs.Tags.{Tag, is_tag_inside, closes_itself, tag_after, opening_tag, closing_tag, len_if_named, to_closing, is_extension, is_raw_name};
ghost use Rattle.wt_lex.specs.TagView.{tag_of};

use wt_comments::{ByteClass, byte_at, name_len, run_len};
use wt_span::{front_of, rest_of};

/// A tag that begins a text: its name as it is written, how many bytes it takes, and whether it
/// closes itself.
#[derive(Clone, Copy, Debug)]
pub struct ReadTag<'a> {
    pub name: &'a [u8],
    pub len: usize,
    pub alone: bool,
}

/// Whether two names are the same without ASCII case.
pub fn is_same_name(a: &[u8], b: &[u8]) -> bool
    ensures { result ≡ bytes_eq (lower a.now) (lower b.now) }
{
    a.eq_ignore_ascii_case(b)
}

/// Whether this may be between a tag's name and its `>`.
fn is_tag_inside(bytes: &[u8]) -> bool
    ensures { result ≡ is_tag_inside bytes.now }
{
    bytes.len() == 0
        || (ByteClass::Blank.has(byte_at(bytes, 0))
            || (bytes.len() == 1 && byte_at(bytes, 0) == b'/'))
}

/// Whether a tag with this inside closes itself.
fn closes_itself(bytes: &[u8]) -> bool
    ensures { result ≡ closes_itself bytes.now }
{
    bytes.len() > 0 && byte_at(bytes, bytes.len() - 1) == b'/'
}

/// The opening tag of this name, by what follows the name.
#[tactic(auto, unfolding(wt_span::specs::Tags::tag_after))]
fn tag_after<'a>(name: &'a [u8], rest: &[u8]) -> Option<ReadTag<'a>>
    requires { length name.now + length rest.now < 2 ^ 63 }
    ensures value { option_map tag_of result ≡ tag_after name.entry.now rest.now }
    ensures within { IfSome result (λ t. (0 < t.len) × (t.len ≤ 1 + length name.entry.now + length rest.now)) }
{
    let inside = front_of(rest, run_len(ByteClass::Tag, rest));
    if byte_at(rest, inside.len()) == b'>' && is_tag_inside(inside) {
        Some(ReadTag {
            name,
            len: 2 + name.len() + inside.len(),
            alone: closes_itself(inside),
        })
    } else {
        None
    }
}

/// The opening tag that begins a text.
#[tactic(auto, unfolding(wt_span::specs::Tags::opening_tag))]
pub fn opening_tag(bytes: &[u8]) -> Option<ReadTag<'_>>
    ensures value { option_map tag_of result ≡ opening_tag bytes.entry.now }
    ensures within { IfSome result (λ t. (0 < t.len) × (t.len ≤ length bytes.entry.now)) }
{
    if byte_at(bytes, 0) != b'<' {
        return None;
    }
    let rest = rest_of(bytes, 1);
    let n = name_len(rest);
    if n == 0 {
        return None;
    }
    tag_after(front_of(rest, n), rest_of(bytes, 1 + n))
}

/// The closing tag that begins a text.
#[tactic(auto, unfolding(wt_span::specs::Tags::closing_tag))]
pub fn closing_tag(bytes: &[u8]) -> Option<ReadTag<'_>>
    ensures value { option_map tag_of result ≡ closing_tag bytes.entry.now }
    ensures within { IfSome result (λ t. (0 < t.len) × (t.len ≤ length bytes.entry.now)) }
{
    if !bytes.starts_with(b"</") {
        return None;
    }
    let rest = rest_of(bytes, 2);
    let n = name_len(rest);
    let k = run_len(ByteClass::Blank, rest_of(bytes, 2 + n));
    if n > 0 && byte_at(bytes, 2 + n + k) == b'>' {
        Some(ReadTag {
            name: front_of(rest, n),
            len: 3 + n + k,
            alone: false,
        })
    } else {
        None
    }
}

/// How many bytes the closing tag of this name takes that begins a text.
pub fn closing_len(name: &[u8], bytes: &[u8]) -> Option<usize>
    ensures value { result ≡ len_if_named (lower name.now) (closing_tag bytes.now) }
    ensures within { IfSome result (λ n. n ≤ length bytes.now) }
{
    match closing_tag(bytes) {
        Some(tag) if is_same_name(tag.name, name) => Some(tag.len),
        _ => None,
    }
}

/// How many bytes there are up to and with the next closing tag of this name.
pub fn to_closing(name: &[u8], bytes: &[u8]) -> Option<usize>
    ensures value { result ≡ to_closing (lower name.now) bytes.now }
    ensures within { IfSome result (λ n. n ≤ length bytes.now) }
{
    for at in 0..bytes.len() {
        if let Some(n) = closing_len(name, rest_of(bytes, at)) {
            return Some(at + n);
        }
    }
    None
}

/// Whether a tag of this name is an extension's.
#[tactic(auto, unfolding(wt_span::specs::Tags::is_extension))]
fn is_extension(name: &[u8]) -> bool
    ensures { result ≡ is_extension (lower name.now) }
{
    is_same_name(name, b"ref")
        || is_same_name(name, b"references")
        || is_same_name(name, b"gallery")
        || is_same_name(name, b"math")
        || is_same_name(name, b"pre")
        || is_same_name(name, b"poem")
        || is_same_name(name, b"syntaxhighlight")
        || is_same_name(name, b"source")
        || is_same_name(name, b"score")
        || is_same_name(name, b"timeline")
        || is_same_name(name, b"imagemap")
        || is_same_name(name, b"templatestyles")
}

/// Whether a tag of this name is raw: its inside isn't read as wikitext.
pub fn is_raw_name(name: &[u8]) -> bool
    ensures { result ≡ is_raw_name (lower name.now) }
{
    is_same_name(name, b"nowiki") || is_extension(name)
}
