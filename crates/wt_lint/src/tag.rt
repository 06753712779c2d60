//! Tags that are kept as they are, since nothing closes them or they close nothing.

ghost use Rattle.std.specs.Prelude.{◌≡◌, ◌≤◌, length};
ghost use Rattle.std.specs.Char.{is_ascii_alphanumeric};
ghost use Rattle.std.specs.List.{prefix_len};
ghost use Rattle.wt_span.specs.Bytes.{lower};
ghost use Rattle.wt_lint.specs.Tags.{name_at, is_paired_name, closes_itself, is_open_tag, is_closing_tag};

use wt_lex::is_same_name;
use wt_span::{front_of, rest_of};

/// How many letters and digits begin a text.
fn name_len(bytes: &[u8]) -> usize
    ensures value { result ≡ prefix_len is_ascii_alphanumeric bytes.now }
    ensures within { result ≤ length bytes.now }
{
    bytes
        .iter()
        .take_while(|byte| byte.is_ascii_alphanumeric())
        .count()
}

/// The name that is at a place.
fn name_at(source: &[u8], at: usize) -> &[u8]
    requires { at ≤ length source.now }
    ensures { lower result.now ≡ name_at at source.now }
{
    let rest = rest_of(source, at);
    front_of(rest, name_len(rest))
}

/// Whether tags of this name come in pairs.
#[tactic(auto, unfolding(crate::specs::Tags::is_paired_name))]
fn is_paired_name(name: &[u8]) -> bool
    ensures { result ≡ is_paired_name (lower name.now) }
{
    is_same_name(name, b"sup")
        || is_same_name(name, b"sub")
        || is_same_name(name, b"small")
        || is_same_name(name, b"s")
        || is_same_name(name, b"u")
        || is_same_name(name, b"code")
        || is_same_name(name, b"span")
}

/// Whether a `/` comes before the last byte.
fn closes_itself(source: &[u8]) -> bool
    ensures { result ≡ closes_itself source.now }
{
    source.len() > 1 && source[source.len() - 2] == b'/'
}

/// Whether a source is an opening tag of such a name, and doesn't close itself.
pub fn is_open_tag(source: &[u8]) -> bool
    ensures { result ≡ is_open_tag source.now }
{
    source.starts_with(b"<") && (is_paired_name(name_at(source, 1)) && !closes_itself(source))
}

/// Whether a source is a closing tag of such a name.
pub fn is_closing_tag(source: &[u8]) -> bool
    ensures { result ≡ is_closing_tag source.now }
{
    source.starts_with(b"</") && is_paired_name(name_at(source, 2))
}
