//! Small words on the bytes of a page.

ghost use Rattle.std.specs.Prelude.{◌≡◌, ◌≤◌, ◌==◌, not, length, slice_index};
ghost use Rattle.std.specs.List.{prefix_len};
ghost use Rattle.wt_annotated.specs.Slices.{slice};
ghost use Rattle.wt_span.specs.Bytes.{is_blank};
ghost use Rattle.wt_lint.specs.Bytes.{suffix_len, is_equals};

use wt_span::{front_of, rest_of};

/// What is from one place to another.
pub fn slice(page: &[u8], start: u32, end: u32) -> &[u8]
    requires { end ≤ length page.now }
    ensures { result.now ≡ slice page.now start end }
{
    let front = front_of(page, end as usize);
    if end < start {
        return rest_of(front, front.len());
    }
    rest_of(front, start as usize)
}

/// The byte at a place; 0 after the end.
pub fn byte_at(bytes: &[u8], at: usize) -> u8
    ensures { result ≡ slice_index bytes.now at }
{
    if at < bytes.len() { bytes[at] } else { 0 }
}

fn is_blank(byte: u8) -> bool
    ensures { result ≡ is_blank byte }
{
    byte == b' ' || byte == b'\t'
}

/// How many spaces and tabs end a text.
pub fn blanks_behind(bytes: &[u8]) -> usize
    ensures value { result ≡ suffix_len is_blank bytes.now }
    ensures within { result ≤ length bytes.now }
{
    bytes
        .iter()
        .rev()
        .take_while(|byte| is_blank(**byte))
        .count()
}

fn is_equals(byte: u8) -> bool
    ensures { result ≡ is_equals byte }
{
    byte == b'='
}

fn is_other(byte: u8) -> bool
    ensures { result ≡ not (is_equals byte) }
{
    byte != b'='
}

/// How many `=` begin a text.
pub fn equals_ahead(bytes: &[u8]) -> usize
    ensures { result ≡ prefix_len is_equals bytes.now }
{
    bytes.iter().take_while(|byte| is_equals(**byte)).count()
}

/// How many `=` end a text.
pub fn equals_behind(bytes: &[u8]) -> usize
    ensures { result ≡ suffix_len is_equals bytes.now }
{
    bytes
        .iter()
        .rev()
        .take_while(|byte| is_equals(**byte))
        .count()
}

/// How many bytes but `=` end a text.
pub fn others_behind(bytes: &[u8]) -> usize
    ensures value { result ≡ suffix_len (λ b. not (is_equals b)) bytes.now }
    ensures within { result ≤ length bytes.now }
{
    bytes
        .iter()
        .rev()
        .take_while(|byte| is_other(**byte))
        .count()
}

/// How many bytes of this one begin a text.
pub fn run_len(byte: u8, bytes: &[u8]) -> usize
    ensures value { result ≡ prefix_len (λ b. b == byte) bytes.now }
    ensures within { result ≤ length bytes.now }
{
    bytes.iter().take_while(|b| **b == byte).count()
}
