ghost use Rattle.std.specs.Prelude.{◌≡◌, ◌+◌, ◌<◌, ◌≤◌, length, slice_index};
ghost use Rattle.std.specs.List.{prefix_len};
ghost use Rattle.wt_span.specs.Bytes.{begins, through, name_len};
ghost use Rattle.wt_comments.specs.Views.{in_class};

use wt_span::rest_of;

/// Bytes that are alike in how far a run of them goes.
#[derive(Clone, Copy, Debug, PartialEq, Eq)]
pub enum ByteClass {
    /// Spaces and tabs.
    Blank,
    /// ASCII letters and digits.
    Name,
    /// What may be in a tag: no `<`, no `>`, no line break.
    Tag,
    Digit,
    HexDigit,
    Only(u8),
}

impl ByteClass {
    pub fn has(self, byte: u8) -> bool
        ensures { result ≡ in_class self byte }
    {
        match self {
            ByteClass::Blank => byte == b' ' || byte == b'\t',
            ByteClass::Name => byte.is_ascii_alphanumeric(),
            ByteClass::Tag => !(byte == b'<' || byte == b'>' || byte == b'\n'),
            ByteClass::Digit => byte.is_ascii_digit(),
            ByteClass::HexDigit => byte.is_ascii_hexdigit(),
            ByteClass::Only(one) => byte == one,
        }
    }
}

/// How many bytes of a class begin a text.
pub fn run_len(class: ByteClass, bytes: &[u8]) -> usize
    ensures value { result ≡ prefix_len (in_class class) bytes.now }
    ensures within { result ≤ length bytes.now }
{
    for (i, byte) in bytes.iter().enumerate() {
        if !class.has(*byte) {
            return i;
        }
    }
    bytes.len()
}

/// The byte at a place, 0 past the end.
pub fn byte_at(bytes: &[u8], at: usize) -> u8
    ensures { result ≡ slice_index bytes.now at }
{
    match bytes.get(at) {
        Some(byte) => *byte,
        None => 0,
    }
}

/// How many bytes of a name begin a text, 0 where none does.
pub fn name_len(bytes: &[u8]) -> usize
    ensures value { result ≡ name_len bytes.now }
    ensures within { result ≤ length bytes.now }
{
    if byte_at(bytes, 0).is_ascii_alphabetic() {
        run_len(ByteClass::Name, bytes)
    } else {
        0
    }
}

/// How many bytes there are up to and with the first place of a word; all where it is nowhere.
pub fn through(word: &[u8], bytes: &[u8]) -> usize
    ensures value { result ≡ through word.now bytes.now }
    ensures within { result ≤ length bytes.now }
{
    for at in 0..bytes.len() {
        if rest_of(bytes, at).starts_with(word) {
            return at + word.len();
        }
    }
    bytes.len()
}
