ghost use Rattle.std.specs.Prelude.{◌≡◌};
ghost use Rattle.wt_html_grammar.specs.Signs.{is_lower, is_digit, is_space, is_name_byte, is_attribute_byte, is_quote, in_text, in_value, is_void, is_digit_of, digit_value, begins_character};
ghost use Rattle.wt_html_grammar.specs.Machine.{is_plain};

use wt_html_grammar::{Radix, follow};

pub fn is_lower(byte: u8) -> bool
    ensures { result ≡ is_lower byte }
{
    b'a' <= byte && byte <= b'z'
}

pub fn is_digit(byte: u8) -> bool
    ensures { result ≡ is_digit byte }
{
    b'0' <= byte && byte <= b'9'
}

/// White space of the HTML standard without form feed.
pub fn is_space(byte: u8) -> bool
    ensures { result ≡ is_space byte }
{
    byte == b' ' || byte == b'\t' || byte == b'\n' || byte == b'\r'
}

/// Whether the name of an element goes on with this byte.
pub fn is_name_byte(byte: u8) -> bool
    ensures { result ≡ is_name_byte byte }
{
    is_lower(byte) || is_digit(byte)
}

/// Whether the name of an attribute has this byte.
pub fn is_attribute_byte(byte: u8) -> bool
    ensures { result ≡ is_attribute_byte byte }
{
    is_lower(byte) || is_digit(byte) || byte == b'-' || byte == b':'
}

pub fn is_quote(byte: u8) -> bool
    ensures { result ≡ is_quote byte }
{
    byte == b'"' || byte == b'\''
}

/// Whether the byte is an ASCII character that stands for itself in a text.
pub fn is_plain_text(byte: u8) -> bool
    ensures { result ≡ is_plain in_text byte }
{
    byte < 128 && (!(byte == b'<') && !(byte == b'&'))
}

/// Whether the byte is an ASCII character that stands for itself in a value.
pub fn is_plain_value(quote: u8, byte: u8) -> bool
    ensures { result ≡ is_plain (in_value quote) byte }
{
    byte < 128 && (!(byte == quote) && !(byte == b'&'))
}

/// Whether elements of this name are void.
pub fn is_void(name: &[u8]) -> bool
    ensures { result ≡ is_void name.now }
{
    name == b"br".as_slice()
        || name == b"hr".as_slice()
        || name == b"meta".as_slice()
        || name == b"link".as_slice()
        || name == b"base".as_slice()
}

/// Whether the byte is a digit of numbers that are written so.
pub fn is_digit_of(radix: Radix, byte: u8) -> bool
    ensures { result ≡ is_digit_of radix byte }
{
    match radix {
        Radix::Decimal => is_digit(byte),
        Radix::Hexadecimal => {
            is_digit(byte) || (b'a' <= byte && byte <= b'f') || (b'A' <= byte && byte <= b'F')
        }
    }
}

/// Whether a character begins with this byte.
pub fn begins_character(byte: u8) -> bool
    ensures { result ≡ begins_character byte }
{
    byte < 128 || follow(byte).is_some()
}
