//! What is so of every text and every number.

ghost use Rattle.std.specs.Prelude.{◌≡◌, ◌<◌, ◌^◌, IfSome};
ghost use Rattle.std.specs.Str.{IsUtf8};

use wt_span::Str;

/// Every text is UTF-8.
pub fn check_text(text: &Str)
    ensures { IsUtf8 text.now }
{
    let _text = text.as_str();
}

/// A text is UTF-8 where there is one.
pub fn check_text_if_any(text: &Option<Str>)
    ensures { IfSome text.now IsUtf8 }
{
    if let Some(text) = text {
        check_text(text);
    }
}

/// A number is below 2^32, as every `u32` is.
pub fn check_number(number: u32)
    ensures { number < 2 ^ 32 }
{
    let _number = number;
}

/// The text of these bytes.
pub fn text_of(bytes: Vec<u8>) -> Str
    requires { IsUtf8 bytes.items }
    ensures { result ≡ bytes.items }
{
    Str::from_string(String::from_utf8(bytes).unwrap())
}
