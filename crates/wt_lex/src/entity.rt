ghost use Rattle.std.specs.Prelude.{◌≡◌, ◌==◌, ◌+◌, ◌<◌, ◌≤◌, ◌^◌, ℕ, List, Bool, Some, None, IfSome, IsTrue, map, length, drop, if◌then◌else◌};
ghost use Rattle.std.specs.Char.{digit_value};
ghost use Rattle.std.specs.List.{list_all};
ghost use Rattle.std.specs.Str.{IsCharBoundary};
ghost use Rattle.std.specs.Str.Parse.{digits_value, AllDigits};
ghost use Rattle.wt_span.specs.Entities.{named_in, named_entity, is_entity_number, numbered, decimal_entity, hex_entity, entity_at};
ghost use Rattle.wt_comments.specs.Views.{in_class, is_short};

use wt_comments::{ByteClass, byte_at, run_len};
use wt_span::{front_of, rest_of};

/// The entities that have a name, each with its character.
static NAMES: [(&str, char); 40] = [
    ("&amp;", '&'),
    ("&lt;", '<'),
    ("&gt;", '>'),
    ("&quot;", '"'),
    ("&nbsp;", '\u{a0}'),
    ("&iexcl;", '\u{a1}'),
    ("&cent;", '\u{a2}'),
    ("&pound;", '\u{a3}'),
    ("&yen;", '\u{a5}'),
    ("&sect;", '\u{a7}'),
    ("&copy;", '\u{a9}'),
    ("&laquo;", '\u{ab}'),
    ("&not;", '\u{ac}'),
    ("&shy;", '\u{ad}'),
    ("&reg;", '\u{ae}'),
    ("&deg;", '\u{b0}'),
    ("&plusmn;", '\u{b1}'),
    ("&sup2;", '\u{b2}'),
    ("&sup3;", '\u{b3}'),
    ("&acute;", '\u{b4}'),
    ("&micro;", '\u{b5}'),
    ("&para;", '\u{b6}'),
    ("&middot;", '\u{b7}'),
    ("&raquo;", '\u{bb}'),
    ("&frac14;", '\u{bc}'),
    ("&frac12;", '\u{bd}'),
    ("&times;", '\u{d7}'),
    ("&divide;", '\u{f7}'),
    ("&ndash;", '\u{2013}'),
    ("&mdash;", '\u{2014}'),
    ("&lsquo;", '\u{2018}'),
    ("&rsquo;", '\u{2019}'),
    ("&ldquo;", '\u{201c}'),
    ("&rdquo;", '\u{201d}'),
    ("&bull;", '\u{2022}'),
    ("&hellip;", '\u{2026}'),
    ("&euro;", '\u{20ac}'),
    ("&trade;", '\u{2122}'),
    ("&rarr;", '\u{2192}'),
    ("&minus;", '\u{2212}'),
];

/// The first entry of a table that begins a text: its character, and how many bytes its name has.
fn named_in(table: &[(&str, char)], bytes: &[u8]) -> Option<(char, usize)>
    requires { IsTrue (list_all (λ e. is_short e.0.now) table.now) }
    ensures value { result ≡ named_in (map (λ e. (e.0.now, e.1)) table.now) bytes.now }
    ensures within { IfSome result (λ e. (0 < e.1) × (e.1 ≤ 10) × (e.1 ≤ length bytes.now)) }
{
    for (name, character) in table {
        if bytes.starts_with(name.as_bytes()) {
            return Some((*character, name.len()));
        }
    }
    None
}

/// The entity by name that begins a text.
#[tactic(auto, unfolding(wt_span::specs::Entities::named_entity, wt_span::specs::Entities::entity_names))]
fn named_entity(bytes: &[u8]) -> Option<(char, usize)>
    ensures value { result ≡ named_entity bytes.now }
    ensures within { IfSome result (λ e. (0 < e.1) × (e.1 ≤ 10) × (e.1 ≤ length bytes.now)) }
{
    named_in(&NAMES, bytes)
}

/// What a digit or a letter counts, 36 for any other byte.
fn digit_value(byte: u8) -> u32
    ensures { result ≡ digit_value byte }
{
    match byte {
        b'0'..=b'9' => u32::from(byte - b'0'),
        b'A'..=b'Z' => u32::from(byte - b'A') + 10,
        b'a'..=b'z' => u32::from(byte - b'a') + 10,
        _ => 36,
    }
}

/// The number that digits write.
fn number(base: u32, digits: &[u8]) -> u32
    requires base { 0 < base }
    requires digits { AllDigits base digits.now }
    requires fits { base ^ length digits.now ≤ 2 ^ 32 }
    ensures { result ≡ digits_value base digits.now }
{
    let mut number = 0;
    for digit in digits {
        number = number * base + digit_value(*digit);
    }
    number
}

/// The character of a number that counts in an entity.
fn entity_character(code: u32) -> Option<char>
    ensures { result ≡ (if is_entity_number code then Some code else None) }
{
    match code {
        32..=126 | 160..=0xd7ff | 0xe000..=0x10_ffff => char::from_u32(code),
        _ => None,
    }
}

/// An entity by number, whose digits begin after the first `start` bytes of a text.
fn numbered(
    start: usize,
    most: usize,
    base: u32,
    class: ByteClass,
    bytes: &[u8],
) -> Option<(char, usize)>
    requires start { start ≤ length bytes.now }
    requires short { start + most < 10 }
    requires base { 0 < base }
    requires digits { (b : ℕ) → IsTrue (in_class class b) → digit_value b < base }
    requires fits { base ^ most ≤ 2 ^ 32 }
    ensures value { result ≡ numbered start most base (in_class class) bytes.now }
    ensures within { IfSome result (λ e. (0 < e.1) × (e.1 ≤ 10) × (e.1 ≤ length bytes.now)) }
{
    let rest = rest_of(bytes, start);
    let n = run_len(class, rest);
    if n == 0 || n > most || byte_at(bytes, start + n) != b';' {
        return None;
    }
    let character = entity_character(number(base, front_of(rest, n)))?;
    Some((character, start + n + 1))
}

#[tactic(auto, unfolding(wt_span::specs::Entities::decimal_entity))]
fn decimal_entity(bytes: &[u8]) -> Option<(char, usize)>
    ensures value { result ≡ decimal_entity bytes.now }
    ensures within { IfSome result (λ e. (0 < e.1) × (e.1 ≤ 10) × (e.1 ≤ length bytes.now)) }
{
    if bytes.starts_with(b"&#") {
        numbered(2, 7, 10, ByteClass::Digit, bytes)
    } else {
        None
    }
}

#[tactic(auto, unfolding(wt_span::specs::Entities::hex_entity))]
fn hex_entity(bytes: &[u8]) -> Option<(char, usize)>
    ensures value { result ≡ hex_entity bytes.now }
    ensures within { IfSome result (λ e. (0 < e.1) × (e.1 ≤ 10) × (e.1 ≤ length bytes.now)) }
{
    if bytes.starts_with(b"&#x") || bytes.starts_with(b"&#X") {
        numbered(3, 6, 16, ByteClass::HexDigit, bytes)
    } else {
        None
    }
}

/// The entity that begins a text: its character, and how many bytes it takes.
#[tactic(auto, using(crate::proofs::AllForms::entity_none), unfolding(wt_span::specs::Entities::entity_at))]
pub fn read_entity(bytes: &[u8]) -> Option<(char, usize)>
    ensures value { result ≡ entity_at bytes.now }
    ensures within { IfSome result (λ e. (0 < e.1) × (e.1 ≤ 10) × (e.1 ≤ length bytes.now)) }
{
    if byte_at(bytes, 0) != b'&' {
        return None;
    }
    named_entity(bytes)
        .or(decimal_entity(bytes))
        .or(hex_entity(bytes))
}

/// The entity that begins at a place of a text: its character, and how many bytes it takes.
///
/// The forty names of the profile count, as they are spelled, and numbers of the characters from
/// 32 to 126 and from 160 on, in one to seven decimal or one to six hexadecimal digits. `None`
/// where no entity begins there.
pub fn entity_at(text: &str, at: u32) -> Option<(char, u32)>
    requires { IsCharBoundary text.now at }
    ensures { result ≡ entity_at (drop at text.now) }
{
    match read_entity(rest_of(text.as_bytes(), at as usize)) {
        Some((character, n)) => Some((character, n as u32)),
        None => None,
    }
}
