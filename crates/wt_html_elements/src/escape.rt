ghost use Rattle.std.specs.Prelude.{◌≡◌, ℕ, ◌≤◌, ◌<◌};
ghost use Rattle.wt_html_grammar.specs.Signs.{letters_of, character_of, is_digit_of, digit_value, base_of, most_digits};
ghost use Rattle.wt_html_grammar.specs.Machine.{is_begun, in_escape, in_digits, letters, digits, ampersand, apart, sharp};
ghost use Rattle.wt_html_grammar.specs.Events.{decoded};
ghost use Rattle.wt_html_elements.specs.View.{escape_of, Turns};

use crate::signs::is_digit_of;
use wt_html_grammar::{EscapeName, Radix};

/// How far an escape has come: after `&`, after `&a`, in a name, after `&#`, or in a number, with
/// the count of its digits and their value.
#[derive(Clone, Copy)]
pub enum EscapeAt {
    Ampersand,
    Apart,
    Letters(EscapeName, usize),
    Sharp,
    Digits(Radix, u32, u32),
}

/// What a byte does in an escape: it can't be there, it goes on, or it ends it, and the escape
/// stands for this character.
#[derive(Clone, Copy)]
pub enum TurnTo {
    Stop,
    On(EscapeAt),
    Ended(char),
}

/// The letters between `&` and `;`.
fn letters_of(name: EscapeName) -> &'static [u8]
    ensures { result.now ≡ letters_of name }
{
    match name {
        EscapeName::Amp => b"amp",
        EscapeName::Lt => b"lt",
        EscapeName::Gt => b"gt",
        EscapeName::Quot => b"quot",
        EscapeName::Apos => b"apos",
        EscapeName::Nbsp => b"nbsp",
    }
}

fn character_of(name: EscapeName) -> char
    ensures { result ≡ character_of name }
{
    match name {
        EscapeName::Amp => '&',
        EscapeName::Lt => '<',
        EscapeName::Gt => '>',
        EscapeName::Quot => '"',
        EscapeName::Apos => '\'',
        EscapeName::Nbsp => '\u{A0}',
    }
}

fn in_ampersand(byte: u8) -> TurnTo
    ensures { Turns result (in_escape ampersand byte) (decoded ampersand byte) }
{
    match byte {
        b'#' => TurnTo::On(EscapeAt::Sharp),
        b'a' => TurnTo::On(EscapeAt::Apart),
        b'l' => TurnTo::On(EscapeAt::Letters(EscapeName::Lt, 1)),
        b'g' => TurnTo::On(EscapeAt::Letters(EscapeName::Gt, 1)),
        b'q' => TurnTo::On(EscapeAt::Letters(EscapeName::Quot, 1)),
        b'n' => TurnTo::On(EscapeAt::Letters(EscapeName::Nbsp, 1)),
        _ => TurnTo::Stop,
    }
}

fn in_apart(byte: u8) -> TurnTo
    ensures { Turns result (in_escape apart byte) (decoded apart byte) }
{
    match byte {
        b'm' => TurnTo::On(EscapeAt::Letters(EscapeName::Amp, 2)),
        b'p' => TurnTo::On(EscapeAt::Letters(EscapeName::Apos, 2)),
        _ => TurnTo::Stop,
    }
}

fn in_letters(name: EscapeName, at: usize, byte: u8) -> TurnTo
    ensures { Turns result (in_escape (escape_of (EscapeAt.Letters name at)) byte) (decoded (escape_of (EscapeAt.Letters name at)) byte) }
{
    match letters_of(name).get(at) {
        Some(letter) => {
            if byte == *letter {
                TurnTo::On(EscapeAt::Letters(name, at + 1))
            } else {
                TurnTo::Stop
            }
        }
        None => {
            if byte == 59 {
                TurnTo::Ended(character_of(name))
            } else {
                TurnTo::Stop
            }
        }
    }
}

fn most_digits(radix: Radix) -> u32
    ensures value { result ≡ most_digits radix }
    ensures few { result ≤ 7 }
{
    match radix {
        Radix::Decimal => 7,
        Radix::Hexadecimal => 6,
    }
}

fn base_of(radix: Radix) -> u32
    ensures value { result ≡ base_of radix }
    ensures few { result ≤ 16 }
{
    match radix {
        Radix::Decimal => 10,
        Radix::Hexadecimal => 16,
    }
}

fn digit_value(byte: u8) -> u32
    requires { 48 ≤ byte }
    ensures value { result ≡ digit_value byte }
    ensures few { result < 256 }
{
    if byte <= 57 {
        (byte - 48) as u32
    } else if byte <= 70 {
        if byte < 55 { 0 } else { (byte - 55) as u32 }
    } else if byte < 87 {
        0
    } else {
        (byte - 87) as u32
    }
}

/// Whether so many digits of this value can go on to a whole number.
fn is_begun(radix: Radix, count: u32, number: u32) -> bool
    ensures { result ≡ is_begun radix count number }
{
    let most = most_digits(radix);
    count <= most && (number <= 1114111 && (count < most || char::from_u32(number).is_some()))
}

fn at_semicolon(count: u32, number: u32) -> TurnTo
    ensures { Turns result (in_digits Radix.Decimal count number 59) (decoded (digits Radix.Decimal count number) 59) }
{
    if count == 0 {
        return TurnTo::Stop;
    }
    match char::from_u32(number) {
        Some(character) => TurnTo::Ended(character),
        None => TurnTo::Stop,
    }
}

fn in_digits(radix: Radix, count: u32, number: u32, byte: u8) -> TurnTo
    ensures { Turns result (in_digits radix count number byte) (decoded (digits radix count number) byte) }
{
    if is_digit_of(radix, byte) {
        if 7 <= count || 1114111 < number {
            return TurnTo::Stop;
        }
        let next = number * base_of(radix) + digit_value(byte);
        if is_begun(radix, count + 1, next) {
            TurnTo::On(EscapeAt::Digits(radix, count + 1, next))
        } else {
            TurnTo::Stop
        }
    } else if byte == 59 {
        at_semicolon(count, number)
    } else {
        TurnTo::Stop
    }
}

fn in_sharp(byte: u8) -> TurnTo
    ensures { Turns result (in_escape sharp byte) (decoded sharp byte) }
{
    if byte == 120 {
        TurnTo::On(EscapeAt::Digits(Radix::Hexadecimal, 0, 0))
    } else {
        in_digits(Radix::Decimal, 0, 0, byte)
    }
}

/// What a byte does in an escape.
pub fn turn(escape: EscapeAt, byte: u8) -> TurnTo
    ensures { Turns result (in_escape (escape_of escape) byte) (decoded (escape_of escape) byte) }
{
    match escape {
        EscapeAt::Ampersand => in_ampersand(byte),
        EscapeAt::Apart => in_apart(byte),
        EscapeAt::Letters(name, at) => in_letters(name, at, byte),
        EscapeAt::Sharp => in_sharp(byte),
        EscapeAt::Digits(radix, count, number) => in_digits(radix, count, number, byte),
    }
}
