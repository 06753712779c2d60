//! How many signs of a class are at the front or at the back of a line.

ghost use Rattle.std.specs.Prelude.{◌≡◌, min, drop};
ghost use Rattle.std.specs.List.{prefix_len};
ghost use Rattle.wt_lines.specs.Signs.{left, right, number};
ghost use Rattle.wt_blocks.specs.Classes.{is_of};

use wt_lines::{BackSigns, LineSign, Signs};

#[derive(Clone, Copy, Debug, PartialEq, Eq)]
pub enum SignClass {
    /// `=`.
    Equal,
    /// A space or a tab.
    Blank,
    /// A space, a tab or a mark.
    Idle,
}

impl SignClass {
    fn has(self, sign: LineSign) -> bool
        ensures { result ≡ is_of self (number sign) }
    {
        match self {
            SignClass::Equal => sign.is_byte(b'='),
            SignClass::Blank => sign.is_byte(b' ') || sign.is_byte(b'\t'),
            SignClass::Idle => sign.is_idle(),
        }
    }
}

/// How many signs of the class are at the front; `most` at most are counted.
pub fn front_len(signs: Signs<'_, '_>, class: SignClass, most: usize) -> usize
    ensures value { result ≡ min most (prefix_len (is_of class) (left signs.entry)) }
{
    let mut rest = signs;
    for n in 0..most {
        let Some((sign, after)) = rest.split_first() else {
            return n;
        };
        if !class.has(sign) {
            return n;
        }
        rest = after;
    }
    most
}

/// What is left after so many signs at the front.
pub fn past_front<'p, 'a>(signs: Signs<'p, 'a>, count: usize) -> Signs<'p, 'a>
    ensures { left result ≡ drop count (left signs.entry) }
{
    let mut rest = signs;
    for i in 0..count {
        let Some((_, after)) = rest.split_first() else {
            return rest;
        };
        rest = after;
    }
    rest
}

/// How many signs of the class are at the back; `most` at most are counted.
pub fn back_len(signs: BackSigns<'_, '_>, class: SignClass, most: usize) -> usize
    ensures value { result ≡ min most (prefix_len (is_of class) (right signs.entry)) }
{
    let mut rest = signs;
    for n in 0..most {
        let Some((sign, before)) = rest.split_last() else {
            return n;
        };
        if !class.has(sign) {
            return n;
        }
        rest = before;
    }
    most
}

/// What is left before so many signs at the back.
pub fn before_back<'p, 'a>(signs: BackSigns<'p, 'a>, count: usize) -> BackSigns<'p, 'a>
    ensures { right result ≡ drop count (right signs.entry) }
{
    let mut rest = signs;
    for i in 0..count {
        let Some((_, before)) = rest.split_last() else {
            return rest;
        };
        rest = before;
    }
    rest
}
