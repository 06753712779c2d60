//! The signs of a line, and what is found in them.

ghost use Rattle.std.specs.Prelude.{◌≡◌, ◌≤◌, ◌+◌, ◌++◌, ◌∷◌, [], ◌&&◌, ◌||◌, nat_lt, length, map, drop, take, slice_index, OnOk, IfOk, codes};
ghost use Rattle.std.specs.List.{prefix_len};
ghost use Rattle.wt_span.specs.Bytes.{is_blank, begins};
ghost use Rattle.wt_span.specs.Items.{sign, items, items_of};
ghost use Rattle.wt_lines.specs.Kinds.{is_idle};
ghost use Rattle.wt_lines.specs.Signs.{number};
ghost use Rattle.wt_tables.specs.Cells.{splits, single_at, has_link, blanks_from};
ghost use Rattle.wt_tables.specs.Views.{numbers, first_len, begins_single};

use std::alloc::Global;
use wt_lines::LineSign;
use wt_span::{List, NoMemory, Piece, rest_of};

/// What splits a line into cells.
#[derive(Clone, Copy, Debug)]
pub enum Splits {
    /// `||`.
    Cells,
    /// `||` and `!!`.
    Headers,
    Nothing,
}

fn push_signs(out: &mut List<LineSign>, piece: &Piece<'_>) -> Result<(), NoMemory>
    ensures { OnOk result (numbers out.new ≡ numbers out.old ++ map sign (items_of piece.now)) }
{
    match LineSign::of_form(piece.form) {
        Some(sign) => out.push(sign),
        None => push_bytes(out, piece.text.as_str().as_bytes()),
    }
}

fn push_bytes(out: &mut List<LineSign>, bytes: &[u8]) -> Result<(), NoMemory>
    ensures { OnOk result (numbers out.new ≡ numbers out.old ++ bytes.now) }
{
    for byte in bytes {
        out.push(LineSign::Byte(*byte))?;
    }
    Ok(())
}

/// The signs of pieces.
pub fn signs_of(alloc: Global, pieces: &[Piece<'_>]) -> Result<List<LineSign>, NoMemory>
    ensures { IfOk result (λ ss. numbers ss ≡ map sign (items pieces.now)) }
{
    let mut out = List::new(alloc);
    for piece in pieces {
        push_signs(&mut out, piece)?;
    }
    Ok(out)
}

fn is_blank(sign: LineSign) -> bool
    ensures { result ≡ is_blank (number sign) }
{
    sign.is_byte(b' ') || sign.is_byte(b'\t')
}

/// How many blanks and marks are at the front.
pub fn idle_len(signs: &[LineSign]) -> usize
    ensures value { result ≡ prefix_len is_idle (numbers signs.now) }
    ensures within { result ≤ length signs.now }
{
    for (i, sign) in signs.iter().enumerate() {
        if !sign.is_idle() {
            return i;
        }
    }
    signs.len()
}

fn blank_len(signs: &[LineSign]) -> usize
    ensures value { result ≡ prefix_len is_blank (numbers signs.now) }
    ensures within { result ≤ length signs.now }
{
    for (i, sign) in signs.iter().enumerate() {
        if !is_blank(*sign) {
            return i;
        }
    }
    signs.len()
}

/// The place after the blanks that are at a place.
pub fn blanks_from(at: usize, signs: &[LineSign]) -> usize
    requires { at ≤ length signs.now }
    ensures value { result ≡ blanks_from at (numbers signs.now) }
    ensures within { result ≤ length signs.now }
{
    at + blank_len(rest_of(signs, at))
}

/// The character is at the front.
pub fn begins_one(signs: &[LineSign], byte: u8) -> bool
    ensures { result ≡ begins (byte ∷ []) (numbers signs.now) }
{
    match signs {
        [first, ..] => first.is_byte(byte),
        [] => false,
    }
}

/// The character is at the front, and once more after.
fn begins_two(signs: &[LineSign], byte: u8) -> bool
    ensures { result ≡ begins (byte ∷ byte ∷ []) (numbers signs.now) }
{
    match signs {
        [first, second, ..] => first.is_byte(byte) && second.is_byte(byte),
        [_] => false,
        [] => false,
    }
}

impl Splits {
    /// A sign that begins a further cell is at the front.
    fn begin(self, signs: &[LineSign]) -> bool
        ensures { result ≡ splits self (numbers signs.now) }
    {
        match self {
            Splits::Cells => begins_two(signs, b'|'),
            Splits::Headers => begins_two(signs, b'|') || begins_two(signs, b'!'),
            Splits::Nothing => false,
        }
    }

    /// How many items the first cell has, whose sign has `from`.
    pub fn first_len(self, from: usize, signs: &[LineSign]) -> usize
        requires { from ≤ length signs.now }
        ensures value { result ≡ first_len self from (numbers signs.now) }
        ensures within { result ≤ length signs.now }
        ensures some { from ≤ result }
    {
        let mut at = from;
        while at < signs.len() {
            if self.begin(rest_of(signs, at)) {
                return at;
            }
            at += 1;
        }
        at
    }
}

/// A single `|` is at the front, where one comes before it or not.
fn begins_single(behind_bar: bool, signs: &[LineSign]) -> bool
    ensures { result ≡ begins_single behind_bar (numbers signs.now) }
{
    !behind_bar && begins_one(signs, b'|') && !begins_two(signs, b'|')
}

/// The place of the first `|` beside which there is none, or the length.
pub fn single_at(signs: &[LineSign]) -> usize
    ensures value { result ≡ single_at (numbers signs.now) }
    ensures within { result ≤ length signs.now }
{
    let mut behind_bar = false;
    for (i, sign) in signs.iter().enumerate() {
        if begins_single(behind_bar, rest_of(signs, i)) {
            return i;
        }
        behind_bar = sign.is_byte(b'|');
    }
    signs.len()
}

fn begins_link(signs: &[LineSign]) -> bool
    ensures { result ≡ begins (codes "[[") (numbers signs.now) }
{
    begins_two(signs, b'[')
}

/// Whether `[[` is somewhere.
pub fn has_link(signs: &[LineSign]) -> bool
    ensures { result ≡ has_link (numbers signs.now) }
{
    for at in 0..signs.len() {
        if begins_link(rest_of(signs, at)) {
            return true;
        }
    }
    false
}
