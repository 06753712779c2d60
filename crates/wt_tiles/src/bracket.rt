//! Brackets that balance: the `]]` of media.

ghost use Rattle.std.specs.Prelude.{◌≡◌, ◌<◌, ◌≤◌, ◌-◌, ◌+◌, ℕ, Some, length, drop, slice_get, option_map, IfOk};
ghost use Rattle.wt_tiles.specs.Partners.{balanced, bracket_turn, Up};
ghost use Rattle.wt_tiles.specs.Tables.{left_of, turn_value, balances, IsBalanceTable};

use crate::glyph::{Glyph, begins};
use std::alloc::Global;
use std::marker::Model;
use wt_span::{List, NoMemory, rest_of};

/// Whether one is opened here, closed, or neither.
#[derive(Clone, Copy, Debug, PartialEq, Eq)]
pub enum DepthChange {
    Up,
    Down,
    Level,
}

/// What the brackets at the front of the items do.
#[tactic(auto, unfolding(crate::specs::Partners::bracket_turn))]
fn bracket_turn(glyphs: &[Glyph]) -> DepthChange
    ensures { turn_value result ≡ bracket_turn glyphs.now }
{
    if begins(b"]]", glyphs) {
        DepthChange::Down
    } else if begins(b"[[", glyphs) {
        DepthChange::Up
    } else {
        DepthChange::Level
    }
}

/// What a table says of so many items.
pub fn entry(table: &[Option<usize>], left: usize) -> Option<usize>
    requires { left < length table.now }
    ensures { slice_get table.now left ≡ Some result }
{
    table[left]
}

/// How many items are left from the `]]` on that balances, where a `[[` is first, by what is
/// known of fewer items.
fn balance_up(table: &[Option<usize>], glyphs: &[Glyph]) -> Option<usize>
    requires up { bracket_turn glyphs.now ≡ Up }
    requires size { length table.now ≡ length glyphs.now }
    requires known { (k : ℕ) → k < length glyphs.now → slice_get table.now k ≡ Some (balances (drop (length glyphs.now - k) glyphs.now)) }
    ensures { result ≡ balances glyphs.now }
{
    match entry(table, glyphs.len() - 2) {
        Some(inner) => entry(table, inner - 2),
        None => None,
    }
}

/// How many items are left from the `]]` on that balances, by what is known of fewer items.
fn balance(table: &[Option<usize>], glyphs: &[Glyph]) -> Option<usize>
    requires some { 0 < length glyphs.now }
    requires size { length table.now ≡ length glyphs.now }
    requires known { (k : ℕ) → k < length glyphs.now → slice_get table.now k ≡ Some (balances (drop (length glyphs.now - k) glyphs.now)) }
    ensures { result ≡ balances glyphs.now }
{
    match bracket_turn(glyphs) {
        DepthChange::Down => Some(glyphs.len()),
        DepthChange::Up => balance_up(table, glyphs),
        DepthChange::Level => entry(table, glyphs.len() - 1),
    }
}

/// For each number of items that may be left, how many are from the `]]` on that balances.
fn balance_table(alloc: Global, glyphs: &[Glyph]) -> Result<List<Option<usize>>, NoMemory>
    ensures { IfOk result (λ t. IsBalanceTable glyphs.now t) }
{
    let mut table = List::new(alloc);
    table.push(None)?;
    for left in 0..glyphs.len() {
        let rest = rest_of(glyphs, glyphs.len() - left - 1);
        let entry = balance(table.as_slice(), rest);
        table.push(entry)?;
    }
    Ok(table)
}

/// Items in which brackets are balanced. They are read once, when first asked for.
#[derive(Debug, Drop)]
pub struct Brackets<'g> {
    glyphs: &'g [Glyph],
    table: Option<List<Option<usize>>>,
}

impl<'g> Model for Brackets<'g> {
    ghost use Rattle.std.specs.Prelude.{List};
    ghost use Rattle.wt_tiles.specs.declared.glyph.Glyph.{Glyph};

    ghost Value = { List Glyph };

    ghost use Rattle.wt_tiles.specs.Tables.{IsKnownBalance};

    ghost view = { λ b. b.glyphs.now };

    ghost invariant = { λ b. IsKnownBalance b.glyphs.now b.table };
}

impl<'g> Brackets<'g> {
    /// The items' brackets, not read yet.
    pub fn new(glyphs: &'g [Glyph]) -> Brackets<'g>
        ensures { result ≡ glyphs.entry.now }
    {
        Brackets {
            glyphs,
            table: None,
        }
    }

    /// How many items are left from the `]]` on that balances a `[[` after which these are left.
    pub fn closing(&mut self, alloc: Global, left: usize) -> Result<Option<usize>, NoMemory>
        requires { left ≤ length self.old }
        ensures kept { self.new ≡ self.old }
        ensures value { IfOk result (λ o. o ≡ balances (drop (length self.old - left) self.old)) }
    {
        if let Some(table) = &self.table {
            return Ok(table.as_slice()[left]);
        }
        let table = balance_table(alloc, self.glyphs)?;
        let found = table.as_slice()[left];
        self.table = Some(table);
        Ok(found)
    }
}
