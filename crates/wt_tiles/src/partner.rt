//! Tags that are in pairs: which closing tag belongs to an opening one.

ghost use Rattle.std.specs.Prelude.{◌≡◌, ◌<◌, ◌≤◌, ◌-◌, ◌+◌, ℕ, Some, None, length, drop, slice_get, IfOk};
ghost use Rattle.wt_span.specs.declared.tag_name.TagName.{TagName as PairName};
ghost use Rattle.wt_tiles.specs.Tags.{tag_at};
ghost use Rattle.wt_tiles.specs.Partners.{number, turn_of_shape};
ghost use Rattle.wt_tiles.specs.Tables.{nearest, nearest_by, own_partner, AreNearest, IsPartnerTable};

use crate::bracket::entry;
use crate::glyph::Glyph;
use crate::tag::{Name, Tag, TagShape, tag_at};
use std::alloc::Global;
use std::marker::Model;
use wt_span::{List, NoMemory, TagName, rest_of};

/// How many names are in pairs.
const NAMES: usize = 7;

/// The place of a name in tables.
fn number(name: TagName) -> usize
    ensures value { result ≡ number name }
    ensures within { result < 7 }
{
    match name {
        TagName::Sup => 0,
        TagName::Sub => 1,
        TagName::Small => 2,
        TagName::S => 3,
        TagName::U => 4,
        TagName::Code => 5,
        TagName::Span => 6,
    }
}

/// How many items are left from the nearest closing tag of a name on, where a tag of that name
/// is first; `behind` is what was known after it.
fn nearest_by(
    table: &[Option<usize>],
    shape: TagShape,
    left: usize,
    behind: Option<usize>,
) -> Option<usize>
    requires { (q : ℕ) → behind ≡ Some q → q < length table.now }
    ensures { result ≡ nearest_by table.now shape left behind }
{
    match shape {
        TagShape::Opening => match behind {
            Some(closing) => entry(table, closing),
            None => None,
        },
        TagShape::Closing => Some(left),
        TagShape::Alone => behind,
    }
}

/// Goes one item to the left: what is known of the nearest closing tag of each name, of which the
/// tag that begins the items may be one. Gives what was known of that tag's name.
fn pass(nearest: &mut [Option<usize>], table: &[Option<usize>], glyphs: &[Glyph]) -> Option<usize>
    requires some { 0 < length glyphs.now }
    requires size { length table.now ≡ length glyphs.now }
    requires known { (k : ℕ) → k < length glyphs.now → slice_get table.now k ≡ Some (own_partner (drop (length glyphs.now - k) glyphs.now)) }
    requires behind { AreNearest (drop 1 glyphs.now) nearest.old }
    ensures value { result ≡ own_partner glyphs.now }
    ensures after { AreNearest glyphs.now nearest.new }
{
    let Some(tag) = tag_at(glyphs) else {
        return None;
    };
    let Name::Paired(name) = tag.name else {
        return None;
    };
    let at = number(name);
    let behind = nearest[at];
    nearest[at] = nearest_by(table, tag.shape, glyphs.len(), behind);
    behind
}

/// For each number of items that may be left, where they begin with a tag that is in pairs: how
/// many are left from the first closing tag of its name on that closes more than is opened between.
fn partner_table(alloc: Global, glyphs: &[Glyph]) -> Result<List<Option<usize>>, NoMemory>
    ensures { IfOk result (λ t. IsPartnerTable glyphs.now t) }
{
    let mut nearest = [None; NAMES];
    let mut table = List::new(alloc);
    table.push(None)?;
    for left in 0..glyphs.len() {
        let rest = rest_of(glyphs, glyphs.len() - left - 1);
        let entry = pass(&mut nearest, table.as_slice(), rest);
        table.push(entry)?;
    }
    Ok(table)
}

/// Items in which tags are paired. They are read once, when first asked for.
#[derive(Debug, Drop)]
pub struct Partners<'g> {
    glyphs: &'g [Glyph],
    table: Option<List<Option<usize>>>,
}

impl<'g> Model for Partners<'g> {
    ghost use Rattle.std.specs.Prelude.{List};
    ghost use Rattle.wt_tiles.specs.declared.glyph.Glyph.{Glyph};

    ghost Value = { List Glyph };

    ghost use Rattle.wt_tiles.specs.Tables.{IsKnownPartner};

    ghost view = { λ p. p.glyphs.now };

    ghost invariant = { λ p. IsKnownPartner p.glyphs.now p.table };
}

impl<'g> Partners<'g> {
    /// The items' tags, not read yet.
    pub fn new(glyphs: &'g [Glyph]) -> Partners<'g>
        ensures { result ≡ glyphs.entry.now }
    {
        Partners {
            glyphs,
            table: None,
        }
    }

    /// How many items are left from the closing tag on that balances the tag after which these are
    /// left, where that tag opens one of a pair.
    pub fn closing(&mut self, alloc: Global, left: usize) -> Result<Option<usize>, NoMemory>
        requires { left ≤ length self.old }
        ensures kept { self.new ≡ self.old }
        ensures value { IfOk result (λ o. o ≡ own_partner (drop (length self.old - left) self.old)) }
    {
        if let Some(table) = &self.table {
            return Ok(table.as_slice()[left]);
        }
        let table = partner_table(alloc, self.glyphs)?;
        let found = table.as_slice()[left];
        self.table = Some(table);
        Ok(found)
    }
}
