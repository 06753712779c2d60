//! What is found out about a context once: which brackets balance, and which tags are partners.

ghost use Rattle.std.specs.Prelude.{◌≡◌, ◌≤◌, ◌-◌, length, drop, IfOk};
ghost use Rattle.wt_tiles.specs.Links.{link_at};
ghost use Rattle.wt_tiles.specs.Tables.{own_partner};

use crate::bracket::Brackets;
use crate::glyph::Glyph;
use crate::link::link_at;
use crate::partner::Partners;
use crate::shape::Shape;
use std::alloc::Global;
use std::marker::Model;
use wt_span::NoMemory;

/// The items of a context, with what is known of them.
#[derive(Debug, Drop)]
pub struct Known<'g> {
    brackets: Brackets<'g>,
    partners: Partners<'g>,
}

impl<'g> Model for Known<'g> {
    ghost use Rattle.std.specs.Prelude.{◌≡◌, List};
    ghost use Rattle.wt_tiles.specs.declared.glyph.Glyph.{Glyph};

    ghost Value = { List Glyph };

    ghost view = { λ k. k.brackets };

    ghost invariant = { λ k. k.partners ≡ k.brackets };
}

impl<'g> Known<'g> {
    /// Nothing is known of the items yet.
    pub fn new(glyphs: &'g [Glyph]) -> Known<'g>
        ensures { result ≡ glyphs.entry.now }
    {
        Known {
            brackets: Brackets::new(glyphs),
            partners: Partners::new(glyphs),
        }
    }

    /// The link, category or media that begins the last items of the context.
    pub fn link_at(&mut self, alloc: Global, rest: &[Glyph]) -> Result<Option<Shape>, NoMemory>
        requires end { rest.now ≡ drop (length self.old - length rest.now) self.old }
        requires within { length rest.now ≤ length self.old }
        ensures kept { self.new ≡ self.old }
        ensures value { IfOk result (λ o. o ≡ link_at rest.now) }
    {
        link_at(alloc, &mut self.brackets, rest)
    }

    /// How many items are left from the closing tag on that balances the tag after which these are
    /// left, where that tag opens one of a pair.
    pub fn closing(&mut self, alloc: Global, left: usize) -> Result<Option<usize>, NoMemory>
        requires { left ≤ length self.old }
        ensures kept { self.new ≡ self.old }
        ensures value { IfOk result (λ o. o ≡ own_partner (drop (length self.old - left) self.old)) }
    {
        self.partners.closing(alloc, left)
    }
}
