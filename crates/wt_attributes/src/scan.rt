//! The attributes of a text, one after another.

ghost use Rattle.std.specs.Prelude.{◌≡◌, ◌<◌, ◌∷◌, [], length, MatchOption, option_map, true, false};
ghost use Rattle.wt_attributes.specs.Attributes.{readings, attribute_if};
ghost use Rattle.wt_attributes.specs.Views.{named, left};

use crate::attribute::{Attribute, attribute_at};
use crate::class::ScanClass;

/// What is left of a text to be read for attributes.
#[derive(Clone, Copy, Debug)]
pub struct Scan<'t> {
    rest: &'t str,
    /// An attribute may begin here: at the text's start, or after a blank.
    fresh: bool,
}

impl<'t> Scan<'t> {
    /// All of the text.
    pub fn of(text: &'t str) -> Scan<'t>
        ensures { left result ≡ readings true 0 text.entry.now }
    {
        Scan {
            rest: text,
            fresh: true,
        }
    }

    /// What is left after the next blank; nothing where none comes.
    fn past_blank(self) -> Scan<'t>
        ensures value { left result ≡ readings false 0 self.entry.rest.now }
        ensures shorter { 0 < length self.entry.rest.now → length result.rest.now < length self.entry.rest.now }
    {
        let rest = match ScanClass::NoBlank.split_ended(self.rest) {
            Some((_, rest)) => rest,
            None => "",
        };
        Scan { rest, fresh: true }
    }

    /// The attribute that begins here, and the text after it.
    fn attribute_here(self) -> Option<(Attribute<'t>, &'t str)>
        ensures { option_map (λ r. (named r.0, r.1.now)) result ≡ attribute_if self.entry.fresh self.entry.rest.now }
    {
        if self.fresh {
            attribute_at(self.rest)
        } else {
            None
        }
    }

    /// The next attribute, and what is left after it.
    pub fn next_attribute(self) -> Option<(Attribute<'t>, Scan<'t>)>
        ensures { MatchOption result (left self.entry ≡ []) (λ r. left self.entry ≡ named r.0 ∷ left r.1) }
    {
        let mut scan = self;
        while !scan.rest.is_empty() {
            if let Some((attribute, rest)) = scan.attribute_here() {
                return Some((attribute, Scan { rest, fresh: false }));
            }
            scan = scan.past_blank();
        }
        None
    }
}
