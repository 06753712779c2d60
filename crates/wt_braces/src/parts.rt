ghost use Rattle.std.specs.Prelude.{◌≡◌, ◌≤◌, [], None, map, false, IfOk, OnOk};
ghost use Rattle.wt_span.specs.Braces.{parts_between};
ghost use Rattle.wt_braces.specs.Views.{part_of, sign_at};
ghost use Rattle.wt_braces.specs.PartRows.{Fit, with_part, with_sign, place_of};

use crate::call::PartAt;
use std::alloc::Global;
use std::marker::Model;
use wt_span::{List, NoMemory, Range};

/// A `|` or a `=` that may count.
#[derive(Clone, Copy, Debug)]
pub enum PartSign {
    Pipe(Range),
    Equals(Range),
}

/// The parts of a call so far, and of the next one where it begins and the `=` that ends its name.
#[derive(Drop)]
struct Parts {
    parts: List<PartAt>,
    start: u32,
    equals: Option<u32>,
}

impl Model for Parts {
    ghost use Rattle.std.specs.Prelude.{map};
    ghost use Rattle.wt_braces.specs.Views.{part_of};
    ghost use Rattle.wt_braces.specs.PartRows.{Row};

    ghost Value = { Row };

    ghost view = { λ p. record { parts = map part_of p.parts; start = p.start; name = p.equals } };
}

impl Parts {
    fn new(alloc: Global, start: u32) -> Parts
        ensures { result ≡ record { parts = []; start = start; name = None } }
    {
        Parts {
            parts: List::new(alloc),
            start,
            equals: None,
        }
    }

    /// The next part ends at a place.
    fn end_part(&mut self, end: u32) -> Result<(), NoMemory>
        requires { self.old.start ≤ end }
        ensures parts { OnOk result (self.new.parts ≡ with_part end self.old) }
    {
        self.parts.push(PartAt {
            at: Range {
                start: self.start,
                end,
            },
            equals: self.equals,
        })?;
        Ok(())
    }

    fn read(&mut self, sign: PartSign) -> Result<(), NoMemory>
        requires { self.old.start ≤ place_of (sign_at sign) }
        ensures { OnOk result (self.new ≡ with_sign (sign_at sign) self.old) }
    {
        match sign {
            PartSign::Pipe(at) => {
                self.end_part(at.start)?;
                self.start = at.end;
                self.equals = None;
            }
            PartSign::Equals(at) => {
                if self.parts.len() > 0 && self.equals.is_none() {
                    self.equals = Some(at.start);
                }
            }
        }
        Ok(())
    }

    fn into_parts(self) -> List<PartAt>
        ensures { map part_of result ≡ self.parts }
    {
        self.parts
    }
}

/// The parts of a call whose inside has these signs, from its first byte to its end.
pub fn parts_between(
    alloc: Global,
    from: u32,
    to: u32,
    signs: &[PartSign],
) -> Result<List<PartAt>, NoMemory>
    requires { Fit from to (map sign_at signs.now) }
    ensures { IfOk result (λ ps. map part_of ps ≡ parts_between false from to (map sign_at signs.now)) }
{
    let mut parts = Parts::new(alloc, from);
    for sign in signs {
        parts.read(*sign)?;
    }
    parts.end_part(to)?;
    Ok(parts.into_parts())
}
