ghost use Rattle.std.specs.Prelude.{◌≡◌, ◌≤◌, [], ◌∷◌, ◌++◌, OnOk, OnErr};

use crate::list::List;
use crate::memory::NoMemory;
use std::alloc::Global;
use std::marker::Model;

/// The places from `start` up to `end`.
#[derive(Clone, Copy, Debug, PartialEq, Eq)]
pub struct Range {
    pub start: u32,
    pub end: u32,
    pub ghost ordered: { start ≤ end },
}

impl Range {
    /// This range and the next one as one.
    pub fn join(self, next: Range) -> Range
        requires { next.start ≡ self.end }
        ensures start { result.start ≡ self.start }
        ensures end { result.end ≡ next.end }
    {
        Range {
            start: self.start,
            end: next.end,
        }
    }
}
/// Ranges that follow one another.
#[derive(Debug, Drop)]
pub struct Tiles {
    at: u32,
    end: u32,
    ranges: List<Range>,
}

impl Model for Tiles {
    ghost use Rattle.std.specs.Prelude.{◌≡◌, ℕ, List};
    ghost use Rattle.wt_span.specs.declared.range.Range.{Range};

    ghost Value = { ℕ × List Range };

    ghost use Rattle.wt_span.specs.Span.{Follow, end_of};

    ghost view = { λ t. (t.at, t.ranges) };

    ghost invariant = { λ t. Follow t.at t.ranges × (t.end ≡ end_of t.at t.ranges) };
}

impl Tiles {
    ghost use Rattle.wt_span.specs.Span.{Follow, end_of};

    pub fn new(alloc: Global, at: u32) -> Tiles
        ensures { result ≡ (at, []) }
    {
        Tiles {
            at,
            end: at,
            ranges: List::new(alloc),
        }
    }

    #[tactic(auto, using(crate::proofs::Spans::tiles_push))]
    pub fn push(&mut self, r: Range) -> Result<(), NoMemory>
        requires { r.start ≡ end_of self.old.0 self.old.1 }
        ensures ok { OnOk result (self.new ≡ (self.old.0, self.old.1 ++ r ∷ [])) }
        ensures err { OnErr result (self.new ≡ self.old) }
    {
        let end = r.end;
        self.ranges.push(r)?;
        self.end = end;
        Ok(())
    }

    pub fn as_slice(&self) -> &[Range]
        ensures value { result.now ≡ self.now.1 }
        ensures follow { Follow self.now.0 self.now.1 }
    {
        self.ranges.as_slice()
    }
}
