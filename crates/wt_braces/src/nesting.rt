//! Calls from the order of their last bytes into that of their first, each with the nearest one
//! round it.

ghost use Rattle.std.specs.Prelude.{◌≡◌, ◌≤◌, ◌^◌, [], ◌∷◌, None, map, reverse, length, OnOk, IfOk};
ghost use Rattle.wt_braces.specs.Views.{closed_at, call_of};
ghost use Rattle.wt_braces.specs.Nested.{first_of, innermost, TakesFirst, with_call, settled, ordered, AreFew, OrderedAnswer};

use crate::call::{BraceRefusal, Call};
use crate::matching::Closed;
use std::alloc::Global;
use std::marker::Model;
use wt_span::{List, NoMemory};

/// Calls and arguments that have so many others round them lie too deep.
pub const NESTED_BRACES: usize = 100;

/// Calls of which the last one comes first, as contracts see them.
#[derive(Drop)]
struct Stack {
    calls: Vec<Closed>,
}

impl Model for Stack {
    ghost use Rattle.std.specs.Prelude.{List, map, reverse};
    ghost use Rattle.wt_braces.specs.Views.{ClosedAt, closed_at};

    ghost Value = { List ClosedAt };

    ghost view = { λ s. reverse (map closed_at s.calls.items) };
}

impl Stack {
    fn new(alloc: Global) -> Stack
        ensures { result ≡ [] }
    {
        Stack {
            calls: Vec::new(alloc),
        }
    }

    fn from_vec(calls: Vec<Closed>) -> Stack
        ensures { result ≡ reverse (map closed_at calls.items) }
    {
        Stack { calls }
    }

    fn len(&self) -> usize
        ensures { result ≡ length self.now }
    {
        self.calls.len()
    }

    /// The first call of those that lie in the innermost one, or its own number.
    #[tactic(auto, using(crate::proofs::Ends::first_last, crate::proofs::Ends::first_none))]
    fn first(&self) -> Option<usize>
        ensures { result ≡ first_of self.now }
    {
        match self.calls.last() {
            Some(call) => Some(call.first),
            None => None,
        }
    }

    #[tactic(auto, using(crate::proofs::Ends::rev_push))]
    fn push(&mut self, call: Closed) -> Result<(), NoMemory>
        ensures { OnOk result (self.new ≡ closed_at call ∷ self.old) }
    {
        self.calls.push(call)?;
        Ok(())
    }

    #[tactic(auto, using(crate::proofs::Ends::rev_push))]
    fn pop(&mut self) -> Option<Closed>
        ensures { TakesFirst result self.old self.new }
    {
        self.calls.pop()
    }

    /// The number of the first call, if it lies in the others: those before it, and those round it.
    fn innermost(&self) -> Option<u32>
        requires few { AreFew self.now }
        requires number { length self.now ≤ 2 ^ 30 }
        ensures { result ≡ innermost self.now }
    {
        match self.first() {
            Some(first) => Some((first + (self.len() - 1)) as u32),
            None => None,
        }
    }
}

/// Calls are read from the last one on, and each is written once all that lies in it is.
#[derive(Drop)]
struct Nesting {
    /// Those that are begun, each inside the one before.
    begun: Stack,
    /// Those that are written, the last one first.
    written: Vec<Call>,
    /// The first byte of the leftmost written one that has too many round it.
    deep: Option<u32>,
}

impl Model for Nesting {
    ghost use Rattle.std.specs.Prelude.{map, reverse};
    ghost use Rattle.wt_braces.specs.Views.{call_of};
    ghost use Rattle.wt_braces.specs.Nested.{Nested};

    ghost Value = { Nested };

    ghost view = { λ s. record { begun = s.begun; written = reverse (map call_of s.written.items); deep = s.deep } };
}

impl Nesting {
    #[tactic(auto, using(crate::proofs::Ends::rev_push))]
    fn write(&mut self, call: Closed) -> Result<(), NoMemory>
        requires few { AreFew self.old.begun }
        requires number { length self.old.begun ≤ 2 ^ 30 }
        ensures { OnOk result (self.new ≡ with_call (closed_at call) self.old) }
    {
        if self.begun.len() >= NESTED_BRACES {
            self.deep = Some(call.at.start);
        }
        let parent = self.begun.innermost();
        self.written.push(Call {
            argument: call.argument,
            at: call.at,
            parts: call.parts,
            parent,
        })?;
        Ok(())
    }

    /// Writes those in which nothing lies of the first calls that are left.
    fn write_read(&mut self, left: usize) -> Result<(), NoMemory>
        requires few { AreFew self.old.begun }
        requires number { length self.old.begun ≤ 2 ^ 30 }
        ensures { OnOk result (self.new ≡ settled left self.old.begun self.old.written self.old.deep) }
    {
        while self.begun.first().is_some_and(|first| left <= first) {
            if let Some(call) = self.begun.pop() {
                self.write(call)?;
            }
        }
        Ok(())
    }

    /// The calls that are written, in the order of their first bytes.
    #[tactic(auto, using(crate::proofs::Ends::map_reverse))]
    fn into_calls(self) -> Result<List<Call>, BraceRefusal>
        ensures { OrderedAnswer self result }
    {
        match self.deep {
            Some(place) => Err(BraceRefusal::BracesTooDeep { place }),
            None => {
                let mut calls = self.written;
                calls.reverse();
                Ok(List::from_vec(calls))
            }
        }
    }
}

/// All calls, from the last one on.
#[tactic(auto, using(crate::proofs::Settled::settled_few, crate::proofs::Settled::settled_len))]
fn write_all(alloc: Global, closed: Vec<Closed>) -> Result<Nesting, NoMemory>
    requires few { AreFew (reverse (map closed_at closed.items)) }
    requires number { length closed.items ≤ 2 ^ 30 }
    ensures { IfOk result (λ s. s ≡ ordered (reverse (map closed_at closed.items)) (record { begun = []; written = []; deep = None })) }
{
    let mut nesting = Nesting {
        begun: Stack::new(alloc),
        written: Vec::new(alloc),
        deep: None,
    };
    let mut left = Stack::from_vec(closed);
    while let Some(call) = left.pop() {
        nesting.begun.push(call)?;
        nesting.write_read(left.len())?;
    }
    Ok(nesting)
}

/// The calls in the order of their first bytes.
pub fn in_order(alloc: Global, closed: Vec<Closed>) -> Result<List<Call>, BraceRefusal>
    requires few { AreFew (reverse (map closed_at closed.items)) }
    requires number { length closed.items ≤ 2 ^ 30 }
    ensures { OrderedAnswer (ordered (reverse (map closed_at closed.items)) (record { begun = []; written = []; deep = None })) result }
{
    match write_all(alloc, closed) {
        Ok(nesting) => nesting.into_calls(),
        Err(NoMemory) => Err(BraceRefusal::NoMemory),
    }
}
