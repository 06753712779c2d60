//! What is being read of one text: its levels.
ghost use Rattle.std.specs.Prelude.{◌≡◌, ◌∷◌, [], Some, OnOk};
ghost use Rattle.wt_values.specs.Frames.{AreValues};
ghost use Rattle.wt_template_stack.specs.Stacks.{TakesLevel, innermost_end, one_or_none, stack, whole_level, with_given};
ghost use Rattle.wt_template_stack.specs.declared.level.Level.{Level as OfText};

use crate::choosing::Choosing;
use std::alloc::Global;
use wt_names::Title;
use wt_span::{List, NoMemory, Piece};
use wt_transclusion::{Braces, Handed};

/// A call of a page whose values are being read.
pub struct PendingCall<'a> {
    pub call: Braces<'a>,
    /// Whether the call is at the start of a line.
    pub at_start: bool,
    pub title: Title,
    /// How many of its parts are read, or are being read.
    pub part: usize,
    pub handed: Handed<'a>,
}

// One call wherever a call is let go, in place of one for each of its fields.
impl Drop for PendingCall<'_> {
    fn drop(self) {
        let PendingCall {
            call: _,
            at_start: _,
            title: _,
            part: _,
            handed: _,
        } = self;
    }
}

impl<'a> PendingCall<'a> {
    /// A call of which the target alone is read.
    pub fn new(alloc: Global, call: Braces<'a>, at_start: bool, title: Title) -> PendingCall<'a>
        ensures call { result.call ≡ call.entry }
        ensures at_start { result.at_start ≡ at_start }
        ensures title { result.title ≡ title }
        ensures part { result.part ≡ 1 }
        ensures number { result.handed.number ≡ 1 }
        ensures values { AreValues result.handed.values [] }
    {
        PendingCall {
            call,
            at_start,
            title,
            part: 1,
            handed: Handed::new(alloc),
        }
    }
}

/// What is done where a level ends.
#[derive(Drop)]
pub enum Task<'a> {
    /// The text ends.
    Whole,
    /// The name of an argument.
    Argument {
        call: Braces<'a>,
    },
    /// The default of an argument.
    Default {
        call: Braces<'a>,
    },
    /// The target of a call of two braces.
    Target {
        call: Braces<'a>,
        at_start: bool,
    },
    /// The target of a function, which has its part 0 after so many bytes.
    First {
        choosing: Choosing<'a>,
        part_0: u32,
    },
    /// A later part of a function that is told.
    Told {
        choosing: Choosing<'a>,
    },
    /// The part that a function gives.
    Given {
        call: Braces<'a>,
        at_start: bool,
    },
    /// The name of a value that ends at a place.
    Name {
        pending: PendingCall<'a>,
        end: u32,
    },
    /// A value, with its name where it has one.
    Value {
        pending: PendingCall<'a>,
        name: Option<String>,
    },
    /// What comes after the target of a call that is text.
    Text {
        call: Braces<'a>,
    },
}

/// A stretch of a text that is being read, up to a place.
#[derive(Drop)]
pub struct Level<'a> {
    pub end: u32,
    /// What it has given.
    pub out: List<Piece<'a>>,
    pub task: Task<'a>,
}

/// Levels, each but the first within the one before. The first one is the text, and is always there.
pub struct Levels<'a> {
    /// Where the text ends.
    text_end: u32,
    /// What the text has given.
    text_out: List<Piece<'a>>,
    later: Vec<Level<'a>>,
}

// One call wherever levels are let go, in place of one for each of their fields.
impl Drop for Levels<'_> {
    fn drop(self) {
        let Levels {
            text_end: _,
            text_out: _,
            later: _,
        } = self;
    }
}

impl<'a> Levels<'a> {
    /// A text, or a stretch of one, up to a place, of which nothing is read.
    pub fn new(alloc: Global, end: u32) -> Levels<'a>
        ensures { stack result ≡ whole_level end ∷ [] }
    {
        Levels {
            text_end: end,
            text_out: List::new(alloc),
            later: Vec::new(alloc),
        }
    }

    #[tactic(auto, using(crate::proofs::StackLaws::pushed))]
    pub fn push(&mut self, level: Level<'a>) -> Result<(), NoMemory>
        ensures { OnOk result (stack self.new ≡ level.entry ∷ stack self.old) }
    {
        self.later.push(level)?;
        Ok(())
    }

    /// The innermost level, which is taken unless it is the first.
    #[tactic(auto, using(crate::proofs::StackLaws::pushed))]
    pub fn pop(&mut self) -> Option<Level<'a>>
        ensures { TakesLevel result (stack self.old) (stack self.new) }
    {
        self.later.pop()
    }

    /// What the first level has given, where no other is left.
    pub fn finish(&mut self, alloc: Global) -> List<Piece<'a>>
        ensures { (l : OfText) → stack self.old ≡ l ∷ [] → result ≡ l.out }
    {
        std::mem::replace(&mut self.text_out, List::new(alloc))
    }

    /// Where the innermost level ends.
    pub fn end(&self) -> u32
        ensures { innermost_end (stack self.now) ≡ Some result }
    {
        let count = self.later.len();
        if count == 0 {
            return self.text_end;
        }
        self.later[count - 1].end
    }

    /// The innermost level gives these pieces, too.
    pub fn give(&mut self, pieces: &[Piece<'a>]) -> Result<(), NoMemory>
        ensures { OnOk result (stack self.new ≡ with_given pieces.now (stack self.old)) }
    {
        let count = self.later.len();
        if count == 0 {
            return self.text_out.extend_from_slice(pieces);
        }
        self.later[count - 1].out.extend_from_slice(pieces)
    }

    /// The innermost level gives this piece, too.
    pub fn give_one(&mut self, piece: Piece<'a>) -> Result<(), NoMemory>
        ensures { OnOk result (stack self.new ≡ with_given (piece.entry ∷ []) (stack self.old)) }
    {
        let count = self.later.len();
        if count == 0 {
            return self.text_out.push(piece);
        }
        self.later[count - 1].out.push(piece)
    }

    /// The same of a piece that is there or not.
    pub fn give_some(&mut self, piece: Option<Piece<'a>>) -> Result<(), NoMemory>
        ensures { OnOk result (stack self.new ≡ with_given (one_or_none piece.entry) (stack self.old)) }
    {
        match piece {
            Some(piece) => self.give_one(piece),
            None => Ok(()),
        }
    }
}
