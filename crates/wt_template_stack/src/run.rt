//! One text as it is expanded, with levels in place of calls within calls.
ghost use Rattle.std.specs.Prelude.{◌≡◌, ◌+◌, ◌^◌, ◌<◌, ◌≤◌, ◌∷◌, ◌++◌, [], ℕ, List, Option, Some, None, Bool, true, false, IfErr, IfOk, OnOk, drop, length, slice_get, slice_range};
ghost use Rattle.wt_span.specs.Items.{items, items_of};
ghost use Rattle.wt_span.specs.Slice.{bytes_of};
ghost use Rattle.wt_span.specs.Functions.{function_of};
ghost use Rattle.wt_expand.specs.Targets.{is_function, title_of_target};
ghost use Rattle.wt_transclusion.specs.Cursors.{starts};
ghost use Rattle.wt_expand.specs.Expansion.{Frame, Output as Gives, Reading, just, text_given, values_from};
ghost use Rattle.wt_transclusion.specs.Answers.{IsNoFault};
ghost use Rattle.wt_values.specs.Frames.{AreValues};
ghost use Rattle.wt_transclusion.specs.Reads.{IsRead};
ghost use Rattle.wt_template_stack.specs.Accounts.{Account, spent_of, undone};
ghost use Rattle.wt_template_stack.specs.Levels.{IsNamedBy, Resumes};
ghost use Rattle.wt_template_stack.specs.Stacks.{innermost_end, stack, whole_level};
ghost use Rattle.wt_template_stack.specs.Rests.{after_page, ended_with, next_number};
ghost use Rattle.wt_template_stack.specs.Measures.{BeginsLater, GetsOn, bytes_left, steps_behind, steps_left};
ghost use Rattle.wt_template_stack.specs.Runs.{AnswersGoing, AnswersTurn, BeginsCall, BeginsLevel, GivesAgain, HandsParts, HasEnded, Holds, IsRunning, Returns, TakesChunk, TakesPart};
ghost use Rattle.wt_template_stack.specs.declared.level.Task.TheVariants as tasks;

use crate::choosing::{Choosing, given_start, is_whole, part_at, tell, told_end};
use crate::level::{Level, Levels, PendingCall, Task};
use crate::reader::Reader;
use std::alloc::Global;
use wt_braces::PartAt;
use wt_functions::{Ask, function_named};
use wt_span::{ItemForm, LexKind, List, Mode, NoMemory, Piece, Text};
use wt_transclusion::{
    Braces, ExpandRefusal, Handed, Next, ReadText, behind_items, byte_count, charge, is_function,
    lexeme_piece, name_text, piece_of, spelled, title_of_target, trimmed_items, with_break,
};
use wt_values::Values;

/// What came of a step.
#[derive(Drop)]
pub enum StepOutcome<'a> {
    Went,
    /// The text has given this.
    Done(List<Piece<'a>>),
    /// A page is called with its values.
    Called(PendingCall<'a>),
}

/// A text that is expanded.
#[derive(Drop)]
pub struct TextRun<'a> {
    alloc: Global,
    reader: Reader<'a>,
    mode: Mode,
    levels: Levels<'a>,
}

/// One more value, with its name or the next number.
fn put_value<'a>(
    alloc: Global,
    handed: &mut Handed<'a>,
    name: Option<String>,
    value: List<Piece<'a>>,
) -> Result<(), NoMemory>
    ensures values { OnOk result ((frame : Frame) (named : Option Gives) (given : Gives) → AreValues handed.old.values frame → IsNamedBy name named
        → items value.entry ≡ given.items → AreValues handed.new.values
        (frame ++ values_from handed.old.number (record { name = named; value = given; all = given } ∷ []))) }
    ensures number { OnOk result ((named : Option Gives) → IsNamedBy name named → handed.old.number + 1 < 2 ^ 64
        → handed.new.number ≡ next_number handed.old.number named) }
{
    match name {
        Some(name) => handed.put_named(alloc, name, value.as_slice()),
        None => handed.put_numbered(alloc, value),
    }
}

/// Appends a piece.
fn push_piece<'a>(out: &mut List<Piece<'a>>, piece: Piece<'a>) -> Result<(), NoMemory>
    ensures { OnOk result (items out.new ≡ items out.old ++ items_of piece.entry) }
{
    out.push(piece)
}

/// Appends pieces.
fn push_all<'a>(out: &mut List<Piece<'a>>, pieces: &[Piece<'a>]) -> Result<(), NoMemory>
    ensures { OnOk result (items out.new ≡ items out.old ++ items pieces.now) }
{
    out.extend_from_slice(pieces)
}

impl<'a> TextRun<'a> {
    /// A stretch of a text, up to a place, of which nothing is read. The reader is where it begins.
    pub fn new(alloc: Global, reader: Reader<'a>, end: u32, mode: Mode) -> TextRun<'a>
        ensures levels { stack result.levels ≡ whole_level end ∷ [] }
        ensures reader { result.reader ≡ reader.entry }
        ensures mode { result.mode ≡ mode }
    {
        TextRun {
            alloc,
            reader,
            mode,
            levels: Levels::new(alloc, end),
        }
    }

    /// A text of which nothing is read.
    pub fn of_text(alloc: Global, text: ReadText<'a>, mode: Mode) -> TextRun<'a>
        ensures { (r : Reading) (t : List ℕ) (spent : ℕ) → mode ≡ r.mode → IsRead r.mode t text.entry
            → Holds r t result (stack result.levels) (undone spent (text_given r t)) }
    {
        let end = text.text.len() as u32;
        TextRun::new(alloc, Reader::start(text), end, mode)
    }

    /// One step. It goes on reading, or ends a level.
    pub fn step(
        &mut self,
        values: &Values<'a>,
        spent: &mut u64,
    ) -> Result<StepOutcome<'a>, ExpandRefusal>
        ensures answer { (r : Reading) (t : List ℕ) (total : Account) → Holds r t self.old (stack self.old.levels) total → AreValues values.now r.frame
            → spent.old ≡ spent_of total → AnswersTurn r t spent.old total self.new spent.new result }
        ensures fault { IfErr result IsNoFault }
        ensures gets_on { IfOk result (GetsOn (steps_left self.old) (steps_left self.new)) }
    {
        let end = self.levels.end();
        if self.reader.is_before(end) {
            self.read(end, spent)?;
            return Ok(StepOutcome::Went);
        }
        let Some(level) = self.levels.pop() else {
            return Ok(StepOutcome::Done(self.levels.finish(self.alloc)));
        };
        let Level { end: _, out, task } = level;
        self.end(task, out, values, spent)
    }

    /// What is next in the innermost level, which ends at a place.
    fn read(&mut self, end: u32, spent: &mut u64) -> Result<(), ExpandRefusal>
        requires before { self.old.reader.cursor.at < end }
        requires some { 0 < bytes_left self.old.reader }
        ensures answer { (r : Reading) (t : List ℕ) (total : Account) → Holds r t self.old (stack self.old.levels) total
            → innermost_end (stack self.old.levels) ≡ Some end → AnswersGoing r t spent.old total self.new spent.new result }
        ensures fault { IfErr result IsNoFault }
        ensures gets_on { OnOk result (steps_left self.new < steps_left self.old) }
    {
        match self.reader.next(end) {
            Next::Chunk { kind, to } => {
                self.read_chunk(kind, to)?;
                Ok(())
            }
            Next::Call(call) => self.begin(call, spent),
        }
    }

    /// Bytes of a lexeme, up to a place.
    fn read_chunk(&mut self, kind: LexKind, to: u32) -> Result<(), NoMemory>
        requires { 0 < bytes_left self.old.reader }
        ensures answer { OnOk result ((r : Reading) (t : List ℕ) (total : Account) → TakesChunk r t self.old (stack self.old.levels) kind to total
            → Holds r t self.new (stack self.new.levels) total) }
        ensures gets_on { OnOk result (steps_left self.new < steps_left self.old) }
    {
        let text = self.reader.slice(self.reader.cursor.at, to);
        self.levels.give_some(lexeme_piece(self.mode, kind, text))?;
        self.resume(to);
        Ok(())
    }

    /// The innermost level is read on from a place.
    fn resume(&mut self, to: u32)
        ensures answer { (r : Reading) (t : List ℕ) (total : Account) (p : ℕ) (s : Bool) → IsRunning r t self.old p s → p < to
            → Resumes r t to (starts t to) (just []) (stack self.old.levels) total → Holds r t self.new (stack self.new.levels) total }
        ensures gets_on { steps_left self.new ≤ steps_left self.old }
        ensures later { 0 < bytes_left self.old.reader → steps_left self.new < steps_left self.old }
    {
        self.reader = self.reader.seek(to);
    }

    /// A call that is next in a level.
    fn begin(&mut self, call: Braces<'a>, spent: &mut u64) -> Result<(), ExpandRefusal>
        requires { 0 < bytes_left self.old.reader }
        ensures answer { (r : Reading) (t : List ℕ) (total : Account) → BeginsCall r t self.old (stack self.old.levels) call.entry total
            → AnswersGoing r t spent.old total self.new spent.new result }
        ensures fault { IfErr result IsNoFault }
        ensures gets_on { OnOk result (steps_left self.new < steps_left self.old) }
    {
        if call.argument {
            return self.begin_argument(call, spent);
        }
        let source = self.reader.slice(call.at.start, call.at.end);
        if is_function(source.as_str().as_bytes()) {
            return self.begin_function(call, source, spent);
        }
        self.begin_target(call)?;
        Ok(())
    }

    /// A function begins: one by text, or another, which stands for itself.
    fn begin_function(
        &mut self,
        call: Braces<'a>,
        source: Text<'a>,
        spent: &mut u64,
    ) -> Result<(), ExpandRefusal>
        requires { 0 < bytes_left self.old.reader }
        ensures answer { (r : Reading) (t : List ℕ) (total : Account) → BeginsCall r t self.old (stack self.old.levels) call.entry total
            → call.entry.argument ≡ false → bytes_of source.entry ≡ slice_range t call.entry.at.start call.entry.at.end
            → is_function (bytes_of source.entry) ≡ true → AnswersGoing r t spent.old total self.new spent.new result }
        ensures fault { IfErr result IsNoFault }
        ensures gets_on { OnOk result (steps_left self.new < steps_left self.old) }
    {
        let Some((function, part_0)) = function_named(source.as_str().as_bytes()) else {
            self.push_function(call, source)?;
            return Ok(());
        };
        charge(spent, 1)?;
        let choosing = Choosing::start(self.alloc, call, function, self.reader, *spent)?;
        let target = call.first_part();
        self.begin_within(target, Task::First { choosing, part_0 })?;
        Ok(())
    }

    /// A function stands for itself.
    fn push_function(&mut self, call: Braces<'a>, source: Text<'a>) -> Result<(), NoMemory>
        requires { 0 < bytes_left self.old.reader }
        ensures answer { OnOk result ((r : Reading) (t : List ℕ) (total : Account) → BeginsCall r t self.old (stack self.old.levels) call.entry total
            → call.entry.argument ≡ false → bytes_of source.entry ≡ slice_range t call.entry.at.start call.entry.at.end
            → is_function (bytes_of source.entry) ≡ true → function_of (drop 2 (bytes_of source.entry)) ≡ None
            → Holds r t self.new (stack self.new.levels) total) }
        ensures gets_on { OnOk result (steps_left self.new < steps_left self.old) }
    {
        self.levels.give_one(piece_of(source, ItemForm::Function))?;
        self.resume(call.at.end);
        Ok(())
    }

    /// An argument begins, and its name is read.
    fn begin_argument(&mut self, call: Braces<'a>, spent: &mut u64) -> Result<(), ExpandRefusal>
        requires { 0 < bytes_left self.old.reader }
        ensures answer { (r : Reading) (t : List ℕ) (total : Account) → BeginsCall r t self.old (stack self.old.levels) call.entry total
            → call.entry.argument ≡ true → AnswersGoing r t spent.old total self.new spent.new result }
        ensures fault { IfErr result IsNoFault }
        ensures gets_on { OnOk result (steps_left self.new < steps_left self.old) }
    {
        charge(spent, 1)?;
        let name = call.first_part();
        self.begin_within(name, Task::Argument { call })?;
        Ok(())
    }

    /// The target of a call of two braces is read.
    fn begin_target(&mut self, call: Braces<'a>) -> Result<(), NoMemory>
        requires { 0 < bytes_left self.old.reader }
        ensures answer { OnOk result ((r : Reading) (t : List ℕ) (total : Account) → BeginsCall r t self.old (stack self.old.levels) call.entry total
            → call.entry.argument ≡ false → is_function (slice_range t call.entry.at.start call.entry.at.end) ≡ false
            → Holds r t self.new (stack self.new.levels) total) }
        ensures gets_on { OnOk result (steps_left self.new < steps_left self.old) }
    {
        let at_start = self.reader.cursor.at_start;
        let target = call.first_part();
        self.begin_within(target, Task::Target { call, at_start })?;
        Ok(())
    }

    /// A part is read that begins after braces.
    fn begin_within(&mut self, part: PartAt, task: Task<'a>) -> Result<(), NoMemory>
        requires { 0 < bytes_left self.old.reader }
        ensures answer { OnOk result ((r : Reading) (t : List ℕ) (total : Account) → BeginsLevel r t self.old part.at.start false part.at.end task.entry total
            → Holds r t self.new (stack self.new.levels) total) }
        ensures gets_on { OnOk result (BeginsLater self.old self.new task.entry) }
    {
        self.reader = self.reader.within(part.at.start);
        self.levels.push(Level {
            end: part.at.end,
            out: List::new(self.alloc),
            task,
        })?;
        Ok(())
    }

    /// What is between two places is read. Where the text is at its end there is nothing.
    fn begin_level(&mut self, at: u32, end: u32, task: Task<'a>) -> Result<(), NoMemory>
        ensures answer { OnOk result ((r : Reading) (t : List ℕ) (total : Account) → BeginsLevel r t self.old at (starts t at) end task.entry total
            → Holds r t self.new (stack self.new.levels) total) }
        ensures gets_on { OnOk result (BeginsLater self.old self.new task.entry) }
    {
        if self.reader.is_done() {
            return Ok(());
        }
        self.reader = self.reader.seek(at);
        self.levels.push(Level {
            end,
            out: List::new(self.alloc),
            task,
        })?;
        Ok(())
    }

    /// A level ends that has given these pieces.
    fn end(
        &mut self,
        task: Task<'a>,
        out: List<Piece<'a>>,
        values: &Values<'a>,
        spent: &mut u64,
    ) -> Result<StepOutcome<'a>, ExpandRefusal>
        ensures answer { (r : Reading) (t : List ℕ) (total : Account) → HasEnded r t self.old task.entry out.entry total → AreValues values.now r.frame
            → spent.old ≡ spent_of total → AnswersTurn r t spent.old total self.new spent.new result }
        ensures fault { IfErr result IsNoFault }
        ensures gets_on { IfOk result (λ k. steps_left self.new < steps_behind task.entry + steps_left self.old) }
    {
        match task {
            Task::Whole => Ok(StepOutcome::Done(out)),
            Task::Argument { call } => {
                self.end_argument(call, out, values, spent)?;
                Ok(StepOutcome::Went)
            }
            Task::Default { call } => {
                self.give(call.at.end, out.as_slice(), spent)?;
                Ok(StepOutcome::Went)
            }
            Task::Target { call, at_start } => self.end_target(call, at_start, out, spent),
            Task::First { choosing, part_0 } => {
                let out = behind_items(self.alloc, out.as_slice(), part_0)?;
                self.end_told(choosing, out, spent)?;
                Ok(StepOutcome::Went)
            }
            Task::Told { choosing } => {
                self.end_told(choosing, out, spent)?;
                Ok(StepOutcome::Went)
            }
            Task::Given { call, at_start } => {
                self.end_given(call, at_start, out, spent)?;
                Ok(StepOutcome::Went)
            }
            Task::Name { pending, end } => {
                self.end_name(pending, end, out)?;
                Ok(StepOutcome::Went)
            }
            Task::Value { pending, name } => {
                let turn = self.end_value(pending, name, out)?;
                Ok(turn)
            }
            Task::Text { call } => {
                self.end_text(call, out)?;
                Ok(StepOutcome::Went)
            }
        }
    }

    /// Gives pieces to the level round a call that ends at a place.
    fn give_free(&mut self, to: u32, out: &[Piece<'a>]) -> Result<(), NoMemory>
        ensures answer { OnOk result ((r : Reading) (t : List ℕ) (total : Account) → Returns r t self.old to (just (items out.now)) total
            → Holds r t self.new (stack self.new.levels) total) }
        ensures gets_on { OnOk result (steps_left self.new ≤ steps_left self.old) }
    {
        self.levels.give(out)?;
        self.resume(to);
        Ok(())
    }

    /// A call or argument ends that gives these pieces.
    fn give(&mut self, to: u32, out: &[Piece<'a>], spent: &mut u64) -> Result<(), ExpandRefusal>
        ensures answer { (r : Reading) (t : List ℕ) (total : Account) → Returns r t self.old to (ended_with (just (items out.now))) total
            → AnswersGoing r t spent.old total self.new spent.new result }
        ensures fault { IfErr result IsNoFault }
        ensures gets_on { OnOk result (steps_left self.new ≤ steps_left self.old) }
    {
        charge(spent, byte_count(out))?;
        self.give_free(to, out)?;
        Ok(())
    }

    /// The name of an argument is read: its value, its default or its own spelling.
    fn end_argument(
        &mut self,
        call: Braces<'a>,
        out: List<Piece<'a>>,
        values: &Values<'a>,
        spent: &mut u64,
    ) -> Result<(), ExpandRefusal>
        ensures answer { (r : Reading) (t : List ℕ) (total : Account) → HasEnded r t self.old (tasks.Argument call.entry) out.entry total
            → AreValues values.now r.frame → AnswersGoing r t spent.old total self.new spent.new result }
        ensures fault { IfErr result IsNoFault }
        ensures gets_on { OnOk result (steps_left self.new < 1 + steps_left self.old) }
    {
        let name = name_text(self.alloc, out.as_slice())?;
        if let Some(value) = values.get(name.as_str()) {
            return self.give(call.at.end, value, spent);
        }
        if let Some(part) = call.parts.get(1) {
            self.begin_level(part.at.start, part.at.end, Task::Default { call })?;
            return Ok(());
        }
        let own = spelled(self.alloc, out.as_slice())?;
        self.give(call.at.end, own.as_slice(), spent)
    }

    /// A part of a function is told: the next one is read, or the one that is given.
    fn end_told(
        &mut self,
        choosing: Choosing<'a>,
        out: List<Piece<'a>>,
        spent: &mut u64,
    ) -> Result<(), ExpandRefusal>
        ensures answer { (r : Reading) (t : List ℕ) (total : Account) → HasEnded r t self.old (tasks.Told choosing.entry) out.entry total
            → spent.old ≡ spent_of total → AnswersGoing r t spent.old total self.new spent.new result }
        ensures fault { IfErr result IsNoFault }
        ensures gets_on { OnOk result (steps_left self.new < steps_behind (tasks.Told choosing.entry) + steps_left self.old) }
    {
        let Choosing {
            call,
            at_start,
            function,
            chooser,
            begun,
            number: told,
            spent: before,
        } = choosing;
        let mut chooser = chooser;
        tell(self.alloc, &mut chooser, out.as_slice())?;
        match chooser.ask() {
            Ask::Tell(number) => {
                let part = part_at(call, number);
                let next = Choosing {
                    call,
                    at_start,
                    function,
                    chooser,
                    begun,
                    number,
                    spent: *spent,
                };
                let end = told_end(function, part);
                self.begin_level(part.at.start, end, Task::Told { choosing: next })?;
                Ok(())
            }
            Ask::Give(number) => {
                let part = part_at(call, number);
                if number == told && is_whole(function, part) {
                    return self.give_again(call, at_start, out, before, spent);
                }
                let start = given_start(function, part);
                self.reader = begun;
                self.begin_level(start, part.at.end, Task::Given { call, at_start })?;
                Ok(())
            }
            Ask::Nothing => self.give(call.at.end, &[], spent),
        }
    }

    /// The part that a function gives was told last, and whole: its work is done once more, with no page
    /// to be fetched again, and gives the same. So much had been spent before it was told.
    fn give_again(
        &mut self,
        call: Braces<'a>,
        at_start: bool,
        out: List<Piece<'a>>,
        before: u64,
        spent: &mut u64,
    ) -> Result<(), ExpandRefusal>
        ensures answer { (r : Reading) (t : List ℕ) (total : Account) → GivesAgain r t self.old call.entry at_start before out.entry total
            → spent.old ≡ spent_of total → AnswersGoing r t spent.old total self.new spent.new result }
        ensures fault { IfErr result IsNoFault }
        ensures gets_on { OnOk result (steps_left self.new ≤ steps_left self.old) }
    {
        charge(spent, spent.saturating_sub(before))?;
        self.end_given(call, at_start, out, spent)
    }

    /// The part that a function gives is read.
    fn end_given(
        &mut self,
        call: Braces<'a>,
        at_start: bool,
        out: List<Piece<'a>>,
        spent: &mut u64,
    ) -> Result<(), ExpandRefusal>
        ensures answer { (r : Reading) (t : List ℕ) (total : Account) → HasEnded r t self.old (tasks.Given call.entry at_start) out.entry total
            → AnswersGoing r t spent.old total self.new spent.new result }
        ensures fault { IfErr result IsNoFault }
        ensures gets_on { OnOk result (steps_left self.new ≤ steps_left self.old) }
    {
        let out = trimmed_items(self.alloc, out.as_slice())?;
        let out = with_break(self.alloc, at_start, out)?;
        self.give(call.at.end, out.as_slice(), spent)
    }

    /// The target of a call is read: a page is called, or the call is text.
    fn end_target(
        &mut self,
        call: Braces<'a>,
        at_start: bool,
        out: List<Piece<'a>>,
        spent: &mut u64,
    ) -> Result<StepOutcome<'a>, ExpandRefusal>
        ensures answer { (r : Reading) (t : List ℕ) (total : Account) → HasEnded r t self.old (tasks.Target call.entry at_start) out.entry total
            → AnswersTurn r t spent.old total self.new spent.new result }
        ensures fault { IfErr result IsNoFault }
        ensures gets_on { IfOk result (λ k. steps_left self.new < 2 + steps_left self.old) }
    {
        let Some(title) = title_of_target(self.alloc, out.as_slice())? else {
            self.begin_text(call, out)?;
            return Ok(StepOutcome::Went);
        };
        charge(spent, 1)?;
        let pending = PendingCall::new(self.alloc, call, at_start, title);
        let turn = self.next_part(pending)?;
        Ok(turn)
    }

    /// A call turns out to be text: its braces are characters, and what comes after its target is
    /// read on.
    fn begin_text(&mut self, call: Braces<'a>, out: List<Piece<'a>>) -> Result<(), NoMemory>
        ensures answer { OnOk result ((r : Reading) (t : List ℕ) (total : Account) (s : Bool) → HasEnded r t self.old (tasks.Target call.entry s) out.entry total
            → title_of_target (items out.entry) ≡ None → Holds r t self.new (stack self.new.levels) total) }
        ensures gets_on { OnOk result (steps_left self.new ≡ 1 + steps_left self.old) }
    {
        let target = call.first_part();
        let front = self.reader.slice(call.at.start, target.at.start);
        let braces = target.at.start.saturating_sub(call.at.start);
        let mut all = List::new(self.alloc);
        push_piece(&mut all, piece_of(front, ItemForm::Chars))?;
        push_all(&mut all, out.as_slice())?;
        let end = call.at.end.saturating_sub(braces);
        self.levels.push(Level {
            end,
            out: all,
            task: Task::Text { call },
        })?;
        Ok(())
    }

    /// The last braces of a call that is text.
    fn end_text(&mut self, call: Braces<'a>, out: List<Piece<'a>>) -> Result<(), NoMemory>
        ensures answer { OnOk result ((r : Reading) (t : List ℕ) (total : Account) → HasEnded r t self.old (tasks.Text call.entry) out.entry total
            → Holds r t self.new (stack self.new.levels) total) }
        ensures gets_on { OnOk result (steps_left self.new ≤ steps_left self.old) }
    {
        let back = self.reader.slice(self.reader.cursor.at, call.at.end);
        let mut out = out;
        push_piece(&mut out, piece_of(back, ItemForm::Chars))?;
        self.give_free(call.at.end, out.as_slice())?;
        Ok(())
    }

    /// The next part of a call is read; where none is left, its page is called.
    pub fn next_part(&mut self, pending: PendingCall<'a>) -> Result<StepOutcome<'a>, NoMemory>
        ensures answer { IfOk result (λ k. (r : Reading) (t : List ℕ) (total : Account) → HandsParts r t self.old pending.entry total → TakesPart r t total self.new k) }
        ensures gets_on { IfOk result (λ k. steps_left self.new ≤ steps_left self.old) }
    {
        if pending.part < pending.call.parts.len() {
            let part = pending.call.parts[pending.part];
            self.begin_part(pending, part)?;
            return Ok(StepOutcome::Went);
        }
        Ok(StepOutcome::Called(pending))
    }

    /// A part of a call is read: its name, or its value where it has none.
    fn begin_part(&mut self, pending: PendingCall<'a>, part: PartAt) -> Result<(), NoMemory>
        requires { pending.part < length pending.call.parts.now }
        ensures answer { OnOk result ((r : Reading) (t : List ℕ) (total : Account) → HandsParts r t self.old pending.entry total
            → slice_get pending.entry.call.parts.now pending.entry.part ≡ Some part → Holds r t self.new (stack self.new.levels) total) }
        ensures gets_on { OnOk result (steps_left self.new ≤ steps_left self.old) }
    {
        let mut pending = pending;
        pending.part += 1;
        let end = part.at.end;
        if let Some(equals) = part.equals {
            self.begin_level(part.at.start, equals, Task::Name { pending, end })?;
            return Ok(());
        }
        let name = None;
        self.begin_level(part.at.start, end, Task::Value { pending, name })?;
        Ok(())
    }

    /// The name of a value is read, which ends at a place.
    fn end_name(
        &mut self,
        pending: PendingCall<'a>,
        end: u32,
        out: List<Piece<'a>>,
    ) -> Result<(), NoMemory>
        ensures answer { OnOk result ((r : Reading) (t : List ℕ) (total : Account) → HasEnded r t self.old (tasks.Name pending.entry end) out.entry total
            → Holds r t self.new (stack self.new.levels) total) }
        ensures gets_on { OnOk result (steps_left self.new < 1 + steps_left self.old) }
    {
        let name = Some(name_text(self.alloc, out.as_slice())?);
        let at = self.reader.cursor.at.saturating_add(1);
        self.begin_level(at, end, Task::Value { pending, name })?;
        Ok(())
    }

    /// A value is read.
    fn end_value(
        &mut self,
        pending: PendingCall<'a>,
        name: Option<String>,
        out: List<Piece<'a>>,
    ) -> Result<StepOutcome<'a>, NoMemory>
        ensures answer { IfOk result (λ k. (r : Reading) (t : List ℕ) (total : Account) → HasEnded r t self.old (tasks.Value pending.entry name) out.entry total
            → TakesPart r t total self.new k) }
        ensures gets_on { IfOk result (λ k. steps_left self.new < 1 + steps_left self.old) }
    {
        let mut pending = pending;
        put_value(self.alloc, &mut pending.handed, name, out)?;
        let turn = self.next_part(pending)?;
        Ok(turn)
    }

    /// A page that was called has given these pieces.
    pub fn give_page(
        &mut self,
        call: Braces<'a>,
        at_start: bool,
        given: List<Piece<'a>>,
        spent: &mut u64,
    ) -> Result<(), ExpandRefusal>
        ensures answer { (r : Reading) (t : List ℕ) (total : Account)
            → Returns r t self.old call.entry.at.end (after_page at_start (just (items given.entry))) total
            → AnswersGoing r t spent.old total self.new spent.new result }
        ensures fault { IfErr result IsNoFault }
        ensures gets_on { OnOk result (steps_left self.new ≤ steps_left self.old) }
    {
        let out = with_break(self.alloc, at_start, given)?;
        self.give(call.at.end, out.as_slice(), spent)
    }
}
