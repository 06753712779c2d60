//! Texts within texts: the templates that are being expanded.
ghost use Rattle.std.specs.Prelude.{◌≡◌, ◌<◌, ◌≤◌, ◌+◌, ◌∷◌, [], List, ℕ, Bool, None, Some, IfOk, OnOk, reverse};
ghost use Rattle.wt_span.specs.declared.form.Mode.{Mode as TextMode};
ghost use Rattle.wt_span.specs.declared.form.Mode.TheVariants as text_mode;
ghost use Rattle.wt_span.specs.Braces.{Member as TextMember};
ghost use Rattle.wt_names.specs.Namespace.{full_name_of};
ghost use Rattle.wt_braces.specs.PartMembers.{part_members};
ghost use Rattle.wt_expand.specs.Expansion.{Frame, Output as Gives, Reading, template_output, text_given};
ghost use Rattle.wt_expand.specs.Work.{Pages};
ghost use Rattle.wt_transclusion.specs.Answers.{IsCounted};
ghost use Rattle.wt_transclusion.specs.Asked.{Asks};
ghost use Rattle.wt_values.specs.Frames.{AreValues};
ghost use Rattle.wt_transclusion.specs.Reads.{IsRead};
ghost use Rattle.wt_transclusion.specs.Steps.{IsStretchOf, given_from};
ghost use Rattle.wt_transclusion.specs.Stores.{IsStore, Concerns, Grows};
ghost use Rattle.wt_template_stack.specs.Accounts.{undone};
ghost use Rattle.wt_template_stack.specs.Calls.{IsCallOf, first_end};
ghost use Rattle.wt_template_stack.specs.Ledgers.{AnswersAdvance, AnswersOutput, Ledger, Progress, TakesStep, ledger, reading_of};
ghost use Rattle.wt_template_stack.specs.Measures.{GetsOn, steps_left};
ghost use Rattle.wt_template_stack.specs.Names.{TakesName};
ghost use Rattle.wt_template_stack.specs.Readers.{IsReading};
ghost use Rattle.wt_template_stack.specs.Runs.{Holds, page_called};
ghost use Rattle.wt_template_stack.specs.Stacks.{stack};

use crate::level::PendingCall;
use crate::reader::Reader;
use crate::run::{StepOutcome, TextRun};
use bumpalo::Bump;
use std::alloc::Global;
use std::marker::Model;
use wt_devices::Folder;
use wt_names::{Title, full_name};
use wt_span::{List, Mode, NoMemory, Piece, Str};
use wt_transclusion::{Braces, ExpandRefusal, Nesting, PageLookup, ReadText, Store, charge, take};
use wt_values::Values;

/// The full names of the pages that are being expanded. Contracts see them from the innermost on.
#[derive(Drop)]
pub struct OpenPages {
    items: Vec<Str>,
}

impl Model for OpenPages {
    ghost use Rattle.std.specs.Prelude.{ℕ, List, reverse};

    ghost Value = { List (List ℕ) };

    ghost view = { λ r. reverse r.items.items };
}

impl OpenPages {
    fn new(alloc: Global) -> OpenPages
        ensures { result ≡ [] }
    {
        OpenPages {
            items: Vec::new(alloc),
        }
    }

    fn as_slice(&self) -> &[Str]
        ensures { reverse result.now ≡ self.now }
    {
        self.items.as_slice()
    }

    #[tactic(auto, using(wt_braces::proofs::Ends::reverse_push))]
    fn push(&mut self, name: Str) -> Result<(), NoMemory>
        ensures { OnOk result (self.new ≡ name ∷ self.old) }
    {
        self.items.push(name)?;
        Ok(())
    }

    #[tactic(auto, using(wt_braces::proofs::Ends::reverse_push))]
    fn pop(&mut self) -> Option<Str>
        ensures { TakesName result self.old self.new }
    {
        self.items.pop()
    }
}

/// The text of a page that is entered, of which nothing is read. The page is the innermost of those that
/// are being expanded.
fn entered<'a>(
    alloc: Global,
    names: &mut OpenPages,
    title: &Title,
    text: ReadText<'a>,
) -> Result<TextRun<'a>, NoMemory>
    ensures names { OnOk result (names.new ≡ full_name_of title.now ∷ names.old) }
    ensures run { IfOk result (λ run. (r : Reading) (t : List ℕ) (spent : ℕ) → text_mode.Template ≡ r.mode
        → IsRead r.mode t text.entry → Holds r t run (stack run.levels) (undone spent (text_given r t))) }
{
    names.push(full_name(alloc, title)?)?;
    Ok(TextRun::of_text(alloc, text, Mode::Template))
}

/// What a text is read by.
#[derive(Clone, Copy)]
pub struct Scope<'v, 'a> {
    pub mode: Mode,
    /// The values of its arguments.
    pub values: &'v Values<'a>,
    /// How many more pages may be expanded within it.
    pub left: u32,
}

/// A call of a page whose target is read.
#[derive(Drop)]
pub struct PageCall<'a> {
    pub call: Braces<'a>,
    /// Whether the call is at the start of a line.
    pub at_start: bool,
    /// What its target names.
    pub title: Title,
}

/// An expansion: the pages that were fetched, what was spent, and the pages that are being expanded.
#[derive(Drop)]
pub struct Expansion<'a> {
    alloc: Global,
    arena: &'a Bump<Global>,
    /// The pages that were fetched.
    pub store: Store<'a>,
    /// What the expansion has cost so far.
    pub spent: u64,
    /// The pages that are being expanded.
    pub names: OpenPages,
}

impl<'a> Expansion<'a> {
    /// Nothing is fetched, and nothing spent.
    pub fn new(alloc: Global, arena: &'a Bump<Global>) -> Expansion<'a>
        ensures store { (pages : Pages) → IsStore pages [] result.store }
        ensures spent { result.spent ≡ 0 }
        ensures names { result.names ≡ [] }
    {
        Expansion {
            alloc,
            arena,
            store: Store::new(alloc),
            spent: 0,
            names: OpenPages::new(alloc),
        }
    }

    /// What is left of a text gives, where so many more pages may be expanded. Its calls within calls
    /// are levels, so it calls itself only for a page within a page.
    #[cycle(expanding)]
    fn finish<F: Folder>(
        &mut self,
        folder: &mut F,
        run: TextRun<'a>,
        values: &Values<'a>,
        left: u32,
    ) -> Result<List<Piece<'a>>, ExpandRefusal>
        ensures given { (pages : Pages) (page t : List ℕ) (mode : TextMode) (frame : Frame) (before : Ledger) (all : Gives)
            → Concerns (F.pages folder.old) pages self.new.store result → AreValues values.now frame
            → Progress pages page (reading_of pages mode frame left self.old.names) t before all run.entry self.old.store self.old.spent
            (F.answered folder.old) → AnswersOutput pages page before all self.new.store self.new.spent (F.answered folder.new) result }
        ensures grown { OnOk result (Grows (F.pages folder.old) self.old.store self.new.store) }
        ensures kept { F.pages folder.new ≡ F.pages folder.old }
        ensures asks { Asks (F.answered folder.old) (F.answered folder.new) (F.most_asked folder.old) (F.most_asked folder.new) }
        ensures count { IsCounted (F.fault_count folder.old) (F.fault_count folder.new) result }
        ensures names { OnOk result (self.new.names ≡ self.old.names) }
    {
        let mut run = run;
        'steps: loop {
            let turn = run.step(values, &mut self.spent)?;
            if let Some(pieces) = self.advance(folder, &mut run, turn, left)? {
                return Ok(pieces);
            }
        }
    }

    /// What came of a step is done: the page that is called is expanded, or the text has given these
    /// pieces.
    #[cycle(expanding)]
    fn advance<F: Folder>(
        &mut self,
        folder: &mut F,
        run: &mut TextRun<'a>,
        turn: StepOutcome<'a>,
        left: u32,
    ) -> Result<Option<List<Piece<'a>>>, ExpandRefusal>
        ensures given { (pages : Pages) (page t : List ℕ) (mode : TextMode) (frame : Frame) (before : Ledger) (all : Gives)
            → Concerns (F.pages folder.old) pages self.new.store result
            → TakesStep pages page (reading_of pages mode frame left self.old.names) t before all run.old self.old.store self.old.spent
            (F.answered folder.old) turn.entry → AnswersAdvance pages page
            (reading_of pages mode frame left self.old.names) t before all run.new self.new.store self.new.spent (F.answered folder.new) result }
        ensures grown { OnOk result (Grows (F.pages folder.old) self.old.store self.new.store) }
        ensures kept { F.pages folder.new ≡ F.pages folder.old }
        ensures asks { Asks (F.answered folder.old) (F.answered folder.new) (F.most_asked folder.old) (F.most_asked folder.new) }
        ensures count { IsCounted (F.fault_count folder.old) (F.fault_count folder.new) result }
        ensures names { OnOk result (self.new.names ≡ self.old.names) }
        ensures gets_on { IfOk result (λ x. (before : ℕ) → GetsOn before (steps_left run.old) turn.entry → x ≡ None → steps_left run.new < before) }
    {
        match turn {
            StepOutcome::Went => Ok(None),
            StepOutcome::Done(pieces) => Ok(Some(pieces)),
            StepOutcome::Called(pending) => {
                let given = self.page(folder, &pending, left)?;
                run.give_page(pending.call, pending.at_start, given, &mut self.spent)?;
                Ok(None)
            }
        }
    }

    /// What a call of a page gives, with its values.
    #[cycle(expanding)]
    fn page<F: Folder>(
        &mut self,
        folder: &mut F,
        pending: &PendingCall<'a>,
        left: u32,
    ) -> Result<List<Piece<'a>>, ExpandRefusal>
        ensures given { (pages : Pages) (page : List ℕ) (frame : Frame) (met : List (List ℕ))
            → Concerns (F.pages folder.old) pages self.new.store result → IsStore pages met self.old.store → AreValues pending.now.handed.values frame
            → AnswersOutput pages page (ledger self.old.spent met (F.answered folder.old))
            (template_output pages left self.old.names pending.now.title frame) self.new.store self.new.spent (F.answered folder.new) result }
        ensures grown { OnOk result (Grows (F.pages folder.old) self.old.store self.new.store) }
        ensures kept { F.pages folder.new ≡ F.pages folder.old }
        ensures asks { Asks (F.answered folder.old) (F.answered folder.new) (F.most_asked folder.old) (F.most_asked folder.new) }
        ensures count { IsCounted (F.fault_count folder.old) (F.fault_count folder.new) result }
        ensures names { OnOk result (self.new.names ≡ self.old.names) }
    {
        let names = self.names.as_slice();
        let nesting = Nesting { names, left };
        match take(
            self.alloc,
            self.arena,
            &mut self.store,
            folder,
            nesting,
            &pending.title,
        )? {
            PageLookup::Message(pieces) => Ok(pieces),
            PageLookup::Link(pieces) => Ok(pieces),
            PageLookup::Page(read) => {
                let less = left - 1;
                let run = entered(self.alloc, &mut self.names, &pending.title, read)?;
                let given = self.finish(folder, run, &pending.handed.values, less)?;
                self.names.pop();
                Ok(given)
            }
        }
    }

    /// What a stretch of a text gives, up to a place. The reader is where it begins.
    ///
    /// # Errors
    ///
    /// The first refusal in the order of the work; a fault of the folder; want of memory.
    pub fn stretch<F: Folder>(
        &mut self,
        folder: &mut F,
        reader: Reader<'a>,
        end: u32,
        scope: Scope<'_, 'a>,
    ) -> Result<List<Piece<'a>>, ExpandRefusal>
        ensures given { (pages : Pages) (page t : List ℕ) (frame : Frame) (met : List (List ℕ)) (p : ℕ) (s : Bool) (xs : List TextMember)
            → Concerns (F.pages folder.old) pages self.new.store result → IsStore pages met self.old.store
            → AreValues scope.entry.values.now frame
            → IsReading scope.entry.mode t reader.entry p s
            → IsStretchOf scope.entry.mode t p end xs
            → AnswersOutput pages page (ledger self.old.spent met (F.answered folder.old))
            (given_from (reading_of pages scope.entry.mode frame scope.entry.left self.old.names) s t p xs)
            self.new.store self.new.spent (F.answered folder.new) result }
        ensures grown { OnOk result (Grows (F.pages folder.old) self.old.store self.new.store) }
        ensures kept { F.pages folder.new ≡ F.pages folder.old }
        ensures asks { Asks (F.answered folder.old) (F.answered folder.new) (F.most_asked folder.old) (F.most_asked folder.new) }
        ensures count { IsCounted (F.fault_count folder.old) (F.fault_count folder.new) result }
        ensures names { OnOk result (self.new.names ≡ self.old.names) }
    {
        let run = TextRun::new(self.alloc, reader, end, scope.mode);
        self.finish(folder, run, scope.values, scope.left)
    }

    /// What a whole text gives.
    ///
    /// # Errors
    ///
    /// As of a stretch.
    pub fn text<F: Folder>(
        &mut self,
        folder: &mut F,
        text: ReadText<'a>,
        scope: Scope<'_, 'a>,
    ) -> Result<List<Piece<'a>>, ExpandRefusal>
        ensures given { (pages : Pages) (page t : List ℕ) (frame : Frame) (met : List (List ℕ))
            → Concerns (F.pages folder.old) pages self.new.store result → IsStore pages met self.old.store
            → AreValues scope.entry.values.now frame
            → IsRead scope.entry.mode t text.entry
            → AnswersOutput pages page (ledger self.old.spent met (F.answered folder.old))
            (text_given (reading_of pages scope.entry.mode frame scope.entry.left self.old.names) t)
            self.new.store self.new.spent (F.answered folder.new) result }
        ensures grown { OnOk result (Grows (F.pages folder.old) self.old.store self.new.store) }
        ensures kept { F.pages folder.new ≡ F.pages folder.old }
        ensures asks { Asks (F.answered folder.old) (F.answered folder.new) (F.most_asked folder.old) (F.most_asked folder.new) }
        ensures count { IsCounted (F.fault_count folder.old) (F.fault_count folder.new) result }
        ensures names { OnOk result (self.new.names ≡ self.old.names) }
    {
        let run = TextRun::of_text(self.alloc, text, scope.mode);
        self.finish(folder, run, scope.values, scope.left)
    }

    /// What a call of a page gives. The reader comes after its target or in front of it.
    ///
    /// # Errors
    ///
    /// As of a stretch.
    pub fn call_page<F: Folder>(
        &mut self,
        folder: &mut F,
        reader: Reader<'a>,
        called: PageCall<'a>,
        scope: Scope<'_, 'a>,
    ) -> Result<List<Piece<'a>>, ExpandRefusal>
        ensures given { (pages : Pages) (page t : List ℕ) (frame : Frame) (met : List (List ℕ)) (p : ℕ) (s : Bool)
            (c : IsCallOf scope.entry.mode t called.entry.call)
            → Concerns (F.pages folder.old) pages self.new.store result → IsStore pages met self.old.store
            → AreValues scope.entry.values.now frame
            → IsReading scope.entry.mode t reader.entry p s
            → p ≤ first_end (c.at + c.braces) (part_members 0 c.inside)
            → AnswersOutput pages page (ledger self.old.spent met (F.answered folder.old))
            (page_called (reading_of pages scope.entry.mode frame scope.entry.left self.old.names) t
            called.entry.call c called.entry.at_start called.entry.title)
            self.new.store self.new.spent (F.answered folder.new) result }
        ensures grown { OnOk result (Grows (F.pages folder.old) self.old.store self.new.store) }
        ensures kept { F.pages folder.new ≡ F.pages folder.old }
        ensures asks { Asks (F.answered folder.old) (F.answered folder.new) (F.most_asked folder.old) (F.most_asked folder.new) }
        ensures count { IsCounted (F.fault_count folder.old) (F.fault_count folder.new) result }
        ensures names { OnOk result (self.new.names ≡ self.old.names) }
    {
        let PageCall {
            call,
            at_start,
            title,
        } = called;
        charge(&mut self.spent, 1)?;
        let mut run = TextRun::new(self.alloc, reader, call.at.end, scope.mode);
        let pending = PendingCall::new(self.alloc, call, at_start, title);
        let turn = run.next_part(pending)?;
        if let Some(pieces) = self.advance(folder, &mut run, turn, scope.left)? {
            return Ok(pieces);
        }
        self.finish(folder, run, scope.values, scope.left)
    }
}
