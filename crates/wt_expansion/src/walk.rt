//! The walk over the page: its own pieces, its outermost calls and its text calls.
ghost use Rattle.std.specs.Prelude.{◌≡◌, ◌+◌, ◌<◌, ◌∷◌, [], ℕ, List, Bool, None, Some, false, true, OnOk, drop, slice_get, slice_range};
ghost use Rattle.wt_span.specs.declared.form.Mode.TheVariants as text_mode;
ghost use Rattle.wt_span.specs.Braces.{Member as TextMember, members};
ghost use Rattle.wt_span.specs.Items.{items_by};
ghost use Rattle.wt_braces.specs.PartMembers.{part_members};
ghost use Rattle.wt_expand.specs.Expansion.{lexeme_items};
ghost use Rattle.wt_expand.specs.PageCalls.{all_stretches, own};
ghost use Rattle.wt_expand.specs.Targets.{is_function};
ghost use Rattle.wt_expand.specs.Work.{Pages};
ghost use Rattle.wt_transclusion.specs.Answers.{IsCounted};
ghost use Rattle.wt_transclusion.specs.Asked.{Asks};
ghost use Rattle.wt_transclusion.specs.Steps.{IsStretchOf, given_from};
ghost use Rattle.wt_transclusion.specs.Stores.{Concerns, Grows};
ghost use Rattle.wt_template_stack.specs.Calls.{first_end};
ghost use Rattle.wt_template_stack.specs.Ledgers.{ledger};
ghost use Rattle.wt_template_stack.specs.Measures.{bytes_left};
ghost use Rattle.wt_template_stack.specs.Readers.{CanBeCut, IsReading};
ghost use Rattle.wt_expansion.specs.Walks.{Adds, AnswersStep, AnswersTarget, AnswersWalk, IsCallNext, IsFree, at_page, behind_stretches, behind_work, call_stretches_at, call_work, is_by_source, page_stretch, page_work_at};

use crate::found::Collected;
use std::alloc::Global;
use wt_braces::PartAt;
use wt_devices::Folder;
use wt_expand::{MOST_TEMPLATES, form_of};
use wt_functions::function_named;
use wt_names::{Title, href_of};
use wt_span::{ItemForm, LexKind, Mode, NoMemory};
use wt_template_stack::{Expansion, PageCall, Reader, Scope};
use wt_transclusion::{Braces, ExpandRefusal, Next, is_function, title_of_target};
use wt_values::Values;

/// A page that is walked over.
#[derive(Drop)]
pub struct PageWalk<'a> {
    pub alloc: Global,
    pub expansion: Expansion<'a>,
    pub found: Collected<'a>,
}

/// A piece of the page between two places.
fn push_slice<'a>(
    found: &mut Collected<'a>,
    reader: Reader<'a>,
    from: u32,
    to: u32,
    form: ItemForm,
) -> Result<(), NoMemory>
    ensures { OnOk result ((page : List ℕ) (p : ℕ) (s : Bool) → IsReading text_mode.Page page reader.entry p s → CanBeCut page from to → from < to
        → Adds found.old found.new from (own (items_by form None (slice_range page from to)) ∷ []) to) }
{
    let text = reader.slice(from, to);
    found.push_own(text, form)
}

/// Bytes of a lexeme, up to a place.
fn push_chunk<'a>(
    found: &mut Collected<'a>,
    reader: Reader<'a>,
    kind: LexKind,
    to: u32,
) -> Result<(), NoMemory>
    ensures { OnOk result ((page : List ℕ) (p : ℕ) (s : Bool) → IsReading text_mode.Page page reader.entry p s → CanBeCut page p to → p < to
        → Adds found.old found.new p (own (lexeme_items text_mode.Page kind (slice_range page p to)) ∷ []) to) }
{
    let text = reader.slice(reader.cursor.at, to);
    push_slice(
        found,
        reader,
        reader.cursor.at,
        to,
        form_of(kind, text.as_str()),
    )
}

impl<'a> PageWalk<'a> {
    /// Nothing is found.
    pub fn new(alloc: Global, expansion: Expansion<'a>) -> PageWalk<'a>
        ensures expansion { result.expansion ≡ expansion.entry }
        ensures pieces { result.found.pieces.items ≡ [] }
        ensures outer { result.found.outer.items ≡ [] }
        ensures text_calls { result.found.text_calls.items ≡ [] }
    {
        PageWalk {
            alloc,
            expansion,
            found: Collected::new(alloc),
        }
    }

    /// A stretch of the page up to a place. The reader is where it begins.
    ///
    /// # Errors
    ///
    /// The first refusal in the order of the work; a fault of the folder; want of memory.
    #[cycle(walking)]
    pub fn stretch<F: Folder>(
        &mut self,
        folder: &mut F,
        reader: Reader<'a>,
        end: u32,
    ) -> Result<(), ExpandRefusal>
        ensures given { (pages : Pages) (page : List ℕ) (met : List (List ℕ)) (p : ℕ) (s : Bool) (xs : List TextMember)
            → Concerns (F.pages folder.old) pages self.new.expansion.store result → IsFree pages met self.old.expansion
            → IsReading text_mode.Page page reader.entry p s → IsStretchOf text_mode.Page page p end xs
            → AnswersWalk pages page (ledger self.old.expansion.spent met (F.answered folder.old))
            (all_stretches (at_page pages) p s (drop p page) (members xs)) (given_from (at_page pages) s page p xs).work p end
            self.old.found self.new.found self.new.expansion.store self.new.expansion.spent (F.answered folder.new) result }
        ensures grown { OnOk result (Grows (F.pages folder.old) self.old.expansion.store self.new.expansion.store) }
        ensures kept { F.pages folder.new ≡ F.pages folder.old }
        ensures asks { Asks (F.answered folder.old) (F.answered folder.new) (F.most_asked folder.old) (F.most_asked folder.new) }
        ensures count { IsCounted (F.fault_count folder.old) (F.fault_count folder.new) result }
        ensures names { OnOk result (self.new.expansion.names ≡ self.old.expansion.names) }
    {
        let mut reader = reader;
        'steps: while reader.is_before(end) {
            let to = self.step(folder, reader, end)?;
            reader = reader.seek(to);
        }
        Ok(())
    }

    /// What is next, and where it ends.
    #[cycle(walking)]
    fn step<F: Folder>(
        &mut self,
        folder: &mut F,
        reader: Reader<'a>,
        end: u32,
    ) -> Result<u32, ExpandRefusal>
        requires before { reader.cursor.at < end }
        requires some { 0 < bytes_left reader }
        ensures given { (pages : Pages) (page : List ℕ) (met : List (List ℕ)) (p : ℕ) (s : Bool) (xs : List TextMember)
            → Concerns (F.pages folder.old) pages self.new.expansion.store result → IsFree pages met self.old.expansion
            → IsReading text_mode.Page page reader.entry p s → IsStretchOf text_mode.Page page p end xs
            → AnswersStep pages page (ledger self.old.expansion.spent met (F.answered folder.old))
            (all_stretches (at_page pages) p s (drop p page) (members xs)) (given_from (at_page pages) s page p xs).work p end
            self.old.found self.new.found self.new.expansion.store self.new.expansion.spent (F.answered folder.new) result }
        ensures grown { OnOk result (Grows (F.pages folder.old) self.old.expansion.store self.new.expansion.store) }
        ensures kept { F.pages folder.new ≡ F.pages folder.old }
        ensures asks { Asks (F.answered folder.old) (F.answered folder.new) (F.most_asked folder.old) (F.most_asked folder.new) }
        ensures count { IsCounted (F.fault_count folder.old) (F.fault_count folder.new) result }
        ensures names { OnOk result (self.new.expansion.names ≡ self.old.expansion.names) }
    {
        match reader.next(end) {
            Next::Chunk { kind, to } => {
                push_chunk(&mut self.found, reader, kind, to)?;
                Ok(to)
            }
            Next::Call(braces) => {
                self.walk_call(folder, reader, braces)?;
                Ok(braces.at.end)
            }
        }
    }

    /// A call that is next.
    #[cycle(walking)]
    fn walk_call<F: Folder>(
        &mut self,
        folder: &mut F,
        reader: Reader<'a>,
        call: Braces<'a>,
    ) -> Result<(), ExpandRefusal>
        requires { 0 < bytes_left reader }
        ensures given { (pages : Pages) (page : List ℕ) (met : List (List ℕ)) (s : Bool) (n : IsCallNext page call.entry reader.entry s)
            → Concerns (F.pages folder.old) pages self.new.expansion.store result → IsFree pages met self.old.expansion
            → AnswersWalk pages page (ledger self.old.expansion.spent met (F.answered folder.old))
            (call_stretches_at pages page call.entry n.is s) (call_work pages page call.entry n.is s) n.is.at call.entry.at.end
            self.old.found self.new.found self.new.expansion.store self.new.expansion.spent (F.answered folder.new) result }
        ensures grown { OnOk result (Grows (F.pages folder.old) self.old.expansion.store self.new.expansion.store) }
        ensures kept { F.pages folder.new ≡ F.pages folder.old }
        ensures asks { Asks (F.answered folder.old) (F.answered folder.new) (F.most_asked folder.old) (F.most_asked folder.new) }
        ensures count { IsCounted (F.fault_count folder.old) (F.fault_count folder.new) result }
        ensures names { OnOk result (self.new.expansion.names ≡ self.old.expansion.names) }
    {
        if call.argument {
            return self.without_target(folder, reader, call);
        }
        let source = reader.slice(call.at.start, call.at.end);
        let bytes = source.as_str().as_bytes();
        if is_function(bytes) {
            if function_named(bytes).is_some() {
                return self.without_target(folder, reader, call);
            }
            self.found.push_own(source, ItemForm::Function)?;
            return Ok(());
        }
        self.with_target(folder, reader, call)
    }

    /// An argument or a function by text is an outermost call without a link.
    fn without_target<F: Folder>(
        &mut self,
        folder: &mut F,
        reader: Reader<'a>,
        call: Braces<'a>,
    ) -> Result<(), ExpandRefusal>
        ensures given { (pages : Pages) (page : List ℕ) (met : List (List ℕ)) (s : Bool) (n : IsCallNext page call.entry reader.entry s)
            → Concerns (F.pages folder.old) pages self.new.expansion.store result → IsFree pages met self.old.expansion
            → is_by_source call.entry.argument (slice_range reader.entry.text.text.now call.entry.at.start call.entry.at.end) ≡ true
            → AnswersWalk pages page (ledger self.old.expansion.spent met (F.answered folder.old))
            (call_stretches_at pages page call.entry n.is s) (call_work pages page call.entry n.is s) n.is.at call.entry.at.end
            self.old.found self.new.found self.new.expansion.store self.new.expansion.spent (F.answered folder.new) result }
        ensures grown { OnOk result (Grows (F.pages folder.old) self.old.expansion.store self.new.expansion.store) }
        ensures kept { F.pages folder.new ≡ F.pages folder.old }
        ensures asks { Asks (F.answered folder.old) (F.answered folder.new) (F.most_asked folder.old) (F.most_asked folder.new) }
        ensures count { IsCounted (F.fault_count folder.old) (F.fault_count folder.new) result }
        ensures names { OnOk result (self.new.expansion.names ≡ self.old.expansion.names) }
    {
        let source = reader.slice(call.at.start, call.at.end);
        let values = Values::new(self.alloc);
        let scope = Scope {
            mode: Mode::Page,
            values: &values,
            left: MOST_TEMPLATES,
        };
        let given = self.expansion.stretch(folder, reader, call.at.end, scope)?;
        self.found
            .push_outer(self.alloc, source, call, None, given.as_slice())?;
        Ok(())
    }

    /// A call whose target is read as text is, since it may turn out to be text.
    #[cycle(walking)]
    fn with_target<F: Folder>(
        &mut self,
        folder: &mut F,
        reader: Reader<'a>,
        call: Braces<'a>,
    ) -> Result<(), ExpandRefusal>
        requires { 0 < bytes_left reader }
        ensures given { (pages : Pages) (page : List ℕ) (met : List (List ℕ)) (s : Bool) (n : IsCallNext page call.entry reader.entry s)
            → Concerns (F.pages folder.old) pages self.new.expansion.store result → IsFree pages met self.old.expansion
            → call.entry.argument ≡ false
            → is_function (slice_range reader.entry.text.text.now call.entry.at.start call.entry.at.end) ≡ false
            → AnswersWalk pages page (ledger self.old.expansion.spent met (F.answered folder.old))
            (call_stretches_at pages page call.entry n.is s) (call_work pages page call.entry n.is s) n.is.at call.entry.at.end
            self.old.found self.new.found self.new.expansion.store self.new.expansion.spent (F.answered folder.new) result }
        ensures grown { OnOk result (Grows (F.pages folder.old) self.old.expansion.store self.new.expansion.store) }
        ensures kept { F.pages folder.new ≡ F.pages folder.old }
        ensures asks { Asks (F.answered folder.old) (F.answered folder.new) (F.most_asked folder.old) (F.most_asked folder.new) }
        ensures count { IsCounted (F.fault_count folder.old) (F.fault_count folder.new) result }
        ensures names { OnOk result (self.new.expansion.names ≡ self.old.expansion.names) }
    {
        let mark = self.found.mark();
        let part = call.first_part();
        let title = self.target(folder, reader, call, part)?;
        match title {
            Some(title) => {
                self.found.back_to(mark);
                self.page(folder, reader, call, title)
            }
            None => self.behind_target(folder, reader, call, part),
        }
    }

    /// The target of a call with the braces in front of it, as those of text, and the title that it
    /// says.
    #[cycle(walking)]
    fn target<F: Folder>(
        &mut self,
        folder: &mut F,
        reader: Reader<'a>,
        call: Braces<'a>,
        part: PartAt,
    ) -> Result<Option<Title>, ExpandRefusal>
        requires { 0 < bytes_left reader }
        ensures given { (pages : Pages) (page : List ℕ) (met : List (List ℕ)) (s : Bool) (n : IsCallNext page call.entry reader.entry s)
            → Concerns (F.pages folder.old) pages self.new.expansion.store result → IsFree pages met self.old.expansion
            → slice_get call.entry.parts.now 0 ≡ Some part
            → AnswersTarget pages page (ledger self.old.expansion.spent met (F.answered folder.old)) call.entry n.is
            self.old.found self.new.found self.new.expansion.store self.new.expansion.spent (F.answered folder.new) result }
        ensures grown { OnOk result (Grows (F.pages folder.old) self.old.expansion.store self.new.expansion.store) }
        ensures kept { F.pages folder.new ≡ F.pages folder.old }
        ensures asks { Asks (F.answered folder.old) (F.answered folder.new) (F.most_asked folder.old) (F.most_asked folder.new) }
        ensures count { IsCounted (F.fault_count folder.old) (F.fault_count folder.new) result }
        ensures names { OnOk result (self.new.expansion.names ≡ self.old.expansion.names) }
    {
        self.found.push_text_call(call.at)?;
        push_slice(
            &mut self.found,
            reader,
            call.at.start,
            part.at.start,
            ItemForm::Chars,
        )?;
        let begun = self.found.pieces.len();
        self.stretch(folder, reader.within(part.at.start), part.at.end)?;
        let title = title_of_target(self.alloc, self.found.pieces_from(begun))?;
        Ok(title)
    }

    /// What comes after the target of a call that is text.
    #[cycle(walking)]
    fn behind_target<F: Folder>(
        &mut self,
        folder: &mut F,
        reader: Reader<'a>,
        call: Braces<'a>,
        part: PartAt,
    ) -> Result<(), ExpandRefusal>
        requires { 0 < bytes_left reader }
        ensures given { (pages : Pages) (page : List ℕ) (met : List (List ℕ)) (s : Bool) (n : IsCallNext page call.entry reader.entry s)
            → Concerns (F.pages folder.old) pages self.new.expansion.store result → IsFree pages met self.old.expansion
            → slice_get call.entry.parts.now 0 ≡ Some part
            → AnswersWalk pages page (ledger self.old.expansion.spent met (F.answered folder.old))
            (behind_stretches pages page call.entry n.is) (behind_work pages page call.entry n.is)
            (first_end (n.is.at + n.is.braces) (part_members 0 n.is.inside)) call.entry.at.end
            self.old.found self.new.found self.new.expansion.store self.new.expansion.spent (F.answered folder.new) result }
        ensures grown { OnOk result (Grows (F.pages folder.old) self.old.expansion.store self.new.expansion.store) }
        ensures kept { F.pages folder.new ≡ F.pages folder.old }
        ensures asks { Asks (F.answered folder.old) (F.answered folder.new) (F.most_asked folder.old) (F.most_asked folder.new) }
        ensures count { IsCounted (F.fault_count folder.old) (F.fault_count folder.new) result }
        ensures names { OnOk result (self.new.expansion.names ≡ self.old.expansion.names) }
    {
        let braces = part.at.start.saturating_sub(call.at.start);
        let end = call.at.end.saturating_sub(braces);
        self.stretch(folder, reader.seek(part.at.end), end)?;
        push_slice(&mut self.found, reader, end, call.at.end, ItemForm::Chars)?;
        Ok(())
    }

    /// The call of a page, whose target is read, is an outermost call.
    fn page<F: Folder>(
        &mut self,
        folder: &mut F,
        reader: Reader<'a>,
        call: Braces<'a>,
        title: Title,
    ) -> Result<(), ExpandRefusal>
        ensures given { (pages : Pages) (page : List ℕ) (met : List (List ℕ)) (s : Bool) (n : IsCallNext page call.entry reader.entry s)
            → Concerns (F.pages folder.old) pages self.new.expansion.store result → IsFree pages met self.old.expansion
            → call.entry.argument ≡ false
            → AnswersWalk pages page (ledger self.old.expansion.spent met (F.answered folder.old))
            (page_stretch pages page call.entry n.is s title) (page_work_at pages page call.entry n.is s title) n.is.at call.entry.at.end
            self.old.found self.new.found self.new.expansion.store self.new.expansion.spent (F.answered folder.new) result }
        ensures grown { OnOk result (Grows (F.pages folder.old) self.old.expansion.store self.new.expansion.store) }
        ensures kept { F.pages folder.new ≡ F.pages folder.old }
        ensures asks { Asks (F.answered folder.old) (F.answered folder.new) (F.most_asked folder.old) (F.most_asked folder.new) }
        ensures count { IsCounted (F.fault_count folder.old) (F.fault_count folder.new) result }
        ensures names { OnOk result (self.new.expansion.names ≡ self.old.expansion.names) }
    {
        let source = reader.slice(call.at.start, call.at.end);
        let href = href_of(self.alloc, &title)?;
        let values = Values::new(self.alloc);
        let called = PageCall {
            call,
            at_start: reader.cursor.at_start,
            title,
        };
        let scope = Scope {
            mode: Mode::Page,
            values: &values,
            left: MOST_TEMPLATES,
        };
        let given = self.expansion.call_page(folder, reader, called, scope)?;
        self.found
            .push_outer(self.alloc, source, call, Some(href), given.as_slice())?;
        Ok(())
    }
}
