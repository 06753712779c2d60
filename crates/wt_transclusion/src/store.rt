//! The pages that were fetched, each once, by their full names.
ghost use Rattle.std.specs.Prelude.{◌≡◌, ◌∷◌, ◌++◌, [], ℕ, List, Option, Some, false, IfOk, OnErr, OnOk, option_map};
ghost use Rattle.std.specs.BTreeMap.{get_by_text};
ghost use Rattle.wt_expand.specs.Work.{Pages, is_among};
ghost use Rattle.wt_transclusion.specs.Answers.{AnswersTemplate, AnswersFetch, IsCounted, IsFetched};
ghost use Rattle.wt_transclusion.specs.Asked.{Asks};
ghost use Rattle.wt_transclusion.specs.Stores.{IsStore, AnswersTitle, Concerns, Grows, Keeps, Tells, named_with};

use crate::only::template_text;
use crate::read::ReadText;
use crate::reading::read_in;
use crate::refusal::ExpandRefusal;
use bumpalo::Bump;
use std::alloc::Global;
use std::collections::BTreeMap;
use wt_braces::BraceRefusal;
use wt_devices::{FetchRefusal, Fetched, Folder};
use wt_span::{Mode, NoMemory, PAGE_BYTES, Str};
use wt_utf8::read_text;

/// The page of a title as a template's: what is taken of it, read.
fn read_template<'a>(
    alloc: Global,
    arena: &'a Bump<Global>,
    title: &str,
    bytes: &[u8],
) -> Result<ReadText<'a>, ExpandRefusal>
    ensures { AnswersTemplate title.now bytes.now result }
{
    if bytes.len() > PAGE_BYTES {
        return Err(ExpandRefusal::TemplateTooLong {
            title: Str::copy_of(alloc, title)?,
        });
    }
    let text = match read_text(bytes) {
        Ok(text) => text,
        Err(place) => {
            return Err(ExpandRefusal::TemplateNotUtf8 {
                title: Str::copy_of(alloc, title)?,
                place: place as u32,
            });
        }
    };
    let taken = template_text(alloc, arena, text)?;
    match read_in(alloc, arena, taken, Mode::Template) {
        Ok(read) => Ok(read),
        Err(BraceRefusal::BracesTooDeep { place }) => Err(ExpandRefusal::BracesTooDeep {
            title: Some(Str::copy_of(alloc, title)?),
            place,
        }),
        Err(BraceRefusal::NoMemory) => Err(ExpandRefusal::NoMemory),
    }
}

/// The pages that were fetched. None is an absent page.
#[derive(Drop)]
pub struct Store<'a> {
    pages: BTreeMap<String, Option<ReadText<'a>>>,
}

/// What the folder has under a title, as it is read; None for an absent page. One byte more than the
/// most is asked for, so that a page that was cut is too long in any case.
fn fetch_template<'a, F: Folder>(
    alloc: Global,
    arena: &'a Bump<Global>,
    folder: &mut F,
    title: &str,
) -> Result<Option<ReadText<'a>>, ExpandRefusal>
    ensures page { (pages : Pages) → F.pages folder.old ≡ Some pages → AnswersFetch title.now (pages title.now) result }
    ensures read { IfOk result (λ found. (page : Option (List ℕ)) × IsFetched title.now page found) }
    ensures kept { F.pages folder.new ≡ F.pages folder.old }
    ensures asks { Asks (F.answered folder.old) (F.answered folder.new) (F.most_asked folder.old) (F.most_asked folder.new) }
    ensures named { Tells (F.answered folder.old) (option_map (λ names. names ++ title.now ∷ []) (F.answered folder.old))
        (F.answered folder.new) result }
    ensures count { IsCounted (F.fault_count folder.old) (F.fault_count folder.new) result }
{
    match folder.fetch(alloc, title, PAGE_BYTES as u32 + 1) {
        Ok(Fetched::Found(bytes)) => match read_template(alloc, arena, title, bytes.as_slice()) {
            Ok(read) => Ok(Some(read)),
            Err(refusal) => Err(refusal),
        },
        Ok(Fetched::Absent) => Ok(None),
        Err(FetchRefusal::Failed) => Err(ExpandRefusal::FolderFault),
        Err(FetchRefusal::NoMemory) => Err(ExpandRefusal::NoMemory),
    }
}

impl<'a> Store<'a> {
    /// No pages.
    pub fn new(alloc: Global) -> Store<'a>
        ensures { (pages : Pages) → IsStore pages [] result }
    {
        Store {
            pages: BTreeMap::new(alloc),
        }
    }

    /// What is known of a title; None where it wasn't fetched.
    fn known(&self, full: &str) -> Option<Option<ReadText<'a>>>
        ensures { result ≡ get_by_text self.now.pages full.now }
    {
        match self.pages.get(full) {
            Some(found) => Some(*found),
            None => None,
        }
    }

    /// Keeps what was fetched under a title.
    fn keep(
        &mut self,
        alloc: Global,
        full: &str,
        found: Option<ReadText<'a>>,
    ) -> Result<(), NoMemory>
        ensures { OnOk result (Keeps full.now found.entry self.old self.new) }
    {
        let name = String::from_str(alloc, full)?;
        match self.pages.insert(name, found) {
            Ok(_) => Ok(()),
            Err(_) => Err(NoMemory),
        }
    }

    /// The page of a full name as a template's text, None for an absent one. It is fetched where it
    /// wasn't before.
    pub fn template<F: Folder>(
        &mut self,
        alloc: Global,
        arena: &'a Bump<Global>,
        folder: &mut F,
        full: &str,
    ) -> Result<Option<ReadText<'a>>, ExpandRefusal>
        ensures page { (pages : Pages) (met : List (List ℕ)) → Concerns (F.pages folder.old) pages self.new result
            → IsStore pages met self.old → AnswersTitle pages met full.now self.new result }
        ensures grown { OnOk result (Grows (F.pages folder.old) self.old self.new) }
        ensures kept { F.pages folder.new ≡ F.pages folder.old }
        ensures asks { Asks (F.answered folder.old) (F.answered folder.new) (F.most_asked folder.old) (F.most_asked folder.new) }
        ensures named { (pages : Pages) (met : List (List ℕ)) → IsStore pages met self.old
            → Tells (F.answered folder.old) (named_with full.now met (F.answered folder.old)) (F.answered folder.new) result }
        ensures unmet { (pages : Pages) (met : List (List ℕ)) → IsStore pages met self.old → OnErr result (is_among full.now met ≡ false) }
        ensures count { IsCounted (F.fault_count folder.old) (F.fault_count folder.new) result }
    {
        if let Some(found) = self.known(full) {
            return Ok(found);
        }
        match fetch_template(alloc, arena, folder, full) {
            Ok(found) => {
                self.keep(alloc, full, found)?;
                Ok(found)
            }
            Err(refusal) => Err(refusal),
        }
    }
}
