//! The text that a page shows with its templates expanded.
ghost use Rattle.std.specs.Prelude.{◌≡◌, ◌<◌, ◌^◌, ◌++◌, [], ℕ, List, Option, Some, None, IfErr, IfOk, OnOk, length, option_map};
ghost use Rattle.wt_span.specs.Items.{items};
ghost use Rattle.wt_span.specs.declared.form.Mode.TheVariants as text_mode;
ghost use Rattle.wt_expand.specs.Expansion.{page_work};
ghost use Rattle.wt_expand.specs.PageCalls.{expanded_page};
ghost use Rattle.wt_expand.specs.Texts.{shown_text};
ghost use Rattle.wt_expand.specs.Work.{Pages, deep_place, first_refusal, names_asked};
ghost use Rattle.wt_transclusion.specs.Answers.{IsCounted, IsNoFault, IsRefused};
ghost use Rattle.wt_transclusion.specs.Asked.{Asks};
ghost use Rattle.wt_transclusion.specs.Reads.{IsRead};
ghost use Rattle.wt_transclusion.specs.Stops.{Stops};

use crate::expansion::{Expansion, Scope};
use bumpalo::Bump;
use std::alloc::Global;
use wt_braces::BraceRefusal;
use wt_devices::Folder;
use wt_expand::{MOST_TEMPLATES, text_shown};
use wt_span::{Mode, Piece, Str};
use wt_transclusion::{ExpandRefusal, ReadText, read_in};
use wt_values::Values;

/// The page as it is read.
///
/// # Errors
///
/// `BracesTooDeep`, with the place in the page; want of memory.
pub fn read_page<'a>(
    alloc: Global,
    page: &'a str,
    arena: &'a Bump<Global>,
) -> Result<ReadText<'a>, ExpandRefusal>
    requires { length page.now < 2 ^ 32 }
    ensures read { IfOk result (IsRead text_mode.Page page.entry.now) }
    ensures fits { OnOk result (deep_place text_mode.Page page.entry.now ≡ None) }
    ensures refused { IfErr result (λ e. (pages : Pages)
        → IsRefused (first_refusal pages page.entry.now (page_work pages page.entry.now)) e) }
    ensures stops { IfErr result (λ e. (pages : Pages) (met : List (List ℕ)) (told : Option (List (List ℕ)))
        → Stops pages page.entry.now 0 met (page_work pages page.entry.now) told told e) }
    ensures fault { IfErr result IsNoFault }
{
    match read_in(alloc, arena, page, Mode::Page) {
        Ok(read) => Ok(read),
        Err(BraceRefusal::BracesTooDeep { place }) => {
            Err(ExpandRefusal::BracesTooDeep { title: None, place })
        }
        Err(BraceRefusal::NoMemory) => Err(ExpandRefusal::NoMemory),
    }
}

/// The text that a page shows with its templates expanded, which are taken from a folder and kept in
/// the arena.
///
/// # Errors
///
/// The first refusal in the order of the work; a fault of the folder; want of memory.
pub fn expanded_text<'a, F: Folder>(
    alloc: Global,
    page: &'a str,
    arena: &'a Bump<Global>,
    folder: &mut F,
) -> Result<Str, ExpandRefusal>
    requires { length page.now < 2 ^ 32 }
    ensures text { (pages : Pages) → F.pages folder.old ≡ Some pages
        → IfOk result (λ text. text ≡ shown_text (expanded_page pages page.entry.now).items) }
    ensures whole { (pages : Pages) → F.pages folder.old ≡ Some pages
        → OnOk result (first_refusal pages page.entry.now (page_work pages page.entry.now) ≡ None) }
    ensures named { (pages : Pages) → F.pages folder.old ≡ Some pages
        → OnOk result (F.answered folder.new
        ≡ option_map (λ names. names ++ names_asked (page_work pages page.entry.now)) (F.answered folder.old)) }
    ensures refused { (pages : Pages) → F.pages folder.old ≡ Some pages
        → IfErr result (IsRefused (first_refusal pages page.entry.now (page_work pages page.entry.now))) }
    ensures stops { (pages : Pages) → F.pages folder.old ≡ Some pages
        → IfErr result (Stops pages page.entry.now 0 [] (page_work pages page.entry.now) (F.answered folder.old) (F.answered folder.new)) }
    ensures kept { F.pages folder.new ≡ F.pages folder.old }
    ensures asks { Asks (F.answered folder.old) (F.answered folder.new) (F.most_asked folder.old) (F.most_asked folder.new) }
    ensures count { IsCounted (F.fault_count folder.old) (F.fault_count folder.new) result }
{
    let read = read_page(alloc, page, arena)?;
    let values = Values::new(alloc);
    let mut expansion = Expansion::new(alloc, arena);
    let scope = Scope {
        mode: Mode::Page,
        values: &values,
        left: MOST_TEMPLATES,
    };
    let pieces = expansion.text(folder, read, scope)?;
    let text = text_shown(alloc, pieces.as_slice())?;
    Ok(text)
}
