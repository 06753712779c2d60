//! What is taken for a title: a message, or the text of its page.
ghost use Rattle.std.specs.Prelude.{◌≡◌, ◌<◌, ◌^◌, List, ℕ, Some, IfOk, OnOk, length, reverse};
ghost use Rattle.std.specs.Str.{IsCharBoundary};
ghost use Rattle.wt_names.specs.Namespace.{full_name_of};
ghost use Rattle.wt_span.specs.Items.{items};
ghost use Rattle.wt_expand.specs.Work.{Pages, is_among};
ghost use Rattle.wt_expand.specs.Expansion.{absent_text, chars, depth_text, loop_text};
ghost use Rattle.wt_transclusion.specs.Answers.{IsCounted};
ghost use Rattle.wt_transclusion.specs.Asked.{Asks};
ghost use Rattle.wt_transclusion.specs.Stores.{IsStore, Concerns, Grows};
ghost use Rattle.wt_transclusion.specs.Takings.{AnswersTaking, IsNamed, IsPage};

use crate::item::piece_of;
use crate::messages::{absent_text, depth_text, loop_text};
use crate::read::ReadText;
use crate::refusal::ExpandRefusal;
use crate::store::Store;
use bumpalo::Bump;
use std::alloc::Global;
use wt_devices::Folder;
use wt_names::{Title, full_name};
use wt_span::{ItemForm, List, NoMemory, Piece, Str, Text};

/// What is taken for a title.
#[derive(Drop)]
pub enum PageLookup<'a> {
    /// A message that stands for a page that isn't asked for.
    Message(List<Piece<'a>>),
    /// The link that stands for an absent page.
    Link(List<Piece<'a>>),
    /// The text of the page.
    Page(ReadText<'a>),
}

/// The most bytes of one `Text`.
const MOST_BYTES: usize = 4_294_967_295;

/// How many bytes of a text with more than `MOST_BYTES` go into its first piece: up to the last border
/// between characters within that limit.
fn front_len(text: &str) -> usize
    requires { MOST_BYTES < length text.now }
    ensures some { 0 < result }
    ensures few { result < 2 ^ 32 }
    ensures border { IsCharBoundary text.now result }
{
    text.floor_char_boundary(MOST_BYTES)
}

/// A text as characters: one piece, or several where it has more than `MOST_BYTES`.
fn pieces_of<'a>(alloc: Global, text: &'a str) -> Result<List<Piece<'a>>, NoMemory>
    ensures { IfOk result (λ ps. items ps ≡ chars text.entry.now) }
{
    let mut pieces = List::new(alloc);
    let mut rest = text;
    while rest.len() > MOST_BYTES {
        let (front, behind) = rest.split_at(front_len(rest));
        pieces.push(piece_of(Text::new(front, 0), ItemForm::Chars))?;
        rest = behind;
    }
    pieces.push(piece_of(Text::new(rest, 0), ItemForm::Chars))?;
    Ok(pieces)
}

/// A text as pieces, kept in the arena.
fn message<'a>(
    alloc: Global,
    arena: &'a Bump<Global>,
    text: Str,
) -> Result<List<Piece<'a>>, NoMemory>
    ensures { IfOk result (λ ps. items ps ≡ chars text) }
{
    let kept = arena.try_alloc_str(text.as_str())?;
    pieces_of(alloc, kept)
}

/// Whether a full name is among those of the pages that are being expanded.
fn is_open(names: &[Str], full: &str) -> bool
    ensures { result ≡ is_among full.now names.now }
{
    for name in names {
        if name.as_str() == full {
            return true;
        }
    }
    false
}

/// How deep a call is.
#[derive(Clone, Copy)]
pub struct Nesting<'n> {
    /// The full names of the pages that are being expanded, the outermost first.
    pub names: &'n [Str],
    /// How many more pages may be expanded within them.
    pub left: u32,
}

/// What is taken for a title where the pages of these names are being expanded, the outermost first,
/// and so many more may be: a message where it is one of them or no more may be, else its page.
pub fn take<'a, F: Folder>(
    alloc: Global,
    arena: &'a Bump<Global>,
    store: &mut Store<'a>,
    folder: &mut F,
    nesting: Nesting<'_>,
    title: &Title,
) -> Result<PageLookup<'a>, ExpandRefusal>
    ensures taken { (pages : Pages) (met : List (List ℕ)) → Concerns (F.pages folder.old) pages store.new result
        → IsStore pages met store.old
        → AnswersTaking pages met (reverse nesting.entry.names.now) nesting.entry.left title.now store.new result }
    ensures grown { OnOk result (Grows (F.pages folder.old) store.old store.new) }
    ensures kept { F.pages folder.new ≡ F.pages folder.old }
    ensures asks { Asks (F.answered folder.old) (F.answered folder.new) (F.most_asked folder.old) (F.most_asked folder.new) }
    ensures named { (pages : Pages) (met : List (List ℕ)) → IsStore pages met store.old
        → IsNamed nesting.entry.left (reverse nesting.entry.names.now) (full_name_of title.now) met
        (F.answered folder.old) (F.answered folder.new) result }
    ensures count { IsCounted (F.fault_count folder.old) (F.fault_count folder.new) result }
    ensures some_left { IfOk result (λ k. IsPage k → 0 < nesting.entry.left) }
{
    let Nesting { names, left } = nesting;
    let full = full_name(alloc, title)?;
    if is_open(names, full.as_str()) {
        let text = loop_text(alloc, title)?;
        return Ok(PageLookup::Message(message(alloc, arena, text)?));
    }
    if left == 0 {
        let text = depth_text(alloc, title)?;
        return Ok(PageLookup::Message(message(alloc, arena, text)?));
    }
    match store.template(alloc, arena, folder, full.as_str()) {
        Ok(Some(read)) => Ok(PageLookup::Page(read)),
        Ok(None) => {
            let text = absent_text(alloc, full.as_str())?;
            Ok(PageLookup::Link(message(alloc, arena, text)?))
        }
        Err(refusal) => Err(refusal),
    }
}
