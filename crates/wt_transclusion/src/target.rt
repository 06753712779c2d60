//! What a call's target says: the title of the page that is called, where it is one.
ghost use Rattle.std.specs.Prelude.{◌≡◌, ◌++◌, ℕ, Option, Some, None, IfOk, IfErr, OnOk, codes, drop, length, slice_index, ◌==◌, ◌<◌, ◌^◌};
ghost use Rattle.wt_names.specs.Tidy.{IsTidy};
ghost use Rattle.wt_names.specs.Good.{read_text};
ghost use Rattle.wt_names.specs.declared.namespace.Ns.TheVariants as spaces;
ghost use Rattle.wt_span.specs.Items.{items, items_of};
ghost use Rattle.wt_expand.specs.Texts.{target_of_form, target_text, both};
ghost use Rattle.wt_expand.specs.Targets.{as_template, if_good, is_function, is_main, is_template, placed_title, title_behind, title_in_target, title_of_target, without_fragment};
ghost use Rattle.wt_span.specs.Characters as byte;
ghost use Rattle.wt_transclusion.specs.Target.{PushesTarget, is_that_template};

use crate::blanks::{behind, front_len, trimmed};
use std::alloc::Global;
use wt_names::{Ns, Title, read_title};
use wt_span::{ItemForm, NoMemory, Piece, Str, rest_of};

/// Appends what a piece says in a target: characters, an entity's character, nothing for marks. It
/// answers false where the piece can't be in one.
fn push_target(text: &mut Str, piece: &Piece<'_>) -> Result<bool, NoMemory>
    ensures { IfOk result (λ said. PushesTarget piece.now text.old text.new said) }
{
    match piece.form {
        ItemForm::Chars => {
            text.push_str(piece.text.as_str())?;
            Ok(true)
        }
        ItemForm::Entity(character) => {
            let mut buffer = [0; 4];
            text.push_str(character.encode_utf8(&mut buffer))?;
            Ok(true)
        }
        ItemForm::Comment | ItemForm::Include | ItemForm::Hidden | ItemForm::EmptyCall => Ok(true),
        ItemForm::Nowiki | ItemForm::Extension | ItemForm::Function => Ok(false),
    }
}

/// The text of a target that was expanded, where it has one.
fn target_text(alloc: Global, pieces: &[Piece<'_>]) -> Result<Option<Str>, NoMemory>
    ensures { IfOk result (λ text. text ≡ target_text (items pieces.now)) }
{
    let mut text = Str::new(alloc);
    for piece in pieces {
        if !push_target(&mut text, piece)? {
            return Ok(None);
        }
    }
    Ok(Some(text))
}

fn is_main(ns: Ns) -> bool
    ensures { result ≡ is_main ns }
{
    matches!(ns, Ns::Main)
}

fn is_template(ns: Ns) -> bool
    ensures { result ≡ is_template ns }
{
    matches!(ns, Ns::Template)
}

/// Whether a title is the template of this name, without a fragment.
fn is_that_template(title: &Title, name: &str) -> bool
    ensures { result ≡ is_that_template title.now name.now }
{
    is_template(title.ns) && title.name.as_str() == name && title.fragment.is_none()
}

/// The full name of the template of a name.
fn template_name(alloc: Global, name: &str) -> Result<Str, NoMemory>
    ensures { IfOk result (λ full. full ≡ codes "Template:" ++ name.now) }
{
    let mut full = Str::copy_of(alloc, "Template:")?;
    full.push_str(name)?;
    Ok(full)
}

/// A title of the main namespace in that of templates, where it is a good title there.
fn as_template(alloc: Global, title: &Title) -> Result<Option<Title>, NoMemory>
    requires tidy { IsTidy title.now }
    requires whole { title.now.fragment ≡ None }
    ensures { IfOk result (λ t. t ≡ if_good (as_template title.now)) }
{
    let name = title.name.as_str();
    let full = template_name(alloc, name)?;
    match read_title(alloc, full.as_str())? {
        Some(read) => {
            if is_that_template(&read, name) {
                Ok(Some(read))
            } else {
                Ok(None)
            }
        }
        None => Ok(None),
    }
}

/// A title without a namespace is a template's, unless a colon came before it.
fn placed(alloc: Global, colon: bool, title: Title) -> Result<Option<Title>, NoMemory>
    requires tidy { IsTidy title }
    requires whole { title.fragment ≡ None }
    ensures { IfOk result (λ t. t ≡ placed_title colon title) }
{
    if colon || !is_main(title.ns) {
        return Ok(Some(title));
    }
    as_template(alloc, &title)
}

/// The title that a trimmed text names after a colon or without one.
fn title_behind(alloc: Global, colon: bool, text: &str) -> Result<Option<Title>, NoMemory>
    requires { colon ≡ (slice_index text.now 0 == byte.colon) }
    ensures { IfOk result (λ t. t ≡ title_behind colon text.now) }
{
    let name = if colon { behind(text, 1) } else { text };
    let Some(title) = read_title(alloc, name)? else {
        return Ok(None);
    };
    if title.fragment.is_some() {
        return Ok(None);
    }
    placed(alloc, colon, title)
}

/// The title that a target's text names: a leading colon names the page as it is.
#[tactic(auto, unfolding(wt_expand::specs::Targets::title_in_target))]
fn title_in_target(alloc: Global, text: &str) -> Result<Option<Title>, NoMemory>
    ensures { IfOk result (λ t. t ≡ title_in_target text.now) }
{
    let bytes = trimmed(text);
    title_behind(alloc, byte_at(bytes.as_bytes(), 0) == b':', bytes)
}

/// The title of a target that was expanded, where it names a page that can be called: a good title
/// without a fragment.
#[tactic(auto, unfolding(wt_expand::specs::Targets::title_of_target))]
pub fn title_of_target(alloc: Global, pieces: &[Piece<'_>]) -> Result<Option<Title>, NoMemory>
    ensures { IfOk result (λ t. t ≡ title_of_target (items pieces.now)) }
{
    match target_text(alloc, pieces)? {
        Some(text) => title_in_target(alloc, text.as_str()),
        None => Ok(None),
    }
}

/// Whether a call of two braces, by its source, is a function: the first character of its target
/// past blanks and line breaks is `#`.
#[tactic(auto, unfolding(wt_expand::specs::Targets::is_function))]
pub fn is_function(source: &[u8]) -> bool
    ensures { result ≡ is_function source.now }
{
    if source.len() < 2 {
        return false;
    }
    let inside = rest_of(source, 2);
    byte_at(inside, front_len(inside)) == b'#'
}

/// The byte at a place, 0 past the end.
pub fn byte_at(bytes: &[u8], at: usize) -> u8
    ensures { result ≡ slice_index bytes.now at }
{
    match bytes.get(at) {
        Some(byte) => *byte,
        None => 0,
    }
}
