//! The heads of nodes: characters that an element shows, attributes, and the data of an extension.

ghost use Rattle.std.specs.Prelude.{◌≡◌, ◌≢◌, ◌++◌, ◌∷◌, [], OnOk, IfOk, encode_utf8};
ghost use Rattle.std.specs.List.{flat_map};
ghost use Rattle.std.specs.Str.{IsAscii};
ghost use Rattle.wt_span.specs.Bytes.{lower};
ghost use Rattle.wt_span.specs.declared.form.ItemForm.TheVariants as form;
ghost use Rattle.wt_span.specs.Slice.{bytes_of};
ghost use Rattle.wt_span.specs.Tags.{opening_tag, closing_tag};
ghost use Rattle.wt_span.specs.Items.{items, items_of};
ghost use Rattle.wt_tree.specs.View.{attrs_of};
ghost use Rattle.wt_inline.specs.RawTag.{name_of};
ghost use Rattle.wt_inline.specs.Parts.{loose_head, form_kind, form_head};
ghost use Rattle.wt_inline.specs.View.{head_of};
ghost use Rattle.wt_inline.specs.Carried.{shown_whole, shown_item, include_name, include_typeof, extension_of, typeof, attrs_whole, data_whole};

use crate::loose::Loose;
use crate::raw::RawTag;
use crate::tree::NodeHead;
use std::alloc::Global;
use wt_lex::{closing_tag, is_same_name, opening_tag};
use wt_span::{ItemForm, List, NoMemory, Piece, Str, Text};
use wt_tree::{Attr, AttrName, DataMw, Kind, Mark, More, Shown};

fn push_char(out: &mut Str, character: char) -> Result<(), NoMemory>
    ensures { OnOk result (out.new ≡ out.old ++ encode_utf8 character) }
{
    let mut bytes = [0_u8; 4];
    let encoded = character.encode_utf8(&mut bytes);
    out.push_str(encoded)?;
    Ok(())
}

/// Appends what a piece shows: characters themselves, and an entity the character that it stands
/// for; anything else shows nothing.
pub fn push_shown(out: &mut Str, piece: &Piece<'_>) -> Result<(), NoMemory>
    ensures { OnOk result (out.new ≡ out.old ++ flat_map shown_item (items_of piece.now)) }
{
    match piece.form {
        ItemForm::Chars => out.push_str(piece.text.as_str()),
        ItemForm::Entity(character) => push_char(out, character),
        _ => Ok(()),
    }
}

fn push_all_shown(out: &mut Str, own: &[Piece<'_>]) -> Result<(), NoMemory>
    ensures { OnOk result (out.new ≡ out.old ++ flat_map shown_item (items own.now)) }
{
    for piece in own {
        push_shown(out, piece)?;
    }
    Ok(())
}

/// What a piece shows: characters as they are written, where it is such.
fn piece_shown<'a>(alloc: Global, piece: &Piece<'a>) -> Result<Shown<'a>, NoMemory>
    ensures { IfOk result (λ s. s ≡ flat_map shown_item (items_of piece.now)) }
{
    match piece.form {
        ItemForm::Chars => Ok(Shown::written(piece.text.as_str())),
        _ => {
            let mut shown = Str::new(alloc);
            push_shown(&mut shown, piece)?;
            Ok(Shown::made(shown))
        }
    }
}

/// What pieces show, one after another.
fn pieces_shown<'a>(alloc: Global, own: &[Piece<'a>]) -> Result<Shown<'a>, NoMemory>
    ensures { IfOk result (λ s. s ≡ flat_map shown_item (items own.now)) }
{
    match own {
        [piece] => piece_shown(alloc, piece),
        _ => {
            let mut shown = Str::new(alloc);
            push_all_shown(&mut shown, own)?;
            Ok(Shown::made(shown))
        }
    }
}

/// The characters that a leaf of such characters shows.
fn loose_shown<'a>(alloc: Global, loose: Loose, own: &[Piece<'a>]) -> Result<Shown<'a>, NoMemory>
    ensures { IfOk result (λ s. s ≡ (loose_head loose (items own.now)).shown) }
{
    match loose {
        Loose::Text => pieces_shown(alloc, own),
        Loose::Sep => Ok(Shown::none()),
    }
}

/// The head of a text or of a separator.
pub fn loose_head<'a>(
    alloc: Global,
    loose: Loose,
    own: &[Piece<'a>],
) -> Result<NodeHead<'a>, NoMemory>
    ensures { IfOk result (λ h. head_of h ≡ loose_head loose (items own.now)) }
{
    let shown = loose_shown(alloc, loose, own)?;
    Ok(NodeHead {
        shown,
        ..NodeHead::plain(loose.kind())
    })
}

/// One attribute, with the value of `typeof` in two parts.
fn typeof_attr(alloc: Global, front: &str, back: &str) -> Result<List<Attr>, NoMemory>
    ensures { IfOk result (λ l. attrs_of l ≡ typeof (front.now ++ back.now)) }
{
    let mut value = Str::copy_of(alloc, front)?;
    value.push_str(back)?;
    let mut attrs = List::new(alloc);
    attrs.push_tight(Attr {
        name: AttrName::Typeof,
        value,
    })?;
    Ok(attrs)
}

/// The name of a tag, in lower case.
fn lower_name(alloc: Global, name: &[u8]) -> Result<Str, NoMemory>
    requires { IsAscii name.now }
    ensures { IfOk result (λ s. s ≡ lower name.now) }
{
    let text = ascii_text(name);
    let lower = text.to_ascii_lowercase(alloc)?;
    Ok(Str::from_string(lower))
}

fn ascii_text(bytes: &[u8]) -> &str
    requires { IsAscii bytes.now }
    ensures { result.now ≡ bytes.entry.now }
{
    match str::from_utf8(bytes) {
        Ok(text) => text,
        Err(_) => unreachable!(),
    }
}

/// What an include tag of this name is.
fn include_name(name: &[u8]) -> &'static str
    ensures { result.now ≡ include_name (lower name.now) }
{
    if is_same_name(name, b"noinclude") {
        "mw:Includes/NoInclude"
    } else {
        "mw:Includes/OnlyInclude"
    }
}

/// The name of the closing tag that begins a text; empty where none does.
fn closing_name(bytes: &[u8]) -> &[u8]
    ensures { lower result.now ≡ name_of (closing_tag bytes.entry.now) }
{
    match closing_tag(bytes) {
        Some(tag) => tag.name,
        None => &[],
    }
}

/// The attributes of an include tag that is by itself.
fn include_attrs(alloc: Global, bytes: &[u8]) -> Result<List<Attr>, NoMemory>
    ensures { IfOk result (λ l. attrs_of l ≡ typeof (include_typeof (opening_tag bytes.now) (closing_tag bytes.now))) }
{
    match opening_tag(bytes) {
        Some(tag) => typeof_attr(alloc, include_name(tag.name), ""),
        None => typeof_attr(alloc, include_name(closing_name(bytes)), "/End"),
    }
}

/// The attributes of a piece that is one item and no extension, beside those that the kind of its
/// node tells.
fn attrs(alloc: Global, piece: &Piece<'_>) -> Result<List<Attr>, NoMemory>
    requires { piece.now.form ≢ form.Extension }
    ensures { IfOk result (λ l. attrs_of l ≡ attrs_whole piece.now.form (bytes_of piece.now.text)) }
{
    let bytes = piece.text.as_str().as_bytes();
    match piece.form {
        ItemForm::Function => typeof_attr(alloc, "mw:Placeholder", ""),
        ItemForm::Include => include_attrs(alloc, bytes),
        ItemForm::Hidden => typeof_attr(alloc, "mw:Includes/IncludeOnly", ""),
        _ => Ok(List::new(alloc)),
    }
}

/// The data of an extension with this name.
fn extension_data(alloc: Global, name: Str, raw: RawTag<'_>) -> Result<DataMw, NoMemory>
    ensures { IfOk result (λ d. d ≡ extension_of name raw.entry.alone (bytes_of raw.entry.inside)) }
{
    if raw.alone {
        return Ok(DataMw::Extension { name, body: None });
    }
    let body = Str::copy_of(alloc, raw.inside.as_str())?;
    Ok(DataMw::Extension {
        name,
        body: Some(body),
    })
}

/// The head of the island of an extension with this source, whose opening tag is read once.
fn extension_head<'a>(alloc: Global, text: Text<'a>) -> Result<NodeHead<'a>, NoMemory>
    ensures { IfOk result (λ h. head_of h ≡ form_head form.Extension (bytes_of text.entry)) }
{
    let raw = RawTag::of(text);
    let shown = form_shown(alloc, ItemForm::Extension)?;
    let name = lower_name(alloc, raw.name)?;
    let attrs = typeof_attr(alloc, "mw:Extension/", name.as_str())?;
    let data = extension_data(alloc, name, raw)?;
    let more = More::of(alloc, attrs, Mark::Nothing, Some(data))?;
    Ok(NodeHead {
        kind: Kind::Island,
        shown,
        more,
    })
}

/// The characters that a form shows: an entity the character that it stands for.
fn form_shown<'a>(alloc: Global, form: ItemForm) -> Result<Shown<'a>, NoMemory>
    ensures { IfOk result (λ s. s ≡ shown_whole form) }
{
    match form {
        ItemForm::Entity(character) => {
            let mut shown = Str::new(alloc);
            push_char(&mut shown, character)?;
            Ok(Shown::made(shown))
        }
        _ => Ok(Shown::none()),
    }
}

/// The kind of a form's node.
fn form_kind(form: ItemForm) -> Kind
    ensures { result ≡ form_kind form }
{
    match form {
        ItemForm::Chars => Kind::Text,
        ItemForm::Entity(_) => Kind::Entity,
        ItemForm::Nowiki => Kind::Nowiki,
        ItemForm::Extension | ItemForm::Function => Kind::Island,
        ItemForm::Comment => Kind::Comment,
        ItemForm::Include | ItemForm::Hidden => Kind::Include,
        ItemForm::EmptyCall => Kind::Empty,
    }
}

/// The head of the node of a piece that is one item and no extension.
#[tactic(auto, using(crate::proofs::Carrying::no_data))]
fn other_head<'a>(alloc: Global, piece: &Piece<'a>) -> Result<NodeHead<'a>, NoMemory>
    requires { piece.now.form ≢ form.Extension }
    ensures { IfOk result (λ h. head_of h ≡ form_head piece.now.form (bytes_of piece.now.text)) }
{
    Ok(NodeHead {
        kind: form_kind(piece.form),
        shown: form_shown(alloc, piece.form)?,
        more: More::with_attrs(alloc, attrs(alloc, piece)?)?,
    })
}

/// The head of the node of a piece that is one item.
pub fn form_head<'a>(alloc: Global, piece: &Piece<'a>) -> Result<NodeHead<'a>, NoMemory>
    ensures { IfOk result (λ h. head_of h ≡ form_head piece.now.form (bytes_of piece.now.text)) }
{
    match piece.form {
        ItemForm::Extension => extension_head(alloc, piece.text),
        _ => other_head(alloc, piece),
    }
}
