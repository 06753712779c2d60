ghost use Rattle.std.specs.Prelude.{◌≡◌, ◌||◌, true, IfOk};
ghost use Rattle.wt_html_elements.specs.Built.{pairs, views};
ghost use Rattle.wt_schema.specs.Groups.{is_grouped, is_none, is_span, pairs_for};
ghost use Rattle.wt_schema.specs.Rows.{row};
ghost use Rattle.wt_schema.specs.Data.{data_for};
ghost use Rattle.wt_schema.specs.Fit.{texts_in, group_label, row_as, has_place, fits_place, fit_told, fit_row, fit_body_told, body_data};
ghost use Rattle.wt_html_nodes.specs.Texts.{are_utf8_values, are_utf8_markups};
ghost use Rattle.wt_html_nodes.specs.Told.{data_both};
ghost use Rattle.wt_html_nodes.specs.Heads.{IsHeadOf, IsHeadedAs, is_first, label_of_head, spot_with, HeadFits, RowFits, BodyFits};

use crate::attributes::mark_of;
use crate::carried::{attrs_for, shown_in};
use crate::data::{Data, body_data, data_for};
use crate::fault::FitFault;
use crate::number::id_for;
use crate::own::{group_attributes, own_attributes};
use crate::row::{row, text_fits};
use crate::standing::{is_first, is_grouped};
use std::alloc::Global;
use wt_datamw::Sync;
use wt_html_elements::{Attribute, Content};
use wt_schema::{FitWhy, Standing};
use wt_span::{List, NoMemory, Str};
use wt_tree::{Attr, DataMw, Kind, Mark, TagName};

/// What an element is, without what is in it. `id` is 0 where the node has no number; `shown` has its
/// characters where its texts are no texts of the page; `sync` and `mw` are what `data-parsoid` and
/// `data-mw` say of it, where they say something.
#[derive(Drop)]
pub struct Head {
    pub kind: Kind,
    pub id: u32,
    pub shown: Str,
    pub attrs: List<Attr>,
    pub mark: Mark,
    pub mw: Option<DataMw>,
    pub sync: Option<Sync>,
}

/// What an element of this kind with this data is.
fn head_with(
    alloc: Global,
    kind: Kind,
    attributes: &[Attribute],
    contents: &[Content],
    sync: Option<Sync>,
    mw: Option<DataMw>,
) -> Result<Head, NoMemory>
    requires values { are_utf8_values (pairs attributes.now) ≡ true }
    requires texts { are_utf8_markups (views contents.now) ≡ true }
    ensures { IfOk result (IsHeadOf kind (pairs attributes.now) (data_both sync mw) (texts_in (views contents.now))) }
{
    let shown = shown_in(alloc, kind, contents)?;
    let attrs = attrs_for(alloc, kind, attributes)?;
    Ok(Head {
        kind,
        id: id_for(kind, attributes),
        shown,
        attrs,
        mark: mark_of(attributes),
        mw,
        sync,
    })
}

/// What an element is by how it is among its siblings: of a group's first one the group's head, too.
#[derive(Drop)]
pub struct Headed {
    pub standing: Standing,
    pub group: Option<Head>,
    pub head: Head,
}

/// What a group with this data is, by the attributes of its first element.
fn group_head(
    alloc: Global,
    attributes: &[Attribute],
    sync: Option<Sync>,
    mw: Option<DataMw>,
) -> Result<Head, NoMemory>
    ensures { IfOk result (λ h. label_of_head h ≡ group_label (pairs attributes.now) (data_both sync mw)) }
{
    let attrs = group_attributes(alloc, attributes)?;
    Ok(Head {
        kind: Kind::Group,
        id: id_for(Kind::Group, attributes),
        shown: Str::new(alloc),
        attrs,
        mark: mark_of(attributes),
        mw,
        sync,
    })
}

/// An element as it is read.
#[derive(Clone, Copy)]
struct Element<'e> {
    number: u32,
    standing: Standing,
    /// All its attributes; those of its own are without those of its group.
    attributes: &'e [Attribute],
    own: &'e [Attribute],
    contents: &'e [Content],
}

/// What an element is as one of this kind with this data. Of a group's first one the data are the group's.
fn headed_with(
    alloc: Global,
    element: Element<'_>,
    kind: Kind,
    sync: Option<Sync>,
    mw: Option<DataMw>,
) -> Result<Headed, NoMemory>
    requires values { are_utf8_values (pairs element.own.now) ≡ true }
    requires own { pairs element.own.now ≡ pairs_for element.standing (pairs element.attributes.now) }
    requires texts { are_utf8_markups (views element.contents.now) ≡ true }
    ensures { IfOk result (IsHeadedAs element.entry.standing kind (pairs element.entry.attributes.now)
        (data_both sync mw) (texts_in (views element.entry.contents.now))) }
{
    let standing = element.standing;
    if is_first(standing) {
        let group = group_head(alloc, element.attributes, sync, mw)?;
        let head = head_with(alloc, kind, element.own, element.contents, None, None)?;
        Ok(Headed {
            standing,
            group: Some(group),
            head,
        })
    } else {
        let head = head_with(alloc, kind, element.own, element.contents, sync, mw)?;
        Ok(Headed {
            standing,
            group: None,
            head,
        })
    }
}

fn misfit(element: u32, why: FitWhy) -> FitFault
    ensures { result ≡ FitFault.Unfit element why }
{
    FitFault::Unfit { element, why }
}

/// What an element is as one of this kind, in a group or not.
fn headed_as(
    alloc: Global,
    element: Element<'_>,
    inside: bool,
    kind: Kind,
) -> Result<Headed, FitFault>
    requires values { are_utf8_values (pairs element.attributes.now) ≡ true }
    requires own_values { are_utf8_values (pairs element.own.now) ≡ true }
    requires own { pairs element.own.now ≡ pairs_for element.standing (pairs element.attributes.now) }
    requires texts { are_utf8_markups (views element.contents.now) ≡ true }
    ensures { HeadFits (inside || is_grouped element.entry.standing)
        (λ held. fit_told element.entry.number (inside || is_grouped element.entry.standing) element.entry.standing kind
        (pairs element.entry.attributes.now) (data_for inside element.entry.standing kind (pairs element.entry.attributes.now))
        (views element.entry.contents.now) (held kind)) result }
{
    match data_for(alloc, inside, element.standing, kind, element.attributes)? {
        Data::Bad => Err(misfit(element.number, FitWhy::Data)),
        Data::Good { sync, mw } => {
            if text_fits(kind, element.contents) {
                let headed = headed_with(alloc, element, kind, sync, mw)?;
                Ok(headed)
            } else {
                Err(misfit(element.number, FitWhy::Text))
            }
        }
    }
}

/// What the body is, whose element has this number; `Unfit` names that number.
pub fn body_head(
    alloc: Global,
    number: u32,
    attributes: &[Attribute],
    contents: &[Content],
) -> Result<Head, FitFault>
    requires values { are_utf8_values (pairs attributes.now) ≡ true }
    requires texts { are_utf8_markups (views contents.now) ≡ true }
    ensures { BodyFits (λ held. fit_body_told number (pairs attributes.now) (body_data (pairs attributes.now)) (views contents.now) held) result }
{
    match body_data(alloc, attributes)? {
        Data::Bad => Err(misfit(number, FitWhy::Data)),
        Data::Good { sync, mw } => {
            if text_fits(Kind::Body, contents) {
                let head = head_with(alloc, Kind::Body, attributes, contents, sync, mw)?;
                Ok(head)
            } else {
                Err(misfit(number, FitWhy::Text))
            }
        }
    }
}

/// Whether an element of this kind may be in one of the kind `outer`, after a block or not.
fn has_place(outer: Kind, behind: bool, kind: Kind) -> bool
    ensures { result ≡ has_place outer behind kind }
{
    outer.may_hold(kind) && kind.may_follow(behind)
}

fn is_span(kind: Kind) -> bool
    ensures { result ≡ is_span kind }
{
    matches!(kind, Kind::Tag(TagName::Span))
}

fn is_none(contents: &[Content]) -> bool
    ensures { result ≡ is_none (views contents.now) }
{
    match contents {
        [] => true,
        [_, ..] => false,
    }
}

/// The same of an element by how it is: in a group an empty `span` may be anywhere.
fn fits_place(
    outer: Kind,
    behind: bool,
    standing: Standing,
    kind: Kind,
    contents: &[Content],
) -> bool
    ensures { result ≡ fits_place outer behind standing kind (views contents.now) }
{
    has_place(outer, behind, kind) || (is_grouped(standing) && (is_span(kind) && is_none(contents)))
}

/// Where something is: in an element of this kind, in a group or not, after a block or not.
#[derive(Clone, Copy)]
pub struct Position {
    pub outer: Kind,
    pub inside: bool,
    pub behind: bool,
}

/// What an element of this name is where it is, and as it does.
fn headed_in(
    alloc: Global,
    element: Element<'_>,
    position: Position,
    name: &[u8],
) -> Result<Headed, FitFault>
    requires values { are_utf8_values (pairs element.attributes.now) ≡ true }
    requires own_values { are_utf8_values (pairs element.own.now) ≡ true }
    requires own { pairs element.own.now ≡ pairs_for element.standing (pairs element.attributes.now) }
    requires texts { are_utf8_markups (views element.contents.now) ≡ true }
    ensures { RowFits (position.inside || is_grouped element.entry.standing)
        (λ group held. fit_row element.entry.number (spot_with position group) element.entry.standing
        (row name.now (pairs element.entry.own.now)) (pairs element.entry.attributes.now) (views element.entry.contents.now) held) result }
{
    match row(name, element.own) {
        None => Err(misfit(element.number, FitWhy::Element)),
        Some(kind) => {
            if fits_place(
                position.outer,
                position.behind,
                element.standing,
                kind,
                element.contents,
            ) {
                headed_as(alloc, element, position.inside, kind)
            } else {
                Err(misfit(element.number, FitWhy::Place))
            }
        }
    }
}

/// The start tag of an element.
#[derive(Drop)]
pub struct StartTag {
    pub name: Vec<u8>,
    pub attributes: Vec<Attribute>,
}

/// What the element of this number is where it is, and as it does; `Unfit` names that number. `contents`
/// is what is in the element: its texts are looked at, and no element in it.
pub fn headed_by(
    alloc: Global,
    number: u32,
    position: Position,
    standing: Standing,
    tag: &StartTag,
    contents: &[Content],
) -> Result<Headed, FitFault>
    requires values { are_utf8_values (pairs tag.now.attributes.items) ≡ true }
    requires texts { are_utf8_markups (views contents.now) ≡ true }
    ensures { RowFits (position.inside || is_grouped standing)
        (λ group held. fit_row number (spot_with position group) standing
        (row_as standing tag.now.name.items (pairs tag.now.attributes.items)) (pairs tag.now.attributes.items)
        (views contents.now) held) result }
{
    let name = tag.name.as_slice();
    let attributes = tag.attributes.as_slice();
    let element = Element {
        number,
        standing,
        attributes,
        own: attributes,
        contents,
    };
    if is_first(standing) {
        let own = own_attributes(alloc, attributes)?;
        let first = Element {
            own: own.as_slice(),
            ..element
        };
        headed_in(alloc, first, position, name)
    } else {
        headed_in(alloc, element, position, name)
    }
}
