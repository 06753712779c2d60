ghost use Rattle.std.specs.Prelude.{◌≡◌, ◌&&◌, not, true, false, None, Ok, codes, option_map, IfOk};
ghost use Rattle.wt_tree.specs.Kinds.{attribute_name, is_section};
ghost use Rattle.wt_datamw.specs.MwRead.{mw_told};
ghost use Rattle.wt_datamw.specs.SyncRead.{sync_told};
ghost use Rattle.wt_html_elements.specs.Built.{pairs};
ghost use Rattle.wt_schema.specs.Attributes.{value_of, has};
ghost use Rattle.wt_schema.specs.Data.{is_empty, is_for, sync_for, some_sync, sync_fits, is_extension_of, extension_data, mw_for, mw_fits, both};
ghost use Rattle.wt_schema.specs.Data.{data_of, has_own, no_data_if_good, mw_given, inner_data, parts_in, parts_of, group_data, data_alone, data_for};
ghost use Rattle.wt_schema.specs.Fit.{body_data};
ghost use Rattle.wt_html_nodes.specs.Texts.{are_utf8_values};
ghost use Rattle.wt_html_nodes.specs.Told.{sync_said, mw_said, data_said};

use crate::attributes::{has, is_marked, text_value, value_of};
use crate::number::id_of;
use crate::typed::is_extension_type;
use std::alloc::Global;
use wt_datamw::{DataRefusal, Sync, read, read_sync};
use wt_html_elements::Attribute;
use wt_schema::Standing;
use wt_span::{NoMemory, Str};
use wt_tree::{AttrName, DataMw, Kind, Payload};

/// What `data-parsoid` says of a node: it is bad, or good, and says nothing where it isn't there.
#[derive(Drop)]
pub enum SyncData {
    Bad,
    Good(Option<Sync>),
}

/// What `data-mw` says of a node: it is bad, or good, and says nothing where the node keeps none of it.
#[derive(Drop)]
pub enum MwData {
    Bad,
    Good(Option<DataMw>),
}

/// What both say of a node: one of them is bad, or they are good.
#[derive(Drop)]
pub enum Data {
    Bad,
    Good {
        sync: Option<Sync>,
        mw: Option<DataMw>,
    },
}

fn is_empty(text: &Str) -> bool
    ensures { result ≡ is_empty text.now }
{
    match text.as_str().as_bytes() {
        [] => true,
        [_, ..] => false,
    }
}

/// A leaf has a source and no delimiters; another node has no source of its own.
fn is_for(kind: Kind, sync: &Sync) -> bool
    ensures { result ≡ is_for kind sync.now }
{
    if kind.is_leaf() {
        sync.src.is_some() && (is_empty(&sync.opening) && is_empty(&sync.closing))
    } else {
        !sync.src.is_some()
    }
}

fn sync_for(alloc: Global, kind: Kind, text: &str) -> Result<SyncData, NoMemory>
    ensures { IfOk result (λ d. sync_said d ≡ some_sync (sync_for kind (sync_told text.now))) }
{
    match read_sync(alloc, text) {
        Ok(sync) => {
            if is_for(kind, &sync) {
                Ok(SyncData::Good(Some(sync)))
            } else {
                Ok(SyncData::Bad)
            }
        }
        Err(DataRefusal::BadData(_)) => Ok(SyncData::Bad),
        Err(DataRefusal::NoMemory) => Err(NoMemory),
    }
}

fn sync_fits(alloc: Global, kind: Kind, value: Option<&str>) -> Result<SyncData, NoMemory>
    ensures { IfOk result (λ d. sync_said d ≡ sync_fits kind (option_map (λ v. v.now) value.entry)) }
{
    match value {
        None => Ok(SyncData::Good(None)),
        Some(text) => sync_for(alloc, kind, text),
    }
}

/// Whether an element of this kind with this `typeof` is an extension's.
fn is_extension_of(kind: Kind, type_name: Option<&[u8]>) -> bool
    ensures { result ≡ is_extension_of kind (option_map (λ v. v.now) type_name.entry) }
{
    match kind.shape().payload {
        Payload::NoData => false,
        Payload::ExtensionTag => match type_name {
            None => false,
            Some(type_name) => is_extension_type(type_name),
        },
        Payload::GroupParts => false,
    }
}

/// The data of an island: those of an extension are good.
fn extension_data(data_mw: DataMw) -> MwData
    ensures { mw_said result ≡ extension_data data_mw }
{
    match data_mw {
        DataMw::Extension { name, body } => MwData::Good(Some(DataMw::Extension { name, body })),
        DataMw::Parts(_) => MwData::Bad,
    }
}

fn mw_for(alloc: Global, is_tag: bool, text: &str) -> Result<MwData, NoMemory>
    ensures { IfOk result (λ d. mw_said d ≡ mw_for is_tag (mw_told text.now)) }
{
    match read(alloc, text) {
        Ok(data_mw) => {
            if is_tag {
                Ok(extension_data(data_mw))
            } else {
                Ok(MwData::Good(None))
            }
        }
        Err(DataRefusal::BadData(_)) => Ok(MwData::Bad),
        Err(DataRefusal::NoMemory) => Err(NoMemory),
    }
}

/// What is said where `data-mw` isn't there.
fn no_mw(is_tag: bool) -> MwData
    ensures { mw_said result ≡ mw_fits is_tag None }
{
    if is_tag {
        MwData::Bad
    } else {
        MwData::Good(None)
    }
}

fn mw_fits(alloc: Global, is_tag: bool, value: Option<&str>) -> Result<MwData, NoMemory>
    ensures { IfOk result (λ d. mw_said d ≡ mw_fits is_tag (option_map (λ v. v.now) value.entry)) }
{
    match value {
        None => Ok(no_mw(is_tag)),
        Some(text) => mw_for(alloc, is_tag, text),
    }
}

fn both(sync_data: SyncData, mw_data: MwData) -> Data
    ensures { data_said result ≡ both (sync_said sync_data) (mw_said mw_data) }
{
    match (sync_data, mw_data) {
        (SyncData::Good(sync), MwData::Good(mw)) => Data::Good { sync, mw },
        (SyncData::Good(_), MwData::Bad) => Data::Bad,
        (SyncData::Bad, _) => Data::Bad,
    }
}

fn sync_data(alloc: Global, kind: Kind, attributes: &[Attribute]) -> Result<SyncData, NoMemory>
    requires { are_utf8_values (pairs attributes.now) ≡ true }
    ensures { IfOk result (λ d. sync_said d ≡ sync_fits kind (value_of (codes "data-parsoid") (pairs attributes.now))) }
{
    sync_fits(
        alloc,
        kind,
        text_value(b"data-parsoid".as_slice(), attributes),
    )
}

/// Whether an element of this kind is an extension's.
fn is_extension(kind: Kind, attributes: &[Attribute]) -> bool
    ensures { result ≡ is_extension_of kind (value_of (attribute_name AttrName.Typeof) (pairs attributes.now)) }
{
    is_extension_of(kind, value_of(AttrName::Typeof.text(), attributes))
}

fn mw_data(alloc: Global, is_tag: bool, attributes: &[Attribute]) -> Result<MwData, NoMemory>
    requires { are_utf8_values (pairs attributes.now) ≡ true }
    ensures { IfOk result (λ d. mw_said d ≡ mw_fits is_tag (value_of (codes "data-mw") (pairs attributes.now))) }
{
    mw_fits(alloc, is_tag, text_value(b"data-mw".as_slice(), attributes))
}

/// Whether it is a section with the mark of an edit.
fn is_marked_section(kind: Kind, attributes: &[Attribute]) -> bool
    ensures { result ≡ (is_section kind && has (codes "data-wt-edit") (pairs attributes.now)) }
{
    kind.is_section() && is_marked(attributes)
}

/// The data of a node of this kind by itself, in no group. A section may not have the mark of an edit.
pub fn data_of(alloc: Global, kind: Kind, attributes: &[Attribute]) -> Result<Data, NoMemory>
    requires { are_utf8_values (pairs attributes.now) ≡ true }
    ensures { IfOk result (λ d. data_said d ≡ data_of kind (pairs attributes.now)) }
{
    if is_marked_section(kind, attributes) {
        return Ok(Data::Bad);
    }
    let sync = sync_data(alloc, kind, attributes)?;
    let mw = mw_data(alloc, is_extension(kind, attributes), attributes)?;
    Ok(both(sync, mw))
}

/// Whether there is an `about` without `data-mw`.
fn is_about_alone(attributes: &[Attribute]) -> bool
    ensures { result ≡ (has (codes "about") (pairs attributes.now) && not (has (codes "data-mw") (pairs attributes.now))) }
{
    has(b"about".as_slice(), attributes) && !has(b"data-mw".as_slice(), attributes)
}

/// The data of the body. Its `about` is no group's, and asks for `data-mw` too.
pub fn body_data(alloc: Global, attributes: &[Attribute]) -> Result<Data, NoMemory>
    requires { are_utf8_values (pairs attributes.now) ≡ true }
    ensures { IfOk result (λ d. data_said d ≡ body_data (pairs attributes.now)) }
{
    if is_about_alone(attributes) {
        Ok(Data::Bad)
    } else {
        data_of(alloc, Kind::Body, attributes)
    }
}

/// Whether an element has a number or a source of its own.
fn has_own(attributes: &[Attribute]) -> bool
    ensures { result ≡ has_own (pairs attributes.now) }
{
    has(b"data-parsoid".as_slice(), attributes) || id_of(attributes) != 0
}

/// What `data-mw` says in a group, where it need not be.
fn mw_given(alloc: Global, is_tag: bool, value: Option<&str>) -> Result<MwData, NoMemory>
    ensures { IfOk result (λ d. mw_said d ≡ mw_given is_tag (option_map (λ v. v.now) value.entry)) }
{
    match value {
        None => Ok(MwData::Good(None)),
        Some(text) => mw_for(alloc, is_tag, text),
    }
}

fn given_data(alloc: Global, is_tag: bool, attributes: &[Attribute]) -> Result<MwData, NoMemory>
    requires { are_utf8_values (pairs attributes.now) ≡ true }
    ensures { IfOk result (λ d. mw_said d ≡ mw_given is_tag (value_of (codes "data-mw") (pairs attributes.now))) }
{
    mw_given(alloc, is_tag, text_value(b"data-mw".as_slice(), attributes))
}

/// What is good in a group counts for nothing.
fn no_data_if_good(mw_data: MwData) -> Data
    ensures { data_said result ≡ no_data_if_good (mw_said mw_data) }
{
    match mw_data {
        MwData::Bad => Data::Bad,
        MwData::Good(_) => Data::Good {
            sync: None,
            mw: None,
        },
    }
}

/// The data of a node of this kind in a group.
fn inner_data(alloc: Global, kind: Kind, attributes: &[Attribute]) -> Result<Data, NoMemory>
    requires { are_utf8_values (pairs attributes.now) ≡ true }
    ensures { IfOk result (λ d. data_said d ≡ inner_data kind (pairs attributes.now)) }
{
    if has_own(attributes) {
        Ok(Data::Bad)
    } else {
        let mw = given_data(alloc, is_extension(kind, attributes), attributes)?;
        Ok(no_data_if_good(mw))
    }
}

fn parts_in(data_mw: DataMw) -> MwData
    ensures { mw_said result ≡ parts_in (Ok data_mw) }
{
    match data_mw {
        DataMw::Parts(parts) => MwData::Good(Some(DataMw::Parts(parts))),
        DataMw::Extension { .. } => MwData::Bad,
    }
}

/// The parts of a group, as this text tells them.
fn parts_told(alloc: Global, text: &str) -> Result<MwData, NoMemory>
    ensures { IfOk result (λ d. mw_said d ≡ parts_in (mw_told text.now)) }
{
    match read(alloc, text) {
        Ok(data_mw) => Ok(parts_in(data_mw)),
        Err(DataRefusal::BadData(_)) => Ok(MwData::Bad),
        Err(DataRefusal::NoMemory) => Err(NoMemory),
    }
}

fn parts_of(alloc: Global, value: Option<&str>) -> Result<MwData, NoMemory>
    ensures { IfOk result (λ d. mw_said d ≡ parts_of (option_map (λ v. v.now) value.entry)) }
{
    match value {
        None => Ok(MwData::Bad),
        Some(text) => parts_told(alloc, text),
    }
}

/// The parts of a group, by its first element.
fn parts_data(alloc: Global, attributes: &[Attribute]) -> Result<MwData, NoMemory>
    requires { are_utf8_values (pairs attributes.now) ≡ true }
    ensures { IfOk result (λ d. mw_said d ≡ parts_of (value_of (codes "data-mw") (pairs attributes.now))) }
{
    parts_of(alloc, text_value(b"data-mw".as_slice(), attributes))
}

/// The data of a group in another one.
fn inner_group_data(alloc: Global, attributes: &[Attribute]) -> Result<Data, NoMemory>
    requires { are_utf8_values (pairs attributes.now) ≡ true }
    ensures { IfOk result (λ d. data_said d ≡ group_data true (pairs attributes.now)) }
{
    if has_own(attributes) {
        Ok(Data::Bad)
    } else {
        let mw = parts_data(alloc, attributes)?;
        Ok(both(SyncData::Good(None), mw))
    }
}

/// The data of a group in no other one.
fn outer_group_data(alloc: Global, attributes: &[Attribute]) -> Result<Data, NoMemory>
    requires { are_utf8_values (pairs attributes.now) ≡ true }
    ensures { IfOk result (λ d. data_said d ≡ group_data false (pairs attributes.now)) }
{
    let sync = sync_data(alloc, Kind::Group, attributes)?;
    let mw = parts_data(alloc, attributes)?;
    Ok(both(sync, mw))
}

fn group_data(alloc: Global, inside: bool, attributes: &[Attribute]) -> Result<Data, NoMemory>
    requires { are_utf8_values (pairs attributes.now) ≡ true }
    ensures { IfOk result (λ d. data_said d ≡ group_data inside (pairs attributes.now)) }
{
    if inside {
        inner_group_data(alloc, attributes)
    } else {
        outer_group_data(alloc, attributes)
    }
}

fn data_alone(
    alloc: Global,
    inside: bool,
    kind: Kind,
    attributes: &[Attribute],
) -> Result<Data, NoMemory>
    requires { are_utf8_values (pairs attributes.now) ≡ true }
    ensures { IfOk result (λ d. data_said d ≡ data_alone inside kind (pairs attributes.now)) }
{
    if inside {
        inner_data(alloc, kind, attributes)
    } else {
        data_of(alloc, kind, attributes)
    }
}

/// The data of an element of this kind by how it is, in a group or not.
pub fn data_for(
    alloc: Global,
    inside: bool,
    standing: Standing,
    kind: Kind,
    attributes: &[Attribute],
) -> Result<Data, NoMemory>
    requires { are_utf8_values (pairs attributes.now) ≡ true }
    ensures { IfOk result (λ d. data_said d ≡ data_for inside standing kind (pairs attributes.now)) }
{
    match standing {
        Standing::Alone => data_alone(alloc, inside, kind, attributes),
        Standing::First => group_data(alloc, inside, attributes),
        Standing::Further => inner_data(alloc, kind, attributes),
        Standing::Astray => Ok(Data::Bad),
    }
}
