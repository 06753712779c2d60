use wt_span::TagName;

/// Where a node is in the page, in bytes: from `start` up to `end`, and how many of these bytes
/// its opening and closing delimiters have. It is what Parsoid calls `dsr`. A leaf that is written
/// as an element has its whole length as `open_w`; a text and a group have 0.
#[derive(Clone, Copy, Debug, PartialEq, Eq)]
pub struct Ranges {
    pub start: u32,
    pub end: u32,
    pub open_w: u32,
    pub close_w: u32,
}

/// What an editor said of an element of the edited HTML (`data-wt-edit`): that its content is new,
/// that some of its children are new or missing, or a word that means nothing.
#[derive(Clone, Copy, Debug, PartialEq, Eq)]
pub enum Mark {
    Nothing,
    Content,
    Children,
    Other,
}

/// What a node is. A `Section` has its number: 0 where it is the lead, else the place of its heading among
/// those that open one, from 1. A `Heading` has its level, from 1 to 6. An `Island` is a part of the page
/// that is kept and not read into: an extension, or a tag, media or function; its `typeof` says which.
/// `Empty` is the mark of a call without output, and is inside groups alone.
#[derive(Clone, Copy, Debug, PartialEq, Eq)]
pub enum Kind {
    Body,
    Section(u32),
    Para,
    Heading(u8),
    Rule,
    Ul,
    Ol,
    Dl,
    Li,
    Dt,
    Dd,
    Pre,
    Table,
    Tbody,
    Tr,
    Caption,
    Td,
    Th,
    Bold,
    Italic,
    WikiLink,
    ExtLink,
    Category,
    Tag(TagName),
    Br,
    Entity,
    Nowiki,
    Island,
    Switch,
    Comment,
    Include,
    Skip,
    Sep,
    Text,
    Group,
    Empty,
}

/// What the plain view makes of a node: its characters, what it holds, nothing, or an element.
#[derive(Clone, Copy, Debug)]
pub enum Showing {
    Characters,
    Inside,
    Nothing,
    Element,
}

/// The names of attributes, in the order in which they are written.
#[derive(Clone, Copy, Debug, PartialEq, Eq)]
pub enum AttrName {
    About,
    Typeof,
    Property,
    Rel,
    Href,
    Class,
    Colspan,
    Rowspan,
    Scope,
    Lang,
    Dir,
    Id,
    DataMw,
    DataParsoid,
}
