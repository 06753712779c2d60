use crate::kind::{AttrName, Showing};

/// How a node is written: as its source, as an element without an end tag, as an element round its
/// character, as an element round its children, as the section of this number round its children, or
/// not by an element of its own (groups, and what is in them alone).
#[derive(Clone, Copy, Debug, PartialEq, Eq)]
pub enum Writing {
    AsText,
    AsVoid,
    RoundCharacter,
    RoundChildren,
    AsSection(u32),
    Unwritten,
}

/// Where an element may be. A `Section` is in the body and in sections. `Anywhere` is anywhere below
/// the body, and so are comments and include tags (`Mark`). `Nowhere` is what is in no other element by
/// a row of its own: the body, texts, separators and groups.
#[derive(Clone, Copy, Debug)]
pub enum Placement {
    Nowhere,
    Anywhere,
    Mark,
    Block,
    List,
    Item,
    Term,
    TablePart,
    TableRow,
    Cell,
    Inline,
    Character,
    Section,
}

/// Which elements an element holds beside those that may be anywhere. Where blocks are, sections do,
/// too. Those of an item, a cell or a caption have an order: the inline ones come first.
#[derive(Clone, Copy, Debug)]
pub enum Holding {
    NoElements,
    Blocks,
    Inlines,
    Entities,
    Items,
    Terms,
    TableParts,
    TableRows,
    Cells,
    InlinesThenLists,
    InlinesThenBlocks,
}

/// What text directly in an element is: separators alone, text of the page, text of the page up to a
/// border and separators after it, or the character that the element shows.
#[derive(Clone, Copy, Debug)]
pub enum Texts {
    Separators,
    Page,
    Bordered,
    OwnCharacter,
}

/// What a node has in `data-mw`: nothing, the tag of an extension where it is one, or the parts of a
/// group.
#[derive(Clone, Copy, Debug)]
pub enum Payload {
    NoData,
    ExtensionTag,
    GroupParts,
}

/// What a node of a kind is and where it may be.
#[derive(Clone, Copy, Debug)]
pub struct Shape {
    pub writing: Writing,
    pub is_leaf: bool,
    pub is_numbered: bool,
    pub showing: Showing,
    pub class: Placement,
    pub holding: Holding,
    pub texts: Texts,
    pub payload: Payload,
}

/// Which values an attribute may have that a node has of its own: one that tells an island, an include
/// tag or a switch, and must be there; or any, or any link, and it may be missing.
#[derive(Clone, Copy, Debug)]
pub enum Values {
    IslandType,
    IncludeType,
    SwitchName,
    Any,
    Link,
}

/// An attribute that a node may have of its own.
#[derive(Clone, Copy, Debug)]
pub struct Own {
    pub name: AttrName,
    pub values: Values,
}

/// An attribute that the kind alone decides.
#[derive(Clone, Copy, Debug)]
pub struct Fixed {
    pub name: AttrName,
    pub value: &'static [u8],
}

/// How a node of a kind is spelled: the name of its element, with a level after it where it has one;
/// its attributes, and the word by which a listing names it.
#[derive(Clone, Copy, Debug)]
pub struct Spelling {
    pub name: &'static [u8],
    pub level: Option<u8>,
    pub fixed: Option<Fixed>,
    pub own: &'static [Own],
    pub word: &'static [u8],
}
