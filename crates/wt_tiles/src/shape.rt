//! Tiles without their items.

/// What a tile is. `Chars` are characters in which no other tile begins; `Pair` is a tag with its
/// closing tag and what is between, `TagIsland` any other tag that counts but `Br`. `Atom` is
/// one entity, `nowiki`, extension or function, and `Mark` one invisible mark.
#[derive(Clone, Copy, Debug, PartialEq, Eq)]
pub enum TileKind {
    Link,
    Category,
    Media,
    ExtLink,
    BareUrl,
    Br,
    Pair,
    TagIsland,
    Switch,
    Atom,
    Mark,
    Chars,
}

/// A tile without its items: what it is, and of how many items each of its parts is. A byte of a
/// character is an item, and so is any other form.
#[derive(Clone, Copy, Debug, PartialEq, Eq)]
pub struct Shape {
    pub kind: TileKind,
    /// The opening delimiter; of a leaf the whole.
    pub opening: usize,
    /// What is between the delimiters. Of a bare URL and of characters it is the whole.
    pub inside: usize,
    /// The closing delimiter.
    pub closing: usize,
    /// The letters after a link's `]]` that join it.
    pub trail: usize,
}
