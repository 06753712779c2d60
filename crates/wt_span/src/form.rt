use crate::list::List;
use crate::origin::Origin;
use crate::range::Range;
use crate::str::Str;
use crate::text::Text;

/// How a text is read: as the page itself, or as the text of a template, where other include tags
/// count.
#[derive(Clone, Copy, Debug, PartialEq, Eq)]
pub enum Mode {
    Page,
    Template,
}

/// What a lexeme is. `Chars` is a run of characters at none of which a form begins.
///
/// The forms are those of MediaWiki's preprocessor: a `CommentLine` is a line of comments and
/// blanks with its line break, `Raw` a `nowiki` or extension tag with its inside, `Include` an
/// include tag that is alone, and `Hidden` an include tag with an inside that isn't shown.
/// `Opens` and `Closes` are runs of two or more braces.
#[derive(Clone, Copy, Debug, PartialEq, Eq)]
pub enum LexKind {
    Chars,
    CommentLine,
    Comment,
    Raw,
    Include,
    Hidden,
    Entity(char),
    Opens,
    Closes,
    LinkOpen,
    LinkClose,
    Pipe,
    Equals,
}

/// What the text of a piece is. `Chars` are characters, each an item of its own; any other text is
/// one item. `Entity`, `Nowiki`, `Extension` and `Function` are atoms, the rest are invisible
/// marks. An `EmptyCall` is an outermost call or argument whose output is empty.
#[derive(Clone, Copy, Debug, PartialEq, Eq)]
pub enum ItemForm {
    Chars,
    Entity(char),
    Nowiki,
    Extension,
    Function,
    Comment,
    Include,
    Hidden,
    EmptyCall,
}

/// Items of one form and one origin that are next to each other, with their text.
#[derive(Clone, Copy, Debug)]
pub struct Piece<'a> {
    pub text: Text<'a>,
    pub form: ItemForm,
    pub origin: Origin,
}

/// An outermost call or argument of the page.
#[derive(Debug, Drop)]
pub struct Outer<'a> {
    /// From its first brace to its last.
    pub source: Text<'a>,
    /// Three braces made it, and not two.
    pub argument: bool,
    /// The target, and then each further part, without the pipes between them.
    pub parts: List<Range>,
    /// For each part the place of the `=` that ends its name, in bytes of the page.
    pub equals: List<Option<u32>>,
    /// The link to the page that is called; an argument and a parser function have none.
    pub href: Option<Str>,
}
