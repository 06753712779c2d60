//! The table of kinds, as edits see them: the third row of each kind.

ghost use Rattle.std.specs.Prelude.{◌≡◌};
ghost use Rattle.wt_tree.specs.EditShapes.{edit_row, edit_shape};

use crate::kind::Kind;

/// The items of a node: those of its delimiters round those of what it holds; the characters of its
/// source; one that is neither a blank, a line break, an apostrophe nor `=`; one that is invisible;
/// or those of the nodes that it shows.
#[derive(Clone, Copy, Debug)]
pub enum ItemsOf {
    Delimited,
    Characters,
    Opaque,
    Invisible,
    Nodes,
}

/// What a node is to its neighbours as it is in the page. A `Url` is bare or in brackets, by its
/// delimiter; an `Island` is a function of the preprocessor or not, by its source.
#[derive(Clone, Copy, Debug)]
pub enum Sort {
    PageLink,
    Url,
    Switch,
    Mark,
    Group,
    Island,
    Other,
}

/// How a node of the edited content is written, where it is new or changed. `Shown` are the
/// characters that it shows; `AsItStood` is its slice of the page whatever was changed.
#[derive(Clone, Copy, Debug)]
pub enum InlineForm {
    Nothing,
    Characters,
    Bold,
    Italic,
    Shown,
    PageLink,
    ExternalLink,
    Tag,
    Break,
    AsItStood,
}

/// What a new block is written with.
#[derive(Clone, Copy, Debug)]
pub enum BlockForm {
    Paragraph,
    Heading(u8),
    Rule,
    Item,
    NoBlock,
}

/// Which mark a node of a kind may have.
#[derive(Clone, Copy, Debug)]
pub enum Editing {
    /// None.
    Never,
    /// `content`.
    Content,
    /// `content`, where the page's node has inline children only.
    InlineContent,
    /// `children`.
    Children,
    /// `children`, where the page's node is a child of the body.
    TopChildren,
}

/// What the content is in. `Term` is the term of a definition (`;`), `Header` a header cell
/// (`!`); `Item` is any other item of a list, and `Cell` any other cell or a caption.
#[derive(Clone, Copy, Debug, PartialEq, Eq)]
pub enum Place {
    Paragraph,
    Heading,
    Item,
    Term,
    Cell,
    Header,
}

/// The row of a kind.
#[derive(Clone, Copy, Debug)]
pub struct EditShape {
    pub items: ItemsOf,
    pub sort: Sort,
    pub inline: InlineForm,
    pub form: BlockForm,
    pub mark: Editing,
    pub place: Place,
}

fn row(
    items: ItemsOf,
    sort: Sort,
    inline: InlineForm,
    form: BlockForm,
    mark: Editing,
    place: Place,
) -> EditShape
    ensures { result ≡ edit_row items sort inline form mark place }
{
    EditShape {
        items,
        sort,
        inline,
        form,
        mark,
        place,
    }
}

impl Kind {
    /// What an edit asks of a node of this kind.
    pub fn edit_shape(self) -> EditShape
        ensures { result ≡ edit_shape self }
    {
        match self {
            Kind::Body => row(
                ItemsOf::Delimited,
                Sort::Other,
                InlineForm::AsItStood,
                BlockForm::NoBlock,
                Editing::Children,
                Place::Paragraph,
            ),
            Kind::Section(_) => row(
                ItemsOf::Delimited,
                Sort::Other,
                InlineForm::AsItStood,
                BlockForm::NoBlock,
                Editing::Never,
                Place::Paragraph,
            ),
            Kind::Para => row(
                ItemsOf::Delimited,
                Sort::Other,
                InlineForm::AsItStood,
                BlockForm::Paragraph,
                Editing::Content,
                Place::Paragraph,
            ),
            Kind::Heading(n) => row(
                ItemsOf::Delimited,
                Sort::Other,
                InlineForm::AsItStood,
                BlockForm::Heading(n),
                Editing::Content,
                Place::Heading,
            ),
            Kind::Rule => row(
                ItemsOf::Opaque,
                Sort::Other,
                InlineForm::AsItStood,
                BlockForm::Rule,
                Editing::Never,
                Place::Paragraph,
            ),
            Kind::Ul => row(
                ItemsOf::Delimited,
                Sort::Other,
                InlineForm::AsItStood,
                BlockForm::NoBlock,
                Editing::TopChildren,
                Place::Paragraph,
            ),
            Kind::Ol => row(
                ItemsOf::Delimited,
                Sort::Other,
                InlineForm::AsItStood,
                BlockForm::NoBlock,
                Editing::TopChildren,
                Place::Paragraph,
            ),
            Kind::Dl => row(
                ItemsOf::Delimited,
                Sort::Other,
                InlineForm::AsItStood,
                BlockForm::NoBlock,
                Editing::Never,
                Place::Paragraph,
            ),
            Kind::Li => row(
                ItemsOf::Delimited,
                Sort::Other,
                InlineForm::AsItStood,
                BlockForm::Item,
                Editing::InlineContent,
                Place::Item,
            ),
            Kind::Dt => row(
                ItemsOf::Delimited,
                Sort::Other,
                InlineForm::AsItStood,
                BlockForm::NoBlock,
                Editing::InlineContent,
                Place::Term,
            ),
            Kind::Dd => row(
                ItemsOf::Delimited,
                Sort::Other,
                InlineForm::AsItStood,
                BlockForm::NoBlock,
                Editing::InlineContent,
                Place::Item,
            ),
            Kind::Pre => row(
                ItemsOf::Delimited,
                Sort::Other,
                InlineForm::AsItStood,
                BlockForm::NoBlock,
                Editing::Never,
                Place::Paragraph,
            ),
            Kind::Table => row(
                ItemsOf::Delimited,
                Sort::Other,
                InlineForm::AsItStood,
                BlockForm::NoBlock,
                Editing::Never,
                Place::Paragraph,
            ),
            Kind::Tbody => row(
                ItemsOf::Delimited,
                Sort::Other,
                InlineForm::AsItStood,
                BlockForm::NoBlock,
                Editing::Never,
                Place::Paragraph,
            ),
            Kind::Tr => row(
                ItemsOf::Delimited,
                Sort::Other,
                InlineForm::AsItStood,
                BlockForm::NoBlock,
                Editing::Never,
                Place::Paragraph,
            ),
            Kind::Caption => row(
                ItemsOf::Delimited,
                Sort::Other,
                InlineForm::AsItStood,
                BlockForm::NoBlock,
                Editing::InlineContent,
                Place::Cell,
            ),
            Kind::Td => row(
                ItemsOf::Delimited,
                Sort::Other,
                InlineForm::AsItStood,
                BlockForm::NoBlock,
                Editing::InlineContent,
                Place::Cell,
            ),
            Kind::Th => row(
                ItemsOf::Delimited,
                Sort::Other,
                InlineForm::AsItStood,
                BlockForm::NoBlock,
                Editing::InlineContent,
                Place::Header,
            ),
            Kind::Bold => row(
                ItemsOf::Delimited,
                Sort::Other,
                InlineForm::Bold,
                BlockForm::NoBlock,
                Editing::Never,
                Place::Paragraph,
            ),
            Kind::Italic => row(
                ItemsOf::Delimited,
                Sort::Other,
                InlineForm::Italic,
                BlockForm::NoBlock,
                Editing::Never,
                Place::Paragraph,
            ),
            Kind::WikiLink => row(
                ItemsOf::Delimited,
                Sort::PageLink,
                InlineForm::PageLink,
                BlockForm::NoBlock,
                Editing::Never,
                Place::Paragraph,
            ),
            Kind::ExtLink => row(
                ItemsOf::Delimited,
                Sort::Url,
                InlineForm::ExternalLink,
                BlockForm::NoBlock,
                Editing::Never,
                Place::Paragraph,
            ),
            Kind::Category => row(
                ItemsOf::Opaque,
                Sort::Other,
                InlineForm::AsItStood,
                BlockForm::NoBlock,
                Editing::Never,
                Place::Paragraph,
            ),
            Kind::Tag(_) => row(
                ItemsOf::Delimited,
                Sort::Other,
                InlineForm::Tag,
                BlockForm::NoBlock,
                Editing::Never,
                Place::Paragraph,
            ),
            Kind::Br => row(
                ItemsOf::Opaque,
                Sort::Other,
                InlineForm::Break,
                BlockForm::NoBlock,
                Editing::Never,
                Place::Paragraph,
            ),
            Kind::Entity => row(
                ItemsOf::Opaque,
                Sort::Other,
                InlineForm::Shown,
                BlockForm::NoBlock,
                Editing::Never,
                Place::Paragraph,
            ),
            Kind::Nowiki => row(
                ItemsOf::Delimited,
                Sort::Other,
                InlineForm::Shown,
                BlockForm::NoBlock,
                Editing::Never,
                Place::Paragraph,
            ),
            Kind::Island => row(
                ItemsOf::Opaque,
                Sort::Island,
                InlineForm::AsItStood,
                BlockForm::NoBlock,
                Editing::Never,
                Place::Paragraph,
            ),
            Kind::Switch => row(
                ItemsOf::Opaque,
                Sort::Switch,
                InlineForm::AsItStood,
                BlockForm::NoBlock,
                Editing::Never,
                Place::Paragraph,
            ),
            Kind::Comment => row(
                ItemsOf::Invisible,
                Sort::Mark,
                InlineForm::AsItStood,
                BlockForm::NoBlock,
                Editing::Never,
                Place::Paragraph,
            ),
            Kind::Include => row(
                ItemsOf::Invisible,
                Sort::Mark,
                InlineForm::AsItStood,
                BlockForm::NoBlock,
                Editing::Never,
                Place::Paragraph,
            ),
            Kind::Skip => row(
                ItemsOf::Characters,
                Sort::Other,
                InlineForm::AsItStood,
                BlockForm::NoBlock,
                Editing::Never,
                Place::Paragraph,
            ),
            Kind::Sep => row(
                ItemsOf::Characters,
                Sort::Other,
                InlineForm::Nothing,
                BlockForm::NoBlock,
                Editing::Never,
                Place::Paragraph,
            ),
            Kind::Text => row(
                ItemsOf::Characters,
                Sort::Other,
                InlineForm::Characters,
                BlockForm::NoBlock,
                Editing::Never,
                Place::Paragraph,
            ),
            Kind::Group => row(
                ItemsOf::Nodes,
                Sort::Group,
                InlineForm::AsItStood,
                BlockForm::NoBlock,
                Editing::Never,
                Place::Paragraph,
            ),
            Kind::Empty => row(
                ItemsOf::Invisible,
                Sort::Other,
                InlineForm::AsItStood,
                BlockForm::NoBlock,
                Editing::Never,
                Place::Paragraph,
            ),
        }
    }
}
