//! Where a node is.

ghost use Rattle.std.specs.Prelude.{◌≡◌};
ghost use Rattle.wt_tree.specs.Tiling.{is_group};
ghost use Rattle.wt_lint.specs.Nodes.{below, is_nowiki, is_table, paragraph_below, sort_of, top};

use wt_tree::Kind;

/// What is looked for in a node.
#[derive(Clone, Copy, Debug)]
pub enum Sort {
    /// Bold or italic text.
    Style,
    Group,
    Paragraph,
    Table,
    Nowiki,
    Text,
    Island,
    Heading,
    Category,
    /// Nothing.
    Other,
}

pub fn sort_of(kind: Kind) -> Sort
    ensures { result ≡ sort_of kind }
{
    match kind {
        Kind::Bold => Sort::Style,
        Kind::Italic => Sort::Style,
        Kind::Group => Sort::Group,
        Kind::Para => Sort::Paragraph,
        Kind::Table => Sort::Table,
        Kind::Nowiki => Sort::Nowiki,
        Kind::Text => Sort::Text,
        Kind::Island => Sort::Island,
        Kind::Heading(_) => Sort::Heading,
        Kind::Category => Sort::Category,
        Kind::Body | Kind::Section(_) | Kind::Rule | Kind::Pre => Sort::Other,
        Kind::Br | Kind::Entity => Sort::Other,
        Kind::Ul | Kind::Ol | Kind::Dl | Kind::Li | Kind::Dt | Kind::Dd => Sort::Other,
        Kind::Tbody | Kind::Tr | Kind::Caption | Kind::Td | Kind::Th => Sort::Other,
        Kind::WikiLink | Kind::ExtLink | Kind::Tag(_) => Sort::Other,
        Kind::Switch | Kind::Comment | Kind::Include | Kind::Skip => Sort::Other,
        Kind::Sep | Kind::Empty => Sort::Other,
    }
}

/// Whether a node is in a table or in a `nowiki`, and, of what is directly in a paragraph that is
/// in no table, where the paragraph begins.
#[derive(Clone, Copy, Debug)]
pub struct Place {
    pub in_table: bool,
    pub in_nowiki: bool,
    pub paragraph: Option<u32>,
}

/// Where a body is.
pub fn top() -> Place
    ensures { result ≡ top }
{
    Place {
        in_table: false,
        in_nowiki: false,
        paragraph: None,
    }
}

fn is_table(sort: Sort) -> bool
    ensures { result ≡ is_table sort }
{
    matches!(sort, Sort::Table)
}

fn is_nowiki(sort: Sort) -> bool
    ensures { result ≡ is_nowiki sort }
{
    matches!(sort, Sort::Nowiki)
}

/// Whether a node of this kind is a group.
pub fn is_group(kind: Kind) -> bool
    ensures { result ≡ is_group kind }
{
    matches!(kind, Kind::Group)
}

fn paragraph_below(in_table: bool, sort: Sort, start: u32) -> Option<u32>
    ensures { result ≡ paragraph_below in_table sort start }
{
    match sort {
        Sort::Paragraph => { if in_table { None } else { Some(start) } }
        Sort::Style | Sort::Group | Sort::Table | Sort::Nowiki | Sort::Text => None,
        Sort::Island | Sort::Heading | Sort::Category | Sort::Other => None,
    }
}

/// Where what is directly in a node is; the node begins at `start`.
pub fn below(place: Place, sort: Sort, start: u32) -> Place
    ensures { result ≡ below place sort start }
{
    Place {
        in_table: place.in_table || is_table(sort),
        in_nowiki: place.in_nowiki || is_nowiki(sort),
        paragraph: paragraph_below(place.in_table, sort, start),
    }
}
