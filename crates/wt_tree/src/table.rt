//! The table of kinds in code: a row for each kind.
ghost use Rattle.std.specs.Prelude.{◌≡◌, [], None, Some, false, true};
ghost use Rattle.wt_tree.specs.Kinds.{
  row,
  shape,
  is_leaf,
  is_numbered,
  showing,
  writing,
  admits,
  is_anywhere,
  may_hold,
  is_mark,
  is_section,
  is_block,
  is_inline,
  may_follow,
  spelled,
  tag_name,
  own,
  page_link,
  link,
  island_type,
  include_type,
  switch_name,
  styles,
  tag_own,
  fixed_of,
  spelling,
  spelling_of,
  attribute_name,
  order,
};
ghost use Rattle.wt_tree.specs.Tiling.{is_group};
ghost use Rattle.wt_tree.specs.declared.kind.AttrName.TheVariants as attr;
ghost use Rattle.wt_tree.specs.declared.kind.Showing.TheVariants.{Element};
ghost use Rattle.wt_tree.specs.declared.row.Holding.TheVariants.{NoElements};
ghost use Rattle.wt_tree.specs.declared.row.Payload.TheVariants.{NoData};
ghost use Rattle.wt_tree.specs.declared.row.Placement.TheVariants.{Nowhere};
ghost use Rattle.wt_tree.specs.declared.row.Texts.TheVariants.{Page};
ghost use Rattle.wt_tree.specs.declared.row.Writing.TheVariants.{AsText, AsVoid, RoundChildren, Unwritten};

use crate::kind::Showing::{Characters, Element, Inside, Nothing};
use crate::kind::{AttrName, Kind, Showing};
use crate::row::Holding::{
    Blocks, Cells, Entities, Inlines, InlinesThenBlocks, InlinesThenLists, Items, NoElements,
    TableParts, TableRows, Terms,
};
use crate::row::Payload::{ExtensionTag, GroupParts, NoData};
use crate::row::Placement::{
    Anywhere, Block, Cell, Character, Inline, Item, List, Mark, Nowhere, Section, TablePart,
    TableRow, Term,
};
use crate::row::Texts::{Bordered, OwnCharacter, Page, Separators};
use crate::row::Writing::{AsSection, AsText, AsVoid, RoundCharacter, RoundChildren, Unwritten};
use crate::row::{
    Fixed, Holding, Own, Payload, Placement, Shape, Spelling, Texts, Values, Writing,
};
use wt_span::TagName;

/// An element round its children.
fn element(class: Placement, holding: Holding, texts: Texts) -> Shape
    ensures { result ≡ row RoundChildren false true Element class holding texts NoData }
{
    Shape {
        writing: RoundChildren,
        is_leaf: false,
        is_numbered: true,
        showing: Element,
        class,
        holding,
        texts,
        payload: NoData,
    }
}

/// An element without an end tag.
fn void_element(showing: Showing, class: Placement) -> Shape
    ensures { result ≡ row AsVoid true true showing class NoElements Page NoData }
{
    Shape {
        writing: AsVoid,
        is_leaf: true,
        is_numbered: true,
        showing,
        class,
        holding: NoElements,
        texts: Page,
        payload: NoData,
    }
}

/// A text that is written as it is.
fn written_text(showing: Showing, texts: Texts) -> Shape
    ensures { result ≡ row AsText true false showing Nowhere NoElements texts NoData }
{
    Shape {
        writing: AsText,
        is_leaf: true,
        is_numbered: false,
        showing,
        class: Nowhere,
        holding: NoElements,
        texts,
        payload: NoData,
    }
}

/// What no element of its own is written for.
fn unwritten(showing: Showing, payload: Payload) -> Shape
    ensures { result ≡ row Unwritten true true showing Nowhere NoElements Page payload }
{
    Shape {
        writing: Unwritten,
        is_leaf: true,
        is_numbered: true,
        showing,
        class: Nowhere,
        holding: NoElements,
        texts: Page,
        payload,
    }
}

fn spelled(
    name: &'static [u8],
    level: Option<u8>,
    fixed: Option<Fixed>,
    own: &'static [Own],
    word: &'static [u8],
) -> Spelling
    ensures { spelling_of result ≡ spelled name.now level (fixed_of fixed) own.now word.now }
{
    Spelling {
        name,
        level,
        fixed,
        own,
        word,
    }
}

fn fixed(name: AttrName, value: &'static [u8]) -> Option<Fixed>
    ensures { fixed_of result ≡ Some (name, value.now) }
{
    Some(Fixed { name, value })
}

/// A kind without attributes.
fn plain(name: &'static [u8], word: &'static [u8]) -> Spelling
    ensures { spelling_of result ≡ spelled name.now None None [] word.now }
{
    spelled(name, None, None, &[], word)
}

/// A kind with attributes of its own alone.
fn owning(name: &'static [u8], own: &'static [Own], word: &'static [u8]) -> Spelling
    ensures { spelling_of result ≡ spelled name.now None None own.now word.now }
{
    spelled(name, None, None, own, word)
}

/// A kind that its type alone tells.
fn typed(name: &'static [u8], value: &'static [u8], word: &'static [u8]) -> Spelling
    ensures { spelling_of result ≡ spelled name.now None (Some (attr.Typeof, value.now)) [] word.now }
{
    spelled(name, None, fixed(AttrName::Typeof, value), &[], word)
}

#[tactic(auto, unfolding(crate::specs::Kinds::tag_name))]
fn name_of_tag(tag: TagName) -> &'static [u8]
    ensures { result.now ≡ tag_name tag }
{
    match tag {
        TagName::Sup => b"sup",
        TagName::Sub => b"sub",
        TagName::Small => b"small",
        TagName::S => b"s",
        TagName::U => b"u",
        TagName::Code => b"code",
        TagName::Span => b"span",
    }
}

fn page_link() -> &'static [Own]
    ensures { result.now ≡ page_link }
{
    &[Own {
        name: AttrName::Href,
        values: Values::Link,
    }]
}

fn link() -> &'static [Own]
    ensures { result.now ≡ link }
{
    &[Own {
        name: AttrName::Href,
        values: Values::Any,
    }]
}

fn island_type() -> &'static [Own]
    ensures { result.now ≡ island_type }
{
    &[Own {
        name: AttrName::Typeof,
        values: Values::IslandType,
    }]
}

fn include_type() -> &'static [Own]
    ensures { result.now ≡ include_type }
{
    &[Own {
        name: AttrName::Typeof,
        values: Values::IncludeType,
    }]
}

fn switch_name() -> &'static [Own]
    ensures { result.now ≡ switch_name }
{
    &[Own {
        name: AttrName::Property,
        values: Values::SwitchName,
    }]
}

fn styles() -> &'static [Own]
    ensures { result.now ≡ styles }
{
    &[
        Own {
            name: AttrName::Class,
            values: Values::Any,
        },
        Own {
            name: AttrName::Colspan,
            values: Values::Any,
        },
        Own {
            name: AttrName::Rowspan,
            values: Values::Any,
        },
        Own {
            name: AttrName::Scope,
            values: Values::Any,
        },
        Own {
            name: AttrName::Lang,
            values: Values::Any,
        },
        Own {
            name: AttrName::Dir,
            values: Values::Any,
        },
    ]
}

fn own_of_tag(tag: TagName) -> &'static [Own]
    ensures { result.now ≡ tag_own tag }
{
    match tag {
        TagName::Span => styles(),
        _ => &[],
    }
}

impl Kind {
    /// What a node of this kind is and where it may be.
    pub fn shape(self) -> Shape
        ensures { result ≡ shape self }
    {
        match self {
            Kind::Body => Shape {
                writing: RoundChildren,
                is_leaf: false,
                is_numbered: false,
                showing: Element,
                class: Nowhere,
                holding: Blocks,
                texts: Separators,
                payload: NoData,
            },
            Kind::Section(number) => Shape {
                writing: AsSection(number),
                is_leaf: false,
                is_numbered: false,
                showing: Inside,
                class: Section,
                holding: Blocks,
                texts: Separators,
                payload: NoData,
            },
            Kind::Para => element(Block, Inlines, Page),
            Kind::Heading(_) => element(Block, Inlines, Page),
            Kind::Rule => void_element(Element, Block),
            Kind::Ul => element(List, Items, Separators),
            Kind::Ol => element(List, Items, Separators),
            Kind::Dl => element(List, Terms, Separators),
            Kind::Li => element(Item, InlinesThenLists, Bordered),
            Kind::Dt => element(Term, InlinesThenLists, Bordered),
            Kind::Dd => element(Term, InlinesThenLists, Bordered),
            Kind::Pre => element(Block, Inlines, Page),
            Kind::Table => element(Block, TableParts, Separators),
            Kind::Tbody => element(TablePart, TableRows, Separators),
            Kind::Tr => element(TableRow, Cells, Separators),
            Kind::Caption => element(TablePart, InlinesThenBlocks, Bordered),
            Kind::Td => element(Cell, InlinesThenBlocks, Bordered),
            Kind::Th => element(Cell, InlinesThenBlocks, Bordered),
            Kind::Bold => element(Inline, Inlines, Page),
            Kind::Italic => element(Inline, Inlines, Page),
            Kind::WikiLink => element(Inline, Inlines, Page),
            Kind::ExtLink => element(Inline, Inlines, Page),
            Kind::Category => void_element(Element, Anywhere),
            Kind::Tag(_) => element(Inline, Inlines, Page),
            Kind::Br => void_element(Element, Inline),
            Kind::Entity => Shape {
                writing: RoundCharacter,
                is_leaf: true,
                is_numbered: true,
                showing: Characters,
                class: Character,
                holding: NoElements,
                texts: OwnCharacter,
                payload: NoData,
            },
            Kind::Nowiki => Shape {
                writing: RoundChildren,
                is_leaf: false,
                is_numbered: true,
                showing: Inside,
                class: Inline,
                holding: Entities,
                texts: Page,
                payload: NoData,
            },
            Kind::Island => Shape {
                writing: RoundChildren,
                is_leaf: true,
                is_numbered: true,
                showing: Element,
                class: Inline,
                holding: NoElements,
                texts: Page,
                payload: ExtensionTag,
            },
            Kind::Switch => void_element(Element, Anywhere),
            Kind::Comment => void_element(Nothing, Mark),
            Kind::Include => void_element(Nothing, Mark),
            Kind::Skip => void_element(Nothing, Anywhere),
            Kind::Sep => written_text(Nothing, Separators),
            Kind::Text => written_text(Characters, Page),
            Kind::Group => unwritten(Inside, GroupParts),
            Kind::Empty => unwritten(Nothing, NoData),
        }
    }

    /// How a node of this kind is spelled.
    #[tactic(auto, unfolding(crate::specs::Kinds::spelling))]
    pub fn spelling(self) -> Spelling
        ensures { spelling_of result ≡ spelling self }
    {
        match self {
            Kind::Body => plain(b"body", b""),
            Kind::Section(_) => plain(b"section", b""),
            Kind::Para => plain(b"p", b"p"),
            Kind::Heading(level) => spelled(b"h", Some(level), None, &[], b"h"),
            Kind::Rule => plain(b"hr", b"hr"),
            Kind::Ul => plain(b"ul", b"ul"),
            Kind::Ol => plain(b"ol", b"ol"),
            Kind::Dl => plain(b"dl", b"dl"),
            Kind::Li => plain(b"li", b"li"),
            Kind::Dt => plain(b"dt", b"dt"),
            Kind::Dd => plain(b"dd", b"dd"),
            Kind::Pre => plain(b"pre", b"pre"),
            Kind::Table => owning(b"table", styles(), b"table"),
            Kind::Tbody => plain(b"tbody", b"tbody"),
            Kind::Tr => owning(b"tr", styles(), b"tr"),
            Kind::Caption => owning(b"caption", styles(), b"caption"),
            Kind::Td => owning(b"td", styles(), b"td"),
            Kind::Th => owning(b"th", styles(), b"th"),
            Kind::Bold => plain(b"b", b"b"),
            Kind::Italic => plain(b"i", b"i"),
            Kind::WikiLink => spelled(
                b"a",
                None,
                fixed(AttrName::Rel, b"mw:WikiLink"),
                page_link(),
                b"wikilink",
            ),
            Kind::ExtLink => spelled(
                b"a",
                None,
                fixed(AttrName::Rel, b"mw:ExtLink"),
                link(),
                b"extlink",
            ),
            Kind::Category => spelled(
                b"link",
                None,
                fixed(AttrName::Rel, b"mw:PageProp/Category"),
                link(),
                b"category",
            ),
            Kind::Tag(tag) => owning(name_of_tag(tag), own_of_tag(tag), b"tag"),
            Kind::Br => plain(b"br", b"br"),
            Kind::Entity => typed(b"span", b"mw:Entity", b"entity"),
            Kind::Nowiki => typed(b"span", b"mw:Nowiki", b"nowiki"),
            Kind::Island => owning(b"span", island_type(), b"island"),
            Kind::Switch => owning(b"meta", switch_name(), b"switch"),
            Kind::Comment => typed(b"meta", b"mw:Comment", b"comment"),
            Kind::Include => owning(b"meta", include_type(), b"include"),
            Kind::Skip => typed(b"meta", b"mw:Skip", b"skip"),
            Kind::Sep => plain(b"", b""),
            Kind::Text => plain(b"", b""),
            Kind::Group => plain(b"", b"group"),
            Kind::Empty => plain(b"", b""),
        }
    }

    /// The name of its element, without a level.
    pub fn name(self) -> &'static [u8]
        ensures { result.now ≡ (spelling self).name }
    {
        self.spelling().name
    }

    /// The level after the name, where the kind has one.
    pub fn level(self) -> Option<u8>
        ensures { result ≡ (spelling self).level }
    {
        self.spelling().level
    }

    /// The attribute that the kind alone decides.
    pub fn fixed(self) -> Option<Fixed>
        ensures { fixed_of result ≡ (spelling self).fixed }
    {
        self.spelling().fixed
    }

    /// The attributes that a node of this kind may have of its own, in their order.
    pub fn own(self) -> &'static [Own]
        ensures { result.now ≡ (spelling self).own }
    {
        self.spelling().own
    }

    /// The word by which a listing names the kind, without a level.
    pub fn word(self) -> &'static [u8]
        ensures { result.now ≡ (spelling self).word }
    {
        self.spelling().word
    }

    /// How a node of this kind is written.
    pub fn writing(self) -> Writing
        ensures { result ≡ writing self }
    {
        self.shape().writing
    }

    /// Whether nodes of this kind have a number: all but the body, sections, texts and separators.
    pub fn is_numbered(self) -> bool
        ensures { result ≡ is_numbered self }
    {
        self.shape().is_numbered
    }

    /// What the plain view makes of a node of this kind.
    pub fn showing(self) -> Showing
        ensures { result ≡ showing self }
    {
        self.shape().showing
    }

    /// Whether a node of this kind has a source of its own and not that of its children.
    pub fn is_leaf(self) -> bool
        ensures { result ≡ is_leaf self }
    {
        self.shape().is_leaf
    }

    /// Whether an element of the kind `inner` may be directly in one of this kind.
    pub fn may_hold(self, inner: Kind) -> bool
        ensures { result ≡ may_hold self inner }
    {
        let class = inner.shape().class;
        class.is_anywhere() || self.shape().holding.admits(class)
    }

    /// Whether it is a comment or an include tag.
    pub fn is_mark(self) -> bool
        ensures { result ≡ is_mark self }
    {
        matches!(self.shape().class, Placement::Mark)
    }

    /// Whether it is a group.
    pub fn is_group(self) -> bool
        ensures { result ≡ is_group self }
    {
        matches!(self, Kind::Group)
    }

    /// Whether it is a section.
    pub fn is_section(self) -> bool
        ensures { result ≡ is_section self }
    {
        matches!(self.shape().class, Section)
    }

    /// Whether it is a block or a list.
    pub fn is_block(self) -> bool
        ensures { result ≡ is_block self }
    {
        matches!(self.shape().class, Block | List)
    }

    fn is_inline(self) -> bool
        ensures { result ≡ is_inline self }
    {
        matches!(self.shape().class, Inline | Character)
    }

    /// Whether an element of this kind may be where a block or a list comes before it in its
    /// parent (`behind`), or doesn't: no inline element comes after a block.
    pub fn may_follow(self, behind: bool) -> bool
        ensures { result ≡ may_follow behind self }
    {
        !(behind && self.is_inline())
    }
}

impl Placement {
    fn is_anywhere(self) -> bool
        ensures { result ≡ is_anywhere self }
    {
        matches!(self, Placement::Anywhere | Placement::Mark)
    }
}

impl Holding {
    /// Whether elements of this class are among those that are held.
    pub fn admits(self, class: Placement) -> bool
        ensures { result ≡ admits self class }
    {
        match self {
            NoElements => false,
            Blocks => matches!(class, Block | List | Section),
            Inlines => matches!(class, Inline | Character),
            Entities => matches!(class, Character),
            Items => matches!(class, Item),
            Terms => matches!(class, Term),
            TableParts => matches!(class, TablePart),
            TableRows => matches!(class, TableRow),
            Cells => matches!(class, Cell),
            InlinesThenLists => matches!(class, Inline | Character | List),
            InlinesThenBlocks => matches!(class, Inline | Character | Block | List),
        }
    }
}

impl AttrName {
    /// The name as it is written.
    #[tactic(auto, unfolding(crate::specs::Kinds::attribute_name))]
    pub fn text(self) -> &'static [u8]
        ensures { result.now ≡ attribute_name self }
    {
        match self {
            AttrName::About => b"about",
            AttrName::Typeof => b"typeof",
            AttrName::Property => b"property",
            AttrName::Rel => b"rel",
            AttrName::Href => b"href",
            AttrName::Class => b"class",
            AttrName::Colspan => b"colspan",
            AttrName::Rowspan => b"rowspan",
            AttrName::Scope => b"scope",
            AttrName::Lang => b"lang",
            AttrName::Dir => b"dir",
            AttrName::Id => b"id",
            AttrName::DataMw => b"data-mw",
            AttrName::DataParsoid => b"data-parsoid",
        }
    }

    /// Its place in the order in which attributes are written.
    pub fn order(self) -> u8
        ensures { result ≡ order self }
    {
        match self {
            AttrName::About => 0,
            AttrName::Typeof => 1,
            AttrName::Property => 2,
            AttrName::Rel => 3,
            AttrName::Href => 4,
            AttrName::Class => 5,
            AttrName::Colspan => 6,
            AttrName::Rowspan => 7,
            AttrName::Scope => 8,
            AttrName::Lang => 9,
            AttrName::Dir => 10,
            AttrName::Id => 11,
            AttrName::DataMw => 12,
            AttrName::DataParsoid => 13,
        }
    }
}
