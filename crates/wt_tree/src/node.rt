ghost use Rattle.std.specs.Prelude.{◌≡◌, option_copied};
ghost use Rattle.wt_tree.specs.Leaves.{leaf_label};
ghost use Rattle.wt_tree.specs.Tree.{tree, none};
ghost use Rattle.wt_tree.specs.View.{texts_of, view};
ghost use Rattle.wt_tree.specs.declared.node.Node.{out-Node};

use crate::kind::{AttrName, Kind, Mark, Ranges};
use crate::more::More;
use crate::node_source::Source;
use crate::shown::Shown;
use crate::slices::Slices;
use std::alloc::Global;
use wt_span::{List, Str, Text};

/// An attribute of an element, with its value as characters (not escaped).
#[derive(Debug, Drop, PartialEq)]
pub struct Attr {
    pub name: AttrName,
    pub value: Str,
}

/// A part of a group of templates: a transclusion with its target as written, the link to its title,
/// its parameters and its number among the group's calls; a parser function likewise, with its name
/// (`if`, `ifeq` or `switch`) in place of the link; an argument by its source; or the slice of the page
/// between two of these.
#[derive(Debug, Drop, PartialEq)]
pub enum Part {
    Template {
        target: Str,
        href: Str,
        params: List<(Str, Str)>,
        i: u32,
    },
    Function {
        name: Str,
        target: Str,
        params: List<(Str, Str)>,
        i: u32,
    },
    Param {
        wt: Str,
    },
    Literal(Str),
}

/// What `data-mw` holds: the parts of a group, or the name and the inside of an extension tag (none
/// where the tag closes itself).
#[derive(Debug, Drop, PartialEq)]
pub enum DataMw {
    Parts(List<Part>),
    Extension { name: Str, body: Option<Str> },
}

/// A node of a page's tree, or of an edited one.
///
/// `id` is its number, 0 where it has none. What it has of its source, and what few nodes have, is
/// read by the methods.
#[derive(Drop)]
pub struct Node<'a> {
    pub kind: Kind,
    pub id: u32,
    pub ranges: Option<Ranges>,
    pub source: Source<'a>,
    pub more: More,
    pub children: List<Node<'a>>,
}

impl<'a> Node<'a> {
    /// A leaf without a number that has a source and nothing else.
    pub fn leaf(
        alloc: Global,
        kind: Kind,
        ranges: Option<Ranges>,
        own: Slices<'a>,
        shown: Shown<'a>,
    ) -> Node<'a>
        ensures { view result ≡ tree (leaf_label kind ranges (texts_of own.entry) shown.entry) none }
    {
        Node {
            kind,
            id: 0,
            ranges,
            source: Source::leaf(own, shown),
            more: More::none(),
            children: List::new(alloc),
        }
    }

    /// The opening delimiter, as slices of the page.
    pub fn opening(&self) -> &[Text<'a>]
        ensures { result.now ≡ (out-Node self.now).source.opening }
    {
        self.source.opening()
    }

    /// The closing delimiter, as slices of the page.
    pub fn closing(&self) -> &[Text<'a>]
        ensures { result.now ≡ (out-Node self.now).source.closing }
    {
        self.source.closing()
    }

    /// The source of a leaf.
    pub fn own(&self) -> &[Text<'a>]
        ensures { result.now ≡ (out-Node self.now).source.own }
    {
        self.source.own()
    }

    /// The characters of a text or an entity.
    pub fn shown(&self) -> &str
        ensures { result.now ≡ (out-Node self.now).source.shown }
    {
        self.source.shown()
    }

    /// The attributes that its kind alone does not tell, in the order of `AttrName`, without
    /// `about`, `id`, `data-mw` and `data-parsoid`.
    pub fn attrs(&self) -> &[Attr]
        ensures { result.now ≡ (out-Node self.now).more.attrs }
    {
        self.more.attrs()
    }

    /// What an editor said of it.
    pub fn mark(&self) -> Mark
        ensures { result ≡ (out-Node self.now).more.mark }
    {
        self.more.mark()
    }

    /// What `data-mw` holds.
    pub fn mw(&self) -> Option<&DataMw>
        ensures { option_copied result ≡ (out-Node self.now).more.mw }
    {
        self.more.mw()
    }
}
