//! What a node of the content is to its neighbours.

ghost use Rattle.std.specs.Prelude.{◌≡◌};
ghost use Rattle.wt_guards.specs.Content.{side_of, ends_line, is_invisible, is_group, shows_blanks, is_function};
ghost use Rattle.wt_guards.specs.Guards.{is_new_at_start, is_new_at_end, is_new_last, is_group_or_bare, is_mark, is_parted_from_group, is_parted_from_toggle, is_always_parted, left_side};

use crate::side::Side;

/// What is asked of a group of templates: whether what it shows holds `//`; whether all its items are
/// invisible; whether it shows spaces and tabs alone, and some; whether its first and its last item is
/// an apostrophe; and of where it was in the page: whether at the start of its line or of the
/// content, at the end of its line or of the content past spaces, tabs and marks, directly at the
/// content's end, and whether the visible items nearest to its start are both `=`.
#[derive(Clone, Copy, Debug)]
pub struct Transclusion {
    pub slashes: bool,
    pub is_invisible: bool,
    pub is_blank: bool,
    pub opens_with_apostrophe: bool,
    pub closes_with_apostrophe: bool,
    pub began_line: bool,
    pub ended_line: bool,
    pub ended_content: bool,
    pub between_equals: bool,
}

/// What a node of the content is: a link to a page, an external link in brackets, a bare URL, by
/// whether what it shows ends with `=`, a switch, a delimiter of bold or italic, a mark (a comment or
/// an include tag), by whether its source ends with a line break and whether it was at the start
/// of its line or of the content in the page, a group, a function of the preprocessor, or any other.
#[derive(Clone, Copy, Debug)]
pub enum Role {
    Link,
    External,
    Bare(bool),
    Switch,
    Toggle,
    Mark { ends_line: bool, began_line: bool },
    Group(Transclusion),
    Function,
    Node,
}

/// Where a node is in the source of its block, in bytes from the block's start.
#[derive(Clone, Copy, Debug)]
pub struct Stretch {
    pub start: usize,
    pub end: usize,
}

impl Role {
    /// How its neighbours see it.
    pub fn side_of(self) -> Side
        ensures { result ≡ side_of self }
    {
        match self {
            Role::Link => Side::Link,
            Role::Bare(_) => Side::Bare,
            Role::Switch => Side::Switch,
            Role::Toggle => Side::Toggle,
            Role::Group(g) => Side::Group { slashes: g.slashes },
            Role::External | Role::Mark { .. } | Role::Function | Role::Node => Side::Node,
        }
    }

    /// A mark whose source ends with a line break: a line begins after it.
    pub fn ends_line(self) -> bool
        ensures { result ≡ ends_line self }
    {
        match self {
            Role::Mark { ends_line, .. } => ends_line,
            Role::Link
            | Role::External
            | Role::Bare(_)
            | Role::Switch
            | Role::Toggle
            | Role::Group(_)
            | Role::Function
            | Role::Node => false,
        }
    }

    /// A mark, or a group that counts as one since all its items are invisible.
    pub fn is_invisible(self) -> bool
        ensures { result ≡ is_invisible self }
    {
        match self {
            Role::Mark { .. } => true,
            Role::Group(g) => g.is_invisible,
            Role::Link
            | Role::External
            | Role::Bare(_)
            | Role::Switch
            | Role::Toggle
            | Role::Function
            | Role::Node => false,
        }
    }

    /// A group of templates.
    pub fn is_group(self) -> bool
        ensures { result ≡ is_group self }
    {
        match self {
            Role::Group(_) => true,
            Role::Link
            | Role::External
            | Role::Bare(_)
            | Role::Switch
            | Role::Toggle
            | Role::Mark { .. }
            | Role::Function
            | Role::Node => false,
        }
    }

    /// A group that shows spaces and tabs alone.
    pub fn shows_blanks(self) -> bool
        ensures { result ≡ shows_blanks self }
    {
        match self {
            Role::Group(g) => g.is_blank,
            Role::Link
            | Role::External
            | Role::Bare(_)
            | Role::Switch
            | Role::Toggle
            | Role::Mark { .. }
            | Role::Function
            | Role::Node => false,
        }
    }

    /// A function of the preprocessor.
    pub fn is_function(self) -> bool
        ensures { result ≡ is_function self }
    {
        match self {
            Role::Function => true,
            Role::Link
            | Role::External
            | Role::Bare(_)
            | Role::Switch
            | Role::Toggle
            | Role::Mark { .. }
            | Role::Group(_)
            | Role::Node => false,
        }
    }

    /// A comment or an include tag.
    pub fn is_mark(self) -> bool
        ensures { result ≡ is_mark self }
    {
        match self {
            Role::Mark { .. } => true,
            Role::Link
            | Role::External
            | Role::Bare(_)
            | Role::Switch
            | Role::Toggle
            | Role::Group(_)
            | Role::Function
            | Role::Node => false,
        }
    }

    /// A group or a bare URL.
    pub fn is_group_or_bare(self) -> bool
        ensures { result ≡ is_group_or_bare self }
    {
        match self {
            Role::Bare(_) => true,
            Role::Group(_) => true,
            Role::Link
            | Role::External
            | Role::Switch
            | Role::Toggle
            | Role::Mark { .. }
            | Role::Function
            | Role::Node => false,
        }
    }

    /// A group or mark before which a line start is guarded, since it was at none in the page.
    pub fn is_new_at_start(self) -> bool
        ensures { result ≡ is_new_at_start self }
    {
        match self {
            Role::Mark {
                ends_line,
                began_line,
            } => !ends_line && !began_line,
            Role::Group(g) => !g.began_line,
            Role::Link
            | Role::External
            | Role::Bare(_)
            | Role::Switch
            | Role::Toggle
            | Role::Function
            | Role::Node => false,
        }
    }

    /// A group after which a line end is guarded, since it was at none in the page; or a bare URL
    /// that ends with `=`.
    pub fn is_new_at_end(self) -> bool
        ensures { result ≡ is_new_at_end self }
    {
        match self {
            Role::Bare(ends) => ends,
            Role::Group(g) => !g.ended_line,
            Role::Link
            | Role::External
            | Role::Switch
            | Role::Toggle
            | Role::Mark { .. }
            | Role::Function
            | Role::Node => false,
        }
    }

    /// A group after which the content's end is guarded, since it wasn't there in the page.
    pub fn is_new_last(self) -> bool
        ensures { result ≡ is_new_last self }
    {
        match self {
            Role::Group(g) => !g.ended_content,
            Role::Link
            | Role::External
            | Role::Bare(_)
            | Role::Switch
            | Role::Toggle
            | Role::Mark { .. }
            | Role::Function
            | Role::Node => false,
        }
    }

    /// What a style delimiter before it is always parted from.
    pub fn is_parted_from_toggle(self) -> bool
        ensures { result ≡ is_parted_from_toggle self }
    {
        match self {
            Role::Toggle => true,
            Role::Group(g) => g.opens_with_apostrophe,
            Role::Link
            | Role::External
            | Role::Bare(_)
            | Role::Switch
            | Role::Mark { .. }
            | Role::Function
            | Role::Node => false,
        }
    }

    /// Whether the two are parted though they were next to each other in the page.
    pub fn is_always_parted(self, right: Role) -> bool
        ensures { result ≡ is_always_parted self right }
    {
        match self {
            Role::External => right.is_group(),
            Role::Bare(_) => right.is_group(),
            Role::Toggle => right.is_parted_from_toggle(),
            Role::Group(g) => g.is_parted_from(right),
            Role::Link | Role::Switch | Role::Mark { .. } | Role::Function | Role::Node => false,
        }
    }

    /// How the sign on its right sees it: after a mark that ends a line, a line begins.
    pub fn left_side(self) -> Side
        ensures { result ≡ left_side self }
    {
        if self.ends_line() {
            Side::Edge
        } else {
            self.side_of()
        }
    }
}

impl Transclusion {
    /// What the group is always parted from on its right.
    pub fn is_parted_from(self, right: Role) -> bool
        ensures { result ≡ is_parted_from_group self right }
    {
        match right {
            Role::External => true,
            Role::Bare(_) => true,
            Role::Toggle => self.closes_with_apostrophe,
            Role::Group(h) => !h.between_equals,
            Role::Link | Role::Switch | Role::Mark { .. } | Role::Function | Role::Node => false,
        }
    }
}
