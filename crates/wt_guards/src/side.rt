//! What is next to what, and which neighbours may not be so.

ghost use Rattle.std.specs.Prelude.{◌≡◌};
ghost use Rattle.wt_span.specs.Bytes.{is_white};
ghost use Rattle.wt_guards.specs.Table.{hazard, line_start_hazard, is_word, leads_group, ends_url, follows_group, after_text, after_link, after_bare, after_switch, after_group, after_toggle, after_node};

/// What is on one side of a place in the content: the start or end of the content, a text by the
/// character next to the place, a link to a page, a bare URL, a switch such as `__TOC__`, a group of
/// templates, which shows `//` or doesn't, the delimiter of bold or italic, or any other node.
#[derive(Clone, Copy, Debug)]
pub enum Side {
    Edge,
    Text(char),
    Link,
    Bare,
    Switch,
    Group { slashes: bool },
    Toggle,
    Node,
}

fn is_word(c: char) -> bool
    ensures { result ≡ is_word c }
{
    c.is_ascii_alphanumeric() || c == '_'
}

fn is_white(c: char) -> bool
    ensures { result ≡ is_white c }
{
    c == ' ' || c == '\t' || c == '\n'
}

fn leads_group(c: char) -> bool
    ensures { result ≡ leads_group c }
{
    is_white(c) || c == '(' || c == ','
}

fn ends_url(c: char) -> bool
    ensures { result ≡ ends_url c }
{
    c == ',' || c == ';' || c == '.' || c == '?' || c == ')'
}

fn follows_group(slashes: bool, c: char) -> bool
    ensures { result ≡ follows_group slashes c }
{
    is_white(c) || (!slashes && ends_url(c))
}

fn after_text(c: char, right: Side) -> bool
    ensures { result ≡ after_text c right }
{
    match right {
        Side::Bare => is_word(c),
        Side::Group { .. } => !leads_group(c),
        Side::Edge | Side::Text(_) | Side::Link | Side::Switch | Side::Toggle | Side::Node => false,
    }
}

fn after_link(right: Side) -> bool
    ensures { result ≡ after_link right }
{
    match right {
        Side::Text(c) => c.is_ascii_lowercase(),
        Side::Bare | Side::Group { .. } => true,
        Side::Edge | Side::Link | Side::Switch | Side::Toggle | Side::Node => false,
    }
}

fn after_bare(right: Side) -> bool
    ensures { result ≡ after_bare right }
{
    match right {
        Side::Edge => false,
        Side::Text(c) => !is_white(c),
        Side::Link | Side::Bare | Side::Switch | Side::Group { .. } | Side::Toggle | Side::Node =>
            true,
    }
}

fn after_switch(right: Side) -> bool
    ensures { result ≡ after_switch right }
{
    matches!(right, Side::Bare | Side::Group { .. })
}

fn after_group(slashes: bool, right: Side) -> bool
    ensures { result ≡ after_group slashes right }
{
    match right {
        Side::Edge => false,
        Side::Text(c) => !follows_group(slashes, c),
        Side::Link | Side::Bare | Side::Switch | Side::Group { .. } | Side::Toggle | Side::Node =>
            true,
    }
}

fn after_toggle(right: Side) -> bool
    ensures { result ≡ after_toggle right }
{
    matches!(right, Side::Bare | Side::Group { .. } | Side::Toggle)
}

fn after_node(right: Side) -> bool
    ensures { result ≡ after_node right }
{
    matches!(right, Side::Group { .. })
}

/// Whether the two may not be next to each other in wikitext, so that `<nowiki/>` is put between
/// them; nodes that was next to each other in the page are an exception for the caller. The rules
/// are those that Parsoid's escaping meets case by case: a link takes the letters after it, a URL
/// goes on until a space and begins anywhere but after a word, a group of templates may begin and
/// end with any sign, and the apostrophes of two delimiters join.
#[tactic(auto, unfolding(crate::specs::Table::hazard))]
pub fn hazard(left: Side, right: Side) -> bool
    ensures { result ≡ hazard left right }
{
    match left {
        Side::Edge => false,
        Side::Text(c) => after_text(c, right),
        Side::Link => after_link(right),
        Side::Bare => after_bare(right),
        Side::Switch => after_switch(right),
        Side::Group { slashes } => after_group(slashes, right),
        Side::Toggle => after_toggle(right),
        Side::Node => after_node(right),
    }
}

/// Whether text may not begin a line with this character, since the line would then be another block
/// than a paragraph: a space, a tab, `=`, `*`, `#`, `:`, `;`, `-` or `!`.
#[tactic(auto, unfolding(crate::specs::Table::line_start_hazard))]
pub fn line_start_hazard(c: char) -> bool
    ensures { result ≡ line_start_hazard c }
{
    matches!(c, ' ' | '\t' | '=' | '*' | '#' | ':' | ';' | '-' | '!')
}
