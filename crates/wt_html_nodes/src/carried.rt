//! What a node has beside its source: the characters that it shows and its attributes.

ghost use Rattle.std.specs.Prelude.{◌≡◌, ◌++◌, true, option_map, IfOk, OnOk, if◌then◌else◌, []};
ghost use Rattle.wt_tree.specs.View.{attrs_of};
ghost use Rattle.wt_html_elements.specs.Built.{view_content, views, pairs};
ghost use Rattle.wt_schema.specs.Rows.{shows_text, link_read, read_as, own_told, attrs_for};
ghost use Rattle.wt_schema.specs.Fit.{texts_in};
ghost use Rattle.wt_html_nodes.specs.Texts.{is_utf8_markup, are_utf8_markups, are_utf8_values};
ghost use Rattle.wt_html_nodes.specs.Told.{text_in};

use crate::attributes::{text_of, text_value};
use crate::row::shows_text;
use std::alloc::Global;
use wt_html_elements::{Attribute, Content};
use wt_names::{href_of, title_of_href};
use wt_span::{List, NoMemory, Str};
use wt_tree::{Attr, Kind, Own, Values};

/// The text that this is; an element is none.
fn text_in(content: &Content) -> &str
    requires { is_utf8_markup (view_content content.now) ≡ true }
    ensures { result.now ≡ text_in (view_content content.entry.now) }
{
    match content {
        Content::Text(bytes) => text_of(bytes.as_slice()),
        Content::Element { .. } => "",
    }
}

/// The texts directly in an element, joined.
fn texts_in(alloc: Global, contents: &[Content]) -> Result<Str, NoMemory>
    requires { are_utf8_markups (views contents.now) ≡ true }
    ensures { IfOk result (λ s. s ≡ texts_in (views contents.now)) }
{
    let mut joined = Str::new(alloc);
    for content in contents {
        let text = text_in(content);
        joined.push_str(text)?;
    }
    Ok(joined)
}

/// The characters that an element of this kind shows: its texts, where they are no texts of the page.
pub fn shown_in(alloc: Global, kind: Kind, contents: &[Content]) -> Result<Str, NoMemory>
    requires { are_utf8_markups (views contents.now) ≡ true }
    ensures { IfOk result (λ s. s ≡ (if shows_text kind then texts_in (views contents.now) else [])) }
{
    if shows_text(kind) {
        texts_in(alloc, contents)
    } else {
        Ok(Str::new(alloc))
    }
}

/// A link as it is read: the link to its title, where it leads to one.
fn link_read(alloc: Global, href: &str) -> Result<Str, NoMemory>
    ensures { IfOk result (λ s. s ≡ link_read href.now) }
{
    match title_of_href(alloc, href)? {
        None => Str::copy_of(alloc, href),
        Some(title) => href_of(alloc, &title),
    }
}

/// The value that is read of an attribute.
fn read_as(alloc: Global, values: Values, value: &str) -> Result<Str, NoMemory>
    ensures { IfOk result (λ s. s ≡ read_as values value.now) }
{
    match values {
        Values::Link => link_read(alloc, value),
        _ => Str::copy_of(alloc, value),
    }
}

/// Puts an attribute after others, where it is there.
fn push_own(
    alloc: Global,
    attrs: &mut List<Attr>,
    own: Own,
    value: Option<&str>,
) -> Result<(), NoMemory>
    ensures { OnOk result (attrs_of attrs.new ≡ attrs_of attrs.old ++ own_told own (option_map (λ v. v.now) value.entry)) }
{
    match value {
        None => Ok(()),
        Some(text) => {
            let value = read_as(alloc, own.values, text)?;
            attrs.push(Attr {
                name: own.name,
                value,
            })
        }
    }
}

/// The attributes that a node of this kind keeps as its own.
pub fn attrs_for(
    alloc: Global,
    kind: Kind,
    attributes: &[Attribute],
) -> Result<List<Attr>, NoMemory>
    requires { are_utf8_values (pairs attributes.now) ≡ true }
    ensures { IfOk result (λ l. attrs_of l ≡ attrs_for kind (pairs attributes.now)) }
{
    let mut attrs = List::new(alloc);
    for own in kind.own() {
        let value = text_value(own.name.text(), attributes);
        push_own(alloc, &mut attrs, *own, value)?;
    }
    Ok(attrs)
}
