ghost use Rattle.std.specs.Prelude.{◌≡◌, true, option_map};
ghost use Rattle.std.specs.Str.{is_utf8};
ghost use Rattle.wt_html_elements.specs.Built.{pairs};
ghost use Rattle.wt_schema.specs.Attributes.{value_of, has, is_typed, mark_of, mark_of_value};
ghost use Rattle.wt_schema.specs.Unsourced.{is_marked, is_unsourced};
ghost use Rattle.wt_html_nodes.specs.Texts.{are_utf8_values};

use wt_html_elements::Attribute;
use wt_tree::Mark;

/// The value of the attribute of this name.
pub fn value_of<'t>(name: &[u8], attributes: &'t [Attribute]) -> Option<&'t [u8]>
    ensures { option_map (λ v. v.now) result ≡ value_of name.now (pairs attributes.now) }
{
    for attribute in attributes {
        if attribute.name.as_slice() == name {
            return Some(attribute.value.as_slice());
        }
    }
    None
}

/// The text that these bytes are, which are UTF-8.
pub fn text_of(bytes: &[u8]) -> &str
    requires { is_utf8 bytes.now ≡ true }
    ensures { result.now ≡ bytes.now }
{
    match str::from_utf8(bytes) {
        Ok(text) => text,
        Err(_) => unreachable!(),
    }
}

/// The value of the attribute of this name, as a text.
pub fn text_value<'t>(name: &[u8], attributes: &'t [Attribute]) -> Option<&'t str>
    requires { are_utf8_values (pairs attributes.now) ≡ true }
    ensures { option_map (λ v. v.now) result ≡ value_of name.now (pairs attributes.now) }
{
    match value_of(name, attributes) {
        None => None,
        Some(bytes) => Some(text_of(bytes)),
    }
}

/// Whether an attribute of this name is there.
pub fn has(name: &[u8], attributes: &[Attribute]) -> bool
    ensures { result ≡ has name.now (pairs attributes.now) }
{
    value_of(name, attributes).is_some()
}

/// Whether an attribute is there that, with the name, decides the kind.
pub fn is_typed(attributes: &[Attribute]) -> bool
    ensures { result ≡ is_typed (pairs attributes.now) }
{
    has(b"typeof".as_slice(), attributes)
        || (has(b"rel".as_slice(), attributes) || has(b"property".as_slice(), attributes))
}

fn mark_of_value(value: &[u8]) -> Mark
    ensures { result ≡ mark_of_value (Some value.now) }
{
    if value == b"content".as_slice() {
        Mark::Content
    } else if value == b"children".as_slice() {
        Mark::Children
    } else {
        Mark::Other
    }
}

/// What the editor says of the element.
pub fn mark_of(attributes: &[Attribute]) -> Mark
    ensures { result ≡ mark_of (pairs attributes.now) }
{
    match value_of(b"data-wt-edit".as_slice(), attributes) {
        None => Mark::Nothing,
        Some(value) => mark_of_value(value),
    }
}

/// Whether the element has the mark of an edit.
pub fn is_marked(attributes: &[Attribute]) -> bool
    ensures { result ≡ is_marked (pairs attributes.now) }
{
    has(b"data-wt-edit".as_slice(), attributes)
}

/// Whether an element of the body doesn't say where it comes from.
pub fn is_unsourced(attributes: &[Attribute]) -> bool
    ensures { result ≡ is_unsourced (pairs attributes.now) }
{
    !has(b"data-parsoid".as_slice(), attributes) || is_marked(attributes)
}
