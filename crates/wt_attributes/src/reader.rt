ghost use Rattle.std.specs.Prelude.{◌≡◌, ◌++◌, OnOk, IfOk, option_map, true, false};
ghost use Rattle.std.specs.List.{filter_map};
ghost use Rattle.std.specs.Option.{option_to_list};
ghost use Rattle.wt_span.specs.Items.{items};
ghost use Rattle.wt_tree.specs.View.{attrs_of};
ghost use Rattle.wt_attributes.specs.Attributes.{value_of, named_in, attributes_in, attributes, readings};

use crate::characters::text_of;
use crate::scan::Scan;
use std::alloc::Global;
use wt_span::{List, NoMemory, Piece, Str};
use wt_tree::{Attr, AttrName};

/// The names that count, in the order in which attributes are written.
const NAMES: [AttrName; 6] = [
    AttrName::Class,
    AttrName::Colspan,
    AttrName::Rowspan,
    AttrName::Scope,
    AttrName::Lang,
    AttrName::Dir,
];

/// The first value of a name in a text.
fn first_value(text: &str, name: AttrName) -> Option<&str>
    ensures { option_map (λ v. v.now) result ≡ value_of name (readings true 0 text.entry.now) }
{
    let mut scan = Scan::of(text);
    while let Some((attribute, after)) = scan.next_attribute() {
        if attribute.name == name {
            return Some(attribute.value);
        }
        scan = after;
    }
    None
}

/// Appends the attribute of a name, where a text has one.
fn push_named(
    attrs: &mut List<Attr>,
    alloc: Global,
    text: &str,
    name: AttrName,
) -> Result<(), NoMemory>
    ensures { OnOk result (attrs_of attrs.new ≡ attrs_of attrs.old ++ option_to_list (named_in (readings true 0 text.now) name)) }
{
    if let Some(value) = first_value(text, name) {
        let value = Str::copy_of(alloc, value)?;
        attrs.push(Attr { name, value })?;
    }
    Ok(())
}

/// The attributes of a text.
fn attributes_in(alloc: Global, text: &str) -> Result<List<Attr>, NoMemory>
    ensures { IfOk result (λ l. attrs_of l ≡ attributes_in (readings true 0 text.now)) }
{
    let mut attrs = List::new(alloc);
    for name in NAMES {
        push_named(&mut attrs, alloc, text, name)?;
    }
    Ok(attrs)
}

/// The attributes that these pieces give: those of the profile's list (`class`, `colspan`,
/// `rowspan`, `scope`, `lang`, `dir`), of each the first, in the order in which they are written
/// into HTML, with their values as characters (not escaped).
///
/// The pieces are what the sign of a table, row or cell, or the name of a tag, leaves. Their
/// characters are read as text, entities as the characters that they stand for, and marks and
/// other atoms as nothing. At the text's start or after a blank `NAME=VALUE` is read: the name in
/// any case, blanks round the `=`, and the value in `"` or `'`, or without quotes up to a blank, a
/// quote or a `=`. Other text is passed over, as MediaWiki's `Sanitizer` passes over what is no
/// attribute.
#[tactic(auto, unfolding(crate::specs::Attributes::attributes))]
pub fn read_attributes(alloc: Global, pieces: &[Piece<'_>]) -> Result<List<Attr>, NoMemory>
    ensures { IfOk result (λ l. attrs_of l ≡ attributes (items pieces.now)) }
{
    let text = text_of(alloc, pieces)?;
    attributes_in(alloc, text.as_str())
}
