//! What each text and element is among its siblings: which of them make up groups.

ghost use Rattle.std.specs.Prelude.{◌≡◌, ◌<◌, Some, None, length, slice_get, option_map, IfOk};
ghost use Rattle.wt_html_elements.specs.Built.{pairs, view_content, views};
ghost use Rattle.wt_schema.specs.Groups.{goes_on, is_further, is_gap, is_open, open_by, standing, standing_by};
ghost use Rattle.wt_html_in.specs.Roles.{about_of, open_behind, role_at, roles, standing_in, text_role};

use std::alloc::Global;
use wt_html_elements::{Attribute, Content};
use wt_html_nodes::{has, value_of};
use wt_schema::Standing;
use wt_span::{NoMemory, rest_of};

/// What a text or an element is: white space between two elements of a group, which is nothing, another
/// text, or an element by how it is.
#[derive(Clone, Copy)]
pub enum Role {
    Gap,
    Text,
    Element(Standing),
}

fn is_open(group: Option<&[u8]>, about: &[u8]) -> bool
    ensures { result ≡ is_open (option_map (λ v. v.now) group.entry) about.now }
{
    match group {
        None => false,
        Some(group) => group == about,
    }
}

/// Whether an element with this `about` begins a group, goes on with one or is in none, by the `about` of the group
/// that is open before it.
fn standing_by(group: Option<&[u8]>, about: &[u8], has_data: bool) -> Standing
    ensures { result ≡ standing_by (option_map (λ v. v.now) group.entry) (Some about.now) has_data }
{
    if has_data {
        Standing::First
    } else if is_open(group, about) {
        Standing::Further
    } else {
        Standing::Astray
    }
}

fn standing(group: Option<&[u8]>, attributes: &[Attribute]) -> Standing
    ensures { result ≡ standing (option_map (λ v. v.now) group.entry) (pairs attributes.now) }
{
    match value_of(b"about".as_slice(), attributes) {
        None => Standing::Alone,
        Some(about) => standing_by(group, about, has(b"data-mw".as_slice(), attributes)),
    }
}

fn is_further(standing: Standing) -> bool
    ensures { result ≡ is_further standing }
{
    match standing {
        Standing::Alone => false,
        Standing::First => false,
        Standing::Further => true,
        Standing::Astray => false,
    }
}

/// Whether a text is white space.
fn is_gap(text: &[u8]) -> bool
    ensures { result ≡ is_gap text.now }
{
    for byte in text {
        let white = *byte == b' ' || (*byte == b'\t' || *byte == b'\n') || *byte == b'\r';
        if !white {
            return false;
        }
    }
    true
}

/// Whether these go on with a further element of the open group, white space apart. (No two texts
/// are side by side in what was read, so this looks at no more than two of them.)
fn goes_on(group: Option<&[u8]>, contents: &[Content]) -> bool
    ensures { result ≡ goes_on (option_map (λ v. v.now) group.entry) (views contents.now) }
{
    for content in contents {
        match content {
            Content::Text(bytes) => {
                if !is_gap(bytes.as_slice()) {
                    return false;
                }
            }
            Content::Element { attributes, .. } => {
                return is_further(standing(group, attributes.as_slice()));
            }
        }
    }
    false
}

/// What a text is before these.
fn text_role(group: Option<&[u8]>, text: &[u8], behind: &[Content]) -> Role
    ensures { result ≡ text_role (option_map (λ v. v.now) group.entry) text.now (views behind.now) }
{
    if is_gap(text) && goes_on(group, behind) {
        Role::Gap
    } else {
        Role::Text
    }
}

/// What a text or an element is before these.
fn role_at(group: Option<&[u8]>, content: &Content, behind: &[Content]) -> Role
    ensures { result ≡ role_at (option_map (λ v. v.now) group.entry) (view_content content.now) (views behind.now) }
{
    match content {
        Content::Text(bytes) => text_role(group, bytes.as_slice(), behind),
        Content::Element { attributes, .. } => Role::Element(standing(
            group,
            attributes.as_slice(),
        )),
    }
}

/// Whether an element of this role begins a group, goes on with one or is in none.
pub fn standing_in(role: Role) -> Standing
    ensures { result ≡ standing_in role }
{
    match role {
        Role::Gap => Standing::Alone,
        Role::Text => Standing::Alone,
        Role::Element(standing) => standing,
    }
}

fn about_of(content: &Content) -> Option<&[u8]>
    ensures { option_map (λ v. v.now) result ≡ about_of (view_content content.now) }
{
    match content {
        Content::Text(_) => None,
        Content::Element { attributes, .. } => value_of(b"about".as_slice(), attributes.as_slice()),
    }
}

/// The group that is open after an element in this position.
fn open_by<'t>(
    standing: Standing,
    group: Option<&'t [u8]>,
    about: Option<&'t [u8]>,
) -> Option<&'t [u8]>
    ensures { option_map (λ v. v.now) result ≡ open_by standing (option_map (λ v. v.now) group.entry) (option_map (λ v. v.now) about.entry) }
{
    match standing {
        Standing::Alone => None,
        Standing::First => about,
        Standing::Further => group,
        Standing::Astray => None,
    }
}

/// The group that is open after a text or an element of this role.
fn open_behind<'t>(role: Role, group: Option<&'t [u8]>, content: &'t Content) -> Option<&'t [u8]>
    ensures { option_map (λ v. v.now) result ≡ open_behind role (option_map (λ v. v.now) group.entry) (view_content content.now) }
{
    match role {
        Role::Gap => group,
        Role::Text => None,
        Role::Element(standing) => open_by(standing, group, about_of(content)),
    }
}

/// What each of these is.
pub fn roles(alloc: Global, contents: &[Content]) -> Result<Vec<Role>, NoMemory>
    ensures { IfOk result (λ v. v.items ≡ roles None (views contents.now)) }
{
    let mut found = Vec::with_capacity(alloc, contents.len())?;
    let mut group = None;
    let mut at = 0;
    for content in contents {
        at += 1;
        let role = role_at(group, content, rest_of(contents, at));
        found.push(role)?;
        group = open_behind(role, group, content);
    }
    Ok(found)
}

/// The role at this place.
pub fn role_in(roles: &[Role], at: usize) -> Role
    requires { at < length roles.now }
    ensures { slice_get roles.now at ≡ Some result }
{
    roles[at]
}
