//! The values of attributes that decide a kind, or may be in it.

ghost use Rattle.std.specs.Prelude.{◌≡◌};
ghost use Rattle.std.specs.Str.{bytes_eq};
ghost use Rattle.wt_span.specs.Tags.{is_extension};
ghost use Rattle.wt_tree.specs.Values.{extension_prefix, placeholder, no_include, no_include_end, only_include, only_include_end, include_only, is_extension_type, is_island_type, is_include_type, switch_prefix, is_switch, is_switch_name, passes, is_needed};

use wt_span::rest_of;
use wt_tree::Values;

#[tactic(auto, unfolding(wt_tree::specs::Values::placeholder))]
fn placeholder() -> &'static [u8]
    ensures { result.now ≡ placeholder }
{
    b"mw:Placeholder".as_slice()
}

#[tactic(auto, unfolding(wt_tree::specs::Values::no_include))]
fn no_include() -> &'static [u8]
    ensures { result.now ≡ no_include }
{
    b"mw:Includes/NoInclude".as_slice()
}

#[tactic(auto, unfolding(wt_tree::specs::Values::no_include_end))]
fn no_include_end() -> &'static [u8]
    ensures { result.now ≡ no_include_end }
{
    b"mw:Includes/NoInclude/End".as_slice()
}

#[tactic(auto, unfolding(wt_tree::specs::Values::only_include))]
fn only_include() -> &'static [u8]
    ensures { result.now ≡ only_include }
{
    b"mw:Includes/OnlyInclude".as_slice()
}

#[tactic(auto, unfolding(wt_tree::specs::Values::only_include_end))]
fn only_include_end() -> &'static [u8]
    ensures { result.now ≡ only_include_end }
{
    b"mw:Includes/OnlyInclude/End".as_slice()
}

#[tactic(auto, unfolding(wt_tree::specs::Values::include_only))]
fn include_only() -> &'static [u8]
    ensures { result.now ≡ include_only }
{
    b"mw:Includes/IncludeOnly".as_slice()
}

pub fn is_word(text: &[u8], word: &[u8]) -> bool
    ensures { result ≡ bytes_eq text.now word.now }
{
    text == word
}

/// Whether this is the name of an extension, in lower case.
#[tactic(auto, unfolding(wt_span::specs::Tags::is_extension))]
fn is_extension(name: &[u8]) -> bool
    ensures { result ≡ is_extension name.now }
{
    is_word(name, b"ref")
        || is_word(name, b"references")
        || is_word(name, b"gallery")
        || is_word(name, b"math")
        || is_word(name, b"pre")
        || is_word(name, b"poem")
        || is_word(name, b"syntaxhighlight")
        || is_word(name, b"source")
        || is_word(name, b"score")
        || is_word(name, b"timeline")
        || is_word(name, b"imagemap")
        || is_word(name, b"templatestyles")
}

#[tactic(auto, unfolding(wt_tree::specs::Values::extension_prefix))]
pub fn is_extension_type(type_name: &[u8]) -> bool
    ensures { result ≡ is_extension_type type_name.now }
{
    if !type_name.starts_with(b"mw:Extension/") {
        return false;
    }
    is_extension(rest_of(type_name, 13))
}

fn is_include_type(type_name: &[u8]) -> bool
    ensures { result ≡ is_include_type type_name.now }
{
    is_word(type_name, no_include())
        || is_word(type_name, no_include_end())
        || is_word(type_name, only_include())
        || is_word(type_name, only_include_end())
        || is_word(type_name, include_only())
}

/// Whether this is the `typeof` of an island: of an extension, or of a tag, media or a function.
fn is_island_type(type_name: &[u8]) -> bool
    ensures { result ≡ is_island_type type_name.now }
{
    is_word(type_name, placeholder()) || is_extension_type(type_name)
}

/// Whether this is the name of a switch, in lower case.
#[tactic(auto, unfolding(wt_tree::specs::Values::is_switch))]
fn is_switch(name: &[u8]) -> bool
    ensures { result ≡ is_switch name.now }
{
    is_word(name, b"notoc")
        || is_word(name, b"forcetoc")
        || is_word(name, b"toc")
        || is_word(name, b"noeditsection")
        || is_word(name, b"newsectionlink")
        || is_word(name, b"hiddencat")
        || is_word(name, b"nogallery")
        || is_word(name, b"index")
        || is_word(name, b"noindex")
}

#[tactic(auto, unfolding(wt_tree::specs::Values::switch_prefix))]
fn is_switch_name(property: &[u8]) -> bool
    ensures { result ≡ is_switch_name property.now }
{
    if !property.starts_with(b"mw:PageProp/") {
        return false;
    }
    is_switch(rest_of(property, 12))
}

/// Whether an attribute may have this value.
pub fn passes(values: Values, value: &[u8]) -> bool
    ensures { result ≡ passes values value.now }
{
    match values {
        Values::IslandType => is_island_type(value),
        Values::IncludeType => is_include_type(value),
        Values::SwitchName => is_switch_name(value),
        Values::Any => true,
        Values::Link => true,
    }
}

/// Whether an attribute must be there.
pub fn is_needed(values: Values) -> bool
    ensures { result ≡ is_needed values }
{
    matches!(
        values,
        Values::IslandType | Values::IncludeType | Values::SwitchName
    )
}
