ghost use Rattle.std.specs.Prelude.{◌≡◌, ◌&&◌, ◌||◌, [], ◌∷◌, codes, is_some, map, option_map, option_and_then};
ghost use Rattle.serde_json.specs.Find.{as_object, as_array, as_str, get};
ghost use Rattle.serde_json.specs.View.{view, items_view, members_view};
ghost use Rattle.wt_datamw.specs.SyncRead.{is_among, has_only, is_number, text_in};
ghost use Rattle.wt_datamw.specs.MwRead.{holds, holds_if_any, all_items, all_values, has_text, is_source, are_sources, are_params, is_page_target, is_function_name, is_function_target, is_target, is_template, is_part, are_parts, parts_in, is_group, is_body, is_extension, is_mw_shape};

use crate::parse::{has_only, text_under};
use serde_json::{Map, Value};

fn has_text(value: &Value, key: &str) -> bool
    ensures { result ≡ has_text key.now (view value.now) }
{
    text_under(value, key).is_some()
}

fn is_source(value: &Value) -> bool
    ensures { result ≡ is_source (view value.now) }
{
    has_only(value, &["wt"]) && has_text(value, "wt")
}

fn are_sources(map: &Map<String, Value>) -> bool
    ensures { result ≡ all_values is_source (members_view map.now.entries) }
{
    for value in map.values() {
        if !is_source(value) {
            return false;
        }
    }
    true
}

fn are_params(value: &Value) -> bool
    ensures { result ≡ are_params (view value.now) }
{
    match value.as_object() {
        None => false,
        Some(map) => are_sources(map),
    }
}

fn is_page_target(value: &Value) -> bool
    ensures { result ≡ is_page_target (view value.now) }
{
    has_only(value, &["href", "wt"]) && has_text(value, "href") && has_text(value, "wt")
}

/// The name of a parser function that decides by texts.
fn is_function_name(name: &str) -> bool
    ensures { result ≡ is_function_name name.now }
{
    name == "if" || name == "ifeq" || name == "switch"
}

fn is_function_target(value: &Value) -> bool
    ensures { result ≡ is_function_target (view value.now) }
{
    has_only(value, &["function", "wt"])
        && text_under(value, "function").is_some_and(is_function_name)
        && has_text(value, "wt")
}

fn is_target(value: &Value) -> bool
    ensures { result ≡ is_target (view value.now) }
{
    is_page_target(value) || is_function_target(value)
}

fn is_template(value: &Value) -> bool
    ensures { result ≡ is_template (view value.now) }
{
    has_only(value, &["i", "params", "target"])
        && value.get("i").is_some_and(Value::is_number)
        && value.get("params").is_some_and(are_params)
        && value.get("target").is_some_and(is_target)
}

fn is_part(value: &Value) -> bool
    ensures { result ≡ is_part (view value.now) }
{
    value.is_string()
        || (has_only(value, &["template"]) && value.get("template").is_some_and(is_template))
        || (has_only(value, &["param"]) && value.get("param").is_some_and(is_source))
}

fn are_parts(values: &[Value]) -> bool
    ensures { result ≡ all_items is_part (items_view values.now) }
{
    for value in values {
        if !is_part(value) {
            return false;
        }
    }
    true
}

/// The parts of a group, or None where the value has no array of them.
pub fn parts_in(value: &Value) -> Option<&Vec<Value>>
    ensures { option_map (λ v. items_view v.now.items) result ≡ parts_in (view value.now) }
{
    value.get("parts").and_then(Value::as_array)
}

fn is_group(value: &Value) -> bool
    ensures { result ≡ is_group (view value.now) }
{
    has_only(value, &["parts"]) && parts_in(value).is_some_and(|parts| are_parts(parts.as_slice()))
}

fn is_body(value: &Value) -> bool
    ensures { result ≡ is_body (view value.now) }
{
    has_only(value, &["extsrc"]) && has_text(value, "extsrc")
}

fn is_extension(value: &Value) -> bool
    ensures { result ≡ is_extension (view value.now) }
{
    has_only(value, &["body", "name"])
        && has_text(value, "name")
        && value.get("body").is_none_or(is_body)
}

/// Whether a value has one of the two shapes: a group of parts or an extension tag.
#[tactic(auto, unfolding(crate::specs::MwRead::is_mw_shape))]
pub fn is_mw_shape(value: &Value) -> bool
    ensures { result ≡ is_mw_shape (view value.now) }
{
    is_group(value) || is_extension(value)
}
