ghost use Rattle.std.specs.Prelude.{◌≡◌, [], Some, None, Ok, IfOk, codes, is_some, option_map, option_and_then, unwrap_or};
ghost use Rattle.serde_json.specs.Find.{as_object, as_array, as_str, get};
ghost use Rattle.serde_json.specs.Read.{read};
ghost use Rattle.serde_json.specs.View.{view, items_view, members_view};
ghost use Rattle.wt_datamw.specs.SyncRead.{ReadsAs, small_number, text_in};
ghost use Rattle.wt_datamw.specs.MwRead.{holds_if_any, all_items, number_in, has_small_number, part_is_small, parts_in, has_small_numbers, text_or_empty, text_below, params_of, params_if_any, params_in, template_of, function_of, call_of, part_from, part_of, parts_of, mw_from, mw_of, mw_of_data, mw_told};

use crate::mw_shape::{is_mw_shape, parts_in};
use crate::parse::{copied, copied_if_any, parsed, small_number, text_under};
use crate::refusal::{DataRefusal, DataWhy};
use serde_json::{Map, Value};
use std::alloc::Global;
use wt_span::{List, NoMemory, Str};
use wt_tree::{DataMw, Part};

fn number_in(value: &Value) -> Option<u32>
    ensures { result ≡ number_in (view value.now) }
{
    value.get("i").and_then(small_number)
}

fn has_small_number(value: &Value) -> bool
    ensures { result ≡ has_small_number (view value.now) }
{
    number_in(value).is_some()
}

fn part_is_small(value: &Value) -> bool
    ensures { result ≡ part_is_small (view value.now) }
{
    value.get("template").is_none_or(has_small_number)
}

fn are_small_parts(values: &[Value]) -> bool
    ensures { result ≡ all_items part_is_small (items_view values.now) }
{
    for value in values {
        if !part_is_small(value) {
            return false;
        }
    }
    true
}

#[tactic(auto, unfolding(crate::specs::MwRead::has_small_numbers))]
fn has_small_numbers(value: &Value) -> bool
    ensures { result ≡ has_small_numbers (view value.now) }
{
    match parts_in(value) {
        None => true,
        Some(values) => are_small_parts(values.as_slice()),
    }
}

/// The text under a key of the object under a key.
fn text_below<'v>(value: &'v Value, outer: &str, key: &str) -> Option<&'v str>
    ensures { option_map (λ s. s.now) result ≡ text_below outer.now key.now (view value.now) }
{
    match value.get(outer) {
        None => None,
        Some(inner) => text_under(inner, key),
    }
}

fn params_of(alloc: Global, map: &Map<String, Value>) -> Result<List<(Str, Str)>, NoMemory>
    ensures { IfOk result (λ params. params ≡ params_of (members_view map.now.entries)) }
{
    let mut params = List::new(alloc);
    for (name, value) in map.iter() {
        let name = Str::copy_of(alloc, name.as_str())?;
        let text = copied(alloc, text_under(value, "wt"))?;
        params.push((name, text))?;
    }
    Ok(params)
}

fn params_in(value: &Value) -> Option<&Map<String, Value>>
    ensures { option_map (λ m. members_view m.now.entries) result ≡ params_in (view value.now) }
{
    value.get("params").and_then(Value::as_object)
}

fn params_if_any(
    alloc: Global,
    map: Option<&Map<String, Value>>,
) -> Result<List<(Str, Str)>, NoMemory>
    ensures { IfOk result (λ params. params ≡ params_if_any (option_map (λ m. members_view m.now.entries) map.entry)) }
{
    match map {
        None => Ok(List::new(alloc)),
        Some(map) => params_of(alloc, map),
    }
}

#[tactic(auto, unfolding(crate::specs::MwRead::template_of))]
fn template_of(alloc: Global, value: &Value) -> Result<Part, NoMemory>
    ensures { IfOk result (λ part. part ≡ template_of (view value.now)) }
{
    let target = copied(alloc, text_below(value, "target", "wt"))?;
    let href = copied(alloc, text_below(value, "target", "href"))?;
    let params = params_if_any(alloc, params_in(value))?;
    let i = number_in(value).unwrap_or(0);
    Ok(Part::Template {
        target,
        href,
        params,
        i,
    })
}

/// A parser function of this name.
#[tactic(auto, unfolding(crate::specs::MwRead::function_of))]
fn function_of(alloc: Global, name: &str, value: &Value) -> Result<Part, NoMemory>
    ensures { IfOk result (λ part. part ≡ function_of name.now (view value.now)) }
{
    let name = Str::copy_of(alloc, name)?;
    let target = copied(alloc, text_below(value, "target", "wt"))?;
    let params = params_if_any(alloc, params_in(value))?;
    let i = number_in(value).unwrap_or(0);
    Ok(Part::Function {
        name,
        target,
        params,
        i,
    })
}

/// A call: a parser function where its target names one, else a transclusion.
fn call_of(alloc: Global, value: &Value) -> Result<Part, NoMemory>
    ensures { IfOk result (λ part. part ≡ call_of (view value.now)) }
{
    match text_below(value, "target", "function") {
        Some(name) => function_of(alloc, name, value),
        None => template_of(alloc, value),
    }
}

fn part_from(
    alloc: Global,
    text: Option<&str>,
    template: Option<&Value>,
    value: &Value,
) -> Result<Part, NoMemory>
    ensures { IfOk result (λ part. part ≡ part_from (option_map (λ s. s.now) text.entry) (option_map (λ v. view v.now) template.entry) (view value.now)) }
{
    match (text, template) {
        (Some(text), _) => {
            let text = Str::copy_of(alloc, text)?;
            Ok(Part::Literal(text))
        }
        (None, Some(template)) => call_of(alloc, template),
        (None, None) => {
            let wt = copied(alloc, text_below(value, "param", "wt"))?;
            Ok(Part::Param { wt })
        }
    }
}

fn part_of(alloc: Global, value: &Value) -> Result<Part, NoMemory>
    ensures { IfOk result (λ part. part ≡ part_of (view value.now)) }
{
    part_from(alloc, value.as_str(), value.get("template"), value)
}

fn parts_of(alloc: Global, values: &[Value]) -> Result<List<Part>, NoMemory>
    ensures { IfOk result (λ parts. parts ≡ parts_of (items_view values.now)) }
{
    let mut parts = List::new(alloc);
    for value in values {
        let part = part_of(alloc, value)?;
        parts.push(part)?;
    }
    Ok(parts)
}

fn extension_of(alloc: Global, value: &Value) -> Result<DataMw, NoMemory>
    ensures { IfOk result (λ d. d ≡ mw_from None (view value.now)) }
{
    let name = copied(alloc, text_under(value, "name"))?;
    let body = copied_if_any(alloc, text_below(value, "body", "extsrc"))?;
    Ok(DataMw::Extension { name, body })
}

fn mw_of(alloc: Global, value: &Value) -> Result<DataMw, NoMemory>
    ensures { IfOk result (λ d. d ≡ mw_of (view value.now)) }
{
    match parts_in(value) {
        None => extension_of(alloc, value),
        Some(values) => {
            let parts = parts_of(alloc, values.as_slice())?;
            Ok(DataMw::Parts(parts))
        }
    }
}

#[tactic(auto, unfolding(crate::specs::MwRead::mw_of_data))]
fn mw_of_value(alloc: Global, value: &Value) -> Result<DataMw, DataRefusal>
    ensures { ReadsAs (mw_of_data (view value.now)) result }
{
    if !is_mw_shape(value) {
        return Err(DataRefusal::BadData(DataWhy::Shape));
    }
    if !has_small_numbers(value) {
        return Err(DataRefusal::BadData(DataWhy::Number));
    }
    match mw_of(alloc, value) {
        Ok(d) => Ok(d),
        Err(NoMemory) => Err(DataRefusal::NoMemory),
    }
}

/// What a text of `data-mw` says: the parts of a group of templates, or an extension tag. Its keys
/// may be in any order; other keys make the shape bad, and so does one that is missing, but for
/// the `body` of an extension. Of a key that comes twice the last one counts. The parameters of a
/// transclusion come in the byte order of their names.
#[tactic(auto, unfolding(crate::specs::MwRead::mw_told))]
pub fn read(alloc: Global, text: &str) -> Result<DataMw, DataRefusal>
    ensures { ReadsAs (mw_told text.now) result }
{
    match parsed(alloc, text) {
        Err(NoMemory) => Err(DataRefusal::NoMemory),
        Ok(None) => Err(DataRefusal::BadData(DataWhy::Json)),
        Ok(Some(value)) => mw_of_value(alloc, &value),
    }
}
