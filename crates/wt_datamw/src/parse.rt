ghost use Rattle.std.specs.Prelude.{◌≡◌, [], IfOk, is_some, map, option_map, unwrap_or};
ghost use Rattle.serde_json.specs.Find.{as_object, get};
ghost use Rattle.serde_json.specs.Read.{read};
ghost use Rattle.serde_json.specs.View.{view, members_view};
ghost use Rattle.wt_datamw.specs.SyncRead.{is_among, only_keys, has_only, is_text_if_any, text_in, is_number, small, small_number};

use serde_json::{Map, Value};
use std::alloc::Global;
use wt_span::{NoMemory, Str};

/// A text read as JSON, or None where it is none.
pub fn parsed(alloc: Global, text: &str) -> Result<Option<Value>, NoMemory>
    ensures { IfOk result (λ o. option_map view o ≡ read text.now) }
{
    match Value::from_str(alloc, text) {
        Ok(value) => Ok(Some(value)),
        Err(e) => {
            if e.is_memory() {
                Err(NoMemory)
            } else {
                Ok(None)
            }
        }
    }
}

fn is_among(names: &[&str], key: &str) -> bool
    ensures { result ≡ is_among (map (λ name. name.now) names.now) key.now }
{
    names.contains(&key)
}

fn has_only_keys(members: &Map<String, Value>, names: &[&str]) -> bool
    ensures { result ≡ only_keys (is_among (map (λ name. name.now) names.now)) (members_view members.now.entries) }
{
    for key in members.keys() {
        if !is_among(names, key.as_str()) {
            return false;
        }
    }
    true
}

/// Whether a value is an object without other keys than these.
pub fn has_only(value: &Value, names: &[&str]) -> bool
    ensures { result ≡ has_only (is_among (map (λ name. name.now) names.now)) (as_object (view value.now)) }
{
    match value.as_object() {
        None => false,
        Some(map) => has_only_keys(map, names),
    }
}

/// Whether the value of a key is a text, or there is none.
pub fn is_text_if_any(value: Option<&Value>) -> bool
    ensures { result ≡ is_text_if_any (option_map (λ v. view v.now) value.entry) }
{
    match value {
        None => true,
        Some(value) => value.as_str().is_some(),
    }
}

pub fn small(number: Option<u64>) -> Option<u32>
    ensures { result ≡ small number }
{
    match number {
        None => None,
        Some(n) => u32::try_from(n).ok(),
    }
}

pub fn small_number(value: &Value) -> Option<u32>
    ensures { result ≡ small_number (view value.now) }
{
    small(value.as_u64())
}

pub fn text_under<'v>(value: &'v Value, key: &str) -> Option<&'v str>
    ensures { option_map (λ s. s.now) result ≡ text_in key.now (view value.now) }
{
    value.get(key).and_then(Value::as_str)
}

/// A copy of a text, the empty one where there is none.
pub fn copied(alloc: Global, text: Option<&str>) -> Result<Str, NoMemory>
    ensures { IfOk result (λ s. s ≡ unwrap_or (option_map (λ t. t.now) text.entry) []) }
{
    match text {
        None => Ok(Str::new(alloc)),
        Some(text) => Str::copy_of(alloc, text),
    }
}

pub fn copied_if_any(alloc: Global, text: Option<&str>) -> Result<Option<Str>, NoMemory>
    ensures { IfOk result (λ s. s ≡ option_map (λ t. t.now) text.entry) }
{
    match text {
        None => Ok(None),
        Some(text) => {
            let copy = Str::copy_of(alloc, text)?;
            Ok(Some(copy))
        }
    }
}
