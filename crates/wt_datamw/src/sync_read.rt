ghost use Rattle.std.specs.Prelude.{◌≡◌, Some, Ok, IfOk, option_map, option_and_then};
ghost use Rattle.serde_json.specs.Data.{Items};
ghost use Rattle.serde_json.specs.Find.{as_object, get};
ghost use Rattle.serde_json.specs.Read.{read};
ghost use Rattle.serde_json.specs.View.{view, items_view, members_view};
ghost use Rattle.wt_datamw.specs.SyncRead.{ReadsAs, has_only, is_sync_key, are_four_numbers, is_dsr, dsr_in, is_sync_shape, four_small, text_in, sync_with, sync_of_data, sync_told};

use crate::parse::{
    copied, copied_if_any, has_only, is_text_if_any, parsed, small_number, text_under,
};
use crate::refusal::{DataRefusal, DataWhy};
use crate::sync::Sync;
use crate::sync_guess::read_as_written;
use serde_json::Value;
use std::alloc::Global;
use wt_span::{NoMemory, Str};
use wt_tree::Ranges;

fn is_sync_object(value: &Value) -> bool
    ensures { result ≡ has_only is_sync_key (as_object (view value.now)) }
{
    has_only(value, &["c", "dsr", "o", "src"])
}

fn are_four_numbers(values: &[Value]) -> bool
    ensures { result ≡ are_four_numbers (items_view values.now) }
{
    match values {
        [a, b, c, d] => a.is_number() && b.is_number() && c.is_number() && d.is_number(),
        _ => false,
    }
}

fn four_small(values: &[Value]) -> Option<Ranges>
    ensures { result ≡ four_small (items_view values.now) }
{
    let [a, b, c, d] = values else {
        return None;
    };
    let (Some(start), Some(end), Some(open_w), Some(close_w)) = (
        small_number(a),
        small_number(b),
        small_number(c),
        small_number(d),
    ) else {
        return None;
    };
    Some(Ranges {
        start,
        end,
        open_w,
        close_w,
    })
}

fn are_dsr(values: Option<&Vec<Value>>) -> bool
    ensures { result ≡ is_dsr (option_map (λ v. items_view v.now.items) values.entry) }
{
    match values {
        None => false,
        Some(values) => are_four_numbers(values.as_slice()),
    }
}

fn dsr_in(value: &Value) -> Option<&Vec<Value>>
    ensures { option_map (λ v. items_view v.now.items) result ≡ dsr_in (view value.now) }
{
    value.get("dsr").and_then(Value::as_array)
}

#[tactic(auto, unfolding(crate::specs::SyncRead::is_sync_shape))]
fn is_sync_shape(value: &Value) -> bool
    ensures { result ≡ is_sync_shape (view value.now) }
{
    is_sync_object(value)
        && are_dsr(dsr_in(value))
        && is_text_if_any(value.get("c"))
        && is_text_if_any(value.get("o"))
        && is_text_if_any(value.get("src"))
}

fn ranges_in(value: &Value) -> Option<Ranges>
    ensures { result ≡ option_and_then four_small (dsr_in (view value.now)) }
{
    match dsr_in(value) {
        None => None,
        Some(values) => four_small(values.as_slice()),
    }
}

fn sync_with(alloc: Global, value: &Value, dsr: Ranges) -> Result<Sync, NoMemory>
    ensures { IfOk result (λ s. sync_with (view value.now) (Some dsr) ≡ Ok s) }
{
    let opening = copied(alloc, text_under(value, "o"))?;
    let closing = copied(alloc, text_under(value, "c"))?;
    let src = copied_if_any(alloc, text_under(value, "src"))?;
    Ok(Sync {
        dsr,
        opening,
        closing,
        src,
    })
}

#[tactic(auto, unfolding(crate::specs::SyncRead::sync_of_data))]
fn sync_of_value(alloc: Global, value: &Value) -> Result<Sync, DataRefusal>
    ensures { ReadsAs (sync_of_data (view value.now)) result }
{
    if !is_sync_shape(value) {
        return Err(DataRefusal::BadData(DataWhy::Shape));
    }
    let Some(dsr) = ranges_in(value) else {
        return Err(DataRefusal::BadData(DataWhy::Number));
    };
    match sync_with(alloc, value, dsr) {
        Ok(sync) => Ok(sync),
        Err(NoMemory) => Err(DataRefusal::NoMemory),
    }
}

#[tactic(auto, unfolding(crate::specs::SyncRead::sync_told))]
fn read_json(alloc: Global, text: &str) -> Result<Sync, DataRefusal>
    ensures { ReadsAs (sync_told text.now) result }
{
    match parsed(alloc, text) {
        Err(NoMemory) => Err(DataRefusal::NoMemory),
        Ok(None) => Err(DataRefusal::BadData(DataWhy::Json)),
        Ok(Some(value)) => sync_of_value(alloc, &value),
    }
}

/// What a text of `data-parsoid` says. Its keys may be in any order, and `o` and `c` may be empty
/// or missing; other keys make the shape bad. Of a key that comes twice the last one counts.
pub fn read_sync(alloc: Global, text: &str) -> Result<Sync, DataRefusal>
    ensures { ReadsAs (sync_told text.now) result }
{
    match read_as_written(alloc, text) {
        Err(NoMemory) => Err(DataRefusal::NoMemory),
        Ok(Some(sync)) => Ok(sync),
        Ok(None) => read_json(alloc, text),
    }
}
