//! The parameters of a call.

ghost use Rattle.std.specs.Prelude.{◌≡◌, ◌+◌, ◌^◌, ◌<◌, decimal, string_bytes, IfOk, OnOk};
ghost use Rattle.wt_span.specs.Origins.{IsSoundCall, outer_call, span_of};
ghost use Rattle.wt_call_data.specs.CallParts.{IsSoundPart, entries_of, pairs_of, param_of};
ghost use Rattle.wt_call_data.specs.CallData.{next_number, param_by, params_of, put_param};

use crate::call_text::{source_slice, trimmed};
use std::alloc::Global;
use std::collections::BTreeMap;
use wt_span::{List, NoMemory, Outer, Range, Str};

/// A parameter by its name and value.
#[derive(Drop)]
struct Param {
    name: String,
    value: Str,
}

fn text_of(alloc: Global, text: &str) -> Result<String, NoMemory>
    ensures { IfOk result (λ s. string_bytes s ≡ text.now) }
{
    let mut copy = String::new(alloc);
    copy.push_str(text)?;
    Ok(copy)
}

fn digits(alloc: Global, number: usize) -> Result<String, NoMemory>
    ensures { IfOk result (λ s. string_bytes s ≡ decimal number) }
{
    let text = number.to_string(alloc)?;
    Ok(text)
}

/// A part after the target, before which so many parts have no name.
#[tactic(auto, unfolding(crate::specs::CallData::param_by))]
fn read_param<'a>(
    alloc: Global,
    outer: &Outer<'a>,
    number: usize,
    part: Range,
    equals: Option<u32>,
) -> Result<Param, NoMemory>
    requires sound { IsSoundPart (outer_call outer.now) (span_of part) equals }
    requires number { number + 1 < 2 ^ 64 }
    ensures { IfOk result (λ p. param_of p ≡ param_by (outer_call outer.now) number (span_of part) equals) }
{
    let _source = outer.source.as_str();
    match equals {
        None => Ok(Param {
            name: digits(alloc, number + 1)?,
            value: Str::copy_of(alloc, source_slice(outer, part.start, part.end))?,
        }),
        Some(place) => Ok(Param {
            name: text_of(alloc, trimmed(source_slice(outer, part.start, place)))?,
            value: Str::copy_of(alloc, trimmed(source_slice(outer, place + 1, part.end)))?,
        }),
    }
}

fn next_number(number: usize, equals: Option<u32>) -> usize
    requires { number + 1 < 2 ^ 64 }
    ensures { result ≡ next_number number equals }
{
    match equals {
        None => number + 1,
        Some(_) => number,
    }
}

fn put_param(map: &mut BTreeMap<String, Str>, param: Param) -> Result<(), NoMemory>
    ensures { OnOk result (entries_of map.new ≡ put_param (entries_of map.old) (param_of param)) }
{
    drop(map.insert(param.name, param.value)?);
    Ok(())
}

/// The entries of a map, in byte order of their names.
fn in_order(alloc: Global, map: BTreeMap<String, Str>) -> Result<List<(Str, Str)>, NoMemory>
    ensures { IfOk result (λ ps. pairs_of ps ≡ entries_of map) }
{
    let mut map = map;
    let mut pairs = List::new(alloc);
    while let Some((name, value)) = map.pop_first() {
        pairs.push((Str::from_string(name), value))?;
    }
    Ok(pairs)
}

/// The parameters of a call, in byte order of their names; of one name the last.
pub fn params<'a>(alloc: Global, outer: &Outer<'a>) -> Result<List<(Str, Str)>, NoMemory>
    requires { IsSoundCall (outer_call outer.now) }
    ensures { IfOk result (λ ps. pairs_of ps ≡ params_of (outer_call outer.now)) }
{
    let parts = outer.parts.as_slice();
    let equals = outer.equals.as_slice();
    let mut map = BTreeMap::new(alloc);
    let mut number = 0;
    for at in 1..parts.len() {
        let name_end = equals[at];
        let param = read_param(alloc, outer, number, parts[at], name_end)?;
        put_param(&mut map, param)?;
        number = next_number(number, name_end);
    }
    in_order(alloc, map)
}
