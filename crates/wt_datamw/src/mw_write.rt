//! The text of `data-mw`, written piece by piece.

ghost use Rattle.std.specs.Prelude.{◌≡◌, ◌++◌, OnOk, flat_map, map, true};
ghost use Rattle.std.specs.Cmp.Lexicographic.{slice_cmp};
ghost use Rattle.std.specs.List.Sorted.{IsStrictlySortedBy};
ghost use Rattle.std.specs.Ordering.{nat_cmp, is_lt};
ghost use Rattle.json.specs.Print.{quoted};
ghost use Rattle.serde_json.specs.Written.{compact_text};
ghost use Rattle.wt_datamw.specs.Mw.{params_data, mw_text};
ghost use Rattle.wt_datamw.specs.MwPieces.{value_start, param_text, later_param, params_listed, ordered_params, number_start, params_start, href_start, target_start, target_text, template_text, function_start, function_target_text, function_text, argument_start, part_text, later_part, parts_listed, parts_start, body_start, body_text, name_start, extension_text, mw_pieces};

use crate::disordered::push_disordered_params;
use crate::json_text::push_quoted;
use std::alloc::Global;
use wt_devices::{push, push_number};
use wt_span::{NoMemory, Str};
use wt_tree::{DataMw, Part};

/// A text as a string of JSON.
fn push_string(out: &mut Vec<u8>, text: &Str) -> Result<(), NoMemory>
    ensures { OnOk result (out.new.items ≡ out.old.items ++ quoted text.now) }
{
    push_quoted(out, text.as_str().as_bytes())
}

#[tactic(auto, unfolding(json::specs::Print::escape_byte, crate::specs::MwPieces::value_start))]
fn push_value_start(out: &mut Vec<u8>) -> Result<(), NoMemory>
    ensures { OnOk result (out.new.items ≡ out.old.items ++ value_start) }
{
    push(out, b":{\"wt\":")
}

/// A parameter: its name and its source.
fn push_param(out: &mut Vec<u8>, name: &Str, source: &Str) -> Result<(), NoMemory>
    ensures { OnOk result (out.new.items ≡ out.old.items ++ param_text (name.now, source.now)) }
{
    push_string(out, name)?;
    push_value_start(out)?;
    push_string(out, source)?;
    push(out, b"}")?;
    Ok(())
}

/// The parameters after the first one.
fn push_later_params(out: &mut Vec<u8>, params: &[(Str, Str)]) -> Result<(), NoMemory>
    ensures { OnOk result (out.new.items ≡ out.old.items ++ flat_map later_param params.now) }
{
    for (name, source) in params {
        push(out, b",")?;
        push_param(out, name, source)?;
    }
    Ok(())
}

fn push_params_listed(out: &mut Vec<u8>, params: &[(Str, Str)]) -> Result<(), NoMemory>
    ensures { OnOk result (out.new.items ≡ out.old.items ++ params_listed params.now) }
{
    match params {
        [] => Ok(()),
        [(name, source), rest @ ..] => {
            push_param(out, name, source)?;
            push_later_params(out, rest)
        }
    }
}

/// Parameters as they are.
#[tactic(auto, unfolding(crate::specs::MwPieces::ordered_params))]
fn push_as_they_stand(out: &mut Vec<u8>, params: &[(Str, Str)]) -> Result<(), NoMemory>
    ensures { OnOk result (out.new.items ≡ out.old.items ++ ordered_params params.now) }
{
    push(out, b"{")?;
    push_params_listed(out, params)?;
    push(out, b"}")?;
    Ok(())
}

/// Parameters whose names are distinct and are in byte order.
#[tactic(auto, using(crate::proofs::MwPieces::params_ordered))]
fn push_ordered_params(out: &mut Vec<u8>, params: &[(Str, Str)]) -> Result<(), NoMemory>
    requires { IsStrictlySortedBy (slice_cmp nat_cmp) (map (λ p. p.0) params.now) }
    ensures { OnOk result (out.new.items ≡ out.old.items ++ compact_text (params_data params.now)) }
{
    push_as_they_stand(out, params)
}

/// Whether a name comes before another one in byte order.
fn precedes(name: &Str, other: &Str) -> bool
    ensures { result ≡ is_lt (slice_cmp nat_cmp name.now other.now) }
{
    name.as_str().cmp(other.as_str()).is_lt()
}

/// Whether the names of parameters are distinct and are in byte order.
fn are_ordered(params: &[(Str, Str)]) -> bool
    ensures { result ≡ true → IsStrictlySortedBy (slice_cmp nat_cmp) (map (λ p. p.0) params.now) }
{
    for i in 1..params.len() {
        if !precedes(&params[i - 1].0, &params[i].0) {
            return false;
        }
    }
    true
}

/// The parameters of a transclusion. Nearly always their names are in order already.
fn push_params(alloc: Global, out: &mut Vec<u8>, params: &[(Str, Str)]) -> Result<(), NoMemory>
    ensures { OnOk result (out.new.items ≡ out.old.items ++ compact_text (params_data params.now)) }
{
    if are_ordered(params) {
        push_ordered_params(out, params)
    } else {
        push_disordered_params(alloc, out, params)
    }
}

#[tactic(auto, unfolding(json::specs::Print::escape_byte, crate::specs::MwPieces::number_start))]
fn push_number_start(out: &mut Vec<u8>) -> Result<(), NoMemory>
    ensures { OnOk result (out.new.items ≡ out.old.items ++ number_start) }
{
    push(out, b"{\"template\":{\"i\":")
}

#[tactic(auto, unfolding(json::specs::Print::escape_byte, crate::specs::MwPieces::params_start))]
fn push_params_start(out: &mut Vec<u8>) -> Result<(), NoMemory>
    ensures { OnOk result (out.new.items ≡ out.old.items ++ params_start) }
{
    push(out, b",\"params\":")
}

#[tactic(auto, unfolding(json::specs::Print::escape_byte, crate::specs::MwPieces::href_start))]
fn push_href_start(out: &mut Vec<u8>) -> Result<(), NoMemory>
    ensures { OnOk result (out.new.items ≡ out.old.items ++ href_start) }
{
    push(out, b",\"target\":{\"href\":")
}

#[tactic(auto, unfolding(json::specs::Print::escape_byte, crate::specs::MwPieces::target_start))]
fn push_target_start(out: &mut Vec<u8>) -> Result<(), NoMemory>
    ensures { OnOk result (out.new.items ≡ out.old.items ++ target_start) }
{
    push(out, b",\"wt\":")
}

/// The target of a transclusion, and its end.
#[tactic(auto, unfolding(crate::specs::MwPieces::target_text))]
fn push_target(out: &mut Vec<u8>, href: &Str, target: &Str) -> Result<(), NoMemory>
    ensures { OnOk result (out.new.items ≡ out.old.items ++ target_text href.now target.now) }
{
    push_href_start(out)?;
    push_string(out, href)?;
    push_target_start(out)?;
    push_string(out, target)?;
    push(out, b"}}}")?;
    Ok(())
}

#[tactic(auto, unfolding(json::specs::Print::escape_byte, crate::specs::MwPieces::function_start))]
fn push_function_start(out: &mut Vec<u8>) -> Result<(), NoMemory>
    ensures { OnOk result (out.new.items ≡ out.old.items ++ function_start) }
{
    push(out, b",\"target\":{\"function\":")
}

/// The target of a parser function, and its end.
#[tactic(auto, unfolding(crate::specs::MwPieces::function_target_text))]
fn push_function_target(out: &mut Vec<u8>, name: &Str, target: &Str) -> Result<(), NoMemory>
    ensures { OnOk result (out.new.items ≡ out.old.items ++ function_target_text name.now target.now) }
{
    push_function_start(out)?;
    push_string(out, name)?;
    push_target_start(out)?;
    push_string(out, target)?;
    push(out, b"}}}")?;
    Ok(())
}

/// A parser function: its number among the group's calls, its parameters, its target.
#[tactic(auto, unfolding(crate::specs::MwPieces::function_text))]
fn push_function(
    alloc: Global,
    out: &mut Vec<u8>,
    name: &Str,
    target: &Str,
    params: &[(Str, Str)],
    i: u32,
) -> Result<(), NoMemory>
    ensures { OnOk result (out.new.items ≡ out.old.items ++ function_text name.now target.now params.now i) }
{
    push_number_start(out)?;
    push_number(out, i)?;
    push_params_start(out)?;
    push_params(alloc, out, params)?;
    push_function_target(out, name, target)
}

/// A transclusion: its number among the group's calls, its parameters, its target.
#[tactic(auto, unfolding(crate::specs::MwPieces::template_text))]
fn push_template(
    alloc: Global,
    out: &mut Vec<u8>,
    target: &Str,
    href: &Str,
    params: &[(Str, Str)],
    i: u32,
) -> Result<(), NoMemory>
    ensures { OnOk result (out.new.items ≡ out.old.items ++ template_text target.now href.now params.now i) }
{
    push_number_start(out)?;
    push_number(out, i)?;
    push_params_start(out)?;
    push_params(alloc, out, params)?;
    push_target(out, href, target)
}

#[tactic(auto, unfolding(json::specs::Print::escape_byte, crate::specs::MwPieces::argument_start))]
fn push_argument_start(out: &mut Vec<u8>) -> Result<(), NoMemory>
    ensures { OnOk result (out.new.items ≡ out.old.items ++ argument_start) }
{
    push(out, b"{\"param\":{\"wt\":")
}

fn push_part(alloc: Global, out: &mut Vec<u8>, part: &Part) -> Result<(), NoMemory>
    ensures { OnOk result (out.new.items ≡ out.old.items ++ part_text part.now) }
{
    match part {
        Part::Template {
            target,
            href,
            params,
            i,
        } => push_template(alloc, out, target, href, params.as_slice(), *i),
        Part::Function {
            name,
            target,
            params,
            i,
        } => push_function(alloc, out, name, target, params.as_slice(), *i),
        Part::Param { wt } => {
            push_argument_start(out)?;
            push_string(out, wt)?;
            push(out, b"}}")?;
            Ok(())
        }
        Part::Literal(text) => push_string(out, text),
    }
}

/// The parts after the first one.
fn push_later_parts(alloc: Global, out: &mut Vec<u8>, parts: &[Part]) -> Result<(), NoMemory>
    ensures { OnOk result (out.new.items ≡ out.old.items ++ flat_map later_part parts.now) }
{
    for part in parts {
        push(out, b",")?;
        push_part(alloc, out, part)?;
    }
    Ok(())
}

fn push_parts_listed(alloc: Global, out: &mut Vec<u8>, parts: &[Part]) -> Result<(), NoMemory>
    ensures { OnOk result (out.new.items ≡ out.old.items ++ parts_listed parts.now) }
{
    match parts {
        [] => Ok(()),
        [part, rest @ ..] => {
            push_part(alloc, out, part)?;
            push_later_parts(alloc, out, rest)
        }
    }
}

#[tactic(auto, unfolding(json::specs::Print::escape_byte, crate::specs::MwPieces::parts_start))]
fn push_parts_start(out: &mut Vec<u8>) -> Result<(), NoMemory>
    ensures { OnOk result (out.new.items ≡ out.old.items ++ parts_start) }
{
    push(out, b"{\"parts\":[")
}

#[tactic(auto, unfolding(json::specs::Print::escape_byte, crate::specs::MwPieces::body_start))]
fn push_body_start(out: &mut Vec<u8>) -> Result<(), NoMemory>
    ensures { OnOk result (out.new.items ≡ out.old.items ++ body_start) }
{
    push(out, b"\"body\":{\"extsrc\":")
}

/// The inside of an extension tag, where it has one.
fn push_body(out: &mut Vec<u8>, body: &Option<Str>) -> Result<(), NoMemory>
    ensures { OnOk result (out.new.items ≡ out.old.items ++ body_text body.now) }
{
    match body {
        None => Ok(()),
        Some(text) => {
            push_body_start(out)?;
            push_string(out, text)?;
            push(out, b"},")?;
            Ok(())
        }
    }
}

#[tactic(auto, unfolding(json::specs::Print::escape_byte, crate::specs::MwPieces::name_start))]
fn push_name_start(out: &mut Vec<u8>) -> Result<(), NoMemory>
    ensures { OnOk result (out.new.items ≡ out.old.items ++ name_start) }
{
    push(out, b"\"name\":")
}

fn push_extension(out: &mut Vec<u8>, name: &Str, body: &Option<Str>) -> Result<(), NoMemory>
    ensures { OnOk result (out.new.items ≡ out.old.items ++ extension_text name.now body.now) }
{
    push(out, b"{")?;
    push_body(out, body)?;
    push_name_start(out)?;
    push_string(out, name)?;
    push(out, b"}")?;
    Ok(())
}

fn push_pieces(alloc: Global, out: &mut Vec<u8>, mw: &DataMw) -> Result<(), NoMemory>
    ensures { OnOk result (out.new.items ≡ out.old.items ++ mw_pieces mw.now) }
{
    match mw {
        DataMw::Parts(parts) => {
            push_parts_start(out)?;
            push_parts_listed(alloc, out, parts.as_slice())?;
            push(out, b"]}")?;
            Ok(())
        }
        DataMw::Extension { name, body } => push_extension(out, name, body),
    }
}

/// Appends the text of `data-mw`, as compact JSON with its keys in byte order. (It is not escaped
/// for the attribute.) Of parameters with one name the last is written. Memory of its own is taken
/// only where the names of a transclusion's parameters are not in byte order.
#[tactic(auto, using(crate::proofs::MwPieces::mw_text_pieces))]
pub fn push_mw_text(alloc: Global, out: &mut Vec<u8>, mw: &DataMw) -> Result<(), NoMemory>
    ensures { OnOk result (out.new.items ≡ out.old.items ++ mw_text mw.now) }
{
    push_pieces(alloc, out, mw)
}
