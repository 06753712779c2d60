ghost use Rattle.std.specs.Prelude.{◌≡◌, IfOk, Some, Ok};
ghost use Rattle.std.specs.List.{All};
ghost use Rattle.serde_json.specs.Read.{read};
ghost use Rattle.wt_datamw.specs.Mw.{mw_data, mw_text};
ghost use Rattle.wt_datamw.specs.MwRead.{mw_told, HasOrderedNames};
ghost use Rattle.wt_datamw.specs.MwValues.{IsParam, IsPart, IsMw};

use crate::mw_write::push_mw_text;
use crate::texts::{check_number, check_text, check_text_if_any, text_of};
use std::alloc::Global;
use wt_span::{NoMemory, Str};
use wt_tree::{DataMw, Part};

fn check_param(name: &Str, text: &Str)
    ensures { IsParam (name.now, text.now) }
{
    check_text(name);
    check_text(text);
}

fn check_params(params: &[(Str, Str)])
    ensures { All IsParam params.now }
{
    for (name, text) in params {
        check_param(name, text);
    }
}

fn check_part(part: &Part)
    ensures { IsPart part.now }
{
    match part {
        Part::Template {
            target,
            href,
            params,
            i,
        } => {
            check_text(target);
            check_text(href);
            check_params(params.as_slice());
            check_number(*i);
        }
        Part::Function {
            name,
            target,
            params,
            i,
        } => {
            check_text(name);
            check_text(target);
            check_params(params.as_slice());
            check_number(*i);
        }
        Part::Param { wt } => check_text(wt),
        Part::Literal(text) => check_text(text),
    }
}

fn check_parts(parts: &[Part])
    ensures { All IsPart parts.now }
{
    for part in parts {
        check_part(part);
    }
}

/// The texts of a value are UTF-8 and its numbers below 2^32.
fn check_mw(mw: &DataMw)
    ensures { IsMw mw.now }
{
    match mw {
        DataMw::Parts(parts) => check_parts(parts.as_slice()),
        DataMw::Extension { name, body } => {
            check_text(name);
            check_text_if_any(body);
        }
    }
}

/// The text of `data-mw`, as compact JSON with its keys in byte order. (It is not escaped for the
/// attribute.) Of parameters with one name the last is written.
#[tactic(auto, using(crate::proofs::MwUtf8::mw_utf8, crate::proofs::MwTold::mw_read, crate::proofs::MwTold::mw_back))]
pub fn to_text(alloc: Global, d: &DataMw) -> Result<Str, NoMemory>
    ensures text { IfOk result (λ text. text ≡ mw_text d.now) }
    ensures json { IfOk result (λ text. read text ≡ Some (mw_data d.now)) }
    // it reads back as the same value, if the parameters of each transclusion have distinct names
    // that are in byte order
    ensures back { HasOrderedNames d.now → IfOk result (λ text. mw_told text ≡ Ok d.now) }
{
    check_mw(d);
    let mut bytes = Vec::new(alloc);
    push_mw_text(alloc, &mut bytes, d)?;
    Ok(text_of(bytes))
}
