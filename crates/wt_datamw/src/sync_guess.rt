//! `data-parsoid` as it is mostly written, read without a tree of JSON values.

ghost use Rattle.std.specs.Prelude.{◌≡◌, Ok, IfOk, IfSome};
ghost use Rattle.wt_datamw.specs.SyncRead.{sync_told};

use crate::sync::{Sync, places_of};
use crate::sync_write::push_sync;
use std::alloc::Global;
use std::str::FromStr;
use wt_span::{NoMemory, Str};
use wt_tree::Ranges;

/// The texts of the common form, as they are there.
#[derive(Clone, Copy)]
struct Fields<'t> {
    closing: &'t str,
    dsr: Ranges,
    opening: &'t str,
    src: Option<&'t str>,
}

/// The next number of those between commas.
fn next_number<'t>(text: &'t str) -> Option<(u32, &'t str)> {
    let (number, rest) = text.split_once(',').unwrap_or((text, ""));
    Some((u32::from_str(number).ok()?, rest))
}

fn ranges_of(text: &str) -> Option<Ranges> {
    let (start, text) = next_number(text)?;
    let (end, text) = next_number(text)?;
    let (open_w, text) = next_number(text)?;
    let (close_w, _) = next_number(text)?;
    Some(Ranges {
        start,
        end,
        open_w,
        close_w,
    })
}

/// The closing delimiter, and what comes after the bracket of the places.
fn split_closing<'t>(text: &'t str) -> Option<(&'t str, &'t str)> {
    match text.strip_prefix("{\"c\":\"") {
        Some(rest) => rest.split_once("\",\"dsr\":["),
        None => Some(("", text.strip_prefix("{\"dsr\":[")?)),
    }
}

/// The opening delimiter or the source, of what comes after the places.
fn later_texts<'t>(text: &'t str) -> Option<(&'t str, Option<&'t str>)> {
    if text == "}" {
        return Some(("", None));
    }
    let text = text.strip_suffix("\"}")?;
    match text.strip_prefix(",\"o\":\"") {
        Some(opening) => Some((opening, None)),
        None => Some(("", Some(text.strip_prefix(",\"src\":\"")?))),
    }
}

fn fields_of<'t>(text: &'t str) -> Option<Fields<'t>> {
    let (closing, rest) = split_closing(text)?;
    let (places, rest) = rest.split_once(']')?;
    let (opening, src) = later_texts(rest)?;
    Some(Fields {
        closing,
        dsr: ranges_of(places)?,
        opening,
        src,
    })
}

/// What a text looks like at first sight; it may say something else, or nothing.
fn guess(alloc: Global, text: &str) -> Result<Option<Sync>, NoMemory> {
    let Some(fields) = fields_of(text) else {
        return Ok(None);
    };
    let src = match fields.src {
        None => None,
        Some(src) => Some(Str::copy_of(alloc, src)?),
    };
    Ok(Some(Sync {
        dsr: fields.dsr,
        opening: Str::copy_of(alloc, fields.opening)?,
        closing: Str::copy_of(alloc, fields.closing)?,
        src,
    }))
}

/// What a text says, if it is the very text that is written for what it looks like.
#[tactic(auto, using(crate::proofs::SyncTold::sync_read))]
pub fn read_as_written(alloc: Global, text: &str) -> Result<Option<Sync>, NoMemory>
    ensures { IfOk result (λ o. IfSome o (λ s. sync_told text.now ≡ Ok s)) }
{
    let Some(sync) = guess(alloc, text)? else {
        return Ok(None);
    };
    let _places = places_of(&sync);
    let mut again = Vec::with_capacity(alloc, text.len())?;
    push_sync(&mut again, &sync)?;
    if again.as_slice() != text.as_bytes() {
        return Ok(None);
    }
    Ok(Some(sync))
}
