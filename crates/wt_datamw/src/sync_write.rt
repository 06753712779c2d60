//! The text of `data-parsoid`, written piece by piece.

ghost use Rattle.std.specs.Prelude.{◌≡◌, ◌++◌, option_copied, OnOk};
ghost use Rattle.wt_datamw.specs.Sync.{sync_text};
ghost use Rattle.wt_datamw.specs.SyncPieces.{closing_text, next_text, dsr_text, opening_text, source_text, sync_pieces};

use crate::json_text::push_quoted;
use crate::sync::Sync;
use wt_devices::{push, push_number};
use wt_span::NoMemory;
use wt_tree::Ranges;

#[tactic(auto, unfolding(json::specs::Print::escape_byte))]
fn push_closing(out: &mut Vec<u8>, text: &str) -> Result<(), NoMemory>
    ensures { OnOk result (out.new.items ≡ out.old.items ++ closing_text text.now) }
{
    match text.as_bytes() {
        [] => Ok(()),
        bytes => {
            push(out, b"\"c\":")?;
            push_quoted(out, bytes)?;
            push(out, b",")
        }
    }
}

/// A number after another one.
fn push_next(out: &mut Vec<u8>, number: u32) -> Result<(), NoMemory>
    ensures { OnOk result (out.new.items ≡ out.old.items ++ next_text number) }
{
    push(out, b",")?;
    push_number(out, number)
}

#[tactic(auto, unfolding(json::specs::Print::escape_byte, crate::specs::SyncPieces::dsr_text))]
fn push_dsr(out: &mut Vec<u8>, dsr: Ranges) -> Result<(), NoMemory>
    ensures { OnOk result (out.new.items ≡ out.old.items ++ dsr_text dsr) }
{
    push(out, b"\"dsr\":[")?;
    push_number(out, dsr.start)?;
    push_next(out, dsr.end)?;
    push_next(out, dsr.open_w)?;
    push_next(out, dsr.close_w)?;
    push(out, b"]")
}

#[tactic(auto, unfolding(json::specs::Print::escape_byte))]
fn push_opening(out: &mut Vec<u8>, text: &str) -> Result<(), NoMemory>
    ensures { OnOk result (out.new.items ≡ out.old.items ++ opening_text text.now) }
{
    match text.as_bytes() {
        [] => Ok(()),
        bytes => {
            push(out, b",\"o\":")?;
            push_quoted(out, bytes)
        }
    }
}

#[tactic(auto, unfolding(json::specs::Print::escape_byte))]
fn push_source(out: &mut Vec<u8>, source: Option<&str>) -> Result<(), NoMemory>
    ensures { OnOk result (out.new.items ≡ out.old.items ++ source_text (option_copied source.entry)) }
{
    match source {
        None => Ok(()),
        Some(text) => {
            push(out, b",\"src\":")?;
            push_quoted(out, text.as_bytes())
        }
    }
}

fn push_pieces(
    out: &mut Vec<u8>,
    dsr: Ranges,
    opening: &str,
    closing: &str,
    src: Option<&str>,
) -> Result<(), NoMemory>
    ensures { OnOk result (out.new.items ≡ out.old.items
        ++ sync_pieces (record { dsr = dsr; opening = opening.now; closing = closing.now; src = option_copied src.entry })) }
{
    push(out, b"{")?;
    push_closing(out, closing)?;
    push_dsr(out, dsr)?;
    push_opening(out, opening)?;
    push_source(out, src)?;
    push(out, b"}")?;
    Ok(())
}

/// Appends the text of `data-parsoid` that says these places, delimiters and this source, as compact
/// JSON with its keys in byte order. (It is not escaped for the attribute.)
#[tactic(auto, using(crate::proofs::SyncPieces::sync_text_pieces))]
pub fn push_sync_text(
    out: &mut Vec<u8>,
    dsr: Ranges,
    opening: &str,
    closing: &str,
    src: Option<&str>,
) -> Result<(), NoMemory>
    ensures { OnOk result (out.new.items ≡ out.old.items
        ++ sync_text (record { dsr = dsr; opening = opening.now; closing = closing.now; src = option_copied src.entry })) }
{
    push_pieces(out, dsr, opening, closing, src)
}

fn source_in(sync: &Sync) -> Option<&str>
    ensures { option_copied result ≡ sync.now.src }
{
    match &sync.src {
        None => None,
        Some(text) => Some(text.as_str()),
    }
}

/// The same of what holds its texts itself.
pub fn push_sync(out: &mut Vec<u8>, sync: &Sync) -> Result<(), NoMemory>
    ensures { OnOk result (out.new.items ≡ out.old.items ++ sync_text sync.now) }
{
    push_sync_text(
        out,
        sync.dsr,
        sync.opening.as_str(),
        sync.closing.as_str(),
        source_in(sync),
    )
}
